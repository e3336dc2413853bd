// A list and its numbers as text: `NODES/NUMBERS/ROOM`.
use crate::out::{put_byte, put_count, put_piece};
use process_list::{Node, ProcessList};
use std::io;

fn put_node(rt: &impl Print, buffer: &mut [u8], at: usize, node: Node) -> io::Result<usize> {
    let mut piece = [0u8; 192];
    let n = shell_text::show::put_node(&mut piece, 0, node);
    put_piece(rt, buffer, at, &piece, n)
}

fn put_nodes(
    rt: &impl Print,
    buffer: &mut [u8],
    at: usize,
    list: ProcessList,
) -> io::Result<usize> {
    let mut held = at;
    for node in list.nodes.iter().take(list.count) {
        held = put_node(rt, buffer, held, *node)?;
    }
    Ok(held)
}

fn put_decimal(
    rt: &impl Print,
    buffer: &mut [u8],
    at: usize,
    coefficient: i64,
    power: i8,
) -> io::Result<usize> {
    let mut piece = [0u8; 32];
    let n = shell_text::show::put_decimal(&mut piece, 0, coefficient, power);
    put_piece(rt, buffer, at, &piece, n)
}

// The first numbers of the room, so many as are in use, `/` before the first and a comma before each other one; `/` alone where there are none.
fn put_numbers(
    rt: &impl Print,
    buffer: &mut [u8],
    at: usize,
    coefficients: &[i64],
    powers: &[i8],
    used: usize,
) -> io::Result<usize> {
    if used == 0 {
        return put_byte(rt, buffer, at, b'/');
    }
    let mut held = at;
    let mut mark = b'/';
    for (coefficient, power) in coefficients.iter().zip(powers).take(used) {
        held = put_byte(rt, buffer, held, mark)?;
        held = put_decimal(rt, buffer, held, *coefficient, *power)?;
        mark = b',';
    }
    Ok(held)
}

// A space, then the list with its numbers and the length of its room.
pub fn put_state(
    rt: &impl Print,
    buffer: &mut [u8],
    at: usize,
    list: ProcessList,
    room: usize,
    coefficients: &[i64],
    powers: &[i8],
) -> io::Result<usize> {
    let a = put_count(rt, buffer, at, b' ', list.count)?;
    let b = put_nodes(rt, buffer, a, list)?;
    let c = put_numbers(
        rt,
        buffer,
        b,
        coefficients,
        powers,
        process_list::used(list),
    )?;
    put_count(rt, buffer, c, b'/', room)
}

// The commands of the line protocol.
use crate::out::{flush, put_answer, put_byte, put_hex};
use crate::show::put_state;
use crate::{pixels, writes};
use process_list::ProcessList;
use reading::{list_left, told};
use shell_text::Command;
use shell_text::commands::command;
use std::io;
use tags::part;

// What the commands work on beside the table room's memory: the list, and the length of the room. The room ends with the shorter of its two
// slices, so that one of them, cut, makes a room of this length.
#[derive(Clone, Copy)]
pub struct State {
    pub list: ProcessList,
    pub room: usize,
}

// Answers a line that is no command.
fn unknown(rt: &impl Print) -> io::Result<()> {
    rt.write_all(b"?\n")
}

// Answers with the number, the place and the state that a reading or a replacing leaves, in room of this length.
fn print_answer(
    rt: &impl Print,
    said: (u8, usize),
    list: ProcessList,
    room: usize,
    coefficients: &[i64],
    powers: &[i8],
) -> io::Result<State> {
    let (number, place) = said;
    let mut buffer = [0u8; 4096];
    let a = put_answer(rt, &mut buffer, 0, number, place)?;
    let b = put_state(rt, &mut buffer, a, list, room, coefficients, powers)?;
    let c = put_byte(rt, &mut buffer, b, b'\n')?;
    flush(rt, &buffer, c)?;
    Ok(State { list, room })
}

// `R ROOM HEX`: reads the file into room for so many numbers.
fn read_file(
    rt: &impl Print,
    file: &[u8],
    room: usize,
    coefficients: &mut [i64],
    powers: &mut [i8],
) -> io::Result<State> {
    let n = room.min(powers.len());
    let answer = reading::read(file, coefficients, &mut powers[..n]);
    let list = list_left(&answer);
    print_answer(rt, told(&answer), list, room, coefficients, powers)
}

// `P K HEX`: puts the element in the place of node k, in the table room that the list was read into.
fn replace_by(
    rt: &impl Print,
    element: &[u8],
    k: usize,
    state: State,
    coefficients: &mut [i64],
    powers: &mut [i8],
) -> io::Result<State> {
    let State { mut list, room } = state;
    let n = room.min(powers.len());
    let answer = replacing::replace(&mut list, coefficients, &mut powers[..n], k, element);
    print_answer(rt, told(&answer), list, room, coefficients, powers)
}

// `N K NUMBER HEX`: the same by the feed's number.
fn replace_numbered_by(
    rt: &impl Print,
    element: &[u8],
    k: usize,
    number: u32,
    state: State,
    coefficients: &mut [i64],
    powers: &mut [i8],
) -> io::Result<State> {
    let State { mut list, room } = state;
    let n = room.min(powers.len());
    let lent = &mut powers[..n];
    let answer = replacing::replace_numbered(&mut list, coefficients, lent, k, number, element);
    print_answer(rt, told(&answer), list, room, coefficients, powers)
}

// `C HEX`: the file check.
fn check(rt: &impl Print, file: &[u8]) -> io::Result<()> {
    let (number, place) = told(&reading::check(file));
    let mut buffer = [0u8; 64];
    let a = put_answer(rt, &mut buffer, 0, number, place)?;
    let b = put_byte(rt, &mut buffer, a, b'\n')?;
    flush(rt, &buffer, b)
}

// `D K HEX`: the first Description inside node k.
fn description(rt: &impl Print, file: &[u8], k: usize) -> io::Result<()> {
    let mut buffer = [0u8; 4096];
    let (number, place) = told(&reading::description_number(file, k));
    let a = put_answer(rt, &mut buffer, 0, number, place)?;
    let b = put_byte(rt, &mut buffer, a, b' ')?;
    let d = put_hex(rt, &mut buffer, b, reading::description(file, k))?;
    let e = put_byte(rt, &mut buffer, d, b'\n')?;
    flush(rt, &buffer, e)
}

// `K HEX`: the check program's line.
fn check_line(rt: &impl Print, input: &[u8]) -> io::Result<()> {
    let text = check_line::check_line(input);
    flush(rt, &text.bytes, text.length)
}

// Answers a command that changes no state.
fn answer_alone(
    rt: &impl Print,
    line: &[u8],
    c: Command,
    state: State,
    coefficients: &[i64],
    powers: &[i8],
) -> io::Result<()> {
    let bytes = part(line, c.start, c.end);
    let n = state.room.min(powers.len());
    let room = &powers[..n];
    match c.letter {
        b'C' => check(rt, bytes),
        b'D' => description(rt, bytes, c.number),
        b'K' => check_line(rt, bytes),
        b'W' => writes::write(rt, bytes, c.number, state.list, coefficients, room),
        b'X' => pixels::run(rt, line, state.list, coefficients, room),
        _ => unknown(rt),
    }
}

// Answers a command line.
pub fn answer(
    rt: &impl Print,
    line: &mut [u8],
    state: State,
    coefficients: &mut [i64],
    powers: &mut [i8],
) -> io::Result<State> {
    let Some(c) = command(line) else {
        unknown(rt)?;
        return Ok(state);
    };
    let number = c.number;
    let bytes = part(line, c.start, c.end);
    match c.letter {
        b'R' => read_file(rt, bytes, number, coefficients, powers),
        b'P' => replace_by(rt, bytes, number, state, coefficients, powers),
        b'N' => replace_numbered_by(rt, bytes, number, c.feed, state, coefficients, powers),
        _ => {
            answer_alone(rt, line, c, state, coefficients, powers)?;
            Ok(state)
        }
    }
}

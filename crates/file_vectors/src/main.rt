#![tactic(auto)]

// Reads each file that the file `index` names, into room for the count of numbers that stands behind its name there, and prints a line
// for each: its name, the refusal number and place, how many nodes its list has, and how many numbers.
use bytes_in::read_full;
use reading::Answer;
use std::rt::Files;
use std::{fs, io, str};

fn print_answer(rt: &impl Print, name: &[u8], answer: Answer) -> io::Result<()> {
    let (number, place) = reading::told(&answer);
    let list = reading::list_left(&answer);
    let nodes = list.count;
    let numbers = process_list::used(list);
    rt.write_all(name)?;
    println!(rt; " {number} {place} {nodes} {numbers}")
}

// Reads a file of at most the buffer's length into the buffer, and answers how many bytes it has; 0 where it cannot be opened, which a line
// on standard error says. Its name is UTF-8: no other can be opened.
fn load(rt: &(impl Files + Eprint), name: &[u8], buffer: &mut [u8]) -> io::Result<usize> {
    let Ok(path) = str::from_utf8(name) else {
        eprintln!(rt; "a name that is not UTF-8")?;
        return Ok(0);
    };
    match fs::open(rt, path) {
        Ok(mut file) => read_full(&mut file, buffer),
        Err(e) => {
            eprintln!(rt; "{path}: {e}")?;
            Ok(0)
        }
    }
}

fn read(
    rt: &(impl Files + Print + Eprint),
    name: &[u8],
    room: usize,
    buffer: &mut [u8],
    coefficients: &mut [i64],
    powers: &mut [i8],
) -> io::Result<()> {
    let size = load(rt, name, buffer)?;
    let n = room.min(coefficients.len()).min(powers.len());
    let file = tags::part(buffer, 0, size);
    let answer = reading::read(file, &mut coefficients[..n], &mut powers[..n]);
    print_answer(rt, name, answer)
}

// A line of the index: a name and a room.
fn vector(
    rt: &(impl Files + Print + Eprint),
    line: &[u8],
    buffer: &mut [u8],
    coefficients: &mut [i64],
    powers: &mut [i8],
) -> io::Result<()> {
    let first = fields::next_field(line, 0);
    let second = fields::next_field(line, first.end);
    let name = tags::part(line, first.start, first.end);
    let room = fields::number(tags::part(line, second.start, second.end));
    match room {
        Some(n) => read(rt, name, n, buffer, coefficients, powers),
        None => rt.write_all(b"no room named\n"),
    }
}

fn vectors(
    rt: &(impl Files + Print + Eprint),
    index: &[u8],
    buffer: &mut [u8],
    coefficients: &mut [i64],
    powers: &mut [i8],
) -> io::Result<()> {
    for line in index.split_inclusive(|b| *b == b'\n') {
        let line = line.strip_suffix(b"\n").unwrap_or(line);
        vector(rt, line, buffer, coefficients, powers)?;
    }
    Ok(())
}

fn main(rt: HostRuntime) -> io::Result<()> {
    let mut index = [0u8; 65536];
    let mut buffer = [0u8; 327680];
    let mut coefficients = [0i64; 262144];
    let mut powers = [0i8; 262144];
    let n = load(&rt, b"index", &mut index)?;
    vectors(
        &rt,
        tags::part(&index, 0, n),
        &mut buffer,
        &mut coefficients,
        &mut powers,
    )
}

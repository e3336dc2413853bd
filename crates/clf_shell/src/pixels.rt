// Pixels through the list: `X WORD WORD ..`, each word the 16 hex digits of an f64's bits.
use crate::out::{flush, put_answer, put_byte, put_piece};
use process_list::ProcessList;
use shell_text::words::{bits, number};
use std::io;
use tags::part;

// Why the words of a line are no numbers for the room: one of them is malformed, or they are more than the room has.
#[derive(Clone, Copy, Debug, PartialEq, Eq)]
enum WordsFault {
    Malformed,
    TooMany,
}

// The numbers of the words of a line, from behind its first byte, into the room: how many they are.
fn words(line: &[u8], room: &mut [f64]) -> Result<usize, WordsFault> {
    let mut count = 0;
    let fields = part(line, 1, line.len()).split(|b| *b == b' ');
    for word in fields.filter(|w| !w.is_empty()) {
        let n = bits(word).ok_or(WordsFault::Malformed)?;
        if room.len() <= count {
            return Err(WordsFault::TooMany);
        }
        room[count] = number(n);
        count += 1;
    }
    Ok(count)
}

// The word of a number, a space before it.
fn put_float(rt: &impl Print, buffer: &mut [u8], at: usize, x: f64) -> io::Result<usize> {
    let mut piece = [0u8; 32];
    let n = shell_text::words::put_word(&mut piece, 0, x);
    put_piece(rt, buffer, at, &piece, n)
}

// The words of the numbers.
fn put_floats(rt: &impl Print, buffer: &mut [u8], at: usize, xs: &[f64]) -> io::Result<usize> {
    let mut held = at;
    for x in xs {
        held = put_float(rt, buffer, held, *x)?;
    }
    Ok(held)
}

// Runs the list over the pixels and answers with the number, the place and the pixels afterwards.
fn run_pixels(
    rt: &impl Print,
    list: ProcessList,
    coefficients: &[i64],
    powers: &[i8],
    pixels: &mut [f64],
) -> io::Result<()> {
    let mut buffer = [0u8; 4096];
    let (number, place) = running::told(running::run(list, coefficients, powers, pixels));
    let a = put_answer(rt, &mut buffer, 0, number, place)?;
    let b = put_floats(rt, &mut buffer, a, pixels)?;
    let c = put_byte(rt, &mut buffer, b, b'\n')?;
    flush(rt, &buffer, c)
}

// Runs the pixels of a line whose words were read into the room.
fn run_words(
    rt: &impl Print,
    read: Result<usize, WordsFault>,
    list: ProcessList,
    coefficients: &[i64],
    powers: &[i8],
    room: &mut [f64],
) -> io::Result<()> {
    match read {
        Err(WordsFault::Malformed) => rt.write_all(b"?\n"),
        Err(WordsFault::TooMany) => rt.write_all(b"too long\n"),
        Ok(n) => {
            if n <= room.len() {
                return run_pixels(rt, list, coefficients, powers, &mut room[..n]);
            }
            Ok(())
        }
    }
}

// `X WORD WORD ..`: runs the list over the numbers of the words, at most 65,536.
pub fn run(
    rt: &impl Print,
    line: &[u8],
    list: ProcessList,
    coefficients: &[i64],
    powers: &[i8],
) -> io::Result<()> {
    let mut room = [0.0f64; 65536];
    let read = words(line, &mut room);
    run_words(rt, read, list, coefficients, powers, &mut room)
}

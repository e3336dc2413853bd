// Output through a buffer: `at` is how many bytes it holds. Each function answers how many it holds then; a full buffer is written out.
use shell_text::hex::hex_pair;
use std::io;
use tags::part;

// Writes out what the buffer holds.
pub fn flush(rt: &impl Print, buffer: &[u8], at: usize) -> io::Result<()> {
    rt.write_all(part(buffer, 0, at))
}

pub fn put_byte(rt: &impl Print, buffer: &mut [u8], at: usize, b: u8) -> io::Result<usize> {
    if at < buffer.len() {
        buffer[at] = b;
        return Ok(at + 1);
    }
    flush(rt, buffer, at)?;
    if 0 < buffer.len() {
        buffer[0] = b;
        return Ok(1);
    }
    Ok(0)
}

pub fn put(rt: &impl Print, buffer: &mut [u8], at: usize, text: &[u8]) -> io::Result<usize> {
    let mut held = at;
    for b in text {
        held = put_byte(rt, buffer, held, *b)?;
    }
    Ok(held)
}

// The first n bytes of a piece.
pub fn put_piece(
    rt: &impl Print,
    buffer: &mut [u8],
    at: usize,
    piece: &[u8],
    n: usize,
) -> io::Result<usize> {
    put(rt, buffer, at, part(piece, 0, n))
}

// Bytes in hex, `-` for none.
pub fn put_hex(rt: &impl Print, buffer: &mut [u8], at: usize, bytes: &[u8]) -> io::Result<usize> {
    if bytes.is_empty() {
        return put_byte(rt, buffer, at, b'-');
    }
    let mut held = at;
    for b in bytes {
        held = put(rt, buffer, held, &hex_pair(*b))?;
    }
    Ok(held)
}

// The refusal number and its place.
pub fn put_answer(
    rt: &impl Print,
    buffer: &mut [u8],
    at: usize,
    number: u8,
    place: usize,
) -> io::Result<usize> {
    let mut piece = [0u8; 32];
    let n = shell_text::show::put_answer(&mut piece, 0, number, place);
    put_piece(rt, buffer, at, &piece, n)
}

// A byte, then the digits of n.
pub fn put_count(
    rt: &impl Print,
    buffer: &mut [u8],
    at: usize,
    before: u8,
    n: usize,
) -> io::Result<usize> {
    let mut piece = [0u8; 32];
    let k = text_out::put_digits(&mut piece, 0, n);
    let held = put_byte(rt, buffer, at, before)?;
    put_piece(rt, buffer, held, &piece, k)
}

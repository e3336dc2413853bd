// The command W: the list written out.
use crate::out::{flush, put_answer, put_byte, put_count, put_hex};
use process_list::ProcessList;
use shell_text::lines::is_too_long;
use std::io;
use tags::part;

// Answers with the number, its place, the length and the bytes of a text.
fn print_text(rt: &impl Print, number: u8, text: &[u8]) -> io::Result<()> {
    let mut buffer = [0u8; 4096];
    let a = put_answer(rt, &mut buffer, 0, number, 0)?;
    let b = put_count(rt, &mut buffer, a, b' ', text.len())?;
    let c = put_byte(rt, &mut buffer, b, b' ')?;
    let d = put_hex(rt, &mut buffer, c, text)?;
    let e = put_byte(rt, &mut buffer, d, b'\n')?;
    flush(rt, &buffer, e)
}

// Writes the list under the id into so many bytes of the output, or into all of it where it has fewer: a text that those would hold and
// these do not is too long.
fn write_in(
    rt: &impl Print,
    output: &mut [u8],
    id: &[u8],
    length: usize,
    list: ProcessList,
    coefficients: &[i64],
    powers: &[i8],
) -> io::Result<()> {
    let room = length.min(output.len());
    let wrote = writing::write(list, coefficients, powers, id, &mut output[..room]);
    let (number, n) = writing::told(wrote);
    if is_too_long(number, room, length) {
        return rt.write_all(b"too long\n");
    }
    print_text(rt, number, part(output, 0, n))
}

// `W IDHEX OUTLEN`: writes the list under the id into an output of so many bytes.
pub fn write(
    rt: &impl Print,
    id: &[u8],
    length: usize,
    list: ProcessList,
    coefficients: &[i64],
    powers: &[i8],
) -> io::Result<()> {
    let mut output = [0u8; 2097152];
    write_in(rt, &mut output, id, length, list, coefficients, powers)
}

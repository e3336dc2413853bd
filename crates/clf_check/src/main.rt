#![tactic(auto)]

// The check program: reads a file from standard input and prints whether it is accepted, or its refusal number and place.
use bytes_in::read_full;
use std::io;

fn print(rt: &impl Print, bytes: &[u8], length: usize) -> io::Result<()> {
    if length <= bytes.len() {
        return rt.write_all(&bytes[..length]);
    }
    Ok(())
}

// One byte more than the check takes, so that longer input is told from input of the most bytes.
fn main(rt: HostRuntime) -> io::Result<()> {
    let mut input = [0u8; 65537];
    let n = read_full(&mut rt.stdin(), &mut input)?;
    let line = check_line::check_line(&input[..n]);
    print(&rt, &line.bytes, line.length)
}

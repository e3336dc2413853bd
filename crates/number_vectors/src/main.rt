#![tactic(auto)]

// Runs the number reader over the tokens of the file `tokens`, one a line. It writes a line for each token, `coefficient:power` or the
// refusal number, 9 or 25, and then how many tokens there were and how many of them are numbers.
ghost use Rattle.std.specs.Prelude.{◌≤◌, IfOk};

use bytes_in::read_full;
use decimal::{NumberFault, Token};
use std::fs::File;
use std::io;

// How many tokens there were, and how many of them are numbers.
#[derive(Clone, Copy, Debug, PartialEq, Eq)]
struct Counts {
    tokens: u64,
    numbers: u64,
}

// Answers how many numbers a token is: 1 or 0.
fn print_token(rt: &impl Print, t: Token) -> io::Result<u64>
    ensures { IfOk result (λ n. n ≤ 1) }
{
    match t {
        Ok(d) => {
            println!(rt; "{}:{}", d.coefficient, d.power)?;
            Ok(1)
        }
        Err(NumberFault::Malformed) => {
            println!(rt; "9")?;
            Ok(0)
        }
        Err(NumberFault::OutOfBounds) => {
            println!(rt; "25")?;
            Ok(0)
        }
    }
}

// The tokens of s, each ended by a line feed.
fn run(rt: &impl Print, s: &[u8]) -> io::Result<Counts> {
    let mut counts = Counts {
        tokens: 0,
        numbers: 0,
    };
    let mut rest = s;
    while let Some(end) = rest.iter().position(|b| *b == b'\n') {
        counts.numbers += print_token(rt, decimal_read::number(&rest[..end]))?;
        counts.tokens += 1;
        rest = &rest[end + 1..];
    }
    Ok(counts)
}

// A file that cannot be opened is told on standard error.
fn main(rt: HostRuntime) -> io::Result<()> {
    let mut file = match File::open(&rt, "tokens") {
        Ok(file) => file,
        Err(e) => return eprintln!(rt; "tokens: {e}"),
    };
    let mut buffer = [0u8; 65536];
    let n = read_full(&mut file, &mut buffer)?;
    let c = run(&rt, &buffer[..n])?;
    println!(rt; "{} tokens, {} numbers", c.tokens, c.numbers)
}

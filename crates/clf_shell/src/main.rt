#![tactic(auto)]

// The line protocol: each line of standard input is a command, answered by one line on standard output (tests/PROTOCOL.md). A line
// that is longer than the buffer is answered `too long`.

mod commands;
mod out;
mod pixels;
mod show;
mod writes;

use commands::State;
use shell_text::lines::line_end;
use std::io;
use std::io::Read;
use tags::part;

// A line of the input: it stands in the buffer from `start` up to `stop`, or was dropped since it is too long.
#[derive(Clone, Copy, Debug, PartialEq, Eq)]
enum Line {
    Kept { start: usize, stop: usize },
    TooLong,
}

// How far the input is read: the next line starts in the buffer at `next`, and the buffer holds the bytes before `end`.
#[derive(Clone, Copy, Debug, PartialEq, Eq)]
struct Progress {
    next: usize,
    end: usize,
}

// One read behind the bytes that are held: how many bytes the buffer holds then.
fn read_more(input: &mut impl Read, buffer: &mut [u8], held: usize) -> io::Result<usize> {
    if held < buffer.len() {
        let n = input.read(&mut buffer[held..])?;
        return Ok(held + n);
    }
    Ok(held)
}

// Moves the beginning of a line, which stands from `start` up to `end`, to the start of the buffer, and answers how many bytes it has. A line
// that fills the buffer is too long: of that one none is kept.
fn unfinished(buffer: &mut [u8], start: usize, end: usize) -> Option<usize> {
    let end = end.min(buffer.len());
    if end <= start {
        return Some(0);
    }
    let held = end - start;
    if held == buffer.len() {
        return None;
    }
    if 0 < start {
        buffer.copy_within(start..end, 0);
    }
    Some(held)
}

// The line of these bytes, unless it is dropped.
fn line_of(start: usize, stop: usize, dropped: bool) -> Line {
    if dropped {
        return Line::TooLong;
    }
    Line::Kept { start, stop }
}

// A line that is not ended by a line feed, at the end of the input: none where there is no byte of it.
fn last_line(held: usize, dropped: bool) -> Option<Line> {
    if dropped || 0 < held {
        return Some(line_of(0, held, dropped));
    }
    None
}

// The next line, read as far as its line feed; none at the end of the input. A proved loop has to end, and nothing says that the input does. So this
// loop and that of `serve` have a number of turns that no run uses up.
fn next_line(
    input: &mut impl Read,
    buffer: &mut [u8],
    read: &mut Progress,
) -> io::Result<Option<Line>> {
    let mut start = read.next;
    let mut seen = read.next;
    let mut dropped = false;
    for _ in 0..u64::MAX {
        let limit = read.end.min(buffer.len());
        let stop = line_end(part(buffer, 0, limit), seen);
        if stop < limit {
            read.next = stop + 1;
            return Ok(Some(line_of(start, stop, dropped)));
        }
        let mut held = 0;
        if !dropped {
            let kept = unfinished(buffer, start, read.end);
            dropped = kept.is_none();
            held = kept.unwrap_or(0);
        }
        start = 0;
        seen = held;
        read.end = read_more(input, buffer, held)?;
        if read.end <= held {
            read.next = held;
            return Ok(last_line(held, dropped));
        }
    }
    Ok(None)
}

// Answers a line.
fn answered(
    rt: &impl Print,
    buffer: &mut [u8],
    line: Line,
    state: State,
    coefficients: &mut [i64],
    powers: &mut [i8],
) -> io::Result<State> {
    match line {
        Line::TooLong => {
            rt.write_all(b"too long\n")?;
            Ok(state)
        }
        Line::Kept { start, stop } => {
            if let Some(bytes) = buffer.get_mut(start..stop) {
                return commands::answer(rt, bytes, state, coefficients, powers);
            }
            Ok(state)
        }
    }
}

fn serve(
    rt: &impl Print,
    input: &mut impl Read,
    buffer: &mut [u8],
    coefficients: &mut [i64],
    powers: &mut [i8],
) -> io::Result<()> {
    let mut state = State {
        list: process_list::empty(),
        room: 0,
    };
    let mut read = Progress { next: 0, end: 0 };
    for _ in 0..u64::MAX {
        let Some(line) = next_line(input, buffer, &mut read)? else {
            return Ok(());
        };
        state = answered(rt, buffer, line, state, coefficients, powers)?;
    }
    Ok(())
}

fn main(rt: HostRuntime) -> io::Result<()> {
    let mut buffer = [0u8; 2097152];
    let mut coefficients = [0i64; 262144];
    let mut powers = [0i8; 262144];
    serve(
        &rt,
        &mut rt.stdin(),
        &mut buffer,
        &mut coefficients,
        &mut powers,
    )
}

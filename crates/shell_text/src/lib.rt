#![tactic(auto)]

// What the console's lines say and how its answers are written (tests/PROTOCOL.md), without input and output: words of a line to bytes and
// numbers, and the pieces of an answer as text.
pub mod commands;
pub mod hex;
pub mod lines;
pub mod show;
pub mod words;

// The numbers that stand in a line before its bytes: the command's own and that of the feed, 0 where the command has none; then the place behind them.
#[derive(Clone, Copy, Debug, PartialEq, Eq)]
pub struct Numbers {
    pub number: usize,
    pub feed: u32,
    pub end: usize,
}

// What a letter asks of its line: bytes alone, a number and bytes, two numbers and bytes, or an id and a number.
#[derive(Clone, Copy, Debug, PartialEq, Eq)]
pub enum Form {
    Bytes,
    Numbered,
    Fed,
    Named,
}

// A command: its letter, its number (0 where it has none), the feed's number of a numbered replacement (0 for every other command), and its bytes, which
// stand in the line from `start` up to `end`.
#[derive(Clone, Copy, Debug, PartialEq, Eq)]
pub struct Command {
    pub letter: u8,
    pub number: usize,
    pub feed: u32,
    pub start: usize,
    pub end: usize,
}

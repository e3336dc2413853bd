#![tactic(auto)]

// The reader of a number token (document 01, Numbers), in one pass over its bytes: maybe a sign, digits with or without a point, maybe
// an exponent. `number` is the reader; every other function is a step of it.
ghost use Rattle.std.specs.Prelude.{◌≡◌, ◌+◌, ◌-◌, ◌≤◌, ◌<◌, ◌^◌, length, drop, pos, ◌-ℤ◌};
ghost use Rattle.decimal_read.specs.Number.{is_minus, behind_sign, with_sign, token_of};
ghost use Rattle.decimal_read.specs.Told.{TellsApart};
ghost use Rattle.decimal_read.specs.Steps.{held_with, RunOf, FractionOf, exponent_of, exponent_at, zeros_of, coefficient_of, ranged, settled, raised};

use decimal::{Decimal, NumberFault, Token};

// What the digits read so far say. Below 10^18, `value` is their number. From then on a digit 0 is counted in `dropped`, and any other
// digit makes `value` 10^18 + 1, a number out of range.
#[derive(Clone, Copy, Debug, PartialEq, Eq)]
struct Held {
    value: u64,
    dropped: usize,
}

// No digit read yet.
const NO_DIGITS: Held = Held {
    value: 0,
    dropped: 0,
};

// A run of digits: what they say behind the digits before, how many they are, and the place behind them.
#[derive(Clone, Copy, Debug, PartialEq, Eq)]
struct Run {
    held: Held,
    count: usize,
    end: usize,
}

// An exponent: so many powers of ten up or down.
#[derive(Clone, Copy, Debug, PartialEq, Eq)]
enum Exponent {
    Up(u8),
    Down(u8),
}

// A number without the zeros at its end, and how many there were.
#[derive(Clone, Copy, Debug, PartialEq, Eq)]
struct Stripped {
    coefficient: u64,
    zeros: usize,
}

// Whether a minus stands at `at`.
fn is_minus(t: &[u8], at: usize) -> bool
    ensures { result ≡ is_minus (drop at t.now) }
{
    at < t.len() && t[at] == b'-'
}

// The place behind a sign, if one stands at `at`.
fn behind_sign(t: &[u8], at: usize) -> usize
    requires { at ≤ length t.now }
    ensures { (drop result t.now ≡ behind_sign (drop at t.now)) × (result ≤ length t.now) }
{
    if t.len() <= at {
        return at;
    }
    if t[at] == b'-' || t[at] == b'+' {
        return at + 1;
    }
    at
}

impl Held {
    // One digit more.
    fn with_digit(self, b: u8) -> Held
        requires { (48 ≤ b) × (b ≤ 57) × (self.value < 10 ^ 19) × (self.dropped + 1 < 2 ^ 64) }
        ensures { (result ≡ held_with self (b - 48)) × (result.value < 10 ^ 19) × (result.dropped ≤ self.dropped + 1) }
    {
        if self.value < 1000000000000000000 {
            return Held {
                value: self.value * 10 + u64::from(b - b'0'),
                ..self
            };
        }
        Held {
            value: if b == b'0' {
                self.value
            } else {
                1000000000000000001
            },
            dropped: self.dropped + 1,
        }
    }
}

// The run of digits at `at`, behind the digits that `start` holds.
fn run_at(t: &[u8], at: usize, start: Held) -> Run
    requires { (at ≤ length t.now) × (start.value < 10 ^ 19) × (start.dropped ≤ at) }
    ensures { RunOf t.now at start result }
{
    let mut held = start;
    let mut rest = &t[at..];
    while let Some((b, more)) = rest.split_first() {
        if !b.is_ascii_digit() {
            break;
        }
        held = held.with_digit(*b);
        rest = more;
    }
    let end = t.len() - rest.len();
    Run {
        held,
        count: end - at,
        end,
    }
}

// The digits behind a point, if one stands behind the digits of `whole`.
fn fraction(t: &[u8], whole: Run) -> Run
    requires { (whole.end ≤ length t.now) × (whole.held.value < 10 ^ 19) × (whole.held.dropped ≤ whole.end) }
    ensures { FractionOf t.now whole result }
{
    if whole.end < t.len() && t[whole.end] == b'.' {
        return run_at(t, whole.end + 1, whole.held);
    }
    Run { count: 0, ..whole }
}

// One or two digits of an exponent as its size.
fn exponent_of(minus: bool, run: Run) -> Option<Exponent>
    requires { 1 ≤ run.count → run.count ≤ 2 → run.held.value < 100 }
    ensures { result ≡ exponent_of minus run.count run.held.value }
{
    if run.count < 1 || 2 < run.count {
        return None;
    }
    let size = run.held.value as u8;
    if minus {
        Some(Exponent::Down(size))
    } else {
        Some(Exponent::Up(size))
    }
}

// What stands behind the digits: nothing, or an exponent to the end; none where it is something else.
fn exponent_at(t: &[u8], at: usize) -> Option<Exponent>
    requires { at ≤ length t.now }
    ensures { result ≡ exponent_at (drop at t.now) }
{
    if t.len() <= at {
        return Some(Exponent::Up(0));
    }
    if t[at] != b'e' && t[at] != b'E' {
        return None;
    }
    let run = run_at(t, behind_sign(t, at + 1), NO_DIGITS);
    if run.end < t.len() {
        return None;
    }
    exponent_of(is_minus(t, at + 1), run)
}

// The number without the zeros at its end.
fn strip(value: u64) -> Stripped
    requires { (0 < value) × (value < 10 ^ 19) }
    ensures { (result.coefficient ≡ coefficient_of value) × (result.zeros ≡ zeros_of value) × (result.zeros ≤ 20) }
{
    let mut coefficient = value;
    let mut zeros: usize = 0;
    // A number is divided, and nothing is gone over: no `for` is plainer.
    while coefficient % 10 == 0 {
        coefficient /= 10;
        zeros += 1;
    }
    Stripped { coefficient, zeros }
}

fn signed(negative: bool, size: u64) -> i64
    requires { size < 10 ^ 15 }
    ensures { result ≡ with_sign negative size }
{
    let z = size as i64;
    if negative { -z } else { z }
}

fn lowered(power: usize) -> i8
    requires { power ≤ 44 }
    ensures { result ≡ pos power -ℤ pos 22 }
{
    power as i8 - 22
}

// The coefficient times 10 to the above, over 10 to the below + 22: a number if both are in range, else out of bounds.
fn range(negative: bool, c: u64, above: usize, below: usize) -> Token
    requires { below < 2 ^ 63 }
    ensures { result ≡ ranged negative c above below }
{
    if 1000000000000000 <= c || above < below || 44 + below < above {
        return Err(NumberFault::OutOfBounds);
    }
    Ok(Decimal {
        coefficient: signed(negative, c),
        power: lowered(above - below),
    })
}

// What a token of `size` bytes says whose digits end in the run `part`, the one behind the point, times 10 to the up, over 10 to the down.
fn settle(negative: bool, size: usize, part: Run, up: u8, down: u8) -> Token
    requires { (part.held.value < 10 ^ 19) × (part.held.dropped ≤ size) × (part.count ≤ size) }
    ensures { result ≡ settled negative size part.held part.count up down }
{
    if 64 < size {
        return Err(NumberFault::OutOfBounds);
    }
    let held = part.held;
    if held.value == 0 {
        return Ok(Decimal {
            coefficient: 0,
            power: 0,
        });
    }
    let s = strip(held.value);
    range(
        negative,
        s.coefficient,
        22 + held.dropped + s.zeros + usize::from(up),
        part.count + usize::from(down),
    )
}

// What it says times 10 to the exponent.
fn raise(negative: bool, size: usize, part: Run, e: Exponent) -> Token
    requires { (part.held.value < 10 ^ 19) × (part.held.dropped ≤ size) × (part.count ≤ size) }
    ensures { result ≡ raised negative size part.held part.count e }
{
    match e {
        Exponent::Up(n) => settle(negative, size, part, n, 0),
        Exponent::Down(n) => settle(negative, size, part, 0, n),
    }
}

// What a token says: a number of document 01's form within its limits, no number, or one of the form that is out of bounds.
pub fn number(token: &[u8]) -> Token
    ensures { (result ≡ token_of token.now) × TellsApart token.now result }
{
    let whole = run_at(token, behind_sign(token, 0), NO_DIGITS);
    let part = fraction(token, whole);
    if whole.count + part.count < 1 {
        return Err(NumberFault::Malformed);
    }
    let e = exponent_at(token, part.end).ok_or(NumberFault::Malformed)?;
    raise(is_minus(token, 0), token.len(), part, e)
}

// The words of the command X: the 16 hex digits of an f64's bits.
ghost use Rattle.std.specs.Prelude.{◌≡◌, ◌++◌};
ghost use Rattle.std.specs.Float.{binary64};
ghost use Rattle.std.specs.Float.Ieee.{of_bits};
ghost use Rattle.text_out.specs.Output.{Puts};
ghost use Rattle.shell_text.specs.Words as Words;

use crate::hex::{digit, glyph};
use text_out::put;

// A word of 16 hex digits; each digit moves those before it up by one, so no more than the last 16 would count.
pub fn bits(word: &[u8]) -> Option<u64>
    ensures { result ≡ Words.bits_of word.now }
{
    if word.len() != 16 {
        return None;
    }
    let mut n: u64 = 0;
    for b in word {
        let d = digit(*b)?;
        n = n % 1152921504606846976 * 16 + d as u64;
    }
    Some(n)
}

// The number of a bit pattern, for each pattern of a NaN the same NaN: an exponent's field of all ones with other digits is a NaN.
pub fn number(n: u64) -> f64
    ensures { result ≡ of_bits binary64 n }
{
    let field = n % 9223372036854775808 / 4503599627370496;
    if field != 2047 {
        return f64::from_bits(n);
    }
    if n % 4503599627370496 != 0 {
        return 0.0 / 0.0;
    }
    f64::from_bits(n)
}

// 64 bits as 16 hex digits, the highest first.
fn put_bits(out: &mut [u8], at: usize, n: u64) -> usize
    ensures { Puts (λ t. Words.bits_text n ++ t) at out.old out.new result }
{
    let mut held = at;
    let mut rest = n;
    for _ in 0..16usize {
        let top = [glyph((rest / 1152921504606846976 % 16) as u8)];
        held = put(out, held, &top);
        rest = rest % 1152921504606846976 * 16;
    }
    held
}

// The word of a number, a space before it; every NaN is written as the same one.
pub fn put_word(out: &mut [u8], at: usize, x: f64) -> usize
    ensures { Puts (Words.word_text x) at out.old out.new result }
{
    let a = put(out, at, b" ");
    if x != x {
        return put_bits(out, a, 9221120237041090560);
    }
    put_bits(out, a, f64::to_bits(x))
}

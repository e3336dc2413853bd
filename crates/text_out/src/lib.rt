#![tactic(auto)]

// Text into a lent output, piece by piece: each piece stands from index `at` on, as far as the output goes, and the answer is the index
// behind it. What does not fit is only counted, so an output without room gives a text's length.
ghost use Rattle.std.specs.Prelude.{◌≡◌, ◌∷◌, ◌++◌, ◌+◌};
ghost use Rattle.decimal_write.specs.Written.{digits, whole_text, exponent, written_of};
ghost use Rattle.text_out.specs.Output.{counted, Puts};

use decimal::Decimal;

fn put_byte(out: &mut [u8], at: usize, b: u8) -> usize
    ensures { Puts (λ t. b ∷ t) at out.old out.new result }
{
    if at < out.len() {
        out[at] = b;
    }
    at.saturating_add(1)
}

// The bytes of a text.
pub fn put(out: &mut [u8], at: usize, text: &[u8]) -> usize
    ensures { Puts (λ t. text.now ++ t) at out.old out.new result }
{
    let mut held = at;
    for b in text {
        held = put_byte(out, held, *b);
    }
    held
}

// The digits of n.
pub fn put_digits(out: &mut [u8], at: usize, n: usize) -> usize
    ensures { Puts (λ t. digits n ++ t) at out.old out.new result }
{
    if n < 10 {
        return put_byte(out, at, 48 + (n as u8));
    }
    let held = put_digits(out, at, n / 10);
    put_byte(out, held, 48 + ((n % 10) as u8))
}

// A whole number: a minus sign if it is below 0, then the digits of its size.
pub fn put_whole(out: &mut [u8], at: usize, z: i64) -> usize
    ensures { Puts (λ t. whole_text z ++ t) at out.old out.new result }
{
    if z < 0 {
        let held = put_byte(out, at, b'-');
        return put_digits(out, held, decimal_write::size(z) as usize);
    }
    put_digits(out, at, decimal_write::size(z) as usize)
}

// `e` and the power, unless the power is 0.
fn put_exponent(out: &mut [u8], at: usize, p: i64) -> usize
    ensures { Puts (λ t. exponent p ++ t) at out.old out.new result }
{
    if p == 0 {
        return at;
    }
    let held = put_byte(out, at, b'e');
    put_whole(out, held, p)
}

// A number: its coefficient, then `e` and the power unless 0. A pair out of range has no text.
pub fn put_number(out: &mut [u8], at: usize, number: Decimal) -> usize
    ensures { Puts (λ t. written_of number ++ t) at out.old out.new result }
{
    if decimal_write::in_range(number) {
        let held = put_whole(out, at, number.coefficient);
        return put_exponent(out, held, decimal_write::wide(number.power));
    }
    at
}

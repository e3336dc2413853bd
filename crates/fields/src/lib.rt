#![tactic(auto)]

// Fields of a line of text: words parted by spaces, and the number that a word says.
ghost use Rattle.std.specs.Prelude.{◌≡◌, ◌≤◌, eqb, false, get_or};
ghost use Rattle.fields.specs.Fields.{FirstFrom, field_from, with_digit, word_number};

// Where a field stands in its line: from `start` up to `end`.
#[derive(Clone, Copy, Debug, PartialEq, Eq)]
pub struct Field {
    pub start: usize,
    pub end: usize,
}

// The first place from `at` on whose byte passes the test, or the end of the line.
fn first_where<F: Fn(u8) -> bool>(line: &[u8], at: usize, test: F) -> usize
    requires { F.IsAlwaysCallable test }
    ensures { FirstFrom (F.post test) line.now at result }
{
    for i in at..line.len() {
        if test(line[i]) {
            return i;
        }
    }
    at.max(line.len())
}

// The first place from `at` on of a byte to which a test answers true, or the end of the line. The test is handed in as its answers to the 256 bytes: of a closure
// a public function would have to ask that it can be called.
pub fn first_from(line: &[u8], at: usize, answers: &[bool; 256]) -> usize
    ensures { FirstFrom (λ b t. t ≡ get_or answers.now b false) line.now at result }
{
    first_where(line, at, |b| answers[usize::from(b)])
}

// The first place from `at` on of this byte, or the end of the line.
pub fn first_byte(line: &[u8], at: usize, wanted: u8) -> usize
    ensures { FirstFrom (λ b t. t ≡ eqb b wanted) line.now at result }
{
    first_where(line, at, |b| b == wanted)
}

// The next field from `at` on; an empty one where there is none.
pub fn next_field(line: &[u8], at: usize) -> Field
    ensures { result ≡ field_from line.now at }
{
    let start = first_where(line, at, |b| b != b' ');
    let end = first_where(line, start, |b| b == b' ');
    Field { start, end }
}

// n with the digit of a byte more, or the largest number.
fn with_digit(n: usize, b: u8) -> usize
    requires { (48 ≤ b) × (b ≤ 57) }
    ensures { result ≡ with_digit n b }
{
    n.saturating_mul(10).saturating_add(usize::from(b - b'0'))
}

// The number of a word of digits; one larger than a usize holds counts as the largest of them.
pub fn number(word: &[u8]) -> Option<usize>
    ensures { result ≡ word_number word.now }
{
    if word.is_empty() {
        return None;
    }
    let mut n = 0;
    for &b in word {
        if !b.is_ascii_digit() {
            return None;
        }
        n = with_digit(n, b);
    }
    Some(n)
}

#[cfg(test)]
mod tests {
    use super::*;

    #[test]
    fn first_from_goes_by_the_answers(rt: HostRuntime) {
        let mut answers = [false; 256];
        answers[usize::from(b' ')] = true;
        answers[255] = true;
        let line = b"red \xFF blue";
        for (at, place) in [(0, 3), (3, 3), (4, 4), (5, 5), (6, 10), (10, 10), (12, 12)] {
            assert_eq!(rt; first_from(line, at, &answers), place, "from {at}");
        }
        assert_eq!(rt; first_from(b"", 0, &answers), 0);
        assert_eq!(rt; first_from(line, 0, &[false; 256]), 10);
        assert_eq!(rt; first_from(line, 0, &[true; 256]), 0);
    }
}

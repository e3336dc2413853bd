// Bytes as hex digits, two a byte, `-` for no bytes.
ghost use Rattle.std.specs.Prelude.{◌≡◌};
ghost use Rattle.shell_text.specs.Hex as Hex;

use fields::Field;

// The value of a hex digit.
pub fn digit(b: u8) -> Option<u8>
    ensures { result ≡ Hex.digit_of b }
{
    match b {
        b'0'..=b'9' => Some(b - b'0'),
        b'a'..=b'f' => Some(b - b'a' + 10),
        _ => None,
    }
}

// The hex digit of a value.
pub fn glyph(d: u8) -> u8
    ensures { result ≡ Hex.glyph_of d }
{
    match d {
        0..10 => b'0' + d,
        10..16 => b'a' + (d - 10),
        _ => b'?',
    }
}

// The two digits of a byte.
pub fn hex_pair(b: u8) -> [u8; 2]
    ensures { result ≡ Hex.pair_text b }
{
    [glyph(b / 16), glyph(b % 16)]
}

// The byte of two digits.
fn joined(high: u8, low: u8) -> Option<u8>
    ensures { result ≡ Hex.joined_of high low }
{
    let h = digit(high)?;
    let l = digit(low)?;
    Some(h * 16 + l)
}

// Decodes a word in place, from its start, up to the first two bytes that are no digits: how many bytes it has decoded. The loop goes by index, since the
// bytes are stored in the very slice that their digits are read from.
fn decode(word: &mut [u8]) -> usize
    ensures { Hex.Decodes word.old word.new result }
{
    let half = word.len() / 2;
    for i in 0..half {
        let Some(byte) = joined(word[2 * i], word[2 * i + 1]) else {
            return i;
        };
        word[i] = byte;
    }
    half
}

// Whether the part of a line from `start` up to `end` is `-`.
fn is_none(line: &[u8], start: usize, end: usize) -> bool
    ensures { result ≡ Hex.is_none line.now start end }
{
    start < line.len() && start + 1 == end && line[start] == b'-'
}

// Decodes the part of a line from `start` up to `end`, in place: where its bytes stand.
pub fn decoded_part(line: &mut [u8], start: usize, end: usize) -> Option<Field>
    ensures { Hex.DecodesPart line.old start end line.new result }
{
    if line.len() < end {
        return None;
    }
    if end <= start {
        return None;
    }
    if is_none(line, start, end) {
        return Some(Field { start, end: start });
    }
    let n = decode(&mut line[start..end]);
    if n * 2 != end - start {
        return None;
    }
    Some(Field {
        start,
        end: start + n,
    })
}

// Decodes the last field of a line, from `at` on, in place: where its bytes stand.
pub fn last_field(line: &mut [u8], at: usize) -> Option<Field>
    ensures { Hex.DecodesLast line.old at line.new result }
{
    let last = fields::next_field(line, at);
    let more = fields::next_field(line, last.end);
    if more.start < more.end {
        return None;
    }
    decoded_part(line, last.start, last.end)
}

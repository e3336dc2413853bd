// What a command line is.
ghost use Rattle.std.specs.Prelude.{◌≡◌, drop};
ghost use Rattle.shell_text.specs.Lines as Lines;

// Whether a line is the command X, alone or with words.
pub fn is_run(line: &[u8]) -> bool
    ensures { result ≡ Lines.is_run line.now }
{
    matches!(line, [b'X'] | [b'X', b' ', ..])
}

// Whether a text was refused for an output of so many bytes, and a longer one was asked for.
pub fn is_too_long(number: u8, room: usize, length: usize) -> bool
    ensures { result ≡ Lines.is_too_long number room length }
{
    number == refusals::SHORT_OUTPUT && room < length
}

// The number in the last field of a line, from `at` on.
pub fn last_number(line: &[u8], at: usize) -> Option<usize>
    ensures { result ≡ Lines.last_number line.now at }
{
    let field = fields::next_field(line, at);
    let more = fields::next_field(line, field.end);
    if more.start < more.end {
        return None;
    }
    fields::number(tags::part(line, field.start, field.end))
}

// The first line feed from `from` on, or the end of the bytes.
pub fn line_end(bytes: &[u8], from: usize) -> usize
    ensures { result ≡ Lines.line_end from (drop from bytes.now) }
{
    fields::first_byte(bytes, from, b'\n')
}

// A line as a command.
ghost use Rattle.std.specs.Prelude.{◌≡◌};
ghost use Rattle.shell_text.specs.Commands as Commands;

use crate::hex::{decoded_part, last_field};
use crate::lines::{is_run, last_number};
use crate::{Command, Form, Numbers};
use fields::Field;

// The command of this letter and these numbers, with decoded bytes.
fn with_bytes(letter: u8, number: usize, feed: u32, bytes: Field) -> Command
    ensures { result ≡ Commands.with_bytes letter number feed bytes }
{
    Command {
        letter,
        number,
        feed,
        start: bytes.start,
        end: bytes.end,
    }
}

// The number in the field from `at` on.
fn number_at(line: &[u8], at: usize) -> Option<Numbers>
    ensures { result ≡ Commands.number_at line.now at }
{
    let field = fields::next_field(line, at);
    let number = fields::number(tags::part(line, field.start, field.end))?;
    Some(Numbers {
        number,
        feed: 0,
        end: field.end,
    })
}

// The number k, and behind it the feed's, which is below 2^32.
fn with_feed(k: usize, second: Numbers) -> Option<Numbers>
    ensures { result ≡ Commands.with_feed k second }
{
    if second.number < process_list::NUMBER_LIMIT {
        return Some(Numbers {
            number: k,
            feed: second.number as u32,
            end: second.end,
        });
    }
    None
}

// The numbers of `N K NUMBER HEX`.
fn two_numbers(line: &[u8]) -> Option<Numbers>
    ensures { result ≡ Commands.feed_behind line.now (Commands.number_at line.now 2) }
{
    let first = number_at(line, 2)?;
    let second = number_at(line, first.end)?;
    with_feed(first.number, second)
}

// The numbers before the bytes, by what the letter asks for.
fn numbers(line: &[u8], form: Form) -> Option<Numbers>
    ensures { result ≡ Commands.line_numbers form line.now }
{
    match form {
        Form::Bytes => Some(Numbers {
            number: 0,
            feed: 0,
            end: 2,
        }),
        Form::Numbered => number_at(line, 2),
        Form::Fed => two_numbers(line),
        Form::Named => None,
    }
}

// The command of these numbers and the bytes behind them, which are decoded in place.
fn behind(line: &mut [u8], letter: u8, before: Numbers) -> Option<Command>
    ensures { Commands.Says (Commands.behind_of letter line.old before) (Commands.behind_left line.old before) result line.new }
{
    let bytes = last_field(line, before.end)?;
    Some(with_bytes(letter, before.number, before.feed, bytes))
}

// `W IDHEX OUTLEN`.
fn under_id(line: &mut [u8], letter: u8) -> Option<Command>
    ensures { Commands.Says (Commands.under_of letter line.old) (Commands.under_left line.old) result line.new }
{
    let first = fields::next_field(line, 2);
    let length = last_number(line, first.end)?;
    let bytes = decoded_part(line, first.start, first.end)?;
    Some(with_bytes(letter, length, 0, bytes))
}

// What a letter asks of its line; none for a letter that no command has.
fn form_of(letter: u8) -> Option<Form>
    ensures { result ≡ Commands.form_of letter }
{
    match letter {
        b'C' | b'K' => Some(Form::Bytes),
        b'R' | b'P' | b'D' => Some(Form::Numbered),
        b'N' => Some(Form::Fed),
        b'W' => Some(Form::Named),
        _ => None,
    }
}

// The command of a line that has a letter and a space, by what the letter asks for; its bytes are decoded in place.
fn shaped(line: &mut [u8], letter: u8, form: Form) -> Option<Command>
    ensures { Commands.Says (Commands.shaped_of form letter line.old) (Commands.shaped_left form line.old) result line.new }
{
    if form == Form::Named {
        return under_id(line, letter);
    }
    let before = numbers(line, form)?;
    behind(line, letter, before)
}

// The command of a line, whose bytes are decoded in place; none for a line that is no command.
pub fn command(line: &mut [u8]) -> Option<Command>
    ensures { Commands.Says (Commands.command_of line.old) (Commands.command_left line.old) result line.new }
{
    if is_run(line) {
        return Some(Command {
            letter: b'X',
            number: 0,
            feed: 0,
            start: 0,
            end: 0,
        });
    }
    if line.len() < 2 {
        return None;
    }
    if line[1] != b' ' {
        return None;
    }
    let letter = line[0];
    let form = form_of(letter)?;
    shaped(line, letter, form)
}

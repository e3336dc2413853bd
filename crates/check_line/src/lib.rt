#![tactic(auto)]

// The line that the check program prints (document 01, The written form): `accepted N nodes M numbers`, `refusal K at P`, or
// `too long` for more than 65,536 bytes of input.
ghost use Rattle.std.specs.Prelude.{◌≡◌, ◌++◌};
ghost use Rattle.text_out.specs.Output.{Puts};
ghost use Rattle.clf.specs.Reading as Reading;
ghost use Rattle.check_line.specs.Line.{line_from, two_numbers, too_long, answer_text, reading_text, check_text};

use reading::Answer;
use text_out::{put, put_digits};

// A line's bytes, then zeros, and how many bytes it has.
#[derive(Clone, Copy)]
pub struct Line {
    pub bytes: [u8; 80],
    pub length: usize,
}

// Three words, and two numbers between them.
fn put_two(out: &mut [u8], first: &[u8], m: usize, middle: &[u8], n: usize, last: &[u8]) -> usize
    ensures { Puts (two_numbers first.now m middle.now n last.now) 0 out.old out.new result }
{
    let a = put(out, 0, first);
    let b = put_digits(out, a, m);
    let c = put(out, b, middle);
    let d = put_digits(out, c, n);
    put(out, d, last)
}

fn put_answer(out: &mut [u8], answer: Answer) -> usize
    ensures { Puts (λ t. answer_text answer ++ t) 0 out.old out.new result }
{
    match answer {
        Ok(list) => {
            let numbers = process_list::used(list);
            put_two(
                out,
                b"accepted ",
                list.count,
                b" nodes ",
                numbers,
                b" numbers\n",
            )
        }
        Err(why) => put_two(
            out,
            b"refusal ",
            why.number as usize,
            b" at ",
            why.place,
            b"\n",
        ),
    }
}

fn too_long() -> Line
    ensures { result ≡ line_from too_long }
{
    let mut bytes = [0u8; 80];
    let length = put(&mut bytes, 0, b"too long\n");
    Line { bytes, length }
}

fn answered(answer: Answer) -> Line
    ensures { result ≡ line_from (answer_text answer) }
{
    let mut bytes = [0u8; 80];
    let length = put_answer(&mut bytes, answer);
    Line { bytes, length }
}

// The line for a file that is read into room for 4,096 numbers.
fn read_line(file: &[u8]) -> Line
    ensures { result ≡ line_from (reading_text (Reading.read 4096 file.now)) }
{
    let mut coefficients = [0i64; 4096];
    let mut powers = [0i8; 4096];
    answered(reading::read(file, &mut coefficients, &mut powers))
}

// The check program's line for this input.
pub fn check_line(input: &[u8]) -> Line
    ensures { result ≡ line_from (check_text input.now) }
{
    if 65536 < input.len() {
        return too_long();
    }
    read_line(input)
}

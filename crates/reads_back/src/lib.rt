#![tactic(auto)]

// What is promised of the code together, each as a contract here: a list written out and read back (demand 2), refusal 16 of every function that gives it,
// the file check beside reading, a Description beside its number.
ghost use Rattle.look.specs.Replacing.{plain_call, numbered_call};
ghost use Rattle.room.specs.Room.{lent};
ghost use Rattle.replacing.specs.Code.{look_of};
ghost use Rattle.reads_back.specs.Calls as Calls;

use process_list::ProcessList;
use reading::{Answer, Checked, Refused};
use running::RunFault;
use writing::WriteFault;

// What writing answered, and what reading the text answered.
#[derive(Clone, Copy)]
pub struct WrittenRead {
    pub wrote: Result<usize, WriteFault>,
    pub answer: Answer,
}

// Writes the list under an id, and reads the text into another room; where nothing was written, no bytes are read.
pub fn write_and_read(
    list: ProcessList,
    coefficients: &[i64],
    powers: &[i8],
    id: &[u8],
    out: &mut [u8],
    new_coefficients: &mut [i64],
    new_powers: &mut [i8],
) -> WrittenRead
    ensures { Calls.WroteAndRead (look_of list (lent coefficients.now powers.now)) id.now result out.old out.new
        (lent new_coefficients.old new_powers.old) (lent new_coefficients.new new_powers.new) }
{
    let wrote = writing::write(list, coefficients, powers, id, out);
    let end = wrote.unwrap_or(0);
    let answer = reading::read(tags::part(out, 0, end), new_coefficients, new_powers);
    WrittenRead { wrote, answer }
}

// Whether list and room, but for the kept numbers, are some file's accepted reading.
pub fn is_reading(list: ProcessList, coefficients: &[i64], powers: &[i8]) -> bool
    ensures { Calls.IsReading (look_of list (lent coefficients.now powers.now)) result }
{
    valid::valid(list, coefficients, powers)
}

// `writing::write`, whose 16 is given exactly where list and room, but for the kept numbers, are no reading.
pub fn write_reading(
    list: ProcessList,
    coefficients: &[i64],
    powers: &[i8],
    id: &[u8],
    out: &mut [u8],
) -> Result<usize, WriteFault>
    ensures { Calls.WriteRefuses (look_of list (lent coefficients.now powers.now)) id.now result out.old out.new }
{
    writing::write(list, coefficients, powers, id, out)
}

// `running::run` likewise.
pub fn run_reading(
    list: ProcessList,
    coefficients: &[i64],
    powers: &[i8],
    pixels: &mut [f64],
) -> Result<(), RunFault>
    ensures { Calls.RunRefuses (look_of list (lent coefficients.now powers.now)) result pixels.old pixels.new }
{
    running::run(list, coefficients, powers, pixels)
}

// What a replacing call answered, and the list after it.
#[derive(Clone, Copy)]
pub struct Replacement {
    pub answer: Result<(), Refused>,
    pub list: ProcessList,
}

// `replacing::replace` likewise.
pub fn replace_reading(
    mut list: ProcessList,
    coefficients: &mut [i64],
    powers: &mut [i8],
    k: usize,
    element: &[u8],
) -> Replacement
    ensures { Calls.ReplaceRefuses list (lent coefficients.old powers.old) (plain_call k element.now) result.answer
        result.list (lent coefficients.new powers.new) }
{
    let answer = replacing::replace(&mut list, coefficients, powers, k, element);
    Replacement { answer, list }
}

// `replacing::replace_numbered` likewise.
pub fn replace_numbered_reading(
    mut list: ProcessList,
    coefficients: &mut [i64],
    powers: &mut [i8],
    k: usize,
    number: u32,
    element: &[u8],
) -> Replacement
    ensures { Calls.ReplaceRefuses list (lent coefficients.old powers.old) (numbered_call k number element.now) result.answer
        result.list (lent coefficients.new powers.new) }
{
    let answer = replacing::replace_numbered(&mut list, coefficients, powers, k, number, element);
    Replacement { answer, list }
}

// What the file check said, and what reading then answered.
#[derive(Clone, Copy)]
pub struct CheckedRead {
    pub checked: Checked,
    pub answer: Answer,
}

// Checks a file for the room that is lent, and reads it: both say the same.
pub fn check_and_read(file: &[u8], coefficients: &mut [i64], powers: &mut [i8]) -> CheckedRead
    ensures { Calls.CheckedAndRead file.now result (lent coefficients.old powers.old) (lent coefficients.new powers.new) }
{
    let length = room::length(coefficients, powers);
    let checked = reading::check_within(file, length);
    let answer = reading::read(file, coefficients, powers);
    CheckedRead { checked, answer }
}

// A Description's number and place, and how many bytes it has.
#[derive(Clone, Copy)]
pub struct Described {
    pub checked: Checked,
    pub length: usize,
}

// Asks for the Description of node k and for its number: where the number is not 0 there are no bytes.
pub fn describe(file: &[u8], k: usize) -> Described
    ensures { Calls.Describes file.now k result }
{
    let checked = reading::description_number(file, k);
    let part = reading::description(file, k);
    Described {
        checked,
        length: part.len(),
    }
}

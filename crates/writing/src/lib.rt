#![tactic(auto)]

// Writing a list (document 01, The written form): 16, 18, 17, then the list's text into a lent output.
ghost use Rattle.std.specs.Prelude.{◌≡◌, true, length};
ghost use Rattle.text_out.specs.Output.{counted};
ghost use Rattle.room.specs.Room.{lent};
ghost use Rattle.valid.specs.Valid.{is_valid, elements_of};
ghost use Rattle.written_form.specs.Written as Text;
ghost use Rattle.writing.specs.Writing.{fault_number, written_number, written_length, writing_answer, Wrote};

mod elements;
mod names;
mod numbers;

use process_list::ProcessList;

// Why a list is not written: list and room are no reading, the id is not right, or the output is shorter than the text.
#[derive(Clone, Copy, Debug, PartialEq, Eq)]
pub enum WriteFault {
    NoReading,
    WrongId,
    ShortOutput,
}

impl WriteFault {
    // The refusal number; its place is always 0.
    pub fn number(self) -> u8
        ensures { result ≡ fault_number self }
    {
        match self {
            WriteFault::NoReading => refusals::NO_READING,
            WriteFault::WrongId => refusals::WRONG_ID,
            WriteFault::ShortOutput => refusals::SHORT_OUTPUT,
        }
    }
}

// The refusal number that an answer says, 0 where the list is written, and how many bytes the text has, none where it is refused.
pub fn told(wrote: Result<usize, WriteFault>) -> (u8, usize)
    ensures { result ≡ (written_number wrote, written_length wrote) }
{
    match wrote {
        Ok(length) => (0, length),
        Err(fault) => (fault.number(), 0),
    }
}

// The whole text from the start of the output on; the answer is its length.
fn put_list(
    out: &mut [u8],
    list: ProcessList,
    coefficients: &[i64],
    powers: &[i8],
    id: &[u8],
) -> usize
    requires { is_valid list (lent coefficients.now powers.now) ≡ true }
    ensures { Wrote (Text.joined (Text.list_lines id.now (elements_of list (lent coefficients.now powers.now)))) out.old out.new result }
{
    let a = text_out::put(
        out,
        0,
        b"<?xml version=\"1.0\" encoding=\"UTF-8\"?>\n<ProcessList id=\"",
    );
    let b = text_out::put(out, a, id);
    let c = text_out::put(out, b, b"\" compCLFversion=\"3.0\">\n");
    let d = elements::put_nodes(out, c, list, coefficients, powers);
    text_out::put(out, d, b"</ProcessList>\n")
}

// The length of the text: it is put into an output that is thrown away.
fn text_length(list: ProcessList, coefficients: &[i64], powers: &[i8], id: &[u8]) -> usize
    requires { is_valid list (lent coefficients.now powers.now) ≡ true }
    ensures { result ≡ counted (length (Text.joined (Text.list_lines id.now (elements_of list (lent coefficients.now powers.now))))) }
{
    let mut none = [0u8; 1];
    put_list(&mut none, list, coefficients, powers, id)
}

// Writes the list under an id, and answers how many bytes the text has; refused, nothing changes.
pub fn write(
    list: ProcessList,
    coefficients: &[i64],
    powers: &[i8],
    id: &[u8],
    out: &mut [u8],
) -> Result<usize, WriteFault>
    ensures value { result ≡ writing_answer (Text.write_of list (lent coefficients.now powers.now) id.now (length out.old)) }
    ensures out_after { out.new ≡ Text.output_of (Text.write_of list (lent coefficients.now powers.now) id.now (length out.old)) out.old }
{
    if !valid::valid(list, coefficients, powers) {
        return Err(WriteFault::NoReading);
    }
    if !ids::id_right(id, 64) {
        return Err(WriteFault::WrongId);
    }
    let length = text_length(list, coefficients, powers, id);
    if out.len() < length {
        return Err(WriteFault::ShortOutput);
    }
    put_list(out, list, coefficients, powers, id);
    Ok(length)
}

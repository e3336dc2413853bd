#![tactic(auto)]

// Reading a CLF file: its list and its numbers, its check without room, and a node's Description.
ghost use Rattle.std.specs.Prelude.{◌≡◌, length};
ghost use Rattle.room.specs.Room.{room_length, lent};
ghost use Rattle.process_list.specs.List.{unfit_number, unfit_place};
ghost use Rattle.clf.specs.Reading as Reading;
ghost use Rattle.clf.specs.Description.{description_part};
ghost use Rattle.describing.specs.Code.{IsPlace, IsPart};
ghost use Rattle.reading.specs.Code.{ReadsInto, checked_of, list_read, number_of, place_of, TextAlone, judged_length, judged_step, refused_stop, ListIn, NodeAt};

use describing::Part;
use file_text::ListStep;
use process_list::{ProcessList, Unfit};
use xml::Stop;

// Why a file or an element is refused: the refusal number with its place.
#[derive(Clone, Copy, Debug, PartialEq, Eq)]
pub struct Refused {
    pub number: u8,
    pub place: usize,
}

// What reading answers: the list, or why the file is refused.
pub type Answer = Result<ProcessList, Refused>;

// What the file check answers: that the file is accepted, or why it is refused.
pub type Checked = Result<(), Refused>;

impl From<Unfit> for Refused {
    ghost from_gives = { λ why r. r ≡ record { number = unfit_number why; place = unfit_place why } };

    fn from(why: Unfit) -> Refused {
        Refused {
            number: why.number(),
            place: why.place(),
        }
    }
}

// The refusal number and the place that an answer says: 0 and 0 where nothing is refused.
pub fn told<T>(answer: &Result<T, Refused>) -> (u8, usize)
    ensures { result ≡ (number_of answer.now, place_of answer.now) }
{
    match answer {
        Ok(_) => (0, 0),
        Err(why) => (why.number, why.place),
    }
}

// The list that a reading leaves: where it is refused, the empty one.
pub fn list_left(answer: &Answer) -> ProcessList
    ensures { result ≡ list_read answer.now }
{
    match answer {
        Ok(list) => *list,
        Err(_) => process_list::empty(),
    }
}

// Why bytes of this length are refused that do not read.
pub fn refused_by(stop: Stop, length: usize) -> Refused
    ensures { result ≡ refused_stop length stop }
{
    match stop {
        Stop::Fault(number, place) => Refused { number, place },
        Stop::Cut => Refused {
            number: refusals::CUT_SHORT,
            place: length,
        },
    }
}

// A file, or an element, of over 16 MiB is 4.
pub fn judge_length(bytes: &[u8]) -> Checked
    ensures { result ≡ judged_length (length bytes.now) }
{
    if process_list::MOST_BYTES < bytes.len() {
        return Err(Refused {
            number: refusals::TOO_LONG,
            place: 0,
        });
    }
    Ok(())
}

// What is to be said of a text that reads so, for a room of this length. A call of its own, so that its copies of the list take no stack while the text is read.
#[inline(never)]
fn judge_text(s: &[u8], step: &ListStep, room: usize) -> Checked
    ensures { result ≡ judged_step (length s.now) step.now room }
{
    if let Err(stop) = step.scan {
        return Err(refused_by(stop, s.len()));
    }
    process_list::judge(step.state.over, step.state.list, room)?;
    Ok(())
}

// Reads a file into the table room, which is not cleared where the file is refused.
fn read_list(file: &[u8], coefficients: &mut [i64], powers: &mut [i8]) -> Answer
    ensures { ListIn (Reading.read (room_length (lent coefficients.old powers.old)) file.now) result (lent coefficients.old powers.old)
        (lent coefficients.new powers.new) }
{
    judge_length(file)?;
    let length = room::length(coefficients, powers);
    let step = file_text::file_list(file, 0, coefficients, powers);
    judge_text(file, &step, length)?;
    Ok(process_list::placed(step.state.list))
}

// Reads a file into the table room.
pub fn read(file: &[u8], coefficients: &mut [i64], powers: &mut [i8]) -> Answer
    ensures { ReadsInto (Reading.read (room_length (lent coefficients.old powers.old)) file.now) result (lent coefficients.old powers.old)
        (lent coefficients.new powers.new) }
{
    let answer = read_list(file, coefficients, powers);
    if answer.is_err() {
        let length = room::length(coefficients, powers);
        room::clear(coefficients, powers, 0, length);
    }
    answer
}

// The text of a file without room: how it reads, and what it holds, with the place of the node that is wanted.
fn text_alone(file: &[u8], wanted: usize) -> ListStep
    ensures { TextAlone wanted file.now result }
{
    let mut coefficients = [0i64; 1];
    let mut powers = [0i8; 1];
    file_text::file_list(file, wanted, &mut coefficients, &mut powers)
}

// Checks a file for a room of this length, without the room.
pub fn check_within(file: &[u8], room: usize) -> Checked
    ensures { result ≡ checked_of (Reading.read room file.now) }
{
    judge_length(file)?;
    judge_text(file, &text_alone(file, 0), room)
}

// Checks a file without room: 13 means over 262,144 numbers.
pub fn check(file: &[u8]) -> Checked
    ensures { result ≡ checked_of (Reading.read_alone file.now) }
{
    check_within(file, process_list::MOST_NUMBERS)
}

// Where node k begins. A file that has none of this number is 19, behind what reading refuses.
fn node_start(file: &[u8], k: usize) -> Result<usize, Refused>
    ensures { NodeAt k file.now result }
{
    judge_length(file)?;
    let step = text_alone(file, k);
    judge_text(file, &step, process_list::MOST_NUMBERS)?;
    if k == 0 || step.state.list.count < k {
        return Err(Refused {
            number: refusals::NO_SUCH_NODE,
            place: 0,
        });
    }
    Ok(step.state.start)
}

// The refusal of asking for the Description of node k: reading's, then 19.
pub fn description_number(file: &[u8], k: usize) -> Checked
    ensures { result ≡ checked_of (Reading.description_asked k file.now) }
{
    node_start(file, k)?;
    Ok(())
}

// Where the first Description inside node k stands.
fn description_part(file: &[u8], k: usize) -> Part
    ensures { IsPlace file.now (description_part k file.now) result }
{
    match node_start(file, k) {
        Ok(start) => describing::text_part(file, start),
        Err(_) => describing::no_part(),
    }
}

// The first Description inside node k: the part of the file between its tags, empty where there is none or the call is refused.
pub fn description(file: &[u8], k: usize) -> &[u8]
    ensures { IsPart file.entry result (description_part k file.now) }
{
    let part = description_part(file, k);
    let a = part.start;
    let e = a + part.length;
    &file[a..e]
}

#![tactic(auto)]

// Demand 3 of the code: a file is read, then any run of replacing calls is made, numbered ones among them, each on list and room as the last one left them. What is promised of the whole run
// is the contract here.
ghost use Rattle.room.specs.Room.{lent};
ghost use Rattle.replace_run.specs.Runs.{calls_from};
ghost use Rattle.demand3.specs.Demand as Demand;

use process_list::ProcessList;
use reading::Checked;

// Whether the file was accepted, and the list as the last call left it; where the file is refused, too, the calls are made, on the empty list.
#[derive(Clone, Copy, Debug, PartialEq, Eq)]
pub struct RunRead {
    pub read: Checked,
    pub list: ProcessList,
}

// Reads a file into the table room, then makes one replacing call for each node number: call i has the element that ends at ends[i] and starts where the one before it ended, and the number
// marks[i] if that is below 2^32, else none.
pub fn read_and_replace(
    file: &[u8],
    ks: &[usize],
    marks: &[usize],
    ends: &[usize],
    elements: &[u8],
    numbers: &mut [u8],
    places: &mut [usize],
    coefficients: &mut [i64],
    powers: &mut [i8],
) -> RunRead
    ensures { Demand.ReadAndReplaced file.now
        (calls_from 0 ks.now marks.now ends.now numbers.old places.old elements.now) result
        (lent coefficients.old powers.old) (lent coefficients.new powers.new) numbers.old numbers.new places.old
        places.new }
{
    let answer = reading::read(file, coefficients, powers);
    let list = reading::list_left(&answer);
    let left = replace_run::replace_all(
        list,
        ks,
        marks,
        ends,
        elements,
        numbers,
        places,
        coefficients,
        powers,
    );
    RunRead {
        read: answer.and(Ok(())),
        list: left,
    }
}

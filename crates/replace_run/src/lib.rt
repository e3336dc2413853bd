#![tactic(auto)]

// Any run of replacing calls, numbered and unnumbered, each on list and room as the last one left them. What the whole run answers and leaves is the contract here; what follows of it for
// files and for the order of arrival are the contracts of the crates above.
ghost use Rattle.std.specs.Prelude.{◌≡◌};
ghost use Rattle.room.specs.Room.{lent};
ghost use Rattle.replacing.specs.Code.{look_of, Replaced};
ghost use Rattle.replace_run.specs.Runs as Runs;

use process_list::ProcessList;
use reading::Refused;

// The bytes from a up to b, as far as there are any.
fn part(s: &[u8], a: usize, b: usize) -> &[u8]
    ensures { result.now ≡ Runs.call_part s.now a b }
{
    let end = b.min(s.len());
    let start = a.min(end);
    &s[start..end]
}

// One replacing call: a numbered one if its mark is below 2^32, and else an unnumbered one.
fn replace_marked(
    list: &mut ProcessList,
    coefficients: &mut [i64],
    powers: &mut [i8],
    k: usize,
    mark: usize,
    element: &[u8],
) -> Result<(), Refused>
    ensures { Replaced list.old (lent coefficients.old powers.old) (Runs.marked_call k mark element.now) result list.new (lent coefficients.new powers.new) }
{
    if mark < process_list::NUMBER_LIMIT {
        return replacing::replace_numbered(list, coefficients, powers, k, mark as u32, element);
    }
    replacing::replace(list, coefficients, powers, k, element)
}

// One replacing call for each node number: call i has the element that ends at ends[i] and starts where the one before it ended, and the number marks[i] if that is below 2^32, else none. The
// answers' numbers and places are stored one by one.
pub fn replace_all(
    list: ProcessList,
    ks: &[usize],
    marks: &[usize],
    ends: &[usize],
    elements: &[u8],
    numbers: &mut [u8],
    places: &mut [usize],
    coefficients: &mut [i64],
    powers: &mut [i8],
) -> ProcessList
    ensures { Runs.CallsRun (look_of list (lent coefficients.old powers.old))
        (Runs.calls_from 0 ks.now marks.now ends.now numbers.old places.old elements.now) numbers.old places.old
        (look_of result (lent coefficients.new powers.new)) numbers.new places.new }
{
    let mut l = list;
    let mut start: usize = 0;
    let calls = ks
        .len()
        .min(marks.len())
        .min(ends.len())
        .min(numbers.len())
        .min(places.len());
    for i in 0..calls {
        let end = ends[i];
        let outcome = replace_marked(
            &mut l,
            coefficients,
            powers,
            ks[i],
            marks[i],
            part(elements, start, end),
        );
        let (number, place) = reading::told(&outcome);
        numbers[i] = number;
        places[i] = place;
        start = end;
    }
    l
}

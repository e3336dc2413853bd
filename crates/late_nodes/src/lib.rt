#![tactic(auto)]

// Late nodes (document 02, W-208), of the code: what the numbers of replacing calls promise, of one call and of a run of them.
ghost use Rattle.room.specs.Room.{lent};
ghost use Rattle.replacing.specs.Code.{look_of};
ghost use Rattle.replace_run.specs.Runs.{calls_from};
ghost use Rattle.late_nodes.specs.Late as Late;

use process_list::ProcessList;
use reading::Refused;

// `replacing::replace_numbered`: which numbers are late, and what is kept.
pub fn replace_numbered(
    list: &mut ProcessList,
    coefficients: &mut [i64],
    powers: &mut [i8],
    k: usize,
    number: u32,
    element: &[u8],
) -> Result<(), Refused>
    ensures { Late.NumberedCall (look_of list.old (lent coefficients.old powers.old)) k number element.now result
        (look_of list.new (lent coefficients.new powers.new)) }
{
    // This call tells that the list that was given has 32 places, which the promise of the kept numbers needs.
    let _ = process_list::held(*list);
    replacing::replace_numbered(list, coefficients, powers, k, number, element)
}

// `replacing::replace`: it leaves the kept numbers.
pub fn replace_unnumbered(
    list: &mut ProcessList,
    coefficients: &mut [i64],
    powers: &mut [i8],
    k: usize,
    element: &[u8],
) -> Result<(), Refused>
    ensures { Late.UnnumberedCall (look_of list.old (lent coefficients.old powers.old)) k element.now result
        (look_of list.new (lent coefficients.new powers.new)) }
{
    // This call tells that the list that was given has 32 places, which the promise of the kept numbers needs.
    let _ = process_list::held(*list);
    replacing::replace(list, coefficients, powers, k, element)
}

// `replace_run::replace_all`, whose call i has the number marks[i] if that is below 2^32, else none. If all are numbered, the newest accepted replacement has won at each node; if besides they are
// without fault, keep their nodes' depths, counts of numbers and ids, and no two for one node share a number, every order of them would have left the same.
pub fn replace_arrivals(
    list: ProcessList,
    ks: &[usize],
    marks: &[usize],
    ends: &[usize],
    elements: &[u8],
    numbers: &mut [u8],
    places: &mut [usize],
    coefficients: &mut [i64],
    powers: &mut [i8],
) -> ProcessList
    ensures { Late.RunPromises (look_of list (lent coefficients.old powers.old))
        (calls_from 0 ks.now marks.now ends.now numbers.old places.old elements.now) numbers.old places.old
        (look_of result (lent coefficients.new powers.new)) numbers.new places.new }
{
    replace_run::replace_all(
        list,
        ks,
        marks,
        ends,
        elements,
        numbers,
        places,
        coefficients,
        powers,
    )
}

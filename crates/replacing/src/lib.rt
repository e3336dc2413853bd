#![tactic(auto)]

// Replacing a node of a look by an element (document 01, Replacing): 16, 19, 4 (the element alone), then the element's own fault, then 10, 23 (document 02, W-203), 13. A numbered replacement (W-208)
// may be late: 28, between 19 and 4.
// The element is read twice: first alone, so that a refusal changes nothing, then into the room.
ghost use Rattle.std.specs.Prelude.{◌≡◌};
ghost use Rattle.look.specs.Replacing.{plain_call, numbered_call};
ghost use Rattle.room.specs.Room.{lent};
ghost use Rattle.replacing.specs.Code as Code;

use node_parts::NodeRead;
use process_list::{Node, ProcessList};
use reading::Refused;
use xml::Stop;

// The number kept with node k, from 1; 16, then 19.
fn kept_at(list: ProcessList, coefficients: &[i64], powers: &[i8], k: usize) -> Result<u32, Refused>
    ensures { Code.KeptAt list (lent coefficients.now powers.now) k result }
{
    let count = process_list::held(list);
    if !valid::valid(list, coefficients, powers) {
        return Err(Refused {
            number: refusals::NO_READING,
            place: 0,
        });
    }
    if k == 0 || count < k {
        return Err(Refused {
            number: refusals::NO_SUCH_NODE,
            place: 0,
        });
    }
    let node = process_list::get(list, k - 1);
    Ok(node.newest)
}

// The element without room.
fn element_alone(element: &[u8]) -> Result<NodeRead, Stop>
    ensures { Code.ElementAlone element.now result }
{
    let mut coefficients = [0i64; 1];
    let mut powers = [0i8; 1];
    element::element(element, &mut coefficients, &mut powers, 0)
}

// The node of an element: bytes behind it are 20.
fn judge_element(element: &[u8]) -> Result<Node, Refused>
    ensures { Code.ElementJudged element.now result }
{
    match element_alone(element) {
        Ok(read) => {
            if read.end < element.len() {
                return Err(Refused {
                    number: refusals::NOT_ONE_NODE,
                    place: read.end,
                });
            }
            Ok(read.node)
        }
        Err(stop) => Err(reading::refused_by(stop, element.len())),
    }
}

// The element in the place of node i, from 0, in the room: the old numbers give way, and the element, which has this node, is read there.
fn store_element(
    list: ProcessList,
    coefficients: &mut [i64],
    powers: &mut [i8],
    i: usize,
    node: Node,
    element: &[u8],
)
    ensures { Code.Stores list i node element.now (lent coefficients.old powers.old) (lent coefficients.new powers.new) }
{
    let old = process_list::get(list, i);
    let old_count = process_list::numbers_of(old.kind);
    let new_count = process_list::numbers_of(node.kind);
    let used = process_list::used(list);
    room::resize(coefficients, powers, old.at, old_count, new_count, used);
    let _ = element::element(element, coefficients, powers, old.at);
}

// The element, which has this node and no fault, in the place of node k, from 1, with this number kept where it is accepted: 10, 23 or 13, or it is there.
fn replace_node(
    list: &mut ProcessList,
    coefficients: &mut [i64],
    powers: &mut [i8],
    k: usize,
    kept: u32,
    node: Node,
    element: &[u8],
) -> Result<(), Refused>
    requires { Code.Fits list.old (lent coefficients.old powers.old) k node element.now }
    ensures { Code.ReplacedKeeping kept list.old (lent coefficients.old powers.old) k element.now result list.new (lent coefficients.new powers.new) }
{
    let i = k - 1;
    let numbered = process_list::with_newest(kept, node);
    let next = process_list::replaced(*list, i, numbered);
    let room = room::length(coefficients, powers);
    process_list::judge(false, next, room)?;
    store_element(*list, coefficients, powers, i, node, element);
    *list = process_list::placed(next);
    Ok(())
}

// What is left behind 16, 19 and 28: 4, then the element's own fault, then the element in its place, with this number kept where it is accepted.
fn replace_there(
    list: &mut ProcessList,
    coefficients: &mut [i64],
    powers: &mut [i8],
    k: usize,
    kept: u32,
    element: &[u8],
) -> Result<(), Refused>
    requires { Code.OnNode list.old (lent coefficients.old powers.old) k }
    ensures { Code.ReplacedKeeping kept list.old (lent coefficients.old powers.old) k element.now result list.new (lent coefficients.new powers.new) }
{
    reading::judge_length(element)?;
    let node = judge_element(element)?;
    replace_node(list, coefficients, powers, k, kept, node, element)
}

// Puts the element in the place of node k, from 1, in list and room; the number kept with the node stays. Refused, nothing changes.
pub fn replace(
    list: &mut ProcessList,
    coefficients: &mut [i64],
    powers: &mut [i8],
    k: usize,
    element: &[u8],
) -> Result<(), Refused>
    ensures { Code.Replaced list.old (lent coefficients.old powers.old) (plain_call k element.now) result list.new (lent coefficients.new powers.new) }
{
    let kept = kept_at(*list, coefficients, powers, k)?;
    replace_there(list, coefficients, powers, k, kept, element)
}

// The same for a numbered replacement: 28 where its number is not larger than the one kept with the node; accepted, its number is kept.
pub fn replace_numbered(
    list: &mut ProcessList,
    coefficients: &mut [i64],
    powers: &mut [i8],
    k: usize,
    number: u32,
    element: &[u8],
) -> Result<(), Refused>
    ensures { Code.Replaced list.old (lent coefficients.old powers.old) (numbered_call k number element.now) result list.new
        (lent coefficients.new powers.new) }
{
    let kept = kept_at(*list, coefficients, powers, k)?;
    if number <= kept {
        return Err(Refused {
            number: refusals::LATE,
            place: 0,
        });
    }
    replace_there(list, coefficients, powers, k, number, element)
}

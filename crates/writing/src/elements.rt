// Nodes: their tags, and what stands between these.
ghost use Rattle.std.specs.Prelude.{◌≡◌, true, ◌+◌, ◌≤◌};
ghost use Rattle.process_list.specs.List.{numbers_of};
ghost use Rattle.room.specs.Room.{lent, room_length};
ghost use Rattle.valid.specs.Valid.{numbers_at, element_of, elements_of, is_valid};
ghost use Rattle.text_out.specs.Output.{Puts};
ghost use Rattle.written_form.proofs.Tail as Tail;

use crate::names::{put_end, put_start};
use crate::numbers::{put_cube, put_table, put_value};
use process_list::{Kind, Node, ProcessList, RangeEnd};
use text_out::put;

fn put_range(out: &mut [u8], at: usize, coefficients: &[i64], powers: &[i8], from: usize) -> usize
    requires { from + 4 ≤ room_length (lent coefficients.now powers.now) }
    ensures { Puts (Tail.range_text (numbers_at (lent coefficients.now powers.now) from 4)) at out.old out.new result }
{
    let a = put_value(out, at, b"minInValue", coefficients, powers, from, 1);
    let b = put_value(out, a, b"maxInValue", coefficients, powers, from + 1, 1);
    let c = put_value(out, b, b"minOutValue", coefficients, powers, from + 2, 1);
    put_value(out, c, b"maxOutValue", coefficients, powers, from + 3, 1)
}

// The in value of one end, which has the name `input`, and its out value, which has the name `output`.
fn put_pair(
    out: &mut [u8],
    at: usize,
    input: &[u8],
    output: &[u8],
    coefficients: &[i64],
    powers: &[i8],
    from: usize,
) -> usize
    requires { from + 2 ≤ room_length (lent coefficients.now powers.now) }
    ensures { Puts (Tail.pair_text input.now output.now (numbers_at (lent coefficients.now powers.now) from 2)) at out.old out.new result }
{
    let a = put_value(out, at, input, coefficients, powers, from, 1);
    put_value(out, a, output, coefficients, powers, from + 1, 1)
}

// A Range with one end: only its pair is written (document 02, W-202).
fn put_one_end(
    out: &mut [u8],
    at: usize,
    end: RangeEnd,
    coefficients: &[i64],
    powers: &[i8],
    from: usize,
) -> usize
    requires { from + 2 ≤ room_length (lent coefficients.now powers.now) }
    ensures { Puts (Tail.one_end_text end (numbers_at (lent coefficients.now powers.now) from 2)) at out.old out.new result }
{
    match end {
        RangeEnd::Minimum => {
            put_pair(
                out,
                at,
                b"minInValue",
                b"minOutValue",
                coefficients,
                powers,
                from,
            )
        }
        RangeEnd::Maximum => {
            put_pair(
                out,
                at,
                b"maxInValue",
                b"maxOutValue",
                coefficients,
                powers,
                from,
            )
        }
    }
}

fn put_sop(out: &mut [u8], at: usize, coefficients: &[i64], powers: &[i8], from: usize) -> usize
    requires { from + 10 ≤ room_length (lent coefficients.now powers.now) }
    ensures { Puts (Tail.sop_text (numbers_at (lent coefficients.now powers.now) from 10)) at out.old out.new result }
{
    let a = put(out, at, b"<SOPNode>\n");
    let b = put_value(out, a, b"Slope", coefficients, powers, from, 3);
    let c = put_value(out, b, b"Offset", coefficients, powers, from + 3, 3);
    let d = put_value(out, c, b"Power", coefficients, powers, from + 6, 3);
    put(out, d, b"</SOPNode>\n")
}

fn put_sat(out: &mut [u8], at: usize, coefficients: &[i64], powers: &[i8], from: usize) -> usize
    requires { from + 10 ≤ room_length (lent coefficients.now powers.now) }
    ensures { Puts (Tail.sat_text (numbers_at (lent coefficients.now powers.now) from 10)) at out.old out.new result }
{
    let a = put(out, at, b"<SatNode>\n");
    let b = put_value(out, a, b"Saturation", coefficients, powers, from + 9, 1);
    put(out, b, b"</SatNode>\n")
}

// What stands between the tags of a node of this kind, whose numbers stand in the room from `from` on.
fn put_content(
    out: &mut [u8],
    at: usize,
    kind: Kind,
    coefficients: &[i64],
    powers: &[i8],
    from: usize,
) -> usize
    requires { from + numbers_of kind ≤ room_length (lent coefficients.now powers.now) }
    ensures { Puts (Tail.content_text kind (numbers_at (lent coefficients.now powers.now) from (numbers_of kind))) at out.old out.new result }
{
    match kind {
        Kind::Matrix { wide } => {
            if wide {
                return put_table(out, at, coefficients, powers, from, 3, 4);
            }
            put_table(out, at, coefficients, powers, from, 3, 3)
        }
        Kind::Lut1d { entries, columns } => {
            put_table(out, at, coefficients, powers, from, entries, columns)
        }
        Kind::Range { .. } => put_range(out, at, coefficients, powers, from),
        Kind::Cdl { .. } => {
            let held = put_sop(out, at, coefficients, powers, from);
            put_sat(out, held, coefficients, powers, from)
        }
        Kind::Lut3d { points, .. } => put_cube(out, at, coefficients, powers, from, points),
        Kind::OneEnd { end } => put_one_end(out, at, end, coefficients, powers, from),
    }
}

fn put_node(out: &mut [u8], at: usize, node: Node, coefficients: &[i64], powers: &[i8]) -> usize
    requires { node.at + numbers_of node.kind ≤ room_length (lent coefficients.now powers.now) }
    ensures { Puts (Tail.node_text (element_of (lent coefficients.now powers.now) node)) at out.old out.new result }
{
    let a = put_start(out, at, node.kind, node.input, node.output, &node.id);
    let b = put_content(out, a, node.kind, coefficients, powers, node.at);
    put_end(out, b, node.kind)
}

// The nodes of a valid list.
pub fn put_nodes(
    out: &mut [u8],
    at: usize,
    list: ProcessList,
    coefficients: &[i64],
    powers: &[i8],
) -> usize
    requires { is_valid list (lent coefficients.now powers.now) ≡ true }
    ensures { Puts (Tail.nodes_text (elements_of list (lent coefficients.now powers.now))) at out.old out.new result }
{
    let count = process_list::held(list);
    let mut held = at;
    for node in &list.nodes[..count] {
        held = put_node(out, held, *node, coefficients, powers);
    }
    held
}

// The pieces of an answer: number and place, a node, a number of the table room.
ghost use Rattle.std.specs.Prelude.{◌++◌};
ghost use Rattle.text_out.specs.Output.{Puts};
ghost use Rattle.shell_text.specs.Show as Show;
ghost use Rattle.ids.specs.Ids.{id_text};

use crate::hex::hex_pair;
use node_names::{put_depth, put_name};
use process_list::{Depth, Interpolation, Kind, Node, RangeEnd};
use text_out::{put, put_digits, put_whole};

// The refusal number and its place.
pub fn put_answer(out: &mut [u8], at: usize, number: u8, place: usize) -> usize
    ensures { Puts (Show.shown_answer number place) at out.old out.new result }
{
    let a = put_digits(out, at, number as usize);
    let b = put(out, a, b" ");
    put_digits(out, b, place)
}

// Both depths, a comma before and behind each.
fn put_depths(out: &mut [u8], at: usize, input: Depth, output: Depth) -> usize
    ensures { Puts (Show.shown_depths input output) at out.old out.new result }
{
    let a = put(out, at, b",");
    let b = put_depth(out, a, input);
    let c = put(out, b, b",");
    let d = put_depth(out, c, output);
    put(out, d, b",")
}

// The shape of a table.
fn put_table(out: &mut [u8], at: usize, entries: usize, columns: usize) -> usize
    ensures { Puts (Show.table_text entries columns) at out.old out.new result }
{
    let a = put(out, at, b"-,");
    let b = put_digits(out, a, entries);
    let c = put(out, b, b"x");
    put_digits(out, c, columns)
}

// One of two texts.
fn put_either(out: &mut [u8], at: usize, first: bool, this: &[u8], other: &[u8]) -> usize
    ensures { Puts (λ t. Show.one_of_two first this.now other.now ++ t) at out.old out.new result }
{
    if first {
        return put(out, at, this);
    }
    put(out, at, other)
}

// A LUT3D's method and a comma.
fn put_method(out: &mut [u8], at: usize, interpolation: Interpolation) -> usize
    ensures { Puts (λ t. Show.method_text interpolation ++ t) at out.old out.new result }
{
    match interpolation {
        Interpolation::Trilinear => put(out, at, b"trilinear,"),
        Interpolation::Tetrahedral => put(out, at, b"tetrahedral,"),
    }
}

// The shape of a LUT3D.
fn put_cube(out: &mut [u8], at: usize, points: usize) -> usize
    ensures { Puts (Show.cube_text points) at out.old out.new result }
{
    let a = put_digits(out, at, points);
    let b = put(out, a, b"x");
    let c = put_digits(out, b, points);
    let d = put(out, c, b"x");
    let e = put_digits(out, d, points);
    put(out, e, b"x3")
}

// Style and shape of a Range with one end.
fn put_one_end(out: &mut [u8], at: usize, end: RangeEnd) -> usize
    ensures { Puts (λ t. Show.one_end_text end ++ t) at out.old out.new result }
{
    match end {
        RangeEnd::Minimum => put(out, at, b"Clamp,min"),
        RangeEnd::Maximum => put(out, at, b"Clamp,max"),
    }
}

// Style and shape.
fn put_form(out: &mut [u8], at: usize, kind: Kind) -> usize
    ensures { Puts (Show.form_text kind) at out.old out.new result }
{
    match kind {
        Kind::Matrix { wide } => put_either(out, at, wide, b"-,3x4", b"-,3x3"),
        Kind::Lut1d { entries, columns } => put_table(out, at, entries, columns),
        Kind::Range { style } => {
            put_either(
                out,
                at,
                process_list::range_clamps(style),
                b"Clamp,-",
                b"noClamp,-",
            )
        }
        Kind::Cdl { style } => {
            put_either(
                out,
                at,
                process_list::cdl_clamps(style),
                b"Fwd,-",
                b"FwdNoClamp,-",
            )
        }
        Kind::Lut3d {
            points,
            interpolation,
        } => {
            let held = put_method(out, at, interpolation);
            put_cube(out, held, points)
        }
        Kind::OneEnd { end } => put_one_end(out, at, end),
    }
}

// The index of a node's first number, a comma and the number that is kept.
fn put_place(out: &mut [u8], at: usize, first: usize, newest: u32) -> usize
    ensures { Puts (Show.place_text first newest) at out.old out.new result }
{
    let a = put_digits(out, at, first);
    let b = put(out, a, b",");
    put_digits(out, b, newest as usize)
}

// Bytes as hex digits.
fn put_hex(out: &mut [u8], at: usize, bytes: &[u8]) -> usize
    ensures { Puts (Show.hex_text bytes.now) at out.old out.new result }
{
    let mut held = at;
    for b in bytes {
        held = put(out, held, &hex_pair(*b));
    }
    held
}

// An id as hex digits, `-` for none: `places` are its 32 places.
fn put_id(out: &mut [u8], at: usize, places: &[u8]) -> usize
    ensures { Puts (Show.id_shown (id_text places.now)) at out.old out.new result }
{
    let n = ids::length_of(places);
    if n == 0 {
        return put(out, at, b"-");
    }
    put_hex(out, at, &places[0..n])
}

// A node of a list.
pub fn put_node(out: &mut [u8], at: usize, node: Node) -> usize
    ensures { Puts (Show.shown_node node) at out.old out.new result }
{
    let a = put(out, at, b";");
    let b = put_name(out, a, node.kind);
    let c = put_depths(out, b, node.input, node.output);
    let d = put_form(out, c, node.kind);
    let e = put(out, d, b",");
    let f = put_place(out, e, node.at, node.newest);
    let g = put(out, f, b",");
    put_id(out, g, &node.id)
}

// A number of the table room: its coefficient, `:` and its power.
pub fn put_decimal(out: &mut [u8], at: usize, coefficient: i64, power: i8) -> usize
    ensures { Puts (Show.decimal_text coefficient power) at out.old out.new result }
{
    let a = put_whole(out, at, coefficient);
    let b = put(out, a, b":");
    put_whole(out, b, decimal_write::wide(power))
}

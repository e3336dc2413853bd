#![tactic(auto)]

// Refusal 16 (document 01): whether a list and a room are an accepted reading of some file into that room.
ghost use Rattle.std.specs.Prelude.{◌≡◌, ◌&&◌, ◌+◌, ◌≤◌, ◌<◌, length, drop, map};
ghost use Rattle.process_list.specs.List as List;
ghost use Rattle.room.specs.Room as Room;
ghost use Rattle.valid.specs.Valid as Spec;

use decimal::Decimal;
use process_list::{Depth, Kind, Node, ProcessList};

// Whether a node is what stands behind the last one, whatever number is kept with it.
fn is_blank(node: Node) -> bool
    ensures { result ≡ Spec.is_blank node }
{
    is_small_matrix(node.kind)
        && process_list::same_depth(node.input, Depth::I8)
        && process_list::same_depth(node.output, Depth::I8)
        && node.at == 0
        && ids::is_same(node.id, ids::none())
}

// Whether this is a Matrix 3x3.
fn is_small_matrix(kind: Kind) -> bool
    ensures { result ≡ Spec.is_small_matrix kind }
{
    matches!(kind, Kind::Matrix { wide: false })
}

// Whether all nodes behind the last one are blank.
fn blank_behind(list: ProcessList) -> bool
    requires { list.count ≤ 32 }
    ensures { result ≡ Spec.every Spec.is_blank (drop list.count list.nodes) }
{
    list.nodes[list.count..].iter().all(|node| is_blank(*node))
}

// Whether this is the list of no nodes, by what a file says: kept numbers are not looked at.
pub fn is_blank_list(list: ProcessList) -> bool
    ensures { result ≡ Spec.is_blank_list list }
{
    list.count == 0 && blank_behind(list)
}

// Whether the numbers of each node begin where those before it end.
fn is_gapless(nodes: &[Node]) -> bool
    requires { List.total nodes.now ≤ List.most_numbers }
    ensures { result ≡ Spec.gapless 0 nodes.now }
{
    let mut at = 0;
    for node in nodes {
        if node.at != at {
            return false;
        }
        at = process_list::counted(at, node.kind);
    }
    true
}

// Whether each node's id stands in its places as a reading leaves it.
fn ids_held(nodes: &[Node]) -> bool
    ensures { result ≡ Spec.every Spec.id_held nodes.now }
{
    nodes.iter().all(|node| ids::is_held(node.id))
}

// Whether the list alone is right for a room of this length.
fn list_right(list: ProcessList, room: usize) -> bool
    ensures { result ≡ Spec.list_right list room }
{
    if 32 < list.count {
        return false;
    }
    if process_list::judge(false, list, room).is_err() {
        return false;
    }
    let nodes = process_list::nodes_of(&list);
    is_gapless(nodes) && ids_held(nodes) && blank_behind(list)
}

// Whether the shape is carried.
fn shape_right(kind: Kind) -> bool
    ensures { result ≡ Spec.shape_right kind }
{
    match kind {
        Kind::Lut1d { entries, columns } => table_right(entries, columns),
        Kind::Lut3d { points, .. } => cube_right(points),
        _ => true,
    }
}

// Whether a node of this kind may have these depths: a Range with one end has equal ones.
fn depths_right(kind: Kind, input: Depth, output: Depth) -> bool
    ensures { result ≡ Spec.depths_right kind input output }
{
    match kind {
        Kind::OneEnd { .. } => input == output,
        _ => true,
    }
}

// Whether a LUT3D has 2 to 33 entries on each axis.
#[tactic(auto, using(std::proofs::lemmas::Bool::Decides::nat_tests), unfolding(crate::specs::Valid::cube_right))]
fn cube_right(points: usize) -> bool
    ensures { result ≡ Spec.cube_right points }
{
    2 <= points && points <= 33
}

// Whether a LUT1D has 2 to 65,536 entries of 1 or 3 columns.
#[tactic(auto, using(std::proofs::lemmas::Bool::Decides::nat_tests), unfolding(crate::specs::Valid::table_right))]
fn table_right(entries: usize, columns: usize) -> bool
    ensures { result ≡ Spec.table_right entries columns }
{
    2 <= entries && entries <= 65536 && (columns == 1 || columns == 3)
}

// Whether a number is of our form.
#[tactic(auto, unfolding(crate::specs::Valid::carried))]
fn is_carried(number: Decimal) -> bool
    ensures { result ≡ Spec.carried number }
{
    decimal_write::in_range(number) && decimal_write::is_normal(number)
}

// The number at an index.
#[tactic(auto, unfolding(room::specs::Room::room_length))]
fn number_at(coefficients: &[i64], powers: &[i8], k: usize) -> Decimal
    requires { k < Room.room_length (Room.lent coefficients.now powers.now) }
    ensures { result ≡ Spec.decimal_at (Room.lent coefficients.now powers.now) k }
{
    Decimal {
        coefficient: coefficients[k],
        power: powers[k],
    }
}

// Whether the `count` numbers from index `at` on are all of our form.
#[tactic(auto, unfolding(room::specs::Room::room_length))]
fn all_carried(coefficients: &[i64], powers: &[i8], at: usize, count: usize) -> bool
    requires { at + count ≤ Room.room_length (Room.lent coefficients.now powers.now) }
    ensures { result ≡ Spec.every Spec.carried (Spec.numbers_at (Room.lent coefficients.now powers.now) at count) }
{
    for k in at..at + count {
        if !is_carried(number_at(coefficients, powers, k)) {
            return false;
        }
    }
    true
}

// Whether the rules on the numbers of a Range with four values hold.
#[tactic(auto, unfolding(room::specs::Room::room_length))]
fn range_holds(coefficients: &[i64], powers: &[i8], at: usize) -> bool
    requires { at + 4 ≤ Room.room_length (Room.lent coefficients.now powers.now) }
    ensures { result ≡ Spec.range_holds (Spec.numbers_at (Room.lent coefficients.now powers.now) at 4) }
{
    let min_in = number_at(coefficients, powers, at);
    let max_in = number_at(coefficients, powers, at + 1);
    let min_out = number_at(coefficients, powers, at + 2);
    let max_out = number_at(coefficients, powers, at + 3);
    decimal_value::less(min_in, max_in) && decimal_value::at_most(min_out, max_out)
}

// Whether in and out value of a Range with one end are equal.
#[tactic(auto, unfolding(room::specs::Room::room_length))]
fn one_end_holds(coefficients: &[i64], powers: &[i8], at: usize) -> bool
    requires { at + 2 ≤ Room.room_length (Room.lent coefficients.now powers.now) }
    ensures { result ≡ Spec.one_end_holds (Spec.numbers_at (Room.lent coefficients.now powers.now) at 2) }
{
    let value_in = number_at(coefficients, powers, at);
    let value_out = number_at(coefficients, powers, at + 1);
    decimal_value::equal(value_in, value_out)
}

// Whether the three slopes of an ASC_CDL are 0 or more.
#[tactic(auto, unfolding(room::specs::Room::room_length))]
fn slopes_hold(coefficients: &[i64], powers: &[i8], at: usize) -> bool
    requires { at + 10 ≤ Room.room_length (Room.lent coefficients.now powers.now) }
    ensures { result ≡ Spec.slopes_hold (Spec.numbers_at (Room.lent coefficients.now powers.now) at 10) }
{
    let red = decimal_value::not_negative(number_at(coefficients, powers, at));
    let green = decimal_value::not_negative(number_at(coefficients, powers, at + 1));
    let blue = decimal_value::not_negative(number_at(coefficients, powers, at + 2));
    red && green && blue
}

// Whether the three powers of an ASC_CDL are 1.
#[tactic(auto, unfolding(room::specs::Room::room_length))]
fn powers_hold(coefficients: &[i64], powers: &[i8], at: usize) -> bool
    requires { at + 10 ≤ Room.room_length (Room.lent coefficients.now powers.now) }
    ensures { result ≡ Spec.powers_hold (Spec.numbers_at (Room.lent coefficients.now powers.now) at 10) }
{
    let red = decimal_value::is_one(number_at(coefficients, powers, at + 6));
    let green = decimal_value::is_one(number_at(coefficients, powers, at + 7));
    let blue = decimal_value::is_one(number_at(coefficients, powers, at + 8));
    red && green && blue
}

// Whether the rules on an ASC_CDL's numbers hold.
#[tactic(auto, unfolding(room::specs::Room::room_length))]
fn cdl_holds(coefficients: &[i64], powers: &[i8], at: usize) -> bool
    requires { at + 10 ≤ Room.room_length (Room.lent coefficients.now powers.now) }
    ensures { result ≡ Spec.cdl_holds (Spec.numbers_at (Room.lent coefficients.now powers.now) at 10) }
{
    let slopes = slopes_hold(coefficients, powers, at);
    let ones = powers_hold(coefficients, powers, at);
    let saturation = number_at(coefficients, powers, at + 9);
    slopes && ones && decimal_value::not_negative(saturation)
}

// Whether the rules on the numbers of a node of this kind hold.
fn rules_hold(coefficients: &[i64], powers: &[i8], kind: Kind, at: usize) -> bool
    requires { at + List.numbers_of kind ≤ Room.room_length (Room.lent coefficients.now powers.now) }
    ensures { result ≡ Spec.rules_hold kind (Spec.numbers_at (Room.lent coefficients.now powers.now) at (List.numbers_of kind)) }
{
    match kind {
        Kind::Range { .. } => range_holds(coefficients, powers, at),
        Kind::Cdl { .. } => cdl_holds(coefficients, powers, at),
        Kind::OneEnd { .. } => one_end_holds(coefficients, powers, at),
        _ => true,
    }
}

// Whether the element that a node has in this room is without fault.
pub fn sound(node: Node, coefficients: &[i64], powers: &[i8]) -> bool
    ensures { result ≡ Spec.sound (Spec.element_of (Room.lent coefficients.now powers.now) node) }
{
    let kind = node.kind;
    let at = node.at;
    if !shape_right(kind) {
        return false;
    }
    let count = process_list::numbers_of(kind);
    let room = room::length(coefficients, powers);
    if room < at {
        return false;
    }
    if room - at < count {
        return false;
    }
    if !all_carried(coefficients, powers, at, count) {
        return false;
    }
    if !rules_hold(coefficients, powers, kind, at) {
        return false;
    }
    depths_right(kind, node.input, node.output) && ids::allowed(&node.id)
}

// Whether the elements of all nodes are without fault.
fn all_sound(nodes: &[Node], coefficients: &[i64], powers: &[i8]) -> bool
    ensures { result ≡ Spec.every Spec.sound (map (Spec.element_of (Room.lent coefficients.now powers.now)) nodes.now) }
{
    nodes.iter().all(|node| sound(*node, coefficients, powers))
}

// Whether every element is this one.
fn all_are<T: Copy + PartialEq>(s: &[T], x: T) -> bool
    ensures { result ≡ Spec.every (λ y. T.eq y x) s.now }
{
    s.iter().all(|y| *y == x)
}

// Whether the room is zero from index `at` on; behind its end there is nothing that could differ.
#[tactic(auto, unfolding(room::specs::Room::room_length))]
pub fn zero_from(coefficients: &[i64], powers: &[i8], at: usize) -> bool
    ensures { result ≡ Spec.zero_from at (Room.lent coefficients.now powers.now) }
{
    let room = room::length(coefficients, powers);
    let start = at.min(room);
    all_are(&coefficients[start..room], 0) && all_are(&powers[start..room], 0)
}

// Whether list and room, but for the kept numbers, are an accepted reading of some file into that room; if not, the answer is refusal 16.
pub fn valid(list: ProcessList, coefficients: &[i64], powers: &[i8]) -> bool
    ensures { result ≡ Spec.is_valid list (Room.lent coefficients.now powers.now) }
{
    let room = room::length(coefficients, powers);
    if !list_right(list, room) {
        return false;
    }
    all_sound(process_list::nodes_of(&list), coefficients, powers)
        && zero_from(coefficients, powers, process_list::used(list))
}

#![tactic(auto)]

// Range: Descriptions, then four values in any order, or one pair of them alone (02, W-202).
ghost use Rattle.std.specs.Prelude.{◌≡◌, Bool, true, cond, ◌+◌, ◌≤◌, length, set, IfOk};
ghost use Rattle.process_list.specs.declared.RangeStyle.TheVariants.{Clamp, NoClamp};
ghost use Rattle.xml.specs.Elements.{held};
ghost use Rattle.room.specs.Room.{lent};
ghost use Rattle.values.specs.Code.{Laid};
ghost use Rattle.clf.specs.Nodes as Nodes;
ghost use Rattle.node_parts.specs.Code.{small_numbers, NodeReads};
ghost use Rattle.node_parts.specs.Held.{Goes, ReadsTo, NodeStored};
ghost use Rattle.range_node.specs.Code as Code;

use markup::NextTag;
use node_parts::NodeRead;
use process_list::{Depth, Kind, RangeEnd, RangeStyle};
use tags::TagKind;
use values::Rule;
use xml::Stop;

// A child of a Range that was read, or its content: the place behind it, and which of the four values were there by then.
#[derive(Clone, Copy, Debug, PartialEq, Eq)]
pub struct RangeRead {
    pub end: usize,
    pub found: [bool; 4],
}

// The index of a value by its name; 4 for no value's name, as the definition has it: a room of four has no such index.
fn range_index(w: &[u8]) -> usize
    ensures { result ≡ Nodes.range_index w.now }
{
    if xml::same(w, b"minInValue") {
        0
    } else if xml::same(w, b"maxInValue") {
        1
    } else if xml::same(w, b"minOutValue") {
        2
    } else if xml::same(w, b"maxOutValue") {
        3
    } else {
        4
    }
}

fn range_any(found: [bool; 4]) -> bool
    ensures { result ≡ Code.any_of found }
{
    found != [false; 4]
}

fn range_all(found: [bool; 4]) -> bool
    ensures { result ≡ Code.all_of found }
{
    found == [true; 4]
}

// Whether the rule on two values is kept, by the numbers of a small room.
fn in_order(coefficients: &[i64], powers: &[i8]) -> bool
    ensures { result ≡ Code.ordered_in (lent coefficients.now powers.now) }
{
    let a = node_parts::number_at(coefficients, powers, 0);
    let b = node_parts::number_at(coefficients, powers, 1);
    let c = node_parts::number_at(coefficients, powers, 2);
    let d = node_parts::number_at(coefficients, powers, 3);
    decimal_value::less(a, b) && decimal_value::at_most(c, d)
}

// Whether the pair of this end is there alone.
fn only(end: RangeEnd, found: [bool; 4]) -> bool
    ensures { result ≡ Code.only_of end found }
{
    match end {
        RangeEnd::Minimum => found == [true, false, true, false],
        RangeEnd::Maximum => found == [false, true, false, true],
    }
}

// The indices of a pair's in value and out value.
fn in_index(end: RangeEnd) -> usize
    ensures { result ≡ Nodes.in_of end }
{
    match end {
        RangeEnd::Minimum => 0,
        RangeEnd::Maximum => 1,
    }
}

fn out_index(end: RangeEnd) -> usize
    ensures { result ≡ Nodes.out_of end }
{
    match end {
        RangeEnd::Minimum => 2,
        RangeEnd::Maximum => 3,
    }
}

// What is wrong at the end tag where this pair is there alone: 7 or 21, or 0. A fault is its number here, 0 is none:
// so the definitions of what an element holds have it, which the contracts cite.
fn pair_missing(allowed: bool, end: RangeEnd, coefficients: &[i64], powers: &[i8]) -> u8
    ensures { result ≡ Code.pair_missing allowed end (lent coefficients.now powers.now) }
{
    if !allowed {
        return refusals::NOT_CARRIED;
    }
    let a = node_parts::number_at(coefficients, powers, in_index(end));
    let b = node_parts::number_at(coefficients, powers, out_index(end));
    tags::unless(decimal_value::equal(a, b), refusals::RULE_BROKEN)
}

// What is wrong at the end tag, by the values that were there. `allowed`: the start tag allows one pair alone.
fn range_missing(allowed: bool, found: [bool; 4], coefficients: &[i64], powers: &[i8]) -> u8
    ensures { result ≡ Code.missing_of allowed found (lent coefficients.now powers.now) }
{
    if range_all(found) {
        tags::unless(in_order(coefficients, powers), refusals::RULE_BROKEN)
    } else if only(RangeEnd::Minimum, found) {
        pair_missing(allowed, RangeEnd::Minimum, coefficients, powers)
    } else if only(RangeEnd::Maximum, found) {
        pair_missing(allowed, RangeEnd::Maximum, coefficients, powers)
    } else {
        refusals::WRONG_ELEMENT
    }
}

// What is wrong with a child's name.
fn range_fault(w: &[u8], found: [bool; 4]) -> u8
    ensures { result ≡ Code.range_fault_of found w.now }
{
    let k = range_index(w);
    if xml::same(w, b"Description") {
        tags::unless(!range_any(found), refusals::WRONG_ELEMENT)
    } else if 4 <= k || found[k] {
        refusals::WRONG_ELEMENT
    } else {
        0
    }
}

// The flags with that of index k set.
fn with_found(found: [bool; 4], k: usize) -> [bool; 4]
    ensures { result ≡ set found k true }
{
    let mut next = found;
    if k < 4 {
        next[k] = true;
    }
    next
}

// A child of a Range, of the name w, behind its name. Its number goes into a room of four.
fn range_body(
    s: &[u8],
    at: usize,
    w: &[u8],
    found: [bool; 4],
    coefficients: &mut [i64],
    powers: &mut [i8],
) -> Result<RangeRead, Stop>
    ensures { (st : Nodes.RangeState) → Code.RangeStands (lent coefficients.old powers.old) found st
        → ReadsTo (Nodes.range_body st w.now).run s.now at (Code.range_end result)
        (λ x. IfOk result (λ r. Code.RangeStands (lent coefficients.new powers.new) r.found x)) (Unit {0}) }
{
    if xml::same(w, b"Description") {
        let end = info::text_element(s, at, w)?;
        return Ok(RangeRead { end, found });
    }
    let k = range_index(w);
    let end = values::value_element(s, at, w, 1, Rule::Any, coefficients, powers, k)?;
    Ok(RangeRead {
        end,
        found: with_found(found, k),
    })
}

// A child of a Range: its `<` stands at `at`, and its name ends at e. `found`: the values that were there before it.
fn range_child(
    s: &[u8],
    at: usize,
    e: usize,
    found: [bool; 4],
    coefficients: &mut [i64],
    powers: &mut [i8],
) -> Result<RangeRead, Stop>
    requires { (at + 2 ≤ e) × (e ≤ length s.now) }
    ensures { (allowed : Bool) (st : Nodes.RangeState) → Code.RangeStands (lent coefficients.old powers.old) found st
        → Goes (Nodes.range_holder allowed) st s.now at e (Code.range_end result)
        (λ x. IfOk result (λ r. Code.RangeStands (lent coefficients.new powers.new) r.found x)) (Unit {0}) }
{
    let w = tags::part(s, at + 1, e);
    let k = range_fault(w, found);
    if k != 0 {
        return Err(Stop::Fault(k, at));
    }
    range_body(s, e, w, found, coefficients, powers)
}

// The content of a Range, and its end tag. Its numbers go into a room of four zeros. `allowed`: the start tag allows one pair alone.
fn range_content(
    s: &[u8],
    at: usize,
    allowed: bool,
    coefficients: &mut [i64],
    powers: &mut [i8],
) -> Result<RangeRead, Stop>
    requires { small_numbers (lent coefficients.old powers.old) ≡ Code.four_zeros }
    ensures { ReadsTo (held (Nodes.range_holder allowed) Nodes.no_values).run s.now at (Code.range_end result)
        (λ x. IfOk result (λ r. Code.RangeStands (lent coefficients.new powers.new) r.found x)) (Unit {0}) }
{
    let mut found = [false; 4];
    let mut i = at;
    loop {
        match markup::next_tag(s, i)? {
            NextTag::Start(a, e) => {
                let child = range_child(s, a, e, found, coefficients, powers)?;
                i = child.end;
                found = child.found;
            }
            NextTag::End(a) => {
                let missing = range_missing(allowed, found, coefficients, powers);
                let end = markup::end_tag(s, a, b"Range", missing)?;
                return Ok(RangeRead { end, found });
            }
        }
    }
}

// The style, by whether its text is "noClamp".
fn range_style(unclamped: bool) -> RangeStyle
    ensures { result ≡ cond unclamped NoClamp Clamp }
{
    if unclamped {
        RangeStyle::NoClamp
    } else {
        RangeStyle::Clamp
    }
}

// Whether a Range of this style and these depths may have one pair alone.
fn one_end_allowed(style: RangeStyle, input: Depth, output: Depth) -> bool
    ensures { result ≡ Nodes.one_end_allowed style input output }
{
    process_list::range_clamps(style) && process_list::same_depth(input, output)
}

// The end whose pair was there, where not all four values were.
fn found_end(found: [bool; 4]) -> RangeEnd
    ensures { result ≡ Code.end_found found }
{
    if only(RangeEnd::Minimum, found) {
        RangeEnd::Minimum
    } else {
        RangeEnd::Maximum
    }
}

// The kind of a Range, by the values that were there.
fn found_kind(found: [bool; 4], style: RangeStyle) -> Kind
    ensures { result ≡ Code.kind_found style found }
{
    if range_all(found) {
        Kind::Range { style }
    } else {
        Kind::OneEnd {
            end: found_end(found),
        }
    }
}

// Stores the two numbers of a pair from `base` on.
fn store_pair(
    end: RangeEnd,
    small: &[i64],
    small_powers: &[i8],
    coefficients: &mut [i64],
    powers: &mut [i8],
    base: usize,
)
    ensures { Laid base (Code.pair_in end (lent small.now small_powers.now)) (lent coefficients.old powers.old)
        (lent coefficients.new powers.new) }
{
    let a = node_parts::number_at(small, small_powers, in_index(end));
    let b = node_parts::number_at(small, small_powers, out_index(end));
    values::store(coefficients, powers, base, 0, a);
    values::store(coefficients, powers, base, 1, b);
}

// Stores the numbers of a Range from `base` on: all four, or those of the pair that was there.
fn store_found(
    found: [bool; 4],
    small: &[i64],
    small_powers: &[i8],
    coefficients: &mut [i64],
    powers: &mut [i8],
    base: usize,
)
    ensures { Laid base (Code.numbers_found found (lent small.now small_powers.now)) (lent coefficients.old powers.old)
        (lent coefficients.new powers.new) }
{
    if range_all(found) {
        node_parts::store_all(small, small_powers, coefficients, powers, base);
    } else {
        let end = found_end(found);
        store_pair(end, small, small_powers, coefficients, powers, base);
    }
}

// A Range, behind its name, before the room is cleared where there is none.
fn stored_range(
    s: &[u8],
    at: usize,
    coefficients: &mut [i64],
    powers: &mut [i8],
    base: usize,
) -> Result<NodeRead, Stop>
    ensures { NodeStored (Nodes.range).run s.now at base result (lent coefficients.old powers.old) (lent coefficients.new powers.new) }
{
    let tag = tags::start_tag(s, at, TagKind::Range)?;
    let attributes = tag.attributes;
    let style = range_style(node_parts::style_is(s, attributes, b"noClamp"));
    let input = node_parts::depth_at(s, attributes, b"inBitDepth");
    let output = node_parts::depth_at(s, attributes, b"outBitDepth");
    let allowed = one_end_allowed(style, input, output);
    let mut small = [0i64; 4];
    let mut small_powers = [0i8; 4];
    let content = range_content(s, tag.end.behind(), allowed, &mut small, &mut small_powers)?;
    store_found(
        content.found,
        &small,
        &small_powers,
        coefficients,
        powers,
        base,
    );
    let id = node_parts::id_at(s, attributes);
    let kind = found_kind(content.found, style);
    Ok(NodeRead {
        end: content.end,
        node: process_list::unplaced(kind, input, output, id),
    })
}

// A Range, behind its name.
pub fn read_range(
    s: &[u8],
    at: usize,
    coefficients: &mut [i64],
    powers: &mut [i8],
    base: usize,
) -> Result<NodeRead, Stop>
    ensures { NodeReads (Nodes.range).run s.now at base result (lent coefficients.old powers.old) (lent coefficients.new powers.new) }
{
    let read = stored_range(s, at, coefficients, powers, base);
    node_parts::kept_or_cleared(read, coefficients, powers, base)
}

#![tactic(auto)]

// ASC_CDL: Descriptions, then an optional SOPNode, then an optional SatNode.
ghost use Rattle.std.specs.Prelude.{◌≡◌, cond, ◌||◌, List, [], ◌+◌, ◌≤◌, ltb, length, IfOk};
ghost use Rattle.decimal.specs.declared.Decimal as Decimals;
ghost use Rattle.process_list.specs.declared.CdlStyle.TheVariants.{Fwd, FwdNoClamp};
ghost use Rattle.xml.specs.Bytes.{same};
ghost use Rattle.xml.specs.Xml.{end_tag};
ghost use Rattle.xml.specs.Elements.{held};
ghost use Rattle.xml.specs.Code.{Reads, no_value};
ghost use Rattle.room.specs.Room as Room;
ghost use Rattle.room.specs.Room.{lent};
ghost use Rattle.values.specs.Code.{rule_of};
ghost use Rattle.clf.specs.Nodes as Nodes;
ghost use Rattle.node_parts.specs.Code.{NodeReads, NumbersIn, small_numbers};
ghost use Rattle.node_parts.specs.Held.{Goes, ReadsTo, NodeStored};
ghost use Rattle.cdl_node.specs.Code as Code;

use markup::NextTag;
use node_parts::NodeRead;
use process_list::{CdlStyle, Kind};
use tags::{TagEnd, TagKind};
use values::Rule;
use xml::{Scan, Stop};

// The part of an ASC_CDL that is read: its SOPNode or its SatNode.
#[derive(Clone, Copy, Debug, PartialEq, Eq)]
enum CdlPart {
    Sop,
    Sat,
}

// A child of an ASC_CDL that was read: the place behind it, and whether its SOPNode and SatNode were there by then.
#[derive(Clone, Copy, Debug, PartialEq, Eq)]
pub struct CdlRead {
    pub end: usize,
    pub sop: bool,
    pub sat: bool,
}

// Whether w is the name that follows `count` numbers in a SOPNode.
fn is_next_sop(w: &[u8], count: usize) -> bool
    ensures { result ≡ same w.now (Nodes.sop_name count) }
{
    match count {
        0 => xml::same(w, b"Slope"),
        3 => xml::same(w, b"Offset"),
        6 => xml::same(w, b"Power"),
        _ => w.is_empty(),
    }
}

// What is wrong with the name of an element in a part, after `count` numbers. A fault is its number here, 0 is none:
// so the definitions of what an element holds have it, which the contracts cite.
fn inner_fault(w: &[u8], part: CdlPart, count: usize) -> u8
    ensures { result ≡ Code.part_fault_of part count w.now }
{
    match part {
        CdlPart::Sop => tags::unless(is_next_sop(w, count), refusals::WRONG_ELEMENT),
        CdlPart::Sat => {
            if 1 <= count {
                return refusals::WRONG_ELEMENT;
            }
            tags::unless(xml::same(w, b"Saturation"), refusals::WRONG_ELEMENT)
        }
    }
}

// The rule on the numbers of that element.
fn inner_rule(part: CdlPart, count: usize) -> Rule
    ensures { rule_of result ≡ Code.rules_in part count }
{
    match part {
        CdlPart::Sop => match count {
            0 => Rule::NotNegative,
            3 => Rule::Any,
            _ => Rule::One,
        },
        CdlPart::Sat => Rule::NotNegative,
    }
}

// How many numbers that element has.
fn inner_width(part: CdlPart) -> usize
    ensures { result ≡ Code.width_of part }
{
    match part {
        CdlPart::Sop => 3,
        CdlPart::Sat => 1,
    }
}

// How many numbers the part has.
fn inner_top(part: CdlPart) -> usize
    ensures { result ≡ Code.top_of part }
{
    match part {
        CdlPart::Sop => 9,
        CdlPart::Sat => 1,
    }
}

// Where the first of them stands in a small room.
fn inner_base(part: CdlPart) -> usize
    ensures { result ≡ Code.base_of part }
{
    match part {
        CdlPart::Sop => 0,
        CdlPart::Sat => 9,
    }
}

fn inner_missing(part: CdlPart, count: usize) -> u8
    ensures { result ≡ cond (ltb count (Code.top_of part)) 5 0 }
{
    tags::unless(inner_top(part) <= count, refusals::WRONG_ELEMENT)
}

// An element in a part after `count` numbers: its `<` stands at `at`, and its name ends at e.
fn inner_child(
    s: &[u8],
    at: usize,
    e: usize,
    part: CdlPart,
    count: usize,
    coefficients: &mut [i64],
    powers: &mut [i8],
) -> Scan
    requires { (at + 2 ≤ e) × (e ≤ length s.now) × (count ≤ 9) }
    ensures { (m₀ : Room.Room) (l : List Decimals.Decimal) → Code.InnerStands part m₀ (lent coefficients.old powers.old) count l
        → Goes (Code.inner_holder part) l s.now at e result (Code.InnerStands part m₀ (lent coefficients.new powers.new) (count + Code.width_of part)) (Unit {0}) }
{
    let w = tags::part(s, at + 1, e);
    let k = inner_fault(w, part, count);
    if k != 0 {
        return Err(Stop::Fault(k, at));
    }
    let n = inner_width(part);
    let rule = inner_rule(part, count);
    let base = inner_base(part) + count;
    values::value_element(s, e, w, n, rule, coefficients, powers, base)
}

// The end tag of a part.
fn inner_end(s: &[u8], at: usize, part: CdlPart, missing: u8) -> Scan
    ensures { Reads 1 (end_tag (Code.name_of part) missing).run no_value s.now at result }
{
    match part {
        CdlPart::Sop => markup::end_tag(s, at, b"SOPNode", missing),
        CdlPart::Sat => markup::end_tag(s, at, b"SatNode", missing),
    }
}

// The content of a part, and its end tag. Its numbers go into a small room.
fn inner_content(
    s: &[u8],
    at: usize,
    part: CdlPart,
    coefficients: &mut [i64],
    powers: &mut [i8],
) -> Scan
    ensures { ReadsTo (held (Code.inner_holder part) []).run s.now at result
        (NumbersIn (Code.top_of part) (Code.base_of part) (lent coefficients.old powers.old) (lent coefficients.new powers.new)) (Unit {0}) }
{
    let width = inner_width(part);
    let mut count: usize = 0;
    let mut i = at;
    loop {
        match markup::next_tag(s, i)? {
            NextTag::Start(a, e) => {
                i = inner_child(s, a, e, part, count, coefficients, powers)?;
                count += width;
            }
            NextTag::End(a) => return inner_end(s, a, part, inner_missing(part, count)),
        }
    }
}

// A part, behind its name.
fn inner_node(
    s: &[u8],
    at: usize,
    part: CdlPart,
    coefficients: &mut [i64],
    powers: &mut [i8],
) -> Scan
    ensures { ReadsTo (Code.inner_node part).run s.now at result
        (NumbersIn (Code.top_of part) (Code.base_of part) (lent coefficients.old powers.old) (lent coefficients.new powers.new)) (Unit {0}) }
{
    let tag = tags::start_tag(s, at, TagKind::Holder)?;
    inner_content(s, tag.end.behind(), part, coefficients, powers)
}

// The fault of what must stand before a SOPNode and a SatNode.
fn cdl_late(sop: bool, sat: bool) -> u8
    ensures { result ≡ cond (sop || sat) 5 0 }
{
    tags::unless(!(sop || sat), refusals::WRONG_ELEMENT)
}

// What is wrong with the name of a child of an ASC_CDL.
fn cdl_fault(w: &[u8], sop: bool, sat: bool) -> u8
    ensures { result ≡ Code.cdl_fault_of sop sat w.now }
{
    if xml::same(w, b"Description") {
        cdl_late(sop, sat)
    } else if xml::same(w, b"SOPNode") {
        cdl_late(sop, sat)
    } else if xml::same(w, b"SatNode") {
        tags::unless(!sat, refusals::WRONG_ELEMENT)
    } else {
        refusals::WRONG_ELEMENT
    }
}

// A child of an ASC_CDL, of the name w, behind its name. Its numbers go into a room of ten.
fn cdl_body(
    s: &[u8],
    at: usize,
    w: &[u8],
    sop: bool,
    sat: bool,
    coefficients: &mut [i64],
    powers: &mut [i8],
) -> Result<CdlRead, Stop>
    ensures { (st : Nodes.CdlState) → Code.CdlStands (lent coefficients.old powers.old) sop sat st
        → ReadsTo (Nodes.cdl_body st w.now).run s.now at (Code.cdl_end result)
        (λ x. IfOk result (λ r. Code.CdlStands (lent coefficients.new powers.new) r.sop r.sat x)) (Unit {0}) }
{
    if xml::same(w, b"SOPNode") {
        let end = inner_node(s, at, CdlPart::Sop, coefficients, powers)?;
        return Ok(CdlRead {
            end,
            sop: true,
            sat,
        });
    }
    if xml::same(w, b"SatNode") {
        let end = inner_node(s, at, CdlPart::Sat, coefficients, powers)?;
        return Ok(CdlRead {
            end,
            sop,
            sat: true,
        });
    }
    let end = info::text_element(s, at, w)?;
    Ok(CdlRead { end, sop, sat })
}

// A child of an ASC_CDL: its `<` stands at `at`, and its name ends at e. `sop` and `sat`: whether its SOPNode and SatNode were there before it.
fn cdl_child(
    s: &[u8],
    at: usize,
    e: usize,
    sop: bool,
    sat: bool,
    coefficients: &mut [i64],
    powers: &mut [i8],
) -> Result<CdlRead, Stop>
    requires { (at + 2 ≤ e) × (e ≤ length s.now) }
    ensures { (st : Nodes.CdlState) → Code.CdlStands (lent coefficients.old powers.old) sop sat st
        → Goes Nodes.cdl_holder st s.now at e (Code.cdl_end result)
        (λ x. IfOk result (λ r. Code.CdlStands (lent coefficients.new powers.new) r.sop r.sat x)) (Unit {0}) }
{
    let w = tags::part(s, at + 1, e);
    let k = cdl_fault(w, sop, sat);
    if k != 0 {
        return Err(Stop::Fault(k, at));
    }
    cdl_body(s, e, w, sop, sat, coefficients, powers)
}

// The content of an ASC_CDL, and its end tag. Its numbers go into a room of ten, where those of absent parts stand already.
fn cdl_content(s: &[u8], at: usize, coefficients: &mut [i64], powers: &mut [i8]) -> Scan
    requires { small_numbers (lent coefficients.old powers.old) ≡ Code.absent_parts }
    ensures { ReadsTo (held Nodes.cdl_holder Nodes.no_cdl).run s.now at result (Code.CdlNumbers (lent coefficients.new powers.new)) (Unit {0}) }
{
    let mut sop = false;
    let mut sat = false;
    let mut i = at;
    loop {
        match markup::next_tag(s, i)? {
            NextTag::Start(a, e) => {
                let child = cdl_child(s, a, e, sop, sat, coefficients, powers)?;
                i = child.end;
                sop = child.sop;
                sat = child.sat;
            }
            NextTag::End(a) => return markup::end_tag(s, a, b"ASC_CDL", 0),
        }
    }
}

// What follows the start tag of an ASC_CDL, which may be empty.
fn cdl_followed(s: &[u8], end: TagEnd, coefficients: &mut [i64], powers: &mut [i8]) -> Scan
    requires { small_numbers (lent coefficients.old powers.old) ≡ Code.absent_parts }
    ensures { Code.Followed s.now end (lent coefficients.new powers.new) result }
{
    match end {
        TagEnd::Open(q) => cdl_content(s, q, coefficients, powers),
        TagEnd::Empty(q) => Ok(q),
    }
}

// The style, by whether its text is "FwdNoClamp".
fn cdl_style(unclamped: bool) -> CdlStyle
    ensures { result ≡ cond unclamped FwdNoClamp Fwd }
{
    if unclamped {
        CdlStyle::FwdNoClamp
    } else {
        CdlStyle::Fwd
    }
}

// An ASC_CDL, behind its name, before the room is cleared where there is none.
fn stored_cdl(
    s: &[u8],
    at: usize,
    coefficients: &mut [i64],
    powers: &mut [i8],
    base: usize,
) -> Result<NodeRead, Stop>
    ensures { NodeStored (Nodes.asc_cdl).run s.now at base result (lent coefficients.old powers.old) (lent coefficients.new powers.new) }
{
    let tag = tags::start_tag(s, at, TagKind::Cdl)?;
    let mut small: [i64; 10] = [1, 1, 1, 0, 0, 0, 1, 1, 1, 1];
    let mut small_powers = [0i8; 10];
    let end = cdl_followed(s, tag.end, &mut small, &mut small_powers)?;
    node_parts::store_all(&small, &small_powers, coefficients, powers, base);
    let style = cdl_style(node_parts::style_is(s, tag.attributes, b"FwdNoClamp"));
    Ok(NodeRead {
        end,
        node: node_parts::finished(s, tag.attributes, Kind::Cdl { style }),
    })
}

// An ASC_CDL, behind its name.
pub fn read_cdl(
    s: &[u8],
    at: usize,
    coefficients: &mut [i64],
    powers: &mut [i8],
    base: usize,
) -> Result<NodeRead, Stop>
    ensures { NodeReads (Nodes.asc_cdl).run s.now at base result (lent coefficients.old powers.old) (lent coefficients.new powers.new) }
{
    let read = stored_cdl(s, at, coefficients, powers, base);
    node_parts::kept_or_cleared(read, coefficients, powers, base)
}

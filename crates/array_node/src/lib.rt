#![tactic(auto)]

// Matrix, LUT1D and LUT3D: Descriptions, then one Array, whose numbers go into the table room from `base` on.
ghost use Rattle.std.specs.Prelude.{◌≡◌, cond, ◌+◌, ◌≤◌, length, Some, is_some, IfOk};
ghost use Rattle.xml.specs.Bytes.{bytes};
ghost use Rattle.xml.specs.Xml.{text_of, end_tag};
ghost use Rattle.xml.specs.Elements.{held};
ghost use Rattle.xml.specs.Code.{Reads, no_value};
ghost use Rattle.clf.specs.Nodes as Nodes;
ghost use Rattle.tags.specs.Rules.{rules_of};
ghost use Rattle.tags.specs.Code.{attributes_of};
ghost use Rattle.room.specs.Room.{Room, lent};
ghost use Rattle.node_parts.specs.Code.{NodeReads};
ghost use Rattle.node_parts.specs.Held.{Goes, ReadsTo, SameCleared, NodeStored};
ghost use Rattle.array_node.specs.Code as Code;

use markup::NextTag;
use node_parts::NodeRead;
use process_list::{Interpolation, Kind};
use tags::{Attributes, Shape, TagKind};
use values::Rule;
use xml::{Scan, Stop};

// The three nodes that hold an Array.
#[derive(Clone, Copy, Debug, PartialEq, Eq)]
pub enum TableNode {
    Matrix,
    Lut1d,
    Lut3d,
}

// The same behind the start tag, which says a LUT3D's method.
#[derive(Clone, Copy, Debug, PartialEq, Eq)]
enum TableKind {
    Matrix,
    Lut1d,
    Lut3d { interpolation: Interpolation },
}

// An Array that was read: the place behind it, and the shape that its `dim` says. The same of the content that holds it.
#[derive(Clone, Copy, Debug, PartialEq, Eq)]
pub struct TableRead {
    pub end: usize,
    pub kind: Kind,
}

// A child of such a node that was read: the place behind it, and the shape of the Array, if that was there by then.
#[derive(Clone, Copy, Debug, PartialEq, Eq)]
pub struct ChildRead {
    pub end: usize,
    pub found: Option<Kind>,
}

fn matrix_kind(text: &[u8]) -> Option<Kind>
    ensures { Code.kind_read result ≡ Nodes.matrix_shape text.now }
{
    if xml::same(text, b"3 3") {
        Some(Kind::Matrix { wide: false })
    } else if xml::same(text, b"3 4") {
        Some(Kind::Matrix { wide: true })
    } else {
        None
    }
}

fn lut_kind(text: &[u8]) -> Option<Kind>
    ensures { Code.kind_read result ≡ Nodes.lut_shape text.now }
{
    let Shape { entries, columns } = tags::shape_of(text)?;
    Some(Kind::Lut1d { entries, columns })
}

fn cube_kind(text: &[u8], interpolation: Interpolation) -> Option<Kind>
    ensures { Code.kind_read result ≡ Nodes.cube_shape interpolation text.now }
{
    let points = tags::points_of(text)?;
    Some(Kind::Lut3d {
        points,
        interpolation,
    })
}

// The shape that an Array's tag says.
fn kind_of(s: &[u8], attributes: Attributes, table: TableKind) -> Option<Kind>
    ensures { Code.kind_read result ≡ Code.shape_of table (text_of (bytes "dim") (attributes_of s.now attributes)) }
{
    let span = tags::text_of(s, attributes, b"dim");
    let text = tags::part(s, span.start, span.end);
    match table {
        TableKind::Matrix => matrix_kind(text),
        TableKind::Lut1d => lut_kind(text),
        TableKind::Lut3d { interpolation } => cube_kind(text, interpolation),
    }
}

fn array_tag(table: TableKind) -> TagKind
    ensures { rules_of result ≡ Nodes.array_rules (Code.shape_of table) }
{
    match table {
        TableKind::Matrix => TagKind::MatrixArray,
        TableKind::Lut1d => TagKind::Lut1dArray,
        TableKind::Lut3d { interpolation } => TagKind::Lut3dArray { interpolation },
    }
}

// An Array behind its name.
fn array(
    s: &[u8],
    at: usize,
    table: TableKind,
    coefficients: &mut [i64],
    powers: &mut [i8],
    base: usize,
) -> Result<TableRead, Stop>
    ensures { ReadsTo (Nodes.array (Code.shape_of table)).run s.now at (Code.table_end result)
        (λ t. IfOk result (λ a. Code.TableIn base (lent coefficients.old powers.old) (lent coefficients.new powers.new) a.kind t))
        (SameCleared base (lent coefficients.old powers.old) (lent coefficients.new powers.new)) }
{
    let tag = tags::start_tag(s, at, array_tag(table))?;
    let behind = tag.end.behind();
    let wrong = Stop::Fault(refusals::WRONG_ATTRIBUTE, behind);
    let kind = kind_of(s, tag.attributes, table).ok_or(wrong)?;
    let n = process_list::numbers_of(kind);
    let end = values::numbers(
        s,
        behind,
        b"Array",
        n,
        Rule::Any,
        coefficients,
        powers,
        base,
    )?;
    Ok(TableRead { end, kind })
}

// A child of such a node: its `<` stands at `at`, and its name ends at e. `found`: the shape of the Array, if it was there.
fn array_child(
    s: &[u8],
    at: usize,
    e: usize,
    table: TableKind,
    found: Option<Kind>,
    coefficients: &mut [i64],
    powers: &mut [i8],
    base: usize,
) -> Result<ChildRead, Stop>
    requires { (at + 2 ≤ e) × (e ≤ length s.now) }
    ensures { (m₀ : Room) (st : Nodes.ArrayState) → Code.ArrayStands base m₀ (lent coefficients.old powers.old) found st
        → Goes (Code.holder_of table) st s.now at e (Code.child_end result) (λ x. IfOk result (λ c. Code.ArrayStands base m₀ (lent coefficients.new powers.new) c.found x))
        (SameCleared base m₀ (lent coefficients.new powers.new)) }
{
    let w = tags::part(s, at + 1, e);
    if found.is_some() {
        return Err(Stop::Fault(refusals::WRONG_ELEMENT, at));
    }
    if xml::same(w, b"Array") {
        let array = array(s, e, table, coefficients, powers, base)?;
        return Ok(ChildRead {
            end: array.end,
            found: Some(array.kind),
        });
    }
    if xml::same(w, b"Description") {
        let end = info::text_element(s, e, w)?;
        return Ok(ChildRead { end, found });
    }
    Err(Stop::Fault(refusals::WRONG_ELEMENT, at))
}

// What is wrong at the end tag, its number or 0: so the definitions of what an element holds have it, which the contract cites.
fn array_missing(found: Option<Kind>) -> u8
    ensures { result ≡ cond (is_some found) 0 5 }
{
    tags::unless(found.is_some(), refusals::WRONG_ELEMENT)
}

// The end tag of such a node.
fn node_end(s: &[u8], at: usize, table: TableKind, missing: u8) -> Scan
    ensures { Reads 1 (end_tag (Code.name_of table) missing).run no_value s.now at result }
{
    match table {
        TableKind::Matrix => markup::end_tag(s, at, b"Matrix", missing),
        TableKind::Lut1d => markup::end_tag(s, at, b"LUT1D", missing),
        TableKind::Lut3d { interpolation: _ } => markup::end_tag(s, at, b"LUT3D", missing),
    }
}

// The content of such a node, and its end tag. The loops over children here, in `range_node` and in `cdl_node` stay apart, since one for all would take two closures over each node's own state and room,
// which is no plainer.
fn array_content(
    s: &[u8],
    at: usize,
    table: TableKind,
    coefficients: &mut [i64],
    powers: &mut [i8],
    base: usize,
) -> Result<TableRead, Stop>
    ensures { ReadsTo (held (Code.holder_of table) Nodes.no_array).run s.now at (Code.table_end result)
        (λ x. IfOk result (λ a. Code.ArrayStands base (lent coefficients.old powers.old) (lent coefficients.new powers.new) (Some a.kind) x))
        (SameCleared base (lent coefficients.old powers.old) (lent coefficients.new powers.new)) }
{
    let mut found = None;
    let mut i = at;
    loop {
        match markup::next_tag(s, i)? {
            NextTag::Start(a, e) => {
                let child = array_child(s, a, e, table, found, coefficients, powers, base)?;
                i = child.end;
                found = child.found;
            }
            NextTag::End(a) => {
                let end = node_end(s, a, table, array_missing(found))?;
                // without an Array the end tag is at fault
                let kind = found.unwrap();
                return Ok(TableRead { end, kind });
            }
        }
    }
}

fn node_tag(node: TableNode) -> TagKind
    ensures { rules_of result ≡ Nodes.node_rules (Code.names_of node) (Code.texts_of node) }
{
    match node {
        TableNode::Matrix => TagKind::Matrix,
        TableNode::Lut1d => TagKind::Lut1d,
        TableNode::Lut3d => TagKind::Lut3d,
    }
}

// The method that a LUT3D's tag says.
fn interpolation_of(s: &[u8], attributes: Attributes) -> Interpolation
    ensures { result ≡ Nodes.interpolation_of (text_of (bytes "interpolation") (attributes_of s.now attributes)) }
{
    let span = tags::text_of(s, attributes, b"interpolation");
    let text = tags::part(s, span.start, span.end);
    if xml::same(text, b"tetrahedral") {
        Interpolation::Tetrahedral
    } else {
        Interpolation::Trilinear
    }
}

// What a node's Array may be, by its tag.
fn table_kind(s: &[u8], attributes: Attributes, node: TableNode) -> TableKind
    ensures { result ≡ Code.kind_by node (attributes_of s.now attributes) }
{
    match node {
        TableNode::Matrix => TableKind::Matrix,
        TableNode::Lut1d => TableKind::Lut1d,
        TableNode::Lut3d => TableKind::Lut3d {
            interpolation: interpolation_of(s, attributes),
        },
    }
}

// A Matrix, a LUT1D or a LUT3D, behind its name, before the room is cleared where there is none.
fn stored_node(
    s: &[u8],
    at: usize,
    node: TableNode,
    coefficients: &mut [i64],
    powers: &mut [i8],
    base: usize,
) -> Result<NodeRead, Stop>
    ensures { NodeStored (Code.node_for node).run s.now at base result
        (lent coefficients.old powers.old) (lent coefficients.new powers.new) }
{
    let tag = tags::start_tag(s, at, node_tag(node))?;
    let table = table_kind(s, tag.attributes, node);
    let content = array_content(s, tag.end.behind(), table, coefficients, powers, base)?;
    Ok(NodeRead {
        end: content.end,
        node: node_parts::finished(s, tag.attributes, content.kind),
    })
}

// A Matrix, a LUT1D or a LUT3D, behind its name.
pub fn table_node(
    s: &[u8],
    at: usize,
    node: TableNode,
    coefficients: &mut [i64],
    powers: &mut [i8],
    base: usize,
) -> Result<NodeRead, Stop>
    ensures { NodeReads (Code.node_for node).run s.now at base result
        (lent coefficients.old powers.old) (lent coefficients.new powers.new) }
{
    let read = stored_node(s, at, node, coefficients, powers, base);
    node_parts::kept_or_cleared(read, coefficients, powers, base)
}

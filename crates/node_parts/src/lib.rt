#![tactic(auto)]

// What the nodes share: depths, the record of a node, what is left of one at a fault, and small rooms.
ghost use Rattle.std.specs.Prelude.{◌≡◌};
ghost use Rattle.xml.specs.Bytes.{same, bytes};
ghost use Rattle.xml.specs.Xml.{text_of};
ghost use Rattle.room.specs.Room.{lent};
ghost use Rattle.clf.specs.Nodes as Nodes;
ghost use Rattle.process_list.specs.declared.Depth.TheVariants.{I8};
ghost use Rattle.tags.specs.Code.{attributes_of, part_in};
ghost use Rattle.ids.specs.Ids.{held_id};
ghost use Rattle.values.specs.Code.{Laid, kept_or_cleared};
ghost use Rattle.node_parts.specs.Code as Code;

use decimal::Decimal;
use process_list::{Depth, Kind, Node};
use tags::{Attributes, Span};
use xml::Stop;

// A node that was read: the place behind it, and what the list holds of it but for the position.
#[derive(Clone, Copy, Debug, PartialEq, Eq)]
pub struct NodeRead {
    pub end: usize,
    pub node: Node,
}

// The depth that a text says, which stands there.
fn depth_in(s: &[u8], span: Span) -> Depth
    ensures { result ≡ Nodes.or_else I8 (Nodes.depth_of (part_in s.now span.start span.end)) }
{
    tags::depth_of(tags::part(s, span.start, span.end)).unwrap_or(Depth::I8)
}

pub fn depth_at(s: &[u8], attributes: Attributes, w: &[u8]) -> Depth
    ensures { result ≡ Nodes.depth_at w.now (attributes_of s.now attributes) }
{
    depth_in(s, tags::text_of(s, attributes, w))
}

pub fn style_is(s: &[u8], attributes: Attributes, w: &[u8]) -> bool
    ensures { result ≡ same (text_of (bytes "style") (attributes_of s.now attributes)) w.now }
{
    let span = tags::text_of(s, attributes, b"style");
    xml::same(tags::part(s, span.start, span.end), w)
}

// The id whose text stands there, in its places.
fn id_in(s: &[u8], span: Span) -> [u8; 32]
    ensures { result ≡ held_id (part_in s.now span.start span.end) }
{
    ids::held(tags::part(s, span.start, span.end))
}

// The id that the attributes say, in its places.
pub fn id_at(s: &[u8], attributes: Attributes) -> [u8; 32]
    ensures { result ≡ held_id (text_of (bytes "id") (attributes_of s.now attributes)) }
{
    id_in(s, tags::text_of(s, attributes, b"id"))
}

// The node of these attributes and this kind.
pub fn finished(s: &[u8], attributes: Attributes, kind: Kind) -> Node
    ensures { result ≡ Code.finished_node s.now attributes kind }
{
    let texts = tags::node_texts(s, attributes);
    let input = depth_in(s, texts.input);
    let output = depth_in(s, texts.output);
    let id = id_in(s, texts.id);
    process_list::unplaced(kind, input, output, id)
}

// The answer for a node. Where there is none, the room is cleared from `base` on.
pub fn kept_or_cleared(
    read: Result<NodeRead, Stop>,
    coefficients: &mut [i64],
    powers: &mut [i8],
    base: usize,
) -> Result<NodeRead, Stop>
    ensures { (result ≡ read) × (lent coefficients.new powers.new ≡ kept_or_cleared base (Code.end_of read) (lent coefficients.old powers.old)) }
{
    if read.is_err() {
        values::clear_from(coefficients, powers, base);
    }
    read
}

// The number of index k of a small room.
pub fn number_at(coefficients: &[i64], powers: &[i8], k: usize) -> Decimal
    ensures { result ≡ Code.small_number_at (lent coefficients.now powers.now) k }
{
    if k < room::length(coefficients, powers) {
        return Decimal {
            coefficient: coefficients[k],
            power: powers[k],
        };
    }
    Decimal {
        coefficient: 0,
        power: 0,
    }
}

// Stores the numbers of a small room from `base` on.
pub fn store_all(
    small: &[i64],
    small_powers: &[i8],
    coefficients: &mut [i64],
    powers: &mut [i8],
    base: usize,
)
    ensures { Laid base (Code.small_numbers (lent small.now small_powers.now)) (lent coefficients.old powers.old)
        (lent coefficients.new powers.new) }
{
    for j in 0..room::length(small, small_powers) {
        let d = number_at(small, small_powers, j);
        values::store(coefficients, powers, base, j, d);
    }
}

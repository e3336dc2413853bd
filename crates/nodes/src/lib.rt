#![tactic(auto)]

// A node by its name.
ghost use Rattle.std.specs.Prelude.{◌≡◌};
ghost use Rattle.room.specs.Room.{lent};
ghost use Rattle.clf.specs.Nodes as Nodes;
ghost use Rattle.node_parts.specs.Code.{NodeReads};
ghost use Rattle.nodes.specs.Code.{name_of, carried_of};

use array_node::TableNode;
use node_parts::NodeRead;
use xml::Stop;

// The nodes that are carried.
#[derive(Clone, Copy, Debug, PartialEq, Eq)]
pub enum CarriedNode {
    Matrix,
    Lut1d,
    Range,
    Cdl,
    Lut3d,
}

// A node's name: of a node that is carried, of one that CLF knows and is not carried, or no node's.
#[derive(Clone, Copy, Debug, PartialEq, Eq)]
pub enum NodeName {
    Carried(CarriedNode),
    NotCarried,
    Other,
}

pub fn node_name(w: &[u8]) -> NodeName
    ensures { name_of result ≡ Nodes.node_name w.now }
{
    if xml::same(w, b"Matrix") {
        NodeName::Carried(CarriedNode::Matrix)
    } else if xml::same(w, b"LUT1D") {
        NodeName::Carried(CarriedNode::Lut1d)
    } else if xml::same(w, b"Range") {
        NodeName::Carried(CarriedNode::Range)
    } else if xml::same(w, b"ASC_CDL") {
        NodeName::Carried(CarriedNode::Cdl)
    } else if xml::same(w, b"Log") {
        NodeName::NotCarried
    } else if xml::same(w, b"Exponent") {
        NodeName::NotCarried
    } else if xml::same(w, b"LUT3D") {
        NodeName::Carried(CarriedNode::Lut3d)
    } else {
        NodeName::Other
    }
}

// The node of the name, from behind its name on.
pub fn node_body(
    s: &[u8],
    at: usize,
    name: CarriedNode,
    coefficients: &mut [i64],
    powers: &mut [i8],
    base: usize,
) -> Result<NodeRead, Stop>
    ensures { NodeReads (Nodes.node_body (carried_of name)).run s.now at base result (lent coefficients.old powers.old)
        (lent coefficients.new powers.new) }
{
    match name {
        CarriedNode::Matrix => {
            array_node::table_node(s, at, TableNode::Matrix, coefficients, powers, base)
        }
        CarriedNode::Lut1d => {
            array_node::table_node(s, at, TableNode::Lut1d, coefficients, powers, base)
        }
        CarriedNode::Range => range_node::read_range(s, at, coefficients, powers, base),
        CarriedNode::Cdl => cdl_node::read_cdl(s, at, coefficients, powers, base),
        CarriedNode::Lut3d => {
            array_node::table_node(s, at, TableNode::Lut3d, coefficients, powers, base)
        }
    }
}

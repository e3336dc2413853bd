#![tactic(auto)]

// The element of a replacing call (document 01, Replacing): its start, by the seven node names, and the node behind its name.
ghost use Rattle.std.specs.Prelude.{◌≡◌};
ghost use Rattle.room.specs.Room.{lent};
ghost use Rattle.nodes.specs.Code.{name_of};
ghost use Rattle.node_parts.specs.Code.{NodeReads};
ghost use Rattle.node_parts.specs.Held.{NodeStored};
ghost use Rattle.look.specs.Replacing as Replacing;
ghost use Rattle.element.specs.Code.{StartOr, StartReads};

use node_parts::NodeRead;
use nodes::{CarriedNode, NodeName};
use xml::Stop;

// The start of the node that w stands for, `<` and its name, at the first byte: the place behind it, and the node. Where it does not stand there, what `other` says.
fn word_or(
    s: &[u8],
    w: &[u8],
    name: NodeName,
    other: Result<(usize, NodeName), Stop>,
) -> Result<(usize, NodeName), Stop>
    ensures { StartOr s.now (name_of name) w.now other result }
{
    match xml::name_or(s, 0, w, Err(Stop::Fault(refusals::NOT_ONE_NODE, 0))) {
        Ok(e) => Ok((e, name)),
        Err(Stop::Fault(_, _)) => other,
        Err(Stop::Cut) => Err(Stop::Cut),
    }
}

// The start of an element: `<` and a node's name. Another start is 20 at 0.
fn element_start(s: &[u8]) -> Result<(usize, NodeName), Stop>
    ensures { StartReads (Replacing.start).run s.now result }
{
    let none = Err(Stop::Fault(refusals::NOT_ONE_NODE, 0));
    let lut3d = word_or(s, b"<LUT3D", NodeName::Carried(CarriedNode::Lut3d), none);
    let exponent = word_or(s, b"<Exponent", NodeName::NotCarried, lut3d);
    let log = word_or(s, b"<Log", NodeName::NotCarried, exponent);
    let cdl = word_or(s, b"<ASC_CDL", NodeName::Carried(CarriedNode::Cdl), log);
    let range = word_or(s, b"<Range", NodeName::Carried(CarriedNode::Range), cdl);
    let lut1d = word_or(s, b"<LUT1D", NodeName::Carried(CarriedNode::Lut1d), range);
    word_or(s, b"<Matrix", NodeName::Carried(CarriedNode::Matrix), lut1d)
}

// The element before the room is cleared where it is at fault.
fn element_stored(
    s: &[u8],
    coefficients: &mut [i64],
    powers: &mut [i8],
    base: usize,
) -> Result<NodeRead, Stop>
    ensures { NodeStored (Replacing.element).run s.now 0 base result (lent coefficients.old powers.old) (lent coefficients.new powers.new) }
{
    let (e, name) = element_start(s)?;
    match name {
        NodeName::Carried(c) => nodes::node_body(s, e, c, coefficients, powers, base),
        NodeName::NotCarried => Err(Stop::Fault(refusals::NOT_CARRIED, 0)),
        NodeName::Other => Err(Stop::Fault(refusals::WRONG_ELEMENT, 0)),
    }
}

// The element from its first byte on: its numbers stand from `base` on; at a fault the room is zero from there on.
pub fn element(
    s: &[u8],
    coefficients: &mut [i64],
    powers: &mut [i8],
    base: usize,
) -> Result<NodeRead, Stop>
    ensures { NodeReads (Replacing.element).run s.now 0 base result (lent coefficients.old powers.old) (lent coefficients.new powers.new) }
{
    let read = element_stored(s, coefficients, powers, base);
    node_parts::kept_or_cleared(read, coefficients, powers, base)
}

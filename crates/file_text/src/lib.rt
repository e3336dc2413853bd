#![tactic(auto)]

// The text of a CLF file: the declaration, ProcessList with its children, and what may stand around it.
ghost use Rattle.std.specs.Prelude.{◌≡◌, ◌+◌, ◌<◌, length, drop};
ghost use Rattle.room.specs.Room.{lent};
ghost use Rattle.xml.specs.Xml.{start_tag};
ghost use Rattle.tags.specs.Code.{part_in};
ghost use Rattle.clf.specs.List as List;
ghost use Rattle.clf.specs.Whole.{whole_behind, behind_head};
ghost use Rattle.file_text.specs.Code as Code;

use markup::NextTag;
use nodes::{CarriedNode, NodeName};
use process_list::{Node, ProcessList};
use tags::{TagEnd, TagKind};
use xml::{Scan, Stop};

// ProcessList so far: its nodes, the first 32 of them; whether there were more; how many numbers they have, counted no further than
// one more than may be; which of the children that may not repeat have been there; and where the `<` of the node that is wanted stands,
// 0 where it has not been.
#[derive(Clone, Copy)]
pub struct ListState {
    pub list: ProcessList,
    pub over: bool,
    pub used: usize,
    pub input: bool,
    pub output: bool,
    pub info: bool,
    pub start: usize,
}

// How the text reads, and what it has held so far. This is no `Result`: what has been held is answered at a fault, too (`ListReads`).
#[derive(Clone, Copy)]
pub struct ListStep {
    pub scan: Scan,
    pub state: ListState,
}

// What is kept beside the list while its children are read: all of `ListState` but the list itself, which is large and stays where it is.
#[derive(Clone, Copy)]
struct Progress {
    over: bool,
    used: usize,
    input: bool,
    output: bool,
    info: bool,
    start: usize,
}

// A child of ProcessList, by what it changes: a node, one of those that may not repeat, or any other, which changes nothing.
#[derive(Clone, Copy)]
enum FoundChild {
    Node(Node),
    InputDescriptor,
    OutputDescriptor,
    Info,
    Other,
}

// A child that was read: the place behind it, and which one it is.
#[derive(Clone, Copy)]
struct ChildRead {
    end: usize,
    child: FoundChild,
}

// The text reads so, and has held this.
fn step_of(scan: Scan, state: ListState) -> ListStep
    ensures { result ≡ Code.step scan state }
{
    ListStep { scan, state }
}

// What is kept beside the list before any child.
fn no_progress() -> Progress
    ensures { result ≡ Code.no_progress }
{
    Progress {
        over: false,
        used: 0,
        input: false,
        output: false,
        info: false,
        start: 0,
    }
}

// The state of this list, with what is kept beside it.
fn state_by(list: ProcessList, progress: Progress) -> ListState
    ensures { result ≡ Code.state_by list progress }
{
    ListState {
        list,
        over: progress.over,
        used: progress.used,
        input: progress.input,
        output: progress.output,
        info: progress.info,
        start: progress.start,
    }
}

// The state before any child.
fn no_list() -> ListState
    ensures { result ≡ Code.no_list }
{
    state_by(process_list::empty(), no_progress())
}

// The content reads so, and has held this. A call of its own, so that its copies of the list take no stack while a node is read.
#[inline(never)]
fn ended(scan: Scan, list: ProcessList, progress: Progress) -> ListStep
    ensures { result ≡ Code.step scan (Code.state_by list progress) }
{
    step_of(scan, state_by(list, progress))
}

// The place of the node that is wanted, after `count` nodes and one more, whose `<` stands at `at`.
fn wanted_start(count: usize, wanted: usize, old: usize, at: usize) -> usize
    ensures { result ≡ Code.wanted_start count wanted old at }
{
    if count < 32 && count + 1 == wanted {
        at
    } else {
        old
    }
}

// One node more behind `count` others, whose `<` stands at `at`.
fn behind_node(progress: Progress, node: Node, count: usize, wanted: usize, at: usize) -> Progress
    ensures { result ≡ Code.behind_node progress node count wanted at }
{
    Progress {
        over: progress.over || 32 <= count,
        used: process_list::counted(progress.used, node.kind),
        start: wanted_start(count, wanted, progress.start, at),
        ..progress
    }
}

// One child more behind `count` nodes, whose `<` stands at `at`.
fn behind_child(
    progress: Progress,
    child: FoundChild,
    count: usize,
    wanted: usize,
    at: usize,
) -> Progress
    ensures { result ≡ Code.behind_child progress child count wanted at }
{
    match child {
        FoundChild::Node(node) => behind_node(progress, node, count, wanted, at),
        FoundChild::InputDescriptor => Progress {
            input: true,
            ..progress
        },
        FoundChild::OutputDescriptor => Progress {
            output: true,
            ..progress
        },
        FoundChild::Info => Progress {
            info: true,
            ..progress
        },
        FoundChild::Other => progress,
    }
}

// A child that is no node, whose `<` stands at `at` and which reads so; `seen` where it may not repeat and has been there.
fn once(at: usize, seen: bool, scan: Scan, child: FoundChild) -> Result<ChildRead, Stop>
    ensures { result ≡ Code.once_child at seen scan child }
{
    if seen {
        return Err(Stop::Fault(refusals::WRONG_ELEMENT, at));
    }
    let end = scan?;
    Ok(ChildRead { end, child })
}

// A carried node, whose name ends at e and whose numbers are stored from `used` on.
fn carried_child(
    s: &[u8],
    e: usize,
    name: CarriedNode,
    used: usize,
    coefficients: &mut [i64],
    powers: &mut [i8],
) -> Result<ChildRead, Stop>
    ensures { Code.CarriedReads s.now e name used result (lent coefficients.old powers.old) (lent coefficients.new powers.new) }
{
    let read = nodes::node_body(s, e, name, coefficients, powers, used)?;
    Ok(ChildRead {
        end: read.end,
        child: FoundChild::Node(read.node),
    })
}

// A child by its name as a node, whose `<` stands at `at` and whose name ends at e.
fn node_child(
    s: &[u8],
    at: usize,
    e: usize,
    name: NodeName,
    used: usize,
    coefficients: &mut [i64],
    powers: &mut [i8],
) -> Result<ChildRead, Stop>
    ensures { Code.NodeChild s.now at e name used result (lent coefficients.old powers.old) (lent coefficients.new powers.new) }
{
    match name {
        NodeName::Carried(c) => carried_child(s, e, c, used, coefficients, powers),
        NodeName::NotCarried => Err(Stop::Fault(refusals::NOT_CARRIED, at)),
        NodeName::Other => Err(Stop::Fault(refusals::WRONG_ELEMENT, at)),
    }
}

// A child of ProcessList: its `<` stands at `at`, and its name ends at e.
fn list_child(
    s: &[u8],
    at: usize,
    e: usize,
    progress: Progress,
    coefficients: &mut [i64],
    powers: &mut [i8],
) -> Result<ChildRead, Stop>
    requires { at < length s.now }
    ensures { Code.ChildReads s.now (part_in s.now (at + 1) e) at e progress result (lent coefficients.old powers.old)
        (lent coefficients.new powers.new) }
{
    let w = tags::part(s, at + 1, e);
    if xml::same(w, b"Description") {
        let scan = info::text_element(s, e, w);
        return once(at, false, scan, FoundChild::Other);
    }
    if xml::same(w, b"InputDescriptor") {
        let scan = info::text_element(s, e, w);
        return once(at, progress.input, scan, FoundChild::InputDescriptor);
    }
    if xml::same(w, b"OutputDescriptor") {
        let scan = info::text_element(s, e, w);
        return once(at, progress.output, scan, FoundChild::OutputDescriptor);
    }
    if xml::same(w, b"Info") {
        return once(at, progress.info, info::info(s, e), FoundChild::Info);
    }
    let name = nodes::node_name(w);
    node_child(s, at, e, name, progress.used, coefficients, powers)
}

// The content of ProcessList, and its end tag. A child that does not stand whole leaves everything as it was before it.
fn list_content(
    s: &[u8],
    at: usize,
    wanted: usize,
    coefficients: &mut [i64],
    powers: &mut [i8],
) -> ListStep
    ensures { Code.ContentReads wanted s.now at result (lent coefficients.old powers.old) (lent coefficients.new powers.new) }
{
    let mut list = process_list::empty();
    let mut so_far = no_progress();
    let mut i = at;
    // A `loop`, since a turn goes on behind a child, wherever it ends.
    loop {
        match markup::next_tag(s, i) {
            Ok(NextTag::Start(a, e)) => {
                match list_child(s, a, e, so_far, coefficients, powers) {
                    Ok(read) => {
                        let k = list.count;
                        so_far = behind_child(so_far, read.child, k, wanted, a);
                        i = read.end;
                        if let FoundChild::Node(node) = read.child {
                            if k < 32 {
                                list.nodes[k] = node;
                                list.count = k + 1;
                            }
                        }
                    }
                    Err(stop) => return ended(Err(stop), list, so_far),
                }
            }
            Ok(NextTag::End(a)) => {
                return ended(markup::end_tag(s, a, b"ProcessList", 0), list, so_far);
            }
            Err(halt) => return ended(Err(halt.stop), list, so_far),
        }
    }
}

// ProcessList behind its name.
fn root(s: &[u8], at: usize, wanted: usize, coefficients: &mut [i64], powers: &mut [i8]) -> ListStep
    ensures { Code.ItemsRead wanted Code.root_p (whole_behind ((start_tag List.list_rules).run (drop at s.now)))
        (behind_head s.now ((start_tag List.list_rules).run (drop at s.now))) s.now at result (lent coefficients.old powers.old)
        (lent coefficients.new powers.new) }
{
    match tags::start_tag(s, at, TagKind::ProcessList) {
        Ok(tag) => {
            match tag.end {
                TagEnd::Open(q) => list_content(s, q, wanted, coefficients, powers),
                TagEnd::Empty(q) => step_of(Ok(q), no_list()),
            }
        }
        Err(stop) => step_of(Err(stop), no_list()),
    }
}

// The text of a file, before the rest of the room is cleared.
fn text_list(s: &[u8], wanted: usize, coefficients: &mut [i64], powers: &mut [i8]) -> ListStep
    ensures { Code.TextReads wanted s.now result (lent coefficients.old powers.old) (lent coefficients.new powers.new) }
{
    match around_root::to_root(s) {
        Ok(e) => {
            let mut step = root(s, e, wanted, coefficients, powers);
            if let Ok(q) = step.scan {
                step.scan = around_root::epilogue(s, q);
            }
            step
        }
        Err(stop) => step_of(Err(stop), no_list()),
    }
}

// The text of a file: how it reads, and what the list is; at a fault, the nodes that stand whole before it. Their numbers stand in the
// room, as many as it holds and a list may have, and the rest of the room is zero. `wanted` is the number of a node, from 1.
pub fn file_list(s: &[u8], wanted: usize, coefficients: &mut [i64], powers: &mut [i8]) -> ListStep
    ensures { Code.ListReads wanted s.now result (lent coefficients.old powers.old) (lent coefficients.new powers.new) }
{
    let step = text_list(s, wanted, coefficients, powers);
    let room = room::length(coefficients, powers);
    room::clear(
        coefficients,
        powers,
        process_list::limit(step.state.used),
        room,
    );
    step
}

#![tactic(auto)]

// Where the Description of a node stands in a file: the first child inside the node, if it is one.
ghost use Rattle.std.specs.Prelude.{◌≡◌, ◌≤◌, true, length, drop};
ghost use Rattle.tags.specs.Code.{part_in};
ghost use Rattle.clf.specs.Description as Description;
ghost use Rattle.describing.specs.Code.{no_place, IsPlace, IsFound, behind_tag};

use markup::NextTag;
use tags::TagEnd;

// A part of a file: the place of its first byte, and how many bytes it has.
#[derive(Clone, Copy, Debug, PartialEq, Eq)]
pub struct Part {
    pub start: usize,
    pub length: usize,
}

// The empty part at the file's beginning, where there is none.
pub fn no_part() -> Part
    ensures { result ≡ no_place }
{
    Part {
        start: 0,
        length: 0,
    }
}

// The text that begins at `at`, up to the `<` behind it.
fn text_at(file: &[u8], at: usize) -> Part
    requires { at ≤ length file.now }
    ensures { IsPlace file.now (Description.found_part file.now true (drop at file.now)) result }
{
    let end = xml::text_to(file, at, b'<').unwrap_or(at);
    Part {
        start: at,
        length: end - at,
    }
}

// A child whose name stands from a to e: the text of a Description.
fn child_text(file: &[u8], a: usize, e: usize) -> Option<Part>
    ensures { IsFound file.now (Description.text_part file.now ((Description.description_tag (part_in file.now a e)).run (drop e file.now))) result }
{
    if !xml::same(tags::part(file, a, e), b"Description") {
        return None;
    }
    match tags::plain_tag(file, e).ok()? {
        TagEnd::Open(q) => Some(text_at(file, q)),
        TagEnd::Empty(_) => None,
    }
}

// Behind a node's start tag: the text of its first child, which stands behind white space and comments alone.
fn first_text(file: &[u8], at: usize) -> Option<Part>
    ensures { IsFound file.now (Description.text_part file.now (behind_tag (drop at file.now))) result }
{
    match markup::next_tag(file, at).ok()? {
        NextTag::Start(a, e) => child_text(file, a + 1, e),
        NextTag::End(_) => None,
    }
}

// The text of the first Description of the node whose `<` stands at `at`, if it has one.
fn node_text(file: &[u8], at: usize) -> Option<Part>
    ensures { IsFound file.now (Description.part_from at file.now) result }
{
    let e = xml::open_name(file, at).ok()?;
    match tags::plain_tag(file, e).ok()? {
        TagEnd::Open(q) => first_text(file, q),
        TagEnd::Empty(_) => None,
    }
}

// The text of the first Description of the node whose `<` stands at `at`.
pub fn text_part(file: &[u8], at: usize) -> Part
    ensures { IsPlace file.now (Description.part_from at file.now) result }
{
    node_text(file, at).unwrap_or(no_part())
}

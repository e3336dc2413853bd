#![tactic(auto)]

// Text-only elements and Info: what is passed over.
ghost use Rattle.std.specs.Prelude.{◌<◌, length};
ghost use Rattle.xml.specs.Elements as Elements;
ghost use Rattle.xml.specs.Code.{Reads, no_value};
ghost use Rattle.info.specs.Code.{PieceIs};

use tags::TagEnd;
use xml::{Scan, Stop};

// What stands inside Info, by its first bytes: text, an `&` form or a comment, passed up to a place; an end tag; or a child.
#[derive(Clone, Copy, Debug, PartialEq, Eq)]
enum Piece {
    Passed(usize),
    End,
    Child,
}

// The content of a text-only element of the name w, and its end tag.
fn text_content(s: &[u8], at: usize, w: &[u8]) -> Scan
    ensures { Reads 1 (Elements.text_content w.now).run no_value s.now at result }
{
    let e = xml::text_to(s, at, b'<')?;
    markup::only_end(s, e, w, 0)
}

// A text-only element of the name w, behind its name: it is passed over.
pub fn text_element(s: &[u8], at: usize, w: &[u8]) -> Scan
    ensures { Reads 1 (Elements.text_element w.now).run no_value s.now at result }
{
    match tags::plain_tag(s, at)? {
        TagEnd::Open(q) => text_content(s, q, w),
        TagEnd::Empty(q) => Ok(q),
    }
}

// What stands at a place inside Info.
fn piece_at(s: &[u8], at: usize) -> Result<Piece, Stop>
    requires { at < length s.now }
    ensures { PieceIs s.now at result }
{
    let b = s[at];
    let next = at + 1;
    if b == b'&' {
        return xml::entity(s, at).map(Piece::Passed);
    }
    if b != b'<' {
        return Ok(Piece::Passed(next));
    }
    if s.len() <= next {
        return Err(Stop::Cut);
    }
    match s[next] {
        b'/' => Ok(Piece::End),
        b'!' => xml::comment(s, at).map(Piece::Passed),
        b'?' => Err(Stop::Fault(refusals::FORM_NOT_CARRIED, at)),
        _ => Ok(Piece::Child),
    }
}

// An element inside Info, below which `left` levels may nest.
#[cycle(content_element)]
fn element(s: &[u8], at: usize, left: usize) -> Scan
    ensures { Reads 1 (Elements.info_element left).run no_value s.now at result }
{
    let e = xml::open_name(s, at)?;
    if left == 0 {
        return Err(Stop::Fault(refusals::FORM_NOT_CARRIED, at));
    }
    match tags::plain_tag(s, e)? {
        TagEnd::Open(q) => content(s, q, tags::part(s, at + 1, e), left - 1),
        TagEnd::Empty(q) => Ok(q),
    }
}

// The content of an element of the name w, below which `left` levels may nest, and its end tag. The place jumps behind a piece, so no `for` counts it.
#[cycle(content_element)]
fn content(s: &[u8], at: usize, w: &[u8], left: usize) -> Scan
    ensures { Reads 1 (Elements.info_content (Elements.info_element left) w.now).run no_value s.now at result }
{
    let mut i = at;
    while i < s.len() {
        match piece_at(s, i)? {
            Piece::Passed(q) => i = q,
            Piece::End => return markup::end_tag(s, i, w, 0),
            Piece::Child => i = element(s, i, left)?,
        }
    }
    Err(Stop::Cut)
}

// Info, behind its name.
pub fn info(s: &[u8], at: usize) -> Scan
    ensures { Reads 1 (Elements.info).run no_value s.now at result }
{
    match tags::plain_tag(s, at)? {
        TagEnd::Open(q) => content(s, q, b"Info", 16),
        TagEnd::Empty(q) => Ok(q),
    }
}

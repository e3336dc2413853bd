#![tactic(auto)]

// Tags and what stands between them: end tags, what begins between elements, and what may not stand behind text or numbers.
ghost use Rattle.std.specs.Prelude.{◌≡◌, ◌+◌, ◌<◌, length};
ghost use Rattle.xml.specs.Xml as Xml;
ghost use Rattle.xml.specs.Elements as Elements;
ghost use Rattle.xml.specs.Code.{Reads, no_value};
ghost use Rattle.markup.specs.Settled.{settled_scan, spaces_byte, end_alone};
ghost use Rattle.markup.specs.Items.{ItemReads, ItemReadsBy, item_by_two};
ghost use Rattle.markup.specs.Next.{NextReads};

use xml::{Scan, Stop};

// What stands between elements: white space or a comment up to a place; a start tag, whose name ends at a place; an end tag.
#[derive(Clone, Copy, Debug, PartialEq, Eq)]
pub enum Item {
    Misc(usize),
    StartTag(usize),
    EndTag,
}

// The next tag behind white space and comments: a start tag, by its `<` and its name's end; an end tag, by its `<`.
#[derive(Clone, Copy, Debug, PartialEq, Eq)]
pub enum NextTag {
    Start(usize, usize),
    End(usize),
}

// What stops a search for the next tag: where it begins, and why.
#[derive(Clone, Copy, Debug, PartialEq, Eq)]
pub struct Halt {
    pub at: usize,
    pub stop: Stop,
}

// A function that reads on behind a search answers why it stopped, and the place is in that.
impl From<Halt> for Stop {
    ghost from_gives = { λ h stop. stop ≡ h.stop };

    fn from(halt: Halt) -> Stop {
        halt.stop
    }
}

// The answer r for what stands at `at`, where the fault v is known already; 0 is no fault, since `end_tag` takes any `missing`, 0 for none.
fn settled(v: u8, r: Scan, at: usize) -> Scan
    ensures { result ≡ settled_scan v r at }
{
    if v == 0 {
        return r;
    }
    match r {
        Ok(_) => Err(Stop::Fault(v, at)),
        Err(Stop::Fault(k, p)) if p == at => Err(Stop::Fault(v.min(k), at)),
        Err(Stop::Fault(_, _)) => Err(Stop::Fault(v, at)),
        Err(Stop::Cut) => Err(Stop::Cut),
    }
}

// White space, and the byte c or 2.
fn spaces_byte(s: &[u8], at: usize, c: u8) -> Scan
    ensures { Reads 1 (spaces_byte c).run no_value s.now at result }
{
    let e = xml::spaces(s, at)?;
    xml::byte(s, e, c, refusals::NOT_WELL_FORMED)
}

// An end tag of the name w, whatever is missing before it.
fn end_tag_alone(s: &[u8], at: usize, w: &[u8]) -> Scan
    ensures { Reads 1 (end_alone w.now).run no_value s.now at result }
{
    let e = xml::close_name(s, at)?;
    if xml::same(&s[at + 2..e], w) {
        return spaces_byte(s, e, b'>');
    }
    Err(Stop::Fault(refusals::NOT_WELL_FORMED, at))
}

// The end tag of an element of the name w; `missing` is the fault of what lacks before it.
pub fn end_tag(s: &[u8], at: usize, w: &[u8], missing: u8) -> Scan
    ensures { Reads 1 (Xml.end_tag w.now missing).run no_value s.now at result }
{
    settled(missing, end_tag_alone(s, at, w), at)
}

// An end tag where no element is open.
pub fn stray_end(s: &[u8], at: usize) -> Scan
    ensures { Reads 1 (Xml.stray_end).run no_value s.now at result }
{
    xml::close_name(s, at)?;
    Err(Stop::Fault(refusals::NOT_WELL_FORMED, at))
}

// What a `<` begins between elements.
fn markup_item(s: &[u8], at: usize) -> Result<Item, Stop>
    requires { at < length s.now }
    ensures { ItemReadsBy item_by_two s.now at result }
{
    let next = at + 1;
    if s.len() <= next {
        return Err(Stop::Cut);
    }
    let b = s[next];
    if b == b'/' {
        return Ok(Item::EndTag);
    }
    if b == b'!' {
        return xml::comment(s, at).map(Item::Misc);
    }
    if b == b'?' {
        return Err(Stop::Fault(refusals::FORM_NOT_CARRIED, at));
    }
    xml::open_name(s, at).map(Item::StartTag)
}

// What stands between elements.
fn item_at(s: &[u8], at: usize) -> Result<Item, Stop>
    ensures { ItemReads s.now at result }
{
    if s.len() <= at {
        return Err(Stop::Cut);
    }
    let b = s[at];
    if xml::is_space(b) {
        return Ok(Item::Misc(at + 1));
    }
    if b == b'<' {
        return markup_item(s, at);
    }
    if b == b'&' {
        return settled(refusals::WRONG_ELEMENT, xml::entity(s, at), at).map(Item::Misc);
    }
    Err(Stop::Fault(refusals::WRONG_ELEMENT, at))
}

// The next tag behind white space and comments.
pub fn next_tag(s: &[u8], at: usize) -> Result<NextTag, Halt>
    ensures { NextReads s.now at result }
{
    let mut i = at;
    // The place goes on behind each item, so no `for` counts it.
    loop {
        match item_at(s, i) {
            Ok(Item::Misc(e)) => i = e,
            Ok(Item::StartTag(e)) => return Ok(NextTag::Start(i, e)),
            Ok(Item::EndTag) => return Ok(NextTag::End(i)),
            Err(stop) => return Err(Halt { at: i, stop }),
        }
    }
}

// What a `<` begins where no element may stand, and no end tag stands: a fault, or cut short. The next byte is b.
fn forbidden(s: &[u8], at: usize, b: u8) -> Scan
    requires { at < length s.now }
    ensures { Reads 1 (Elements.forbidden b).run no_value s.now at result }
{
    if b == b'!' {
        return settled(refusals::FORM_NOT_CARRIED, xml::comment(s, at), at);
    }
    if b == b'?' {
        return Err(Stop::Fault(refusals::FORM_NOT_CARRIED, at));
    }
    xml::open_name(s, at)?;
    Err(Stop::Fault(refusals::WRONG_ELEMENT, at))
}

// At a `<` behind text or numbers: the end tag of w, or what may not stand there.
pub fn only_end(s: &[u8], at: usize, w: &[u8], missing: u8) -> Scan
    ensures { Reads 1 (Elements.only_end w.now missing).run no_value s.now at result }
{
    if s.len() <= at {
        return Err(Stop::Cut);
    }
    let next = at + 1;
    if s.len() <= next {
        return Err(Stop::Cut);
    }
    let b = s[next];
    if b == b'/' {
        return end_tag(s, at, w, missing);
    }
    forbidden(s, at, b)
}

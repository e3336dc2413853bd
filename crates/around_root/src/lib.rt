#![tactic(auto)]

// What may stand around ProcessList: the declaration, white space and comments before the root and behind it.
ghost use Rattle.std.specs.Prelude.{◌≡◌, ◌<◌, length};
ghost use Rattle.xml.specs.Code.{Reads, ReadsFrom, no_value};
ghost use Rattle.clf.specs.List as List;
ghost use Rattle.around_root.specs.Code.{root_scan, before_root};

use markup::NextTag;
use xml::{Scan, Stop};

// A start tag before the root: the root's own, or another.
#[tactic(auto, unfolding(crate::specs::Code::root_scan))]
fn root_name(s: &[u8], at: usize, e: usize) -> Scan
    requires { at < length s.now }
    ensures { result ≡ root_scan s.now at e }
{
    if xml::same(tags::part(s, at + 1, e), b"ProcessList") {
        return Ok(e);
    }
    Err(Stop::Fault(refusals::WRONG_ELEMENT, at))
}

// What stands before the root, to the end of its name.
fn prologue(s: &[u8], at: usize) -> Scan
    ensures { Reads 1 (List.prologue).run no_value s.now at result }
{
    match markup::next_tag(s, at)? {
        NextTag::Start(a, e) => root_name(s, a, e),
        NextTag::End(a) => markup::stray_end(s, a),
    }
}

// What stands behind the root, to the end.
pub fn epilogue(s: &[u8], at: usize) -> Scan
    ensures { ReadsFrom 0 List.tail no_value s.now at result }
{
    match markup::next_tag(s, at) {
        Ok(NextTag::Start(a, _)) => Err(Stop::Fault(refusals::WRONG_ELEMENT, a)),
        Ok(NextTag::End(a)) => markup::stray_end(s, a),
        Err(halt) => {
            if s.len() <= halt.at {
                return Ok(halt.at);
            }
            Err(halt.stop)
        }
    }
}

// The declaration, and all up to the end of the root's name.
pub fn to_root(s: &[u8]) -> Scan
    ensures { Reads 1 before_root no_value s.now 0 result }
{
    let declaration = xml::word(
        s,
        0,
        b"<?xml version=\"1.0\" encoding=\"UTF-8\"?>",
        refusals::FORM_NOT_CARRIED,
    );
    let e = xml::blamed(declaration, 0)?;
    prologue(s, e)
}

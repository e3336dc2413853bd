#![tactic(auto)]

// XML as document 01 carries it: names, `&` forms, texts, comments. Each function reads a slice from a place on and answers
// what the grammar of its name in specs/ finds there: the next place, a fault with its number and place, or that the bytes end.

ghost use Rattle.std.specs.Prelude.{◌≡◌, Bool, ℕ, [], ◌+◌, ◌≤◌, ◌<◌, length, get_or};
ghost use Rattle.grammar.specs.Parse.{span_p, loop_p};
ghost use Rattle.xml.specs.Bytes as Bytes;
ghost use Rattle.xml.specs.Xml as Xml;
ghost use Rattle.xml.specs.Code.{Reads, ReadsFrom, NameOr, part, no_value, blamed_scan, entity_found, comment_found};
ghost use Rattle.xml.specs.Among.{among};

// Why there is no next place: a fault with its number and place, or the bytes end.
#[derive(Clone, Copy, Debug, PartialEq, Eq)]
pub enum Stop {
    Fault(u8, usize),
    Cut,
}

// The next place, or why there is none.
pub type Scan = Result<usize, Stop>;

#[tactic(auto, unfolding(crate::specs::Bytes::is_space))]
pub fn is_space(b: u8) -> bool
    ensures { result ≡ Bytes.is_space b }
{
    matches!(b, b' ' | b'\n' | b'\t' | b'\r')
}

#[tactic(auto, unfolding(crate::specs::Bytes::is_letter))]
pub fn is_letter(b: u8) -> bool
    ensures { result ≡ Bytes.is_letter b }
{
    b.is_ascii_alphabetic()
}

#[tactic(auto, unfolding(crate::specs::Bytes::is_digit))]
pub fn is_digit(b: u8) -> bool
    ensures { result ≡ Bytes.is_digit b }
{
    b.is_ascii_digit()
}

#[tactic(auto, unfolding(crate::specs::Bytes::is_name_byte))]
pub fn is_name_byte(b: u8) -> bool
    ensures { result ≡ Bytes.is_name_byte b }
{
    is_letter(b) || is_digit(b) || matches!(b, b'_' | b':' | b'-' | b'.')
}

#[tactic(auto, unfolding(crate::specs::Bytes::is_quote))]
pub fn is_quote(b: u8) -> bool
    ensures { result ≡ Bytes.is_quote b }
{
    matches!(b, b'"' | b'\'')
}

// Whether two texts are the same.
pub fn same(a: &[u8], b: &[u8]) -> bool
    ensures { result ≡ Bytes.same a.now b.now }
{
    a == b
}

// The byte c, or the fault k; 0 is no fault, and any byte passes.
pub fn byte(s: &[u8], at: usize, c: u8, k: u8) -> Scan
    ensures { Reads 1 (Xml.byte c k).run (λ e. get_or s.now at 0) s.now at result }
{
    if s.len() <= at {
        return Err(Stop::Cut);
    }
    if s[at] == c {
        return Ok(at + 1);
    }
    if k == 0 {
        return Ok(at + 1);
    }
    Err(Stop::Fault(k, at))
}

// The bytes of w, or the fault k at the first that differs; 0 is no fault, and as many bytes pass.
pub fn word(s: &[u8], at: usize, w: &[u8], k: u8) -> Scan
    ensures { ReadsFrom (length w.now) (Xml.word w.now k).run no_value s.now at result }
{
    let mut i = at;
    for b in w {
        i = byte(s, i, *b, k)?;
    }
    Ok(i)
}

// The bytes that pass, up to the first that does not.
fn span<P: Fn(u8) -> bool>(s: &[u8], at: usize, passes: P) -> Scan
    requires { P.IsAlwaysCallable passes }
    ensures { (test : ℕ → Bool) → ((b : ℕ) (r : Bool) → b < 256 → P.post passes b r → r ≡ test b) → Reads 0 (span_p test) (part s.now at) s.now at result }
{
    for i in at..s.len() {
        if !passes(s[i]) {
            return Ok(i);
        }
    }
    Err(Stop::Cut)
}

// White space, if any.
pub fn spaces(s: &[u8], at: usize) -> Scan
    ensures { Reads 0 (Xml.spaces).run (part s.now at) s.now at result }
{
    span(s, at, is_space)
}

// The bytes of a name behind its first.
fn name_bytes(s: &[u8], at: usize) -> Scan
    ensures { Reads 0 (span_p Bytes.is_name_byte) (part s.now at) s.now at result }
{
    span(s, at, is_name_byte)
}

pub fn name(s: &[u8], at: usize) -> Scan
    ensures { Reads 1 (Xml.name).run (part s.now at) s.now at result }
{
    if s.len() <= at {
        return Err(Stop::Cut);
    }
    if is_letter(s[at]) {
        return name_bytes(s, at + 1);
    }
    Err(Stop::Fault(refusals::NOT_WELL_FORMED, at))
}

// The same answer, a fault placed at `at`.
pub fn blamed(r: Scan, at: usize) -> Scan
    ensures { result ≡ blamed_scan r at }
{
    match r {
        Err(Stop::Fault(k, _)) => Err(Stop::Fault(k, at)),
        other => other,
    }
}

// The end of a name at `at`: no byte of a name follows. Where the name goes on, `other`.
fn end_or(s: &[u8], at: usize, other: Scan) -> Scan
    ensures { NameOr s.now at [] other result }
{
    if s.len() <= at {
        return Err(Stop::Cut);
    }
    if is_name_byte(s[at]) {
        return other;
    }
    Ok(at)
}

// The name w at `at`, with no byte of a name behind it; where it does not stand there, `other`.
pub fn name_or(s: &[u8], at: usize, w: &[u8], other: Scan) -> Scan
    ensures { NameOr s.now at w.now other result }
{
    let r = word(s, at, w, 1);
    match r {
        Ok(e) => end_or(s, e, other),
        Err(Stop::Fault(_, _)) => other,
        Err(Stop::Cut) => Err(Stop::Cut),
    }
}

// The name of an `&` form.
fn entity_name(s: &[u8], at: usize) -> Scan
    ensures { at ≤ length s.now → Reads 0 (among [] 3 Xml.entity_names) no_value s.now at result }
{
    let apos = name_or(
        s,
        at,
        b"apos",
        Err(Stop::Fault(refusals::FORM_NOT_CARRIED, at)),
    );
    let quot = name_or(s, at, b"quot", apos);
    let gt = name_or(s, at, b"gt", quot);
    let lt = name_or(s, at, b"lt", gt);
    name_or(s, at, b"amp", lt)
}

// An `&` form, a fault in it placed where it is found.
fn entity_found(s: &[u8], at: usize) -> Scan
    requires { at < length s.now }
    ensures { Reads 1 entity_found no_value s.now at result }
{
    let e = entity_name(s, at + 1)?;
    byte(s, e, b';', refusals::FORM_NOT_CARRIED)
}

// An `&` form.
pub fn entity(s: &[u8], at: usize) -> Scan
    ensures { Reads 1 (Xml.entity).run no_value s.now at result }
{
    if s.len() <= at {
        return Err(Stop::Cut);
    }
    blamed(entity_found(s, at), at)
}

// A comment behind its `<!--`.
fn comment_body(s: &[u8], at: usize) -> Scan
    ensures { Reads 1 (loop_p (λ _. (Xml.comment_part).run) tt) no_value s.now at result }
{
    for i in at..s.len() {
        let j = i + 1;
        if s[i] == b'-' {
            if s.len() <= j {
                return Err(Stop::Cut);
            }
            if s[j] == b'-' {
                return byte(s, j + 1, b'>', refusals::NOT_WELL_FORMED);
            }
        }
    }
    Err(Stop::Cut)
}

// A comment, a fault in it placed where it is found.
fn comment_found(s: &[u8], at: usize) -> Scan
    requires { at < length s.now }
    ensures { Reads 1 comment_found no_value s.now at result }
{
    let e = word(s, at, b"<!--", refusals::FORM_NOT_CARRIED)?;
    comment_body(s, e)
}

pub fn comment(s: &[u8], at: usize) -> Scan
    ensures { Reads 1 (Xml.comment).run no_value s.now at result }
{
    if s.len() <= at {
        return Err(Stop::Cut);
    }
    blamed(comment_found(s, at), at)
}

// A text up to the byte `stop`.
pub fn text_to(s: &[u8], at: usize, stop: u8) -> Scan
    ensures { Reads 0 (Xml.text_to stop).run (λ e. (tt, part s.now at e)) s.now at result }
{
    let mut i = at;
    // Behind an `&` form the place is where that ends, so no `for` counts it.
    while i < s.len() {
        let b = s[i];
        if b == stop {
            return Ok(i);
        }
        if b == b'<' {
            return Err(Stop::Fault(refusals::NOT_WELL_FORMED, i));
        }
        if b == b'&' {
            i = entity(s, i)?;
        } else {
            i += 1;
        }
    }
    Err(Stop::Cut)
}

// `<` and the name behind it.
pub fn open_name(s: &[u8], at: usize) -> Scan
    ensures { Reads 2 (Xml.open_name).run (part s.now (at + 1)) s.now at result }
{
    if s.len() <= at {
        return Err(Stop::Cut);
    }
    name(s, at + 1)
}

// `</` and the name behind it.
pub fn close_name(s: &[u8], at: usize) -> Scan
    ensures { Reads 3 (Xml.close_name).run (part s.now (at + 2)) s.now at result }
{
    if s.len() <= at {
        return Err(Stop::Cut);
    }
    open_name(s, at + 1)
}

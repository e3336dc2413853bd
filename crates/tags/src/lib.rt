#![tactic(auto)]

// Start tags: their attributes, and what a tag asks of them. What is wrong with a name, a text or a tag is told by its number, 0 where nothing is, as the rules in `xml`'s `Rules` tell it that the
// contracts here name.
ghost use Rattle.std.specs.Prelude.{◌≡◌, cond, ◌&&◌, ◌||◌, ◌+◌, ◌-◌, ◌*◌, ◌≤◌, ◌<◌, min, length, drop};
ghost use Rattle.xml.specs.Bytes as Bytes;
ghost use Rattle.xml.specs.Xml as Xml;
ghost use Rattle.xml.specs.Code.{Reads, part};
ghost use Rattle.process_list.specs.declared.Interpolation.{Interpolation};
ghost use Rattle.clf.specs.Nodes as Nodes;
ghost use Rattle.clf.specs.List as List;
ghost use Rattle.ids.specs.Ids.{id_right, most_node_id_bytes};
ghost use Rattle.tags.specs.Rules.{rules_of};
ghost use Rattle.tags.specs.Code as Code;
ghost use Rattle.tags.specs.Ended.{behind_tag, EndsAs, TagRead};

use process_list::{Depth, Interpolation};
use xml::{Scan, Stop};

// The tags, by what they ask.
#[derive(Clone, Copy, Debug, PartialEq, Eq)]
pub enum TagKind {
    // nothing
    Plain,
    // a value element, which may not be empty
    Value,
    // an element that holds elements, which may not be empty
    Holder,
    MatrixArray,
    Lut1dArray,
    // the Array of a LUT3D of this method
    Lut3dArray { interpolation: Interpolation },
    Matrix,
    Lut1d,
    Lut3d,
    Range,
    Cdl,
    ProcessList,
}

// A part of the bytes.
#[derive(Clone, Copy, Debug, PartialEq, Eq)]
pub struct Span {
    pub start: usize,
    pub end: usize,
}

// Where the name and the text of an attribute stand.
#[derive(Clone, Copy, Debug, PartialEq, Eq)]
pub struct AttributePlaces {
    pub name: Span,
    pub text: Span,
}

// The attributes of a tag so far.
#[derive(Clone, Copy, Debug, PartialEq, Eq)]
pub struct Attributes {
    pub count: usize,
    pub held: [AttributePlaces; 16],
}

// How a start tag ends: open or empty, with the next place.
#[derive(Clone, Copy, Debug, PartialEq, Eq)]
pub enum TagEnd {
    Open(usize),
    Empty(usize),
}

#[derive(Clone, Copy, Debug, PartialEq, Eq)]
pub struct StartTag {
    pub end: TagEnd,
    pub attributes: Attributes,
}

// Where a node's depths and its id stand.
#[derive(Clone, Copy, Debug, PartialEq, Eq)]
pub struct NodeTexts {
    pub input: Span,
    pub output: Span,
    pub id: Span,
}

// The digits that a text begins with: their number, counted no further than 65,537, and the place behind them.
#[derive(Clone, Copy, Debug, PartialEq, Eq)]
struct Digits {
    value: usize,
    end: usize,
}

// The shape of a LUT1D's Array by its `dim`.
#[derive(Clone, Copy, Debug, PartialEq, Eq)]
pub struct Shape {
    pub entries: usize,
    pub columns: usize,
}

// The depth that a text says.
pub fn depth_of(text: &[u8]) -> Option<Depth>
    ensures { Code.depth_read result ≡ Nodes.depth_of text.now }
{
    if xml::same(text, b"8i") {
        return Some(Depth::I8);
    }
    if xml::same(text, b"10i") {
        return Some(Depth::I10);
    }
    if xml::same(text, b"12i") {
        return Some(Depth::I12);
    }
    if xml::same(text, b"16i") {
        return Some(Depth::I16);
    }
    if xml::same(text, b"16f") {
        return Some(Depth::F16);
    }
    if xml::same(text, b"32f") {
        return Some(Depth::F32);
    }
    None
}

// The columns that stand behind the entries of a LUT1D's `dim`, 0 where none do.
fn columns_of(text: &[u8]) -> usize
    ensures { result ≡ Nodes.lut_columns text.now }
{
    if xml::same(text, b" 1") {
        return 1;
    }
    if xml::same(text, b" 3") {
        return 3;
    }
    0
}

// One digit more, counted no further than 65,537.
fn with_digit(n: usize, b: u8) -> usize
    ensures { result ≡ min (n * 10 + (b - 48)) 65537 }
{
    if 65536 < n {
        return 65537;
    }
    (n * 10 + usize::from(b.saturating_sub(b'0'))).min(65537)
}

// The digits that a text begins with.
fn digits_of(text: &[u8]) -> Digits
    ensures { Code.DigitsOf text.now result }
{
    let mut value = 0;
    for i in 0..text.len() {
        if !xml::is_digit(text[i]) {
            return Digits { value, end: i };
        }
        value = with_digit(value, text[i]);
    }
    Digits {
        value,
        end: text.len(),
    }
}

fn begins_with_zero(text: &[u8]) -> bool
    ensures { result ≡ Nodes.begins_with_zero text.now }
{
    text.starts_with(b"0")
}

// The shape that a LUT1D's `dim` says.
pub fn shape_of(text: &[u8]) -> Option<Shape>
    ensures { Code.shape_read result ≡ Nodes.lut_shape text.now }
{
    let d = digits_of(text);
    let n = d.value;
    let end = d.end;
    if begins_with_zero(text) {
        return None;
    }
    if n < 2 {
        return None;
    }
    if 65536 < n {
        return None;
    }
    let columns = columns_of(&text[end..]);
    if columns == 0 {
        return None;
    }
    Some(Shape {
        entries: n,
        columns,
    })
}

// Whether the text is "n n n 3".
fn is_cube_dim(text: &[u8], n: usize) -> bool
    requires { n ≤ 33 }
    ensures { result ≡ Bytes.same text.now (Nodes.cube_dim n) }
{
    let last = (48 + n % 10) as u8;
    if n < 10 {
        let short = [last, b' ', last, b' ', last, b' ', b'3'];
        return xml::same(text, &short);
    }
    let first = (48 + n / 10) as u8;
    let long = [
        first, last, b' ', first, last, b' ', first, last, b' ', b'3',
    ];
    xml::same(text, &long)
}

// The entries on each axis that a LUT3D's `dim` says.
pub fn points_of(text: &[u8]) -> Option<usize>
    ensures { Code.PointsOf text.now result }
{
    let d = digits_of(text);
    let n = d.value;
    if n < 2 {
        return None;
    }
    if 33 < n {
        return None;
    }
    if is_cube_dim(text, n) {
        return Some(n);
    }
    None
}

// The fault k unless `ok`; 0 is no fault.
pub fn unless(ok: bool, k: u8) -> u8
    ensures { result ≡ cond ok 0 k }
{
    if ok { 0 } else { k }
}

// Whether the text is one of two words.
fn either(text: &[u8], a: &[u8], b: &[u8]) -> bool
    ensures { result ≡ (Bytes.same text.now a.now || Bytes.same text.now b.now) }
{
    xml::same(text, a) || xml::same(text, b)
}

// The fault of an attribute of the name w unless its text is right; one of another name is not judged here.
fn attribute_fault(name: &[u8], w: &[u8], right: bool) -> u8
    ensures { result ≡ cond (Bytes.same name.now w.now) (cond right 0 8) 0 }
{
    if xml::same(name, w) {
        return unless(right, refusals::WRONG_ATTRIBUTE);
    }
    0
}

// An attribute of a node: a depth, its id, or another one, whose fault is `rest`.
fn node_text_fault(name: &[u8], text: &[u8], rest: u8) -> u8
    ensures { result ≡ Nodes.node_texts (λ w t. rest) name.now text.now }
{
    if either(name, b"inBitDepth", b"outBitDepth") {
        return unless(depth_of(text).is_some(), refusals::WRONG_ATTRIBUTE);
    }
    if xml::same(name, b"id") {
        return unless(
            ids::id_right(text, ids::MOST_ID_BYTES),
            refusals::WRONG_NODE_ID,
        );
    }
    rest
}

fn cdl_text_fault(name: &[u8], text: &[u8]) -> u8
    ensures { result ≡ Nodes.cdl_texts name.now text.now }
{
    if xml::same(name, b"style") {
        if either(text, b"Fwd", b"FwdNoClamp") {
            return 0;
        }
        if either(text, b"Rev", b"RevNoClamp") {
            return refusals::NOT_CARRIED;
        }
        return refusals::WRONG_ATTRIBUTE;
    }
    0
}

fn list_text_fault(name: &[u8], text: &[u8]) -> u8
    ensures { result ≡ List.list_texts name.now text.now }
{
    if xml::same(name, b"id") {
        return unless(!text.is_empty(), refusals::WRONG_ATTRIBUTE);
    }
    if xml::same(name, b"compCLFversion") {
        return unless(xml::same(text, b"3.0"), refusals::WRONG_VERSION);
    }
    0
}

// What is wrong with an attribute's text.
#[tactic(auto, unfolding(crate::specs::Rules::rules_of))]
pub fn text_fault(kind: TagKind, name: &[u8], text: &[u8]) -> u8
    ensures { result ≡ (rules_of kind).texts name.now text.now }
{
    match kind {
        TagKind::Plain | TagKind::Value | TagKind::Holder => 0,
        TagKind::MatrixArray => attribute_fault(name, b"dim", either(text, b"3 3", b"3 4")),
        // An attribute of another name may have a long text, which is not gone over.
        TagKind::Lut1dArray => {
            let right = !xml::same(name, b"dim") || shape_of(text).is_some();
            unless(right, refusals::WRONG_ATTRIBUTE)
        }
        TagKind::Lut3dArray { interpolation: _ } => {
            let right = !xml::same(name, b"dim") || points_of(text).is_some();
            unless(right, refusals::WRONG_ATTRIBUTE)
        }
        TagKind::Matrix => node_text_fault(name, text, 0),
        TagKind::Lut1d => {
            let right = xml::same(text, b"linear");
            node_text_fault(name, text, attribute_fault(name, b"interpolation", right))
        }
        TagKind::Lut3d => {
            let right = either(text, b"trilinear", b"tetrahedral");
            node_text_fault(name, text, attribute_fault(name, b"interpolation", right))
        }
        TagKind::Range => {
            let right = either(text, b"Clamp", b"noClamp");
            node_text_fault(name, text, attribute_fault(name, b"style", right))
        }
        TagKind::Cdl => node_text_fault(name, text, cdl_text_fault(name, text)),
        TagKind::ProcessList => list_text_fault(name, text),
    }
}

fn lut_name_fault(name: &[u8]) -> u8
    ensures { result ≡ Nodes.lut_names name.now }
{
    if either(name, b"halfDomain", b"rawHalfs") {
        return refusals::NOT_CARRIED;
    }
    0
}

// What is wrong with an attribute's name alone.
#[tactic(auto, unfolding(crate::specs::Rules::rules_of))]
pub fn name_rule(kind: TagKind, name: &[u8]) -> u8
    ensures { result ≡ (rules_of kind).names name.now }
{
    match kind {
        TagKind::Lut1d => lut_name_fault(name),
        TagKind::Plain
        | TagKind::Value
        | TagKind::Holder
        | TagKind::MatrixArray
        | TagKind::Lut1dArray
        | TagKind::Lut3dArray { interpolation: _ }
        | TagKind::Matrix
        | TagKind::Lut3d
        | TagKind::Range
        | TagKind::Cdl
        | TagKind::ProcessList => 0,
    }
}

// No attribute yet.
pub fn no_attributes() -> Attributes
    ensures { result ≡ Code.no_attributes }
{
    let nowhere = Span { start: 0, end: 0 };
    Attributes {
        count: 0,
        held: [AttributePlaces {
            name: nowhere,
            text: nowhere,
        }; 16],
    }
}

// The bytes from a to e, none where these are no places of s in order.
pub fn part(s: &[u8], a: usize, e: usize) -> &[u8]
    ensures { result.now ≡ Code.part_in s.now a e }
{
    s.get(a..e).unwrap_or(&[])
}

// Where the text of the first attribute of the name w stands, if there is one. It is lent the attributes, since a copy of all would cost more than the search.
fn text_named(s: &[u8], attributes: &Attributes, w: &[u8]) -> Option<Span>
    ensures { result ≡ Code.text_named s.now attributes.now w.now }
{
    attributes
        .held
        .iter()
        .take(attributes.count)
        .find(|a| xml::same(w, part(s, a.name.start, a.name.end)))
        .map(|a| a.text)
}

fn named(s: &[u8], attributes: &Attributes, w: &[u8]) -> bool
    ensures { result ≡ Xml.is_named w.now (Code.attributes_of s.now attributes.now) }
{
    text_named(s, attributes, w).is_some()
}

fn text_place(s: &[u8], attributes: &Attributes, w: &[u8]) -> Span
    ensures { Code.TextStands s.now attributes.now w.now result }
{
    text_named(s, attributes, w).unwrap_or(Span { start: 0, end: 0 })
}

// Whether there is an attribute of the name w.
pub fn is_named(s: &[u8], attributes: Attributes, w: &[u8]) -> bool
    ensures { result ≡ Xml.is_named w.now (Code.attributes_of s.now attributes) }
{
    named(s, &attributes, w)
}

// Where the text of the first attribute of the name w stands.
pub fn text_of(s: &[u8], attributes: Attributes, w: &[u8]) -> Span
    ensures { Code.TextStands s.now attributes w.now result }
{
    text_place(s, &attributes, w)
}

// Where the texts stand that every node has or may have: its depths and its id.
pub fn node_texts(s: &[u8], attributes: Attributes) -> NodeTexts
    ensures { Code.NodeTextsStand s.now attributes result }
{
    NodeTexts {
        input: text_place(s, &attributes, b"inBitDepth"),
        output: text_place(s, &attributes, b"outBitDepth"),
        id: text_place(s, &attributes, b"id"),
    }
}

// What is wrong with the name w behind the attributes so far.
fn name_fault(s: &[u8], w: &[u8], kind: TagKind, attributes: &Attributes) -> u8
    ensures { result ≡ Xml.name_fault (rules_of kind) (Code.attributes_of s.now attributes.now) w.now }
{
    if named(s, attributes, w) {
        return refusals::NOT_WELL_FORMED;
    }
    if 16 <= attributes.count {
        return refusals::FORM_NOT_CARRIED;
    }
    name_rule(kind, w)
}

// White space and a quote.
fn quote(s: &[u8], at: usize) -> Scan
    ensures { Reads 1 (Code.quote).run (Code.byte_before s.now) s.now at result }
{
    let p = xml::spaces(s, at)?;
    if s.len() <= p {
        return Err(Stop::Cut);
    }
    if xml::is_quote(s[p]) {
        return Ok(p + 1);
    }
    Err(Stop::Fault(refusals::NOT_WELL_FORMED, p))
}

// Behind an attribute's name: `=` and a quote, with white space before each.
fn to_quote(s: &[u8], at: usize) -> Scan
    ensures { Reads 2 (Code.to_quote).run (Code.byte_before s.now) s.now at result }
{
    let a = xml::spaces(s, at)?;
    let e = xml::byte(s, a, b'=', refusals::NOT_WELL_FORMED)?;
    quote(s, e)
}

// An attribute behind its first quote, which stands at `q - 1`; its name stands from `at` to e.
fn attribute_text(
    s: &[u8],
    at: usize,
    e: usize,
    q: usize,
    kind: TagKind,
) -> Result<AttributePlaces, Stop>
    requires { (at < e) × (e < q) × (q ≤ length s.now) × Code.BeginsText s.now e q }
    ensures { Code.AttributeIs s.now at result ((Code.behind_quote (rules_of kind) (part s.now at e) (Code.byte_before s.now q)).run (drop q s.now)) }
{
    let t = xml::text_to(s, q, s[q - 1])?;
    let k = text_fault(kind, part(s, at, e), part(s, q, t));
    if k != 0 {
        return Err(Stop::Fault(k, q));
    }
    if s.len() <= t {
        return Err(Stop::Cut);
    }
    Ok(AttributePlaces {
        name: Span { start: at, end: e },
        text: Span { start: q, end: t },
    })
}

// An attribute whose name stands from `at` to e.
fn attribute_named(
    s: &[u8],
    at: usize,
    e: usize,
    kind: TagKind,
    attributes: &Attributes,
) -> Result<AttributePlaces, Stop>
    requires { (at < e) × (e ≤ length s.now) }
    ensures { Code.AttributeIs s.now at result (Code.named (rules_of kind) (Code.attributes_of s.now attributes.now) (part s.now at e) (drop e s.now)
        (drop at s.now)) }
{
    let k = name_fault(s, part(s, at, e), kind, attributes);
    if k != 0 {
        return Err(Stop::Fault(k, at));
    }
    let q = to_quote(s, e)?;
    attribute_text(s, at, e, q, kind)
}

// The attribute at `at`, behind those so far.
pub fn attribute(
    s: &[u8],
    at: usize,
    kind: TagKind,
    attributes: Attributes,
) -> Result<AttributePlaces, Stop>
    ensures { (Code.attribute_out s.now at result ≡ (Xml.attribute (rules_of kind) (Code.attributes_of s.now attributes)).run (drop at s.now))
        × Code.AttributeInside s.now at result }
{
    let e = xml::name(s, at)?;
    attribute_named(s, at, e, kind, &attributes)
}

// The fault 8 unless there are attributes of both names.
fn missing(s: &[u8], attributes: &Attributes, a: &[u8], b: &[u8]) -> u8
    ensures { result ≡ cond (Xml.is_named a.now (Code.attributes_of s.now attributes.now) && Xml.is_named b.now (Code.attributes_of s.now attributes.now)) 0 8 }
{
    unless(
        named(s, attributes, a) && named(s, attributes, b),
        refusals::WRONG_ATTRIBUTE,
    )
}

fn node_missing(s: &[u8], attributes: &Attributes) -> u8
    ensures { result ≡ Nodes.node_missing (Code.attributes_of s.now attributes.now) }
{
    missing(s, attributes, b"inBitDepth", b"outBitDepth")
}

fn list_missing(s: &[u8], attributes: &Attributes) -> u8
    ensures { result ≡ List.list_missing (Code.attributes_of s.now attributes.now) }
{
    missing(s, attributes, b"id", b"compCLFversion")
}

fn dim_missing(s: &[u8], attributes: &Attributes, there: u8) -> u8
    ensures { result ≡ cond (Xml.is_named (Bytes.bytes "dim") (Code.attributes_of s.now attributes.now)) there 8 }
{
    if named(s, attributes, b"dim") {
        return there;
    }
    refusals::WRONG_ATTRIBUTE
}

// What is missing at `>`.
#[tactic(auto, unfolding(crate::specs::Rules::rules_of))]
fn opened(s: &[u8], kind: TagKind, attributes: &Attributes) -> u8
    ensures { result ≡ (rules_of kind).opened (Code.attributes_of s.now attributes.now) }
{
    match kind {
        TagKind::Plain | TagKind::Value | TagKind::Holder => 0,
        TagKind::MatrixArray | TagKind::Lut1dArray | TagKind::Lut3dArray { interpolation: _ } => {
            dim_missing(s, attributes, 0)
        }
        TagKind::Matrix | TagKind::Lut1d | TagKind::Lut3d | TagKind::Range | TagKind::Cdl => {
            node_missing(s, attributes)
        }
        TagKind::ProcessList => list_missing(s, attributes),
    }
}

// What is missing at `/>`.
#[tactic(auto, unfolding(crate::specs::Rules::rules_of))]
fn emptied(s: &[u8], kind: TagKind, attributes: &Attributes) -> u8
    ensures { result ≡ (rules_of kind).emptied (Code.attributes_of s.now attributes.now) }
{
    match kind {
        TagKind::Plain => 0,
        TagKind::Value => refusals::WRONG_COUNT,
        TagKind::MatrixArray | TagKind::Lut1dArray | TagKind::Lut3dArray { interpolation: _ } => {
            dim_missing(s, attributes, refusals::WRONG_COUNT)
        }
        TagKind::Holder | TagKind::Matrix | TagKind::Lut1d | TagKind::Lut3d | TagKind::Range => {
            refusals::WRONG_ELEMENT
        }
        TagKind::Cdl => node_missing(s, attributes),
        TagKind::ProcessList => list_missing(s, attributes),
    }
}

// A tag's `>`.
fn open_end(s: &[u8], at: usize, kind: TagKind, attributes: &Attributes) -> Result<TagEnd, Stop>
    requires { at < length s.now }
    ensures { Code.EndIs s.now attributes.now at result ((Code.open_end (rules_of kind) (Code.attributes_of s.now attributes.now)).run (drop at s.now)) }
{
    let k = opened(s, kind, attributes);
    if k != 0 {
        return Err(Stop::Fault(k, at));
    }
    Ok(TagEnd::Open(at + 1))
}

// A tag's `/>`, whose `/` stands at `at`.
fn empty_end(s: &[u8], at: usize, kind: TagKind, attributes: &Attributes) -> Result<TagEnd, Stop>
    requires { at < length s.now }
    ensures { Code.EndIs s.now attributes.now at result ((Code.empty_end (rules_of kind) (Code.attributes_of s.now attributes.now)).run (drop at s.now)) }
{
    let e = xml::word(s, at, b"/>", refusals::NOT_WELL_FORMED)?;
    let k = emptied(s, kind, attributes);
    if k != 0 {
        return Err(Stop::Fault(k, at));
    }
    Ok(TagEnd::Empty(e))
}

// A start tag behind its name.
pub fn start_tag(s: &[u8], at: usize, kind: TagKind) -> Result<StartTag, Stop>
    ensures { TagRead kind s.now at result }
{
    let mut attributes = no_attributes();
    let mut spaced = false;
    let mut i = at;
    // Behind an attribute the place is where that ends, so no `for` counts it.
    while i < s.len() {
        let b = s[i];
        if xml::is_space(b) {
            spaced = true;
            i += 1;
        } else if b == b'>' {
            let end = open_end(s, i, kind, &attributes)?;
            return Ok(StartTag { end, attributes });
        } else if b == b'/' {
            let end = empty_end(s, i, kind, &attributes)?;
            return Ok(StartTag { end, attributes });
        } else if spaced {
            let a = attribute(s, i, kind, attributes)?;
            let n = attributes.count;
            if n < 16 {
                attributes.held[n] = a;
                attributes.count = n + 1;
            }
            spaced = false;
            i = a.text.end + 1;
        } else {
            return Err(Stop::Fault(refusals::NOT_WELL_FORMED, i));
        }
    }
    Err(Stop::Cut)
}

// How a start tag that asks nothing of its attributes ends. Most such tags have none, and need no list of them.
pub fn plain_tag(s: &[u8], at: usize) -> Result<TagEnd, Stop>
    ensures { EndsAs Xml.plain s.now at result }
{
    if at < s.len() && s[at] == b'>' {
        return Ok(TagEnd::Open(at + 1));
    }
    let tag = start_tag(s, at, TagKind::Plain)?;
    Ok(tag.end)
}

impl TagEnd {
    // The place behind a start tag, open or empty.
    pub fn behind(self) -> usize
        ensures { result ≡ behind_tag self }
    {
        match self {
            TagEnd::Open(q) => q,
            TagEnd::Empty(q) => q,
        }
    }
}

#![tactic(auto)]

// The numbers of value elements and Arrays, stored in the table room as they are read.
ghost use Rattle.std.specs.Prelude.{◌≡◌, cond, Ok, [], ◌∷◌, ◌+◌, leb, ltb};
ghost use Rattle.decimal_value.specs.Value.{is_one};
ghost use Rattle.room.specs.Room.{lent, cleared_from};
ghost use Rattle.clf.specs.Numbers as Numbers;
ghost use Rattle.values.specs.Code.{rule_of, judged_as, TokenBytes, TokenReads, Laid, NumbersStored, NumbersRead};

use decimal::{Decimal, NumberFault};
use tags::TagKind;
use xml::{Scan, Stop};

// The rule on each number of an element.
#[derive(Clone, Copy, Debug, PartialEq, Eq)]
pub enum Rule {
    Any,
    NotNegative,
    One,
}

// A token: the number that it says, and its end.
#[derive(Clone, Copy, Debug, PartialEq, Eq)]
struct TokenRead {
    number: Decimal,
    end: usize,
}

// Whether a byte ends a token.
fn ends_token(b: u8) -> bool
    ensures { result ≡ Numbers.ends_token b }
{
    xml::is_space(b) || b == b'<'
}

// The bytes of a token. The place jumps behind an `&` form, so no `for` counts it.
fn token(s: &[u8], at: usize) -> Scan
    ensures { TokenBytes s.now at result }
{
    let mut i = at;
    while i < s.len() {
        let b = s[i];
        if ends_token(b) {
            return Ok(i);
        }
        if b == b'&' {
            i = xml::entity(s, i)?;
        } else {
            i += 1;
        }
    }
    Err(Stop::Cut)
}

// A fault is its number here, and 0 is none: so the definitions have it that the contracts cite (`fault_of` and the rules of `clf/Numbers`).

// 'a Power above 0 that is not 1'
fn not_one(d: Decimal) -> u8
    ensures { result ≡ cond (is_one d) 0 7 }
{
    if decimal_value::is_one(d) {
        return 0;
    }
    refusals::NOT_CARRIED
}

// What the rule says of a number.
#[tactic(auto, unfolding(crate::specs::Code::rule_of))]
fn rule_fault(rule: Rule, d: Decimal) -> u8
    ensures { result ≡ rule_of rule d }
{
    match rule {
        Rule::Any => 0,
        Rule::NotNegative => {
            if decimal_value::not_negative(d) {
                return 0;
            }
            refusals::RULE_BROKEN
        }
        Rule::One => {
            if decimal_value::positive(d) {
                return not_one(d);
            }
            refusals::RULE_BROKEN
        }
    }
}

// The number d of the token from `at` to e, after `count` numbers of n.
fn judged(
    d: Decimal,
    at: usize,
    e: usize,
    n: usize,
    rule: Rule,
    count: usize,
) -> Result<TokenRead, Stop>
    ensures { result ≡ judged_as (Numbers.fault_of n (rule_of rule) count (Ok d)) d at e }
{
    if n <= count {
        return Err(Stop::Fault(refusals::WRONG_COUNT, at));
    }
    let k = rule_fault(rule, d);
    if k != 0 {
        return Err(Stop::Fault(k, at));
    }
    Ok(TokenRead { number: d, end: e })
}

// The fault of a token of the right form that is out of bounds, after `count` numbers of n.
fn beyond_bounds(n: usize, count: usize) -> u8
    ensures { result ≡ cond (leb n count) 22 25 }
{
    if count < n {
        return refusals::OUT_OF_BOUNDS;
    }
    refusals::WRONG_COUNT
}

// The token at `at`, after `count` numbers of n.
fn token_read(s: &[u8], at: usize, n: usize, rule: Rule, count: usize) -> Result<TokenRead, Stop>
    ensures { TokenReads n (rule_of rule) count s.now at result }
{
    let e = token(s, at)?;
    match decimal_read::number(&s[at..e]) {
        Ok(d) => judged(d, at, e, n, rule, count),
        Err(NumberFault::Malformed) => Err(Stop::Fault(refusals::NO_NUMBER, at)),
        Err(NumberFault::OutOfBounds) => Err(Stop::Fault(beyond_bounds(n, count), at)),
    }
}

// The fault of `count` numbers where n are asked for.
fn too_few(count: usize, n: usize) -> u8
    ensures { result ≡ cond (ltb count n) 22 0 }
{
    if count < n {
        return refusals::WRONG_COUNT;
    }
    0
}

// Stores number j of those that begin at `base`, if that is in the room.
pub fn store(coefficients: &mut [i64], powers: &mut [i8], base: usize, j: usize, d: Decimal)
    ensures { Laid (base + j) (d ∷ []) (lent coefficients.old powers.old) (lent coefficients.new powers.new) }
{
    if j < coefficients.len().saturating_sub(base) {
        room::store(coefficients, powers, base + j, d);
    }
}

// The n numbers of an element of the name w, each kept to the rule, and its end tag. They are stored from `base` on as they are read. The place jumps behind a token, so no
// `for` counts it.
fn stored_numbers(
    s: &[u8],
    at: usize,
    w: &[u8],
    n: usize,
    rule: Rule,
    coefficients: &mut [i64],
    powers: &mut [i8],
    base: usize,
) -> Scan
    ensures { NumbersStored n (Numbers.numbers w.now n (rule_of rule)).run s.now at base result (lent coefficients.old powers.old)
        (lent coefficients.new powers.new) }
{
    let mut i = at;
    let mut count: usize = 0;
    while i < s.len() {
        let b = s[i];
        if xml::is_space(b) {
            i += 1;
        } else if b == b'<' {
            return markup::only_end(s, i, w, too_few(count, n));
        } else {
            let t = token_read(s, i, n, rule, count)?;
            store(coefficients, powers, base, count, t.number);
            count += 1;
            i = t.end;
        }
    }
    Err(Stop::Cut)
}

// Zeroes the room from `base` on.
pub fn clear_from(coefficients: &mut [i64], powers: &mut [i8], base: usize)
    ensures { lent coefficients.new powers.new ≡ cleared_from base (lent coefficients.old powers.old) }
{
    let length = room::length(coefficients, powers);
    room::clear(coefficients, powers, base, length);
}

// The n numbers of an element of the name w, each kept to the rule, and its end tag. They stand from `base` on; at a fault the room is zero from there on.
pub fn numbers(
    s: &[u8],
    at: usize,
    w: &[u8],
    n: usize,
    rule: Rule,
    coefficients: &mut [i64],
    powers: &mut [i8],
    base: usize,
) -> Scan
    ensures { NumbersRead n (Numbers.numbers w.now n (rule_of rule)).run s.now at base result (lent coefficients.old powers.old)
        (lent coefficients.new powers.new) }
{
    let r = stored_numbers(s, at, w, n, rule, coefficients, powers, base);
    if r.is_err() {
        clear_from(coefficients, powers, base);
    }
    r
}

// A value element of the name w, behind its name: its n numbers stand from `base` on; at a fault the room is zero from there on.
pub fn value_element(
    s: &[u8],
    at: usize,
    w: &[u8],
    n: usize,
    rule: Rule,
    coefficients: &mut [i64],
    powers: &mut [i8],
    base: usize,
) -> Scan
    ensures { NumbersRead n (Numbers.value_element w.now n (rule_of rule)).run s.now at base result (lent coefficients.old powers.old)
        (lent coefficients.new powers.new) }
{
    match tags::start_tag(s, at, TagKind::Value) {
        Ok(tag) => {
            let q = tag.end.behind();
            numbers(s, q, w, n, rule, coefficients, powers, base)
        }
        Err(stop) => {
            clear_from(coefficients, powers, base);
            Err(stop)
        }
    }
}

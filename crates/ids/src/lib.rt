#![tactic(auto)]

// Ids: which texts are ids, and how a node holds its own (document 02, W-203): 32 places, the bytes of the id, then zeros.
ghost use Rattle.std.specs.Prelude.{◌≡◌, ◌&&◌, length};
ghost use Rattle.xml.specs.Bytes as Bytes;
ghost use Rattle.ids.specs.Ids as Spec;

// The most bytes that a node's id may have.
pub const MOST_ID_BYTES: usize = 32;

// The bytes of names but `:`.
fn is_id_byte(b: u8) -> bool
    ensures { result ≡ Spec.is_id_byte b }
{
    b != b':' && xml::is_name_byte(b)
}

// Whether a text is 1 to `most` bytes of letters, digits, `-`, `_`, `.`.
pub fn id_right(text: &[u8], most: usize) -> bool
    ensures { result ≡ Spec.id_right most text.now }
{
    !text.is_empty() && text.len() <= most && text.iter().all(|b| is_id_byte(*b))
}

// No id: zeros.
pub fn none() -> [u8; 32]
    ensures { result ≡ Spec.no_id }
{
    [0; 32]
}

// An id in its places; of a longer text the first 32 bytes.
pub fn held(text: &[u8]) -> [u8; 32]
    ensures { result ≡ Spec.held_id text.now }
{
    let mut places = [0u8; 32];
    let n = text.len().min(32);
    places[..n].copy_from_slice(&text[..n]);
    places
}

// How many bytes the id in these places has.
pub fn length_of(places: &[u8]) -> usize
    ensures { result ≡ length (Spec.id_text places.now) }
{
    places.iter().position(|b| *b == 0).unwrap_or(places.len())
}

// Whether there is no id in these places, or a right one.
pub fn allowed(places: &[u8]) -> bool
    ensures { result ≡ Spec.id_allowed (Spec.id_text places.now) }
{
    let n = length_of(places);
    n == 0 || id_right(&places[..n], MOST_ID_BYTES)
}

// Whether nothing but zeros stands behind the id in these places.
pub fn is_held(places: [u8; 32]) -> bool
    ensures { result ≡ Spec.is_held places }
{
    places[length_of(&places)..].iter().all(|b| *b == 0)
}

// Whether an id stands in these places.
pub fn is_given(places: [u8; 32]) -> bool
    ensures { result ≡ Spec.is_given places }
{
    places[0] != 0
}

// Whether the ids in both places are one.
pub fn is_same(a: [u8; 32], b: [u8; 32]) -> bool
    ensures { result ≡ Bytes.same a b }
{
    a == b
}

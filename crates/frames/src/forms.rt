// Frames: which kind may follow which, big-endian numbers, and the form of each kind.
ghost use Rattle.std.specs.Prelude.{◌≡◌, ◌<◌, ◌≤◌, length, drop, MatchOption};
ghost use Rattle.format.specs.Frame.{kind_of, schema_type, predicate, node, query, many};
ghost use Rattle.frames.specs.Promises.{known, stands, byte_w, half_w, full_w, edition_of, reference_size, reference_w, wholly, is_frame, Formed, size_w, statement};

use crate::{Edition, Kind};

// A row for each kind that came before, a column for each that comes: a table as document 01 asks, read by the places
// that `as` gives the kinds, as no `From` leads from an enum to usize.
const FOLLOWS: [[bool; 6]; 6] = [
    [false, true, true, true, true, true], // limits
    [false, true, true, true, true, true], // name
    [false, false, true, true, true, true], // schema type
    [false, false, false, true, true, true], // predicate
    [false, false, false, false, true, true], // node
    [false, false, false, false, true, false], // query
];

// None says it all, so no `TryFrom`: its error would be a type with nothing in it, which each caller drops.
#[tactic(auto, unfolding(format::specs::Frame::kind_of), using(crate::proofs::Following::no_kind))]
pub fn kind_of(b: u8) -> Option<Kind>
    ensures { known result ≡ kind_of b }
{
    match b {
        1 => Some(Kind::Limits),
        2 => Some(Kind::Name),
        3 => Some(Kind::SchemaType),
        4 => Some(Kind::Predicate),
        5 => Some(Kind::Node),
        6 => Some(Kind::Query),
        _ => None,
    }
}

// A line of no kind may stand nowhere, and has no form (`is_frame`). The one caller of each hands in `Some(kind)`, but
// a `Kind` alone would ask that of every caller.
#[tactic(auto, using(crate::proofs::Following::standing))]
pub fn may_stand(previous: Option<Kind>, kind: Option<Kind>) -> bool
    ensures { result ≡ stands (known previous) (known kind) }
{
    let Some(kind) = kind else {
        return false;
    };
    match previous {
        None => kind == Kind::Limits,
        Some(previous) => FOLLOWS[previous as usize][kind as usize],
    }
}

// Numbers, with 0 for each byte past the end, so no array is cut out for `from_be_bytes`. Each is two of the one before
// it: one function over the size would be a loop with a bound of its own.
pub fn byte(s: &[u8], i: usize) -> u32
    ensures { (result ≡ byte_w s.now i) × (result < 256) }
{
    s.get(i).map_or(0, |b| u32::from(*b))
}

#[tactic(auto, unfolding(crate::specs::Promises::half_w), using(crate::proofs::Numbers::half_past))]
pub fn half(s: &[u8], i: usize) -> u32
    ensures { (result ≡ half_w s.now i) × (result < 65536) }
{
    if i < s.len() {
        byte(s, i) * 256 + byte(s, i + 1)
    } else {
        0
    }
}

#[tactic(auto, unfolding(crate::specs::Promises::full_w), using(crate::proofs::Numbers::full_past))]
pub fn full(s: &[u8], i: usize) -> u32
    ensures { result ≡ full_w s.now i }
{
    if i < s.len() {
        half(s, i) * 65536 + half(s, i + 2)
    } else {
        0
    }
}

// How many bytes a predicate reference has.
pub fn reference_size(edition: Edition) -> usize
    ensures { (result ≡ reference_size (edition_of edition)) × (result ≤ 4) }
{
    match edition {
        Edition::Narrow => 2,
        Edition::Wide => 4,
    }
}

pub fn reference(s: &[u8], i: usize, edition: Edition) -> u32
    ensures { result ≡ reference_w (edition_of edition) s.now i }
{
    match edition {
        Edition::Narrow => half(s, i),
        Edition::Wide => full(s, i),
    }
}

// How many bytes a statement takes by its first; none for a byte that starts none. The byte is the file's own, and
// nothing but the size is asked of it, so no enum stands between.
fn statement_size(tag: u8) -> Option<usize>
    ensures { MatchOption result (size_w tag ≡ 0) (λ n. (n ≡ size_w tag) × (0 < n) × (n ≤ 5)) }
{
    match tag {
        0 | 3 | 4 => Some(5),
        1 | 2 => Some(3),
        _ => None,
    }
}

// Each takes three bytes or five, so the rest is walked, and not chunks of one size.
#[tactic(auto, using(crate::proofs::Shapes::filling))]
fn are_statements(s: &[u8]) -> bool
    ensures { result ≡ wholly (many statement s.now) }
{
    let mut rest = s;
    while let [tag, ..] = rest {
        let Some(size) = statement_size(*tag) else {
            return false;
        };
        let Some(after) = rest.get(size..) else {
            return false;
        };
        rest = after;
    }
    true
}

// The shape, and a predicate's flag, is the file's byte, here and in the two below: nothing but the form is asked of
// it, and other crates group the shapes otherwise, so an enum would be matched once more (`statement_size`, and `parent`
// of crate tree).
#[tactic(auto, using(crate::proofs::Shapes::types))]
fn type_frame(s: &[u8], edition: Edition) -> bool
    ensures { result ≡ is_frame (edition_of edition) (Some schema_type) (drop 1 s.now) }
{
    let n = s.len();
    2 <= n
        && match s[1] {
            0..=2 => n == 2,
            3 => n == 2 + reference_size(edition),
            4 => (n - 2) % 4 == 0,
            5 => (n - 2) % 8 == 0,
            _ => false,
        }
}

#[tactic(auto, using(crate::proofs::Shapes::predicates))]
fn predicate_frame(s: &[u8]) -> bool
    ensures { Formed predicate (drop 1 s.now) result }
{
    let n = s.len();
    6 <= n
        && match s[5] {
            0 => n == 6,
            1 => n == 8,
            _ => false,
        }
}

#[tactic(auto, using(crate::proofs::Shapes::nodes))]
fn node_frame(s: &[u8], edition: Edition) -> bool
    ensures { result ≡ is_frame (edition_of edition) (Some node) (drop 1 s.now) }
{
    let n = s.len();
    10 <= n
        && match s[9] {
            0..=2 | 4 | 5 | 15 => n == 10,
            3 | 6 | 10 => n == 12,
            7 => n == 13,
            9 | 16 => n == 14,
            13 => n == 12 + reference_size(edition),
            8 => (n - 10) % 4 == 0,
            11 | 14 => (n - 10) % 2 == 0,
            12 => 12 <= n && are_statements(&s[12..]),
            _ => false,
        }
}

#[tactic(auto, using(crate::proofs::Shapes::queries))]
fn query_frame(s: &[u8]) -> bool
    ensures { Formed query (drop 1 s.now) result }
{
    3 <= s.len() && are_statements(&s[3..])
}

// Whether the line, its kind byte first, has its kind's form. The kinds are these six, so an arm tells each: functions
// handed in would hide that none is left out.
#[tactic(auto, using(crate::proofs::Shapes::kinds))]
pub fn is_frame(s: &[u8], kind: Option<Kind>, edition: Edition) -> bool
    ensures { result ≡ is_frame (edition_of edition) (known kind) (drop 1 s.now) }
{
    let Some(kind) = kind else {
        return false;
    };
    match kind {
        Kind::Limits => s.len() == 4,
        Kind::Name => true,
        Kind::SchemaType => type_frame(s, edition),
        Kind::Predicate => predicate_frame(s),
        Kind::Node => node_frame(s, edition),
        Kind::Query => query_frame(s),
    }
}

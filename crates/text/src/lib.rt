// UTF-8: whether bytes are a text, and of how many characters.
#![tactic(auto)]

ghost use Rattle.std.specs.Prelude.{◌≡◌, ◌<◌, ◌≤◌, ◌+◌, ◌↔◌, length, IsTrue, MatchOption};
ghost use Rattle.text.specs.Machine.{Steps, NoSuchByte};
ghost use Rattle.text.specs.Rule.{ones, head, Later, Scalar, Sequence};
ghost use Rattle.text.specs.Star.{Every};
ghost use Rattle.text.specs.Width.{StartsWith, StartsWithNone, HasValue};
ghost use Rattle.text.specs.Answer.{Tests};

// The least value that a sequence of each length may have: a lower one has a shorter form. By the length, of which
// no sequence has the first two: a `match` would be the same numbers with an arm each.
const LEAST: [u32; 5] = [0, 0, 0x80, 0x800, 0x10000];

// How many one bits the byte starts with. `as`: no `From` leads from u32 to usize.
fn ones(b: u8) -> usize
    ensures { result ≡ ones b }
{
    (!b).leading_zeros() as usize
}

// What a first byte with n leading ones holds after them.
fn head(b: u8, n: usize) -> u8
    requires ones { n ≡ ones b }
    requires short { n < 8 }
    ensures { result ≡ head b }
{
    b & (0x7f >> n)
}

// What the first byte holds, then six bits of each byte after it.
fn value(head: u8, later: &[u8]) -> Option<u32>
    requires { length later.now ≤ 3 }
    ensures { MatchOption result (Every Later later.now → ⊥) (HasValue head later.now) }
{
    let mut value = u32::from(head);
    for &b in later {
        match b {
            0x80..=0xbf => value = value * 64 + u32::from(b % 64),
            _ => return None,
        }
    }
    Some(value)
}

// Whether the value is a character's: not a half of UTF-16's pairs, and not past the last one.
fn is_scalar(value: u32) -> bool
    ensures { IsTrue result ↔ ((value ≤ 0x10ffff) × Scalar value) }
{
    matches!(value, 0..=0xd7ff | 0xe000..=0x10ffff)
}

// Whether the first byte and those that it asks for are a sequence.
fn is_sequence(first: u8, later: &[u8]) -> bool
    requires { 1 + length later.now ≡ ones first }
    ensures { IsTrue result ↔ Sequence first later.now }
{
    let n = 1 + later.len();
    if !matches!(n, 2..=4) {
        return false;
    }
    let Some(value) = value(head(first, n), later) else {
        return false;
    };
    LEAST[n] <= value && is_scalar(value)
}

// How many bytes the character at the start takes.
fn width(s: &[u8]) -> Option<usize>
    ensures { MatchOption result (StartsWithNone s.now) (StartsWith s.now) }
{
    let (&first, rest) = s.split_first()?;
    if first < 0x80 {
        return Some(1);
    }
    let n = ones(first);
    let later = rest.get(..n - 1)?;
    is_sequence(first, later).then_some(n)
}

// The characters are counted in the same walk that tests them. Each says itself how many bytes it takes, so the rest is
// walked and not the places.
pub fn characters(s: &[u8]) -> Option<usize>
    ensures { Tests s.now result }
{
    let mut rest = s;
    let mut count = 0;
    while !rest.is_empty() {
        let n = width(rest)?;
        rest = &rest[n..];
        count += 1;
    }
    Some(count)
}

// The class of each byte: the bytes of a class lie in the same ranges of the grammar.
static CLASS: [u8; 256] = [
    0, 0, 0, 0, 0, 0, 0, 0, 0, 0, 0, 0, 0, 0, 0, 0, 0, 0, 0, 0, 0, 0, 0, 0, 0, 0, 0, 0, 0, 0, 0, 0,
    0, 0, 0, 0, 0, 0, 0, 0, 0, 0, 0, 0, 0, 0, 0, 0, 0, 0, 0, 0, 0, 0, 0, 0, 0, 0, 0, 0, 0, 0, 0, 0,
    0, 0, 0, 0, 0, 0, 0, 0, 0, 0, 0, 0, 0, 0, 0, 0, 0, 0, 0, 0, 0, 0, 0, 0, 0, 0, 0, 0, 0, 0, 0, 0,
    0, 0, 0, 0, 0, 0, 0, 0, 0, 0, 0, 0, 0, 0, 0, 0, 0, 0, 0, 0, 0, 0, 0, 0, 0, 0, 0, 0, 0, 0, 0, 0,
    1, 1, 1, 1, 1, 1, 1, 1, 1, 1, 1, 1, 1, 1, 1, 1, 2, 2, 2, 2, 2, 2, 2, 2, 2, 2, 2, 2, 2, 2, 2, 2,
    3, 3, 3, 3, 3, 3, 3, 3, 3, 3, 3, 3, 3, 3, 3, 3, 3, 3, 3, 3, 3, 3, 3, 3, 3, 3, 3, 3, 3, 3, 3, 3,
    11, 11, 4, 4, 4, 4, 4, 4, 4, 4, 4, 4, 4, 4, 4, 4, 4, 4, 4, 4, 4, 4, 4, 4, 4, 4, 4, 4, 4, 4, 4,
    4, 5, 6, 6, 6, 6, 6, 6, 6, 6, 6, 6, 6, 6, 7, 6, 6, 8, 9, 9, 9, 10, 11, 11, 11, 11, 11, 11, 11,
    11, 11, 11, 11,
];

// The state after a byte of each class. A state is what the character begun still wants: 0 nothing, 1 to 3 so many
// later bytes, 4 to 7 what follows e0, ed, f0 and f4; 8 is no text. States and classes stay numbers, since names
// would make the rows no plainer: a state is its row's number, a class its column's.
static NEXT: [[u8; 12]; 8] = [
    [0, 8, 8, 8, 1, 4, 2, 5, 6, 3, 7, 8],
    [8, 0, 0, 0, 8, 8, 8, 8, 8, 8, 8, 8],
    [8, 1, 1, 1, 8, 8, 8, 8, 8, 8, 8, 8],
    [8, 2, 2, 2, 8, 8, 8, 8, 8, 8, 8, 8],
    [8, 8, 8, 1, 8, 8, 8, 8, 8, 8, 8, 8],
    [8, 1, 1, 8, 8, 8, 8, 8, 8, 8, 8, 8],
    [8, 8, 2, 2, 8, 8, 8, 8, 8, 8, 8, 8],
    [8, 2, 8, 8, 8, 8, 8, 8, 8, 8, 8, 8],
];

// The state after one more byte.
#[inline]
fn step(state: usize, b: u8) -> Option<usize>
    requires { state < 8 }
    ensures { MatchOption result (NoSuchByte state b) (λ next. (next < 8) × Steps state b next) }
{
    let class = usize::from(CLASS[usize::from(b)]);
    let next = usize::from(NEXT[state][class]);
    (next < 8).then_some(next)
}

// The same test by the tables; two tests, so that each is compared with the other.
pub fn characters_by_table(s: &[u8]) -> Option<usize>
    ensures { Tests s.now result }
{
    let mut state = 0;
    let mut chars = 0;
    for &b in s {
        if state == 0 {
            chars += 1;
        }
        state = step(state, b)?;
    }
    (state == 0).then_some(chars)
}

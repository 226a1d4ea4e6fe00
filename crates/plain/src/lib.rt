// The plain solver (card 12): a list of pairs to be made equal and a list of bindings, as words in a lent slice.
// Nothing of `unify` is called.
#![tactic(auto)]

ghost use Rattle.std.specs.Prelude.{List, [], ◌∷◌, ◌++◌, ◌≡◌, ◌+◌, ◌<◌, ◌≤◌, length, drop, MatchOption};
ghost use Rattle.writer.specs.Writes.{Writes};
ghost use Rattle.plain.specs.Tokens.{short, is_unknown, owed, instead_of, swapped, among, NoType, FirstType, NoCell, FirstCell, Alike, Pairs, NoUnknown};
ghost use Rattle.plain.specs.Gives.{GoesBehind, FindsCell, PassesAlike, TellsNode};
ghost use Rattle.plain.specs.Stages.{TellsBound, TellsApart, TellsNext, BindLays, SplitLays, StaysInside, PlainTurned, half, PlainRuns};

use work::wide;
use writer::{copy, one, two};

// `out` and `at` are two parameters: crate writer says why.

// Tokens: of the leaves 1 to 3 and an error this one word alone, of the others a number follows. A stage is words, so
// numbers are compared, and no enum.
const FACT: u32 = 4;

const RECORD: u32 = 5;

const UNION: u32 = 6;

const UNKNOWN: u32 = 7;

const ERROR: u32 = 8;

// A cell starts with its key; an alternative has its label before that.
const KEY: u32 = 9;

const LABEL: u32 = 10;

const BINDING: u32 = 11;

// The errors of a run that comes to no bindings: there are none, demand 3 shuts its types out, or the slice is too
// short.
#[derive(Clone, Copy)]
pub enum Unsolved {
    Failure,
    ShutOut,
    TooFew,
}

// Whether a token is this one word, and else a second one follows.
#[tactic(auto, unfolding(crate::specs::Tokens::short))]
fn is_short(a: u32) -> bool
    ensures { result ≡ short a }
{
    a < FACT || a == ERROR
}

// Whether a token is this unknown.
#[tactic(auto, unfolding(crate::specs::Tokens::is_unknown))]
fn is_unknown(a: u32, b: u32, x: u32) -> bool
    ensures { result ≡ is_unknown x a b }
{
    a == UNKNOWN && b == x
}

// One token of two words, or the words that stand for it. An unknown and what stands for it are two parameters, as
// `Next::Bind` hands them out: a struct would be made and taken apart in each turn.
#[tactic(auto, unfolding(crate::specs::Tokens::instead_of))]
fn instead(out: &mut [u32], at: usize, a: u32, b: u32, x: u32, ts: &[u32]) -> Option<usize>
    ensures { Writes out.old at (instead_of x ts.now a b) out.new result }
{
    if is_unknown(a, b, x) {
        copy(out, at, ts)
    } else {
        two(out, at, a, b)
    }
}

// The words, with the words ts for each token of x. A token has one word or two, so no chunks go over them: the loops
// here and in `occurs` take one off by a pattern.
fn replace(out: &mut [u32], at: usize, ws: &[u32], x: u32, ts: &[u32]) -> Option<usize>
    ensures { Writes out.old at (swapped x ts.now ws.now) out.new result }
{
    let mut to = at;
    let mut rest = ws;
    while let [a, b, more @ ..] = rest {
        if is_short(*a) {
            to = one(out, to, *a)?;
            rest = &rest[1..];
        } else {
            to = instead(out, to, *a, *b, x, ts)?;
            rest = more;
        }
    }
    copy(out, to, rest)
}

// The occurs check.
fn occurs(x: u32, ws: &[u32]) -> bool
    ensures { result ≡ among x ws.now }
{
    let mut rest = ws;
    while let [a, b, more @ ..] = rest {
        if is_short(*a) {
            rest = &rest[1..];
        } else if is_unknown(*a, *b, x) {
            return true;
        } else {
            rest = more;
        }
    }
    false
}

// How many types or cells a token of two words owes: an unknown and a fact owe none.
#[tactic(auto, unfolding(crate::specs::Tokens::owed))]
fn owed_by(a: u32, b: u32) -> usize
    ensures { (result ≡ owed a b) × (result < 4294967296) }
{
    match a {
        RECORD | UNION => wide(b),
        KEY | LABEL => 1,
        _ => 0,
    }
}

// What is left after so many types or cells. Each token may owe more, so how many there are only the loop finds.
fn behind(ws: &[u32], n: usize) -> Option<&[u32]>
    ensures { GoesBehind ws.now n result }
{
    let mut rest = ws;
    let mut owes = n;
    while owes > 0 {
        if rest.len() < owes {
            return None;
        }
        let (a, more) = rest.split_first()?;
        if is_short(*a) {
            owes -= 1;
            rest = more;
        } else {
            let (b, more) = more.split_first()?;
            owes = owed_by(*a, *b) + (owes - 1);
            rest = more;
        }
    }
    Some(rest)
}

// The words of the first type, and those behind it.
fn first_type(ws: &[u32]) -> Option<(&[u32], &[u32])>
    ensures { MatchOption result (NoType ws.now) (λ p. FirstType ws.now p.0.now p.1.now) }
{
    let rest = behind(ws, 1)?;
    Some(ws.split_at(ws.len() - rest.len()))
}

// The key and the label of a cell, and the words from its type on. A field's label is 0, as the cells' `Part` has it.
#[derive(Clone, Copy)]
struct Cell<'a> {
    key: u32,
    label: u32,
    ty: &'a [u32],
}

fn first_cell(row: &[u32]) -> Option<Cell<'_>>
    ensures { MatchOption result (NoCell row.now) (λ c. FirstCell row.now c.key c.label c.ty.now) }
{
    let [tag, x, ws @ ..] = row else {
        return None;
    };
    match *tag {
        KEY => Some(Cell {
            key: *x,
            label: 0,
            ty: ws,
        }),
        LABEL => {
            let [_, key, ty @ ..] = ws else {
                return None;
            };
            Some(Cell {
                key: *key,
                label: *x,
                ty,
            })
        }
        _ => None,
    }
}

// The first cell with this key. Where a cell ends its type says: std's `find` has nothing to go over.
fn find(row: &[u32], n: u32, key: u32) -> Option<Cell<'_>>
    ensures { FindsCell row.now n key result }
{
    let mut rest = row;
    for _ in 0..n {
        let cell = first_cell(rest)?;
        if cell.key == key {
            return Some(cell);
        }
        rest = behind(cell.ty, 1)?;
    }
    None
}

// Whether each cell of the first row has its cell in the second. Here and below `n` says how many cells are the rows':
// words of other rows may stand behind them. The left row is gone through and the right one stays whole, so a struct of
// both would be taken apart at each cell.
fn alike(n: u32, left: &[u32], right: &[u32]) -> bool
    ensures { Alike n left.now right.now result }
{
    let mut rest = left;
    for _ in 0..n {
        let Some(more) = past_alike(n, rest, right) else {
            return false;
        };
        rest = more;
    }
    true
}

// The row behind its first cell, if that has its cell in the other row.
fn past_alike<'a>(n: u32, row: &'a [u32], other: &[u32]) -> Option<&'a [u32]>
    ensures { PassesAlike n row.now other.now result }
{
    let cell = first_cell(row)?;
    let partner = find(other, n, cell.key)?;
    if partner.label != cell.label {
        return None;
    }
    behind(cell.ty, 1)
}

// The pairs of cells of two rows of n, where each has its cell. On other words what is written is anything.
fn pair_up(out: &mut [u32], at: usize, n: u32, left: &[u32], right: &[u32]) -> Option<usize>
    requires { at ≤ length out.old }
    ensures { Pairs n left.now right.now out.old at out.new result }
{
    let mut to = at;
    let mut rest = left;
    for _ in 0..n {
        let cell = first_cell(rest)?;
        let (a, more) = first_type(cell.ty)?;
        let partner = find(right, n, cell.key)?;
        let (b, _) = first_type(partner.ty)?;
        to = copy(out, to, a)?;
        to = copy(out, to, b)?;
        rest = more;
    }
    Some(to)
}

// What is to be done with the first pair, and the pairs behind it: an unknown bound to the words of a type, or two rows
// of n cells paired.
#[derive(Clone, Copy)]
enum Next<'a> {
    Done,
    Stuck,
    Drop(&'a [u32]),
    Bind(u32, &'a [u32], &'a [u32]),
    Split(u32, &'a [u32], &'a [u32], &'a [u32]),
}

// The unknown that a type is.
fn unknown(ty: &[u32]) -> Option<u32>
    ensures { MatchOption result (NoUnknown ty.now) (λ x. ty.now ≡ 7 ∷ x ∷ []) }
{
    match ty {
        [UNKNOWN, x] => Some(*x),
        _ => None,
    }
}

// The kind of a record or a union, how many cells it has, and their words.
fn node(ty: &[u32]) -> Option<(u32, u32, &[u32])>
    ensures { TellsNode ty.now result }
{
    let [kind, n, cells @ ..] = ty else {
        return None;
    };
    match *kind {
        RECORD | UNION => Some((*kind, *n, cells)),
        _ => None,
    }
}

// An unknown made equal to a type. It is not bound to a type that it stands in.
fn bound<'a>(x: u32, ty: &'a [u32], rest: &'a [u32]) -> Next<'a>
    ensures { TellsBound x ty.now rest.now result }
{
    if unknown(ty) == Some(x) {
        Next::Drop(rest)
    } else if occurs(x, ty) {
        Next::Stuck
    } else {
        Next::Bind(x, ty, rest)
    }
}

// Two types that are no unknowns.
fn apart<'a>(left: &'a [u32], right: &'a [u32], rest: &'a [u32]) -> Next<'a>
    ensures { TellsApart left.now right.now rest.now result }
{
    let Some((kind, n, first)) = node(left) else {
        return if left == right {
            Next::Drop(rest)
        } else {
            Next::Stuck
        };
    };
    let Some((other, m, second)) = node(right) else {
        return Next::Stuck;
    };
    if kind == other && n == m && alike(n, first, second) {
        Next::Split(n, first, second, rest)
    } else {
        Next::Stuck
    }
}

// The first of the pairs.
fn step(pairs: &[u32]) -> Next<'_>
    ensures { TellsNext pairs.now result }
{
    if pairs.is_empty() {
        return Next::Done;
    }
    let Some((left, rest)) = first_type(pairs) else {
        return Next::Stuck;
    };
    let Some((right, rest)) = first_type(rest) else {
        return Next::Stuck;
    };
    if let Some(x) = unknown(left) {
        bound(x, right, rest)
    } else if let Some(y) = unknown(right) {
        bound(y, left, rest)
    } else {
        apart(left, right, rest)
    }
}

// The stage after x is bound to the words ts.
fn bind(
    out: &mut [u32],
    bindings: &[u32],
    pairs: &[u32],
    x: u32,
    ts: &[u32],
) -> Option<(usize, usize)>
    ensures lays { BindLays bindings.now out.old out.new x ts.now pairs.now result }
    ensures stays { StaysInside out.old out.new result }
{
    let at = two(out, 0, BINDING, x)?;
    let at = copy(out, at, ts)?;
    let b = replace(out, at, bindings, x, ts)?;
    let e = replace(out, b, pairs, x, ts)?;
    Some((b, e))
}

// The stage after two rows of n cells are paired.
fn split(
    out: &mut [u32],
    bindings: &[u32],
    n: u32,
    left: &[u32],
    right: &[u32],
    pairs: &[u32],
) -> Option<(usize, usize)>
    ensures lays { SplitLays bindings.now out.old out.new n left.now right.now pairs.now result }
    ensures stays { StaysInside out.old out.new result }
{
    let b = copy(out, 0, bindings)?;
    let at = pair_up(out, b, n, left, right)?;
    let e = copy(out, at, pairs)?;
    Some((b, e))
}

// The bindings, copied to the start of the slice.
fn lower(low: &mut [u32], bindings: &[u32])
    requires { length bindings.now ≤ length low.old }
    ensures { low.new ≡ bindings.now ++ drop (length bindings.now) low.old }
{
    copy(low, 0, bindings);
}

// What a turn comes to: it is the last, so many words of pairs are left behind a dropped one, or the next stage stands in
// the room, its bindings up to the first place and its pairs up to the second.
#[derive(Clone, Copy)]
enum Turn {
    Last,
    Dropped(usize),
    Bound(usize, usize),
    Parted(usize, usize),
}

// One turn: a stage is read, and the next one is written into the room.
fn take_turn(bindings: &[u32], pairs: &[u32], room: &mut [u32]) -> Result<Turn, Unsolved>
    ensures { PlainTurned bindings.now pairs.now room.old room.new result }
{
    match step(pairs) {
        Next::Done => Ok(Turn::Last),
        Next::Stuck => Err(Unsolved::Failure),
        Next::Drop(rest) => Ok(Turn::Dropped(rest.len())),
        Next::Bind(x, ts, rest) => {
            let (b, e) = bind(room, bindings, rest, x, ts).ok_or(Unsolved::TooFew)?;
            Ok(Turn::Bound(b, e))
        }
        Next::Split(n, left, right, rest) => {
            let (b, e) = split(room, bindings, n, left, right, rest).ok_or(Unsolved::TooFew)?;
            Ok(Turn::Parted(b, e))
        }
    }
}

// The run from the stage in the upper half, its bindings up to b and its pairs up to e. Each next stage is written into
// the half that the last one does not stand in, so that none is copied back.
// It ends on any words: each turn leaves fewer unknowns that can still be bound, or as many and fewer words on the left
// sides. Only its step says whether a turn is the last.
// Here and in `run`, `b` and `e` are places, since the next stage is written by its places.
fn turns(low: &mut [u32], high: &mut [u32], mut b: usize, mut e: usize) -> Result<usize, Unsolved>
    requires { (b ≤ e) × (e ≤ length high.old) × (length low.old ≡ length high.old) }
    ensures { PlainRuns high.old (length high.old) 0 b e low.new result }
{
    // Whether the stage stands in the upper half.
    let mut up = true;
    let mut p = b;
    let mut unknowns = high.len();
    let mut words = high.len();
    loop {
        let turn = if up {
            let stage = &*high;
            take_turn(&stage[..b], &stage[p..e], low)
        } else {
            let stage = &*low;
            take_turn(&stage[..b], &stage[p..e], high)
        };
        match turn? {
            Turn::Last => {
                if up {
                    lower(low, &high[..b]);
                }
                return Ok(b);
            }
            Turn::Dropped(left) => {
                words = words.checked_sub(1).ok_or(Unsolved::TooFew)?;
                p = e - left;
            }
            Turn::Bound(to, end) => {
                unknowns = unknowns.checked_sub(1).ok_or(Unsolved::TooFew)?;
                (b, p, e) = (to, to, end);
                up = !up;
                words = high.len();
            }
            Turn::Parted(to, end) => {
                words = words.checked_sub(1).ok_or(Unsolved::TooFew)?;
                (b, p, e) = (to, to, end);
                up = !up;
            }
        }
    }
}

// The run from the stage that stands from the half of the slice on, its bindings up to `b` and its pairs up to `e`. An
// odd word is left over. After a success the slice starts with the bindings.
pub fn run(l: &mut [u32], b: usize, e: usize) -> Result<usize, Unsolved>
    requires { (half l.old ≤ b) × (b ≤ e) × (e ≤ half l.old + half l.old) }
    ensures { PlainRuns l.old (half l.old) (half l.old) b e l.new result }
{
    let h = l.len() / 2;
    let (low, high) = l.split_at_mut(h);
    turns(low, &mut high[..h], b - h, e - h)
}

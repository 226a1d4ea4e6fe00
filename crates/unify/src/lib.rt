// `unify` and `orderable` over the cells, as ty.rs has them. A visit is counted at each entry.
#![tactic(auto)]

ghost use Rattle.std.specs.Prelude.{Err, None, SomeIff, IfSome, ◌≡◌, ◌↔◌, ◌≤◌, ◌-◌, IsTrue, length, ok_or};
ghost use Rattle.unify.specs.Last.{Repeats, UnifiesAfter};
ghost use Rattle.unify.specs.Purses.{spent, HasRoom, ok_left, UnifiesFrom, OrderableFrom};
ghost use Rattle.unify.specs.Nearest.{IsLeastWay, IsNearest};
ghost use Rattle.cells.specs.Words.{after_w};
ghost use Rattle.cells.specs.Promises.{IsOrderable, Lowers, LeastFrom, NextFrom, Passed, part_at, FindsKey, Unifies, BindsVar, UnifiesHeads, UnifiesShapes, UnifiesRecord, UnifiesFields, UnifiesUnion};
ghost use Rattle.cells.specs.declared.Kind.TheVariants.{Alternatives};
ghost use Rattle.cells.specs.declared.Ty.TheVariants as Ty;
ghost use Rattle.cells.specs.declared.TyError.TheVariants as TyError;
ghost use Rattle.cells.specs.declared.Failure.TheVariants as Failure;

use cells::{
    Failure, Kind, Ty, TyError, UnionDiff, alternative, count, field, first, key_from, occurs,
    part_count, part_ty, place_from, place_of, repr, set_var, snapshot,
};
use work::wide;

/// The visits that may be made: those left of the ceiling of now, and how many were given out in all. What was spent is
/// the difference. No one above takes visits back or makes a purse: it is lent, from the call's edge on, to whatever
/// comes to `unify` or `orderable`.
#[derive(Drop)]
pub struct Purse {
    left: u32,
    given: u64,
}

impl Purse {
    /// For the edge of a call alone: tools/purse says who may name it.
    pub fn full(ceiling: u32) -> Self
        ensures { result ≡ record { left = ceiling; given = ceiling } }
    {
        Self {
            left: ceiling,
            given: u64::from(ceiling),
        }
    }

    /// The visits that may still be made.
    pub fn left(&self) -> u32
        ensures { result ≡ self.now.left }
    {
        self.left
    }

    /// Another ceiling. What was left is given back, so what was spent in all stays, as far as a u64 goes.
    pub fn refill(&mut self, ceiling: u32)
        ensures left { self.new.left ≡ ceiling }
        ensures spent { spent self.new ≤ spent self.old }
        ensures kept { HasRoom self.old ceiling → spent self.new ≡ spent self.old }
    {
        let spent = self.given.saturating_sub(u64::from(self.left));
        self.given = spent.saturating_add(u64::from(ceiling));
        self.left = ceiling;
    }

    // As a unification ended.
    fn settle(&mut self, end: Result<u32, Failure>) -> Option<Result<(), TyError>>
        ensures is { ok_left result self.new.left ≡ end }
        ensures given { self.new.given ≡ self.old.given }
        ensures ended { result ≡ None → self.new.left ≡ 0 }
    {
        match end {
            Ok(left) => {
                self.left = left;
                Some(Ok(()))
            }
            Err(Failure::Bad(err, left)) => {
                self.left = left;
                Some(Err(err))
            }
            Err(Failure::Spent) => {
                self.left = 0;
                None
            }
        }
    }
}

// Inside, the visits left come back where the sides unify, and where they do not, `why` holds the failure: it stands
// once, below all entries, since in each result it would have room of its own on the stack at every depth.
fn fail(why: &mut Failure, failure: Failure) -> Option<u32>
    ensures { ok_or result why.new ≡ Err failure }
{
    *why = failure;
    None
}

fn spend(left: u32, cost: u32, why: &mut Failure) -> Option<u32>
    ensures rest { SomeIff result (cost ≤ left) (left - cost) }
    ensures why { ok_or result why.new ≡ ok_or result Failure.Spent }
{
    let rest = left.checked_sub(cost);
    if rest.is_none() {
        *why = Failure::Spent;
    }
    rest
}

// The words and the visits left are two parameters all through: `?` hands the visits on; a struct of both would be taken
// out of a run (crate state), which stands above this, at each entry. The two cells that are compared, `c` and `d`, part
// again in the first call below. Here and at `unify_union` `#[inline(never)]` keeps what records do not use out of the
// frames that stand on the stack once for each depth of a record.
#[inline(never)]
fn bind_var(w: &mut [u32], x: u32, t: Ty, left: u32, why: &mut Failure) -> Option<u32>
    ensures { BindsVar w.old x t left w.new (ok_or result why.new) }
{
    let Some((found, l)) = occurs(w, x, t, left) else {
        return fail(why, Failure::Spent);
    };
    if found {
        return fail(why, Failure::Bad(TyError::Infinite, l));
    }
    set_var(w, x, t);
    Some(l)
}

// `got` is the type of the node that the caller reports at. Two parameters, by the names of ty.rs: each is looked up by
// itself at once. Where the visits ran out nothing comes back, and all that were left are spent.
pub fn unify(w: &mut [u32], got: Ty, expected: Ty, purse: &mut Purse) -> Option<Result<(), TyError>>
    ensures is { UnifiesFrom w.old got expected purse.old w.new purse.new result }
    ensures given { purse.new.given ≡ purse.old.given }
{
    let mut why = Failure::Spent;
    let rest = unify_sides(w, got, expected, purse.left, &mut why);
    purse.settle(rest.ok_or(why))
}

#[cycle(unifying)]
fn unify_sides(w: &mut [u32], got: Ty, expected: Ty, left: u32, why: &mut Failure) -> Option<u32>
    ensures { Unifies w.old got expected left w.new (ok_or result why.new) }
{
    let rest = spend(left, 1, why)?;
    let a = repr(w, got);
    let b = repr(w, expected);
    unify_heads(w, a, b, rest, why)
}

#[cycle(unifying)]
fn unify_heads(w: &mut [u32], a: Ty, b: Ty, left: u32, why: &mut Failure) -> Option<u32>
    ensures { UnifiesHeads w.old a b left w.new (ok_or result why.new) }
{
    match (a, b) {
        (Ty::Error, Ty::Var(x)) | (Ty::Var(x), Ty::Error) => {
            set_var(w, x, Ty::Error);
            Some(left)
        }
        (Ty::Error, _) | (_, Ty::Error) => Some(left),
        (Ty::Var(x), Ty::Var(y)) if x == y => Some(left),
        (Ty::Var(x), _) => bind_var(w, x, b, left, why),
        (_, Ty::Var(y)) => bind_var(w, y, a, left, why),
        _ => unify_shapes(w, a, b, left, why),
    }
}

#[cycle(unifying)]
fn unify_shapes(w: &mut [u32], a: Ty, b: Ty, left: u32, why: &mut Failure) -> Option<u32>
    ensures { UnifiesShapes w.old a b left w.new (ok_or result why.new) }
{
    match (a, b) {
        (Ty::Record(c), Ty::Record(d)) => unify_record(w, c, d, left, why),
        (Ty::Union(c), Ty::Union(d)) => unify_union(w, c, d, left, why),
        _ if a == b => Some(left),
        _ => fail(why, Failure::Bad(TyError::Mismatch(b, a), left)),
    }
}

#[cycle(unifying)]
fn unify_record(w: &mut [u32], c: u32, d: u32, left: u32, why: &mut Failure) -> Option<u32>
    ensures { UnifiesRecord w.old c d left w.new (ok_or result why.new) }
{
    let n = count(w, c);
    if n == count(w, d) {
        unify_fields(w, c, d, n, left, why)
    } else {
        fail(
            why,
            Failure::Bad(TyError::Mismatch(Ty::Record(d), Ty::Record(c)), left),
        )
    }
}

// The last two types that were unified, what that cost, and how long the undo log was before it.
#[derive(Clone, Copy)]
struct Last {
    got: Ty,
    expected: Ty,
    cost: u32,
    log: u32,
}

impl Last {
    // Two errors cost a visit, whatever is bound.
    fn new() -> Self
        ensures { result ≡ record { got = Ty.Error; expected = Ty.Error; cost = 1; log = 0 } }
    {
        Self {
            got: Ty::Error,
            expected: Ty::Error,
            cost: 1,
            log: 0,
        }
    }

    // Whether these two are the same, and nothing was bound since. What they cost is not compared: no `==`.
    fn is(self, w: &[u32], got: Ty, expected: Ty) -> bool
        ensures { IsTrue result ↔ Repeats self w.now got expected }
    {
        got == self.got && expected == self.expected && snapshot(w) == self.log
    }
}

// The last two once more, where nothing was bound in it, cost the same again, and are not walked.
#[inline(always)]
#[cycle(unifying)]
fn unify_next(
    w: &mut [u32],
    last: &mut Last,
    got: Ty,
    expected: Ty,
    left: u32,
    why: &mut Failure,
) -> Option<u32>
    ensures { UnifiesAfter last.old w.old got expected left last.new w.new result why.new }
{
    if last.is(w, got, expected) {
        return spend(left, last.cost, why);
    }
    let log = snapshot(w);
    let rest = unify_sides(w, got, expected, left, why)?;
    *last = Last {
        got,
        expected,
        cost: left - rest,
        log,
    };
    Some(rest)
}

// Each name of the found side is sought in the expected.
#[cycle(unifying)]
fn unify_fields(w: &mut [u32], c: u32, d: u32, n: u32, left: u32, why: &mut Failure) -> Option<u32>
    ensures { UnifiesFields w.old c d n left w.new (ok_or result why.new) }
{
    let mut rest = left;
    let mut last = Last::new();
    for j in 0..n {
        let p = field(w, c, j);
        let Some(i) = place_of(w, Kind::Fields, d, p.key) else {
            return fail(why, Failure::Bad(TyError::UnknownField(p.key), rest));
        };
        rest = unify_next(w, &mut last, p.ty, field(w, d, i).ty, rest, why)?;
    }
    Some(rest)
}

// How far it is up from `low` to the nearest of these keys, where 0 follows the greatest number: no key below `low` is
// as near as one that is not. It leaves at none of them, so that the processor takes four at once.
fn way_up(parts: &[[u32; 2]], low: u32) -> u32
    ensures { IsLeastWay low parts.now (length parts.now) result }
{
    let mut least = u32::MAX;
    for [key, _] in parts {
        least = least.min(key.wrapping_sub(low));
    }
    least
}

// The same by sixteen keys, up to those with `low` itself: nothing is nearer. The last sixteen may have been looked at
// in part: one by one, those that are left would cost as much as all before them.
fn least_way(parts: &[[u32; 2]], low: u32) -> u32
    ensures { IsLeastWay low parts.now (length parts.now) result }
{
    let Some(last) = parts.last_chunk::<16>() else {
        return way_up(parts, low);
    };
    let mut least = u32::MAX;
    for block in parts.as_chunks::<16>().0 {
        least = least.min(way_up(block, low));
        if least == 0 {
            return 0;
        }
    }
    least.min(way_up(last, low))
}

// The nearest discriminant of one union's alternatives from the i-th on; mostly the first of them has `from` itself.
// None where there is none, and where not all are within the slice.
fn nearest(w: &[u32], c: u32, i: u32, from: u64) -> Option<u32>
    ensures { IfSome result (IsNearest w.now c i from) }
{
    let low = u32::try_from(from).ok()?;
    let at = work::FIELDS + first(w, c);
    let words = w.get(at + 2 * wide(i)..at + 2 * wide(count(w, c)))?;
    let parts = words.as_chunks::<2>().0;
    let [key, _] = parts.first()?;
    if *key == low {
        return Some(*key);
    }
    Some(low.wrapping_add(least_way(parts, low)))
}

// The least discriminant of one union that is not below `from`, or `best` where that is less. The first i alternatives
// are below it, and of the others the nearest is below it only where all are. A type of a cell and what is passed of it
// would be made anew for each discriminant, which passes more.
fn least_from(w: &[u32], c: u32, i: u32, from: u64, best: Option<u32>) -> Option<u32>
    requires { Passed w.now c i from }
    ensures { LeastFrom w.now c from best result }
{
    if let Some(key) = nearest(w, c, i, from) {
        return lower(key, from, best);
    }
    let f = first(w, c);
    let mut least = best;
    for j in i..count(w, c) {
        least = lower(key_from(w, Kind::Alternatives, c, f, j), from, least);
    }
    least
}

#[tactic(auto, unfolding(cells::specs::Words::lower_w))]
fn lower(key: u32, from: u64, best: Option<u32>) -> Option<u32>
    ensures { Lowers key from best result }
{
    if u64::from(key) < from {
        best
    } else {
        Some(best.map_or(key, |b| b.min(key)))
    }
}

// The least discriminant of either that is not below `from`. The first i and j alternatives are below it.
fn next_discriminant(w: &[u32], c: u32, d: u32, i: u32, j: u32, from: u64) -> Option<u32>
    requires { Passed w.now c i from × Passed w.now d j from }
    ensures { NextFrom w.now c d from result }
{
    let first = least_from(w, c, i, from, None);
    if first.map(u64::from) == Some(from) {
        first
    } else {
        least_from(w, d, j, from, first)
    }
}

// Where the first alternative with this discriminant stands: none of the first i has it, which only two unions compared
// side by side know. Alternatives are in no order.
fn place_after(w: &[u32], c: u32, i: u32, k: u32) -> Option<u32>
    requires { Passed w.now c i k }
    ensures { FindsKey w.now Alternatives c k (part_at w.now Alternatives c result) }
{
    place_from(w, Kind::Alternatives, c, i, k)
}

// One alternative more is passed where the one at a is the next.
#[tactic(auto, unfolding(cells::specs::Words::after_w))]
fn after(a: u32, i: u32) -> u32
    ensures { result ≡ after_w a i }
{
    if a == i && i < 65536 { i + 1 } else { i }
}

// Discriminants ascending: presence on both sides, then the name, then the payload; each is compared whole before the
// next. A failure inside becomes a difference of the payload. The next is sought from the last one on: no range has it.
#[inline(never)]
#[cycle(unifying)]
fn unify_union(w: &mut [u32], c: u32, d: u32, left: u32, why: &mut Failure) -> Option<u32>
    ensures { UnifiesUnion w.old c d left w.new (ok_or result why.new) }
{
    let mut from: u64 = 0;
    let mut rest = left;
    let mut i: u32 = 0;
    let mut j: u32 = 0;
    let mut last = Last::new();
    while let Some(k) = next_discriminant(w, c, d, i, j, from) {
        let (a, b) = match (place_after(w, c, i, k), place_after(w, d, j, k)) {
            (Some(a), Some(b)) => (a, b),
            (Some(a), None) => {
                let diff = UnionDiff::Absent(alternative(w, c, a).label, k);
                return fail(why, differ(c, d, diff, rest));
            }
            (None, Some(b)) => {
                let diff = UnionDiff::Absent(alternative(w, d, b).label, k);
                return fail(why, differ(c, d, diff, rest));
            }
            (None, None) => return Some(rest),
        };
        let p = alternative(w, c, a);
        let q = alternative(w, d, b);
        if p.label != q.label {
            return fail(
                why,
                differ(c, d, UnionDiff::Renamed(q.label, p.label, k), rest),
            );
        }
        let diff = UnionDiff::Payload(p.label, k);
        let Some(l) = unify_next(w, &mut last, p.ty, q.ty, rest, why) else {
            if let Failure::Bad(_, l) = *why {
                *why = differ(c, d, diff, l);
            }
            return None;
        };
        rest = l;
        i = after(a, i);
        j = after(b, j);
        from = u64::from(k) + 1;
    }
    Some(rest)
}

fn differ(c: u32, d: u32, diff: UnionDiff, left: u32) -> Failure
    ensures { result ≡ Failure.Bad (TyError.UnionMismatch diff (Ty.Union d) (Ty.Union c)) left }
{
    Failure::Bad(
        TyError::UnionMismatch(diff, Ty::Union(d), Ty::Union(c)),
        left,
    )
}

// `orderable` of the resolved type: unknowns are looked up on the way; to the first no. As in `occurs`, a part of the
// same type as the last one costs what that cost. It is no one function with `occurs`: document 01 asks for that by
// name, with its loop inside (docs/DECISIONS.md, Forms), and it is defined over the bindings, this over the type that
// is left when they are replaced.
fn has_order(w: &[u32], t: Ty, left: u32) -> Option<(bool, u32)>
    ensures { IsOrderable w.now t left result }
{
    let mut rest = left.checked_sub(1)?;
    let u = repr(w, t);
    if let Ty::Fact(_) = u {
        return Some((false, rest));
    }
    let mut last = Ty::Error;
    let mut cost: u32 = 1;
    for j in 0..part_count(w, u) {
        let q = part_ty(w, u, j);
        if q == last {
            rest = rest.checked_sub(cost)?;
        } else {
            let (yes, l) = has_order(w, q, rest)?;
            if !yes {
                return Some((false, l));
            }
            last = q;
            cost = rest - l;
            rest = l;
        }
    }
    Some((true, rest))
}

pub fn orderable(w: &[u32], t: Ty, purse: &mut Purse) -> Option<bool>
    ensures is { OrderableFrom w.now t purse.old purse.new result }
    ensures given { purse.new.given ≡ purse.old.given }
{
    match has_order(w, t, purse.left) {
        Some((yes, left)) => {
            purse.left = left;
            Some(yes)
        }
        None => {
            purse.left = 0;
            None
        }
    }
}

// Whether a type reaches what demand 3 shuts out, an Error or a record that names a field twice, by the bindings of the
// moment. Types share their parts, so nothing is walked: each cell and each unknown has a mark, in the words where the
// environment was, and passes over all of them mark what holds only good types, until one marks nothing.
#![tactic(auto)]

ghost use Rattle.std.specs.Prelude.{◌≡◌, ◌<◌, ◌≤◌, ◌↔◌, IsTrue, length};
ghost use Rattle.work.specs.Layout.{TYS};
ghost use Rattle.cells.specs.declared.Ty.TheVariants as Ty;
ghost use Rattle.admitted.specs.Marks.{marked, item_w, good_w, AllGood, LacksFrom, DistinctFields, Holding, BoundGood, MarksItem, PassesItems, Unmarks, Settles};
ghost use Rattle.cells.specs.Words.{bound_w};

use cells::{Kind, Ty};
use work::{Counters, put, wide, word};

const CELLS: u32 = Counters::TYPES + Counters::RECORDS;

const ITEMS: u32 = CELLS + Counters::UNKNOWNS;

#[tactic(auto, unfolding(crate::specs::Marks::marked))]
fn is_marked(w: &[u32], i: usize) -> bool
    requires { i < 8589934592 }
    ensures { result ≡ marked w.now i }
{
    word(w, work::ENV + i) == 1
}

// What the marks say of a type; once they are settled, whether it is admitted.
pub fn good(w: &[u32], t: Ty) -> bool
    ensures { result ≡ good_w w.now t }
{
    match t {
        Ty::Int | Ty::Str | Ty::Bytes | Ty::Fact(_) => true,
        Ty::Record(c) | Ty::Union(c) => is_marked(w, wide(c)),
        Ty::Var(x) => is_marked(w, wide(CELLS) + wide(x)),
        Ty::Error => false,
    }
}

fn parts_good(w: &[u32], t: Ty) -> bool
    ensures { IsTrue result ↔ AllGood w.now t }
{
    (0..cells::part_count(w, t)).all(|j| good(w, cells::part_ty(w, t, j)))
}

// Whether no field from this number on has the name. They stand in no order.
fn lacks(w: &[u32], c: u32, key: u32, from: u32) -> bool
    ensures { IsTrue result ↔ LacksFrom w.now c key from }
{
    cells::place_from(w, Kind::Fields, c, from, key).is_none()
}

fn distinct(w: &[u32], c: u32) -> bool
    ensures { IsTrue result ↔ DistinctFields w.now c }
{
    (0..cells::count(w, c)).all(|i| lacks(w, c, cells::key_at(w, Kind::Fields, c, i), i + 1))
}

fn bound_good(w: &[u32], x: u32) -> bool
    ensures { IsTrue result ↔ BoundGood w.now (bound_w w.now x) }
{
    cells::var_ty(w, x).is_none_or(|t| good(w, t))
}

// Whether all that a type holds at once is good.
fn holding(w: &[u32], t: Ty) -> bool
    ensures { IsTrue result ↔ Holding w.now t }
{
    match t {
        Ty::Int | Ty::Str | Ty::Bytes | Ty::Fact(_) => true,
        Ty::Record(c) => parts_good(w, t) && distinct(w, c),
        Ty::Union(_) => parts_good(w, t),
        Ty::Var(x) => bound_good(w, x),
        Ty::Error => false,
    }
}

// The type that a mark is of.
#[tactic(auto, unfolding(crate::specs::Marks::item_w))]
fn item(w: &[u32], i: u32) -> Ty
    ensures { result ≡ item_w w.now i }
{
    if i < Counters::TYPES {
        cells::declared(w, i)
    } else if i < CELLS {
        Ty::Record(i)
    } else {
        Ty::Var(i - CELLS)
    }
}

fn mark(w: &mut [u32], i: u32) -> bool
    ensures { MarksItem w.old i w.new result }
{
    if is_marked(w, wide(i)) || !holding(w, item(w, i)) {
        return false;
    }
    put(w, work::ENV + wide(i), 1);
    true
}

// Whether there was one to mark. Each is tried, so no `any`, which would stop at the first.
fn pass(w: &mut [u32]) -> bool
    ensures { PassesItems w.old w.new result }
{
    let mut some = false;
    for i in 0..ITEMS {
        if mark(w, i) {
            some = true;
        }
    }
    some
}

fn unmark(w: &mut [u32])
    requires { TYS ≤ length w.old }
    ensures { Unmarks w.old w.new }
{
    w[work::ENV..work::ENV + wide(ITEMS)].fill(0);
}

// Marks exactly the cells and unknowns that are admitted. The words stand for the same state as before.
pub fn settle(w: &mut [u32])
    ensures { Settles w.old w.new }
{
    if w.len() < work::TYS {
        return;
    }
    unmark(w);
    while pass(w) {}
}

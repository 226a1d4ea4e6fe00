// Types as numbered cells in the work slice: bindings, `repr`, `occurs`, `set_var`, `snapshot`, `rollback`, as ty.rs
// has them. A visit is counted at each entry of `occurs`.
#![tactic(auto)]

ghost use Rattle.std.specs.Prelude.{◌≡◌, ◌↔◌, ℕ, IsTrue, ◌+◌, ◌*◌, ◌<◌, ◌≤◌, length, get_or, set};
ghost use Rattle.work.specs.Layout.{UNKNOWNS, UNDO, UNDO-LEN};
ghost use Rattle.cells.specs.Words.{ty_w, tag_w, payload_w, declared_w, count_w, first_w, field_w, alternative_w, part_w, slot_w, bound_w, put_ty, push_undo_w, set_var_w, annotate_w, fresh_w, revert_w, parts_w, part_of_w};
ghost use Rattle.cells.specs.Promises.{part_at, FirstPlace, PartsWithin, FindsKey, FindsName, Reprs, Occurs, RollsBack};
ghost use Rattle.cells.specs.declared.Ty.TheVariants as Ty;

mod inferred;

pub use inferred::{new_record, put_field, reserve};
use work::{
    Counters, above_tag, part_name, part_type, put, run_first, run_size, tag_in, wide, word,
};

// A type in hand; two words in the slice. A record and a union name a cell: below 256 the schema type of that number,
// from 256 on an inferred record.
#[derive(Clone, Copy, PartialEq, Eq)]
pub enum Ty {
    Int,
    Str,
    Bytes,
    Fact(u32),
    Record(u32),
    Union(u32),
    Var(u32),
    Error,
}

// Beside a cell's number; a `Ty` holds the number alone, so a struct of both would be taken apart at every use.
#[derive(Clone, Copy)]
pub enum Kind {
    Fields,
    Alternatives,
}

// Why a unification ended without success: the sides differ, with the visits left, or these ran out.
#[derive(Clone, Copy)]
pub enum Failure {
    Bad(TyError, u32),
    Spent,
}

// A cell's field or alternative: in a record the key is the name and the label 0, in a union the key is the
// discriminant and the label the name. The label is no Option: whoever asks for an alternative's would unwrap it, and
// for a field's nobody asks.
#[derive(Drop)]
pub struct Part {
    pub key: u32,
    pub label: u32,
    pub ty: Ty,
}

#[derive(Clone, Copy)]
pub enum UnionDiff {
    Absent(u32, u32),
    Renamed(u32, u32, u32),
    Payload(u32, u32),
}

#[derive(Clone, Copy)]
pub enum TyError {
    Mismatch(Ty, Ty),
    UnionMismatch(UnionDiff, Ty, Ty),
    UnknownField(u32),
    Infinite,
}

impl Ty {
    // From the two words that hold it: a slice of words has no types.
    #[tactic(auto, unfolding(crate::specs::Words::ty_w))]
    pub fn from_words(tag: u32, payload: u32) -> Self
        ensures { result ≡ ty_w tag payload }
    {
        match tag {
            1 => Self::Int,
            2 => Self::Str,
            3 => Self::Bytes,
            4 => Self::Fact(payload),
            5 => Self::Record(payload),
            6 => Self::Union(payload),
            7 => Self::Var(payload),
            _ => Self::Error,
        }
    }

    // The variants hold numbers, so `as` gives none.
    pub fn tag(self) -> u32
        ensures { result ≡ tag_w self }
    {
        match self {
            Self::Int => 1,
            Self::Str => 2,
            Self::Bytes => 3,
            Self::Fact(_) => 4,
            Self::Record(_) => 5,
            Self::Union(_) => 6,
            Self::Var(_) => 7,
            Self::Error => 8,
        }
    }

    // The word beside the tag; 0 where a type has nothing to say there.
    pub fn payload(self) -> u32
        ensures { result ≡ payload_w self }
    {
        match self {
            Self::Int | Self::Str | Self::Bytes | Self::Error => 0,
            Self::Fact(p) | Self::Record(p) | Self::Union(p) | Self::Var(p) => p,
        }
    }
}

// The schema type of this number.
#[tactic(auto, unfolding(crate::specs::Words::declared_w))]
pub fn declared(w: &[u32], t: u32) -> Ty
    ensures { result ≡ declared_w w.now t }
{
    let at = work::TYPES + 2 * wide(t);
    match tag_in(word(w, at)) {
        5 => Ty::Record(t),
        6 => Ty::Union(t),
        tag => Ty::from_words(tag, word(w, at + 1)),
    }
}

// How many fields or alternatives a cell has, and where they start in their region.
#[tactic(auto, unfolding(crate::specs::Words::count_w))]
pub fn count(w: &[u32], c: u32) -> u32
    ensures { result ≡ count_w w.now c }
{
    if c < Counters::TYPES {
        above_tag(word(w, work::TYPES + 2 * wide(c)))
    } else {
        run_size(word(w, work::RECORDS + wide(c - Counters::TYPES)))
    }
}

// Each is asked without the other, but for two searches: a pair would be taken apart at each call.
#[tactic(auto, unfolding(crate::specs::Words::first_w))]
pub fn first(w: &[u32], c: u32) -> usize
    ensures { (result ≡ first_w w.now c) × (result < 4294967296) }
{
    if c < Counters::TYPES {
        wide(word(w, work::TYPES + 2 * wide(c) + 1))
    } else {
        wide(run_first(word(w, work::RECORDS + wide(c - Counters::TYPES))))
    }
}

#[tactic(auto, unfolding(crate::specs::Words::field_w, crate::specs::Words::declared_field, crate::specs::Words::made_field))]
pub fn field(w: &[u32], c: u32, j: u32) -> Part
    ensures { result ≡ field_w w.now c j }
{
    if c < Counters::TYPES {
        let x = word(w, work::FIELDS + first(w, c) + wide(j));
        Part {
            key: part_name(x),
            label: 0,
            ty: declared(w, part_type(x)),
        }
    } else {
        let at = work::RECORD_FIELDS + 2 * (first(w, c) + wide(j));
        let x = word(w, at);
        Part {
            key: above_tag(x),
            label: 0,
            ty: Ty::from_words(tag_in(x), word(w, at + 1)),
        }
    }
}

#[tactic(auto, unfolding(crate::specs::Words::alternative_w))]
pub fn alternative(w: &[u32], c: u32, j: u32) -> Part
    ensures { result ≡ alternative_w w.now c j }
{
    let at = work::FIELDS + first(w, c) + 2 * wide(j);
    let x = word(w, at + 1);
    Part {
        key: word(w, at),
        label: part_name(x),
        ty: declared(w, part_type(x)),
    }
}

// By `Kind`, as its promise and those of the searches are said of both: a checker that knows a cell has no type in
// hand.
pub fn part_at(w: &[u32], k: Kind, c: u32, j: u32) -> Part
    ensures { result ≡ part_w w.now k c j }
{
    match k {
        Kind::Fields => field(w, c, j),
        Kind::Alternatives => alternative(w, c, j),
    }
}

// The key alone, in a cell whose parts start at f: a search asks for each part's key and for nothing else of it, and
// reads once where they start. By `key_at` a record of 120 fields takes a quarter more instructions; the bar is what it
// took before.
#[tactic(auto, unfolding(crate::specs::Words::field_w, crate::specs::Words::declared_field, crate::specs::Words::made_field, crate::specs::Words::alternative_w))]
pub fn key_from(w: &[u32], k: Kind, c: u32, f: usize, j: u32) -> u32
    requires { (f ≡ first_w w.now c) × (f < 4294967296) }
    ensures { result ≡ (part_w w.now k c j).key }
{
    match k {
        Kind::Fields => {
            if c < Counters::TYPES {
                part_name(word(w, work::FIELDS + f + wide(j)))
            } else {
                above_tag(word(w, work::RECORD_FIELDS + 2 * (f + wide(j))))
            }
        }
        Kind::Alternatives => word(w, work::FIELDS + f + 2 * wide(j)),
    }
}

pub fn key_at(w: &[u32], k: Kind, c: u32, j: u32) -> u32
    ensures { result ≡ (part_w w.now k c j).key }
{
    key_from(w, k, c, first(w, c), j)
}

// Where the first part with this key stands, of those from the i-th on. Of many the i-th is asked first: in two unions
// of the same order it is the one.
pub fn place_from(w: &[u32], k: Kind, c: u32, i: u32, key: u32) -> Option<u32>
    ensures { FirstPlace (λ j. (part_w w.now k c j).key ≡ key) i (count_w w.now c) result }
{
    let f = first(w, c);
    let n = count(w, c);
    if !end_within(w, c, f, n) {
        return (i..n).find(|j| key_from(w, k, c, f, *j) == key);
    }
    if n < 24 {
        return place_below(w, k, c, f, i, n, key);
    }
    if i < n && key_within(w, k, c, f, i) == key {
        return Some(i);
    }
    place_by_eights(w, k, c, i, key)
}

// Those below the n-th alone, one by one. A loop where `key_within` reads: it asks that j is below the count, which the
// closure of a `find` is not told.
fn place_below(w: &[u32], k: Kind, c: u32, f: usize, i: u32, n: u32, key: u32) -> Option<u32>
    requires { (f ≡ first_w w.now c) × (f < 4294967296) × (n ≤ count_w w.now c) × PartsWithin w.now c }
    ensures { FirstPlace (λ j. (part_w w.now k c j).key ≡ key) i n result }
{
    for j in i..n {
        if key_within(w, k, c, f, j) == key {
            return Some(j);
        }
    }
    None
}

// Eight at a time: two instructions for each key that is passed, where one by one takes five to eight. Below 24 parts
// what it takes to begin is more than that. It is no part of `place_from`, where it would take registers from the
// search among few, and reads anew where the parts are: with the same arguments the call is a jump.
#[inline(never)]
fn place_by_eights(w: &[u32], k: Kind, c: u32, i: u32, key: u32) -> Option<u32>
    requires { PartsWithin w.now c }
    ensures { FirstPlace (λ j. (part_w w.now k c j).key ≡ key) i (count_w w.now c) result }
{
    let f = first(w, c);
    let n = count(w, c);
    let mut at = i;
    while 8 <= n && at <= n - 8 {
        if !none_of_eight(w, k, c, f, at, key) {
            return place_below(w, k, c, f, at, at + 8, key);
        }
        at += 8;
    }
    place_below(w, k, c, f, at, n, key)
}

// Whether none of the eight from the j-th on has the key. It goes on after one that has it: so LLVM compares four at
// once.
fn none_of_eight(w: &[u32], k: Kind, c: u32, f: usize, j: u32, key: u32) -> bool
    requires { (f ≡ first_w w.now c) × (f < 4294967296) × (j + 8 ≤ count_w w.now c) × (j + 8 < 4294967296) × PartsWithin w.now c }
    ensures { IsTrue result ↔ ((m : ℕ) → j ≤ m → m < j + 8 → ¬ ((part_w w.now k c m).key ≡ key)) }
{
    let mut hit = false;
    for m in j..j + 8 {
        hit |= key_within(w, k, c, f, m) == key;
    }
    !hit
}

// Whether all parts of a cell are within the slice, as they are in every run.
fn are_within(w: &[u32], c: u32) -> bool
    ensures { IsTrue result → PartsWithin w.now c }
{
    end_within(w, c, first(w, c), count(w, c))
}

// The same where it is known where they start and how many they are: neither is read a second time.
fn end_within(w: &[u32], c: u32, f: usize, n: u32) -> bool
    requires { (f ≡ first_w w.now c) × (f < 4294967296) × (n ≡ count_w w.now c) }
    ensures { IsTrue result → PartsWithin w.now c }
{
    if c < Counters::TYPES {
        work::FIELDS + f + 2 * wide(n) <= w.len()
    } else {
        work::RECORD_FIELDS + 2 * (f + wide(n)) <= w.len()
    }
}

// As `key_from`, where no read is tested: by this a record of 120 fields takes 15 per cent fewer instructions.
#[tactic(auto, unfolding(crate::specs::Words::field_w, crate::specs::Words::declared_field, crate::specs::Words::made_field, crate::specs::Words::alternative_w))]
fn key_within(w: &[u32], k: Kind, c: u32, f: usize, j: u32) -> u32
    requires { (f ≡ first_w w.now c) × (f < 4294967296) × (j < count_w w.now c) × PartsWithin w.now c }
    ensures { result ≡ (part_w w.now k c j).key }
{
    match k {
        Kind::Fields => {
            if c < Counters::TYPES {
                part_name(inside(w, work::FIELDS + f + wide(j)))
            } else {
                above_tag(inside(w, work::RECORD_FIELDS + 2 * (f + wide(j))))
            }
        }
        Kind::Alternatives => inside(w, work::FIELDS + f + 2 * wide(j)),
    }
}

// Where the first part with this key stands.
pub fn place_of(w: &[u32], k: Kind, c: u32, key: u32) -> Option<u32>
    ensures { FindsKey w.now k c key (part_at w.now k c result) }
{
    place_from(w, k, c, 0, key)
}

// The first part with this key.
pub fn find_key(w: &[u32], k: Kind, c: u32, key: u32) -> Option<Part>
    ensures { FindsKey w.now k c key result }
{
    let j = place_of(w, k, c, key)?;
    Some(part_at(w, k, c, j))
}

// The first alternative of this name.
pub fn find_name(w: &[u32], c: u32, name: u32) -> Option<Part>
    ensures { FindsName w.now c name result }
{
    let j = (0..count(w, c)).find(|j| alternative(w, c, *j).label == name)?;
    Some(alternative(w, c, j))
}

// The type in two words; tag 0 stands for none.
#[tactic(auto, unfolding(crate::specs::Words::slot_w))]
pub fn slot(w: &[u32], at: usize) -> Option<Ty>
    ensures { result ≡ slot_w w.now at }
{
    match word(w, at) {
        0 => None,
        tag => Some(Ty::from_words(tag, word(w, at + 1))),
    }
}

// `var_ty`
#[tactic(auto, unfolding(crate::specs::Words::bound_w))]
pub fn var_ty(w: &[u32], x: u32) -> Option<Ty>
    ensures { result ≡ bound_w w.now x }
{
    if x < word(w, work::UNKNOWNS) {
        slot(w, work::BINDINGS + 2 * wide(x))
    } else {
        None
    }
}

// `repr` without haste: a chain is at most as long as there are unknowns.
fn follow_any(w: &[u32], t: Ty) -> Ty
    ensures { Reprs w.now t result }
{
    let mut at = t;
    for _ in 0..wide(word(w, work::UNKNOWNS)) + 1 {
        let Ty::Var(x) = at else {
            return at;
        };
        let Some(u) = var_ty(w, x) else {
            return at;
        };
        at = u;
    }
    at
}

// A word that is known to be within the slice.
fn inside(w: &[u32], i: usize) -> u32
    requires { i < length w.now }
    ensures { result ≡ get_or w.now i 0 }
{
    w[i]
}

// The same from an unknown on, where all bindings are within the slice: no read is tested. `follow_any` tests each,
// which makes long chains slow: the bench's `chain-50` to `chain-400` (docs/BENCH.md).
fn follow_within(w: &[u32], from: u32, n: u32) -> Ty
    requires { (n ≡ get_or w.now UNKNOWNS 0) × (n ≤ 512) × (UNDO ≤ length w.now) }
    ensures { Reprs w.now (Ty.Var from) result }
{
    let mut x = from;
    for _ in 0..n + 1 {
        if n <= x {
            return Ty::Var(x);
        }
        let at = work::BINDINGS + 2 * wide(x);
        let p = inside(w, at + 1);
        match inside(w, at) {
            0 => return Ty::Var(x),
            7 => x = p,
            tag => return Ty::from_words(tag, p),
        }
    }
    Ty::Var(x)
}

fn follow_far(w: &[u32], x: u32) -> Ty
    ensures { Reprs w.now (Ty.Var x) result }
{
    let n = word(w, work::UNKNOWNS);
    if n <= Counters::UNKNOWNS && work::UNDO <= w.len() {
        follow_within(w, x, n)
    } else {
        follow_any(w, Ty::Var(x))
    }
}

// `repr`: mostly the first binding tells. `&w[..]`, not `w`: lent anew to the call, the slice stays in registers where
// there is none.
pub fn repr(w: &[u32], t: Ty) -> Ty
    ensures { Reprs w.now t result }
{
    let Ty::Var(x) = t else {
        return t;
    };
    match var_ty(w, x) {
        None => t,
        Some(Ty::Var(_)) => follow_far(&w[..], x),
        Some(u) => u,
    }
}

// How many parts a type in hand has, and its part at j. Over the type and not over `Kind`: what is walked has any type.
pub fn part_count(w: &[u32], t: Ty) -> u32
    ensures { result ≡ parts_w w.now t }
{
    match t {
        Ty::Record(c) | Ty::Union(c) => count(w, c),
        _ => 0,
    }
}

// A type without parts promises field 0's, as it always did: its callers stay below `part_count`.
pub fn part_of(w: &[u32], t: Ty, j: u32) -> Part
    ensures { result ≡ part_of_w w.now t j }
{
    match t {
        Ty::Union(c) => alternative(w, c, j),
        Ty::Record(c) => field(w, c, j),
        _ => field(w, 0, j),
    }
}

// Its type alone, here and below: by the whole part, unions of 63 and files of many visits take up to 3 per cent more
// instructions; the bar is what they took before.
#[tactic(auto, unfolding(crate::specs::Words::field_w, crate::specs::Words::declared_field, crate::specs::Words::made_field))]
fn field_ty(w: &[u32], c: u32, j: u32) -> Ty
    ensures { result ≡ (field_w w.now c j).ty }
{
    if c < Counters::TYPES {
        declared(w, part_type(word(w, work::FIELDS + first(w, c) + wide(j))))
    } else {
        let at = work::RECORD_FIELDS + 2 * (first(w, c) + wide(j));
        Ty::from_words(tag_in(word(w, at)), word(w, at + 1))
    }
}

#[tactic(auto, unfolding(crate::specs::Words::alternative_w))]
pub fn part_ty(w: &[u32], t: Ty, j: u32) -> Ty
    ensures { result ≡ (part_of_w w.now t j).ty }
{
    match t {
        Ty::Union(c) => declared(
            w,
            part_type(word(w, work::FIELDS + first(w, c) + 2 * wide(j) + 1)),
        ),
        Ty::Record(c) => field_ty(w, c, j),
        _ => field_ty(w, 0, j),
    }
}

// `occurs`: to the first yes. A part of the same type as the last one that was asked costs what that cost, and is not
// walked again.
pub fn occurs(w: &[u32], x: u32, t: Ty, left: u32) -> Option<(bool, u32)>
    ensures { Occurs w.now x t left result }
{
    let mut rest = left.checked_sub(1)?;
    let u = repr(w, t);
    if u == Ty::Var(x) {
        return Some((true, rest));
    }
    let mut last = Ty::Error;
    let mut cost: u32 = 1;
    for j in 0..part_count(w, u) {
        let q = part_ty(w, u, j);
        if q == last {
            rest = rest.checked_sub(cost)?;
        } else {
            let (found, l) = occurs(w, x, q, rest)?;
            if found {
                return Some((true, l));
            }
            last = q;
            cost = rest - l;
            rest = l;
        }
    }
    Some((false, rest))
}

// The undo log holds an unknown as its number and a node as its number and this: what stood there before is always
// none, since an unknown is bound only while it is free and a node is annotated once.
const NODE: u32 = 65536;

#[tactic(auto, unfolding(crate::specs::Words::push_undo_w))]
fn push_undo(w: &mut [u32], entry: u32)
    ensures { w.new ≡ push_undo_w w.old entry }
{
    work::push(w, work::UNDO, work::UNDO_LEN, Counters::UNDO, entry);
}

// A new unknown, free, and its number.
#[tactic(auto, unfolding(crate::specs::Words::fresh_w))]
pub fn fresh_var_id(w: &mut [u32]) -> u32
    ensures { (result ≡ get_or w.old UNKNOWNS 0) × (w.new ≡ fresh_w w.old) }
{
    let x = word(w, work::UNKNOWNS);
    if x < Counters::UNKNOWNS {
        put(w, work::BINDINGS + 2 * wide(x), 0);
        put(w, work::UNKNOWNS, x + 1);
    }
    x
}

// A type in two words. No `From` and no struct of both: the slice holds words alone, as at `from_words`.
#[tactic(auto, unfolding(crate::specs::Words::put_ty))]
pub fn put_ty(w: &mut [u32], at: usize, t: Ty)
    requires { at < 16384 }
    ensures { w.new ≡ put_ty w.old at t }
{
    put(w, at, t.tag());
    put(w, at + 1, t.payload());
}

#[tactic(auto, unfolding(crate::specs::Words::set_var_w))]
pub fn set_var(w: &mut [u32], x: u32, t: Ty)
    ensures { w.new ≡ set_var_w w.old x t }
{
    if x < Counters::UNKNOWNS {
        put_ty(w, work::BINDINGS + 2 * wide(x), t);
        push_undo(w, x);
    }
}

// Unknowns and nodes have a limit, a region and an entry of the log of their own; only the writes are alike.
#[tactic(auto, unfolding(crate::specs::Words::annotate_w))]
pub fn annotate(w: &mut [u32], n: u32, t: Ty)
    ensures { w.new ≡ annotate_w w.old n t }
{
    if n < Counters::NODES {
        put_ty(w, work::TYS + 2 * wide(n), t);
        push_undo(w, n + NODE);
    }
}

pub fn snapshot(w: &[u32]) -> u32
    ensures { result ≡ get_or w.now UNDO-LEN 0 }
{
    word(w, work::UNDO_LEN)
}

#[tactic(auto, unfolding(crate::specs::Words::revert_w))]
fn revert(w: &mut [u32], entry: u32)
    ensures { w.new ≡ revert_w w.old entry }
{
    if entry < Counters::UNKNOWNS {
        put(w, work::BINDINGS + 2 * wide(entry), 0);
    } else if NODE <= entry && entry - NODE < Counters::NODES {
        put(w, work::TYS + 2 * wide(entry - NODE), 0);
    }
}

pub fn rollback(w: &mut [u32], mark: u32)
    ensures { RollsBack w.old mark w.new }
{
    for n in (mark..word(w, work::UNDO_LEN)).rev() {
        let entry = word(w, work::UNDO + wide(n));
        revert(w, entry);
        put(w, work::UNDO_LEN, n);
    }
}

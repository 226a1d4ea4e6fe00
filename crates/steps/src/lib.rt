// The steps of `check` outside of its cycle: they visit no node. Those with `#[inline(never)]` would have room for their
// messages and errors in the frames of the cycle (crate checker), which stand on the stack once for each depth.
#![tactic(auto)]

ghost use Rattle.std.specs.Prelude.{◌≡◌, ◌<◌, get_or};
ghost use Rattle.state.specs.Running.{RejectsIn, Ends, Lent};
ghost use Rattle.messages.specs.Said.{report_message};
ghost use Rattle.steps.specs.Outside.{predicate_w, key_ty_w, value_ty_w, TakesMark, Rewinds, FieldIs, Shadows, counters_w, Untypes, StartsRun};
ghost use Rattle.steps.specs.Promises.{TellsDestructurable, AsksAll};
ghost use Rattle.steps.specs.InRuns.{RejectsTyIn, UnifiesOutsideIn, UnifiesAtIn, ComparesTypesIn, ComparesOrderIn, ValueOfIn, FieldAtIn, KeyOfIn, SelectOfIn, DistanceIn, TermIn, FuzzesIn, IntroducesSideIn, ChecksHeadIn};

use cells::{Kind, Ty, TyError};
use messages::Message;
use state::{Run, Until};
use tree::{Items, Node};
use work::{put, wide, word};

// ---- State

pub fn reject_ty(run: &mut Run, n: u32, m: Message) -> Option<Ty>
    ensures is { RejectsTyIn run.old n m run.new result }
    ensures ended { Ends result run.new }
    ensures lent { Lent run.old run.new }
{
    run.reject(n, m)?;
    Some(Ty::Error)
}

#[inline(never)]
pub fn report(run: &mut Run, n: u32, err: TyError) -> Option<()>
    ensures is { RejectsIn run.old n (report_message err) run.new result }
    ensures ended { Ends result run.new }
    ensures lent { Lent run.old run.new }
{
    run.reject(n, Message::from(err))
}

// What a rollback comes back to: the lengths of the undo log, of the environment and of its marks.
#[derive(Drop)]
pub struct Mark {
    pub undo: u32,
    pub env: u32,
    pub marks: u32,
}

pub fn snapshot(w: &[u32]) -> Mark
    ensures { TakesMark w.now result }
{
    Mark {
        undo: cells::snapshot(w),
        env: word(w, work::ENV_LEN),
        marks: word(w, work::MARK_COUNT),
    }
}

pub fn rollback(w: &mut [u32], at: Mark)
    ensures { Rewinds w.old at w.new }
{
    cells::rollback(w, at.undo);
    put(w, work::ENV_LEN, at.env);
    put(w, work::MARK_COUNT, at.marks);
}

// `unify` from outside it, its two sides by the names of ty.rs; an entry that the run was to last until is not made.
pub fn unify_outside(run: &mut Run, got: Ty, expected: Ty) -> Option<Result<(), TyError>>
    ensures is { UnifiesOutsideIn run.old got expected run.new result }
    ensures out { run.new.out ≡ run.old.out }
    ensures ended { Ends result run.new }
    ensures lent { Lent run.old run.new }
{
    run.enter(got, expected)?;
    match unify::unify(run.words, got, expected, run.purse) {
        Some(end) => Some(end),
        None => {
            put(run.words, work::LEFT, 0);
            None
        }
    }
}

// Unifies, and reports a failure at a node.
#[inline(never)]
pub fn unify_at(run: &mut Run, n: u32, got: Ty, expected: Ty) -> Option<()>
    ensures is { UnifiesAtIn run.old n got expected run.new result }
    ensures ended { Ends result run.new }
    ensures lent { Lent run.old run.new }
{
    match unify_outside(run, got, expected)? {
        Ok(()) => Some(()),
        Err(err) => report(run, n, err),
    }
}

// The two sides of a comparison agree: the type must have an order.
pub fn compare_order(run: &mut Run, lhs: u32, t: Ty) -> Option<()>
    ensures is { ComparesOrderIn run.old lhs t run.new result }
    ensures ended { Ends result run.new }
    ensures lent { Lent run.old run.new }
{
    let w: &mut [u32] = run.words;
    match unify::orderable(w, t, run.purse) {
        Some(true) => Some(()),
        Some(false) => run.reject(lhs, Message::NoOrder(t)),
        None => {
            put(run.words, work::LEFT, 0);
            None
        }
    }
}

// Not `unify_at`, since after a report the order is not asked for. The sides are two parameters, as in crate checker.
pub fn compare_types(run: &mut Run, lhs: u32, rhs: u32, a: Ty, b: Ty) -> Option<()>
    ensures is { ComparesTypesIn run.old lhs rhs a b run.new result }
    ensures ended { Ends result run.new }
    ensures lent { Lent run.old run.new }
{
    match unify_outside(run, b, a)? {
        Ok(()) => compare_order(run, lhs, a),
        Err(err) => report(run, rhs, err),
    }
}

// ---- Schema

// The word of a predicate of the file.
#[tactic(auto, unfolding(crate::specs::Outside::predicate_w))]
fn predicate(w: &[u32], p: u32) -> Option<u32>
    ensures { result ≡ predicate_w w.now p }
{
    (p < word(w, work::PREDICATE_COUNT)).then(|| word(w, work::PREDICATES + wide(p)))
}

pub fn key_ty(w: &[u32], p: u32) -> Option<Ty>
    ensures { result ≡ key_ty_w w.now p }
{
    let x = predicate(w, p)?;
    Some(cells::declared(w, work::predicate_key(x)))
}

#[tactic(auto, unfolding(crate::specs::Outside::predicate_w, crate::specs::Outside::value_ty_w))]
pub fn value_ty(w: &[u32], p: u32) -> Option<Ty>
    ensures { result ≡ value_ty_w w.now p }
{
    let x = predicate(w, p)?;
    work::has_value(x).then(|| cells::declared(w, work::predicate_value(x)))
}

pub fn field_of(w: &[u32], t: Ty, name: u32) -> Option<Ty>
    ensures { FieldIs w.now t name result }
{
    match t {
        Ty::Record(c) => {
            let p = cells::find_key(w, Kind::Fields, c, name)?;
            Some(p.ty)
        }
        _ => None,
    }
}

// A key field called `value`.
pub fn key_shadows_value(w: &[u32], p: u32) -> bool
    ensures { Shadows w.now p result }
{
    let Some(name) = word(w, work::VALUE_NAME).checked_sub(1) else {
        return false;
    };
    let Some(t) = key_ty(w, p) else {
        return false;
    };
    field_of(w, t, name).is_some()
}

// ---- Access and select, on the resolved base

#[inline(never)]
pub fn value_of(run: &mut Run, n: u32, base: Ty) -> Option<Ty>
    ensures is { ValueOfIn run.old n base run.new result }
    ensures ended { Ends result run.new }
    ensures lent { Lent run.old run.new }
{
    match base {
        Ty::Error => Some(Ty::Error),
        Ty::Fact(p) => {
            if key_shadows_value(run.view(), p) {
                return reject_ty(run, n, Message::ValueShadowed);
            }
            match value_ty(run.view(), p) {
                Some(t) => Some(t),
                None => reject_ty(run, n, Message::NoValue),
            }
        }
        Ty::Var(_) => reject_ty(run, n, Message::UnknownType),
        _ => reject_ty(run, n, Message::NotAFact(base)),
    }
}

// Here, above and in `select_of` a `match`: the closure of an `or_else` would take the run, and say all that `reject_ty`
// says once more.
pub fn field_at(run: &mut Run, n: u32, name: u32, t: Ty) -> Option<Ty>
    ensures is { FieldAtIn run.old n name t run.new result }
    ensures ended { Ends result run.new }
    ensures lent { Lent run.old run.new }
{
    match field_of(run.view(), t, name) {
        Some(u) => Some(u),
        None => reject_ty(run, n, Message::NoField(name)),
    }
}

// On a fact it is the key's field, and a fact of an absent predicate is an error without a diagnostic.
#[inline(never)]
pub fn key_of(run: &mut Run, n: u32, name: u32, base: Ty) -> Option<Ty>
    ensures is { KeyOfIn run.old n name base run.new result }
    ensures ended { Ends result run.new }
    ensures lent { Lent run.old run.new }
{
    match base {
        Ty::Error => Some(Ty::Error),
        Ty::Fact(p) => match key_ty(run.view(), p) {
            Some(t) => field_at(run, n, name, t),
            None => Some(Ty::Error),
        },
        Ty::Record(_) => field_at(run, n, name, base),
        Ty::Var(_) => reject_ty(run, n, Message::UnknownType),
        _ => reject_ty(run, n, Message::NoFields(base)),
    }
}

#[inline(never)]
pub fn select_of(run: &mut Run, n: u32, name: u32, base: Ty) -> Option<Ty>
    ensures is { SelectOfIn run.old n name base run.new result }
    ensures ended { Ends result run.new }
    ensures lent { Lent run.old run.new }
{
    match base {
        Ty::Error => Some(Ty::Error),
        Ty::Union(c) => match cells::find_name(run.view(), c, name) {
            Some(p) => Some(p.ty),
            None => reject_ty(run, n, Message::NoAlternative(name)),
        },
        Ty::Var(_) => reject_ty(run, n, Message::UnknownType),
        _ => reject_ty(run, n, Message::NotAUnion(base)),
    }
}

// ---- Both bounds of a fuzzy pattern

fn fuzzy_distance(run: &mut Run, n: u32, distance: u32) -> Option<()>
    ensures is { DistanceIn run.old n distance run.new result }
    ensures ended { Ends result run.new }
    ensures lent { Lent run.old run.new }
{
    if distance == 0 || word(run.view(), work::MAX_DISTANCE) < distance {
        return run.reject(n, Message::DistanceOutside(distance));
    }
    Some(())
}

fn fuzzy_term(run: &mut Run, n: u32, term: u32) -> Option<()>
    ensures is { TermIn run.old n term run.new result }
    ensures ended { Ends result run.new }
    ensures lent { Lent run.old run.new }
{
    let characters = work::name_chars(word(run.view(), work::NAMES + wide(term)));
    if word(run.view(), work::MAX_TERM) < characters {
        return run.reject(n, Message::TermTooLong(characters));
    }
    Some(())
}

// The distance first.
#[inline(never)]
pub fn fuzzy(run: &mut Run, n: u32, term: u32, distance: u32) -> Option<Ty>
    ensures is { FuzzesIn run.old n term distance run.new result }
    ensures ended { Ends result run.new }
    ensures lent { Lent run.old run.new }
{
    fuzzy_distance(run, n, distance)?;
    fuzzy_term(run, n, term)?;
    Some(Ty::Str)
}

// ---- Nodes that are looked at, not visited

// A side that is a variable is introduced before either side is inferred.
pub fn introduce_side(run: &mut Run, n: u32)
    ensures is { IntroducesSideIn run.old n run.new }
    ensures purse { run.new.purse ≡ run.old.purse }
    ensures out { run.new.out ≡ run.old.out }
    ensures lent { Lent run.old run.new }
{
    if let Node::Var(symbol) = run.node(n) {
        run.introduce(n, symbol);
    }
}

// A wildcard has no type of its own that the head could have.
pub fn check_head(run: &mut Run, n: u32) -> Option<()>
    ensures is { ChecksHeadIn run.old n run.new result }
    ensures ended { Ends result run.new }
    ensures lent { Lent run.old run.new }
{
    match run.node(n) {
        Node::Wildcard => run.reject(n, Message::WildcardHead),
        _ => Some(()),
    }
}

// The file and the words are two parameters: a pair of both, as `View` of crate messages, would be made for this one
// call and taken apart in it.
#[cycle(destructuring)]
pub fn destructurable(f: &[u8], w: &[u32], n: u32) -> bool
    ensures { TellsDestructurable f.now w.now n result }
{
    match tree::node_at(f, w, n) {
        Node::Var(_) | Node::Wildcard => true,
        Node::Record(items) => all_destructurable(f, w, items),
        _ => false,
    }
}

// The fields of a record, to the first that is not. `all` takes a closure, and one that calls this cycle would need
// clauses of its own. That a lower node is there is asked here, not in the type: `tree::field_at` does without it.
#[cycle(destructuring)]
fn all_destructurable(f: &[u8], w: &[u32], items: Items) -> bool
    requires { 0 < items.n → 0 < items.below }
    ensures { AsksAll f.now w.now items result }
{
    for i in 0..items.n {
        let e = tree::field_at(f, items, i);
        if !destructurable(f, w, e.value) {
            return false;
        }
    }
    true
}

// ---- The start

fn begin_counters(w: &mut [u32])
    ensures { w.new ≡ counters_w w.old }
{
    put(w, work::RECORD_COUNT, 0);
    put(w, work::RECORD_FIELD_COUNT, 0);
    put(w, work::ENV_LEN, 0);
    put(w, work::DIAGNOSTIC_COUNT, 0);
    put(w, work::UNKNOWNS, 0);
    put(w, work::MARK_COUNT, 0);
    put(w, work::UNUSED_COUNT, 0);
    put(w, work::UNDO_LEN, 0);
}

// The types stand beside one another, so the payloads are cleared too: one fill is quicker than 512 writes.
fn begin_types(w: &mut [u32])
    ensures { Untypes w.old 512 w.new }
{
    let end = w.len().min(work::UNDO_LEN);
    let from = work::TYS.min(end);
    w[from..end].fill(0);
}

// The counters of a run are 0, and no node has a type.
pub fn begin(w: &mut [u32], until: Until)
    ensures { StartsRun w.old until w.new }
{
    begin_counters(w);
    begin_types(w);
    state::begin_lines(w, until);
    state::begin_entries(w, until);
}

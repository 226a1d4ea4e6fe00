// `check` of ty.rs over the work slice: infer, check, stmt, generator and bind call each other in a cycle; the node
// number falls, and a rank orders calls on one node.
#![tactic(auto)]

ghost use Rattle.std.specs.Prelude.{◌≡◌, ◌<◌};
ghost use Rattle.tree.specs.Nodes.{LowerItems};
ghost use Rattle.state.specs.Running.{Ends, Lent};
ghost use Rattle.checker.specs.InRuns.{InfersIn, InfersKindIn, SubqueriesIn, InfersRecordIn, InfersAllIn, FactsIn, InfersThenUnifiesIn, MentionsIn, ChecksFieldsIn, ChecksUnionIn, ChecksIn, GeneratesIn, BranchesIn, BindsVariableIn, NotYetsIn, DestructuresIn, BindsSidesIn, DeniesIn, ComparesIn, StatesIn, StatesAllIn};
ghost use Rattle.checker.specs.Promises.{Queries};
ghost use Rattle.checker.specs.Paid.{Pays, Notes};

use cells::{Kind, Ty};
use messages::Message;
use state::{Run, Until};
use tree::{Items, Node, Stmt, Stmts};
use unify::Purse;
use work::{Counters, put, word};

// That a lower node is there is asked here, not in the type: `tree::field_at` and `item_at` do without it.
#[cycle(checking)]
fn infer_record(run: &mut Run, items: Items) -> Option<Ty>
    requires { 0 < items.n → 0 < items.below }
    ensures is { InfersRecordIn run.old items run.new result }
    ensures ended { Ends result run.new }
    ensures lent { Lent run.old run.new }
{
    let n = items.n;
    let from = cells::reserve(run.words, n);
    // It never comes to that: there is room in every run.
    if from > Counters::RECORD_FIELDS || n > Counters::RECORD_FIELDS - from {
        put(run.words, work::LEFT, run.purse.left());
        return None;
    }
    for i in 0..n {
        let e = tree::field_at(run.file, items, i);
        let t = infer(run, e.value)?;
        cells::put_field(run.words, from + i, e.name, t);
    }
    Some(cells::new_record(run.words, from, n))
}

// Each operand or branch, unified with one type. In `infer_kind` its loop would take room at every depth, for other nodes
// too.
#[inline(never)]
#[cycle(checking)]
fn infer_all(run: &mut Run, items: Items, with: Ty) -> Option<Ty>
    requires { 0 < items.n → 0 < items.below }
    ensures is { InfersAllIn run.old items with run.new result }
    ensures ended { Ends result run.new }
    ensures lent { Lent run.old run.new }
{
    for i in 0..items.n {
        let e = tree::item_at(run.file, items, i);
        let t = infer(run, e)?;
        steps::unify_at(run, e, t, with)?;
    }
    Some(with)
}

#[cycle(checking)]
fn subquery(run: &mut Run, head: u32, body: Stmts) -> Option<Ty>
    requires { head < body.below }
    ensures is { SubqueriesIn run.old head body run.new result }
    ensures ended { Ends result run.new }
    ensures lent { Lent run.old run.new }
{
    let scope = word(run.view(), work::ENV_LEN);
    stmts(run, body)?;
    let t = infer(run, head)?;
    state::leave(run.words, scope);
    Some(t)
}

#[cycle(checking)]
fn fact(run: &mut Run, p: u32, key: u32) -> Option<Ty>
    ensures is { FactsIn run.old p key run.new result }
    ensures ended { Ends result run.new }
    ensures lent { Lent run.old run.new }
{
    let Some(t) = steps::key_ty(run.view(), p) else {
        return Some(Ty::Fact(p));
    };
    check(run, key, t)?;
    Some(Ty::Fact(p))
}

#[cycle(checking)]
fn infer_kind(run: &mut Run, n: u32) -> Option<Ty>
    ensures is { InfersKindIn run.old n run.new result }
    ensures ended { Ends result run.new }
    ensures lent { Lent run.old run.new }
{
    // Not by `Run::node`: inlined, the node would stand twice in this frame, once for each depth of a query.
    match tree::node_at(run.file, run.view(), n) {
        Node::Int => Some(Ty::Int),
        Node::Bytes => Some(Ty::Bytes),
        Node::Str => Some(Ty::Str),
        Node::Prefix(_) => Some(Ty::Str),
        Node::Fuzzy(term, distance) => steps::fuzzy(run, n, term, distance),
        Node::Wildcard => Some(Ty::Var(cells::fresh_var_id(run.words))),
        Node::Never => Some(Ty::Var(cells::fresh_var_id(run.words))),
        Node::Error => Some(Ty::Error),
        Node::Var(symbol) => Some(Ty::Var(run.introduce(n, symbol))),
        Node::Arith(items) => infer_all(run, items, Ty::Int),
        Node::Record(items) => infer_record(run, items),
        // These three begin alike. A function for the two lines would be one more of the cycle, with clauses of its own.
        Node::Key(name, base) => {
            let t = infer(run, base)?;
            let u = cells::repr(run.view(), t);
            steps::key_of(run, n, name, u)
        }
        Node::Value(base) => {
            let t = infer(run, base)?;
            let u = cells::repr(run.view(), t);
            steps::value_of(run, n, u)
        }
        Node::Select(name, base) => {
            let t = infer(run, base)?;
            let u = cells::repr(run.view(), t);
            steps::select_of(run, n, name, u)
        }
        Node::Fact(p, key) => fact(run, p, key),
        Node::Disjunction(items) => {
            let result = Ty::Var(cells::fresh_var_id(run.words));
            infer_all(run, items, result)
        }
        Node::Subquery(head, body) => subquery(run, head, body),
    }
}

#[cycle(checking)]
pub fn infer(run: &mut Run, n: u32) -> Option<Ty>
    ensures is { InfersIn run.old n run.new result }
    ensures ended { Ends result run.new }
    ensures lent { Lent run.old run.new }
{
    let t = infer_kind(run, n)?;
    cells::annotate(run.words, n, t);
    Some(t)
}

#[cycle(checking)]
fn infer_then_unify(run: &mut Run, n: u32, expected: Ty) -> Option<()>
    ensures is { InfersThenUnifiesIn run.old n expected run.new result }
    ensures ended { Ends result run.new }
    ensures lent { Lent run.old run.new }
{
    let at = steps::snapshot(run.view());
    let t = infer(run, n)?;
    match steps::unify_outside(run, t, expected)? {
        Ok(()) => Some(()),
        Err(err) => {
            steps::rollback(run.words, at);
            steps::report(run, n, err)
        }
    }
}

// A field in a scope of its own: whatever diagnostic arose inside it, it is rolled back.
#[cycle(checking)]
fn check_field(run: &mut Run, c: u32, name: u32, value: u32) -> Option<()>
    ensures is { MentionsIn run.old name value c run.new result }
    ensures ended { Ends result run.new }
    ensures lent { Lent run.old run.new }
{
    let Some(p) = cells::find_key(run.view(), Kind::Fields, c, name) else {
        return run.reject(value, Message::NoField(name));
    };
    let before = word(run.view(), work::DIAGNOSTIC_COUNT);
    let mark = steps::snapshot(run.view());
    check(run, value, p.ty)?;
    if before < word(run.view(), work::DIAGNOSTIC_COUNT) {
        steps::rollback(run.words, mark);
    }
    Some(())
}

#[cycle(checking)]
fn check_fields(run: &mut Run, items: Items, c: u32) -> Option<()>
    requires { 0 < items.n → 0 < items.below }
    ensures is { ChecksFieldsIn run.old items c run.new result }
    ensures ended { Ends result run.new }
    ensures lent { Lent run.old run.new }
{
    for i in 0..items.n {
        let e = tree::field_at(run.file, items, i);
        check_field(run, c, e.name, e.value)?;
    }
    Some(())
}

#[cycle(checking)]
fn check_union(run: &mut Run, n: u32, items: Items, c: u32) -> Option<()>
    requires { LowerItems n items }
    ensures is { ChecksUnionIn run.old n items c run.new result }
    ensures ended { Ends result run.new }
    ensures lent { Lent run.old run.new }
{
    if items.n != 1 {
        return run.reject(n, Message::NotOneAlternative(items.n));
    }
    let e = tree::field_at(run.file, items, 0);
    let Some(p) = cells::find_name(run.view(), c, e.name) else {
        return run.reject(n, Message::NoAlternative(e.name));
    };
    check(run, e.value, p.ty)?;
    cells::annotate(run.words, n, Ty::Union(c));
    Some(())
}

// Against Error nothing is visited.
#[cycle(checking)]
pub fn check(run: &mut Run, n: u32, expected: Ty) -> Option<()>
    ensures is { ChecksIn run.old n expected run.new result }
    ensures ended { Ends result run.new }
    ensures lent { Lent run.old run.new }
{
    let t = cells::repr(run.view(), expected);
    if let Ty::Error = t {
        return Some(());
    }
    match run.node(n) {
        Node::Wildcard => {
            cells::annotate(run.words, n, t);
            Some(())
        }
        Node::Record(items) => match t {
            Ty::Record(c) => {
                check_fields(run, items, c)?;
                cells::annotate(run.words, n, t);
                Some(())
            }
            Ty::Union(c) => check_union(run, n, items, c),
            _ => infer_then_unify(run, n, t),
        },
        _ => infer_then_unify(run, n, t),
    }
}

// Branches are not unified.
#[cycle(checking)]
pub fn generator(run: &mut Run, n: u32) -> Option<Ty>
    ensures is { GeneratesIn run.old n run.new result }
    ensures ended { Ends result run.new }
    ensures lent { Lent run.old run.new }
{
    match run.node(n) {
        Node::Disjunction(items) => {
            let t = branches(run, items)?;
            cells::annotate(run.words, n, t);
            Some(t)
        }
        _ => infer(run, n),
    }
}

#[cycle(checking)]
fn branches(run: &mut Run, items: Items) -> Option<Ty>
    requires { 0 < items.n → 0 < items.below }
    ensures is { BranchesIn run.old items run.new result }
    ensures ended { Ends result run.new }
    ensures lent { Lent run.old run.new }
{
    let mut last = Ty::Error;
    for i in 0..items.n {
        last = generator(run, tree::item_at(run.file, items, i))?;
    }
    Some(last)
}

// `bind` and `deny` with a variable on the left. Here and below the sides of a statement are two parameters: a type of
// both would be taken apart again in each function.
#[cycle(checking)]
fn bind_name(run: &mut Run, symbol: u32, lhs: u32, rhs: u32) -> Option<()>
    ensures is { BindsVariableIn run.old symbol lhs rhs run.new result }
    ensures ended { Ends result run.new }
    ensures lent { Lent run.old run.new }
{
    let var = run.introduce(lhs, symbol);
    cells::annotate(run.words, lhs, Ty::Var(var));
    let t = infer(run, rhs)?;
    steps::unify_at(run, rhs, t, Ty::Var(var))
}

#[cycle(checking)]
fn not_yet(run: &mut Run, lhs: u32, rhs: u32, m: Message) -> Option<()>
    ensures is { NotYetsIn run.old m lhs rhs run.new result }
    ensures ended { Ends result run.new }
    ensures lent { Lent run.old run.new }
{
    run.reject(lhs, m)?;
    infer(run, lhs)?;
    infer(run, rhs)?;
    Some(())
}

// `compare` begins alike, but both types go on from there: one function for both beginnings would be as long.
#[cycle(checking)]
fn destructure(run: &mut Run, lhs: u32, rhs: u32) -> Option<()>
    ensures is { DestructuresIn run.old lhs rhs run.new result }
    ensures ended { Ends result run.new }
    ensures lent { Lent run.old run.new }
{
    let pattern = infer(run, lhs)?;
    let value = infer(run, rhs)?;
    steps::unify_at(run, rhs, value, pattern)
}

#[cycle(checking)]
fn bind(run: &mut Run, lhs: u32, rhs: u32) -> Option<()>
    ensures is { BindsSidesIn run.old lhs rhs run.new result }
    ensures ended { Ends result run.new }
    ensures lent { Lent run.old run.new }
{
    match run.node(lhs) {
        Node::Wildcard => {
            let t = infer(run, rhs)?;
            cells::annotate(run.words, lhs, t);
            Some(())
        }
        Node::Var(symbol) => bind_name(run, symbol, lhs, rhs),
        Node::Record(_) => {
            if steps::destructurable(run.file, run.view(), lhs) {
                destructure(run, lhs, rhs)
            } else {
                not_yet(run, lhs, rhs, Message::MatchedPatterns)
            }
        }
        Node::Int | Node::Str | Node::Bytes | Node::Prefix(_) => {
            run.reject(lhs, Message::BoundConstant)?;
            infer(run, rhs)?;
            Some(())
        }
        Node::Error => {
            infer(run, rhs)?;
            Some(())
        }
        _ => not_yet(run, lhs, rhs, Message::MatchedPatterns),
    }
}

// `bind` has arms like these two, but for the message: a function for them would be one more of the cycle.
#[cycle(checking)]
fn deny(run: &mut Run, lhs: u32, rhs: u32) -> Option<()>
    ensures is { DeniesIn run.old lhs rhs run.new result }
    ensures ended { Ends result run.new }
    ensures lent { Lent run.old run.new }
{
    match run.node(lhs) {
        Node::Var(symbol) => bind_name(run, symbol, lhs, rhs),
        Node::Wildcard | Node::Int | Node::Str | Node::Bytes | Node::Prefix(_) => {
            run.reject(lhs, Message::DeniedConstant)?;
            infer(run, rhs)?;
            Some(())
        }
        Node::Error => {
            infer(run, rhs)?;
            Some(())
        }
        _ => not_yet(run, lhs, rhs, Message::DeniedPattern),
    }
}

#[cycle(checking)]
fn compare(run: &mut Run, lhs: u32, rhs: u32) -> Option<()>
    ensures is { ComparesIn run.old lhs rhs run.new result }
    ensures ended { Ends result run.new }
    ensures lent { Lent run.old run.new }
{
    steps::introduce_side(run, lhs);
    steps::introduce_side(run, rhs);
    let a = infer(run, lhs)?;
    let b = infer(run, rhs)?;
    steps::compare_types(run, lhs, rhs, a, b)
}

// The place is below 2^31, as `stmt_at` and `stmt_size` ask: a type that says so would be made anew at each statement.
#[cycle(checking)]
fn stmt(run: &mut Run, at: usize, below: u32) -> Option<()>
    requires { (0 < below) × (at < 2147483648) }
    ensures is { StatesIn run.old at below run.new result }
    ensures ended { Ends result run.new }
    ensures lent { Lent run.old run.new }
{
    match tree::stmt_at(run.file, at, below) {
        Stmt::Implicit(n) | Stmt::Negation(n) => {
            generator(run, n)?;
            Some(())
        }
        Stmt::Bind(lhs, rhs) => bind(run, lhs, rhs),
        Stmt::Deny(lhs, rhs) => deny(run, lhs, rhs),
        Stmt::Compare(lhs, rhs) => compare(run, lhs, rhs),
    }
}

#[cycle(checking)]
fn stmts(run: &mut Run, body: Stmts) -> Option<()>
    ensures is { StatesAllIn run.old body run.new result }
    ensures ended { Ends result run.new }
    ensures lent { Lent run.old run.new }
{
    let end = body.end;
    let below = body.below;
    let mut at = body.at;
    // How far the next is depends on the statement's kind.
    while at < end {
        stmt(run, at, below)?;
        at += tree::stmt_size(run.file, at);
    }
    Some(())
}

// The query of the file that was read: every type and diagnostic is then in the slice. The head is inferred last, and
// then every entry leaves. What crate driver lends becomes a run here.
pub fn query(
    f: &[u8],
    w: &mut [u32],
    until: Until,
    ceiling: u32,
    out: &mut [u8],
    purse: &mut Purse,
) -> Option<u32>
    ensures is { Queries f.now w.old out.old until ceiling w.new out.new result }
    ensures pays { Pays ceiling purse.old purse.new }
    ensures noted { Notes w.new purse.new result }
{
    steps::begin(w, until);
    purse.refill(ceiling);
    let head = tree::query_head(f, w);
    let body = tree::query_body(w);
    let mut run = Run {
        file: f,
        words: w,
        out,
        purse,
    };
    stmts(&mut run, body)?;
    steps::check_head(&mut run, head)?;
    infer(&mut run, head)?;
    state::leave(run.words, 0);
    Some(run.purse.left())
}

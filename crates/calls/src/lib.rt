// Demand 3's calls on numbers, for the comparison with the Rust (tools/oracle), which crate calls_c exports; a program
// that embeds the checker has no use for them. A type goes as its tag and its payload (crates/cells/specs/Words.antt).
// Every function takes any words: what they stand for is its caller's to keep.
#![tactic(auto)]

ghost use Rattle.std.specs.Prelude.{◌≡◌, get_or};
ghost use Rattle.work.specs.Layout.{RECORD-FIELD-COUNT, UNKNOWNS, UNDO-LEN};
ghost use Rattle.cells.specs.Inferred.{reserve_w, put_field_w, new_record_ty, new_record_w};
ghost use Rattle.cells.specs.Words.{ty_w, payload_w, fresh_w};
ghost use Rattle.cells.specs.Promises.{RollsBack};
ghost use Rattle.calls.specs.Beginning.{begun_w};
ghost use Rattle.calls.specs.Numbers.{reason_of, field_of, two, CallsUnify};

use cells::{Ty, TyError};
use unify::Purse;

// A list of calls starts here: no unknown, no inferred record, nothing to take back. The schema types that a reading
// left stay.
#[tactic(auto, unfolding(crate::specs::Beginning::begun_w))]
pub fn sigla_begin(w: &mut [u32])
    ensures { w.new ≡ begun_w w.old }
{
    work::put(w, work::RECORD_COUNT, 0);
    work::put(w, work::RECORD_FIELD_COUNT, 0);
    work::put(w, work::UNKNOWNS, 0);
    work::put(w, work::UNDO_LEN, 0);
}

// A new unknown, and its number.
pub fn sigla_fresh(w: &mut [u32]) -> u32
    ensures { (result ≡ get_or w.old UNKNOWNS 0) × (w.new ≡ fresh_w w.old) }
{
    cells::fresh_var_id(w)
}

// Room for so many fields of a record: where they start.
pub fn sigla_reserve(w: &mut [u32], n: u32) -> u32
    ensures { (result ≡ get_or w.old RECORD-FIELD-COUNT 0) × (w.new ≡ reserve_w w.old n) }
{
    cells::reserve(w, n)
}

// C hands in a type as its tag and its payload, here and in `sigla_unify`.
pub fn sigla_put_field(w: &mut [u32], i: u32, name: u32, tag: u32, payload: u32)
    ensures { w.new ≡ put_field_w w.old i name (ty_w tag payload) }
{
    cells::put_field(w, i, name, Ty::from_words(tag, payload));
}

// A record of fields that were put: its cell.
pub fn sigla_new_record(w: &mut [u32], from: u32, n: u32) -> u32
    ensures { (result ≡ payload_w (new_record_ty w.old from n)) × (w.new ≡ new_record_w w.old from n) }
{
    cells::new_record(w, from, n).payload()
}

pub fn sigla_snapshot(w: &[u32]) -> u32
    ensures { result ≡ get_or w.now UNDO-LEN 0 }
{
    cells::snapshot(w)
}

pub fn sigla_rollback(w: &mut [u32], mark: u32)
    ensures { RollsBack w.old mark w.new }
{
    cells::rollback(w, mark);
}

// For C: a field's name or 0, and why a unification failed: 1 mismatch, 2 union mismatch, 3 unknown field, 4 infinite.
// By `match`: the variants hold types and names, so `as` does not number them.
fn reason(e: TyError) -> u32
    ensures { result ≡ reason_of e }
{
    match e {
        TyError::Mismatch(_, _) => 1,
        TyError::UnionMismatch(_, _, _) => 2,
        TyError::UnknownField(_) => 3,
        TyError::Infinite => 4,
    }
}

fn field(e: TyError) -> u32
    ensures { result ≡ field_of e }
{
    match e {
        TyError::UnknownField(n) => n,
        _ => 0,
    }
}

fn put_two(out: &mut [u32], a: u32, b: u32)
    ensures { out.new ≡ two out.old a b }
{
    work::put(out, 0, a);
    work::put(out, 1, b);
}

// 0 for success, the reason of a failure, or 5 where the visits ran out. `out` gets the visits left and the field's
// name.
pub fn sigla_unify(
    w: &mut [u32],
    gtag: u32,
    got: u32,
    etag: u32,
    expected: u32,
    left: u32,
    out: &mut [u32],
) -> u32
    ensures { CallsUnify w.old gtag got etag expected left w.new out.old out.new result }
{
    let mut purse = Purse::full(left);
    let r = unify::unify(
        w,
        Ty::from_words(gtag, got),
        Ty::from_words(etag, expected),
        &mut purse,
    );
    let (number, name) = match r {
        Some(Ok(())) => (0, 0),
        Some(Err(e)) => (reason(e), field(e)),
        None => (5, 0),
    };
    put_two(out, purse.left(), name);
    number
}

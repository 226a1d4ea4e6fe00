// Crate calls for programs in other languages: every slice goes as a pointer and a length. A static library exports the
// C names, and no crate can use one, so the functions that crate runs speaks of are those of crate calls: the same
// eight, with the same clauses.
#![tactic(auto)]

ghost use Rattle.std.specs.Prelude.{◌≡◌, get_or};
ghost use Rattle.work.specs.Layout.{RECORD-FIELD-COUNT, UNKNOWNS, UNDO-LEN};
ghost use Rattle.cells.specs.Inferred.{reserve_w, put_field_w, new_record_ty, new_record_w};
ghost use Rattle.cells.specs.Words.{ty_w, payload_w, fresh_w};
ghost use Rattle.cells.specs.Promises.{RollsBack};
ghost use Rattle.calls.specs.Beginning.{begun_w};
ghost use Rattle.calls.specs.Numbers.{CallsUnify};

// A list of calls starts here: no unknown, no inferred record, nothing to take back. The schema types that a reading
// left stay.
#[unsafe(no_mangle)]
pub extern "C" fn sigla_begin(w: &mut [u32])
    ensures { w.new ≡ begun_w w.old }
{
    calls::sigla_begin(w);
}

// A new unknown, and its number.
#[unsafe(no_mangle)]
pub extern "C" fn sigla_fresh(w: &mut [u32]) -> u32
    ensures { (result ≡ get_or w.old UNKNOWNS 0) × (w.new ≡ fresh_w w.old) }
{
    calls::sigla_fresh(w)
}

// Room for so many fields of a record: where they start.
#[unsafe(no_mangle)]
pub extern "C" fn sigla_reserve(w: &mut [u32], n: u32) -> u32
    ensures { (result ≡ get_or w.old RECORD-FIELD-COUNT 0) × (w.new ≡ reserve_w w.old n) }
{
    calls::sigla_reserve(w, n)
}

// C hands in a type as its tag and its payload, here and in `sigla_unify`.
#[unsafe(no_mangle)]
pub extern "C" fn sigla_put_field(w: &mut [u32], i: u32, name: u32, tag: u32, payload: u32)
    ensures { w.new ≡ put_field_w w.old i name (ty_w tag payload) }
{
    calls::sigla_put_field(w, i, name, tag, payload);
}

// A record of fields that were put: its cell.
#[unsafe(no_mangle)]
pub extern "C" fn sigla_new_record(w: &mut [u32], from: u32, n: u32) -> u32
    ensures { (result ≡ payload_w (new_record_ty w.old from n)) × (w.new ≡ new_record_w w.old from n) }
{
    calls::sigla_new_record(w, from, n)
}

#[unsafe(no_mangle)]
pub extern "C" fn sigla_snapshot(w: &[u32]) -> u32
    ensures { result ≡ get_or w.now UNDO-LEN 0 }
{
    calls::sigla_snapshot(w)
}

#[unsafe(no_mangle)]
pub extern "C" fn sigla_rollback(w: &mut [u32], mark: u32)
    ensures { RollsBack w.old mark w.new }
{
    calls::sigla_rollback(w, mark);
}

// 0 for success, the reason of a failure, or 5 where the visits ran out. `out` gets the visits left and the field's
// name.
#[unsafe(no_mangle)]
pub extern "C" fn sigla_unify(
    w: &mut [u32],
    gtag: u32,
    got: u32,
    etag: u32,
    expected: u32,
    left: u32,
    out: &mut [u32],
) -> u32
    ensures { CallsUnify w.old gtag got etag expected left w.new out.old out.new result }
{
    calls::sigla_unify(w, gtag, got, etag, expected, left, out)
}

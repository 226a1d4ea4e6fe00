// The parts of record and union types, each by its bytes in the line.
ghost use Rattle.std.specs.Prelude.{◌≡◌, ℕ, List, ◌+◌, ◌<◌, ◌≤◌, length, not, map, eqb, [], refl};
ghost use Rattle.std.proofs.lemmas.List.Edits.{sets};
ghost use Rattle.work.specs.Layout.{FIELDS};
ghost use Rattle.cells.specs.declared.Kind.{Kind};
ghost use Rattle.cells.specs.declared.Kind.TheVariants.{Fields, Alternatives};
ghost use Rattle.cells.specs.Stands.{tag_of, part_words};
ghost use Rattle.format.specs.Conditions.{among, again};
ghost use Rattle.frames.specs.Promises.{half_w, full_w};
ghost use Rattle.reading.specs.Parts.{size_of, words_w, names_of, is_early, are_early, keys_of, words_of};

use frames::{full, half};
use reader::{Alternative, Field};
use work::{part, put, wide};

// What may not repeat: a field's name, an alternative's discriminant.
trait Keyed<const SIZE: usize> {
    ghost key: { List ℕ → ℕ };

    fn key(bytes: &[u8; SIZE]) -> u32
        ensures { result ≡ key bytes.now };
}

impl Keyed<4> for Field {
    ghost key = { λ p. half_w p 0 };

    fn key(bytes: &[u8; 4]) -> u32 {
        half(bytes, 0)
    }
}

impl Keyed<8> for Alternative {
    ghost key = { λ p. full_w p 2 };

    fn key(bytes: &[u8; 8]) -> u32 {
        full(bytes, 2)
    }
}

// A part of a record or union type: so many bytes of the line, so many words of the slice. A part is given by its bytes,
// so how large the numbers in them are is said by `reader` alone.
pub trait Part<const SIZE: usize> {
    const WORDS: usize;

    const TAG: u32;

    ghost kind: { Kind };

    ghost WORDS: { ℕ };

    ghost TAG: { ℕ };

    // Whether a part names a name and an earlier type. `Counters` has six numbers: these two alone are asked for.
    fn is_early(bytes: &[u8; SIZE], names: u32, types: u32) -> bool
        ensures { result ≡ is_early kind names types bytes.now };

    fn put(bytes: &[u8; SIZE], w: &mut [u32], at: usize)
        requires { at < 4294967296 }
        ensures { w.new ≡ sets w.old at (words_w kind bytes.now 0) };

    fn are_distinct(parts: &[[u8; SIZE]]) -> bool
        ensures { result ≡ not (again [] (keys_of kind parts.now)) };

    ghost sizes: { (SIZE ≡ size_of kind) × (WORDS ≡ part_words kind) × (TAG ≡ tag_of kind) };
}

impl Part<4> for Field {
    const WORDS: usize = 1;

    // As `Ty::tag` of crate cells has it, which a constant can't call; the law `sizes` ties it to the kind.
    const TAG: u32 = 5;

    ghost kind = { Fields };

    ghost WORDS = { 1 };

    ghost TAG = { 5 };

    ghost sizes = { (refl, refl, refl) };

    fn is_early(bytes: &[u8; 4], names: u32, types: u32) -> bool {
        let field = reader::read_field(bytes, 0);
        field.name < names && field.ty < types
    }

    fn put(bytes: &[u8; 4], w: &mut [u32], at: usize) {
        let field = reader::read_field(bytes, 0);
        put(w, at, part(field.name, field.ty));
    }

    fn are_distinct(fields: &[[u8; 4]]) -> bool {
        names_distinct(fields)
    }
}

impl Part<8> for Alternative {
    const WORDS: usize = 2;

    const TAG: u32 = 6;

    ghost kind = { Alternatives };

    ghost WORDS = { 2 };

    ghost TAG = { 6 };

    ghost sizes = { (refl, refl, refl) };

    fn is_early(bytes: &[u8; 8], names: u32, types: u32) -> bool {
        let alternative = reader::read_alternative(bytes, 0);
        alternative.name < names && alternative.ty < types
    }

    fn put(bytes: &[u8; 8], w: &mut [u32], at: usize) {
        let alternative = reader::read_alternative(bytes, 0);
        put(w, at, alternative.discriminant);
        put(w, at + 1, part(alternative.name, alternative.ty));
    }

    fn are_distinct(alternatives: &[[u8; 8]]) -> bool {
        keys_distinct::<8, Alternative>(alternatives)
    }
}

// Whether each part names a name and an earlier type; the counts are two parameters, as in `is_early`.
pub fn are_earlier<const SIZE: usize, P: Part<SIZE>>(
    parts: &[[u8; SIZE]],
    names: u32,
    types: u32,
) -> bool
    ensures { result ≡ are_early P.kind names types parts.now }
{
    parts.iter().all(
        |bytes|
            ensures { result ≡ is_early P.kind names types bytes.now }
        { P::is_early(bytes, names, types) },
    )
}

fn has_key<const SIZE: usize, K: Keyed<SIZE>>(parts: &[[u8; SIZE]], key: u32) -> bool
    ensures { result ≡ among key (map K.key parts.now) }
{
    parts.iter().any(
        |bytes|
            ensures { result ≡ eqb (K.key bytes.now) key }
        { K::key(bytes) == key },
    )
}

// A loop, as its place bounds the parts before it: a closure handed to `any` would need that bound as a clause.
fn keys_distinct<const SIZE: usize, K: Keyed<SIZE>>(parts: &[[u8; SIZE]]) -> bool
    ensures { result ≡ not (again [] (map K.key parts.now)) }
{
    for (i, bytes) in parts.iter().enumerate() {
        if has_key::<SIZE, K>(&parts[..i], K::key(bytes)) {
            return false;
        }
    }
    true
}

// The same for a record's fields, whose names were found to be numbers below 256: each is marked where it stands first.
// A loop, as the closure of an `all` would change the marks.
fn names_distinct(fields: &[[u8; 4]]) -> bool
    ensures { result ≡ not (again [] (names_of fields.now)) }
{
    let mut seen = [false; 256];
    for bytes in fields {
        let name = wide(half(bytes, 0));
        if 256 <= name {
            return keys_distinct::<4, Field>(fields);
        }
        if seen[name] {
            return false;
        }
        seen[name] = true;
    }
    true
}

// The place goes along: how many words a part has is its type's to say, and no array's length, so the region is not cut
// into `as_chunks`; and nothing is written past the end, as `put` has it.
pub fn put_parts<const SIZE: usize, P: Part<SIZE>>(parts: &[[u8; SIZE]], w: &mut [u32], from: u32)
    requires { (length parts.now ≤ 512) × (from ≤ 8192) }
    ensures { w.new ≡ sets w.old (FIELDS + from) (words_of P.kind parts.now) }
{
    let mut at = work::FIELDS + wide(from);
    for bytes in parts {
        P::put(bytes, w, at);
        at += P::WORDS;
    }
}

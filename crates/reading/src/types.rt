// Schema type and predicate lines.
ghost use Rattle.std.specs.Prelude.{◌≡◌, ◌<◌, ◌≤◌, length};
ghost use Rattle.format.specs.Frame.{schema_type, predicate};
ghost use Rattle.frames.specs.Promises.{edition_of};
ghost use Rattle.reading.specs.Parts.{shape_of};
ghost use Rattle.reading.specs.Promises.{InEither, TakesAnywhere, AddsType, TakesType, AddsPredicate};

use crate::parts::{Part, are_earlier, put_parts};
use crate::{Counters, Refusal};
use cells::Ty;
use frames::{Edition, byte, reference};
use reader::{Alternative, Field};
use work::{predicate_word, put, wide, with_tag, with_value};

// Counters with room for one more type and the words of its parts.
#[derive(Clone, Copy)]
pub struct Vacancy {
    pub c: Counters,
    ghost types: { c.types < 256 },
    ghost fields: { c.fields ≤ 8192 },
}

// One more type, with so many words of parts.
fn add_type(
    w: &mut [u32],
    room: Vacancy,
    head: u32,
    payload: u32,
    words: u32,
) -> Result<Counters, Refusal>
    requires { words ≤ 8192 }
    ensures { AddsType w.old room.c head payload words w.new result }
{
    let c = room.c;
    let at = work::TYPES + 2 * wide(c.types);
    put(w, at, head);
    put(w, at + 1, payload);
    Ok(Counters {
        types: c.types + 1,
        fields: c.fields + words,
        ..c
    })
}

// `as`: a line has at most 255 parts of at most two words.
fn take_parts<const SIZE: usize, P: Part<SIZE>>(
    s: &[u8],
    w: &mut [u32],
    room: Vacancy,
) -> Result<Counters, Refusal>
    requires { (2 ≤ length s.now) × (length s.now ≤ 512) }
    ensures { InEither (λ e. TakesType e (shape_of P.kind) s.now w.old room.c w.new result) }
{
    let c = room.c;
    let (parts, _) = s[2..].as_chunks::<SIZE>();
    if !are_earlier::<SIZE, P>(parts, c.names, c.types) {
        return Err(Refusal::BadReference);
    }
    if !P::are_distinct(parts) {
        return Err(Refusal::RepeatedKey);
    }
    put_parts::<SIZE, P>(parts, w, c.fields);
    let n = parts.len();
    let head = with_tag(n as u32, P::TAG);
    add_type(w, room, head, c.fields, (n * P::WORDS) as u32)
}

pub fn take_type(
    s: &[u8],
    w: &mut [u32],
    room: Vacancy,
    edition: Edition,
) -> Result<Counters, Refusal>
    requires { (2 ≤ length s.now) × (length s.now ≤ 512) }
    ensures { TakesAnywhere (edition_of edition) schema_type s.now w.old room.c w.new result }
{
    // The shape is the file's byte, as in `type_frame` of crate frames.
    match byte(s, 1) {
        0 => add_type(w, room, Ty::Int.tag(), 0, 0),
        1 => add_type(w, room, Ty::Str.tag(), 0, 0),
        2 => add_type(w, room, Ty::Bytes.tag(), 0, 0),
        3 => {
            let p = reference(s, 2, edition);
            add_type(w, room, Ty::Fact(p).tag(), p, 0)
        }
        4 => take_parts::<4, Field>(s, w, room),
        _ => take_parts::<8, Alternative>(s, w, room),
    }
}

fn add_predicate(w: &mut [u32], c: Counters, entry: u32) -> Result<Counters, Refusal>
    requires { c.predicates < 128 }
    ensures { AddsPredicate w.old c entry w.new result }
{
    put(w, work::PREDICATES + wide(c.predicates), entry);
    Ok(Counters {
        predicates: c.predicates + 1,
        ..c
    })
}

// The counters' bounds are asked here as in `take_line`: what names and types may name fits in an entry's eight bits,
// and `Vacancy` says another thing, that one more fits.
pub fn take_predicate(s: &[u8], w: &mut [u32], c: Counters) -> Result<Counters, Refusal>
    requires { (6 ≤ length s.now) × (c.names ≤ 256) × (c.types ≤ 256) × (c.predicates < 128) }
    ensures { InEither (λ e. TakesAnywhere e predicate s.now w.old c w.new result) }
{
    let p = reader::read_predicate(s, 1);
    if c.names <= p.name || c.types <= p.key {
        return Err(Refusal::BadReference);
    }
    let entry = predicate_word(p.name, p.key);
    if p.flag == 0 {
        return add_predicate(w, c, entry);
    }
    if c.types <= p.value {
        return Err(Refusal::BadReference);
    }
    add_predicate(w, c, with_value(entry, p.value))
}

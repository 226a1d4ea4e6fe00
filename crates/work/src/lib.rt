// The work slice: where its regions stand, and reads and writes of one word that are total, so that no caller owes a
// bound. There is no heap: the caller, C mostly, lends one slice of words, and all that a run keeps are words in it. So
// a flag is 0 or 1 there, what may be missing is 0 or one more than its number, and a choice is a number.
#![tactic(auto)]

ghost use Rattle.std.specs.Prelude.{◌≡◌, ◌<◌, ltb, cond, length, get_or, set, take, replicate, ◌++◌, ◌-◌, ◌+◌};
ghost use Rattle.work.specs.Counted.{no_counters};

// The run's counters, and its limits. `fields` counts the words of schema types' parts; `value` is the number of the
// name `value`.
#[derive(Clone, Copy, Default)]
pub struct Counters {
    pub names: u32,
    pub types: u32,
    pub predicates: u32,
    pub nodes: u32,
    pub fields: u32,
    pub value: Option<u32>,
    pub queries: u32,
}

impl Counters {
    pub const FILE: usize = 65536;

    pub const ANSWER: usize = 65536;

    pub const WORDS: usize = 16384;

    // bytes of a line
    pub const LINE: usize = 512;

    pub const VISITS: u32 = 1_048_576;

    pub const NAMES: u32 = 256;

    pub const TYPES: u32 = 256;

    pub const PREDICATES: u32 = 128;

    pub const NODES: u32 = 512;

    pub const QUERIES: u32 = 64;

    pub const FIELDS: u32 = 8192;

    pub const UNKNOWNS: u32 = 512;

    pub const RECORDS: u32 = 512;

    pub const RECORD_FIELDS: u32 = 512;

    // Entries of the environment, each with an unknown of its own. There are as many marks, one for each unknown, and
    // at most as many entries leave unmarked.
    pub const ENTRIES: u32 = 512;

    // A visit of a node reports at most three.
    pub const DIAGNOSTICS: u32 = 3 * Self::NODES;

    // Each unknown is bound once and each node annotated once.
    pub const UNDO: u32 = Self::UNKNOWNS + Self::NODES;

    // All of them 0, as the default is: document 01 asks for limits with a constructor (docs/DECISIONS.md).
    pub fn new() -> Self
        ensures { result ≡ no_counters }
    {
        Self::default()
    }
}

// ---- What a file said, written once by the reading.
pub const NAME_COUNT: usize = 0;

pub const TYPE_COUNT: usize = 1;

pub const PREDICATE_COUNT: usize = 2;

pub const NODE_COUNT: usize = 3;
// One more than the number of the name `value`, or 0.
pub const VALUE_NAME: usize = 4;

pub const MAX_DISTANCE: usize = 5;

pub const MAX_TERM: usize = 6;
// Where the query's line starts, and its length.
pub const QUERY: usize = 7;

// `as` here and below: a constant can't call `usize::from`, and no `From` leads from u32 to usize.
pub const NAMES: usize = 16;

pub const TYPES: usize = NAMES + Counters::NAMES as usize;

pub const PREDICATES: usize = TYPES + 2 * Counters::TYPES as usize;

pub const NODES: usize = PREDICATES + Counters::PREDICATES as usize;

pub const FIELDS: usize = NODES + Counters::NODES as usize;

// ---- What a run makes: sixteen counters first.
pub const RECORD_COUNT: usize = FIELDS + Counters::FIELDS as usize;

pub const RECORD_FIELD_COUNT: usize = RECORD_COUNT + 1;

pub const ENV_LEN: usize = RECORD_COUNT + 2;

pub const DIAGNOSTIC_COUNT: usize = RECORD_COUNT + 3;

pub const UNKNOWNS: usize = RECORD_COUNT + 4;
// Where the next line of a diagnostic goes in the answer slice, in two words; and 1 where one had no room.
pub const PLACE: usize = RECORD_COUNT + 5;

pub const PLACE_HIGH: usize = RECORD_COUNT + 6;

pub const FULL: usize = RECORD_COUNT + 7;
// What ends the run early besides its visits, as a number: 0 nothing, 1 its first diagnostic, 2 an entry to `unify`;
// and where it ended so, the visits left.
pub const UNTIL: usize = RECORD_COUNT + 8;

pub const LEFT: usize = RECORD_COUNT + 9;
// Before which entry it is to end, how many there were, and where it ended so the entry's two sides, two words each.
pub const STOP: usize = RECORD_COUNT + 10;

pub const ENTERED: usize = RECORD_COUNT + 11;

pub const GOT: usize = RECORD_COUNT + 12;

pub const EXPECTED: usize = RECORD_COUNT + 14;

pub const MARK_COUNT: usize = RECORD_COUNT + 16;

pub const UNUSED_COUNT: usize = RECORD_COUNT + 17;

pub const RECORDS: usize = RECORD_COUNT + 32;

pub const RECORD_FIELDS: usize = RECORDS + Counters::RECORDS as usize;

pub const ENV: usize = RECORD_FIELDS + 2 * Counters::RECORD_FIELDS as usize;

// The marks of entries that are used, by their unknowns; and the nodes whose entries left unmarked.
pub const MARKS: usize = ENV + Counters::ENTRIES as usize;

pub const UNUSED: usize = MARKS + Counters::ENTRIES as usize;

pub const TYS: usize = UNUSED + Counters::ENTRIES as usize;

pub const UNDO_LEN: usize = TYS + 2 * Counters::NODES as usize;

pub const BINDINGS: usize = UNDO_LEN + 1;

pub const UNDO: usize = BINDINGS + 2 * Counters::UNKNOWNS as usize;

pub const END: usize = UNDO + Counters::UNDO as usize;

mod packed;

pub use packed::{
    above_tag, has_value, is_named, line_place, line_size, line_word, name_chars, name_place,
    name_word, node_line, node_word, part, part_name, part_type, predicate_key, predicate_name,
    predicate_value, predicate_word, run_first, run_of, run_size, tag_in, with_tag, with_value,
};

// A word as a place. No `From` leads from u32 to usize, and `try_from` asks for an answer where none is.
pub fn wide(x: u32) -> usize
    ensures { (result ≡ x) × (result < 4294967296) }
{
    x as usize
}

// The word at i, and 0 past the end.
pub fn word(w: &[u32], i: usize) -> u32
    ensures { result ≡ get_or w.now i 0 }
{
    w.get(i).copied().unwrap_or(0)
}

// Nothing is written past the end.
pub fn put(w: &mut [u32], i: usize, x: u32)
    ensures { w.new ≡ set w.old i x }
{
    if i < w.len() {
        w[i] = x;
    }
}

// A word more in the region from a place on, which `count` counts. Past the limit nothing is written.
pub fn push(w: &mut [u32], from: usize, count: usize, limit: u32, x: u32)
    requires { from < 65536 }
    ensures { w.new ≡ cond (ltb (get_or w.old count 0) limit) (set (set w.old (from + get_or w.old count 0) x) count (get_or w.old count 0 + 1)) w.old }
{
    let n = word(w, count);
    if n < limit {
        put(w, from + wide(n), x);
        put(w, count, n + 1);
    }
}

pub fn clear(w: &mut [u32])
    ensures { w.new ≡ replicate (length w.old) 0 }
{
    w.fill(0);
}

// Zeros from a place on.
pub fn clear_bytes(s: &mut [u8], from: usize)
    ensures { s.new ≡ take from s.old ++ replicate (length s.old - from) 0 }
{
    let from = from.min(s.len());
    s[from..].fill(0);
}

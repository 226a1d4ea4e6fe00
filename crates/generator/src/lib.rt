// Card 11: the file of a seed, written into a lent slice. The rule is crates/testload/specs/Rule.antt.
#![tactic(auto)]

ghost use Rattle.std.specs.Prelude.{◌≡◌, ℕ, ◌-◌, ◌/◌, ◌<◌, ◌≤◌, ◌∷◌, ◌++◌, ◌+◌, length, take, drop, slice_index};
ghost use mathlib.Core.List.{flat_map};
ghost use Rattle.format.specs.Frame.{wide};
ghost use Rattle.format.specs.Bytes.{bytes₄, hex_line};
ghost use Rattle.format.specs.Writing.{file_of};
ghost use Rattle.format.specs.Content.{schema_frames, query_frames, frames_of};
ghost use Rattle.testload.specs.Words.{next, words};
ghost use Rattle.testload.specs.Rule.{choice, query_of, content_of};
ghost use Rattle.writer.specs.Writes.{Writes, hex_of};
ghost use Rattle.generator.specs.Promises.{cell_bytes, content, blocks, Makes};

// ---- The words

// The word at place i, counted from 0, after the words before it.
#[tactic(auto, using(testload::proofs::Words::next_first, testload::proofs::Words::next_early, testload::proofs::Words::next_later))]
fn next(seed: u32, w: &[u32], i: usize) -> u32
    requires { i < length w.now }
    ensures { result ≡ next seed i w.now }
{
    match i {
        0 => seed,
        1..55 => w[i - 1].wrapping_add(2654435769),
        _ => w[i - 24].wrapping_add(w[i - 55]),
    }
}

// Fills the slice with the seed's words.
fn fill(seed: u32, w: &mut [u32])
    ensures { w.new ≡ words seed (length w.old) }
{
    for i in 0..w.len() {
        w[i] = next(seed, w, i);
    }
}

// One of sixteen, by the four high bits of its word. `as` here and below: no `From` leads from u32 to usize, or back.
#[tactic(auto, unfolding(testload::specs::Rule::choice))]
fn choice(w: &[u32; 1440], c: usize) -> usize
    requires { c < 160 }
    ensures value { result ≡ choice w.now c }
    ensures upper_bound { result < 16 }
{
    (w[1280 + c] >> 28) as usize
}

// ---- Rows. `out` and `at` are two parameters: crate writer says why.

fn cell(out: &mut [u8], at: usize, x: u8, i: u32) -> Option<usize>
    ensures { Writes out.old at (hex_of (cell_bytes i x)) out.new result }
{
    match x {
        0xfe => writer::half(out, at, i.saturating_sub(1)),
        0xfd => writer::half(out, at, i.saturating_sub(2)),
        _ => writer::byte(out, at, x),
    }
}

// The rule's tables but the last, sixteen rows each, one after the other: limits, what is fixed (names, types 0 to 2),
// types 3 to 5, types 6 to 8, predicates, leaves, pairs, singles. A byte to a cell; fe is the node before the row's own,
// fd the one before that: neither is another cell's byte, and an enum would make each row a list of its variants. One
// list and not eight: the rule is held against it row by row, in one computed test.
static ROWS: [&[u8]; 128] = [
    b"\x02\x00\x20",
    b"\x02\x00\x20",
    b"\x02\x00\x04",
    b"\x01\x00\x20",
    b"\x03\x00\x20",
    b"\x02\x00\x08",
    b"\x00\x00\x00",
    b"\xff\xff\xff",
    b"\x02\x00\x20",
    b"\x02\x00\x15",
    b"\x02\x00\x14",
    b"\x01\x00\x01",
    b"\x02\x00\x20",
    b"\x03\x00\x04",
    b"\x02\xff\xff",
    b"\x01\x00\x15",
    b"a",
    b"b",
    b"c",
    b"d",
    b"value",
    b"x",
    b"y",
    b"z",
    b"\xc3\xa9",
    b"\xe2\x82\xac",
    b"\xf0\x9d\x84\x9e",
    b"",
    b"twenty-one characters",
    b"\x00",
    b"\x01",
    b"\x02",
    b"\x04\x00\x00\x00\x00\x00\x01\x00\x01",
    b"\x04\x00\x01\x00\x01\x00\x00\x00\x00",
    b"\x04\x00\x00\x00\x00",
    b"\x04",
    b"\x05\x00\x00\x00\x00\x00\x01\x00\x00\x00\x01\x00\x00\x00\x02\x00\x01",
    b"\x05\x00\x01\x00\x00\x00\x02\x00\x01\x00\x00\x00\x00\x00\x01\x00\x00",
    b"\x05\x00\x00\x00\x00\x00\x01\x00\x00\x00\x01\x00\x00\x00\x03\x00\x01",
    b"\x05\x00\x00\x00\x00\x00\x01\x00\x00\x00\x02\x00\x00\x00\x02\x00\x01",
    b"\x05\x00\x00\x00\x00\x00\x01\x00\x01\x00\x01\x00\x00\x00\x02\x00\x01",
    b"\x05",
    b"\x03\x00\x00\x00\x00",
    b"\x03\x00\x00\x00\x01",
    b"\x03\x00\x01\x00\x00",
    b"\x04\x00\x04\x00\x00\x00\x02\x00\x02",
    b"\x04\x00\x00\x00\x01\x00\x01\x00\x00",
    b"\x05\x00\x00\xff\xff\xff\xff\x00\x02",
    b"\x04\x00\x00\x00\x03\x00\x01\x00\x04",
    b"\x04\x00\x01\x00\x04\x00\x00\x00\x03",
    b"\x04\x00\x00\x00\x03\x00\x01\x00\x05",
    b"\x04\x00\x04\x00\x03",
    b"\x05\x00\x00\x00\x00\x00\x01\x00\x03\x00\x01\x00\x00\x00\x02\x00\x04",
    b"\x05\x00\x01\x00\x00\x00\x02\x00\x04\x00\x00\x00\x00\x00\x01\x00\x03",
    b"\x05\x00\x00\x00\x00\x00\x01\x00\x03\x00\x01\x00\x00\x00\x02\x00\x05",
    b"\x05\x00\x00\x00\x00\x00\x01\x00\x04",
    b"\x03\x00\x00\x00\x02",
    b"\x03\xff\xff\xff\xff",
    b"\x04\x00\x00\x00\x05",
    b"\x04\x00\x00\x00\x00\x00\x01\x00\x01",
    b"\x05\x00\x00\x00\x00\x00\x01\x00\x00\x00\x01\x00\x00\x00\x02\x00\x01",
    b"\x04\x00\x02\x00\x03\x00\x03\x00\x01",
    b"\x04\x00\x01\x00\x01\x00\x00\x00\x00",
    b"\x05\x00\x01\x00\x00\x00\x02\x00\x01\x00\x00\x00\x00\x00\x01\x00\x00",
    b"\x00\x05\x00\x06\x00",
    b"\x00\x06\x00\x06\x01\x00\x07",
    b"\x00\x07\x00\x07\x01\x00\x08",
    b"\x00\x08\x00\x08\x00",
    b"\x00\x09\x00\x03\x01\x00\x04",
    b"\x00\x0a\x00\x04\x01\x00\x03",
    b"\x00\x08\x00\x00\x01\x00\x01",
    b"\x00\x09\x00\x01\x01\x00\x00",
    b"\x00\x0a\x00\x05\x01\x00\x06",
    b"\x00\x0b\x00\x06\x01\x00\x06",
    b"\x00\x05\x00\x07\x00",
    b"\x00\x06\x00\x08\x01\x00\x08",
    b"\x00\x0c\x00\x03\x00",
    b"\x00\x04\x00\x05\x01\x00\x00",
    b"\x00\x07\x00\x04\x00",
    b"\x00\x00\x00\x02\x01\x00\x05",
    b"\x00",
    b"\x01",
    b"\x02",
    b"\x03\x00\x05",
    b"\x03\x00\x05",
    b"\x03\x00\x05",
    b"\x03\x00\x06",
    b"\x03\x00\x06",
    b"\x03\x00\x07",
    b"\x04",
    b"\x04",
    b"\x05",
    b"\x06\x00\x00",
    b"\x07\x00\x0c\x02",
    b"\x08",
    b"\x0f",
    b"\x08\x00\x00\xfd\x00\x01\xfe",
    b"\x08\x00\x00\xfd\x00\x01\xfe",
    b"\x08\x00\x01\xfd\x00\x00\xfe",
    b"\x08\x00\x01\xfd\x00\x00\xfe",
    b"\x08\x00\x02\xfd\x00\x03\xfe",
    b"\x08\x00\x00\xfd\x00\x00\xfe",
    b"\x08\x00\x00\xfd\x00\x02\xfe",
    b"\x08\x00\x04\xfd\x00\x02\xfe",
    b"\x0b\xfd\xfe",
    b"\x0b\xfd\xfe",
    b"\x0e\xfd\xfe",
    b"\x0e\xfd\xfe",
    b"\x0c\xfd\x01\xfe",
    b"\x0c\xfd\x01\xfe",
    b"\x0c\xfd\x02\xfe",
    b"\x0c\xfd\x02\xfe",
    b"\x0d\x00\x00\x00\x00\xfe",
    b"\x0d\x00\x00\x00\x01\xfe",
    b"\x0d\x00\x00\x00\x02\xfe",
    b"\x0d\x00\x00\x00\x03\xfe",
    b"\x0d\x00\x00\x00\x00\xfe",
    b"\x0d\x00\x00\x00\x01\xfe",
    b"\x0d\x00\x01\x00\x00\xfe",
    b"\x09\x00\x00\xfe",
    b"\x09\x00\x01\xfe",
    b"\x0a\xfe",
    b"\x10\x00\x00\xfe",
    b"\x10\x00\x01\xfe",
    b"\x08\x00\x00\xfe",
    b"\x08\x00\x01\xfe",
    b"\x0c\xfe",
    b"\x0c\xfe",
];

// The cells of row n. Only here and in `plan` a row is a number; below it is its cells.
fn cells(n: usize) -> &'static [u8]
    requires { n < 128 }
    ensures { (i : ℕ) → flat_map (cell_bytes i) result.now ≡ content i n }
{
    ROWS[n]
}

// A row's cells, of node i, and LF.
fn row(out: &mut [u8], mut at: usize, xs: &[u8], i: u32) -> Option<usize>
    ensures { Writes out.old at (hex_line (flat_map (cell_bytes i) xs.now)) out.new result }
{
    for x in xs {
        at = cell(out, at, *x, i)?;
    }
    writer::close(out, at)
}

// ---- Lines

// The kind is the byte that the line starts with.
fn line(out: &mut [u8], at: usize, kind: u8, xs: &[u8]) -> Option<usize>
    ensures { Writes out.old at (hex_line (kind ∷ flat_map (cell_bytes 0) xs.now)) out.new result }
{
    let at = writer::byte(out, at, kind)?;
    row(out, at, xs, 0)
}

fn node(out: &mut [u8], at: usize, start: u32, end: u32, xs: &[u8], i: u32) -> Option<usize>
    ensures { Writes out.old at (hex_line (5 ∷ bytes₄ start ++ bytes₄ end ++ flat_map (cell_bytes i) xs.now)) out.new result }
{
    let at = writer::byte(out, at, 5)?;
    let at = writer::full(out, at, start)?;
    let at = writer::full(out, at, end)?;
    row(out, at, xs, i)
}

// ---- The schema

// The schema's lines: the kind of each, and the table of its row.
static LINES: [(u8, usize); 27] = [
    (1, 0),
    (2, 1),
    (2, 1),
    (2, 1),
    (2, 1),
    (2, 1),
    (2, 1),
    (2, 1),
    (2, 1),
    (2, 1),
    (2, 1),
    (2, 1),
    (2, 1),
    (2, 1),
    (3, 1),
    (3, 1),
    (3, 1),
    (3, 2),
    (3, 2),
    (3, 2),
    (3, 3),
    (3, 3),
    (3, 3),
    (4, 4),
    (4, 4),
    (4, 4),
    (4, 4),
];

fn schema(w: &[u32; 1440], out: &mut [u8]) -> Option<usize>
    ensures { Writes out.old 0 (file_of wide (schema_frames (content_of w.now))) out.new result }
{
    let mut at = 0;
    for (l, (kind, table)) in LINES.iter().enumerate() {
        let v = if *table == 1 { l - 1 } else { choice(w, l) };
        at = line(out, at, *kind, cells(16 * *table + v))?;
    }
    Some(at)
}

// ---- Queries

// The last of the rule's tables: so many blocks of eight nodes, and the cells of the query's own line.
static PLANS: [(usize, &[u8]); 16] = [
    (1, b"\x00\x06"),
    (1, b"\x00\x07\x01\x00\x06"),
    (1, b"\x00\x03"),
    (1, b"\x00\x07\x01\x00\x03"),
    (1, b"\x00\x03\x00\x00\x07\x00\x06"),
    (1, b"\x00\x06\x00\x00\x07\x00\x03"),
    (1, b"\x00\x07\x00\x00\x03\x00\x06"),
    (1, b"\x00\x07\x02\x00\x03\x01\x00\x06"),
    (
        2,
        b"\x00\x0f\x00\x00\x07\x00\x06\x04\x00\x03\x00\x0e\x01\x00\x0b",
    ),
    (
        2,
        b"\x00\x0e\x00\x00\x07\x00\x06\x00\x00\x0f\x00\x0b\x01\x00\x03",
    ),
    (2, b"\x00\x07\x01\x00\x06\x01\x00\x0e\x00\x00\x0f\x00\x03"),
    (
        2,
        b"\x00\x03\x03\x00\x07\x00\x06\x00\x00\x0f\x00\x0e\x02\x00\x0b",
    ),
    (2, b"\x00\x0b\x01\x00\x06\x01\x00\x0e\x04\x00\x07\x00\x0f"),
    (
        3,
        b"\x00\x17\x00\x00\x07\x00\x06\x00\x00\x0f\x00\x0e\x01\x00\x16\x01\x00\x03",
    ),
    (
        3,
        b"\x00\x16\x00\x00\x07\x00\x06\x04\x00\x0f\x00\x0e\x00\x00\x17\x00\x13",
    ),
    (
        3,
        b"\x00\x13\x00\x00\x17\x00\x16\x03\x00\x0f\x00\x0e\x01\x00\x06",
    ),
];

fn plan(v: usize) -> (usize, &'static [u8])
    requires { v < 16 }
    ensures count { result.0 ≡ slice_index blocks v }
    ensures few { result.0 ≤ 3 }
    ensures cells { (i : ℕ) → flat_map (cell_bytes i) result.1.now ≡ content i (128 + v) }
{
    PLANS[v]
}

// The table of each node of a block.
static SLOTS: [usize; 8] = [5, 5, 6, 7, 5, 7, 7, 5];

fn query(w: &[u32; 1440], q: usize, out: &mut [u8], mut at: usize) -> Option<usize>
    requires { q < 4 }
    ensures { Writes out.old at (file_of wide (query_frames (query_of w.now q))) out.new result }
{
    let v = choice(w, 32 + 32 * q);
    let (blocks, last) = plan(v);
    for i in 0..8 * blocks {
        let p = 55 + 64 * q + 2 * i;
        let n = 16 * SLOTS[i % 8] + choice(w, 33 + 32 * q + i);
        at = node(out, at, w[p], w[p + 1], cells(n), i as u32)?;
    }
    line(out, at, 6, last)
}

// How many queries there are, by choice.
static COUNTS: [usize; 16] = [1, 1, 1, 1, 1, 1, 1, 1, 1, 1, 2, 2, 2, 3, 3, 4];

fn queries(w: &[u32; 1440], out: &mut [u8], mut at: usize) -> Option<usize>
    requires { at ≤ length out.old }
    ensures { Writes out.old at (file_of wide (flat_map query_frames (content_of w.now).queries)) out.new result }
{
    for q in 0..COUNTS[choice(w, 27)] {
        at = query(w, q, out, at)?;
    }
    Some(at)
}

fn file(w: &[u32; 1440], out: &mut [u8]) -> Option<usize>
    ensures { Writes out.old 0 (file_of wide (frames_of (content_of w.now))) out.new result }
{
    let at = schema(w, out)?;
    queries(w, out, at)
}

// The file of the seed and zeros after it; or the slice is shorter than the file, and holds zeros.
pub fn make(seed: u32, out: &mut [u8]) -> Option<usize>
    ensures { Makes seed out.old out.new result }
{
    let mut w = [0; 1440];
    fill(seed, &mut w);
    let end = file(&w, out);
    out[end.unwrap_or(0)..].fill(0);
    end
}

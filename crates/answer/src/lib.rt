// The answer's lines, written into a lent slice.
#![tactic(auto)]

ghost use Rattle.std.specs.Prelude.{◌∷◌, ◌++◌, ◌≡◌, ◌≤◌, length, take, drop};
ghost use Rattle.format.specs.Bytes.{hex_line, bytes₂, bytes₄};
ghost use Rattle.writer.specs.Writes.{Writes, hex_of};
ghost use Rattle.answer.specs.Types.{digits, head_some};
ghost use Rattle.answer.specs.Lines.{WritesSlot, WritesNodeLine, WritesNodeLines, WritesLines, WritesUnusedLines, WritesAnswer};

use cells::{Part, Ty};
use resolving::{Script, ty};
use work::{wide, word};
use writer::{byte, close, full, half, tagged};

// `out` and `at` are two parameters: crate writer says why. So are `f` and `w`, where a line is made of both: the run
// that held them (crate state) is over.

// A fact: its shape and its predicate's number, four bytes (card 6). Written out in `head`, it made the writing of
// types take 6 % more instructions; the bar is what it took before.
fn fact(out: &mut [u8], at: usize, p: u32) -> Option<usize>
    ensures { Writes out.old at (hex_of (3 ∷ bytes₄ p)) out.new result }
{
    let at = byte(out, at, 3)?;
    full(out, at, p)
}

// The digits of a type's bytes: shape by shape what spelling writes in words. That is what a `Script` consists of.
pub struct Digits;

#[tactic(auto, unfolding(crate::specs::Types::digits, meaning::specs::Answer::leaf_bytes, meaning::specs::Answer::kind_byte, meaning::specs::Answer::cell_head))]
impl Script for Digits {
    type Cell = u8;

    ghost script = { digits };

    fn head(w: &[u32], out: &mut [u8], at: usize, u: Ty) -> Option<usize> {
        match u {
            Ty::Int => byte(out, at, 0),
            Ty::Str => byte(out, at, 1),
            Ty::Bytes => byte(out, at, 2),
            Ty::Fact(p) => fact(out, at, p),
            Ty::Record(c) => tagged(out, at, 4, cells::count(w, c)),
            Ty::Union(c) => tagged(out, at, 5, cells::count(w, c)),
            Ty::Var(x) => tagged(out, at, 6, x),
            Ty::Error => byte(out, at, 7),
        }
    }

    fn part_head(out: &mut [u8], at: usize, u: Ty, p: &Part) -> Option<usize> {
        match u {
            Ty::Union(_) => {
                let at = half(out, at, p.label)?;
                full(out, at, p.key)
            }
            _ => half(out, at, p.key),
        }
    }

    ghost head_some = { head_some };
}

// What a node was found to be; 255 where it was not visited.
fn slot(w: &[u32], out: &mut [u8], at: usize, n: u32) -> Option<usize>
    ensures { WritesSlot w.now out.old at n out.new result }
{
    match cells::slot(w, work::TYS + 2 * wide(n)) {
        None => byte(out, at, 255),
        Some(t) => ty::<Digits>(w, out, at, t),
    }
}

fn node_line(w: &[u32], out: &mut [u8], at: usize, n: u32) -> Option<usize>
    ensures { WritesNodeLine w.now out.old at n out.new result }
{
    let at = tagged(out, at, 7, n)?;
    let at = slot(w, out, at, n)?;
    close(out, at)
}

// A `for` around one call, as `bindings` of spelling: shared, it would take the call as a function, with a contract for
// it.
fn node_lines(w: &[u32], out: &mut [u8], mut at: usize) -> Option<usize>
    ensures { WritesNodeLines w.now out.old at out.new result }
{
    for n in 0..word(w, work::NODE_COUNT) {
        at = node_line(w, out, at, n)?;
    }
    Some(at)
}

// The line before a query's own lines where the file has several. Two writers in a row, as `full` of writer is.
pub fn number_line(out: &mut [u8], at: usize, k: u32) -> Option<usize>
    ensures { Writes out.old at (hex_line (0x0b ∷ bytes₂ k)) out.new result }
{
    let at = tagged(out, at, 11, k)?;
    close(out, at)
}

// The part up to mid and the part after it change places, by reversals: `rotate_left` takes 4 KiB of stack.
fn exchange(out: &mut [u8], mid: usize)
    requires { mid ≤ length out.old }
    ensures { out.new ≡ drop mid out.old ++ take mid out.old }
{
    out[..mid].reverse();
    out[mid..].reverse();
    out.reverse();
}

// The lines of the nodes go behind those of the diagnostics, which the run left in the slice; then the two blocks
// change places. Where they end.
fn lines(w: &[u32], out: &mut [u8]) -> Option<usize>
    ensures { WritesLines w.now out.old out.new result }
{
    let at = state::place(w);
    if word(w, work::FULL) != 0 || out.len() < at {
        return None;
    }
    let end = node_lines(w, out, at)?;
    exchange(&mut out[..end], at);
    Some(end)
}

// The lines of the entries that left unmarked, in order of leaving.
fn unused_lines(f: &[u8], w: &[u32], out: &mut [u8], mut at: usize) -> Option<usize>
    ensures { WritesUnusedLines f.now w.now out.old at out.new result }
{
    for i in 0..word(w, work::UNUSED_COUNT) {
        at = state::unused_line(f, w, out, at, word(w, work::UNUSED + wide(i)))?;
    }
    Some(at)
}

// The last line of a query's own lines.
fn visits_line(out: &mut [u8], at: usize, visits: u32) -> Option<usize>
    ensures { Writes out.old at (hex_line (0x09 ∷ bytes₄ visits)) out.new result }
{
    let at = byte(out, at, 9)?;
    let at = full(out, at, visits)?;
    close(out, at)
}

// A query's own lines. Where the answer ends.
pub fn write(f: &[u8], w: &[u32], out: &mut [u8], visits: u32) -> Option<usize>
    ensures { WritesAnswer f.now w.now out.old visits out.new result }
{
    let at = lines(w, out)?;
    let at = unused_lines(f, w, out, at)?;
    visits_line(out, at, visits)
}

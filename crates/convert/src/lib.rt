// Card 6: the lines of a file in the other edition. A line that names a predicate has two bytes more in the wide
// edition, the number's upper half; every other line is the same in both. `out` and `at` are two parameters: crate
// writer says why.
#![tactic(auto)]

ghost use Rattle.std.specs.Prelude.{◌++◌, ◌≡◌};
ghost use Rattle.frames.specs.Promises.{edition_of};
ghost use Rattle.convert.specs.Lines.{Placed, WritesLine, ConvertsLine, ConvertsLines, NamesFrom, SomeFrom, SomeAbove};

use frames::{Edition, byte, full};
use work::Counters;
use writer::{close, text};

// Where the line's predicate number starts, if it has one: after the shape byte of a type or of a node. By the file's
// bytes: of lines that were read it has each to tell kind and shape at once.
#[tactic(auto, using(crate::proofs::Places::placing))]
fn place(s: &[u8]) -> Option<usize>
    ensures { Placed s.now result }
{
    match byte(s, 0) {
        3 if byte(s, 1) == 3 && 4 <= s.len() => Some(2),
        5 if byte(s, 9) == 13 && 12 <= s.len() => Some(10),
        _ => None,
    }
}

// Three pieces as one line.
fn line(out: &mut [u8], at: usize, a: &[u8], b: &[u8], c: &[u8]) -> Option<usize>
    ensures { WritesLine out.old at (a.now ++ (b.now ++ c.now)) out.new result }
{
    let i = text(out, at, a)?;
    let j = text(out, i, b)?;
    let k = text(out, j, c)?;
    close(out, k)
}

// A line in the other edition: two zero bytes more before its predicate number, or two bytes less.
#[tactic(auto, using(crate::proofs::Places::converting))]
fn convert_line(out: &mut [u8], at: usize, s: &[u8], edition: Edition) -> Option<usize>
    ensures { ConvertsLine (edition_of edition) out.old at s.now out.new result }
{
    let Some(i) = place(s) else {
        return line(out, at, &[], &[], s);
    };
    match edition {
        Edition::Narrow => line(out, at, &s[..i], &[0, 0], &s[i..]),
        Edition::Wide => line(out, at, &s[..i], &[], &s[i + 2..]),
    }
}

// All lines of a file that was read.
pub fn convert(file: &[u8], out: &mut [u8], edition: Edition) -> Option<usize>
    ensures { ConvertsLines (edition_of edition) file.now out.old out.new result }
{
    let mut line = [0u8; Counters::LINE];
    let mut at = 0;
    let mut to = 0;
    // Each line starts where `decode` says that the one before ends: no iterator, as crate reading says.
    while at < file.len() {
        let (n, next) = frames::decode(file, at, &mut line)?;
        to = convert_line(out, to, &line[..n], edition)?;
        at = next;
    }
    Some(to)
}

// Whether the line of a wide file names a predicate by this number or a higher one.
fn names_from(s: &[u8], least: u32) -> bool
    ensures { NamesFrom s.now least result }
{
    place(s).is_some_and(|i| least <= full(s, i))
}

// Whether a line of a wide file does.
#[tactic(auto, using(crate::proofs::Walking::seeking))]
pub fn some_from(file: &[u8], least: u32) -> bool
    ensures { SomeFrom file.now least result }
{
    let mut line = [0u8; Counters::LINE];
    let mut at = 0;
    // The place goes on by what `decode` gives, as above.
    while let Some((n, next)) = frames::decode(file, at, &mut line) {
        if names_from(&line[..n], least) {
            return true;
        }
        at = next;
    }
    false
}

// 14: whether a line of a wide file names a predicate above 65,535.
#[tactic(auto, unfolding(editions::specs::Converted::some_above, editions::specs::Converted::is_above))]
pub fn some_above(file: &[u8]) -> bool
    ensures { SomeAbove file.now result }
{
    some_from(file, 65536)
}

// Name lines: the text, and whether it was given before.
ghost use Rattle.std.specs.Prelude.{◌≡◌, ℕ, ◌+◌, ◌<◌, ◌≤◌, ◌↔◌, IsTrue, length, get_or, drop};
ghost use Rattle.frames.specs.Promises.{full_w};
ghost use Rattle.reading.specs.Prints.{print_of};
ghost use Rattle.reading.specs.OfLines.{GivenBeforeIn, TakesNameOf};

use crate::decoded::Line;
use crate::{Counters, Refusal};
use work::{name_place, name_word, put, wide, word};

// 2^32 by the golden ratio: products of numbers that are near one another lie far apart.
const FACTOR: u32 = 2_654_435_769;

// The four bytes at i as one number: `frames::full` tests for each whether it is there.
#[tactic(auto, unfolding(frames::specs::Promises::full_w, frames::specs::Promises::half_w))]
fn four(s: &[u8], i: usize) -> u32
    requires { i + 4 ≤ length s.now }
    ensures { result ≡ full_w s.now i }
{
    u32::from_be_bytes([s[i], s[i + 1], s[i + 2], s[i + 3]])
}

// A number made of all of a text: texts that differ seldom have the same. Four bytes at a time, the last four first; of
// the last product the upper half, on which each bit bears.
#[tactic(auto, unfolding(crate::specs::Prints::mixed, crate::specs::Prints::print_of))]
fn print_of(s: &[u8]) -> u16
    ensures { result ≡ print_of s.now }
{
    let last = match s.len().checked_sub(4) {
        Some(last) => four(s, last),
        None => frames::full(s, 0),
    };
    let mut mixed = last.wrapping_mul(FACTOR);
    for k in 0..s.len() / 4 {
        mixed = mixed.wrapping_add(four(s, 4 * k)).wrapping_mul(FACTOR);
    }
    (mixed / 65536) as u16
}

// Whether none of sixteen prints is this. It goes on where one is, so that the processor compares all at once.
fn none_has(prints: &[u16; Counters::NAMES as usize], i: usize, print: u16) -> bool
    requires { i + 16 ≤ length prints.now }
    ensures { IsTrue result ↔ ((k : ℕ) → k < 16 → ¬ (get_or prints.now (i + k) 0 ≡ print)) }
{
    let mut found = false;
    for k in 0..16 {
        found |= prints[i + k] == print;
    }
    !found
}

// The line's text has this print. Only names with the same are compared with it, and most blocks of sixteen have none:
// an earlier name costs one instruction. Out of line, so that the loop over the blocks keeps its registers.
#[inline(never)]
fn given_before(
    line: Line,
    w: &[u32],
    prints: &[u16; Counters::NAMES as usize],
    names: u32,
    print: u16,
) -> bool
    requires { (names < 256) × (print ≡ print_of (drop 1 line.bytes.now)) }
    ensures { GivenBeforeIn line.entry w.now prints.now names result }
{
    let names = wide(names);
    let digits = line.digits();
    for b in 0..names.div_ceil(16) {
        if none_has(prints, 16 * b, print) {
            continue;
        }
        for j in 16 * b..names.min(16 * b + 16) {
            if prints[j] != print {
                continue;
            }
            let Some(earlier) = line.file.get(wide(name_place(word(w, work::NAMES + j)))..) else {
                continue;
            };
            if earlier.starts_with(digits) {
                return true;
            }
        }
    }
    false
}

pub fn take_name(
    line: Line,
    w: &mut [u32],
    prints: &mut [u16; Counters::NAMES as usize],
    c: Counters,
) -> Result<Counters, Refusal>
    requires { c.names < 256 }
    ensures { TakesNameOf line.entry w.old prints.old c w.new prints.new result }
{
    let text = &line.bytes[1..];
    let chars = text::characters(text).ok_or(Refusal::BrokenText)?;
    let print = print_of(text);
    if given_before(line, w, prints, c.names, print) {
        return Err(Refusal::NameGivenBefore);
    }
    let n = c.names;
    put(w, work::NAMES + wide(n), name_word(line.at, chars));
    prints[wide(n)] = print;
    Ok(Counters {
        names: n + 1,
        value: if text == b"value".as_slice() {
            Some(n)
        } else {
            c.value
        },
        ..c
    })
}

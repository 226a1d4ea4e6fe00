// Card 14: whether the queries of an old file keep their answers in a new one. Files and slice are parameters, as in
// crate driver.
#![tactic(auto)]

ghost use Rattle.std.specs.Prelude.{[], ◌∷◌, ◌≡◌};
ghost use Rattle.format.specs.Bytes.{hex_line};
ghost use Rattle.growth.specs.Promises.{number, ComparesFiles, ChecksGrowth};
ghost use Rattle.growth.specs.Lines.{TellsBeside, TellsAdded};

use frames::byte;
use reading::{Counters, Edition};

// The first premise that fails, by card 14's number.
#[derive(Clone, Copy)]
pub enum Premise {
    OldRefused = 1,
    NewRefused = 2,
    OtherChange = 3,
    NamesAbsent = 4,
}

// A line of the new file beside one of the old.
#[derive(Drop)]
pub enum Beside {
    Same,
    Added,
    Other,
}

// An added line is a name, a type or a predicate, of a kind that the old file has left behind.
// The order of lines is that of their kinds' bytes, as card 14 has it.
fn line_beside(a: &[u8], b: &[u8]) -> Beside
    ensures { TellsBeside a.now b.now result }
{
    if a == b {
        return Beside::Same;
    }
    match byte(b, 0) {
        kind @ 2..=4 if kind < byte(a, 0) => Beside::Added,
        _ => Beside::Other,
    }
}

// Whether the new file is the old one with additions. Both were read. Lines are in lower case and have no blanks, so
// equal frames are equal lines.
fn only_added(old: &[u8], new: &[u8]) -> bool
    ensures { TellsAdded old.now new.now result }
{
    let mut a = [0u8; Counters::LINE];
    let mut b = [0u8; Counters::LINE];
    let mut i = 0;
    let mut j = 0;
    // Each line starts where `decode` says that the one before ends, and the old file may stand still: no iterator, as
    // crate reading says.
    while let Some((m, after)) = frames::decode(new, j, &mut b) {
        let Some((n, next)) = frames::decode(old, i, &mut a) else {
            return false;
        };
        match line_beside(&a[..n], &b[..m]) {
            Beside::Same => i = next,
            Beside::Added => {}
            Beside::Other => return false,
        }
        j = after;
    }
    old.len() <= i && new.len() <= j
}

// The work slice holds anything afterwards.
fn compare(old: &[u8], new: &[u8], work: &mut [u32]) -> Result<(), Premise>
    ensures { ComparesFiles old.now new.now work.old work.new result }
{
    reading::read_file(old, work, Edition::Wide).or(Err(Premise::OldRefused))?;
    let predicates = work::word(work, work::PREDICATE_COUNT);
    reading::read_file(new, work, Edition::Wide).or(Err(Premise::NewRefused))?;
    if !only_added(old, new) {
        return Err(Premise::OtherChange);
    }
    if convert::some_from(old, predicates) {
        return Err(Premise::NamesAbsent);
    }
    Ok(())
}

pub fn check_growth(old: &[u8], new: &[u8], work: &mut [u32]) -> Result<(), Premise>
    ensures { ChecksGrowth old.now new.now work.old work.new result }
{
    let r = compare(old, new, work);
    work::clear(work);
    r
}

// The card's number, which the library in C gives too: 0 where no premise fails.
pub fn premises_number(p: Result<(), Premise>) -> u8
    ensures { result ≡ number p }
{
    match p {
        Ok(()) => 0,
        Err(premise) => premise as u8,
    }
}

// The line that the program prints.
pub fn premises_line(p: Result<(), Premise>) -> [u8; 3]
    ensures { result ≡ hex_line (number p ∷ []) }
{
    [b'0', b'0' + premises_number(p), b'\n']
}

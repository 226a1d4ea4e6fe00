// Prints the file of the seed that the argument is: decimal digits, a number below 2^32.
#![tactic(auto)]

ghost use Rattle.std.specs.Prelude.{◌≡◌, OnOk};
ghost use Rattle.std.specs.Io.KnownBytes.{Appends};
ghost use Rattle.std.specs.Process.{exit_status};
ghost use Rattle.input.specs.Gains.{GainsFrontOf};
ghost use Rattle.input.specs.Numbers.{decimal};
ghost use Rattle.testload.specs.Rule.{load_file};
ghost use Rattle.sigla_load.specs.Promises.{file_of_number, load_text, LoadEnds, NumberEnds};

use input::{Failure, Page, Request};
use std::env::Env;
use std::io::Write;
use std::process::ExitCode;

const PAGE: Page = Page {
    name: "sigla_load",
    usage: "usage: sigla_load SEED",
    help: "usage: sigla_load SEED

Prints the test file of a seed, a number below 4294967296 in decimal digits.
",
};

// A file is never longer than the slice (crates/testload/proofs/Promise.antt, `load_short`).
fn write_file<W: Write>(seed: u32, to: &mut W) -> Result<(), Failure>
    ensures whole { OnOk result (Appends (W.contents to.old) (W.contents to.new) (load_file seed)) }
    ensures front { GainsFrontOf (W.contents to.old) (W.contents to.new) (load_file seed) }
{
    let mut out = [0; 8255];
    match generator::make(seed, &mut out) {
        Some(n) => input::write(to, &out[..n]),
        None => Err(Failure::Writing),
    }
}

// The file of the number that the word is.
fn print<W: Write>(rt: &impl Eprint, page: &Page, word: &[u8], to: &mut W) -> ExitCode
    ensures whole { let text = file_of_number (decimal word.now) in
        exit_status result ≡ 0 → Appends (W.contents to.old) (W.contents to.new) text }
    ensures front { let text = file_of_number (decimal word.now) in
        GainsFrontOf (W.contents to.old) (W.contents to.new) text }
    ensures ends { NumberEnds (decimal word.now) (exit_status result) }
{
    match input::number(word) {
        Some(seed) => {
            let outcome = write_file(seed, to);
            input::ending(rt, outcome)
        }
        None => input::mistaken(rt, page),
    }
}

// The program but for its `main`. Where the status is 0, what was written is the seed's file and nothing else; whatever
// the status, it is a part of that from its start.
fn run<W: Write>(
    rt: &impl Eprint,
    request: Request,
    page: &Page,
    word: &[u8],
    to: &mut W,
) -> ExitCode
    ensures whole { let text = load_text page.now request word.now in
        exit_status result ≡ 0 → Appends (W.contents to.old) (W.contents to.new) text }
    ensures front { let text = load_text page.now request word.now in
        GainsFrontOf (W.contents to.old) (W.contents to.new) text }
    ensures ends { LoadEnds request word.now (exit_status result) }
{
    match request {
        Request::Answer => print(rt, page, word, to),
        Request::About(about) => input::tell(rt, about, page, to),
    }
}

fn main(rt: HostRuntime) -> ExitCode {
    let mut word = [0; 4096];
    // A word that is too long for the slice is no seed.
    let n = rt.arg(1, &mut word).unwrap_or(0);
    let request = input::requested(&rt, Some(1));
    run(&rt, request, &PAGE, &word[..n], &mut rt.stdout())
}

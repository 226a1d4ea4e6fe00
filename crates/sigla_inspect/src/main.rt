// Reads standard input, and prints what the plain solver answers at the entry to `unify` of the argument's number, from 0; after a
// success its bindings too, each in a line of its own.
#![tactic(auto)]

ghost use Rattle.std.specs.Prelude.{◌≡◌, length, IfSome, OnOk};
ghost use Rattle.std.specs.Io.KnownBytes.{Appends};
ghost use Rattle.std.specs.Process.{exit_status};
ghost use Rattle.input.specs.Gains.{GainsFrontOf};
ghost use Rattle.input.specs.Numbers.{decimal};
ghost use Rattle.inspect.specs.Inspect as Defined;
ghost use Rattle.inspect.specs.Inspect.{lent_after};
ghost use Rattle.inspect.specs.Promises.{ToldInspected};
ghost use Rattle.sigla_inspect.specs.Text.{inspect_text};
ghost use Rattle.sigla_inspect.specs.Promises.{HandsOver, words_bound, text_at, text_of_number, asked_text, NumberEnds, InspectEnds};

mod bindings;

use input::{Failure, Page, Request};
use inspect::Inspected;
use std::env::Env;
use std::io::{Read, Write};
use std::process::ExitCode;
use unify::Purse;

const PAGE: Page = Page {
    name: "sigla_inspect",
    usage: "usage: sigla_inspect NUMBER < FILE",
    help: "usage: sigla_inspect NUMBER < FILE

Solves the unification of that number, from 0, of a file's run in the plain way:
prints the line 0e01 and the bindings, or the line 0e00, 0e02 or 0e03, or the
line 0f with the number of the refusal.
",
};

// How many words of the lent slice hold bindings.
fn words_bound(inspected: Inspected) -> usize
    ensures { result ≡ words_bound inspected }
{
    match inspected {
        Inspected::Success(n) => n,
        _ => 0,
    }
}

fn write_inspected<W: Write>(to: &mut W, inspected: Inspected, lent: &[u32]) -> Result<(), Failure>
    ensures { (x : Defined.Inspected) → ToldInspected inspected x
        → lent.now ≡ lent_after (length lent.now) x
        → HandsOver (W.contents to.old) (W.contents to.new) result (inspect_text x) }
{
    input::write(to, &inspect::line(inspected))?;
    let end = words_bound(inspected).min(lent.len());
    bindings::write_bindings(to, &lent[..end])
}

// One byte more is read than a file may have, so that a longer one is refused.
fn answer<R: Read, W: Write>(number: u32, from: &mut R, to: &mut W) -> Result<(), Failure>
    ensures whole { OnOk result (IfSome (R.remaining from.old)
        (λ f. Appends (W.contents to.old) (W.contents to.new) (text_at number f))) }
    ensures front { IfSome (R.remaining from.old)
        (λ f. GainsFrontOf (W.contents to.old) (W.contents to.new) (text_at number f)) }
{
    let mut file = [0; 65537];
    let mut work = [0; 16384];
    let mut lent = [0; 65536];
    let n = input::read(from, &mut file)?;
    let mut purse = Purse::full(0);
    let inspected = inspect::inspect(&file[..n], number, &mut work, &mut lent, &mut purse);
    write_inspected(to, inspected, &lent)
}

// At the entry of the number that the word is.
fn print<R: Read, W: Write>(
    rt: &impl Eprint,
    page: &Page,
    word: &[u8],
    from: &mut R,
    to: &mut W,
) -> ExitCode
    ensures whole { let text = text_of_number (decimal word.now) in exit_status result ≡ 0
        → IfSome (R.remaining from.old) (λ f. Appends (W.contents to.old) (W.contents to.new) (text f)) }
    ensures front { let text = text_of_number (decimal word.now) in
        IfSome (R.remaining from.old) (λ f. GainsFrontOf (W.contents to.old) (W.contents to.new) (text f)) }
    ensures ends { NumberEnds (decimal word.now) (exit_status result) }
{
    match input::number(word) {
        Some(number) => {
            let outcome = answer(number, from, to);
            input::ending(rt, outcome)
        }
        None => input::mistaken(rt, page),
    }
}

// The program but for its `main`. Where the status is 0, what was written is what the definition prints for all that
// was there to be read, and nothing else; whatever the status, it is a part of that from its start.
fn run<R: Read, W: Write>(
    rt: &impl Eprint,
    request: Request,
    page: &Page,
    word: &[u8],
    from: &mut R,
    to: &mut W,
) -> ExitCode
    ensures whole { let text = asked_text page.now request word.now in exit_status result ≡ 0
        → IfSome (R.remaining from.old) (λ f. Appends (W.contents to.old) (W.contents to.new) (text f)) }
    ensures front { let text = asked_text page.now request word.now in
        IfSome (R.remaining from.old) (λ f. GainsFrontOf (W.contents to.old) (W.contents to.new) (text f)) }
    ensures ends { InspectEnds request word.now (exit_status result) }
{
    match request {
        Request::Answer => print(rt, page, word, from, to),
        Request::About(about) => input::tell(rt, about, page, to),
    }
}

fn main(rt: HostRuntime) -> ExitCode {
    let mut word = [0; 4096];
    // One that is too long for the slice is no number, as none is.
    let n = rt.arg(1, &mut word).unwrap_or(0);
    let request = input::requested(&rt, Some(1));
    run(
        &rt,
        request,
        &PAGE,
        &word[..n],
        &mut rt.stdin(),
        &mut rt.stdout(),
    )
}

// What the words after a program's name ask of it, what it says of itself, and how it ends.
ghost use Rattle.std.specs.Prelude.{◌≡◌, ℕ, ◌≤◌, ◌<◌, length, OnOk, OnErr, Err};
ghost use Rattle.std.specs.Io.KnownBytes.{Appends};
ghost use Rattle.std.specs.Process.{exit_status};
ghost use Rattle.input.specs.declared.Failure.{Failure};
ghost use Rattle.input.specs.Gains.{GainsFrontOf};
ghost use Rattle.input.specs.Endings.{asked_of, status_of, Ends, text_about, version_line};

use crate::{Failure, write};
use std::env::{Env, FillError};
use std::io::Write;
use std::process::ExitCode;

/// The version of all that the repository builds: tools/version writes it here.
pub const VERSION: &str = "0.3.0";

// The exit status where the words after the program's name are not those that it takes.
const MISTAKEN: u8 = 2;

/// What the words after a program's name ask of it.
#[derive(Clone, Copy, Drop)]
pub enum Request {
    /// What the program is for.
    Answer,
    About(About),
}

/// What a program says of itself.
#[derive(Clone, Copy, Drop)]
pub enum About {
    Help,
    Version,
    /// How to call it, where the words are not those that it takes.
    Usage,
}

/// The texts of a program.
#[derive(Drop)]
pub struct Page<'a> {
    pub name: &'a str,
    /// One line, without its end.
    pub usage: &'a str,
    /// All that `--help` prints.
    pub help: &'a str,
}

/// What the words after the program's name ask, where it takes so many; a program with `None` looks at none of them.
pub fn requested(rt: &impl Env, takes: Option<usize>) -> Request {
    let mut first = [0; 16];
    let n = rt.arg(1, &mut first).unwrap_or(0);
    asked(&first[..n], words(rt), takes)
}

// How many words there are: none, one, or two where there are more.
fn words(rt: &impl Env) -> usize {
    let mut words = 0;
    for i in 1..3 {
        if is_there(rt, i) {
            words = i;
        }
    }
    words
}

fn is_there(rt: &impl Env, i: usize) -> bool {
    // One that is too long for the slice is there.
    !matches!(rt.arg(i, &mut []), Err(FillError::NotPresent))
}

fn asked(first: &[u8], words: usize, takes: Option<usize>) -> Request
    ensures { result ≡ asked_of first.now words takes }
{
    if words == 1 && first == b"--help".as_slice() {
        return Request::About(About::Help);
    }
    if words == 1 && first == b"--version".as_slice() {
        return Request::About(About::Version);
    }
    match takes {
        Some(n) if words != n => Request::About(About::Usage),
        _ => Request::Answer,
    }
}

/// What failed is a line on standard error, and status 1: where that fails too, there is no one left to tell.
pub fn failed(rt: &impl Eprint, line: &str) -> ExitCode
    ensures { exit_status result ≡ 1 }
{
    let _ = rt.eprintln(line);
    ExitCode::FAILURE
}

/// How a program ends that reads standard input and writes standard output.
pub fn ending(rt: &impl Eprint, outcome: Result<(), Failure>) -> ExitCode
    ensures { exit_status result ≡ status_of outcome }
{
    match outcome {
        Ok(()) => ExitCode::SUCCESS,
        Err(Failure::Reading) => failed(rt, "reading standard input failed"),
        Err(Failure::Writing) => failed(rt, "writing standard output failed"),
    }
}

/// How a program ends that is called with words that it does not take: how to call it is a line on standard error.
pub fn mistaken(rt: &impl Eprint, page: &Page) -> ExitCode
    ensures { exit_status result ≡ 2 }
{
    let _ = rt.eprintln(page.usage);
    ExitCode::from(MISTAKEN)
}

/// How a program ends that is asked about itself.
pub fn tell<W: Write>(rt: &impl Eprint, about: About, page: &Page, to: &mut W) -> ExitCode
    ensures whole { exit_status result ≡ 0 → Appends (W.contents to.old) (W.contents to.new) (text_about page.now about) }
    ensures front { GainsFrontOf (W.contents to.old) (W.contents to.new) (text_about page.now about) }
    ensures ends { Ends about (exit_status result) }
{
    match about {
        About::Help => {
            let outcome = write(to, page.help.as_bytes());
            ending(rt, outcome)
        }
        About::Version => {
            let outcome = write_version(to, page.name);
            ending(rt, outcome)
        }
        About::Usage => mistaken(rt, page),
    }
}

fn write_version<W: Write>(to: &mut W, name: &str) -> Result<(), Failure>
    ensures whole { OnOk result (Appends (W.contents to.old) (W.contents to.new) (version_line name.now)) }
    ensures front { GainsFrontOf (W.contents to.old) (W.contents to.new) (version_line name.now) }
{
    write(to, name.as_bytes())?;
    write(to, b" ")?;
    write(to, VERSION.as_bytes())?;
    write(to, b"\n")
}

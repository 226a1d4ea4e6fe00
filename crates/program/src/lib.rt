// The programs but for their `main`: what is printed for a file, and the reading and writing around it. A `main` gives
// standard input. The file and both slices go as the calls take them.
#![tactic(auto)]

ghost use Rattle.std.specs.Prelude.{◌≡◌, ◌≤◌, length, Err, OnOk};
ghost use Rattle.std.specs.Io.KnownBytes.{Keeps};
ghost use Rattle.std.specs.Process.{exit_status};
ghost use Rattle.input.specs.declared.Failure.{Failure};
ghost use Rattle.input.specs.Endings.{asked_lines, EndsBy};
ghost use Rattle.meaning.specs.Outcome.{min_words};
ghost use Rattle.driver.specs.Promises.{Finishes};
ghost use Rattle.program.specs.Promises.{decided_by, Prints, PrintsLamp, lines_by, lamp_lines, Writes, WritesFront};

use input::{Failure, Page, Request};
use reading::Refusal;
use std::io::{Read, Write};
use std::process::ExitCode;
use unify::Purse;

// What a program does with its file.
#[derive(Drop)]
pub enum Job {
    Check,
    Widen,
    Narrow,
}

fn done(job: Job, file: &[u8], work: &mut [u32], out: &mut [u8]) -> Result<usize, Refusal>
    ensures { Finishes (decided_by job file.now (length work.old)) work.old out.old work.new out.new result }
{
    // Three calls that `decided_by` names one by one: as closures they would bring their contracts to each caller.
    match job {
        Job::Check => driver::check_file(file, work, out, &mut Purse::full(0)),
        Job::Widen => converters::widen(file, work, out),
        Job::Narrow => converters::narrow(file, work, out),
    }
}

// What is to be printed for the file stands at the start of `out`, and how long it is comes back.
pub fn printed(job: Job, file: &[u8], work: &mut [u32; 16384], out: &mut [u8; 65536]) -> usize
    ensures prints { Prints (decided_by job file.now min_words) work.new out.new result }
    ensures upper_bound { result ≤ length out.new }
{
    match done(job, file, work, out) {
        Ok(n) => n,
        Err(e) => {
            let line = driver::refusal_line(e);
            out[..line.len()].copy_from_slice(&line);
            line.len()
        }
    }
}

// The lamp's line for the file.
pub fn lamp_line(file: &[u8], work: &mut [u32; 16384]) -> [u8; 5]
    ensures { PrintsLamp file.now work.new result }
{
    let l = lamp::lamp(file, work, &mut Purse::full(0));
    let s = l.signal;
    lamp::line(s)
}

// What `from` gives is the file. One byte more is read than a file may have, so that a longer one is refused. After a
// failed read nothing was written.
fn answer<R: Read, W: Write>(from: &mut R, to: &mut W, job: Job) -> Result<(), Failure>
    ensures whole { OnOk result (Writes R.remaining W.contents (lines_by job) from.old to.old to.new) }
    ensures front { WritesFront R.remaining W.contents (lines_by job) from.old to.old to.new }
    ensures none { result ≡ Err Failure.Reading → Keeps (W.contents to.old) (W.contents to.new) }
{
    let mut file = [0; 65537];
    let mut work = [0; 16384];
    let mut out = [0; 65536];
    let n = input::read(from, &mut file)?;
    let m = printed(job, &file[..n], &mut work, &mut out);
    input::write(to, &out[..m])
}

// The lamp of the file that `from` gives.
fn light<R: Read, W: Write>(from: &mut R, to: &mut W) -> Result<(), Failure>
    ensures whole { OnOk result (Writes R.remaining W.contents lamp_lines from.old to.old to.new) }
    ensures front { WritesFront R.remaining W.contents lamp_lines from.old to.old to.new }
    ensures none { result ≡ Err Failure.Reading → Keeps (W.contents to.old) (W.contents to.new) }
{
    let mut file = [0; 65537];
    let mut work = [0; 16384];
    let n = input::read(from, &mut file)?;
    input::write(to, &lamp_line(&file[..n], &mut work))
}

/// A program but for its name: a `main` gives standard input and standard output. Where the status is 0, what was
/// written is what the definition prints for all that was there to be read, and nothing else; whatever the status, it
/// is a part of that from its start.
pub fn run<R: Read, W: Write>(
    rt: &impl Eprint,
    request: Request,
    page: &Page,
    from: &mut R,
    to: &mut W,
    job: Job,
) -> ExitCode
    ensures whole { let lines = asked_lines page.now request (lines_by job) in
        exit_status result ≡ 0 → Writes R.remaining W.contents lines from.old to.old to.new }
    ensures front { let lines = asked_lines page.now request (lines_by job) in
        WritesFront R.remaining W.contents lines from.old to.old to.new }
    ensures ends { EndsBy request (exit_status result) }
{
    match request {
        Request::Answer => {
            let outcome = answer(from, to, job);
            input::ending(rt, outcome)
        }
        Request::About(about) => input::tell(rt, about, page, to),
    }
}

/// The same for the lamp.
pub fn run_lamp<R: Read, W: Write>(
    rt: &impl Eprint,
    request: Request,
    page: &Page,
    from: &mut R,
    to: &mut W,
) -> ExitCode
    ensures whole { let lines = asked_lines page.now request lamp_lines in
        exit_status result ≡ 0 → Writes R.remaining W.contents lines from.old to.old to.new }
    ensures front { let lines = asked_lines page.now request lamp_lines in
        WritesFront R.remaining W.contents lines from.old to.old to.new }
    ensures ends { EndsBy request (exit_status result) }
{
    match request {
        Request::Answer => {
            let outcome = light(from, to);
            input::ending(rt, outcome)
        }
        Request::About(about) => input::tell(rt, about, page, to),
    }
}

// A body that only fails meets each clause: that what comes in pieces is answered, and what a failed read leaves.
#[cfg(test)]
mod tests {
    use super::{Job, run};
    use input::{Page, Request};
    use std::io;
    use std::io::{ErrorKind, Read};
    use std::process::ExitCode;

    const PAGE: Page = Page {
        name: "tests",
        usage: "",
        help: "",
    };

    // Gives a byte at a time, and then an end or a failure.
    #[derive(Drop)]
    struct Pieces {
        rest: &'static [u8],
        fails: bool,
    }

    impl Read for Pieces {
        fn read(&mut self, buf: &mut [u8]) -> io::Result<usize> {
            if self.rest.is_empty() && self.fails {
                return Err(io::Error::from(ErrorKind::Other));
            }
            let n = buf.len().min(1);
            self.rest.read(&mut buf[..n])
        }
    }

    #[test]
    fn answers_what_comes_in_pieces(rt: HostRuntime) {
        for (fails, code, answer) in [
            (false, ExitCode::SUCCESS, "07000000\n0900000000\n"),
            (true, ExitCode::FAILURE, ""),
        ] {
            let rest = b"01020020\n05000000000000000300\n060000\n";
            let mut from = Pieces { rest, fails };
            let mut to = Vec::new(rt.alloc());
            let ended = run(&rt, Request::Answer, &PAGE, &mut from, &mut to, Job::Check);
            assert!(rt; ended == code, "at {fails}");
            assert_eq!(rt; to.as_slice(), answer.as_bytes());
        }
    }
}

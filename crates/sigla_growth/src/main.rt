// Whether the queries of the file that the first argument names keep their answers in the file that the second one
// names: the line 00, or that of the first premise that fails.
#![tactic(auto)]

ghost use Rattle.std.specs.Prelude.{◌≡◌, ◌≤◌, length, take, Err, IfSome, IsSome, None, Ok, OnOk, Some};
ghost use Rattle.std.specs.Io.{ReadsAtMost};
ghost use Rattle.std.specs.Io.KnownBytes.{ReadConsumes};
ghost use Rattle.std.specs.Process.{exit_status};
ghost use Rattle.input.specs.declared.Failure.{Failure};
ghost use Rattle.input.specs.Endings.{EndsBy};
ghost use Rattle.sigla_growth.specs.Promises.{counted, known, Says, SaysFront, Tells, TellsFront, TellsWithout};

use input::{Failure, Page, Request};
use std::env::Env;
use std::fs::{Files, OpenOptions};
use std::io::{ErrorKind, Read, Write};
use std::process::ExitCode;
use std::{io, str};

const PAGE: Page = Page {
    name: "sigla_growth",
    usage: "usage: sigla_growth OLD NEW",
    help: "usage: sigla_growth OLD NEW

Prints whether the queries of the file OLD keep their answers in the file NEW:
00 where they do, or the first of 01 to 04 that says why not. A file that can't
be opened counts as empty.
",
};

// The file that an argument names; none where it names none, or where it can't be opened. std opens files by text, so a
// name that is no UTF-8 can't be opened. A signal may cut the opening short.
fn open_named<F: Env + Files>(rt: &F, i: usize) -> Option<F::File> {
    let mut name = [0; 4096];
    let n = rt.arg(i, &mut name).ok()?;
    let name = str::from_utf8(&name[..n]).ok()?;
    for _ in 0..u64::MAX {
        match rt.open_file(OpenOptions::new().read(true), name) {
            Ok(file) => return Some(file),
            Err(e) if e.kind() == ErrorKind::Interrupted => {}
            Err(_) => break,
        }
    }
    None
}

// The file that an argument names, opened when it is first read: the old one is read to its end and closed before the
// new one is opened, so that both may come through pipes of one writer. One that can't be opened has no bytes.
#[derive(Drop)]
struct Named<'a, F: Env + Files> {
    rt: &'a F,
    word: usize,
    // None before the first read.
    file: Option<Option<F::File>>,
}

impl<'a, F: Env + Files> Named<'a, F> {
    fn at(rt: &'a F, word: usize) -> Self {
        Named {
            rt,
            word,
            file: None,
        }
    }
}

impl<F: Env + Files> Read for Named<'_, F> {
    // `bound` and `bytes` are the trait's, for a reader whose bytes are not known.
    fn read(&mut self, into: &mut [u8]) -> io::Result<usize>
        ensures bound { ReadsAtMost result into.new }
        ensures bytes { ReadConsumes None None result into.new }
        ensures opened { IsSome self.new.file }
        ensures absent { self.new.file ≡ Some None → result ≡ Ok 0 }
    {
        if self.file.is_none() {
            self.file = Some(open_named(self.rt, self.word));
        }
        match &mut self.file {
            Some(Some(file)) => file.read(into),
            _ => Ok(0),
        }
    }
}

// How much of a file stands at the start of a slice: nothing of it where reading it failed.
#[derive(Drop)]
struct Taken {
    bytes: usize,
    failed: bool,
}

// A file that is not there counts as empty.
fn take_file<R: Read + Drop>(from: Option<R>, into: &mut [u8]) -> Taken
    ensures bound { result.bytes ≤ length into.new }
    ensures front { IfSome (known R.remaining from)
        (λ f. take result.bytes into.new ≡ take (length into.new) (counted result.failed f)) }
{
    let got = match from {
        None => Ok(0),
        Some(mut file) => input::read(&mut file, into),
    };
    match got {
        Ok(bytes) => Taken {
            bytes,
            failed: false,
        },
        Err(_) => Taken {
            bytes: 0,
            failed: true,
        },
    }
}

// One byte more is read than a file may have, so that a longer one is refused. The line of a file that can't be read is
// that of an empty one, and the failure is told beside it.
fn compare<R: Read + Drop, W: Write>(
    old: Option<R>,
    new: Option<R>,
    to: &mut W,
) -> Result<(), Failure>
    ensures whole { OnOk result (Tells R.remaining W.contents old new to.old to.new) }
    ensures without { result ≡ Err Failure.Reading → TellsWithout R.remaining W.contents old new to.old to.new }
    ensures front { TellsFront R.remaining W.contents old new to.old to.new }
{
    let mut old_file = [0; 65537];
    let mut new_file = [0; 65537];
    let mut work = [0; 16384];
    let n = take_file(old, &mut old_file);
    let m = take_file(new, &mut new_file);
    let p = growth::check_growth(&old_file[..n.bytes], &new_file[..m.bytes], &mut work);
    let line = growth::premises_line(p);
    input::write(to, &line)?;
    if n.failed || m.failed {
        return Err(Failure::Reading);
    }
    Ok(())
}

// The program but for its `main`. Where the status is 0, the line of both files, to the last byte of each, was written,
// and nothing else.
fn run<R: Read + Drop, W: Write>(
    rt: &impl Eprint,
    request: Request,
    page: &Page,
    old: Option<R>,
    new: Option<R>,
    to: &mut W,
) -> ExitCode
    ensures whole { exit_status result ≡ 0 → Says page.now request R.remaining W.contents old new to.old to.new }
    ensures front { SaysFront page.now request R.remaining W.contents old new to.old to.new }
    ensures ends { EndsBy request (exit_status result) }
{
    match request {
        Request::Answer => match compare(old, new, to) {
            Err(Failure::Reading) => input::failed(rt, "reading a file failed"),
            outcome => input::ending(rt, outcome),
        },
        Request::About(about) => input::tell(rt, about, page, to),
    }
}

fn main(rt: HostRuntime) -> ExitCode {
    let request = input::requested(&rt, None);
    let old = Some(Named::at(&rt, 1));
    let new = Some(Named::at(&rt, 2));
    run(&rt, request, &PAGE, old, new, &mut rt.stdout())
}

// Which line is told of which files, a failed read's among them: that a body may fail always, no clause says.
#[cfg(test)]
mod tests {
    use super::{PAGE, run};
    use input::Request;
    use std::io;
    use std::io::{ErrorKind, Read};
    use std::process::ExitCode;

    const OLD: &[u8] = b"01020020\n05000000000000000300\n060000\n";

    // With other limits.
    const OTHER: &[u8] = b"01020021\n05000000000000000300\n060000\n";

    // With a fact of predicate 0, and no predicate.
    const ABSENT: &[u8] =
        b"01020020\n05000000000000000004\n0500000000000000000d000000000000\n060001\n";

    // A file, or one of which a read fails.
    #[derive(Drop)]
    struct Lent {
        bytes: &'static [u8],
        fails: bool,
    }

    impl Read for Lent {
        fn read(&mut self, buf: &mut [u8]) -> io::Result<usize> {
            if self.fails {
                return Err(io::Error::from(ErrorKind::IsADirectory));
            }
            self.bytes.read(buf)
        }
    }

    fn holding(bytes: &'static [u8]) -> Option<Lent> {
        Some(Lent {
            bytes,
            fails: false,
        })
    }

    fn failing() -> Option<Lent> {
        Some(Lent {
            bytes: OLD,
            fails: true,
        })
    }

    #[test]
    fn tells_the_first_premise(rt: HostRuntime) {
        for (old, new, line, code) in [
            (holding(OLD), holding(OLD), "00\n", ExitCode::SUCCESS),
            (holding(b""), holding(OLD), "01\n", ExitCode::SUCCESS),
            (None, holding(OLD), "01\n", ExitCode::SUCCESS),
            (holding(OLD), None, "02\n", ExitCode::SUCCESS),
            (holding(OLD), holding(OTHER), "03\n", ExitCode::SUCCESS),
            (holding(ABSENT), holding(ABSENT), "04\n", ExitCode::SUCCESS),
            (failing(), holding(OLD), "01\n", ExitCode::FAILURE),
            (holding(OLD), failing(), "02\n", ExitCode::FAILURE),
        ] {
            let mut to = Vec::new(rt.alloc());
            let ended = run(&rt, Request::Answer, &PAGE, old, new, &mut to);
            assert!(rt; ended == code, "at {line}");
            assert_eq!(rt; to.as_slice(), line.as_bytes());
        }
    }
}

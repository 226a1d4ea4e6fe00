// What the programs share: how they read and write, what their arguments ask of them, and how they end.
#![tactic(auto)]

ghost use Rattle.std.specs.Prelude.{◌≡◌, ◌≢◌, ◌≤◌, ◌<◌, length, take, Err, IfErr, IfOk, IfSome, OnErr, OnOk};
ghost use Rattle.std.specs.Io.{ReadsAtMost, WritesAtMost};
ghost use Rattle.std.specs.Io.KnownBytes.{Appends, Consumes, IsAtEnd, Keeps, ReadConsumes, WriteAppends};
ghost use Rattle.std.specs.IoError.{error_kind};
ghost use Rattle.input.specs.declared.Failure.{Failure};
ghost use Rattle.input.specs.Gains.{GainsFrontOf};
ghost use Rattle.input.specs.Numbers.{decimal};

mod requests;

pub use requests::{About, Page, Request, VERSION, ending, failed, mistaken, requested, tell};
use std::io::{ErrorKind, Read, Write};
use std::{io, str};

/// What failed, where something did.
#[derive(Drop)]
pub enum Failure {
    Reading,
    Writing,
}

/// Takes a reader's bytes to their end, or as many as the slice holds: how many stand at its start, and not that part,
/// so that the slice comes back to its owner. After a failure it holds anything. `front` follows from `bytes` and
/// `end`: it is what the programs' promises are about.
pub fn read<R: Read>(from: &mut R, into: &mut [u8]) -> Result<usize, Failure>
    ensures bound { IfOk result (λ n. n ≤ length into.new) }
    ensures bytes { IfOk result (λ n. Consumes (R.remaining from.old) (R.remaining from.new) (take n into.new)) }
    ensures end { IfOk result (λ n. n < length into.new → IsAtEnd (R.remaining from.new)) }
    ensures front { IfOk result (λ n. IfSome (R.remaining from.old) (λ s. take n into.new ≡ take (length into.new) s)) }
    ensures fails { OnErr result (result ≡ Err Failure.Reading) }
{
    let mut n = 0;
    // A read gives as many bytes as it likes, and `read_exact` takes an end before the slice's for an error.
    while n < into.len() {
        match read_some(from, &mut into[n..]) {
            Ok(0) => break,
            Ok(more) => n += more,
            Err(_) => return Err(Failure::Reading),
        }
    }
    Ok(n)
}

/// Hands all of the bytes to a writer, and has it pass on what it holds back. Whatever comes of it, what the writer
/// took is a part of them from their start.
pub fn write<W: Write>(to: &mut W, bytes: &[u8]) -> Result<(), Failure>
    ensures whole { OnOk result (Appends (W.contents to.old) (W.contents to.new) bytes.now) }
    ensures front { GainsFrontOf (W.contents to.old) (W.contents to.new) bytes.now }
    ensures fails { OnErr result (result ≡ Err Failure.Writing) }
{
    let mut n = 0;
    // A write takes as many bytes as it likes. After an error `write_all` says nothing of what was taken.
    while n < bytes.len() {
        match write_some(to, &bytes[n..]) {
            Ok(more) if more > 0 => n += more,
            _ => return Err(Failure::Writing),
        }
    }
    flush(to)
}

// One read, and another where a signal cut it short.
fn read_some<R: Read>(from: &mut R, into: &mut [u8]) -> io::Result<usize>
    ensures bound { ReadsAtMost result into.new }
    ensures bytes { ReadConsumes (R.remaining from.old) (R.remaining from.new) result into.new }
    ensures again { IfErr result (λ e. error_kind e ≢ ErrorKind.Interrupted) }
{
    for _ in 0..u64::MAX {
        match from.read(into) {
            Ok(n) => return Ok(n),
            Err(e) if e.kind() == ErrorKind::Interrupted => {}
            Err(e) => return Err(e),
        }
    }
    Err(io::Error::from(ErrorKind::TimedOut))
}

// The same of a write.
fn write_some<W: Write>(to: &mut W, bytes: &[u8]) -> io::Result<usize>
    ensures bound { WritesAtMost result bytes.now }
    ensures bytes { WriteAppends (W.contents to.old) (W.contents to.new) result bytes.now }
    ensures again { IfErr result (λ e. error_kind e ≢ ErrorKind.Interrupted) }
{
    for _ in 0..u64::MAX {
        match to.write(bytes) {
            Ok(n) => return Ok(n),
            Err(e) if e.kind() == ErrorKind::Interrupted => {}
            Err(e) => return Err(e),
        }
    }
    Err(io::Error::from(ErrorKind::TimedOut))
}

fn flush<W: Write>(to: &mut W) -> Result<(), Failure>
    ensures bytes { Keeps (W.contents to.old) (W.contents to.new) }
    ensures fails { OnErr result (result ≡ Err Failure.Writing) }
{
    for _ in 0..u64::MAX {
        match to.flush() {
            Ok(()) => return Ok(()),
            Err(e) if e.kind() == ErrorKind::Interrupted => {}
            Err(_) => break,
        }
    }
    Err(Failure::Writing)
}

/// What a text says in decimal digits. `parse` takes a plus sign too, which is none.
pub fn number(s: &[u8]) -> Option<u32>
    ensures { result ≡ decimal s.now }
{
    let text = str::from_utf8(s).ok()?;
    if text.starts_with('+') {
        return None;
    }
    text.parse().ok()
}

// When a reader or a writer may fail, no clause says: a body that only fails meets them all.
#[cfg(test)]
mod tests {
    use super::{Failure, read, write};
    use std::io;
    use std::io::{ErrorKind, Read, Write};

    // One byte moves in a call, after a call that a signal cut short. Where `end` is reached, there is an end, or a
    // failure.
    #[derive(Drop)]
    struct Stutter {
        bytes: [u8; 8],
        at: usize,
        end: usize,
        fails: bool,
        interrupts: bool,
    }

    fn stuttering(bytes: [u8; 8], end: usize, fails: bool) -> Stutter {
        Stutter {
            bytes,
            at: 0,
            end,
            fails,
            interrupts: false,
        }
    }

    impl Stutter {
        fn is_at_end(&mut self) -> io::Result<bool> {
            self.interrupts = !self.interrupts;
            if self.interrupts {
                return Err(io::Error::from(ErrorKind::Interrupted));
            }
            if self.at < self.end {
                return Ok(false);
            }
            if self.fails {
                return Err(io::Error::from(ErrorKind::Other));
            }
            Ok(true)
        }
    }

    impl Read for Stutter {
        fn read(&mut self, buf: &mut [u8]) -> io::Result<usize> {
            if self.is_at_end()? || buf.is_empty() || self.at >= 8 {
                return Ok(0);
            }
            buf[0] = self.bytes[self.at];
            self.at += 1;
            Ok(1)
        }
    }

    impl Write for Stutter {
        fn write(&mut self, buf: &[u8]) -> io::Result<usize> {
            if self.is_at_end()? || buf.is_empty() || self.at >= 8 {
                return Ok(0);
            }
            self.bytes[self.at] = buf[0];
            self.at += 1;
            Ok(1)
        }

        fn flush(&mut self) -> io::Result<()> {
            self.interrupts = !self.interrupts;
            if self.interrupts {
                return Err(io::Error::from(ErrorKind::Interrupted));
            }
            Ok(())
        }
    }

    #[test]
    fn reads_what_comes_in_pieces(rt: HostRuntime) {
        let mut into = [0; 8];
        let got = read(&mut stuttering(*b"abcdefgh", 5, false), &mut into);
        assert_eq!(rt; got.ok(), Some(5));
        assert_eq!(rt; &into, b"abcde\0\0\0");
        let failed = read(&mut stuttering(*b"abcdefgh", 5, true), &mut into);
        assert!(rt; matches!(failed, Err(Failure::Reading)));
    }

    #[test]
    fn writes_what_is_taken_in_pieces(rt: HostRuntime) {
        let mut to = stuttering([0; 8], 8, false);
        assert!(rt; write(&mut to, b"abcde").is_ok());
        assert_eq!(rt; &to.bytes, b"abcde\0\0\0");
        // A writer that takes no more, and one that fails.
        for fails in [false, true] {
            let mut to = stuttering([0; 8], 3, fails);
            let failed = write(&mut to, b"abcde");
            assert!(rt; matches!(failed, Err(Failure::Writing)), "at {fails}");
            assert_eq!(rt; &to.bytes, b"abc\0\0\0\0\0", "at {fails}");
        }
    }
}

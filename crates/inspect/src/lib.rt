// Card 12's call: the plain solver at the n-th entry to `unify` of a file's run.
#![tactic(auto)]

ghost use Rattle.std.specs.Prelude.{◌≡◌, length};
ghost use Rattle.seek.specs.Spending.{SpendsOnEntry};
ghost use Rattle.inspect.specs.Promises.{inspected_by, line_of, Answers, Inspects};

use plain::Unsolved;
use reading::Refusal;
use unify::Purse;
use work::clear;

// After a success with the words that the bindings take in the lent slice; `TooFewWords` is refusal 18.
// No Result: the definition's six answers one to one; as a Result they would be two types, and each use would join them
// again.
#[derive(Clone, Copy)]
pub enum Inspected {
    Success(usize),
    Failure,
    ShutOut,
    Fewer,
    Refused(Refusal),
    TooFewWords,
}

impl From<Result<usize, Unsolved>> for Inspected {
    ghost from_gives = { λ p r. r ≡ inspected_by p };

    fn from(p: Result<usize, Unsolved>) -> Inspected {
        match p {
            Ok(n) => Inspected::Success(n),
            Err(Unsolved::Failure) => Inspected::Failure,
            Err(Unsolved::ShutOut) => Inspected::ShutOut,
            Err(Unsolved::TooFew) => Inspected::TooFewWords,
        }
    }
}

// The work slice holds anything afterwards.
fn answer(file: &[u8], n: u32, work: &mut [u32], lent: &mut [u32], purse: &mut Purse) -> Inspected
    ensures is { Answers file.now n work.old lent.old work.new lent.new result }
    ensures spent { SpendsOnEntry file.now n (length work.old) purse.old purse.new }
{
    match seek::seek(file, n, work, purse) {
        Ok(Some((got, expected))) => Inspected::from(solver::solve(work, got, expected, lent)),
        Ok(None) => {
            work::clear(lent);
            Inspected::Fewer
        }
        Err(e) => {
            work::clear(lent);
            Inspected::Refused(e)
        }
    }
}

pub fn inspect(
    file: &[u8],
    n: u32,
    work: &mut [u32],
    lent: &mut [u32],
    purse: &mut Purse,
) -> Inspected
    ensures is { Inspects file.now n work.old lent.old work.new lent.new result }
    ensures spent { SpendsOnEntry file.now n (length work.old) purse.old purse.new }
{
    // Words that the caller left would be taken for records, and each would be looked through.
    clear(work);
    let answered = answer(file, n, work, lent, purse);
    work::clear(work);
    answered
}

// The line that the program prints: 0e with 01, 00, 02 or 03, or the refusal's.
pub fn line(r: Inspected) -> [u8; 5]
    ensures { result ≡ line_of r }
{
    match r {
        Inspected::Success(_) => *b"0e01\n",
        Inspected::Failure => *b"0e00\n",
        Inspected::ShutOut => *b"0e02\n",
        Inspected::Fewer => *b"0e03\n",
        Inspected::Refused(e) => driver::refusal_line(e),
        Inspected::TooFewWords => *b"0f12\n",
    }
}

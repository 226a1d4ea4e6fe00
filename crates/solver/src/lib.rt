// The plain solver (card 12) asked about two types in hand: what demand 3 shuts out is told first, then the bindings
// and the sides are spelled into the lent slice, and the engine runs there. Nothing of `unify` is called.
#![tactic(auto)]

ghost use Rattle.std.specs.Prelude.{◌≡◌};
ghost use Rattle.solver.specs.Promises.{RunsEngine, Solves};

use cells::Ty;
use plain::Unsolved;

// The first stage is written into the upper half; an odd word is left over. `got` and `expected` are two parameters,
// here as in `unify`.
fn engine(w: &[u32], got: Ty, expected: Ty, l: &mut [u32]) -> Result<usize, Unsolved>
    ensures { RunsEngine w.now got expected l.old l.new result }
{
    let h = l.len() / 2;
    let even = &mut l[..h + h];
    let (sides, end) = spelling::start(w, even, h, got, expected).ok_or(Unsolved::TooFew)?;
    plain::run(even, sides, end)
}

// What was lent holds the bindings and then zeros, or zeros throughout.
pub fn solve(w: &mut [u32], got: Ty, expected: Ty, l: &mut [u32]) -> Result<usize, Unsolved>
    ensures { Solves w.old got expected l.old w.new l.new result }
{
    admitted::settle(w);
    let solved = if admitted::good(w, got) && admitted::good(w, expected) {
        engine(w, got, expected, l)
    } else {
        Err(Unsolved::ShutOut)
    };
    let end = solved.unwrap_or(0).min(l.len());
    l[end..].fill(0);
    solved
}

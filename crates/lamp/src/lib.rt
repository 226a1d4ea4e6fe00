// Card 4's call: whether a query of a file has a diagnostic. Each query runs until its first one, and no answer is
// written. The file and the slices are parameters, as in crate driver.
#![tactic(auto)]

ghost use Rattle.std.specs.Prelude.{◌≡◌, ◌≤◌, length};
ghost use Rattle.std.specs.Prelude.{◌+◌, ◌<◌};
ghost use Rattle.work.specs.Layout.{LEFT};
ghost use Rattle.meaning.specs.Lamp.{lamp_visits};
ghost use Rattle.unify.specs.Purses.{spent};
ghost use Rattle.lamp.specs.Promises.{signal_of, lamp_line, Glows, Asks, LooksAtFile, Lights};

use reading::{Counters, Edition, Refusal};
use state::Until;
use unify::Purse;
use work::{wide, word};

// What the lamp shows, of one query or of a file, and the visits of the queries that were asked.
#[derive(Drop)]
pub struct Lit {
    pub signal: Result<bool, Refusal>,
    pub visits: usize,
}

// The run of the query that is loaded: it goes to its end, the visits run out, or it stops at a diagnostic. The answer
// slice that is lent to it is empty.
fn one_query(file: &[u8], work: &mut [u32], purse: &mut Purse) -> Lit
    ensures is { Glows file.now work.old work.new result }
    ensures spent { LEFT < length work.new → spent purse.new ≤ spent purse.old + result.visits }
{
    let d = checker::query(
        file,
        work,
        Until::FirstDiagnostic,
        Counters::VISITS,
        &mut [],
        purse,
    );
    if let Some(left) = d {
        return Lit {
            signal: Ok(false),
            visits: wide(Counters::VISITS.saturating_sub(left)),
        };
    }
    let visits = wide(Counters::VISITS.saturating_sub(word(work, work::LEFT)));
    if word(work, work::DIAGNOSTIC_COUNT) == 0 {
        Lit {
            signal: Err(Refusal::TooManyVisits),
            visits,
        }
    } else {
        Lit {
            signal: Ok(true),
            visits,
        }
    }
}

// The queries of a file that was read, one after the other, until one stops. Such a file is short: that is why the sum
// of the visits has room; `look` owes it, as `run` of driver does.
fn ask(file: &[u8], work: &mut [u32], purse: &mut Purse) -> Lit
    requires { length file.now ≤ 65536 }
    ensures is { Asks file.now work.old result }
    ensures spent { LEFT < length work.old → spent purse.new ≤ spent purse.old + result.visits }
{
    let mut at: usize = 0;
    let mut visits: usize = 0;
    // No `for`: where the next query starts is what `load` gives back.
    while at < file.len() {
        let next = loading::load(file, at, work);
        let one = one_query(file, work, purse);
        visits += one.visits;
        // A diagnostic ends the walk, and so does a run that had too few visits. Of two fields one is new: `..one`
        // would say no more.
        if one.signal.unwrap_or(true) {
            return Lit {
                signal: one.signal,
                visits,
            };
        }
        at = next;
    }
    Lit {
        signal: Ok(false),
        visits,
    }
}

// The work slice holds anything afterwards.
fn look(file: &[u8], work: &mut [u32], purse: &mut Purse) -> Lit
    ensures is { LooksAtFile file.now work.old work.new result }
    ensures spent { spent purse.new ≤ spent purse.old + result.visits }
{
    let r = reading::read_file(file, work, Edition::Wide);
    match r {
        Err(e) => Lit {
            signal: Err(e),
            visits: 0,
        },
        Ok(()) => ask(file, work, purse),
    }
}

pub fn lamp(file: &[u8], work: &mut [u32], purse: &mut Purse) -> Lit
    ensures is { Lights file.now work.old work.new result }
    ensures spent { spent purse.new ≤ spent purse.old + lamp_visits file.now (length work.old) }
{
    let r = look(file, work, purse);
    work::clear(work);
    r
}

// The line that the program prints: 0d with 01 or 00, or the refusal's.
pub fn line(l: Result<bool, Refusal>) -> [u8; 5]
    ensures { result ≡ lamp_line (signal_of l) }
{
    match l {
        Ok(true) => *b"0d01\n",
        Ok(false) => *b"0d00\n",
        Err(e) => driver::refusal_line(e),
    }
}

// Card 12: the n-th entry to `unify` of a file's run. The whole file is run first, so that 11 is told wherever the
// visits run out, and then the entry's query again, up to the entry. File and slice are two parameters, as in crate
// driver.
#![tactic(auto)]

ghost use Rattle.std.specs.Prelude.{length};
ghost use Rattle.cabinet.specs.declared.Account.TheVariants.{Open};
ghost use Rattle.driver.specs.Spending.{SpendsOnQueries};
ghost use Rattle.seek.specs.Promises.{CountsEntries, RunsOn, Places, StopsAtEntry, Finds, Seeks};
ghost use Rattle.seek.specs.Spending.{SpendsOnRun, SpendsOnRest, SpendsUpTo, SpendsOnFind, SpendsOnEntry};

use cells::Ty;
use reading::{Counters, Edition, Refusal};
use state::Until;
use unify::Purse;
use work::word;

// The run of the query from `at` on: where the next one starts, and this one's entries. The answer slice that is lent
// to it is empty.
fn one_query(
    file: &[u8],
    at: usize,
    work: &mut [u32],
    purse: &mut Purse,
) -> Result<(usize, u32), Refusal>
    ensures is { CountsEntries file.now at work.old work.new result }
    ensures spent { SpendsOnRun file.now at work.old purse.old purse.new }
{
    let next = loading::load(file, at, work);
    checker::query(file, work, Until::TheEnd, Counters::VISITS, &mut [], purse).ok_or(
        Refusal::TooManyVisits,
    )?;
    Ok((next, word(work, work::ENTERED)))
}

// The queries from a place on, as long as they come to their ends. No `for`, here and in `place_of`: where the next
// query starts is what the run of this one gives back.
fn run_on(file: &[u8], from: usize, work: &mut [u32], purse: &mut Purse) -> Result<(), Refusal>
    ensures is { RunsOn file.now from work.old work.new result }
    ensures spent { SpendsOnRest file.now from work.old purse.old purse.new }
{
    let mut at = from;
    while at < file.len() {
        (at, _) = one_query(file, at, work, purse)?;
    }
    Ok(())
}

// Where the entry's query starts, and which of that query's entries it is. One count over all queries; those after the
// entry's are run too. No `find` over queries: each is run to be counted, and a run may fail.
fn place_of(
    file: &[u8],
    n: u32,
    work: &mut [u32],
    purse: &mut Purse,
) -> Result<Option<(usize, u32)>, Refusal>
    ensures is { Places file.now n work.old work.new result }
    ensures spent { SpendsOnQueries file.now work.old Open purse.old purse.new }
{
    let mut at: usize = 0;
    let mut rest = n;
    while at < file.len() {
        let (next, entries) = one_query(file, at, work, purse)?;
        if rest < entries {
            run_on(file, next, work, purse)?;
            return Ok(Some((at, rest)));
        }
        rest -= entries;
        at = next;
    }
    Ok(None)
}

// The query from `at` on is run again, up to its n-th entry.
fn sides_at(file: &[u8], at: usize, n: u32, work: &mut [u32], purse: &mut Purse) -> (Ty, Ty)
    ensures is { StopsAtEntry file.now at n work.old work.new result }
    ensures spent { SpendsUpTo file.now at n work.old purse.old purse.new }
{
    loading::load(file, at, work);
    checker::query(
        file,
        work,
        Until::Entry(n),
        Counters::VISITS,
        &mut [],
        purse,
    );
    let got = Ty::from_words(word(work, work::GOT), word(work, work::GOT + 1));
    let expected = Ty::from_words(word(work, work::EXPECTED), word(work, work::EXPECTED + 1));
    (got, expected)
}

// Of a file that was read.
fn find(
    file: &[u8],
    n: u32,
    work: &mut [u32],
    purse: &mut Purse,
) -> Result<Option<(Ty, Ty)>, Refusal>
    ensures is { Finds file.now n work.old work.new result }
    ensures spent { SpendsOnFind file.now n work.old purse.old purse.new }
{
    let Some((at, rest)) = place_of(file, n, work, purse)? else {
        return Ok(None);
    };
    Ok(Some(sides_at(file, at, rest, work, purse)))
}

// Where the entry is not found the work slice holds anything afterwards.
pub fn seek(
    file: &[u8],
    n: u32,
    work: &mut [u32],
    purse: &mut Purse,
) -> Result<Option<(Ty, Ty)>, Refusal>
    ensures is { Seeks file.now n work.old work.new result }
    ensures spent { SpendsOnEntry file.now n (length work.old) purse.old purse.new }
{
    reading::read_file(file, work, Edition::Wide)?;
    find(file, n, work, purse)
}

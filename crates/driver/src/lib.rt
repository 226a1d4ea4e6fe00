// The whole call: a file, a work slice and an answer slice, three parameters as C has them, and the purse of visits that
// the caller lends.
#![tactic(auto)]

ghost use Rattle.std.specs.Prelude.{[], ◌∷◌, ◌≡◌, ◌+◌, ◌-◌, ◌<◌, ◌≤◌, length};
ghost use Rattle.format.specs.Refusal.{number};
ghost use Rattle.format.specs.Bytes.{hex_line};
ghost use Rattle.reading.specs.Promises.{refusal};
ghost use Rattle.driver.specs.Turns.{OneOfSeveral, WritesHeading, Place, AnswersQuery, TakesTurn};
ghost use Rattle.driver.specs.At.{stop_at};
ghost use Rattle.driver.specs.Days.{UsesAddUp};
ghost use Rattle.driver.specs.Spending.{answer_visits, turn_visits, SpendsOnQueries, SpendsOnFile, ChargesSpent};
ghost use Rattle.cabinet.specs.declared.Account.TheVariants.{Open};
ghost use Rattle.unify.specs.Purses.{spent};
ghost use Rattle.driver.specs.Promises.{RunsQueries, RunsFile, Clears, ChecksFile, ChecksAt};

use cabinet::{Account, Group};
use reading::{Counters, Edition, Refusal};
use state::Until;
use unify::Purse;

// How a file's queries end, and what they were charged to.
#[derive(Drop)]
pub struct Settled {
    pub account: Account,
    pub outcome: Result<usize, Refusal>,
}

// How a call at a desk ends, and the group after it. No generic of both: it would call account and group by one name.
#[derive(Drop)]
pub struct Desked {
    pub group: Group,
    pub outcome: Result<usize, Refusal>,
}

// The query whose turn it is: where its lines start, its number, and where its answer goes, unless the slice is full.
#[derive(Clone, Copy)]
struct Turn {
    at: usize,
    k: u32,
    page: Option<usize>,
}

// Where the next byte goes in a slice of this room; a full one has no room left.
fn place(page: Option<usize>, room: usize) -> usize
    ensures { Place page room result }
{
    page.unwrap_or(room).min(room)
}

// Whether there are several queries: this is not the first, or another comes after it.
fn is_one_of_several(k: u32, next: usize, end: usize) -> bool
    ensures { OneOfSeveral k next end result }
{
    0 < k || next < end
}

// The line with the query's number, if there are several.
fn heading(out: &mut [u8], turn: Turn, next: usize, end: usize) -> Option<usize>
    ensures { WritesHeading turn.k next end out.old turn.page out.new result }
{
    if is_one_of_several(turn.k, next, end) {
        answer::number_line(out, turn.page?, turn.k)
    } else {
        turn.page
    }
}

// The run of the query that is loaded, and its answer from the start of the slice on.
fn answer_query(
    file: &[u8],
    work: &mut [u32],
    ceiling: u32,
    out: &mut [u8],
    purse: &mut Purse,
) -> Option<(Option<usize>, u32)>
    ensures is { AnswersQuery file.now work.old ceiling out.old work.new out.new result }
    ensures spent { spent purse.new ≤ spent purse.old + answer_visits ceiling result }
{
    let left = checker::query(file, work, Until::TheEnd, ceiling, out, purse)?;
    let visits = ceiling.saturating_sub(left);
    Some((answer::write(file, work, out, visits), visits))
}

// One query, from its lines to its answer. Where the slice is full it still runs, for its visits.
fn one_query(
    file: &[u8],
    turn: Turn,
    ceiling: u32,
    work: &mut [u32],
    out: &mut [u8],
    purse: &mut Purse,
) -> Option<(usize, Option<usize>, u32)>
    ensures is { TakesTurn file.now turn ceiling work.old out.old work.new out.new result }
    ensures spent { spent purse.new ≤ spent purse.old + turn_visits ceiling result }
{
    let next = loading::load(file, turn.at, work);
    let head = heading(out, turn, next, file.len());
    let from = place(head, out.len());
    let rest = out.len() - from;
    let (lines, visits) = answer_query(file, work, ceiling, &mut out[from..], purse)?;
    Some((next, head.and(lines).map(|n| from + n.min(rest)), visits))
}

// Why a query that ran out of visits is refused.
fn stop(ceiling: u32) -> Refusal
    ensures { refusal result ≡ stop_at ceiling }
{
    if ceiling < Counters::VISITS {
        Refusal::CeilingPassed
    } else {
        Refusal::TooManyVisits
    }
}

// The queries of a file that was read, one after the other, each under the ceiling that those before it left: refusal
// 11 or 16 of any of them, then 12 of them all. A file that was read is short: that is why `k` has room to grow. It is
// owed by `run`, which has just read it, as lamp's `look` and reading's `read_file` owe it, each right after a test: a
// type for such a file would be made for one call in each.
fn all_queries(
    file: &[u8],
    work: &mut [u32],
    out: &mut [u8],
    account: Account,
    purse: &mut Purse,
) -> Settled
    requires { length file.now ≤ 65536 }
    ensures is { RunsQueries file.now work.old out.old account out.new result }
    ensures spent { SpendsOnQueries file.now work.old account purse.old purse.new }
{
    let mut charged = account;
    let mut turn = Turn {
        at: 0,
        k: 0,
        page: Some(0),
    };
    // No `for`: where the next query starts is what `load` gives back. The walks of lamp and seek end at other places
    // and with other things in hand: one walk for all would be a closure over the slices.
    while turn.at < file.len() {
        let ceiling = charged.next_ceiling();
        let Some((next, page, visits)) = one_query(file, turn, ceiling, work, out, purse) else {
            let last = charged.charge(ceiling);
            return Settled {
                account: last,
                outcome: Err(stop(ceiling)),
            };
        };
        charged = charged.charge(visits);
        turn = Turn {
            at: next,
            k: turn.k + 1,
            page,
        };
    }
    Settled {
        account: charged,
        outcome: turn.page.ok_or(Refusal::AnswerTooLong),
    }
}

// Both slices hold anything afterwards, but for the answer.
fn run(
    file: &[u8],
    work: &mut [u32],
    out: &mut [u8],
    account: Account,
    purse: &mut Purse,
) -> Settled
    ensures is { RunsFile file.now work.old out.old account work.new out.new result }
    ensures spent { SpendsOnFile file.now (length work.old) account purse.old purse.new }
{
    let r = reading::read_file(file, work, Edition::Wide);
    match r {
        Err(e) => Settled {
            account,
            outcome: Err(e),
        },
        Ok(()) => all_queries(file, work, out, account, purse),
    }
}

// The work slice, and what stands after the answer.
pub fn clear_after(r: Result<usize, Refusal>, work: &mut [u32], out: &mut [u8])
    ensures { Clears r work.old out.old work.new out.new }
{
    work::clear(work);
    work::clear_bytes(out, r.unwrap_or(0));
}

pub fn check_file(
    file: &[u8],
    work: &mut [u32],
    out: &mut [u8],
    purse: &mut Purse,
) -> Result<usize, Refusal>
    ensures is { ChecksFile file.now work.old out.old work.new out.new result }
    ensures spent { SpendsOnFile file.now (length work.old) Open purse.old purse.new }
{
    let s = run(file, work, out, Account::Open, purse);
    let r = s.outcome;
    clear_after(r, work, out);
    r
}

// The call at a desk, which is charged for the visits. The group and the desk's number are two parameters, as C hands
// them in: `seat` makes one of them.
pub fn check_at(
    g: Group,
    desk: usize,
    file: &[u8],
    work: &mut [u32],
    out: &mut [u8],
    purse: &mut Purse,
) -> Desked
    ensures is { ChecksAt g desk file.now work.old out.old work.new out.new result }
    ensures spent { ChargesSpent g desk result.group purse.old purse.new }
{
    if let Some(seat) = g.seat(desk) {
        let s = run(file, work, out, Account::At(seat), purse);
        let r = s.outcome;
        clear_after(r, work, out);
        return Desked {
            group: s.account.group(),
            outcome: r,
        };
    }
    let r = Err(Refusal::OutsideTheRules);
    clear_after(r, work, out);
    Desked {
        group: g,
        outcome: r,
    }
}

/// The law of a day at the desks, as a contract: each desk's use is the sum of what its calls were charged (`Pays`),
/// whatever calls they were. It runs nothing.
pub fn uses_add_up()
    ensures { UsesAddUp }
{}

// Document 01's number is the discriminant, and no `From` leads from an enum to u8; docs/PROMISE.md has the function by
// this name.
#[tactic(auto, unfolding(format::specs::Refusal::number))]
pub fn refusal_number(e: Refusal) -> u8
    ensures { result ≡ number (refusal e) }
{
    e as u8
}

// The line that the program prints for a refusal: 0f, its number, LF.
pub fn refusal_line(e: Refusal) -> [u8; 5]
    ensures { result ≡ hex_line (0x0f ∷ number (refusal e) ∷ []) }
{
    let n = refusal_number(e);
    let high = writer::hex_digit(n / 16);
    let low = writer::hex_digit(n % 16);
    [b'0', b'f', high, low, b'\n']
}

// The calls for programs in other languages: every slice goes as a pointer and a length, an array as a pointer. Each
// gives back 0, or the number of the refusal.
#![tactic(auto, unfolding(format::specs::Refusal::number))]

ghost use Rattle.sigla_lib.specs.Numbers.{CallsCheck, CallsLamp, CallsInspect, CallsWiden, CallsNarrow, CallsTally, CallsSetUp, CallsCeiling, CallsNewDay, CallsCheckAt, CallsGrowth, CallsLoad, outcome_number, or_else, version_number};
ghost use Rattle.cabinet.specs.Promises.{left};
ghost use Rattle.format.specs.Refusal.{number};
ghost use Rattle.ledger.specs.Words.{group_of};
ghost use Rattle.reading.specs.Promises.{refusal};
ghost use Rattle.std.specs.Prelude.{◌≡◌};

use cabinet::Group;
use inspect::Inspected;
use reading::Refusal;
use unify::Purse;

// For C, 0 is no refusal. `sigla_check`, `sigla_widen` and `sigla_narrow` are alike in this: each is a name that C
// links.
fn number(r: Result<usize, Refusal>) -> u8
    ensures { result ≡ outcome_number r }
{
    match r {
        Ok(_) => 0,
        Err(e) => driver::refusal_number(e),
    }
}

// What a call leaves, whether it was refused or not, with the number of the refusal or 0.
fn left<T>(r: Result<T, T>, e: Refusal) -> (T, u8)
    ensures value { result.0 ≡ left r }
    ensures number { result.1 ≡ or_else r (number (refusal e)) }
{
    match r {
        Ok(x) => (x, 0),
        Err(x) => (x, driver::refusal_number(e)),
    }
}

// ---- The version

// Which version of the library a program was linked with: two hexadecimal digits each of the major number, the minor
// one and the patch, so that a later version has a larger number. `tools/version` writes them.
#[unsafe(no_mangle)]
pub extern "C" fn sigla_version() -> u32
    ensures { result ≡ version_number 0 3 0 }
{
    0x00_03_00
}

// ---- The check

// The answer stands in `out` up to the first zero byte.
#[unsafe(no_mangle)]
pub extern "C" fn sigla_check(file: &[u8], work: &mut [u32], out: &mut [u8]) -> u8
    ensures { CallsCheck file.now work.old out.old work.new out.new result }
{
    number(driver::check_file(file, work, out, &mut Purse::full(0)))
}

// ---- The lamp

// Whether a query of the file has a diagnostic: then `lit` is 1, and else 0. Each query runs until its first one. Not
// by `left`: here the call says which refusal it is, and a bool goes out as a word.
#[unsafe(no_mangle)]
pub extern "C" fn sigla_lamp(file: &[u8], work: &mut [u32], lit: &mut u32) -> u8
    ensures { CallsLamp file.now work.old work.new lit.new result }
{
    let l = lamp::lamp(file, work, &mut Purse::full(0));
    let shown = l.signal;
    match shown {
        Ok(lit_up) => {
            *lit = u32::from(lit_up);
            0
        }
        Err(e) => {
            *lit = 0;
            driver::refusal_number(e)
        }
    }
}

// ---- The plain solver

// The n-th unification of the file's run in another way: `told` is 1 where it succeeds and 0 where it fails, 2 where a
// side is shut out, 3 where there are fewer. After a success `lent` holds the bindings, up to the first zero in the
// place of an 11.
#[unsafe(no_mangle)]
pub extern "C" fn sigla_inspect(
    file: &[u8],
    n: u32,
    work: &mut [u32],
    lent: &mut [u32],
    told: &mut u32,
) -> u8
    ensures { CallsInspect file.now n work.old lent.old work.new lent.new told.new result }
{
    let r = inspect::inspect(file, n, work, lent, &mut Purse::full(0));
    match r {
        Inspected::Success(_) => {
            *told = 1;
            0
        }
        Inspected::Failure => {
            *told = 0;
            0
        }
        Inspected::ShutOut => {
            *told = 2;
            0
        }
        Inspected::Fewer => {
            *told = 3;
            0
        }
        Inspected::Refused(e) => {
            *told = 0;
            driver::refusal_number(e)
        }
        Inspected::TooFewWords => {
            *told = 0;
            18
        }
    }
}

// ---- The two editions

// A file of the narrow edition into the wide one, which stands in `out` up to the first zero byte.
#[unsafe(no_mangle)]
pub extern "C" fn sigla_widen(file: &[u8], work: &mut [u32], out: &mut [u8]) -> u8
    ensures { CallsWiden file.now work.old out.old work.new out.new result }
{
    number(converters::widen(file, work, out))
}

// And back.
#[unsafe(no_mangle)]
pub extern "C" fn sigla_narrow(file: &[u8], work: &mut [u32], out: &mut [u8]) -> u8
    ensures { CallsNarrow file.now work.old out.old work.new out.new result }
{
    number(converters::narrow(file, work, out))
}

// ---- Schema growth

// Whether the queries of the old file keep their answers in the new one: 0, or the first of card 14's premises that
// fails.
#[unsafe(no_mangle)]
pub extern "C" fn sigla_growth(old: &[u8], new: &[u8], work: &mut [u32]) -> u8
    ensures { CallsGrowth old.now new.now work.old work.new result }
{
    growth::premises_number(growth::check_growth(old, new, work))
}

// ---- The test load

// The file of the seed and its length; or 12 for a slice that is shorter, and 0.
#[unsafe(no_mangle)]
pub extern "C" fn sigla_load(seed: u32, out: &mut [u8], length: &mut usize) -> u8
    ensures { CallsLoad seed out.old out.new length.new result }
{
    let (n, number) = left(generator::make(seed, out).ok_or(0), Refusal::AnswerTooLong);
    *length = n;
    number
}

// ---- The capture tariff

// A query's visits at its price join the tally.
#[unsafe(no_mangle)]
pub extern "C" fn sigla_tally(tally: &mut [u32; 3], visits: u32, price: u16) -> u8
    ensures { CallsTally tally.old visits price tally.new result }
{
    let (t, number) = left(
        ledger::tally(tally).add(visits, price),
        Refusal::TallyTooLarge,
    );
    ledger::put_tally(tally, t);
    number
}

// ---- The desks of a cabinet

#[unsafe(no_mangle)]
pub extern "C" fn sigla_set_up(group: &mut [u32; 50], pool: u32, shares: &[u32], caps: &[u32]) -> u8
    ensures { CallsSetUp pool shares.now caps.now group.new result }
{
    let (g, number) = left(Group::set_up(pool, shares, caps), Refusal::OutsideTheRules);
    ledger::put_group(group, g);
    number
}

// Out of line: with all fifty numbers at hand `sigla_ceiling` keeps them one by one, and takes half as long again.
#[inline(never)]
fn group_of(words: &[u32; 50]) -> Group
    ensures { result ≡ group_of words.now }
{
    ledger::group(words)
}

// The visits that a desk may make now.
#[unsafe(no_mangle)]
pub extern "C" fn sigla_ceiling(group: &[u32; 50], desk: usize, visits: &mut u32) -> u8
    ensures { CallsCeiling group.now desk visits.new result }
{
    let (n, number) = left(
        group_of(group).ceiling(desk).ok_or(0),
        Refusal::OutsideTheRules,
    );
    *visits = n;
    number
}

#[unsafe(no_mangle)]
pub extern "C" fn sigla_new_day(group: &mut [u32; 50]) -> u8
    ensures { CallsNewDay group.old group.new result }
{
    let (g, number) = left(ledger::group(group).new_day(), Refusal::OutsideTheRules);
    ledger::put_group(group, g);
    number
}

// As `sigla_check`, at a desk, which is charged for the visits.
#[unsafe(no_mangle)]
pub extern "C" fn sigla_check_at(
    group: &mut [u32; 50],
    desk: usize,
    file: &[u8],
    work: &mut [u32],
    out: &mut [u8],
) -> u8
    ensures { CallsCheckAt group.old desk file.now work.old out.old group.new work.new out.new result }
{
    let d = driver::check_at(
        ledger::group(group),
        desk,
        file,
        work,
        out,
        &mut Purse::full(0),
    );
    let after = d.group;
    let r = d.outcome;
    ledger::put_group(group, after);
    number(r)
}

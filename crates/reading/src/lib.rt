// Reading a file: its lines, and what they say, into the work slice; or the refusal that document 01 gives.
#![tactic(auto)]

ghost use Rattle.std.specs.Prelude.{◌≡◌, ℕ, ◌+◌, ◌*◌, ◌<◌, ◌≤◌, length, take, drop, IfSome};
ghost use Rattle.format.specs.Frame.{limits};
ghost use Rattle.frames.specs.Promises.{kind_meant, edition_of};
ghost use Rattle.reading.specs.OfLines.{TakesLineOf};
ghost use Rattle.reading.specs.Promises.{InEither, TakesAnywhere, full_of, past_of, counted, TakesLines, ReadsFile, Reads};

mod decoded;
mod names;
mod nodes;
mod parts;
mod types;

use decoded::Line;
pub use frames::Edition;
use frames::Kind;
pub use work::Counters;
use work::put;

// The refusals of document 01, by meaning (`refusal` of specs/Promises.antt), with their numbers.
#[derive(Clone, Copy)]
pub enum Refusal {
    WorkTooShort = 1,
    FileTooLong = 2,
    MalformedLine = 3,
    MisplacedKind = 4,
    TooMany = 5,
    MalformedFrame = 6,
    BrokenText = 7,
    NameGivenBefore = 8,
    BadReference = 9,
    RepeatedKey = 10,
    TooManyVisits = 11,
    AnswerTooLong = 12,
    TooManyQueries = 13,
    NumberTooWide = 14,
    TallyTooLarge = 15,
    CeilingPassed = 16,
    OutsideTheRules = 17,
}

// Whether one more of this kind is too many. Each kind is counted in a field of its own, so an arm tells which.
fn is_full(c: Counters, kind: Kind) -> bool
    ensures { result ≡ full_of c (kind_meant kind) }
{
    match kind {
        Kind::Name => Counters::NAMES <= c.names,
        Kind::SchemaType => Counters::TYPES <= c.types,
        Kind::Predicate => Counters::PREDICATES <= c.predicates,
        Kind::Node => Counters::NODES <= c.nodes,
        Kind::Limits | Kind::Query => false,
    }
}

// Whether one more query is too many.
fn is_past(c: Counters, kind: Kind) -> bool
    ensures { result ≡ past_of c (kind_meant kind) }
{
    kind == Kind::Query && Counters::QUERIES <= c.queries
}

fn take_limits(s: &[u8], w: &mut [u32], c: Counters) -> Result<Counters, Refusal>
    ensures { InEither (λ e. TakesAnywhere e limits s.now w.old c w.new result) }
{
    let limits = reader::read_limits(s, 1);
    put(w, work::MAX_DISTANCE, limits.distance);
    put(w, work::MAX_TERM, limits.term);
    Ok(c)
}

// One line: the lowest refusal that applies to it, or the counters after it. The slice and the names' prints are lent,
// while the counters go through by value, as a refusal leaves none: what takes a line takes all, beside one another.
// The kinds are these six, each taken in its own way, so an arm tells each. The counters' bounds are of the run and no
// type's: only after the tests is there room for one more, as `Vacancy` has it.
fn take_line(
    line: Line,
    w: &mut [u32],
    prints: &mut [u16; Counters::NAMES as usize],
    c: Counters,
    previous: Option<Kind>,
    kind: Kind,
    edition: Edition,
) -> Result<Counters, Refusal>
    requires { (c.names ≤ 256) × (c.types ≤ 256) × (c.fields ≤ 8192) }
    ensures { TakesLineOf line.entry edition previous kind w.old prints.old c w.new prints.new result }
{
    if !frames::may_stand(previous, Some(kind)) {
        return Err(Refusal::MisplacedKind);
    }
    if is_full(c, kind) {
        return Err(Refusal::TooMany);
    }
    if is_past(c, kind) {
        return Err(Refusal::TooManyQueries);
    }
    let s = line.bytes;
    if !frames::is_frame(s, Some(kind), edition) {
        return Err(Refusal::MalformedFrame);
    }
    match kind {
        Kind::Limits => take_limits(s, w, c),
        Kind::Name => names::take_name(line, w, prints, c),
        Kind::SchemaType => types::take_type(s, w, types::Vacancy { c }, edition),
        Kind::Predicate => types::take_predicate(s, w, c),
        Kind::Node => nodes::take_node(line, w, c, edition),
        Kind::Query => nodes::take_query(s, w, c),
    }
}

fn put_counts(w: &mut [u32], c: Counters)
    requires { IfSome c.value (λ n. n < 256) }
    ensures { w.new ≡ counted w.old c }
{
    put(w, work::NAME_COUNT, c.names);
    put(w, work::TYPE_COUNT, c.types);
    put(w, work::PREDICATE_COUNT, c.predicates);
    put(w, work::NODE_COUNT, c.nodes);
    put(w, work::VALUE_NAME, c.value.map_or(0, |n| n + 1));
}

// The lines in file order, then the missing query. Each line says where the next one starts, and the loop follows that
// place. No iterator over `decode`, here or in convert and growth: each walk stops on other grounds and keeps other
// counts, and the line that it reads into would be lent, which std's `Iterator` can't. After each query the nodes start
// anew: `load` finds them again. Both lengths were tested in `read_file`, which alone asks: a type that says so would
// be made for this one call.
fn take_lines(file: &[u8], w: &mut [u32], edition: Edition) -> Result<(), Refusal>
    requires { (length file.now ≤ 65536) × (16384 ≤ length w.old) }
    ensures { TakesLines (edition_of edition) file.now w.old w.new result }
{
    let mut bytes = [0u8; Counters::LINE];
    let mut prints = [0u16; Counters::NAMES as usize];
    let mut c = Counters::new();
    let mut previous = None;
    let mut at = 0;
    while at < file.len() {
        let (n, next) = frames::decode(file, at, &mut bytes).ok_or(Refusal::MalformedLine)?;
        let kind = frames::kind_of(bytes[0]).ok_or(Refusal::MisplacedKind)?;
        let line = Line {
            file,
            at,
            bytes: &bytes[..n],
        };
        c = take_line(line, w, &mut prints, c, previous, kind, edition)?;
        previous = Some(kind);
        at = next;
    }
    if previous != Some(Kind::Query) {
        return Err(Refusal::MisplacedKind);
    }
    put_counts(w, c);
    Ok(())
}

// A file of this edition past refusals 1 to 10 stands in the work slice afterwards. After a refusal the slice holds
// anything: whoever lends it clears it.
pub fn read_file(file: &[u8], w: &mut [u32], edition: Edition) -> Result<(), Refusal>
    ensures { ReadsFile (edition_of edition) file.now w.old w.new result }
{
    if w.len() < Counters::WORDS {
        return Err(Refusal::WorkTooShort);
    }
    if Counters::FILE < file.len() {
        return Err(Refusal::FileTooLong);
    }
    take_lines(file, w, edition)
}

// The same, with zeros throughout after a refusal.
pub fn read_or_clear(file: &[u8], w: &mut [u32], edition: Edition) -> Result<(), Refusal>
    ensures { Reads (edition_of edition) file.now w.old w.new result }
{
    let r = read_file(file, w, edition);
    if r.is_err() {
        work::clear(w);
    }
    r
}

// What a run keeps in the slice besides types: the environment, which entries are marked as used and which left
// unmarked, where the lines of its diagnostics end in the answer slice, and what ends it early.
#![tactic(auto)]

ghost use Rattle.std.specs.Prelude.{◌≡◌, ◌+◌, ◌*◌, length, get_or, set, ◌<◌, ◌≤◌};
ghost use Rattle.work.specs.Layout.{ENV-LEN, MARK-COUNT, MARKS, UNUSED};
ghost use Rattle.meaning.specs.Check.{lookup_in, is_in};
ghost use Rattle.state.specs.Words.{bumped_w, counted_w, entry_w, env_of, known_as, push_env_w, symbols_of, marks_of, mark_w, leave_entry_w, leave_w};
ghost use Rattle.state.specs.Lines.{place_w, set_place_w, WritesSpan, WritesUnusedLine, WritesCodeLine, WritesMessageLine, WritesBothLines, until_of, until_w, stop_w, no_lines_w, no_entries_w, UntilIs, entered_w, sides_w};
ghost use Rattle.state.specs.Running.{TellsIn, HaltsIn, RejectsIn, EntersIn, IntroducesIn, Ends, Lent};
ghost use Rattle.tree.specs.Nodes.{IsNode};

use cells::Ty;
use messages::Message;
use tree::Node;
use unify::Purse;
use work::{Counters, put, wide, word};

// What ends a run early besides its visits: nothing, its first diagnostic, or its n-th entry to `unify` from outside,
// counted from 0.
#[derive(Clone, Copy)]
pub enum Until {
    TheEnd,
    FirstDiagnostic,
    Entry(u32),
}

// The file that was read, the work slice, the answer slice, and the visits left; any will do, empty slices too. That
// the file and both slices are still those that were lent is a clause of each function over a run (`Lent`): no type
// speaks of before and after.
#[derive(Drop)]
pub struct Run<'a> {
    pub file: &'a [u8],
    pub words: &'a mut [u32],
    pub out: &'a mut [u8],
    pub purse: &'a mut Purse,
}

impl Run<'_> {
    // The words, to read: where the field itself is lent, no clause says what it holds afterwards.
    pub fn view(&self) -> &[u32]
        ensures { result.now ≡ self.now.words.now }
    {
        self.words
    }

    // Its lines behind the lines before it; where there is no room, that is noted and no line is written from then on.
    fn tell(&mut self, n: u32, m: Message)
        ensures is { TellsIn self.old n m self.new }
        ensures purse { self.new.purse ≡ self.old.purse }
        ensures lent { Lent self.old self.new }
    {
        let w: &mut [u32] = self.words;
        if word(w, work::FULL) == 0 {
            let at = place(w);
            match line(self.file, w, self.out, at, n, m) {
                Some(e) => set_place(w, e),
                None => put(w, work::FULL, 1),
            }
        }
    }

    fn halt(&mut self) -> Option<()>
        ensures is { HaltsIn self.old self.new result }
        ensures ended { Ends result self.new }
        ensures out { self.new.out ≡ self.old.out }
        ensures lent { Lent self.old self.new }
    {
        if let Until::FirstDiagnostic = until_in(self.view()) {
            put(self.words, work::LEFT, self.purse.left());
            return None;
        }
        Some(())
    }

    // A diagnostic at a node, and whether the run goes on.
    pub fn reject(&mut self, n: u32, m: Message) -> Option<()>
        ensures is { RejectsIn self.old n m self.new result }
        ensures ended { Ends result self.new }
        ensures lent { Lent self.old self.new }
    {
        self.tell(n, m);
        count(self.words);
        self.halt()
    }

    // An entry to `unify` from outside is about to be made: it is counted, and the run goes on, or it was to last until
    // here. Its sides are two parameters, by the names of ty.rs.
    pub fn enter(&mut self, got: Ty, expected: Ty) -> Option<()>
        ensures is { EntersIn self.old got expected self.new result }
        ensures ended { Ends result self.new }
        ensures out { self.new.out ≡ self.old.out }
        ensures lent { Lent self.old self.new }
    {
        let until = until_in(self.view());
        let n = word(self.view(), work::ENTERED);
        count_entry(self.words);
        match until {
            Until::TheEnd | Until::FirstDiagnostic => Some(()),
            Until::Entry(stop) if n < stop => Some(()),
            Until::Entry(_) => {
                keep_sides(self.words, got, expected, self.purse.left());
                None
            }
        }
    }

    // The unknown of a variable that a node names; one that is new is introduced.
    pub fn introduce(&mut self, node: u32, symbol: u32) -> u32
        ensures is { IntroducesIn self.old node symbol self.new result }
        ensures purse { self.new.purse ≡ self.old.purse }
        ensures out { self.new.out ≡ self.old.out }
        ensures lent { Lent self.old self.new }
    {
        match lookup(self.view(), symbol) {
            Some(e) => {
                mark(self.words, node, e);
                unknown_of(e)
            }
            None => {
                let var = cells::fresh_var_id(self.words);
                push_env(self.words, node, symbol, var);
                var
            }
        }
    }

    pub fn node(&self, n: u32) -> Node
        ensures { IsNode self.now.file.now self.now.words.now n result }
    {
        tree::node_at(self.file, self.words, n)
    }
}

// ---- The lines of the diagnostics, in the answer slice

// How many values a word has.
const WORD_VALUES: usize = 4_294_967_296;

// Where the next line goes.
pub fn place(w: &[u32]) -> usize
    ensures { result ≡ place_w w.now }
{
    wide(word(w, work::PLACE)) + wide(word(w, work::PLACE_HIGH)) * WORD_VALUES
}

// Both parts fit a word; `try_from` would give a Result that is never an Err.
fn set_place(w: &mut [u32], at: usize)
    ensures { w.new ≡ set_place_w w.old at }
{
    put(w, work::PLACE, (at % WORD_VALUES) as u32);
    put(w, work::PLACE_HIGH, (at / WORD_VALUES) as u32);
}

// `Until` in two words, and out of them: the slice holds words alone.
fn until_word(until: Until) -> u32
    ensures { result ≡ until_w (until_of until) }
{
    match until {
        Until::TheEnd => 0,
        Until::FirstDiagnostic => 1,
        Until::Entry(_) => 2,
    }
}

fn stop_word(until: Until) -> u32
    ensures { result ≡ stop_w (until_of until) }
{
    match until {
        Until::TheEnd | Until::FirstDiagnostic => 0,
        Until::Entry(n) => n,
    }
}

fn until_in(w: &[u32]) -> Until
    ensures { UntilIs w.now result }
{
    match word(w, work::UNTIL) {
        1 => Until::FirstDiagnostic,
        2 => Until::Entry(word(w, work::STOP)),
        _ => Until::TheEnd,
    }
}

// No line yet.
pub fn begin_lines(w: &mut [u32], until: Until)
    ensures { w.new ≡ no_lines_w w.old (until_of until) }
{
    put(w, work::PLACE, 0);
    put(w, work::PLACE_HIGH, 0);
    put(w, work::FULL, 0);
    put(w, work::UNTIL, until_word(until));
    put(w, work::LEFT, 0);
}

// No entry yet.
pub fn begin_entries(w: &mut [u32], until: Until)
    ensures { w.new ≡ no_entries_w w.old (until_of until) }
{
    put(w, work::STOP, stop_word(until));
    put(w, work::ENTERED, 0);
}

// The kinds of the lines: each line begins with its kind.
const CODE_LINE: u8 = 8;

const TEXT_LINE: u8 = 10;

const UNUSED_LINE: u8 = 12;

// The span stands in the node's line as the answer has it: sixteen digits, after the two of the line's kind.
fn span(f: &[u8], out: &mut [u8], at: usize, line: usize) -> Option<usize>
    ensures { WritesSpan f.now out.old at line out.new result }
{
    let digits = f.get(line..)?.get(2..18)?;
    writer::copy(out, at, digits)
}

// Each line is a list of its parts, and no two have the same: one function for all would be told each part again. They
// take what they read and write one by one: the words of a run change while its lines do not, and a place in the slice
// is no part of a run (crate writer says why it is a parameter).

// The line of a node whose entry left unmarked.
pub fn unused_line(f: &[u8], w: &[u32], out: &mut [u8], at: usize, n: u32) -> Option<usize>
    ensures { WritesUnusedLine f.now w.now out.old at n out.new result }
{
    let at = writer::byte(out, at, UNUSED_LINE)?;
    let at = span(f, out, at, tree::line_start(w, n))?;
    writer::close(out, at)
}

// The span of the node, and the code.
fn code_line(f: &[u8], w: &[u32], out: &mut [u8], at: usize, n: u32, m: Message) -> Option<usize>
    ensures { WritesCodeLine f.now w.now out.old at n m out.new result }
{
    let at = writer::byte(out, at, CODE_LINE)?;
    let at = span(f, out, at, tree::line_start(w, n))?;
    let at = messages::code_text(out, at, m)?;
    writer::close(out, at)
}

fn message_line(f: &[u8], w: &[u32], out: &mut [u8], at: usize, m: Message) -> Option<usize>
    ensures { WritesMessageLine f.now w.now out.old at m out.new result }
{
    let at = writer::byte(out, at, TEXT_LINE)?;
    let at = messages::text(f, w, out, at, m)?;
    writer::close(out, at)
}

// Both lines: the code with the span, and the text.
fn line(f: &[u8], w: &[u32], out: &mut [u8], at: usize, n: u32, m: Message) -> Option<usize>
    ensures { WritesBothLines f.now w.now out.old at n m out.new result }
{
    let e = code_line(f, w, out, at, n, m)?;
    message_line(f, w, out, e, m)
}

// One more in a counter, up to a limit.
fn bump(w: &mut [u32], counter: usize, limit: u32)
    ensures { w.new ≡ bumped_w counter limit w.old }
{
    let n = word(w, counter);
    if n < limit {
        put(w, counter, n + 1);
    }
}

#[tactic(auto, unfolding(crate::specs::Words::counted_w))]
fn count(w: &mut [u32])
    ensures { w.new ≡ counted_w w.old }
{
    bump(w, work::DIAGNOSTIC_COUNT, Counters::DIAGNOSTICS);
}

// ---- Entries to `unify`

#[tactic(auto, unfolding(crate::specs::Lines::entered_w))]
fn count_entry(w: &mut [u32])
    ensures { w.new ≡ entered_w w.old }
{
    bump(w, work::ENTERED, u32::MAX);
}

fn keep_sides(w: &mut [u32], got: Ty, expected: Ty, left: u32)
    ensures { w.new ≡ sides_w w.old got expected left }
{
    cells::put_ty(w, work::GOT, got);
    cells::put_ty(w, work::EXPECTED, expected);
    put(w, work::LEFT, left);
}

// ---- Variables

// The units of an entry's parts in its word, below them the unknown: the node that made it, and above it the variable.
const MAKER: u32 = Counters::UNKNOWNS;

const SYMBOL: u32 = MAKER * Counters::NODES;

// How many variables have room there.
const SYMBOLS: u32 = 16384;

// An entry in a word: the variable, the node that made it, and the unknown. A word it stays where it is found: a search
// asks for the variable alone, and `mark` and `leave_entry` for the two others.
fn entry(symbol: u32, node: u32, var: u32) -> u32
    requires { (symbol < 16384) × (node < 512) × (var < 512) }
    ensures { result ≡ symbol * 262144 + (node * 512 + var) }
{
    symbol * SYMBOL + (node * MAKER + var)
}

// Each part by its own name: one function over the size would call them high and low.
fn symbol_of(e: u32) -> u32
    ensures { result ≡ (entry_w e).symbol }
{
    e / SYMBOL
}

fn maker_of(e: u32) -> u32
    ensures { result ≡ (entry_w e).maker }
{
    e / MAKER % Counters::NODES
}

fn unknown_of(e: u32) -> u32
    ensures { result ≡ (entry_w e).unknown }
{
    e % MAKER
}

// So many entries are passed over at once where none is the variable's.
const BLOCK: u32 = 16;

// No entry ends the pass, so it is made of vectors: 1.6 instructions for each.
fn block_has_symbol(w: &[u32], symbol: u32, from: u32) -> bool
    requires { (from + 16 ≤ 512) × (MARKS ≤ length w.now) }
    ensures { result ≡ is_in symbol (symbols_of w.now from 16) }
{
    let mut found = false;
    for i in 0..BLOCK {
        found |= symbol_of(w[work::ENV + wide(from) + wide(i)]) == symbol;
    }
    found
}

// One by one, where all entries are within the slice: 8 instructions for each, and 14 where each read is tested.
fn lookup_back(w: &[u32], symbol: u32, n: u32) -> Option<u32>
    requires { (n ≤ 512) × (MARKS ≤ length w.now) }
    ensures { known_as result ≡ lookup_in (env_of w.now n) symbol }
{
    for i in (0..n).rev() {
        let e = w[work::ENV + wide(i)];
        if symbol_of(e) == symbol {
            return Some(e);
        }
    }
    None
}

// Past the blocks without it: a variable that is new is sought among all entries.
fn lookup_within(w: &[u32], symbol: u32, n: u32) -> Option<u32>
    requires { (n ≤ 512) × (MARKS ≤ length w.now) }
    ensures { known_as result ≡ lookup_in (env_of w.now n) symbol }
{
    let mut end = n;
    while BLOCK <= end && !block_has_symbol(w, symbol, end - BLOCK) {
        end -= BLOCK;
    }
    lookup_back(w, symbol, end)
}

// Newest first.
pub fn lookup(w: &[u32], symbol: u32) -> Option<u32>
    ensures { known_as result ≡ lookup_in (env_of w.now (get_or w.now ENV-LEN 0)) symbol }
{
    let n = word(w, work::ENV_LEN);
    if n <= Counters::ENTRIES && work::MARKS <= w.len() {
        return lookup_within(w, symbol, n);
    }
    (0..n)
        .rev()
        .map(|i| word(w, work::ENV + wide(i)))
        .find(|e| symbol_of(*e) == symbol)
}

fn push_env(w: &mut [u32], node: u32, symbol: u32, var: u32)
    ensures { w.new ≡ push_env_w w.old node symbol var }
{
    if symbol < SYMBOLS && node < Counters::NODES && var < Counters::UNKNOWNS {
        let e = entry(symbol, node, var);
        work::push(w, work::ENV, work::ENV_LEN, Counters::ENTRIES, e);
    }
}

// Where all marks are within the slice no read is tested. No mark ends the pass, so it is made of vectors: 1.2
// instructions for each, and 12 one by one.
fn is_marked_within(w: &[u32], var: u32, n: u32) -> bool
    requires { (n ≤ 512) × (UNUSED ≤ length w.now) }
    ensures { result ≡ is_in var (marks_of w.now n) }
{
    let mut found = false;
    for i in 0..n {
        found |= w[work::MARKS + wide(i)] == var;
    }
    found
}

// Newest first too, as the marks' list has them.
fn is_marked(w: &[u32], var: u32) -> bool
    ensures { result ≡ is_in var (marks_of w.now (get_or w.now MARK-COUNT 0)) }
{
    let n = word(w, work::MARK_COUNT);
    if n <= Counters::ENTRIES && work::UNUSED <= w.len() {
        return is_marked_within(w, var, n);
    }
    (0..n).rev().any(|i| word(w, work::MARKS + wide(i)) == var)
}

// An entry that a node finds is marked, once, unless the node made it.
fn mark(w: &mut [u32], node: u32, e: u32)
    ensures { w.new ≡ mark_w w.old node e }
{
    if maker_of(e) != node && !is_marked(w, unknown_of(e)) {
        let var = unknown_of(e);
        work::push(w, work::MARKS, work::MARK_COUNT, Counters::ENTRIES, var);
    }
}

fn leave_entry(w: &mut [u32], e: u32)
    ensures { w.new ≡ leave_entry_w w.old e }
{
    if !is_marked(w, unknown_of(e)) {
        let node = maker_of(e);
        work::push(w, work::UNUSED, work::UNUSED_COUNT, Counters::ENTRIES, node);
    }
}

// The entries from a number on leave, the oldest first; of those that are unmarked the makers are kept.
pub fn leave(w: &mut [u32], scope: u32)
    ensures { w.new ≡ leave_w w.old scope }
{
    let n = word(w, work::ENV_LEN);
    for i in scope..n {
        let e = word(w, work::ENV + wide(i));
        leave_entry(w, e);
    }
    put(w, work::ENV_LEN, scope);
}

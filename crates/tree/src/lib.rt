// The nodes and statements of a file that was read, taken from its digits where they stand.
#![tactic(auto)]

ghost use Rattle.std.specs.Prelude.{◌≡◌, ℕ, ◌+◌, ◌*◌, ◌<◌, ◌≤◌};
ghost use Rattle.sigla_hex.specs.Digits.{digit_w, digits_w, half_at};
ghost use Rattle.tree.specs.Nodes.{lower_w, full_at, field_w, item_w, stmt_w, stmt_size_w, line_start_w, ItemsAre, ParentIs, IsNode, head_w, BodyIs};

mod items;

pub use items::{Items, Stmts};
use work::{Counters, line_place, line_size, node_line, wide, word};

// A digit's value, and 16 for any other byte, which a file that was read has not: `hex_byte` adds up both digits, and
// of an Option it would make a number again.
fn digit(b: u8) -> u32
    ensures { (result ≡ digit_w b) × (result < 17) }
{
    u32::from(sigla_hex::value(b))
}

// The byte of two digits, and 0 past the end, where no line of a file that was read goes. A place is below 2^40, so
// that what is added to it fits.
fn hex_byte(f: &[u8], i: usize) -> u32
    requires { i < 1099511627776 }
    ensures { (result ≡ digits_w f.now i) × (result < 512) }
{
    let j = i + 1;
    if f.len() <= j {
        return 0;
    }
    digit(f[i]) * 16 + digit(f[j])
}

// Over digits, two to a byte: with `half` and `full` of crate frames it and the next share the factors alone.
fn hex_half(f: &[u8], i: usize) -> u32
    requires { i < 1099511627774 }
    ensures { (result ≡ half_at f.now i) × (result < 262144) }
{
    hex_byte(f, i) * 256 + hex_byte(f, i + 2)
}

// A predicate's number; in a line that was read each half is below 65,536 anyway.
fn hex_full(f: &[u8], i: usize) -> u32
    requires { i < 1099511627770 }
    ensures { result ≡ full_at f.now i }
{
    hex_half(f, i) % 65536 * 65536 + hex_half(f, i + 4) % 65536
}

#[derive(Drop)]
pub enum Node {
    Int,
    Str,
    Bytes,
    Var(u32),
    Wildcard,
    Never,
    Prefix(u32),
    Fuzzy(u32, u32),
    Record(Items),
    Key(u32, u32),
    Value(u32),
    Disjunction(Items),
    Subquery(u32, Stmts),
    Fact(u32, u32),
    Arith(Items),
    Error,
    Select(u32, u32),
}

#[derive(Drop)]
pub enum Stmt {
    Bind(u32, u32),
    Implicit(u32),
    Negation(u32),
    Deny(u32, u32),
    Compare(u32, u32),
}

// The name and the node of a record's field; a field of a record type, of crate reader, has a type.
#[derive(Drop)]
pub struct Field {
    pub name: u32,
    pub value: u32,
}

// A node names only lower ones, so that a walk ends: any other number is taken as 0, which no file that was read has.
fn lower(x: u32, below: u32) -> u32
    ensures { result ≡ lower_w x below }
{
    if x < below { x } else { 0 }
}

pub fn field_at(f: &[u8], l: Items, i: u32) -> Field
    ensures { result ≡ field_w f.now l i }
{
    let from = l.at + 8 * wide(i);
    Field {
        name: hex_half(f, from),
        value: lower(hex_half(f, from + 4), l.below),
    }
}

pub fn item_at(f: &[u8], l: Items, i: u32) -> u32
    ensures { result ≡ item_w f.now l i }
{
    lower(hex_half(f, l.at + 4 * wide(i)), l.below)
}

// Here and in `stmt_size` the place is below 2^31: `stmt` of crate checker says why no type says so.
pub fn stmt_at(f: &[u8], at: usize, below: u32) -> Stmt
    requires { at < 2147483648 }
    ensures { result ≡ stmt_w f.now at below }
{
    let tag = hex_byte(f, at);
    let a = lower(hex_half(f, at + 2), below);
    let b = lower(hex_half(f, at + 6), below);
    match tag {
        0 => Stmt::Bind(a, b),
        1 => Stmt::Implicit(a),
        2 => Stmt::Negation(a),
        3 => Stmt::Deny(a, b),
        _ => Stmt::Compare(a, b),
    }
}

// How many digits the statement takes. Crates frames and reading have it in bytes, for lines not yet read, frames with
// the tags that it refuses: of those none asks here.
pub fn stmt_size(f: &[u8], at: usize) -> usize
    requires { at < 2147483648 }
    ensures { result ≡ stmt_size_w f.now at }
{
    let tag = hex_byte(f, at);
    match tag {
        1 | 2 => 6,
        _ => 10,
    }
}

// Where the node's line starts.
pub fn line_start(w: &[u32], n: u32) -> usize
    ensures { result ≡ line_start_w w.now n }
{
    wide(line_place(node_line(word(w, work::NODES + wide(n)))))
}

// A node as the file has it. The file and the words are two parameters: a run (crate state) holds both, and asks here.
pub fn node_at(f: &[u8], w: &[u32], n: u32) -> Node
    ensures { IsNode f.now w.now n result }
{
    let x = node_line(word(w, work::NODES + wide(n)));
    let start = wide(line_place(x));
    let size = line_size(x);
    let shape = hex_byte(f, start + 18);
    let at = start + 20;
    let a = hex_half(f, at);
    match shape {
        0 => Node::Int,
        1 => Node::Str,
        2 => Node::Bytes,
        3 => Node::Var(a),
        4 => Node::Wildcard,
        5 => Node::Never,
        6 => Node::Prefix(a),
        7 => Node::Fuzzy(a, hex_byte(f, at + 4)),
        8 => Node::Record(items_of(at, size, 4, n)),
        11 => Node::Disjunction(items_of(at, size, 2, n)),
        14 => Node::Arith(items_of(at, size, 2, n)),
        _ => parent(f, start, size, shape, n),
    }
}

// The items of a node line of so many bytes; they start at byte 10. `node_at` owes the place, and `Items` has it on.
fn items_of(at: usize, size: u32, each: u32, below: u32) -> Items
    requires { (0 < each) × (at < 2147483648) }
    ensures { ItemsAre at size each below result }
{
    let n = if below == 0 {
        0
    } else {
        size.saturating_sub(10) / each
    };
    Items { at, n, below }
}

// A node with one node right below it, a subquery, or Error. The line ends near, as statements do. `shape` is the file's
// byte: `node_at` began to match it, and an enum of its values would be matched once more. In one match with those
// above, `_ if n == 0` would stand among the shapes, and both halves below would be made in each arm.
fn parent(f: &[u8], start: usize, size: u32, shape: u32, n: u32) -> Node
    requires { start + 2 * size < 2147483648 }
    ensures { ParentIs f.now start size shape n result }
{
    if n == 0 {
        return Node::Error;
    }
    let a = hex_half(f, start + 20);
    let b = lower(hex_half(f, start + 24), n);
    match shape {
        9 => Node::Key(a, b),
        10 => Node::Value(lower(a, n)),
        12 => Node::Subquery(
            lower(a, n),
            Stmts {
                at: start + 24,
                end: start + 2 * wide(size),
                below: n,
            },
        ),
        13 => Node::Fact(hex_full(f, start + 20), lower(hex_half(f, start + 28), n)),
        16 => Node::Select(a, b),
        _ => Node::Error,
    }
}

pub fn query_head(f: &[u8], w: &[u32]) -> u32
    ensures { result ≡ head_w f.now w.now }
{
    hex_half(f, wide(line_place(word(w, work::QUERY))) + 2)
}

pub fn query_body(w: &[u32]) -> Stmts
    ensures { BodyIs w.now result }
{
    let x = word(w, work::QUERY);
    let start = wide(line_place(x));
    Stmts {
        at: start + 6,
        end: start + 2 * wide(line_size(x)),
        below: Counters::NODES,
    }
}

// Node and query lines: what they name.
ghost use Rattle.std.specs.Prelude.{◌≡◌, ℕ, ◌+◌, ◌<◌, ◌≤◌, length, drop, ltb};
ghost use Rattle.format.specs.Frame.{node, query};
ghost use Rattle.reading.specs.Promises.{InEither, TakesAnywhere};
ghost use Rattle.reading.specs.OfLines.{TakesNodeOf};
ghost use Rattle.frames.specs.Promises.{edition_of};
ghost use Rattle.reading.specs.Marks.{ToldWhether, NamesNode, NamesFields, NamesItems, NamesStatements, NamesAll};

use crate::decoded::Line;
use crate::{Counters, Refusal};
use frames::{Edition, byte, half, reference_size};
use work::{is_named, node_word, put, wide, word};

// The bytes from n on; none past the end.
#[tactic(auto, using(frames::proofs::Shapes::to_end))]
fn past(s: &[u8], n: usize) -> &[u8]
    ensures { result.now ≡ drop n s.now }
{
    s.get(n..).unwrap_or(&[])
}

// A name is there: it is a number below their count.
fn check_name(name: u32, names: u32) -> Result<(), Refusal>
    ensures { ToldWhether (λ b. b ≡ ltb name names) result }
{
    if name < names {
        Ok(())
    } else {
        Err(Refusal::BadReference)
    }
}

// Marks a node as named: it is there, and was not named before.
fn name_node(w: &mut [u32], m: u32, nodes: u32) -> Result<(), Refusal>
    ensures { ToldWhether (NamesNode w.old m nodes w.new) result }
{
    let at = work::NODES + wide(m);
    let x = word(w, at);
    if nodes <= m || is_named(x) {
        return Err(Refusal::BadReference);
    }
    put(w, at, x + 1);
    Ok(())
}

// The fields of a record.
fn name_fields(fields: &[[u8; 4]], w: &mut [u32], names: u32, nodes: u32) -> Result<(), Refusal>
    ensures { ToldWhether (NamesFields fields.now w.old names nodes w.new) result }
{
    for field in fields {
        check_name(half(field, 0), names)?;
        name_node(w, half(field, 2), nodes)?;
    }
    Ok(())
}

// The branches or operands.
fn name_items(items: &[[u8; 2]], w: &mut [u32], nodes: u32) -> Result<(), Refusal>
    ensures { ToldWhether (NamesItems items.now w.old nodes w.new) result }
{
    for item in items {
        name_node(w, half(item, 0), nodes)?;
    }
    Ok(())
}

// Each takes three bytes or five, so the rest is walked, and not chunks of one size. What they take stands once more in
// `tree::stmt_size`, in digits, and in crate frames, which refuses the other tags: here an arm names the nodes with it.
fn name_statements(s: &[u8], w: &mut [u32], nodes: u32) -> Result<(), Refusal>
    ensures { ToldWhether (NamesStatements s.now w.old nodes w.new) result }
{
    let mut rest = s;
    while let [tag, ..] = rest {
        name_node(w, half(rest, 1), nodes)?;
        let size = match *tag {
            1 | 2 => 3,
            _ => {
                name_node(w, half(rest, 3), nodes)?;
                5
            }
        };
        rest = past(rest, size);
    }
    Ok(())
}

fn name_all(s: &[u8], w: &mut [u32], c: Counters, edition: Edition) -> Result<(), Refusal>
    requires { 10 ≤ length s.now }
    ensures { ToldWhether (NamesAll (edition_of edition) s.now w.old c.names c.nodes w.new) result }
{
    let rest = past(s, 10);
    // The shape is the file's byte, as in `type_frame` of crate frames.
    match byte(s, 9) {
        3 | 6 | 7 => check_name(half(s, 10), c.names),
        8 => name_fields(rest.as_chunks().0, w, c.names, c.nodes),
        9 | 16 => {
            check_name(half(s, 10), c.names)?;
            name_node(w, half(s, 12), c.nodes)
        }
        10 => name_node(w, half(s, 10), c.nodes),
        11 | 14 => name_items(rest.as_chunks().0, w, c.nodes),
        12 => {
            name_node(w, half(s, 10), c.nodes)?;
            name_statements(past(s, 12), w, c.nodes)
        }
        13 => name_node(w, half(s, 10 + reference_size(edition)), c.nodes),
        _ => Ok(()),
    }
}

pub fn take_node(
    line: Line,
    w: &mut [u32],
    c: Counters,
    edition: Edition,
) -> Result<Counters, Refusal>
    requires { (10 ≤ length line.bytes.now) × (c.nodes < 512) }
    ensures { TakesNodeOf line.entry edition w.old c w.new result }
{
    name_all(line.bytes, w, c, edition)?;
    put(
        w,
        work::NODES + wide(c.nodes),
        node_word(line.at, line.bytes.len()),
    );
    Ok(Counters {
        nodes: c.nodes + 1,
        ..c
    })
}

pub fn take_query(s: &[u8], w: &mut [u32], c: Counters) -> Result<Counters, Refusal>
    requires { c.queries < 64 }
    ensures { InEither (λ e. TakesAnywhere e query s.now w.old c w.new result) }
{
    name_node(w, half(s, 1), c.nodes)?;
    name_statements(past(s, 3), w, c.nodes)?;
    Ok(Counters {
        nodes: 0,
        queries: c.queries + 1,
        ..c
    })
}

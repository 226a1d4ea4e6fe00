// Types from the cells as words, written into a lent slice: the first stage of the plain solver (card 12), which is
// every binding, resolved, by ascending unknown, and the two sides, resolved.
#![tactic(auto)]

ghost use Rattle.spelling.specs.Tokens.{tokens, head_some, SpellsBinding, SpellsBindings, SpellsPair, SpellsStart};

use cells::{Part, Ty};
use resolving::{Script, ty};
use work::word;
use writer::{one, two};

// `l` and `at` are two parameters: crate writer says why.

// The words of a type: what each part of it is, and the number that belongs to it; shape by shape what answer writes in
// bytes. The numbers stand as they are: their names are crate plain's, which reads them and knows nothing of types, and
// for the names alone this crate would stand on it.
pub struct Tokens;

#[tactic(auto, unfolding(crate::specs::Tokens::tokens, plain_theory::specs::Words::leaf_spelled, plain_theory::specs::Words::kind_tag, plain_theory::specs::Words::head_spelled))]
impl Script for Tokens {
    type Cell = u32;

    ghost script = { tokens };

    fn head(w: &[u32], l: &mut [u32], at: usize, u: Ty) -> Option<usize> {
        match u {
            Ty::Int => one(l, at, 1),
            Ty::Str => one(l, at, 2),
            Ty::Bytes => one(l, at, 3),
            Ty::Fact(p) => two(l, at, 4, p),
            Ty::Record(c) => two(l, at, 5, cells::count(w, c)),
            Ty::Union(c) => two(l, at, 6, cells::count(w, c)),
            Ty::Var(x) => two(l, at, 7, x),
            Ty::Error => one(l, at, 8),
        }
    }

    fn part_head(l: &mut [u32], at: usize, u: Ty, p: &Part) -> Option<usize> {
        match u {
            Ty::Union(_) => {
                let at = two(l, at, 10, p.label)?;
                two(l, at, 9, p.key)
            }
            _ => two(l, at, 9, p.key),
        }
    }

    ghost head_some = { head_some };
}

// A bound unknown, and what it is bound to; nothing of a free one.
fn binding(w: &[u32], l: &mut [u32], at: usize, x: u32) -> Option<usize>
    ensures { SpellsBinding w.now l.old at x l.new result }
{
    match cells::var_ty(w, x) {
        None => Some(at),
        Some(_) => {
            let at = two(l, at, 11, x)?;
            ty::<Tokens>(w, l, at, Ty::Var(x))
        }
    }
}

// A `for` around one call, as `node_lines` of answer, which says why it is not shared.
fn bindings(w: &[u32], l: &mut [u32], mut at: usize) -> Option<usize>
    ensures { SpellsBindings w.now l.old at l.new result }
{
    for x in 0..word(w, work::UNKNOWNS) {
        at = binding(w, l, at, x)?;
    }
    Some(at)
}

fn pair(w: &[u32], l: &mut [u32], at: usize, a: Ty, b: Ty) -> Option<usize>
    ensures { SpellsPair w.now l.old at a b l.new result }
{
    let at = ty::<Tokens>(w, l, at, a)?;
    ty::<Tokens>(w, l, at, b)
}

// The first stage, from a place on: where its bindings end, and where it ends.
pub fn start(w: &[u32], l: &mut [u32], at: usize, a: Ty, b: Ty) -> Option<(usize, usize)>
    ensures { SpellsStart w.now l.old at a b l.new result }
{
    let sides = bindings(w, l, at)?;
    let end = pair(w, l, sides, a, b)?;
    Some((sides, end))
}

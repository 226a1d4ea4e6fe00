// How a type is written with every bound unknown replaced, whatever stands for a shape.
#![tactic(auto)]

ghost use Rattle.std.specs.Prelude.{ℕ, List, ◌≤◌, length};
ghost use Rattle.cells.specs.declared.Ty.{Ty};
ghost use Rattle.writer.specs.Writes.{Writes};
ghost use Rattle.resolving.specs.Scripts as scripts;
ghost use Rattle.resolving.specs.Scripts.{head_of, part_head_of, WritesTy};

use cells::{Part, Ty};

// What is written for a shape, before its parts and before a part, in bytes or in words.
pub trait Script {
    type Cell: Copy;

    ghost script: { scripts.Script Self.Cell };

    // What stands before the parts of a resolved type: its shape, with a number or with how many parts there are.
    fn head(w: &[u32], out: &mut [Self::Cell], at: usize, u: Ty) -> Option<usize>
        ensures { Writes out.old at (head_of script w.now u) out.new result };

    // What stands before a part's type: in a record the name, in a union the name and the discriminant.
    fn part_head(out: &mut [Self::Cell], at: usize, u: Ty, p: &Part) -> Option<usize>
        ensures { Writes out.old at (part_head_of script u p.now.key p.now.label) out.new result };

    ghost head_some: { (w : List ℕ) (u : Ty) → 1 ≤ length (head_of script w u) };
}

// The slice and the place go beside one another, as in crate writer, which says why.

// A type, resolved on the way. What stands before its parts is written first, so the room left falls.
pub fn ty<S: Script>(w: &[u32], out: &mut [S::Cell], at: usize, t: Ty) -> Option<usize>
    ensures { WritesTy S.script w.now out.old at t out.new result }
{
    let u = cells::repr(w, t);
    let mut at = S::head(w, out, at, u)?;
    for j in 0..cells::part_count(w, u) {
        let p = cells::part_of(w, u, j);
        let from = S::part_head(out, at, u, &p)?;
        at = ty::<S>(w, out, from, p.ty)?;
    }
    Some(at)
}

// A group of desks and a tally as words, for callers in other languages.
#![tactic(auto)]

ghost use Rattle.std.specs.Prelude.{◌≡◌};
ghost use Rattle.ledger.specs.Words.{group_of, group_words, tally_of, tally_words};

use cabinet::{Desk, Group};
use std::array;
use tariff::Tally;

// No impls of `From`: a group and a tally are other crates' types (orphan-impl), and those crates know of no words.

// The count, the pool, and of each desk the share, the cap and the use.
pub fn group(words: &[u32; 50]) -> Group
    ensures { result ≡ group_of words.now }
{
    Group {
        count: words[0],
        pool: words[1],
        desks: array::from_fn(|i| Desk {
            share: words[2 + 3 * i],
            cap: words[3 + 3 * i],
            used: words[4 + 3 * i],
        }),
    }
}

// The places are counted: what a slice holds after `as_chunks_mut` or `chunks_mut` no clause of std says.
pub fn put_group(words: &mut [u32; 50], g: Group)
    ensures { words.new ≡ group_words g }
{
    words[0] = g.count;
    words[1] = g.pool;
    for (i, d) in g.desks.iter().enumerate() {
        words[2 + 3 * i] = d.share;
        words[3 + 3 * i] = d.cap;
        words[4 + 3 * i] = d.used;
    }
}

pub fn tally(words: &[u32; 3]) -> Tally
    ensures { result ≡ tally_of words.now }
{
    Tally {
        units: words[0],
        cents: words[1],
        remainder: words[2],
    }
}

pub fn put_tally(words: &mut [u32; 3], t: Tally)
    ensures { words.new ≡ tally_words t }
{
    *words = [t.units, t.cents, t.remainder];
}

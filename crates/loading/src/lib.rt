// A query of a file that was read: where its lines stand goes into the work slice, beside the schema that the reading
// left there.
#![tactic(auto)]

ghost use Rattle.loading.specs.Promises.{Loads};

use frames::Kind;
use reading::Counters;
use work::{line_word, node_word, put, wide};

// The next query from `at` on; what comes back is where the lines after its 06 line start. Lines 01 to 04 are passed
// over, and where no query is found that is the file's end. No Option: it never failed, and a public function must not
// begin to; each walk over the queries compares the place with the file's length.
#[tactic(auto, using(crate::proofs::Loading::loading))]
pub fn load(file: &[u8], at: usize, w: &mut [u32]) -> usize
    ensures { Loads file.now at w.old w.new result }
{
    if Counters::FILE < file.len() {
        return file.len();
    }
    let mut nodes = 0;
    let mut i = at;
    // No bytes are decoded but the kind's: the reading had them all. Each line starts where `pass` says that the one
    // before ends: an iterator over the lines would have this one caller.
    while let Some((kind, n, next)) = frames::pass(file, i) {
        match frames::kind_of(kind) {
            Some(Kind::Query) => {
                put(w, work::QUERY, line_word(i, n));
                put(w, work::NODE_COUNT, nodes);
                return next;
            }
            Some(Kind::Node) if nodes < Counters::NODES => {
                put(w, work::NODES + wide(nodes), node_word(i, n));
                nodes += 1;
            }
            _ => {}
        }
        i = next;
    }
    file.len()
}

// Replays the recorded answers that stand on standard input (README.md has their layout): each file is checked, and
// what the program prints for it is held against what was recorded.
#![tactic(auto)]

use program::Job;
use std::io;
use std::io::Read;

// None where the input ends here or is no sample: a part has at most 2,048 bytes.
fn read_part<'a>(from: &mut impl Read, into: &'a mut [u8]) -> Option<&'a [u8]> {
    let mut head = [0; 4];
    from.read_exact(&mut head).ok()?;
    let part = into.get_mut(..usize::try_from(u32::from_be_bytes(head)).ok()?)?;
    from.read_exact(part).ok()?;
    Some(part)
}

// Whether the program prints what the next case of the sample has. None at the end.
fn next_case(
    from: &mut impl Read,
    file: &mut [u8],
    printed: &mut [u8],
    work: &mut [u32; 16384],
    out: &mut [u8; 65536],
) -> Option<bool> {
    let file = read_part(from, file)?;
    let printed = read_part(from, printed)?;
    let n = program::printed(Job::Check, file, work, out);
    Some(&out[..n] == printed)
}

// How many cases there are, and how many are answered otherwise. A sample has fewer than 65,536: the walk needs an end
// of its own, since an input need not have one.
fn replay(from: &mut impl Read) -> (u64, u64) {
    let mut file = [0; 2048];
    let mut printed = [0; 2048];
    let mut work = [0; 16384];
    let mut out = [0; 65536];
    let mut cases = 0u64;
    let mut otherwise = 0u64;
    for _ in 0..65536 {
        match next_case(from, &mut file, &mut printed, &mut work, &mut out) {
            Some(true) => {}
            Some(false) => otherwise = otherwise.wrapping_add(1),
            None => break,
        }
        cases = cases.wrapping_add(1);
    }
    (cases, otherwise)
}

fn main(rt: HostRuntime) -> io::Result<()> {
    let (cases, otherwise) = replay(&mut rt.stdin());
    println!(rt; "{cases} cases, {otherwise} answered otherwise")
}

// Lines of lower-case hexadecimal.
ghost use Rattle.std.specs.Prelude.{Some, ℕ, IsTrue, ◌≡◌, ◌↔◌, ◌+◌, ◌*◌, ◌<◌, ◌≤◌, length, get_or, map};
ghost use Rattle.format.specs.Lines.{LF};
ghost use Rattle.sigla_hex.specs.Digits.{digit_w, pair_at};
ghost use Rattle.frames.specs.Promises.{Decodes, PassesOver};

use std::simd::prelude::*;

// The byte of two digits; none where they are no digits. In lines that have digits alone `hex_byte` of crate tree and
// `byte` of load_counts read two: there any other byte counts 16, or 0.
#[tactic(auto, using(crate::proofs::Decoding::pairs))]
fn pair(file: &[u8], i: usize) -> Option<u8>
    requires { i + 1 < length file.now }
    ensures { result ≡ pair_at file.now i }
{
    let high = sigla_hex::digit(file[i])?;
    let low = sigla_hex::digit(file[i + 1])?;
    Some(high * 16 + low)
}

// The values of sixteen bytes, each as `sigla_hex::value` has it: reckoned, as no table is read sixteen at a time.
fn values(bytes: u8x16) -> u8x16
    ensures { result ≡ map digit_w bytes }
{
    let letters = (bytes - u8x16::splat(b'a')).simd_min(u8x16::splat(6)) + u8x16::splat(10);
    let decimals = bytes - u8x16::splat(b'0');
    decimals.simd_lt(u8x16::splat(10)).select(decimals, letters)
}

// How many of the eight pairs at a place are digits before the first that is none; `bytes` begins with theirs.
fn eight(file: &[u8], i: usize, bytes: &mut [u8]) -> usize
    requires file { i + 15 < length file.now }
    requires bytes { length bytes.old ≡ 8 }
    ensures most { result ≤ 8 }
    ensures are { (k : ℕ) → k < result → pair_at file.now (i + 2 * k) ≡ Some (get_or bytes.new k 0) }
{
    let values = values(u8x16::from_slice(&file[i..]));
    let high: u8x8 = values.swizzle([0, 2, 4, 6, 8, 10, 12, 14]);
    let low: u8x8 = values.swizzle([1, 3, 5, 7, 9, 11, 13, 15]);
    (high * u8x8::splat(16) + low).copy_to_slice(bytes);
    let others = values.simd_ge(u8x16::splat(16)).to_bitmask();
    (others.trailing_zeros() as usize / 2).min(8)
}

// Whether a line of n bytes, which needs one, ends at a place.
fn is_closed(file: &[u8], n: usize, end: usize) -> bool
    ensures { IsTrue result ↔ ((0 < n) × (end < length file.now) × (get_or file.now end 0 ≡ LF)) }
{
    0 < n && file.get(end) == Some(&b'\n')
}

// Bytes of a line at most. It is `Counters::LINE` of crate work, on which this crate does not stand: callers lend an
// array of that length, and of another length it would not be this one's type.
const LINE: usize = 512;

// The line at a place, decoded into `line`: how many bytes it has, and where the next one starts; none under condition
// 3, and past the end. How many pairs there are at most is asked once, so that no pair is tested for the file's end or
// the line's: by places, as over `chunks(2)` the reading of a file took 3 to 8 % longer. Eight pairs at a time, which
// takes a quarter of the instructions, up to the first that is none; pair by pair near the end of the file or the line.
pub fn decode(file: &[u8], at: usize, line: &mut [u8; LINE]) -> Option<(usize, usize)>
    ensures { Decodes file.now at line.new result }
{
    let most = (file.len().saturating_sub(at) / 2).min(LINE);
    let mut n = 0;
    while n + 8 <= most {
        let pairs = eight(file, at + 2 * n, &mut line[n..n + 8]);
        if pairs < 8 {
            n += pairs;
            break;
        }
        n += 8;
    }
    while n < most {
        let Some(b) = pair(file, at + 2 * n) else {
            break;
        };
        line[n] = b;
        n += 1;
    }
    let end = at + 2 * n;
    if is_closed(file, n, end) {
        Some((n, end + 1))
    } else {
        None
    }
}

// Whether LF stands at none of sixteen places. It goes on where it does, so that the processor compares all at once.
fn none_ends(file: &[u8], i: usize) -> bool
    requires { i + 15 < length file.now }
    ensures { IsTrue result ↔ ((k : ℕ) → k < 16 → ¬ (get_or file.now (i + k) 0 ≡ LF)) }
{
    let mut found = false;
    for k in 0..16 {
        found |= file[i + k] == b'\n';
    }
    !found
}

// What `decode` says of the line at a place, for a caller that reads the file again: of the bytes the first alone, the
// kind's, then how many there are, and where the next line starts. A byte has two digits, so LF is sought at every
// second place, and at sixteen at once as long as it is at none. Where `decode` gives none this may still give a place
// in the file.
#[tactic(auto, using(crate::proofs::Passing::passing))]
pub fn pass(file: &[u8], at: usize) -> Option<(u8, usize, usize)>
    ensures { PassesOver file.now at result }
{
    if file.len().saturating_sub(at) < 2 {
        return None;
    }
    let kind = pair(file, at)?;
    let end = file.len().min(at + 2 * LINE + 1);
    let mut i = at + 2;
    while 16 <= end.saturating_sub(i) && none_ends(file, i) {
        i += 16;
    }
    while i < end {
        if file[i] == b'\n' {
            return Some((kind, (i - at) / 2, i + 1));
        }
        i += 2;
    }
    None
}

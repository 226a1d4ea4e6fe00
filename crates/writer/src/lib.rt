// Bytes, numbers and texts as hexadecimal digits, written into a lent slice from a place on. All that is written is
// written here.
#![tactic(auto)]

ghost use Rattle.std.specs.Prelude.{[], ◌∷◌, ◌<◌, ◌≡◌};
ghost use Rattle.format.specs.Bytes.{hex_digit, bytes₂, bytes₄};
ghost use Rattle.writer.specs.Writes.{Writes, WritesText, hex_of};

// The slice and the place are two parameters: with a struct of both, writing took 2.5 times as long, as a store of a
// byte may be one of the place. The bar for this and for the table of digits is what answers took before
// (docs/PERFORMANCE.md, style `long-answer`).

// A byte or a word, if there is room.
pub fn one<T: Copy>(out: &mut [T], at: usize, x: T) -> Option<usize>
    ensures { Writes out.old at (x ∷ []) out.new result }
{
    if at < out.len() {
        out[at] = x;
        Some(at + 1)
    } else {
        None
    }
}

pub fn two<T: Copy>(out: &mut [T], at: usize, x: T, y: T) -> Option<usize>
    ensures { Writes out.old at (x ∷ y ∷ []) out.new result }
{
    let at = one(out, at, x)?;
    one(out, at, y)
}

// A part as it stands, if there is room for all of it.
pub fn copy<T: Copy>(out: &mut [T], at: usize, s: &[T]) -> Option<usize>
    ensures { Writes out.old at s.now out.new result }
{
    if out.len().checked_sub(at)? < s.len() {
        return None;
    }
    // `copy_from_slice` asks for memmove, and C gives the library memcpy and memset alone.
    for (i, &x) in s.iter().enumerate() {
        out[at + i] = x;
    }
    Some(at + s.len())
}

// By a table: by two additions, the writing of types took a fifth more instructions.
const DIGITS: &[u8; 16] = b"0123456789abcdef";

pub fn hex_digit(n: u8) -> u8
    requires { n < 16 }
    ensures { result ≡ hex_digit n }
{
    DIGITS[usize::from(n)]
}

pub fn byte(out: &mut [u8], at: usize, b: u8) -> Option<usize>
    ensures { Writes out.old at (hex_of (b ∷ [])) out.new result }
{
    let at = one(out, at, hex_digit(b / 16))?;
    one(out, at, hex_digit(b % 16))
}

// Numbers, the high byte first. `half`, `full` and `tagged` are two writers in a row each: all that they share is the
// `?`. Nor are they `text` of the number's bytes: those would be laid out as a slice, and gone over one by one.
pub fn half(out: &mut [u8], at: usize, x: u32) -> Option<usize>
    ensures { Writes out.old at (hex_of (bytes₂ x)) out.new result }
{
    let [_, _, high, low] = x.to_be_bytes();
    let at = byte(out, at, high)?;
    byte(out, at, low)
}

pub fn full(out: &mut [u8], at: usize, x: u32) -> Option<usize>
    ensures { Writes out.old at (hex_of (bytes₄ x)) out.new result }
{
    let at = half(out, at, x / 65536)?;
    half(out, at, x)
}

pub fn close(out: &mut [u8], at: usize) -> Option<usize>
    ensures { Writes out.old at (10 ∷ []) out.new result }
{
    one(out, at, b'\n')
}

// A byte and a number of two bytes.
pub fn tagged(out: &mut [u8], at: usize, b: u8, x: u32) -> Option<usize>
    ensures { Writes out.old at (hex_of (b ∷ bytes₂ x)) out.new result }
{
    let at = byte(out, at, b)?;
    half(out, at, x)
}

// The bytes of a text. The room is looked for once, so that nothing is asked for each byte. By the place, which is the
// answer too: over `as_chunks_mut` the part would be cut out first, and its end counted a second time.
pub fn text(out: &mut [u8], at: usize, s: &[u8]) -> Option<usize>
    ensures { WritesText out.old at s.now out.new result }
{
    if out.len().checked_sub(at)? / 2 < s.len() {
        return None;
    }
    let mut to = at;
    for &b in s {
        out[to] = hex_digit(b / 16);
        out[to + 1] = hex_digit(b % 16);
        to += 2;
    }
    Some(to)
}

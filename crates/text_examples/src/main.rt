// Runs both text tests on RFC 3629's example sequences and on the bytes either side of each of its limits, and prints
// for each what the first says and what the second says: the number of characters or `broken`.
#![tactic(auto)]

use std::io;

const EXAMPLES: &[&[u8]] = &[
    // The four sequences of section 7.
    b"\x41\xe2\x89\xa2\xce\x91\x2e",
    b"\xed\x95\x9c\xea\xb5\xad\xec\x96\xb4",
    b"\xe6\x97\xa5\xe6\x9c\xac\xe8\xaa\x9e",
    b"\xef\xbb\xbf\xf0\xa3\x8e\xb4",
    // One byte, and the least and the greatest of two, with what lies just outside.
    b"",
    b"\x00",
    b"\x7f",
    b"\xc0\x80",
    b"\xc1\xbf",
    b"\xc2\x80",
    b"\xdf\xbf",
    // The same of three.
    b"\xe0\x9f\xbf",
    b"\xe0\xa0\x80",
    b"\xef\xbf\xbf",
    // The same of four.
    b"\xf0\x8f\xbf\xbf",
    b"\xf0\x90\x80\x80",
    b"\xf4\x8f\xbf\xbf",
    b"\xf4\x90\x80\x80",
    // The values d800 to dfff, a pair of them, and their neighbours.
    b"\xed\x9f\xbf",
    b"\xed\xa0\x80",
    b"\xed\xad\xbf",
    b"\xed\xbf\xbf",
    b"\xed\xa0\xbd\xed\xb8\x80",
    b"\xee\x80\x80",
    // Bytes that start nothing.
    b"\x80",
    b"\xbf",
    b"\xf5\x80\x80\x80",
    b"\xf7\xbf\xbf\xbf",
    // Lengths above four.
    b"\xf8\x88\x80\x80\x80",
    b"\xfc\x84\x80\x80\x80\x80",
    b"\xfe",
    b"\xff",
    // Sequences that the end of the text cuts.
    b"\xc2",
    b"\xe2\x89",
    b"\xf0\xa3\x8e",
    // Sequences that another character cuts, and a tail too many.
    b"\xc2\x41",
    b"\xe2\x89\x41",
    b"\xe2\x89\xc2\xa2",
    b"\xf0\xa3\x8e\x41",
    b"\x41\xce\x91\x80",
];

fn say(rt: &impl Print, characters: Option<usize>) -> io::Result<()> {
    match characters {
        Some(n) => print!(rt; "{n}"),
        None => print!(rt; "broken"),
    }
}

fn main(rt: HostRuntime) -> io::Result<()> {
    for s in EXAMPLES {
        say(&rt, text::characters(s))?;
        print!(rt; " ")?;
        say(&rt, text::characters_by_table(s))?;
        println!(rt)?;
    }
    Ok(())
}

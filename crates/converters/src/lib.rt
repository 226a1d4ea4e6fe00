// Card 6: files of the narrow edition turned into the wide one, and back; the whole calls, with the parameters of the
// call of crate driver.
#![tactic(auto)]

ghost use Rattle.std.specs.Prelude.{◌≡◌, length};
ghost use Rattle.converters.specs.Promises.{decide_from, RunsTo, ConvertsFile, Widens, Narrows};

use reading::{Edition, Refusal};

// A file of this edition into the other one. Both slices hold anything afterwards, but for the output.
fn run(file: &[u8], work: &mut [u32], out: &mut [u8], from: Edition) -> Result<usize, Refusal>
    ensures { RunsTo (decide_from from file.now (length work.old)) work.old out.old work.new out.new result }
{
    reading::read_file(file, work, from)?;
    match from {
        Edition::Wide if convert::some_above(file) => Err(Refusal::NumberTooWide),
        _ => convert::convert(file, out, from).ok_or(Refusal::AnswerTooLong),
    }
}

// As `driver::check_file` does. What they share is `clear_after`: a common call would take the run as a closure over both
// slices, and be no shorter.
fn convert_file(
    file: &[u8],
    work: &mut [u32],
    out: &mut [u8],
    from: Edition,
) -> Result<usize, Refusal>
    ensures { ConvertsFile from file.now work.old out.old work.new out.new result }
{
    let r = run(file, work, out, from);
    driver::clear_after(r, work, out);
    r
}

// The two directions have a name each, as their programs, their calls for C and their promises have.

// A file of the narrow edition into the wide one.
pub fn widen(file: &[u8], work: &mut [u32], out: &mut [u8]) -> Result<usize, Refusal>
    ensures { Widens file.now work.old out.old work.new out.new result }
{
    convert_file(file, work, out, Edition::Narrow)
}

// A file of the wide edition into the narrow one.
pub fn narrow(file: &[u8], work: &mut [u32], out: &mut [u8]) -> Result<usize, Refusal>
    ensures { Narrows file.now work.old out.old work.new out.new result }
{
    convert_file(file, work, out, Edition::Wide)
}

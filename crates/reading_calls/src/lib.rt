// The reading alone, for the comparison with the Rust (tools/oracle): a program that embeds the checker has no use for
// it.
#![tactic(auto)]

ghost use Rattle.reading_calls.specs.Numbers.{CallsRead};

use reading::Edition;

// In C's numbers: 0 where the file passes refusals 1 to 10. What it says then stands in the slice (`Stands` of
// crates/tree/specs/Stands.antt), and words that this does not speak of hold anything. Else the refusal's number, and
// the slice is zero throughout.
#[unsafe(no_mangle)]
pub extern "C" fn sigla_read(file: &[u8], work: &mut [u32]) -> u8
    ensures { CallsRead file.now work.old work.new result }
{
    match reading::read_or_clear(file, work, Edition::Wide) {
        Ok(()) => 0,
        Err(e) => driver::refusal_number(e),
    }
}

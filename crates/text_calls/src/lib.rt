// Both text tests for programs in other languages, for comparison only: each is a call of its own.
#![tactic(auto)]

ghost use Rattle.std.specs.Prelude.{◌≡◌};
ghost use Rattle.text_calls.specs.Numbers.{number_of, CallsTest};

// The number of characters, or the largest number where the bytes are no text: C has no `Option`. `as`:
// no `From` leads from usize to u64.
fn number(characters: Option<usize>) -> u64
    ensures { result ≡ number_of characters }
{
    characters.map_or(u64::MAX, |n| n as u64)
}

#[unsafe(no_mangle)]
pub extern "C" fn sigla_characters(s: &[u8]) -> u64
    ensures { CallsTest s.now result }
{
    number(text::characters(s))
}

#[unsafe(no_mangle)]
pub extern "C" fn sigla_characters_by_table(s: &[u8]) -> u64
    ensures { CallsTest s.now result }
{
    number(text::characters_by_table(s))
}

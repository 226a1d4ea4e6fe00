// The bindings in words, from the words of the lent slice.
ghost use Rattle.std.specs.Prelude.{List, ◌≡◌};
ghost use Rattle.plain_theory.specs.Plain.{Binding};
ghost use Rattle.plain_theory.specs.Words.{bindings_spelled};
ghost use Rattle.sigla_inspect.specs.Text.{bindings_text};
ghost use Rattle.sigla_inspect.specs.Words.{tag_text, after_number, word_text, owing, words_text};
ghost use Rattle.sigla_inspect.specs.Promises.{HandsOver};

use input::Failure;
use std::io::Write;

// The tags that more is done with than to print their text, as the words which C is given too have them.
const FACT: u32 = 4;

const ERROR: u32 = 8;

const BINDING: u32 = 11;

// A line for each binding.
pub fn write_bindings<W: Write>(to: &mut W, words: &[u32]) -> Result<(), Failure>
    ensures { (bs : List Binding) → words.now ≡ bindings_spelled bs
        → HandsOver (W.contents to.old) (W.contents to.new) result (bindings_text bs) }
{
    let [_, rest @ ..] = words else {
        return Ok(());
    };
    input::write(to, b"?")?;
    write_words(to, Some(BINDING), rest)?;
    input::write(to, b"\n")
}

// Behind the tag of a binding, or behind none that has a number.
fn write_words<W: Write>(to: &mut W, tag: Option<u32>, words: &[u32]) -> Result<(), Failure>
    ensures { HandsOver (W.contents to.old) (W.contents to.new) result (words_text tag words.now) }
{
    let mut before = tag;
    for &word in words {
        write_word(to, before, word)?;
        before = owing(before, word);
    }
    Ok(())
}

fn write_word<W: Write>(to: &mut W, tag: Option<u32>, word: u32) -> Result<(), Failure>
    ensures { HandsOver (W.contents to.old) (W.contents to.new) result (word_text tag word) }
{
    match tag {
        None => input::write(to, tag_text(word).as_bytes()),
        Some(tag) => {
            input::write(to, itoa::Buffer::new().format(word).as_bytes())?;
            input::write(to, after_number(tag).as_bytes())
        }
    }
}

#[tactic(auto, unfolding(crate::specs::Words::tag_text))]
fn tag_text(tag: u32) -> &'static str
    ensures { result.now ≡ tag_text tag }
{
    match tag {
        1 => " Int",
        2 => " String",
        3 => " Bytes",
        4 => " fact ",
        5 => " record ",
        6 => " union ",
        7 => " ?",
        8 => " Error",
        9 => " .",
        10 => " |",
        // A line for each binding.
        _ => "\n?",
    }
}

#[tactic(auto, unfolding(crate::specs::Words::after_number))]
fn after_number(tag: u32) -> &'static str
    ensures { result.now ≡ after_number tag }
{
    if tag == BINDING { " =" } else { "" }
}

// The tag whose number is the next word.
#[tactic(auto, unfolding(crate::specs::Words::owing))]
fn owing(tag: Option<u32>, word: u32) -> Option<u32>
    ensures { result ≡ owing tag word }
{
    if tag.is_some() || word < FACT || word == ERROR {
        None
    } else {
        Some(word)
    }
}

// Reads drills in shorthand: what an input is, and the kinds of a good text's objects.
#![tactic(auto)]

ghost use Rattle.std.specs.Prelude.{◌≡◌};
ghost use Rattle.letters_grammar.specs.Letters.{trimmed};
ghost use Rattle.letters_shorthand.specs.Input.{ReadDrill};

use crate::reader::read_text;
use lent::fill;
use letters_count::{MOST_OBJECTS, Refusal};

mod reader;

// The most bytes of a text.
pub const MOST_BYTES: usize = 4096;

// What is wrong with an input: over 4,096 bytes, or a text that is refused.
#[derive(Clone, Copy, Debug, PartialEq, Eq)]
pub enum InputError {
    Long,
    Refused(Refusal),
}

impl From<Refusal> for InputError {
    ghost use Rattle.letters_shorthand.specs.declared.InputError.TheVariants.{Refused};

    ghost from_gives = { λ r e. e ≡ Refused r };

    fn from(refusal: Refusal) -> InputError {
        InputError::Refused(refusal)
    }
}

// A text without one line feed at its end.
fn trimmed(s: &[u8]) -> &[u8]
    ensures { result.now ≡ trimmed s.now }
{
    s.strip_suffix(b"\n").unwrap_or(s)
}

// How many objects the text has, but for one line feed at its end, or what is wrong with the input.
// The kinds' front holds the objects of a good text; else the kinds are left as they are: lent, fixed memory, so the
// objects' number is handed back.
pub fn read_input(s: &[u8], kinds: &mut [u8; MOST_OBJECTS]) -> Result<usize, InputError>
    ensures { ReadDrill (trimmed s.now) kinds.old kinds.new result }
{
    let text = trimmed(s);
    if MOST_BYTES < text.len() {
        return Err(InputError::Long);
    }
    // a text that is refused in its midst has left objects here; an array, since there is no heap
    let mut found = [0u8; MOST_OBJECTS];
    let count = read_text(text, &mut found)?.count;
    fill::copy(&found[..count], kinds);
    Ok(count)
}

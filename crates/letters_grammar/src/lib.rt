// Letters and their kinds; the grammar of drills in shorthand, the reading byte by byte, and the theorems that one is
// the other, of which specs/ and proofs/ speak alone.
#![tactic(auto)]

ghost use Rattle.std.specs.Prelude.{◌≡◌};
ghost use Rattle.grouping_chart.specs.Object.{kind_number};
ghost use Rattle.letters_grammar.specs.Letters.{is_letter, kind_of, letter_of};

use grouping_chart::object::Kind;

// Whether a byte is d, k or n.
#[tactic(auto, unfolding(crate::specs::Letters::is_letter))]
pub fn is_letter(b: u8) -> bool
    ensures { result ≡ is_letter b }
{
    matches!(b, b'd' | b'k' | b'n')
}

// A letter's kind; any other byte counts as n. No From here or at letter_of: Kind, u8 and char are all other crates'.
#[tactic(auto, unfolding(crate::specs::Letters::kind_of))]
pub fn kind_of(b: u8) -> Kind
    ensures { kind_number result ≡ kind_of b }
{
    match b {
        b'd' => Kind::Center,
        b'k' => Kind::Rim,
        _ => Kind::NonHit,
    }
}

// A column of kinds is bytes, since encode is lent bytes; any but the first two kinds counts as n.
#[tactic(auto, unfolding(crate::specs::Letters::letter_of))]
pub fn letter_of(kind: u8) -> char
    ensures { result ≡ letter_of kind }
{
    match Kind::try_from(kind) {
        Ok(Kind::Center) => 'd',
        Ok(Kind::Rim) => 'k',
        Ok(Kind::NonHit) | Err(_) => 'n',
    }
}

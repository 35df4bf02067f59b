// The readers of a text: a sequence reads items, an item may be a bracket, and a bracket holds an item and a sequence.
ghost use Rattle.std.specs.Prelude.{◌≡◌, [], ◌∷◌, ℕ, ◌≤◌, length, Err};
ghost use Rattle.grouping_chart.specs.Object.{kind_number};
ghost use Rattle.letters_grammar.specs.Letters.{opening_byte, exchanged_if};
ghost use Rattle.letters_grammar.specs.Reading.{most_objects};
ghost use Rattle.letters_count.specs.passes.Counts.{refusal, Room};
ghost use Rattle.letters_shorthand.specs.passes.Readers.{AtByte, AtLetter};
ghost use Rattle.letters_shorthand.specs.passes.Readers.{ItemRead, SequenceRead, TextRead};

use grouping_chart::object::Kind;
use letters_count::{Cursor, Fault, MOST_OBJECTS, Refusal, counted};
use letters_grammar::{is_letter, kind_of};

// The most open brackets.
const MOST_BRACKETS: usize = 16;

fn refuse(fault: Fault, place: usize) -> Result<Cursor, Refusal>
    ensures { result ≡ Err (refusal fault place) }
{
    Err(Refusal { fault, place })
}

// A text, how many brackets are open around what is read, and whether d and k are exchanged there.
// The kinds are not in it: a contract would have to say of each method that they are still those that were lent. Nor is
// a cursor's place or count an invariant, as `Room` speaks of text, kinds and cursor together.
#[derive(Clone, Copy)]
struct Reader<'a> {
    text: &'a [u8],
    depth: usize,
    swapped: bool,
}

impl Reader<'_> {
    // Items side by side, or none, up to a closing bracket or the end.
    #[cycle(bracket_item_sequence)]
    fn sequence(&self, kinds: &mut [u8], c: Cursor) -> Result<Cursor, Refusal>
        requires { Room self.now.text.now kinds.old c }
        ensures { SequenceRead self.now.text.now kinds.old kinds.new c self.now.depth self.now.swapped result }
    {
        match self.text.get(c.at) {
            Some(&b) if b != b')' => {
                let next = self.item(kinds, c)?;
                self.sequence(kinds, next)
            }
            _ => Ok(c),
        }
    }

    // One item: `~` and an item, a bracket, or a letter.
    #[cycle(bracket_item_sequence)]
    fn item(&self, kinds: &mut [u8], c: Cursor) -> Result<Cursor, Refusal>
        requires { Room self.now.text.now kinds.old c }
        ensures { ItemRead self.now.text.now kinds.old kinds.new c self.now.depth self.now.swapped result }
    {
        let at = c.at;
        let Some(&b) = self.text.get(at) else {
            return refuse(Fault::Misplaced, at);
        };
        match b {
            b'~' => {
                let exchanged = Reader {
                    swapped: !self.swapped,
                    ..*self
                };
                exchanged.item(kinds, Cursor { at: at + 1, ..c })
            }
            b'(' => self.bracket(kinds, c),
            _ if is_letter(b) => self.letter(kinds, c),
            _ => refuse(Fault::Misplaced, at),
        }
    }

    // An opening bracket, an item, a sequence, a closing bracket, and a count or none.
    #[cycle(bracket_item_sequence)]
    fn bracket(&self, kinds: &mut [u8], c: Cursor) -> Result<Cursor, Refusal>
        requires { Room self.now.text.now kinds.old c × AtByte self.now.text.now c opening_byte }
        ensures { ItemRead self.now.text.now kinds.old kinds.new c self.now.depth self.now.swapped result }
    {
        let at = c.at;
        if MOST_BRACKETS <= self.depth {
            return refuse(Fault::TooDeep, at);
        }
        let inside = Reader {
            depth: self.depth + 1,
            ..*self
        };
        let next = inside.item(kinds, Cursor { at: at + 1, ..c })?;
        let end = inside.sequence(kinds, next)?;
        let to = end.at;
        // a sequence stops at a closing bracket or at the end
        match self.text.get(to) {
            Some(_) => counted(self.text, kinds, Cursor { at: to + 1, ..end }, c.count),
            None => refuse(Fault::Misplaced, to),
        }
    }

    // A letter, and a count or none.
    fn letter(&self, kinds: &mut [u8], c: Cursor) -> Result<Cursor, Refusal>
        requires { Room self.now.text.now kinds.old c × AtLetter self.now.text.now c }
        ensures { (depth : ℕ) → ItemRead self.now.text.now kinds.old kinds.new c depth self.now.swapped result }
    {
        let at = c.at;
        let n = c.count;
        if MOST_OBJECTS <= n {
            return refuse(Fault::Crowded, at);
        }
        kinds[n] = u8::from(exchanged_if(self.swapped, kind_of(self.text[at])));
        let behind = Cursor {
            at: at + 1,
            count: n + 1,
        };
        counted(self.text, kinds, behind, n)
    }
}

// A kind, with d and k exchanged or not.
#[tactic(auto, using(crate::proofs::ReaderLaws::exchanges))]
fn exchanged_if(swapped: bool, kind: Kind) -> Kind
    ensures { kind_number result ∷ [] ≡ exchanged_if swapped (kind_number kind ∷ []) }
{
    match kind {
        Kind::Center if swapped => Kind::Rim,
        Kind::Rim if swapped => Kind::Center,
        _ => kind,
    }
}

// A whole text. Where it is good its objects are the kinds' front.
pub fn read_text(t: &[u8], kinds: &mut [u8]) -> Result<Cursor, Refusal>
    requires { most_objects ≤ length kinds.old }
    ensures { TextRead t.now kinds.new result }
{
    let reader = Reader {
        text: t,
        depth: 0,
        swapped: false,
    };
    let end = reader.sequence(kinds, Cursor { at: 0, count: 0 })?;
    // a sequence ends before the text does at a closing bracket
    let to = end.at;
    if to < t.len() {
        return refuse(Fault::Misplaced, to);
    }
    Ok(end)
}

// The source's two numberings, of objects and of notes, and the kinds of objects.
ghost use Rattle.std.specs.Prelude.{◌≡◌, cond, ◌+◌, ◌^◌, ◌<◌, MatchResult};
ghost use Rattle.grouping_chart.specs.Object.{is_note, kind_number, note_before, note_following};

// How many objects stand before one.
#[derive(Clone, Copy, PartialEq, Eq, Debug)]
pub struct ObjectIndex(pub usize);

// How many notes stand before an object; where it is an object's own number, a NonHit's is 0.
#[derive(Clone, Copy)]
pub struct NoteIndex(pub usize);

// What an object is. A lent slice of kinds has their numbers, since C lends bytes.
#[derive(Clone, Copy, PartialEq, Eq, Debug)]
pub enum Kind {
    Center,
    Rim,
    NonHit,
}

// A byte that is no kind's number.
#[derive(Clone, Copy, PartialEq, Eq, Debug)]
pub struct UnknownKind;

impl Kind {
    // Center and Rim are notes.
    #[tactic(auto, unfolding(crate::specs::Object::is_note))]
    pub fn is_note(self) -> bool
        ensures { result ≡ is_note (kind_number self) }
    {
        match self {
            Kind::Center | Kind::Rim => true,
            Kind::NonHit => false,
        }
    }
}

impl From<Kind> for u8 {
    ghost from_gives = { λ k n. n ≡ kind_number k };

    fn from(kind: Kind) -> u8 {
        match kind {
            Kind::Center => 0,
            Kind::Rim => 1,
            Kind::NonHit => 2,
        }
    }
}

impl TryFrom<u8> for Kind {
    type Error = UnknownKind;

    ghost try_from_gives = { λ n r. MatchResult r (λ k. kind_number k ≡ n) (λ _. 2 < n) };

    fn try_from(number: u8) -> Result<Kind, UnknownKind> {
        match number {
            0 => Ok(Kind::Center),
            1 => Ok(Kind::Rim),
            2 => Ok(Kind::NonHit),
            _ => Err(UnknownKind),
        }
    }
}

// Whether a byte is the number of a kind that is a note.
#[tactic(auto, unfolding(crate::specs::Object::is_note))]
pub fn is_note(kind: u8) -> bool
    ensures { result ≡ is_note kind }
{
    match Kind::try_from(kind) {
        Ok(known) => known.is_note(),
        Err(_) => false,
    }
}

// The note number of an object of this kind, where `next` notes stand before it: 0 where there is none, which is what
// the source says and so no plainer as an Option.
pub fn note_index(kind: u8, next: NoteIndex) -> NoteIndex
    ensures { result.0 ≡ cond (is_note kind) next.0 0 }
{
    if is_note(kind) { next } else { NoteIndex(0) }
}

// How many notes stand before the object after it.
pub fn note_after(kind: u8, next: NoteIndex) -> NoteIndex
    requires { next.0 + 1 < 2 ^ 64 }
    ensures { result.0 ≡ cond (is_note kind) (next.0 + 1) next.0 }
{
    if is_note(kind) {
        let n = next.0;
        NoteIndex(n + 1)
    } else {
        next
    }
}

// The number of the note before the one numbered j, as the source's previous_note finds it. Here and below a number has
// the width of a lent slice's.
#[tactic(auto, unfolding(crate::specs::Object::note_before))]
pub fn note_before(j: u16) -> Option<u16>
    ensures { result ≡ note_before j }
{
    j.checked_sub(1)
}

// And of the note after it, of n notes, as its next_note does.
#[tactic(auto, unfolding(crate::specs::Object::note_following))]
pub fn note_following(n: u16, j: u16) -> Option<u16>
    requires { j < 65535 }
    ensures { result ≡ note_following n j }
{
    if j + 1 < n { Some(j + 1) } else { None }
}

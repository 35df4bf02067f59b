// The count behind a letter or a bracket, and what it does: the objects of that item stand so many times.
#![tactic(auto)]

ghost use Rattle.std.specs.Prelude.{◌≡◌, ◌+◌, ◌-◌, ◌*◌, ◌≤◌, ◌<◌, IfSome, length, take};
ghost use Rattle.letters_grammar.specs.Reading.{repeated};
ghost use Rattle.letters_count.specs.passes.Counts.{Room, CountRead, digit_at, count_at, Repeating};
ghost use Rattle.letters_count.specs.Numbers.{number_of};

use lent::fill;

// The most objects of a text.
pub const MOST_OBJECTS: usize = 1024;

// A place in the text, and how many objects were read before it: their kinds stand in lent, fixed memory.
#[derive(Clone, Copy, Debug, PartialEq, Eq)]
pub struct Cursor {
    pub at: usize,
    pub count: usize,
}

// Why a text is refused: a byte can't be there, or adds too many objects, or opens too many brackets.
#[derive(Clone, Copy, Debug, PartialEq, Eq)]
pub enum Fault {
    Misplaced,
    Crowded,
    TooDeep,
}

// The first refusal, and its place.
#[derive(Clone, Copy, Debug, PartialEq, Eq)]
pub struct Refusal {
    pub fault: Fault,
    pub place: usize,
}

// A count, and the place of its last digit.
#[derive(Clone, Copy, Debug, PartialEq, Eq)]
pub struct Times {
    pub count: usize,
    pub last: usize,
}

// The number by which a refusal is told.
impl From<Fault> for u64 {
    ghost from_gives = { λ f n. n ≡ number_of f };

    fn from(fault: Fault) -> u64 {
        match fault {
            Fault::Misplaced => 12,
            Fault::Crowded => 13,
            Fault::TooDeep => 14,
        }
    }
}

// The digit at a place.
#[tactic(auto, using(crate::proofs::DigitLaws::digits), unfolding(crate::specs::passes::Counts::digit_at))]
fn digit_at(s: &[u8], at: usize) -> Option<usize>
    ensures value { result ≡ digit_at s.now at }
    ensures small { IfSome result (λ d. d < 10) }
{
    match s.get(at) {
        Some(b @ b'0'..=b'9') => Some(usize::from(b - b'0')),
        _ => None,
    }
}

// The count at a place: a first digit is no 0, and a lone one is no 1.
#[tactic(auto, using(crate::proofs::DigitLaws::counts))]
fn count_at(s: &[u8], at: usize) -> Result<Option<Times>, Refusal>
    requires { at ≤ length s.now }
    ensures { result ≡ count_at s.now at }
{
    let Some(a) = digit_at(s, at) else {
        return Ok(None);
    };
    if a == 0 {
        return Err(Refusal {
            fault: Fault::Misplaced,
            place: at,
        });
    }
    let next = at + 1;
    match digit_at(s, next) {
        Some(b) => Ok(Some(Times {
            count: 10 * a + b,
            last: next,
        })),
        None if a == 1 => Err(Refusal {
            fault: Fault::Misplaced,
            place: next,
        }),
        None => Ok(Some(Times { count: a, last: at })),
    }
}

// A count, or none, for the objects from `start` on.
pub fn counted(s: &[u8], kinds: &mut [u8], c: Cursor, start: usize) -> Result<Cursor, Refusal>
    requires { Room s.now kinds.old c × (start ≤ c.count) }
    ensures { CountRead s.now kinds.old kinds.new c start result }
{
    let Some(times) = count_at(s, c.at)? else {
        return Ok(c);
    };
    let last = times.last;
    let next = last + 1;
    let total = start + times.count * (c.count - start);
    if MOST_OBJECTS < total {
        return Err(Refusal {
            fault: Fault::Crowded,
            place: last,
        });
    }
    repeat(kinds, start, c.count, times.count);
    Ok(Cursor {
        at: next,
        count: total,
    })
}

// The objects from `start` to `end` stand n times from `start` on.
fn repeat(kinds: &mut [u8], start: usize, end: usize, n: usize)
    requires { Repeating start end n (length kinds.old) }
    ensures { take (start + n * (end - start)) kinds.new ≡ repeated n start (take end kinds.old) }
{
    let size = end - start;
    for k in 1..n {
        // the last of them, which ends at `to`
        let to = start + k * size;
        let (stored, free) = kinds.split_at_mut(to);
        fill::copy(&stored[to - size..], free);
    }
}

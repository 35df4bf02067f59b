// What is refused of a stretch, and its mean. A stretch of a chart is taken by its first object and how many objects it
// has: no end past the chart is formed, which could wrap.
ghost use Rattle.std.specs.Prelude.{◌≡◌, ◌+◌, cond, ◌≤◌, length};
ghost use Rattle.numeric.specs.Constants.{minus_zero64};
ghost use Rattle.lent.specs.Over.{part};
ghost use Rattle.grouping_chart.specs.Object.{is_note};
ghost use Rattle.grouping_interval.specs.Notes.{of_notes};
ghost use Rattle.call_colour.specs.Stretch.{has_note, stretch_refusal, average_of};
ghost use Rattle.call_colour.specs.passes.Rooms.{AverageRoom, StretchRoom};

use grouping_chart::object::is_note;
use grouping_chart::refusal::Reason;

// Whether one of the objects is a note. The first that is one ends the search.
fn has_note(kind: &[u8]) -> bool
    ensures { result ≡ has_note kind.now }
{
    kind.iter().any(|k| is_note(*k))
}

// The objects of a stretch, or what there is of each of them.
fn objects_of<T>(items: &[T], offset: usize, n: usize) -> &[T]
    requires { offset + n ≤ length items.now }
    ensures { result.now ≡ part offset n items.now }
{
    &items[offset..][..n]
}

// Whether a stretch is good. One that is empty or ends past the chart is refused, then one that has no note.
#[tactic(auto, unfolding(crate::specs::Stretch::stretch_refusal), using(crate::proofs::StretchCases::stretch_parts))]
pub fn stretch_refusal(kind: &[u8], offset: usize, length: usize) -> Result<(), Reason>
    ensures { result ≡ stretch_refusal kind.now offset (offset + length) }
{
    if length == 0 {
        return Err(Reason::OutOfRange);
    }
    if kind.len() < offset {
        return Err(Reason::OutOfRange);
    }
    if kind.len() - offset < length {
        return Err(Reason::OutOfRange);
    }
    if !has_note(objects_of(kind, offset, length)) {
        return Err(Reason::NoNotes);
    }
    Ok(())
}

// The same of the stretch that has object a and not object b.
pub fn refusal_between(kind: &[u8], a: usize, b: usize) -> Result<(), Reason>
    ensures { result ≡ stretch_refusal kind.now a b }
{
    if b < a {
        return Err(Reason::OutOfRange);
    }
    stretch_refusal(kind, a, b - a)
}

// What an object adds to a sum: a note its value, a NonHit -0.0, which changes no sum. It is read by its kind's place,
// since a choice between two floats would be left to a jump by the kind.
fn addend(kind: u8, value: f64) -> f64
    requires { kind ≤ 2 }
    ensures { result ≡ cond (is_note kind) value minus_zero64 }
{
    let addends = [value, value, -0.0];
    addends[usize::from(kind)]
}

// The notes' values, added from left to right, from 0.0, each sum rounded, and divided by how many they are.
fn average(kind: &[u8], value: &[f64]) -> f64
    requires { AverageRoom kind.now value.now }
    ensures { result ≡ average_of (of_notes kind.now value.now) }
{
    let mut sum: f64 = 0.0;
    let mut notes = 0;
    for (k, v) in kind.iter().zip(value) {
        sum += addend(*k, *v);
        notes += usize::from(is_note(*k));
    }
    sum / (notes as f64)
}

// The average of a stretch's notes.
pub fn mean(kind: &[u8], value: &[f64], offset: usize, length: usize) -> f64
    requires { StretchRoom kind.now value.now offset length }
    ensures { result ≡ average_of (of_notes (part offset length kind.now) (part offset length value.now)) }
{
    average(
        objects_of(kind, offset, length),
        objects_of(value, offset, length),
    )
}

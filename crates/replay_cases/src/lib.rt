// The stored cases of all calls: what follows a head in a file, and whether a case holds, whichever call it is of.
#![tactic(auto)]

ghost use Rattle.std.specs.Prelude.{◌≡◌};
ghost use Rattle.vectors.specs.Held.{Tells};
ghost use Rattle.replay_cases.specs.Cases.{follows_in, ChartHolds, PartHolds};

use vectors::call::Call;
use vectors::case::{Case, Head};
use vectors::room::Spare;

pub mod count;
pub mod tally;

// The most bytes of a case with a chart, and of one on a chart: build's and turns' have most.
pub const MOST_BODY: usize = cases_build::MOST_BODY;

pub const MOST_PART: usize = cases_turns::MOST_PART;

// What follows a head: the body of a case with a chart, a part of the case before it, or nothing that belongs there.
// An `Option` of an enum of the first two would be no plainer: who asks takes all three apart in one match.
#[derive(Clone, Copy)]
pub enum Next {
    Body,
    Part,
    Nothing,
}

// What follows the head in the file of this call's charts.
#[tactic(auto, using(vectors::proofs::CallLaws::asked, vectors::proofs::CallLaws::not_asked))]
pub fn follows(call: Call, h: Head) -> Next
    ensures { result ≡ follows_in call h }
{
    match (call, h.call) {
        (asked, Some(own)) if asked == own => Next::Body,
        (Call::Encode, Some(Call::Turns))
        | (Call::Colour, Some(Call::Stretch | Call::Lesson))
        | (Call::Rhythm, Some(Call::Record)) => Next::Part,
        _ => Next::Nothing,
    }
}

// Whether a case with a chart of its own, or with what one is built of, holds, in slices with so many places to spare.
// Tried as one match on `Some(Call::Build)` and so on: the proof of its last arm did not close.
pub fn chart_holds(case: Case, spare: Spare) -> bool
    ensures { Tells result (ChartHolds case.entry.head case.entry.bytes.now spare.places) }
{
    let Some(call) = case.head.call else {
        return false;
    };
    match call {
        Call::Build => cases_build::holds(case, spare),
        Call::Encode => cases_encode::holds(case, spare),
        Call::Colour => cases_colour::holds(case, spare),
        Call::Rhythm => cases_rhythm::holds(case, spare),
        _ => false,
    }
}

// Whether a case on the chart of another one holds. Two matches, as above.
pub fn part_holds(chart: Case, part: Case, spare: Spare) -> bool
    ensures { Tells result (PartHolds chart.entry.head chart.entry.bytes.now
        part.entry.head part.entry.bytes.now spare.places) }
{
    let Some(call) = part.head.call else {
        return false;
    };
    match call {
        Call::Turns => cases_turns::holds(chart, part, spare),
        Call::Stretch => cases_colour::stretch_holds(chart, part, spare),
        Call::Lesson => cases_lesson::holds(chart, part, spare),
        Call::Record => cases_record::holds(chart, part, spare),
        _ => false,
    }
}

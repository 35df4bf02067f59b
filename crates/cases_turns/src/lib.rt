// Stored turns of the chart of an encode case.
#![tactic(auto)]

ghost use Rattle.std.specs.Prelude.{◌≡◌, ◌+◌, ◌≤◌, length};
ghost use Rattle.grouping_chart.specs.Settings.{base_settings};
ghost use Rattle.grouping_chart.specs.Outcome.{outcome};
ghost use Rattle.grouping_chart.specs.Lent.{seen};
ghost use Rattle.call_turns.specs.Call.{memory, turns_outcome};
ghost use Rattle.vectors.specs.Held.{Tells};
ghost use Rattle.cases_encode.specs.Encode.{encode_chart};
ghost use Rattle.cases_turns.specs.Turns.{turns_lent, TurnsStored, TurnsHolds};

use grouping_chart::chart::Chart;
use grouping_chart::refusal::Refusal;
use grouping_chart::settings;
use vectors::call::Call;
use vectors::case::Case;
use vectors::column::Column;
use vectors::form::part_formed;
use vectors::room::{Room, Spare};
use vectors::sentinel;
use vectors::sentinel::{FLOAT_SENTINEL, MOST_OBJECTS, MOST_PLACES, MOST_WORK, NUMBER_SENTINEL};

// The most bytes of a part: two numbers of two bytes for each object of the largest chart.
pub const MOST_PART: usize = 4 * MOST_OBJECTS;

// Whether an answer and slices are those of the part.
fn outcome_holds(
    room: Room,
    part: &[u8],
    answer: Result<(), Refusal>,
    previous: &[u16],
    next: &[u16],
    work: &[u16],
    scratch: &[f64],
) -> bool
    ensures { Tells result (TurnsStored room.entry.case.head.objects part.now (outcome answer
        (memory previous.now next.now work.now scratch.now))) }
{
    let n = room.case.head.objects;
    answer == Ok(())
        && Column::numbers(part, 0, 2, n).held(NUMBER_SENTINEL, previous)
        && Column::numbers(part, 2 * n, 2, n).held(NUMBER_SENTINEL, next)
        && sentinel::work_cleared(n, work, scratch)
}

// Turns in lent slices, held to the part.
fn lent_holds(
    room: Room,
    part: &[u8],
    chart: Chart,
    previous: &mut [u16],
    next: &mut [u16],
    work: &mut [u16],
    scratch: &mut [f64],
) -> bool
    ensures { Tells result (TurnsStored room.entry.case.head.objects part.now
        (turns_outcome base_settings (seen chart.entry) (memory previous.old next.old work.old scratch.old))) }
{
    let answer = call_turns::turns(chart, settings::base(), previous, next, work, scratch);
    outcome_holds(room, part, answer, previous, next, work, scratch)
}

// Turns in slices full of sentinels, held to the part; the chart is made as cases_encode makes it.
fn call_holds(room: Room, part: &[u8]) -> bool
    requires { 2 + room.case.head.objects ≤ length room.case.bytes.now }
    ensures { let n = room.entry.case.head.objects in Tells result (TurnsStored n part.now
        (turns_outcome base_settings (encode_chart n room.entry.case.bytes.now) (turns_lent n room.entry.spare))) }
{
    let n = room.case.head.objects;
    let places = room.places();
    let ones = &[1.0; MOST_OBJECTS][..n];
    let chart = Chart {
        kind: &room.case.bytes[2..2 + n],
        start: ones,
        delta: ones,
        ratio: ones,
    };
    lent_holds(
        room,
        part,
        chart,
        &mut [NUMBER_SENTINEL; MOST_PLACES][..places],
        &mut [NUMBER_SENTINEL; MOST_PLACES][..places],
        &mut [NUMBER_SENTINEL; MOST_WORK][..room.work()],
        &mut [FLOAT_SENTINEL; MOST_PLACES][..places],
    )
}

// Whether turns answers on the chart of an encode case as the part has it, in slices with so many places to spare.
#[tactic(auto, unfolding(crate::specs::Turns::TurnsHolds), using(cases_encode::proofs::EncodeLaws::form_room))]
pub fn holds(chart: Case, part: Case, spare: Spare) -> bool
    ensures { Tells result (TurnsHolds chart.entry.head chart.entry.bytes.now
        part.entry.head part.entry.bytes.now spare.places) }
{
    let Some(room) = Room::of(chart, spare) else {
        return false;
    };
    let n = chart.head.objects;
    cases_encode::encode_formed(room)
        && part_formed(part, Call::Turns, 2, 4 * n, n)
        && call_holds(room, part.bytes)
}

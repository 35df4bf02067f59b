// A stored case of rhythm.
#![tactic(auto)]

ghost use Rattle.std.specs.Prelude.{◌≡◌, ◌+◌, ◌≤◌, length};
ghost use Rattle.grouping_chart.specs.Settings.{base_settings};
ghost use Rattle.grouping_chart.specs.Outcome.{outcome};
ghost use Rattle.grouping_chart.specs.Lent.{seen};
ghost use Rattle.call_rhythm.specs.Call.{memory, rhythm_outcome};
ghost use Rattle.vectors.specs.Held.{Tells};
ghost use Rattle.cases_rhythm.specs.Rhythm.{rhythm_chart, rhythm_lent, totals_at, RhythmStored};
ghost use Rattle.cases_rhythm.specs.Rhythm.{RhythmForm, RhythmHolds};
ghost use Rattle.cases_rhythm.specs.passes.Times.{TimesRoom, TimesRead};

use call_rhythm::GroupTotals;
use grouping_chart::chart::Chart;
use grouping_chart::refusal::Refusal;
use grouping_chart::settings;
use vectors::call::Call;
use vectors::case::Case;
use vectors::column::Column;
use vectors::form::formed;
use vectors::room::{Room, Spare};
use vectors::sentinel::{FLOAT_SENTINEL, MOST_OBJECTS, MOST_PLACES, MOST_WORK, NUMBER_SENTINEL};
use vectors::{case, sentinel, table};

// Reads the starts and the deltas.
pub fn read_times(n: usize, body: &[u8], start: &mut [f64], delta: &mut [f64])
    requires { TimesRoom n start.old delta.old }
    ensures { TimesRead n body.now start.old start.new delta.old delta.new }
{
    table::read(&Column::words(body, 4 + n, n), start);
    table::read(&Column::words(body, 4 + 9 * n, n), delta);
}

// Whether the chart is accepted, with as many groups and pattern groups as the body's first two numbers say.
fn counts_hold(body: &[u8], answer: Result<GroupTotals, Refusal>) -> bool
    ensures { Tells result (answer ≡ Ok (totals_at body.now)) }
{
    answer
        == Ok(GroupTotals {
            groups: usize::from(case::pair_at(body, 0)),
            patterns: usize::from(case::pair_at(body, 2)),
        })
}

// Whether an answer and slices are those of the body.
fn outcome_holds(
    room: Room,
    answer: Result<GroupTotals, Refusal>,
    group: &[u16],
    pattern: &[u16],
    work: &[u16],
    scratch: &[f64],
) -> bool
    ensures { let h = room.entry.case.head in
        Tells result (RhythmStored h.objects room.entry.case.bytes.now (outcome answer
        (memory group.now pattern.now work.now scratch.now))) }
{
    let body = room.case.bytes;
    let n = room.case.head.objects;
    counts_hold(body, answer)
        && Column::numbers(body, 4 + 17 * n, 2, n).held(NUMBER_SENTINEL, group)
        && Column::numbers(body, 4 + 19 * n, 2, n).held(NUMBER_SENTINEL, pattern)
        && sentinel::work_cleared(n, work, scratch)
}

// Rhythm in lent slices, held to the body.
fn lent_holds(
    room: Room,
    chart: Chart,
    group: &mut [u16],
    pattern: &mut [u16],
    work: &mut [u16],
    scratch: &mut [f64],
) -> bool
    ensures { let h = room.entry.case.head in
        Tells result (RhythmStored h.objects room.entry.case.bytes.now
        (rhythm_outcome base_settings (seen chart.entry) (memory group.old pattern.old work.old scratch.old))) }
{
    let answer = call_rhythm::rhythm(chart, settings::base(), group, pattern, work, scratch);
    outcome_holds(room, answer, group, pattern, work, scratch)
}

// Rhythm in slices full of sentinels, held to the body. cases_record makes the same chart in as many lines: one call
// that takes a closure of what to do with it would be no plainer, since its promise would have to name the closure.
fn call_holds(room: Room) -> bool
    requires { 4 + room.case.head.objects ≤ length room.case.bytes.now }
    ensures { let n = room.entry.case.head.objects in let body = room.entry.case.bytes.now in
        Tells result (RhythmStored n body
        (rhythm_outcome base_settings (rhythm_chart n body) (rhythm_lent n room.entry.spare))) }
{
    let body = room.case.bytes;
    let n = room.case.head.objects;
    let places = room.places();
    let mut starts = [0.0; MOST_OBJECTS];
    let mut deltas = [0.0; MOST_OBJECTS];
    read_times(n, body, &mut starts, &mut deltas);
    let ones = &[1.0; MOST_OBJECTS][..n];
    let chart = Chart {
        kind: &body[4..4 + n],
        start: &starts[..n],
        delta: &deltas[..n],
        ratio: ones,
    };
    lent_holds(
        room,
        chart,
        &mut [NUMBER_SENTINEL; MOST_PLACES][..places],
        &mut [NUMBER_SENTINEL; MOST_PLACES][..places],
        &mut [NUMBER_SENTINEL; MOST_WORK][..room.work()],
        &mut [FLOAT_SENTINEL; MOST_PLACES][..places],
    )
}

// Whether the bytes have the form of a rhythm case.
#[tactic(auto, unfolding(crate::specs::Rhythm::RhythmForm))]
pub fn rhythm_formed(room: Room) -> bool
    ensures { Tells result (RhythmForm room.entry.case.head room.entry.case.bytes.now) }
{
    let size = 4 + 21 * room.case.head.objects;
    formed(room.case, Call::Rhythm, 2, 2, size)
}

// Whether rhythm answers as the case has it, in slices with so many places to spare. The calls' cases go alike here:
// one function of a form and a call would take their meanings and laws with it, which is no plainer.
#[tactic(auto, unfolding(crate::specs::Rhythm::RhythmHolds, crate::specs::Rhythm::RhythmForm))]
pub fn holds(case: Case, spare: Spare) -> bool
    ensures { Tells result (RhythmHolds case.entry.head case.entry.bytes.now spare.places) }
{
    let Some(room) = Room::of(case, spare) else {
        return false;
    };
    rhythm_formed(room) && call_holds(room)
}

// A stored record of the chart of a rhythm case.
#![tactic(auto)]

ghost use Rattle.std.specs.Prelude.{◌≡◌, ◌+◌, ◌^◌, ◌≤◌, ◌<◌, length};
ghost use Rattle.std.specs.Float.Ieee as Ieee;
ghost use Rattle.std.specs.Float.{binary64};
ghost use Rattle.vectors.specs.Case.{pair_at, word_at};
ghost use Rattle.vectors.specs.Held.{Tells};
ghost use Rattle.grouping_chart.specs.Lent.{seen};
ghost use Rattle.call_record.specs.Call.{memory};
ghost use Rattle.cases_rhythm.specs.Rhythm.{rhythm_chart};
ghost use Rattle.cases_record.specs.Record.{record_lent, asked_outcome, OwnIs, PlacesAre, ScoresAre};
ghost use Rattle.cases_record.specs.Record.{RecordIs, RecordStored, RecordHolds};

use call_record::GroupRecord;
use grouping_chart::chart::Chart;
use grouping_chart::refusal::Refusal;
use grouping_chart::settings;
use numeric::canonical::bits;
use vectors::call::Call;
use vectors::case::Case;
use vectors::form::part_formed;
use vectors::room::{Room, Spare};
use vectors::sentinel::{FLOAT_SENTINEL, MOST_OBJECTS, MOST_PLACES, MOST_WORK, NUMBER_SENTINEL};
use vectors::{case, sentinel};

// How many bytes a record has.
pub const PART_SIZE: usize = 58;

// Whether a float has the bits that stand at a place.
fn bits_hold(part: &[u8], at: usize, x: f64) -> bool
    requires { at + 8 < 2 ^ 32 }
    ensures { Tells result (Ieee.to_bits binary64 x ≡ word_at part.now at) }
{
    bits(x) == case::word_at(part, at)
}

// Whether a number stands in two bytes at a place.
fn number_holds(part: &[u8], at: usize, x: usize) -> bool
    requires { at < 2 ^ 32 }
    ensures { Tells result (x ≡ pair_at part.now at) }
{
    x == usize::from(case::pair_at(part, at))
}

// Whether the own interval is that of the part: 1 and its bits, or 0 and 0 where it is absent.
#[tactic(auto, unfolding(crate::specs::Record::OwnIs))]
fn own_holds(part: &[u8], own: Option<f64>) -> bool
    ensures { Tells result (OwnIs part.now own) }
{
    match own {
        None => case::pair_at(part, 8) == 0 && case::word_at(part, 18) == 0,
        Some(x) => case::pair_at(part, 8) == 1 && bits_hold(part, 18, x),
    }
}

// Whether first note, note count, pattern group and own interval are those of the part.
fn places_hold(part: &[u8], r: GroupRecord) -> bool
    ensures { Tells result (PlacesAre part.now r) }
{
    number_holds(part, 2, r.first.0)
        && number_holds(part, 4, r.notes)
        && number_holds(part, 6, r.pattern)
        && own_holds(part, r.own)
}

// Whether ratio, interval, penalty and pattern ratio are those of the part, by their bits.
fn scores_hold(part: &[u8], r: GroupRecord) -> bool
    ensures { Tells result (ScoresAre part.now r) }
{
    bits_hold(part, 26, r.ratio)
        && bits_hold(part, 34, r.interval)
        && bits_hold(part, 42, r.penalty)
        && bits_hold(part, 50, r.patternratio)
}

// Whether the record is accepted, with every field of the part.
#[tactic(auto, unfolding(crate::specs::Record::RecordIs))]
fn fields_hold(part: &[u8], answer: Result<GroupRecord, Refusal>) -> bool
    ensures { Tells result (RecordIs part.now answer) }
{
    answer.is_ok_and(|r| places_hold(part, r) && scores_hold(part, r))
}

// Record in lent slices, held to the part.
#[tactic(auto, unfolding(crate::specs::Record::asked_outcome))]
fn lent_holds(room: Room, part: &[u8], chart: Chart, work: &mut [u16], scratch: &mut [f64]) -> bool
    ensures { Tells result (RecordStored room.entry.case.head.objects part.now
        (asked_outcome part.now (seen chart.entry) (memory work.old scratch.old))) }
{
    let group = usize::from(case::pair_at(part, 0));
    let window = case::float_of(case::word_at(part, 10));
    let answer = call_record::record(chart, settings::base(), group, window, work, scratch);
    fields_hold(part, answer) && sentinel::work_cleared(room.case.head.objects, work, scratch)
}

// Record in slices full of sentinels, held to the part; the chart is made as cases_rhythm makes it, which says why.
fn call_holds(room: Room, part: &[u8]) -> bool
    requires { 4 + room.case.head.objects ≤ length room.case.bytes.now }
    ensures { let n = room.entry.case.head.objects in Tells result (RecordStored n part.now
        (asked_outcome part.now (rhythm_chart n room.entry.case.bytes.now) (record_lent n room.entry.spare))) }
{
    let body = room.case.bytes;
    let n = room.case.head.objects;
    let mut starts = [0.0; MOST_OBJECTS];
    let mut deltas = [0.0; MOST_OBJECTS];
    cases_rhythm::read_times(n, body, &mut starts, &mut deltas);
    let ones = &[1.0; MOST_OBJECTS][..n];
    let chart = Chart {
        kind: &body[4..4 + n],
        start: &starts[..n],
        delta: &deltas[..n],
        ratio: ones,
    };
    lent_holds(
        room,
        part,
        chart,
        &mut [NUMBER_SENTINEL; MOST_WORK][..room.work()],
        &mut [FLOAT_SENTINEL; MOST_PLACES][..room.places()],
    )
}

// Whether a record of the chart of a rhythm case is answered as its own case has it.
#[tactic(auto, unfolding(crate::specs::Record::RecordHolds), using(cases_rhythm::proofs::RhythmLaws::form_room))]
pub fn holds(chart: Case, part: Case, spare: Spare) -> bool
    ensures { Tells result (RecordHolds chart.entry.head chart.entry.bytes.now
        part.entry.head part.entry.bytes.now spare.places) }
{
    let Some(room) = Room::of(chart, spare) else {
        return false;
    };
    cases_rhythm::rhythm_formed(room)
        && part_formed(part, Call::Record, 2, PART_SIZE, chart.head.objects)
        && call_holds(room, part.bytes)
}

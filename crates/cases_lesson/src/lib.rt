// Stored lessons of the chart of a colour case.
#![tactic(auto)]

ghost use Rattle.std.specs.Prelude.{◌≡◌, ◌+◌, ◌^◌, ◌<◌, ◌≤◌, length};
ghost use Rattle.grouping_chart.specs.Settings.{base_settings};
ghost use Rattle.grouping_chart.specs.Outcome.{outcome};
ghost use Rattle.grouping_chart.specs.Lent.{seen};
ghost use Rattle.call_lesson.specs.Lesson.{most_pairs};
ghost use Rattle.call_lesson.specs.Lent.{stretches_seen};
ghost use Rattle.call_lesson.specs.Call.{memory, lesson_outcome};
ghost use Rattle.vectors.specs.Case.{pair_at, column_size};
ghost use Rattle.vectors.specs.Held.{Tells};
ghost use Rattle.cases_colour.specs.Colour.{colour_chart};
ghost use Rattle.cases_lesson.specs.Lesson.{stored_pairs, lesson_lent};
ghost use Rattle.cases_lesson.specs.Lesson.{AnswersHeld, LessonStored, LessonForm, LessonHolds};

use call_lesson::Stretches;
use call_lesson::verdict::MOST_PAIRS;
use grouping_chart::chart::Chart;
use grouping_chart::refusal::Refusal;
use grouping_chart::settings;
use vectors::call::Call;
use vectors::case;
use vectors::case::Case;
use vectors::column::Column;
use vectors::form::part_formed;
use vectors::room::{Room, Spare};
use vectors::sentinel::{FLOAT_SENTINEL, MOST_OBJECTS, MOST_PLACES, MOST_WORK, NUMBER_SENTINEL};

// What tenths are lent with, which is no answer: ten times a mean is at most 838,860,850 in size.
const TENTHS_SENTINEL: i64 = -1_000_000_000_000_000_000;

// The most places of an answer of each pair: one for each, and 7 to spare.
const MOST_ANSWERS: usize = MOST_PAIRS + 7;

// How many pairs a stored lesson has.
fn pair_count(part: &[u8]) -> usize
    ensures count { result ≡ pair_at part.now 0 }
    ensures small { result < 2 ^ 16 }
{
    usize::from(case::pair_at(part, 0))
}

// Whether the means and the tenths are those of the part.
fn answers_hold(part: &[u8], mean: &[f64], tenths: &[i64]) -> bool
    ensures { Tells result (AnswersHeld part.now mean.now tenths.now) }
{
    let pairs = pair_count(part);
    Column::words(part, 2 + 4 * pairs, pairs).held(FLOAT_SENTINEL, mean)
        && Column::words(part, 2 + 12 * pairs, pairs).held(TENTHS_SENTINEL, tenths)
}

// Whether an answer and slices are those of the part, and the values those of its chart's case.
fn outcome_holds(
    room: Room,
    part: &[u8],
    answer: Result<(), Refusal>,
    value: &[f64],
    mean: &[f64],
    tenths: &[i64],
    work: &[u16],
    scratch: &[f64],
) -> bool
    ensures { let h = room.entry.case.head in
        Tells result (LessonStored (column_size h.objects h.width) h.objects room.entry.case.bytes.now part.now
        (outcome answer (memory value.now mean.now tenths.now work.now scratch.now))) }
{
    answer == Ok(())
        && answers_hold(part, mean, tenths)
        && cases_colour::values_hold(room, value, work, scratch)
}

// Lesson in lent slices, held to the part.
fn lent_holds(
    room: Room,
    part: &[u8],
    chart: Chart,
    marked: Stretches,
    value: &mut [f64],
    mean: &mut [f64],
    tenths: &mut [i64],
    work: &mut [u16],
    scratch: &mut [f64],
) -> bool
    ensures { let h = room.entry.case.head in
        Tells result (LessonStored (column_size h.objects h.width) h.objects room.entry.case.bytes.now part.now
        (lesson_outcome base_settings (seen chart.entry) (stretches_seen marked.entry)
        (memory value.old mean.old tenths.old work.old scratch.old))) }
{
    let base = settings::base();
    let answer = call_lesson::lesson(chart, base, marked, value, mean, tenths, work, scratch);
    outcome_holds(room, part, answer, value, mean, tenths, work, scratch)
}

// Lesson in slices full of sentinels, held to the part.
fn filled_hold(room: Room, part: &[u8], chart: Chart, marked: Stretches) -> bool
    requires { pair_at part.now 0 ≤ most_pairs }
    ensures { let h = room.entry.case.head in
        Tells result (LessonStored (column_size h.objects h.width) h.objects room.entry.case.bytes.now part.now
        (lesson_outcome base_settings (seen chart.entry) (stretches_seen marked.entry)
        (lesson_lent h.objects (pair_at part.now 0) room.entry.spare))) }
{
    let places = room.places();
    let answers = pair_count(part) + room.spare;
    lent_holds(
        room,
        part,
        chart,
        marked,
        &mut [FLOAT_SENTINEL; MOST_PLACES][..places],
        &mut [FLOAT_SENTINEL; MOST_ANSWERS][..answers],
        &mut [TENTHS_SENTINEL; MOST_ANSWERS][..answers],
        &mut [NUMBER_SENTINEL; MOST_WORK][..room.work()],
        &mut [FLOAT_SENTINEL; MOST_PLACES][..places],
    )
}

// The same with the chart of the case and the pairs of the part.
fn call_holds(room: Room, part: &[u8]) -> bool
    requires chart { 2 + room.case.head.objects ≤ length room.case.bytes.now }
    requires pairs { pair_at part.now 0 ≤ most_pairs }
    ensures { let h = room.entry.case.head in let n = h.objects in let size = column_size n h.width in
        let body = room.entry.case.bytes.now in
        Tells result (LessonStored size n body part.now
        (lesson_outcome base_settings (colour_chart size h.width n body) (stored_pairs part.now)
        (lesson_lent n (pair_at part.now 0) room.entry.spare))) }
{
    let n = room.case.head.objects;
    let mut ratios = [0.0; MOST_OBJECTS];
    cases_colour::read_ratios(room, &mut ratios);
    let ones = &[1.0; MOST_OBJECTS][..n];
    let chart = cases_colour::chart_with(room, ones, &ratios[..n]);
    let pairs = pair_count(part);
    let mut offset = [0; MOST_PAIRS];
    Column::numbers(part, 2, 2, pairs).read(&mut offset);
    let mut length = [0; MOST_PAIRS];
    Column::numbers(part, 2 + 2 * pairs, 2, pairs).read(&mut length);
    let marked = Stretches {
        offset: &offset[..pairs],
        length: &length[..pairs],
    };
    filled_hold(room, part, chart, marked)
}

// Whether the bytes have the form of a lesson on a chart of n objects.
fn lesson_formed(part: Case, n: usize) -> bool
    ensures { Tells result (LessonForm n part.entry.head part.entry.bytes.now) }
{
    let pairs = pair_count(part.bytes);
    pairs <= MOST_PAIRS && part_formed(part, Call::Lesson, 2, 2 + 20 * pairs, n)
}

// Whether lesson answers on the chart of a colour case as the part has it, in slices with so many places to spare.
#[tactic(auto, unfolding(crate::specs::Lesson::LessonHolds), using(cases_colour::proofs::ColourLaws::form_room))]
pub fn holds(chart: Case, part: Case, spare: Spare) -> bool
    ensures { Tells result (LessonHolds chart.entry.head chart.entry.bytes.now
        part.entry.head part.entry.bytes.now spare.places) }
{
    let Some(room) = Room::of(chart, spare) else {
        return false;
    };
    cases_colour::colour_formed(room)
        && lesson_formed(part, chart.head.objects)
        && call_holds(room, part.bytes)
}

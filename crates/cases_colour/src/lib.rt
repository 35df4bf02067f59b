// A stored case of colour, and of a stretch of its chart.
#![tactic(auto)]

ghost use Rattle.std.specs.Prelude.{◌≡◌, ◌+◌, ◌≤◌, length, replicate, Ok};
ghost use Rattle.lent.specs.Over.{over};
ghost use Rattle.numeric.specs.Constants.{one64};
ghost use Rattle.grouping_chart.specs.Lent.{seen};
ghost use Rattle.call_colour.specs.Call.{memory};
ghost use Rattle.vectors.specs.Case.{column_size};
ghost use Rattle.vectors.specs.Held.{Tells};
ghost use Rattle.cases_colour.specs.Colour.{stored_ratios, colour_chart, colour_lent, signed_of};
ghost use Rattle.cases_colour.specs.Colour.{stretch_of, FoundIs, MeanIs};
ghost use Rattle.cases_colour.specs.Colour.{ValuesHeld, CallStored, ColourForm, ColourHolds, StretchHolds};
ghost use Rattle.cases_colour.specs.passes.Told.{CallTold};

use call_colour::StretchMean;
use grouping_chart::chart::Chart;
use grouping_chart::refusal::Refusal;
use grouping_chart::settings;
use numeric::canonical::bits;
use vectors::call::Call;
use vectors::case::Case;
use vectors::column::Column;
use vectors::form::{formed, part_formed};
use vectors::room::{Room, Spare};
use vectors::sentinel::{FLOAT_SENTINEL, MOST_OBJECTS, MOST_PLACES, MOST_WORK, NUMBER_SENTINEL};
use vectors::{case, sentinel};

// What is stored of a stretch: its two ends, the bits of its mean, and the tenths, whose sign is in their highest bit.
#[derive(Clone, Copy)]
pub struct StoredStretch {
    pub a: usize,
    pub b: usize,
    pub mean: u64,
    pub tenths: u32,
}

// The call that a case is of. As an `Option` of a stretch, or as a closure that makes the call, whose promise would
// speak of three `&mut` slices, it would be no plainer.
#[derive(Clone, Copy)]
enum Asked {
    Colour,
    Stretched(StoredStretch),
}

// Four bytes as a number with a sign.
#[tactic(auto, unfolding(crate::specs::Colour::signed_of))]
fn signed(x: u32) -> i64
    ensures { result ≡ signed_of x }
{
    i64::from(x.cast_signed())
}

#[tactic(auto, unfolding(crate::specs::Colour::stretch_of))]
fn read_stretch(part: &[u8]) -> StoredStretch
    ensures { result ≡ stretch_of part.now }
{
    StoredStretch {
        a: usize::from(case::pair_at(part, 0)),
        b: usize::from(case::pair_at(part, 2)),
        mean: case::word_at(part, 4),
        tenths: case::quad_at(part, 12),
    }
}

// Whether the mean and the tenths are those that are stored.
fn found_holds(s: StoredStretch, found: StretchMean) -> bool
    ensures { Tells result (FoundIs s found) }
{
    found.tenths == signed(s.tenths) && bits(found.mean) == s.mean
}

// Whether the stretch is accepted, with them.
#[tactic(auto, unfolding(crate::specs::Colour::MeanIs))]
fn mean_holds(s: StoredStretch, answer: Result<StretchMean, Refusal>) -> bool
    ensures { Tells result (MeanIs s answer) }
{
    answer.is_ok_and(|found| found_holds(s, found))
}

// Whether the call that is asked answers as the original did.
fn answer_holds(
    asked: Asked,
    chart: Chart,
    value: &mut [f64],
    work: &mut [u16],
    scratch: &mut [f64],
) -> bool
    ensures { CallTold asked (seen chart.entry)
        (memory value.old work.old scratch.old) (memory value.new work.new scratch.new) result }
{
    let base = settings::base();
    match asked {
        Asked::Colour => call_colour::colour(chart, base, value, work, scratch).is_ok(),
        Asked::Stretched(s) => mean_holds(
            s,
            call_colour::stretch(chart, base, s.a, s.b, value, work, scratch),
        ),
    }
}

// Whether the values are those of the body, and the work slices are cleared.
pub fn values_hold(room: Room, value: &[f64], work: &[u16], scratch: &[f64]) -> bool
    ensures { let h = room.entry.case.head in let size = column_size h.objects h.width in
        Tells result (ValuesHeld size h.objects room.entry.case.bytes.now (memory value.now work.now scratch.now)) }
{
    let n = room.case.head.objects;
    let at = 2 + n + room.column_size();
    Column::words(room.case.bytes, at, n).held(FLOAT_SENTINEL, value)
        && sentinel::work_cleared(n, work, scratch)
}

// The call that is asked, in lent slices, held to the body.
fn lent_holds(
    asked: Asked,
    room: Room,
    chart: Chart,
    value: &mut [f64],
    work: &mut [u16],
    scratch: &mut [f64],
) -> bool
    ensures { let h = room.entry.case.head in
        Tells result (CallStored asked (column_size h.objects h.width) h.objects room.entry.case.bytes.now
        (seen chart.entry) (memory value.old work.old scratch.old)) }
{
    answer_holds(asked, chart, value, work, scratch) && values_hold(room, value, work, scratch)
}

// Reads the ratio of each object, by its number in the case's table.
#[tactic(auto, unfolding(crate::specs::Colour::stored_ratios))]
pub fn read_ratios(room: Room, ratios: &mut [f64])
    requires { room.case.head.objects ≤ length ratios.old }
    ensures { let h = room.entry.case.head in let size = column_size h.objects h.width in
        ratios.new ≡ over (stored_ratios size h.width h.objects room.entry.case.bytes.now) ratios.old }
{
    let body = room.case.bytes;
    let n = room.case.head.objects;
    let at = 2 + n + room.column_size() + 8 * n;
    let table = Column::words(body, at, usize::from(case::pair_at(body, 0)));
    let names = Column::numbers(body, 2 + n, room.case.head.width, n);
    vectors::table::read_named(&table, &names, ratios);
}

// The chart of a colour case whose ratios were read. Its starts and deltas are 1.0 throughout.
#[tactic(auto, unfolding(crate::specs::Colour::colour_chart))]
pub fn chart_with<'a>(room: Room<'a>, ones: &'a [f64], ratios: &'a [f64]) -> Chart<'a>
    requires kinds { 2 + room.case.head.objects ≤ length room.case.bytes.now }
    requires ones { ones.now ≡ replicate room.case.head.objects one64 }
    requires ratios { let h = room.case.head in
        ratios.now ≡ stored_ratios (column_size h.objects h.width) h.width h.objects room.case.bytes.now }
    ensures { let h = room.entry.case.head in let size = column_size h.objects h.width in
        seen result ≡ colour_chart size h.width h.objects room.entry.case.bytes.now }
{
    Chart {
        kind: &room.case.bytes[2..2 + room.case.head.objects],
        start: ones,
        delta: ones,
        ratio: ratios,
    }
}

// The call that is asked, in slices full of sentinels, held to the body, whose column of ratios has so many bytes.
fn call_holds(asked: Asked, room: Room) -> bool
    requires { 2 + room.case.head.objects ≤ length room.case.bytes.now }
    ensures { let h = room.entry.case.head in let n = h.objects in let size = column_size n h.width in
        let body = room.entry.case.bytes.now in
        Tells result (CallStored asked size n body
        (colour_chart size h.width n body) (colour_lent n room.entry.spare)) }
{
    let n = room.case.head.objects;
    let places = room.places();
    let mut ratios = [0.0; MOST_OBJECTS];
    read_ratios(room, &mut ratios);
    let ones = &[1.0; MOST_OBJECTS][..n];
    let chart = chart_with(room, ones, &ratios[..n]);
    lent_holds(
        asked,
        room,
        chart,
        &mut [FLOAT_SENTINEL; MOST_PLACES][..places],
        &mut [NUMBER_SENTINEL; MOST_WORK][..room.work()],
        &mut [FLOAT_SENTINEL; MOST_PLACES][..places],
    )
}

// Whether the bytes have the form of a colour case.
#[tactic(auto, unfolding(crate::specs::Colour::ColourForm))]
pub fn colour_formed(room: Room) -> bool
    ensures { let h = room.entry.case.head in
        Tells result (ColourForm (column_size h.objects h.width) h room.entry.case.bytes.now) }
{
    let table = 8 * usize::from(case::pair_at(room.case.bytes, 0));
    let size = 2 + 9 * room.case.head.objects + room.column_size() + table;
    formed(room.case, Call::Colour, 1, 2, size)
}

// Whether colour answers as the case has it, in slices with so many places to spare: as in cases_rhythm.
#[tactic(auto, unfolding(crate::specs::Colour::ColourHolds, crate::specs::Colour::ColourForm))]
pub fn holds(chart: Case, spare: Spare) -> bool
    ensures { Tells result (ColourHolds chart.entry.head chart.entry.bytes.now spare.places) }
{
    let Some(room) = Room::of(chart, spare) else {
        return false;
    };
    colour_formed(room) && call_holds(Asked::Colour, room)
}

// Whether a stretch of the chart of a colour case is answered as its own case has it.
#[tactic(auto, unfolding(crate::specs::Colour::StretchHolds, crate::specs::Colour::ColourForm))]
pub fn stretch_holds(chart: Case, part: Case, spare: Spare) -> bool
    ensures { Tells result (StretchHolds chart.entry.head chart.entry.bytes.now
        part.entry.head part.entry.bytes.now spare.places) }
{
    let Some(room) = Room::of(chart, spare) else {
        return false;
    };
    colour_formed(room)
        && part_formed(part, Call::Stretch, 1, 16, chart.head.objects)
        && call_holds(Asked::Stretched(read_stretch(part.bytes)), room)
}

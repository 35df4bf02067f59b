// A stored case of build.
#![tactic(auto)]

ghost use Rattle.std.specs.Prelude.{◌≡◌, ◌+◌, ◌*◌, ◌≤◌, ◌<◌, drop, length};
ghost use Rattle.call_build.specs.Call.{memory, build_outcome};
ghost use Rattle.call_build.specs.Lent.{raw_seen};
ghost use Rattle.vectors.specs.Held.{Tells};
ghost use Rattle.cases_build.specs.Build.{raw_size, stored_rate, stored_raw, build_lent};
ghost use Rattle.cases_build.specs.Build.{ChartHeld, BuildStored, BuildForm, BuildHolds};
ghost use Rattle.cases_build.specs.passes.Room.{BuildRoom};

use call_build::{MOST_RAW, Raw};
use grouping_chart::chart::Chart;
use vectors::call::Call;
use vectors::case::Case;
use vectors::column::Column;
use vectors::form::formed;
use vectors::room::{Room, Spare};
use vectors::sentinel::{BYTE_SENTINEL, FLOAT_SENTINEL, MOST_OBJECTS, MOST_PLACES};
use vectors::{case, table};

// The most bytes of a body, which has the raw objects and the largest chart.
pub const MOST_BODY: usize = 10 + 9 * MOST_RAW + 25 * MOST_OBJECTS;

// How many raw objects the body has.
#[tactic(auto, unfolding(crate::specs::Build::raw_size))]
fn raw_size(body: &[u8]) -> usize
    ensures { (result ≡ raw_size body.now) × (result < 65536) }
{
    usize::from(case::pair_at(body, 0))
}

// The rate that the body has.
#[tactic(auto, unfolding(crate::specs::Build::stored_rate))]
fn stored_rate(body: &[u8]) -> f64
    ensures { result ≡ stored_rate body.now }
{
    case::float_of(case::word_at(body, 2))
}

// Whether slices hold the chart that is stored.
fn chart_held(n: usize, stored: &[u8], chart: Chart) -> bool
    requires { 25 * n ≤ length stored.now }
    ensures { Tells result (ChartHeld n stored.now
        (memory chart.entry.kind.now chart.entry.start.now chart.entry.delta.now chart.entry.ratio.now)) }
{
    Column::bytes(stored, 0, n).held(BYTE_SENTINEL, chart.kind)
        && Column::words(stored, n, n).held(FLOAT_SENTINEL, chart.start)
        && Column::words(stored, 9 * n, n).held(FLOAT_SENTINEL, chart.delta)
        && Column::words(stored, 17 * n, n).held(FLOAT_SENTINEL, chart.ratio)
}

// Build in lent slices, held to the chart that is stored.
fn lent_holds(
    n: usize,
    stored: &[u8],
    raw: Raw,
    rate: f64,
    built_kind: &mut [u8],
    start: &mut [f64],
    delta: &mut [f64],
    ratio: &mut [f64],
) -> bool
    requires { 25 * n ≤ length stored.now }
    ensures { Tells result (BuildStored n stored.now
        (build_outcome rate (raw_seen raw.entry) (memory built_kind.old start.old delta.old ratio.old))) }
{
    let answer = call_build::build(raw, rate, built_kind, start, delta, ratio);
    let chart = Chart {
        kind: built_kind,
        start,
        delta,
        ratio,
    };
    answer == Ok(n) && chart_held(n, stored, chart)
}

// Build of m raw objects in slices full of sentinels, held to the body.
fn call_holds(m: usize, room: Room) -> bool
    requires { BuildRoom m room.case.head.objects room.case.bytes.now }
    ensures { let n = room.entry.case.head.objects in let body = room.entry.case.bytes.now in
        Tells result (BuildStored n (drop (10 + 9 * m) body)
        (build_outcome (stored_rate body) (stored_raw m body) (build_lent n room.entry.spare))) }
{
    let body = room.case.bytes;
    let places = room.places();
    let rate = stored_rate(body);
    let mut times = [0.0; MOST_RAW];
    table::read(&Column::words(body, 10 + m, m), &mut times);
    let raw = Raw {
        kind: &body[10..10 + m],
        time: &times[..m],
    };
    lent_holds(
        room.case.head.objects,
        &body[10 + 9 * m..],
        raw,
        rate,
        &mut [BYTE_SENTINEL; MOST_PLACES][..places],
        &mut [FLOAT_SENTINEL; MOST_PLACES][..places],
        &mut [FLOAT_SENTINEL; MOST_PLACES][..places],
        &mut [FLOAT_SENTINEL; MOST_PLACES][..places],
    )
}

// Whether the bytes have the form of a build case of m raw objects.
fn build_formed(m: usize, room: Room) -> bool
    requires { m < 65536 }
    ensures { Tells result (BuildForm m room.entry.case.head room.entry.case.bytes.now) }
{
    let n = room.case.head.objects;
    formed(room.case, Call::Build, 8, 8, 10 + 9 * m + 25 * n) && n == m.saturating_sub(2)
}

// Whether build answers as the case has it, in slices with so many places to spare: as in cases_rhythm.
#[tactic(auto, unfolding(crate::specs::Build::BuildHolds))]
pub fn holds(case: Case, spare: Spare) -> bool
    ensures { Tells result (BuildHolds case.entry.head case.entry.bytes.now spare.places) }
{
    let Some(room) = Room::of(case, spare) else {
        return false;
    };
    let m = raw_size(case.bytes);
    build_formed(m, room) && call_holds(m, room)
}

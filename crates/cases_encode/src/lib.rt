// A stored case of encode.
#![tactic(auto)]

ghost use Rattle.std.specs.Prelude.{◌≡◌};
ghost use Rattle.grouping_chart.specs.Settings.{base_settings};
ghost use Rattle.grouping_chart.specs.Outcome.{outcome};
ghost use Rattle.grouping_chart.specs.Lent.{seen};
ghost use Rattle.call_encode.specs.Call.{memory, encode_outcome};
ghost use Rattle.vectors.specs.Case.{column_size};
ghost use Rattle.vectors.specs.Held.{Tells};
ghost use Rattle.cases_encode.specs.Encode.{encode_chart, encode_lent, NumbersStored, EncodeStored};
ghost use Rattle.cases_encode.specs.Encode.{EncodeForm, EncodeHolds};
ghost use Rattle.cases_encode.specs.passes.Room.{EncodeBody};

use grouping_chart::chart::Chart;
use grouping_chart::refusal::Refusal;
use grouping_chart::settings;
use vectors::call::Call;
use vectors::case::{Case, pair_at};
use vectors::column::Column;
use vectors::form::formed;
use vectors::room::{Room, Spare};
use vectors::sentinel;
use vectors::sentinel::{
    BYTE_SENTINEL, FLOAT_SENTINEL, MOST_OBJECTS, MOST_PLACES, MOST_WORK, NUMBER_SENTINEL,
};

// The answers of encode in lent slices.
#[derive(Clone, Copy)]
struct Encoded<'a> {
    streak: &'a [u16],
    streak_place: &'a [u16],
    pattern: &'a [u16],
    pattern_place: &'a [u16],
    hit: &'a [u16],
    interval: &'a [u8],
}

// Whether the columns of numbers, each of so many bytes, are those of the body. That it is whole is asked of each
// function here: a struct that holds this fact would be no plainer, as a second one beside `Room`.
fn numbers_hold(room: Room, got: Encoded) -> bool
    requires { EncodeBody room.case.head room.case.bytes.now }
    ensures { let h = room.entry.case.head in let e = got.entry in
        Tells result (NumbersStored (column_size h.objects h.width) h.width h.objects room.entry.case.bytes.now
        e.streak.now e.streak_place.now e.pattern.now e.pattern_place.now e.hit.now) }
{
    let body = room.case.bytes;
    let n = room.case.head.objects;
    let width = room.case.head.width;
    let size = room.column_size();
    let at = 2 + n;
    Column::numbers(body, at, width, n).held(NUMBER_SENTINEL, got.streak)
        && Column::numbers(body, at + size, width, n).held(NUMBER_SENTINEL, got.streak_place)
        && Column::numbers(body, at + 2 * size, width, n).held(NUMBER_SENTINEL, got.pattern)
        && Column::numbers(body, at + 3 * size, width, n).held(NUMBER_SENTINEL, got.pattern_place)
        && Column::numbers(body, at + 4 * size, width, n).held(NUMBER_SENTINEL, got.hit)
}

// Whether an answer and slices are those of the body.
fn outcome_holds(
    room: Room,
    answer: Result<usize, Refusal>,
    got: Encoded,
    work: &[u16],
    scratch: &[f64],
) -> bool
    requires { EncodeBody room.case.head room.case.bytes.now }
    ensures { let h = room.entry.case.head in let body = room.entry.case.bytes.now in let e = got.entry in
        Tells result (EncodeStored (column_size h.objects h.width) h.width h.objects body (outcome answer
        (memory e.streak.now e.streak_place.now e.pattern.now e.pattern_place.now e.hit.now e.interval.now
        work.now scratch.now))) }
{
    let body = room.case.bytes;
    let n = room.case.head.objects;
    answer == Ok(usize::from(pair_at(body, 0)))
        && numbers_hold(room, got)
        && Column::bytes(body, 2 + n + 5 * room.column_size(), n).held(BYTE_SENTINEL, got.interval)
        && sentinel::work_cleared(n, work, scratch)
}

// Encode in lent slices, held to the body.
fn lent_holds(
    room: Room,
    chart: Chart,
    streak: &mut [u16],
    streak_place: &mut [u16],
    pattern: &mut [u16],
    pattern_place: &mut [u16],
    hit: &mut [u16],
    interval: &mut [u8],
    work: &mut [u16],
    scratch: &mut [f64],
) -> bool
    requires { EncodeBody room.case.head room.case.bytes.now }
    ensures { let h = room.entry.case.head in let body = room.entry.case.bytes.now in
        Tells result (EncodeStored (column_size h.objects h.width) h.width h.objects body
        (encode_outcome base_settings (seen chart.entry)
        (memory streak.old streak_place.old pattern.old pattern_place.old hit.old interval.old work.old scratch.old))) }
{
    let answer = call_encode::encode(
        chart,
        settings::base(),
        streak,
        streak_place,
        pattern,
        pattern_place,
        hit,
        interval,
        work,
        scratch,
    );
    let got = Encoded {
        streak,
        streak_place,
        pattern,
        pattern_place,
        hit,
        interval,
    };
    outcome_holds(room, answer, got, work, scratch)
}

// Encode in slices full of sentinels, held to the body.
fn call_holds(room: Room) -> bool
    requires { EncodeBody room.case.head room.case.bytes.now }
    ensures { let h = room.entry.case.head in let body = room.entry.case.bytes.now in
        Tells result (EncodeStored (column_size h.objects h.width) h.width h.objects body
        (encode_outcome base_settings (encode_chart h.objects body) (encode_lent h.objects room.entry.spare))) }
{
    let body = room.case.bytes;
    let n = room.case.head.objects;
    let places = room.places();
    let ones = &[1.0; MOST_OBJECTS][..n];
    let chart = Chart {
        kind: &body[2..2 + n],
        start: ones,
        delta: ones,
        ratio: ones,
    };
    lent_holds(
        room,
        chart,
        &mut [NUMBER_SENTINEL; MOST_PLACES][..places],
        &mut [NUMBER_SENTINEL; MOST_PLACES][..places],
        &mut [NUMBER_SENTINEL; MOST_PLACES][..places],
        &mut [NUMBER_SENTINEL; MOST_PLACES][..places],
        &mut [NUMBER_SENTINEL; MOST_PLACES][..places],
        &mut [BYTE_SENTINEL; MOST_PLACES][..places],
        &mut [NUMBER_SENTINEL; MOST_WORK][..room.work()],
        &mut [FLOAT_SENTINEL; MOST_PLACES][..places],
    )
}

// Whether the bytes have the form of an encode case.
#[tactic(auto, unfolding(crate::specs::Encode::EncodeForm))]
pub fn encode_formed(room: Room) -> bool
    ensures { Tells result (EncodeForm room.entry.case.head room.entry.case.bytes.now) }
{
    let size = 2 + 2 * room.case.head.objects + 5 * room.column_size();
    formed(room.case, Call::Encode, 1, 2, size)
}

// Whether encode answers as the case has it, in slices with so many places to spare.
#[tactic(auto, unfolding(crate::specs::Encode::EncodeHolds, crate::specs::Encode::EncodeForm))]
pub fn holds(case: Case, spare: Spare) -> bool
    ensures { Tells result (EncodeHolds case.entry.head case.entry.bytes.now spare.places) }
{
    let Some(room) = Room::of(case, spare) else {
        return false;
    };
    encode_formed(room) && call_holds(room)
}

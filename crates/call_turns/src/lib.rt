// The call turns: of each object the note before its streak and the note after it.
#![tactic(auto)]

ghost use Rattle.std.specs.Prelude.{◌≡◌, ◌*◌, ◌≤◌, ◌<◌, ◌+◌, length, get_or};
ghost use Rattle.lent.specs.Over.{over, put};
ghost use Rattle.grouping_chart.specs.Object.{notes};
ghost use Rattle.grouping_chart.specs.Outcome.{outcome};
ghost use Rattle.grouping_chart.specs.Lent.{seen};
ghost use Rattle.call_turns.specs.Turns.{note_told, previous_changes, next_changes};
ghost use Rattle.call_turns.specs.Call.{memory, turns_outcome};
ghost use Rattle.call_turns.specs.passes.Rooms.{note_indices, EndsRoom, TurnsRoom};

use grouping_chart::chart::Chart;
use grouping_chart::object;
use grouping_chart::object::{NoteIndex, ObjectIndex};
use grouping_chart::refusal::Refusal;
use grouping_chart::room::judge;
use grouping_chart::settings::Settings;
use grouping_hits::limit::SearchLimit;
use grouping_preprocessor::Levels;
use grouping_preprocessor::tables::Streaks;
use lent::fill;

// What is answered where there is no note: C lends u16, which has no None.
const NO_TURN: u16 = u16::MAX;

// Gives each object its note_idx; the result is how many notes there are. It is no `fill::by_place`, since it carries
// the number of the next note.
fn number_notes(kind: &[u8], numbers: &mut [u16]) -> u16
    requires few { length kind.now ≤ 16384 }
    requires room { length kind.now ≤ length numbers.old }
    ensures count { result ≡ length (notes kind.now) }
    ensures numbers { numbers.new ≡ over (note_indices kind.now) numbers.old }
{
    let mut next = NoteIndex(0);
    for (i, &k) in kind.iter().enumerate() {
        let object = ObjectIndex(i);
        numbers[object.0] = object::note_index(k, next).0 as u16;
        next = object::note_after(k, next);
    }
    next.0 as u16
}

// What is answered of a note that may be missing.
#[tactic(auto, unfolding(crate::specs::Turns::note_told))]
fn note_told(note: Option<u16>) -> u16
    ensures { result ≡ note_told note }
{
    note.unwrap_or(NO_TURN)
}

// The number of the object that is at this end of the streak of object i.
fn number_at(numbers: &[u16], ends: &[u16], streak: &[u16], i: usize) -> u16
    requires { EndsRoom numbers.now ends.now streak.now i }
    ensures { result ≡ get_or numbers.now (get_or ends.now (get_or streak.now i 0) 0) 0 }
{
    let end = ends[usize::from(streak[i])];
    numbers[usize::from(end)]
}

// Gives each object the note before its streak and the note after it, by the encoder's tables. The last region, whose
// table says nothing of streaks, takes the notes' numbers.
fn fill_turns(kind: &[u8], levels: Levels, work: &mut [u16], previous: &mut [u16], next: &mut [u16])
    requires { TurnsRoom kind.now work.old levels previous.old next.old }
    ensures previous { previous.new ≡ over (previous_changes kind.now) previous.old }
    ensures next { next.new ≡ over (next_changes kind.now) next.old }
    ensures work { work.new ≡ put (7 * length kind.now) (note_indices kind.now) work.old }
{
    let n = kind.len();
    let (tables, numbers) = work.split_at_mut(7 * n);
    let of = Streaks::of(tables, n, levels);
    let notes = number_notes(kind, numbers);
    fill::by_place(n, previous, |i| {
        note_told(object::note_before(number_at(numbers, of.first, of.streak, i)))
    });
    fill::by_place(n, next, |i| {
        note_told(object::note_following(notes, number_at(numbers, of.last, of.streak, i)))
    });
}

pub fn turns(
    chart: Chart,
    s: Settings,
    previous: &mut [u16],
    next: &mut [u16],
    work: &mut [u16],
    scratch: &mut [f64],
) -> Result<(), Refusal>
    ensures { outcome result (memory previous.new next.new work.new scratch.new)
        ≡ turns_outcome s (seen chart.entry) (memory previous.old next.old work.old scratch.old) }
{
    let n = chart.kind.len();
    let short = (previous.len() < n) | (next.len() < n);
    judge(chart, s, short, work.len(), scratch.len())?;
    let limit = SearchLimit::of(s.search_limit);
    let levels = grouping_preprocessor::encode_levels(chart.kind, work, limit);
    fill_turns(chart.kind, levels, work, previous, next);
    fill::front(work, 8 * n, 0);
    fill::front(scratch, n, 0.0);
    Ok(())
}

// The classes of neighbouring notes, and the groups by these classes, from the notes' objects.
ghost use Rattle.std.specs.Prelude.{◌≡◌, ℕ, cond, ◌<◌, ◌≤◌, List, length};
ghost use Rattle.lent.specs.Over.{over};
ghost use Rattle.grouping_marks.specs.Marks.{group_count, group_numbers};
ghost use Rattle.call_taps.specs.Taps.{tap_size, is_open, class_at, pairs_of, tap_groups_of};
ghost use Rattle.call_taps.specs.Lent.{taps_seen};
ghost use Rattle.call_taps.specs.Call.{known_groups};
ghost use Rattle.call_taps.specs.passes.Rooms.{NotesKnown};

use crate::TapChart;
use call_rhythm::spread::{NO_GROUP, spread};
use grouping_interval::looks::looks_at;
use grouping_interval::marks::mark_classes;
use grouping_marks::group_numbers;
use grouping_ranges::OPEN;

// What an object has in place of a class, where no note follows or it is none.
const NO_PAIR: u8 = u8::MAX;

// The class of note number `note` and the next.
#[tactic(auto, unfolding(crate::specs::Taps::class_at))]
fn class_at(taps: TapChart, margin: f64, objects: &[u16], note: usize) -> u8
    requires known { NotesKnown (taps_seen taps) objects.now }
    requires inside { note < length objects.now }
    ensures { result ≡ class_at margin (taps_seen taps.entry) note }
{
    if note + 1 < objects.len() {
        taps.class(objects[note], objects[note + 1], margin)
    } else {
        NO_PAIR
    }
}

fn fill_pairs(taps: TapChart, margin: f64, objects: &[u16], pair: &mut [u8])
    requires known { NotesKnown (taps_seen taps) objects.now }
    requires room { tap_size (taps_seen taps) ≤ length pair.old }
    ensures { pair.new ≡ over (pairs_of margin (taps_seen taps.entry)) pair.old }
{
    spread(
        taps.kind,
        NO_PAIR,
        pair,
        |note| class_at(taps, margin, objects, note),
    );
}

// How many groups there are, by the notes' groups: they count from 0.
fn count_of(numbers: &[u16]) -> usize
    ensures { (marks : List ℕ) → numbers.now ≡ group_numbers marks → result ≡ group_count marks }
{
    let n = numbers.len();
    if n == 0 {
        return 0;
    }
    usize::from(numbers[n - 1]) + 1
}

// Fills the classes, and the groups where no neighbours at which the grouping looks are open, from marks that are
// written over. The class of a note and the next is read from where it was filled in, so that it is worked out once.
// The result is how many groups there are, where that is known.
pub fn fill_answers(
    taps: TapChart,
    margin: f64,
    objects: &[u16],
    marks: &mut [u16],
    pair: &mut [u8],
    group: &mut [u16],
) -> Option<usize>
    requires known { NotesKnown (taps_seen taps) objects.now }
    requires marks_room { length marks.old ≡ length objects.now }
    requires pair_room { tap_size (taps_seen taps) ≤ length pair.old }
    requires group_room { tap_size (taps_seen taps) ≤ length group.old }
    ensures known { result ≡ known_groups margin (taps_seen taps.entry) }
    ensures pair { pair.new ≡ over (pairs_of margin (taps_seen taps.entry)) pair.old }
    ensures group { let t = taps_seen taps.entry in group.new
        ≡ cond (is_open margin t) group.old (over (tap_groups_of margin t) group.old) }
{
    fill_pairs(taps, margin, objects, pair);
    let class = |object: u16, _next: u16| pair[usize::from(object)];
    if looks_at(objects, OPEN, class) {
        return None;
    }
    mark_classes(objects, marks, class);
    group_numbers(marks);
    spread(taps.kind, NO_GROUP, group, |note| marks[note]);
    Some(count_of(marks))
}

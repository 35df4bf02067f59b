// What is known of notes, by objects.
ghost use Rattle.std.specs.Prelude.{◌≡◌, ℕ, ◌*◌, ◌≤◌, ◌<◌, length};
ghost use Rattle.lent.specs.Over.{over, put};
ghost use Rattle.lent.specs.Scan.{gathered};
ghost use Rattle.lent.specs.passes.Bounds.{AllBelow};
ghost use Rattle.grouping_chart.specs.Object.{notes};
ghost use Rattle.call_rhythm.specs.Rhythm.{per_note};
ghost use Rattle.call_rhythm.specs.passes.Tables.{TablesThere};
ghost use Rattle.call_rhythm.specs.passes.Tables.{by_object, note_groups, note_patterns};

use crate::tables::GroupCounts;
use grouping_chart::object::{NoteIndex, ObjectIndex, is_note, note_after};

// What a NonHit has in place of a number: C lends u16, which has no None.
pub const NO_GROUP: u16 = u16::MAX;

// Gives each object what is said of its note, by the note's number. The loop goes by the place: what a write through
// `out.iter_mut()` in a zip leaves is unknown to a proof. It is no `fill::by_place`, since it carries the number of the
// next note.
pub fn spread<T: Copy, F: Fn(usize) -> T>(kind: &[u8], none: T, out: &mut [T], of_note: F)
    requires room { length kind.now ≤ length out.old }
    requires callable { (j : ℕ) → j < length (notes kind.now) → F.pre of_note j }
    ensures { (value : ℕ → T)
        → ((j : ℕ) (given : T) → j < length (notes kind.now) → F.post of_note j given → given ≡ value j)
        → out.new ≡ over (per_note none value kind.now) out.old }
{
    let mut next = NoteIndex(0);
    for (i, k) in kind.iter().enumerate() {
        let object = ObjectIndex(i);
        out[object.0] = if is_note(*k) { of_note(next.0) } else { none };
        next = note_after(*k, next);
    }
}

// Puts in each number's place what the table has at it.
#[tactic(auto, using(crate::proofs::SpreadLaws::looks))]
pub fn look_up(numbers: &mut [u16], table: &[u16])
    requires { AllBelow numbers.old (length table.now) }
    ensures { numbers.new ≡ gathered table.now numbers.old }
{
    for number in numbers.iter_mut() {
        *number = table[usize::from(*number)];
    }
}

// Gives each object its group and its pattern group, from the tables, which lie in the work slice as tables.rt says.
// Each note's pattern is put in its group's place.
pub fn fill_answers(
    kind: &[u8],
    k: GroupCounts,
    work: &mut [u16],
    group: &mut [u16],
    pattern: &mut [u16],
)
    requires { TablesThere kind.now k work.old group.old pattern.old }
    ensures group { group.new ≡ over (by_object (note_groups kind.now k work.old) kind.now) group.old }
    ensures pattern { pattern.new
        ≡ over (by_object (note_patterns kind.now k work.old) kind.now) pattern.old }
    ensures work { work.new ≡ put (2 * length kind.now) (note_patterns kind.now k work.old) work.old }
{
    let n = kind.len();
    let (notes, patterns) = work.split_at_mut(3 * n);
    let m = k.notes;
    let numbers = &mut notes[2 * n..2 * n + m];
    spread(kind, NO_GROUP, group, |j| numbers[j]);
    look_up(numbers, &patterns[..k.groups]);
    spread(kind, NO_GROUP, pattern, |j| numbers[j]);
}

// Streaks: which objects open one. A mark is a number, as in grouping_marks.
ghost use Rattle.std.specs.Prelude.{◌≡◌, ◌≤◌, length};
ghost use Rattle.lent.specs.Over.{over};
ghost use Rattle.grouping_colour.specs.MonoStreak.{streak_marks};
ghost use Rattle.grouping_colour.specs.passes.Streaks.{opens_after, last_after};

use grouping_chart::object::is_note;

// 0 where an object of kind k continues the open streak: the last note has this kind, which a NonHit never has.
#[tactic(auto, unfolding(crate::specs::passes::Streaks::opens_after))]
fn opens_streak(last: Option<u8>, k: u8) -> u16
    ensures { result ≡ opens_after last k }
{
    u16::from(last != Some(k))
}

// The kind of the last note, after an object of kind k.
#[tactic(auto, unfolding(crate::specs::passes::Streaks::last_after))]
fn last_after(last: Option<u8>, k: u8) -> Option<u8>
    ensures { result ≡ last_after last k }
{
    if is_note(k) { Some(k) } else { last }
}

// Marks the objects that open a streak. The marks are written by index, as no proof knows writes through a zip with
// `iter_mut`. A turn stores and chooses only what, as the passes over marks do.
pub fn mark_streaks(kind: &[u8], marks: &mut [u16])
    requires { length kind.now ≤ length marks.old }
    ensures { marks.new ≡ over (streak_marks kind.now) marks.old }
{
    let mut last: Option<u8> = None;
    for (i, &k) in kind.iter().enumerate() {
        marks[i] = opens_streak(last, k);
        last = last_after(last, k);
    }
}

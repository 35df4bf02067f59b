// What is refused of a lesson: its chart and what is beside it, then the set of its pairs, then one pair after another.
ghost use Rattle.std.specs.Prelude.{◌≡◌, length};
ghost use Rattle.grouping_chart.specs.Lent.{seen};
ghost use Rattle.grouping_chart.specs.Refusal.{and_then, verdict};
ghost use Rattle.grouping_chart.specs.Room.{short_refusal};
ghost use Rattle.grouping_chart.specs.Settings.{settings_refusal};
ghost use Rattle.call_lesson.specs.Lesson.{pairs, rising, count_refusal, set_refusal, first_pair_refused};
ghost use Rattle.call_lesson.specs.Lesson.{lesson_verdict};
ghost use Rattle.call_lesson.specs.Lent.{stretches_seen};
ghost use Rattle.call_lesson.specs.passes.Rooms.{Paired};

use crate::Stretches;
use call_colour::stretches::stretch_refusal;
use grouping_chart::chart::Chart;
use grouping_chart::refusal;
use grouping_chart::refusal::{Reason, Refusal};
use grouping_chart::room::refusal_beside;
use grouping_chart::settings::Settings;

// The most pairs of a lesson.
pub const MOST_PAIRS: usize = 32;

// Whether there are as many lengths as offsets.
#[tactic(auto, unfolding(crate::specs::Lesson::count_refusal))]
fn count_refusal(marked: Stretches) -> Result<(), Reason>
    ensures { result ≡ count_refusal (stretches_seen marked.entry) }
{
    if marked.length.len() == marked.offset.len() {
        return Ok(());
    }
    Err(Reason::UnequalLengths)
}

// Whether each offset is above the one before it.
fn rising(offset: &[u64]) -> bool
    ensures { result ≡ rising offset.now }
{
    offset.is_sorted_by(|a, b| a < b)
}

// Whether there are few enough pairs, and their offsets rise.
#[tactic(auto, unfolding(crate::specs::Lesson::set_refusal))]
fn set_refusal(marked: Stretches) -> Result<(), Reason>
    ensures { result ≡ set_refusal (stretches_seen marked.entry) }
{
    if MOST_PAIRS < marked.offset.len() {
        return Err(Reason::BadLesson);
    }
    if !rising(marked.offset) {
        return Err(Reason::BadLesson);
    }
    Ok(())
}

// The first pair whose stretch is refused.
fn check_pairs(kind: &[u8], marked: Stretches) -> Result<(), Refusal>
    requires { Paired (stretches_seen marked) }
    ensures { result ≡ first_pair_refused kind.now 0 (pairs (stretches_seen marked.entry)) }
{
    refusal::first_refused(marked.offset.len(), |i| {
        stretch_refusal(kind, marked.offset[i] as usize, marked.length[i] as usize)
    })
}

// What is beside a chart of n objects: the numbers of offsets and lengths, the slices, then the settings.
fn beside(
    marked: Stretches,
    s: Settings,
    short: bool,
    n: usize,
    work: usize,
    scratch: usize,
) -> Result<(), Reason>
    ensures { result ≡ and_then (count_refusal (stretches_seen marked.entry))
        (and_then (short_refusal short n work scratch) (settings_refusal s)) }
{
    count_refusal(marked)?;
    refusal_beside(s, short, n, work, scratch)
}

// The verdict on a call; `short` says that an answer slice has too few places, `work` and `scratch` are how many places
// the work slices have.
pub fn judge(
    chart: Chart,
    s: Settings,
    marked: Stretches,
    short: bool,
    work: usize,
    scratch: usize,
) -> Result<(), Refusal>
    ensures { result ≡ lesson_verdict (verdict (seen chart.entry)
        (and_then (count_refusal (stretches_seen marked.entry))
        (and_then (short_refusal short (length chart.entry.kind.now) work scratch) (settings_refusal s))))
        chart.entry.kind.now (stretches_seen marked.entry) }
{
    let n = chart.kind.len();
    refusal::check(chart, beside(marked, s, short, n, work, scratch))?;
    set_refusal(marked)?;
    check_pairs(chart.kind, marked)
}

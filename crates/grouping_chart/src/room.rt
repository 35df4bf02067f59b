// The verdict on every call: refusals 1 to 7, of which 3, a slice that is too short, is beside the chart, and 16, of
// its settings, which is tested straight behind 3.
ghost use Rattle.std.specs.Prelude.{◌≡◌, length};
ghost use Rattle.grouping_chart.specs.Lent.{seen};
ghost use Rattle.grouping_chart.specs.Refusal.{and_then, verdict};
ghost use Rattle.grouping_chart.specs.Room.{short_refusal};
ghost use Rattle.grouping_chart.specs.Settings.{settings_refusal};

use crate::chart::Chart;
use crate::refusal;
use crate::refusal::{Reason, Refusal};
use crate::settings::{Settings, settings_refusal};

// Whether no slice is too short for n objects; `answers` says that an answer slice is.
#[tactic(auto, unfolding(crate::specs::Room::short_refusal))]
pub fn short_refusal(answers: bool, n: usize, work: usize, scratch: usize) -> Result<(), Reason>
    ensures { result ≡ short_refusal answers n work scratch }
{
    if answers {
        return Err(Reason::ShortSlice);
    }
    // work < 8 * n, without a product that could wrap
    if work / 8 < n {
        return Err(Reason::ShortSlice);
    }
    if scratch < n {
        return Err(Reason::ShortSlice);
    }
    Ok(())
}

// What is beside a chart of n objects: the slices, then the settings.
pub fn refusal_beside(
    s: Settings,
    answers: bool,
    n: usize,
    work: usize,
    scratch: usize,
) -> Result<(), Reason>
    ensures { result ≡ and_then (short_refusal answers n work scratch) (settings_refusal s) }
{
    short_refusal(answers, n, work, scratch)?;
    settings_refusal(s)
}

// Refusals 1 to 7 and 16 of a call; `short` says that an answer slice has too few places for the objects, `work` and
// `scratch` are how many places the work slices have.
pub fn judge(
    chart: Chart,
    s: Settings,
    short: bool,
    work: usize,
    scratch: usize,
) -> Result<(), Refusal>
    ensures { result ≡ verdict (seen chart.entry)
        (and_then (short_refusal short (length chart.entry.kind.now) work scratch) (settings_refusal s)) }
{
    refusal::check(
        chart,
        refusal_beside(s, short, chart.kind.len(), work, scratch),
    )
}

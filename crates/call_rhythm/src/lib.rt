// The call rhythm: per object the number of its rhythm group and of its pattern group.
#![tactic(auto)]

ghost use Rattle.std.specs.Prelude.{◌≡◌};
ghost use Rattle.grouping_chart.specs.Outcome.{outcome};
ghost use Rattle.grouping_chart.specs.Lent.{seen};
ghost use Rattle.call_rhythm.specs.Rhythm.{counts_of};
ghost use Rattle.call_rhythm.specs.Call.{memory, filled, totals, rhythm_outcome};
ghost use Rattle.call_rhythm.specs.passes.Tables.{GroupsRoom};

use crate::tables::GroupCounts;
use grouping_chart::chart::Chart;
use grouping_chart::refusal::Refusal;
use grouping_chart::room::judge;
use grouping_chart::settings::Settings;
use lent::fill;

pub mod spread;
pub mod tables;

// How many rhythm groups and pattern groups there are.
#[derive(Clone, Copy, PartialEq, Eq)]
pub struct GroupTotals {
    pub groups: usize,
    pub patterns: usize,
}

impl From<GroupCounts> for GroupTotals {
    ghost from_gives = { λ counts t. t ≡ totals counts };

    fn from(counts: GroupCounts) -> GroupTotals {
        GroupTotals {
            groups: counts.groups,
            patterns: counts.patterns,
        }
    }
}

// What the call does with an accepted chart: group, fill the answers, and clear the work slices.
fn fill_groups(
    chart: Chart,
    s: Settings,
    group: &mut [u16],
    pattern: &mut [u16],
    work: &mut [u16],
    scratch: &mut [f64],
) -> GroupCounts
    requires { GroupsRoom chart.kind.now chart.start.now chart.delta.now
        (memory group.old pattern.old work.old scratch.old) }
    ensures counts { let c = seen chart.entry in result ≡ counts_of s.margin c.kinds c.starts c.deltas }
    ensures filled { let c = seen chart.entry in memory group.new pattern.new work.new scratch.new
        ≡ filled s c.kinds c.starts c.deltas (memory group.old pattern.old work.old scratch.old) }
{
    let n = chart.kind.len();
    let k = tables::group_notes(chart, s.margin, work, scratch);
    spread::fill_answers(chart.kind, k, work, group, pattern);
    fill::front(work, 8 * n, 0);
    fill::front(scratch, n, 0.0);
    k
}

// The answer and work slices are no struct: a clause on a struct that holds a `&mut` also has to say which borrow it
// is.
pub fn rhythm(
    chart: Chart,
    s: Settings,
    group: &mut [u16],
    pattern: &mut [u16],
    work: &mut [u16],
    scratch: &mut [f64],
) -> Result<GroupTotals, Refusal>
    ensures { outcome result (memory group.new pattern.new work.new scratch.new)
        ≡ rhythm_outcome s (seen chart.entry)
        (memory group.old pattern.old work.old scratch.old) }
{
    let n = chart.kind.len();
    let short = (group.len() < n) | (pattern.len() < n);
    judge(chart, s, short, work.len(), scratch.len())?;
    let counts = fill_groups(chart, s, group, pattern, work, scratch);
    Ok(GroupTotals::from(counts))
}

// The call record: what is said of one rhythm group.
#![tactic(auto)]

ghost use Rattle.std.specs.Prelude.{◌≡◌, length};
ghost use Rattle.grouping_chart.specs.Outcome.{outcome};
ghost use Rattle.grouping_chart.specs.Chart.{size};
ghost use Rattle.grouping_chart.specs.Lent.{seen};
ghost use Rattle.call_rhythm.specs.Rhythm.{groups_in};
ghost use Rattle.call_record.specs.Record.{record_at};
ghost use Rattle.call_record.specs.Call.{memory, window_good, record_refusal, cleared, record_outcome};
ghost use Rattle.call_record.specs.passes.Found.{GroupRoom};

use evaluator_rhythm::repeated_interval_penalty;
use grouping_chart::chart::Chart;
use grouping_chart::object::ObjectIndex;
use grouping_chart::refusal::{Reason, Refusal};
use grouping_chart::room::judge;
use grouping_chart::settings::Settings;
use grouping_interval::notes::count_groups;
use lent::fill;
use numeric::canonical::canonical;

pub mod found;

// A rhythm group: its first note's object, how many notes it has, its own interval and the ratio to that before, its
// interval, the penalty for a repeated interval, its pattern group, and the ratio of that one's interval to the one
// before.
#[derive(Clone, Copy)]
pub struct GroupRecord {
    pub first: ObjectIndex,
    pub notes: usize,
    pub own: Option<f64>,
    pub ratio: f64,
    pub interval: f64,
    pub penalty: f64,
    pub pattern: usize,
    pub patternratio: f64,
}

fn window_good(window: f64) -> bool
    ensures { result ≡ window_good window }
{
    numeric::range::is_within(1.0, 1000.0, window)
}

// Whether window and group number are good for an accepted chart. A window that is not good is refused, then a number
// that no group has.
#[tactic(auto, unfolding(crate::specs::Call::record_refusal), using(crate::proofs::CallLaws::counts))]
fn record_refusal(
    kind: &[u8],
    delta: &[f64],
    margin: f64,
    g: usize,
    window: f64,
) -> Result<(), Reason>
    requires { length delta.now ≡ length kind.now }
    ensures { result ≡ record_refusal window g (groups_in margin kind.now delta.now) }
{
    if !window_good(window) {
        return Err(Reason::BadWindow);
    }
    if count_groups(kind, delta, margin) <= g {
        return Err(Reason::OutOfRange);
    }
    Ok(())
}

// What the call does with an accepted chart and group number: finds the group, clears the work slices, and scores.
fn make_record(
    chart: Chart,
    s: Settings,
    g: usize,
    window: f64,
    work: &mut [u16],
    scratch: &mut [f64],
) -> GroupRecord
    requires { GroupRoom s.margin chart.kind.now chart.start.now chart.delta.now g work.old scratch.old }
    ensures made { let c = seen chart.entry in result ≡ record_at s c.kinds c.starts c.deltas g window }
    ensures cleared { memory work.new scratch.new
        ≡ cleared (size (seen chart.entry)) (memory work.old scratch.old) }
{
    let n = chart.kind.len();
    let found = found::find(chart, s.margin, g, work, scratch);
    fill::front(work, 8 * n, 0);
    fill::front(scratch, n, 0.0);
    let located = found.located;
    let first = located.first;
    let owns = located.owns;
    let own = owns.newest;
    let previous = owns.second;
    let ratio = grouping_same_rhythm::own::ratio(own, previous);
    let penalty = repeated_interval_penalty(
        owns,
        located.notes,
        located.duration,
        window,
        s.threshold,
    );
    let pattern = found.pattern;
    GroupRecord {
        first,
        notes: located.notes,
        own,
        ratio: canonical(ratio),
        interval: found.interval,
        penalty,
        pattern: pattern.number,
        patternratio: canonical(pattern.ratio),
    }
}

// The work slices are no struct: a clause on a struct that holds a `&mut` also has to say which borrow it is.
pub fn record(
    chart: Chart,
    s: Settings,
    group: usize,
    window: f64,
    work: &mut [u16],
    scratch: &mut [f64],
) -> Result<GroupRecord, Refusal>
    ensures { outcome result (memory work.new scratch.new)
        ≡ record_outcome s (seen chart.entry) group window (memory work.old scratch.old) }
{
    judge(chart, s, false, work.len(), scratch.len())?;
    record_refusal(chart.kind, chart.delta, s.margin, group, window)?;
    Ok(make_record(chart, s, group, window, work, scratch))
}

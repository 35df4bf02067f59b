// The verdict on a call: refusals 1 to 7 and 16, of which 6 is of either end of a range, and 15 between 6 and 7.
ghost use Rattle.std.specs.Prelude.{◌≡◌, length};
ghost use Rattle.grouping_chart.specs.Refusal.{and_then};
ghost use Rattle.grouping_chart.specs.Room.{short_refusal};
ghost use Rattle.grouping_chart.specs.Settings.{settings_refusal};
ghost use Rattle.call_taps.specs.Lent.{taps_seen};
ghost use Rattle.call_taps.specs.Refusals.{range_refusal, all_equally_long, ranges_verdict, tap_verdict};
ghost use Rattle.call_taps.specs.passes.Rooms.{SameLong, all_good};

use crate::TapChart;
use grouping_chart::chart::MOST_OBJECTS;
use grouping_chart::good::{all_places, all_within, kinds_good};
use grouping_chart::refusal::{
    Reason, Refusal, before_objects, first_refused, object_order, time_good,
};
use grouping_chart::room::refusal_beside;
use grouping_chart::settings::Settings;
use grouping_ranges::Range;
use numeric::range;

// Whether both ends are good and in order; else why not.
#[tactic(auto, unfolding(crate::specs::Refusals::range_refusal))]
fn range_refusal(known: Range) -> Result<(), Reason>
    ensures { result ≡ range_refusal known }
{
    let good = time_good(known.low) & time_good(known.high);
    if !good {
        return Err(Reason::BadDelta);
    }
    if known.low <= known.high {
        return Ok(());
    }
    Err(Reason::LowestAboveHighest)
}

// Most charts are good, which is told without a jump for each object.
fn all_good(taps: TapChart) -> bool
    requires { SameLong (taps_seen taps) }
    ensures { result ≡ all_good (taps_seen taps.entry) }
{
    let kinds = kinds_good(taps.kind);
    let starts = all_within(range::EARLIEST, range::LATEST, taps.start);
    let lowest = all_within(range::EARLIEST, range::LATEST, taps.lowest);
    let highest = all_within(range::EARLIEST, range::LATEST, taps.highest);
    let in_order = all_places(taps.kind.len(), |i| taps.lowest[i] <= taps.highest[i]);
    let ratios = all_within(range::LEAST_RATIO, range::GREATEST_RATIO, taps.ratio);
    kinds & (starts & (lowest & (highest & (in_order & ratios))))
}

fn check_objects(taps: TapChart) -> Result<(), Refusal>
    requires { SameLong (taps_seen taps) }
    ensures { result ≡ ranges_verdict (taps_seen taps.entry) }
{
    if all_good(taps) {
        return Ok(());
    }
    first_refused(taps.kind.len(), |i| {
        object_order(
            taps.kind[i],
            taps.start[i],
            range_refusal(taps.range(i)),
            taps.ratio[i],
        )
    })
}

// Whether the five slices are of one length.
#[tactic(auto, unfolding(crate::specs::Refusals::all_equally_long))]
fn all_equally_long(taps: TapChart) -> bool
    ensures { result ≡ all_equally_long (taps_seen taps.entry) }
{
    let n = taps.kind.len();
    taps.start.len() == n
        && taps.lowest.len() == n
        && taps.highest.len() == n
        && taps.ratio.len() == n
}

// `short` says that an answer slice has too few places for the objects, `work` and `scratch` are how many places the
// work slices have.
pub fn judge(
    taps: TapChart,
    s: Settings,
    short: bool,
    work: usize,
    scratch: usize,
) -> Result<(), Refusal>
    ensures { result ≡ tap_verdict (taps_seen taps.entry)
        (and_then (short_refusal short (length taps.entry.kind.now) work scratch) (settings_refusal s)) }
{
    let n = taps.kind.len();
    before_objects(
        MOST_OBJECTS < n,
        all_equally_long(taps),
        refusal_beside(s, short, n, work, scratch),
    )?;
    check_objects(taps)
}

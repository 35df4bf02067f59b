// The verdict on a call: refusals 1, 2, 3 and 10, then those of the objects that it would build.
ghost use Rattle.std.specs.Prelude.{◌≡◌, ◌<◌, get_or};
ghost use Rattle.std.specs.Float.{nan};
ghost use Rattle.grouping_chart.specs.Refusal.{object_refusal, objects_verdict};
ghost use Rattle.call_build.specs.Build.{built_size, built_chart};
ghost use Rattle.call_build.specs.Call.{rate_good, beside_refusal, verdict_of};
ghost use Rattle.call_build.specs.Lent.{raw_seen};

use crate::objects::Timed;
use crate::{MOST_RAW, Raw};
use grouping_chart::good::{all_places, kinds_good};
use grouping_chart::refusal::{
    Reason, Refusal, before_objects, first_refused, object_refusal, time_good,
};
use numeric::range;

// Whether a built object is good. Its ratio is one of the common ones, so 1.0 serves for it: none of them is refused.
fn built_refusal(timed: Timed, i: usize) -> Result<(), Reason>
    requires { i < built_size (raw_seen timed.raw) }
    ensures { let c = built_chart timed.entry.rate (raw_seen timed.entry.raw) in result
        ≡ object_refusal (get_or c.kinds i 0) (get_or c.starts i nan) (get_or c.deltas i nan) (get_or c.ratios i nan) }
{
    let start = timed.start(i);
    let delta = timed.delta(i);
    object_refusal(timed.raw.kind[i + 2], start, delta, 1.0)
}

// Most charts are good, which is told without a jump for each object.
fn check_objects(timed: Timed) -> Result<(), Refusal>
    ensures { result ≡ objects_verdict (built_chart timed.entry.rate (raw_seen timed.entry.raw)) }
{
    let n = timed.raw.size();
    let kinds = kinds_good(timed.kinds());
    let starts = all_places(n, |i| time_good(timed.start(i)));
    let deltas = all_places(n, |i| time_good(timed.delta(i)));
    if kinds & (starts & deltas) {
        return Ok(());
    }
    first_refused(n, |i| built_refusal(timed, i))
}

// From 0.25 to 4.0.
fn rate_good(rate: f64) -> bool
    ensures { result ≡ rate_good rate }
{
    range::is_within(0.25, 4.0, rate)
}

// Whether what is beside the objects is good: the answer slices, then the rate.
#[tactic(auto, unfolding(crate::specs::Call::beside_refusal))]
fn beside_refusal(short: bool, rate: f64) -> Result<(), Reason>
    ensures { result ≡ beside_refusal short rate }
{
    if short {
        return Err(Reason::ShortSlice);
    }
    if rate_good(rate) {
        return Ok(());
    }
    Err(Reason::BadRate)
}

// The verdict on raw objects; `short` says that an answer slice is too short for those that they build.
pub fn judge(raw: Raw, rate: f64, short: bool) -> Result<(), Refusal>
    ensures { result ≡ verdict_of rate (raw_seen raw.entry) short }
{
    before_objects(
        MOST_RAW < raw.kind.len(),
        raw.time.len() == raw.kind.len(),
        beside_refusal(short, rate),
    )?;
    check_objects(Timed { raw, rate })
}

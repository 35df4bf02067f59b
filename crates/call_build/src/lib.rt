// The call build: a chart made of raw kinds and times, as an editor holds them, and a clock rate.
#![tactic(auto)]

ghost use Rattle.std.specs.Prelude.{◌≡◌, ◌-◌, length};
ghost use Rattle.grouping_chart.specs.Outcome.{outcome};
ghost use Rattle.call_build.specs.Build.{built_chart};
ghost use Rattle.call_build.specs.Call.{memory, filled, build_outcome};
ghost use Rattle.call_build.specs.Lent.{raw_seen};
ghost use Rattle.call_build.specs.passes.Room.{BuildRoom};

use grouping_chart::chart::MOST_OBJECTS;
use grouping_chart::refusal::Refusal;
use lent::fill;
use objects::Timed;

pub mod objects;
pub mod ratio;
pub mod verdict;

// The most raw objects that are taken: the first two build none.
pub const MOST_RAW: usize = MOST_OBJECTS + 2;

// Raw objects as a call is lent them: two slices, with a place in each for each object.
#[derive(Clone, Copy)]
pub struct Raw<'a> {
    pub kind: &'a [u8],
    pub time: &'a [f64],
}

impl Raw<'_> {
    // How many objects are built.
    pub(crate) fn size(self) -> usize
        ensures { result ≡ length self.entry.kind.now - 2 }
    {
        self.kind.len().saturating_sub(2)
    }
}

// What the call does with accepted objects: the ratios are made of the deltas that were filled.
fn fill_chart(
    timed: Timed,
    built_kind: &mut [u8],
    start: &mut [f64],
    delta: &mut [f64],
    ratio: &mut [f64],
)
    requires { BuildRoom (raw_seen timed.raw) (memory built_kind.old start.old delta.old ratio.old) }
    ensures { memory built_kind.new start.new delta.new ratio.new
        ≡ filled (built_chart timed.entry.rate (raw_seen timed.entry.raw))
        (memory built_kind.old start.old delta.old ratio.old) }
{
    let n = timed.raw.size();
    fill::copy(timed.kinds(), built_kind);
    objects::fill_starts(timed.raw.time, timed.rate, n, start);
    objects::fill_deltas(timed.raw.time, timed.rate, n, delta);
    objects::fill_ratios(&delta[..n], ratio);
}

// The answer slices are no struct: a clause on a struct that holds a `&mut` also has to say which borrow it is.
pub fn build(
    raw: Raw,
    rate: f64,
    built_kind: &mut [u8],
    start: &mut [f64],
    delta: &mut [f64],
    ratio: &mut [f64],
) -> Result<usize, Refusal>
    ensures { outcome result (memory built_kind.new start.new delta.new ratio.new)
        ≡ build_outcome rate (raw_seen raw.entry) (memory built_kind.old start.old delta.old ratio.old) }
{
    let n = raw.size();
    let short = (built_kind.len() < n) | (start.len() < n) | (delta.len() < n) | (ratio.len() < n);
    verdict::judge(raw, rate, short)?;
    fill_chart(Timed { raw, rate }, built_kind, start, delta, ratio);
    Ok(n)
}

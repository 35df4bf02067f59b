// The objects that are built of raw ones: their kinds, starts, deltas and ratios.
ghost use Rattle.std.specs.Prelude.{◌≡◌, ◌+◌, ◌-◌, ◌≤◌, ◌<◌, drop, length};
ghost use Rattle.lent.specs.Over.{over};
ghost use Rattle.call_build.specs.Build.{built_size, start_at, delta_at, built_starts, built_deltas};
ghost use Rattle.call_build.specs.Lent.{raw_seen};
ghost use Rattle.call_build.specs.passes.Ratios.{ratios_from};

use crate::Raw;
use crate::ratio::nearest_ratio;
use lent::fill;

// Raw objects with as many times as kinds, and the clock rate by which the times are divided.
#[derive(Clone, Copy)]
pub struct Timed<'a> {
    pub raw: Raw<'a>,
    pub rate: f64,
    ghost as_many_times: { length raw.time.now ≡ length raw.kind.now },
}

impl<'a> Timed<'a> {
    // The kinds of the objects that are built.
    pub(crate) fn kinds(self) -> &'a [u8]
        ensures { result.now ≡ drop 2 self.entry.raw.kind.now }
    {
        &self.raw.kind[self.raw.kind.len().min(2)..]
    }

    pub(crate) fn start(self, i: usize) -> f64
        requires { i < built_size (raw_seen self.raw) }
        ensures { result ≡ start_at self.entry.rate self.entry.raw.time.now i }
    {
        start_at(self.raw.time, self.rate, i)
    }

    pub(crate) fn delta(self, i: usize) -> f64
        requires { i < built_size (raw_seen self.raw) }
        ensures { result ≡ delta_at self.entry.rate self.entry.raw.time.now i }
    {
        delta_at(self.raw.time, self.rate, i)
    }
}

// When object i starts.
#[tactic(auto, unfolding(crate::specs::Build::start_at))]
pub fn start_at(time: &[f64], rate: f64, i: usize) -> f64
    requires { i + 2 < length time.now }
    ensures { result ≡ start_at rate time.now i }
{
    time[i + 2] / rate
}

// How long after the raw object before it object i starts.
#[tactic(auto, unfolding(crate::specs::Build::delta_at))]
pub fn delta_at(time: &[f64], rate: f64, i: usize) -> f64
    requires { i + 2 < length time.now }
    ensures { result ≡ delta_at rate time.now i }
{
    (time[i + 2] - time[i + 1]) / rate
}

pub fn fill_starts(time: &[f64], rate: f64, n: usize, start: &mut [f64])
    requires { (n ≤ length start.old) × (n ≤ length time.now - 2) }
    ensures { start.new ≡ over (built_starts rate time.now n) start.old }
{
    fill::by_place(n, start, |i| start_at(time, rate, i));
}

pub fn fill_deltas(time: &[f64], rate: f64, n: usize, delta: &mut [f64])
    requires { (n ≤ length delta.old) × (n ≤ length time.now - 2) }
    ensures { delta.new ≡ over (built_deltas rate time.now n) delta.old }
{
    fill::by_place(n, delta, |i| delta_at(time, rate, i));
}

// The first object has no delta before its own. It stands before the loop, which so has no jump.
pub fn fill_ratios(delta: &[f64], ratio: &mut [f64])
    requires { length delta.now ≤ length ratio.old }
    ensures { ratio.new ≡ over (ratios_from delta.now) ratio.old }
{
    if delta.is_empty() {
        return;
    }
    ratio[0] = 1.0;
    let later = delta.len() - 1;
    fill::by_place(
        later,
        &mut ratio[1..],
        |i| nearest_ratio(delta[i + 1] / delta[i]),
    );
}

// Whether a value lies in a range, and the ranges of a chart's times and ratios.
ghost use Rattle.std.specs.Prelude.{◌≡◌};
ghost use Rattle.numeric.specs.Range.{within};

// The ends of the range of a start or a delta: 2^24 and its negative.
pub const EARLIEST: f64 = -16777216.0;

pub const LATEST: f64 = 16777216.0;

// The ends of the range of a ratio: 2^-24 and 2^24.
pub const LEAST_RATIO: f64 = 0.000000059604644775390625;

pub const GREATEST_RATIO: f64 = 16777216.0;

// Whether x is from lo to hi, which a NaN is not. Both ends are tested, where `contains` would jump behind the first.
#[tactic(auto, unfolding(crate::specs::Range::within))]
pub fn is_within(lo: f64, hi: f64, x: f64) -> bool
    ensures { result ≡ within lo hi x }
{
    (lo <= x) & (x <= hi)
}

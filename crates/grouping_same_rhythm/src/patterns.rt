// Pattern groups: neighbouring groups by their intervals.
ghost use Rattle.std.specs.Prelude.{◌≡◌, ◌<◌, length};
ghost use Rattle.grouping_same_rhythm.specs.SamePatterns.{pattern_interval, pattern_of};

use grouping_interval::walk::IntervalWalk;

// A group's pattern: its number, and its interval set against that of the pattern before.
#[derive(Clone, Copy)]
pub struct Pattern {
    pub number: usize,
    pub ratio: f64,
}

// The interval of the pattern of these groups: that of the second, where there is one.
#[tactic(auto, unfolding(crate::specs::SamePatterns::pattern_interval))]
fn pattern_interval(intervals: &[f64]) -> f64
    requires { 0 < length intervals.now }
    ensures { result ≡ pattern_interval intervals.now }
{
    if intervals.len() == 1 {
        return intervals[0];
    }
    intervals[1]
}

// The pattern of group g. The loop goes from end to end: an iterator over the patterns would give only the last of the
// number, the pattern before and this one, which are all wanted.
pub fn pattern_at(intervals: &[f64], margin: f64, g: usize) -> Pattern
    requires { g < length intervals.now }
    ensures { result ≡ pattern_of margin intervals.now g }
{
    let mut number = 0;
    let mut before = 0;
    let mut at = 0;
    let mut end = IntervalWalk::new(intervals).step(margin).at;
    while end <= g {
        before = at;
        at = end;
        end = IntervalWalk {
            values: intervals,
            at,
        }
        .step(margin)
        .at;
        number += 1;
    }
    if number == 0 {
        return Pattern { number, ratio: 1.0 };
    }
    let this = pattern_interval(&intervals[at..end]);
    let previous = pattern_interval(&intervals[before..at]);
    Pattern {
        number,
        ratio: this / previous,
    }
}

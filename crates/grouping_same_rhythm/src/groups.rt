// Each group's interval.
ghost use Rattle.std.specs.Prelude.{◌≡◌, ℕ, ◌<◌, length, get_or};
ghost use Rattle.std.specs.Float.{nan};
ghost use Rattle.lent.specs.Over.{over};
ghost use Rattle.grouping_same_rhythm.specs.SameRhythm.{starts_of, between, intervals_of};
ghost use Rattle.grouping_same_rhythm.specs.passes.Groups.{IntervalsRoom};

use lent::fill;
use numeric::near::near;

// From one start to the next, 0.0 where they are near.
fn start_between(previous: f64, start: f64, margin: f64) -> f64
    ensures { result ≡ between margin previous start }
{
    if near(start, previous, margin) {
        0.0
    } else {
        start - previous
    }
}

// The interval of group k.
fn interval_at(start: &[f64], firsts: &[u16], margin: f64, k: usize) -> f64
    requires there { k < length firsts.now }
    requires inside { (i : ℕ) → i < length firsts.now → get_or firsts.now i 0 < length start.now }
    ensures { result ≡ get_or (intervals_of margin (starts_of start.now firsts.now)) k nan }
{
    if k == 0 {
        return f64::INFINITY;
    }
    let previous = usize::from(firsts[k - 1]);
    let at = usize::from(firsts[k]);
    start_between(start[previous], start[at], margin)
}

// Fills the interval of each group.
pub fn fill_intervals(start: &[f64], firsts: &[u16], margin: f64, intervals: &mut [f64])
    requires { IntervalsRoom start.now firsts.now intervals.old }
    ensures { intervals.new
        ≡ over (intervals_of margin (starts_of start.now firsts.now)) intervals.old }
{
    fill::by_place(
        firsts.len(),
        intervals,
        |k| interval_at(start, firsts, margin, k),
    );
}

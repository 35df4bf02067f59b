// Deltas that are known to within a range: the class that two neighbours surely have.
#![tactic(auto)]

ghost use Rattle.std.specs.Prelude.{◌≡◌, cond};
ghost use Rattle.grouping_ranges.specs.SureClass.{sure_class};

use grouping_interval::rise;
use numeric::near::near;

// Some choices are of one class and some of another.
pub const OPEN: u8 = 3;

// The two ends.
#[derive(Clone, Copy)]
pub struct Range {
    pub low: f64,
    pub high: f64,
}

// A class by its two bits: one from 2 on is neither surely near nor surely a rise, and an odd one is a rise or open.
fn class_of_bits(high: bool, low: bool) -> u8
    ensures { result ≡ cond high (cond low 3 2) (cond low 1 0) }
{
    2 * u8::from(high) + u8::from(low)
}

// The class that every choice of two deltas inside the ranges has, or OPEN. It is put together of bits, since a choice
// among the four was compiled into a jump by whether the two are near.
pub fn sure_class(a: Range, b: Range, margin: f64) -> u8
    ensures { result ≡ sure_class margin a b }
{
    // of the ends that face each other where b is higher, and where it is lower
    let near_up = near(a.high, b.low, margin);
    let near_down = near(a.low, b.high, margin);
    let far = (b.high < a.low) & !near_down | (a.high < b.low) & !near_up;
    let all_near = near_up & near_down;
    let all_rise = !near_up & rise(a.high, b.low, margin);
    let no_rise = !rise(a.low, b.high, margin);
    let neither = far & no_rise;
    class_of_bits(!all_near & !all_rise, !all_near & (all_rise | !neither))
}

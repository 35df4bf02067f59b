// A walk over the groups: it holds the lent values and the position where the next group starts. They stay whole, since
// a group's end depends on how many values there are in all, which a slice of the rest no longer tells. A struct with a
// step and no impl of Iterator, as the scope asks.
ghost use Rattle.std.specs.Prelude.{◌≡◌};
ghost use Rattle.grouping_interval.specs.GroupEnd.{group_end};

use crate::group_end;

#[derive(Drop)]
pub struct IntervalWalk<'a> {
    pub values: &'a [f64],
    pub at: usize,
}

impl<'a> IntervalWalk<'a> {
    // The walk before the first group.
    pub fn new(values: &'a [f64]) -> IntervalWalk<'a>
        ensures { (result.values ≡ values.entry) × (result.at ≡ 0) }
    {
        IntervalWalk { values, at: 0 }
    }

    // The walk past its next group, which lies from the position before to the position after.
    pub fn step(self, margin: f64) -> IntervalWalk<'a>
        ensures { (result.values ≡ self.entry.values)
            × (result.at ≡ group_end margin self.entry.values.now self.entry.at) }
    {
        let at = group_end(self.values, margin, self.at);
        IntervalWalk {
            values: self.values,
            at,
        }
    }
}

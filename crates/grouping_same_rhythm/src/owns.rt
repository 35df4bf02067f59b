// The own intervals up to one group: of them only the last four are needed at a time.
ghost use Rattle.std.specs.Prelude.{◌≡◌};
ghost use Rattle.grouping_same_rhythm.specs.Own.{snapped};
ghost use Rattle.grouping_same_rhythm.specs.passes.Owns.{none_yet, recent_with, GroupThere, ReachedIs};

use crate::own::{modal_delta, snap};
use grouping_interval::walk::IntervalWalk;

// Own intervals of a group and the three before it, none where there is no group.
#[derive(Clone, Copy)]
pub struct Recent {
    pub newest: Option<f64>,
    pub second: Option<f64>,
    pub third: Option<f64>,
    pub fourth: Option<f64>,
}

impl Recent {
    // Before the first group.
    fn new() -> Recent
        ensures { result ≡ none_yet }
    {
        Recent {
            newest: None,
            second: None,
            third: None,
            fourth: None,
        }
    }

    // After a further group, whose modal delta is `own`.
    fn further(self, own: Option<f64>, margin: f64) -> Recent
        ensures { result ≡ recent_with (snapped margin own self.newest) self }
    {
        Recent {
            newest: snap(own, self.newest, margin),
            second: self.newest,
            third: self.second,
            fourth: self.third,
        }
    }
}

// A group that was reached: the own intervals there, and its notes, from `at` to `end`.
#[derive(Clone, Copy)]
pub struct Reached {
    pub owns: Recent,
    pub at: usize,
    pub end: usize,
}

// Group g. The notes' deltas are lent to be put in order, group by group. The margin is a setting and g a question, so
// that a struct of the two would be no plainer.
pub fn reach(deltas: &mut [f64], margin: f64, g: usize) -> Reached
    requires { GroupThere margin deltas.old g }
    ensures { ReachedIs margin deltas.old deltas.new g result }
{
    let mut owns = Recent::new();
    let mut at = 0;
    let mut end = 0;
    'groups: for _k in 0..=g {
        at = end;
        end = IntervalWalk { values: deltas, at }.step(margin).at;
        let own = modal_delta(&mut deltas[at..end], margin);
        owns = owns.further(own, margin);
    }
    Reached { owns, at, end }
}

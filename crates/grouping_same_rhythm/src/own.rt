// A group's own interval: found, snapped to the one before, and set against it. It says how far apart the notes of the
// group are, in milliseconds; of a single note nothing can be said.
ghost use Rattle.std.specs.Prelude.{◌≡◌};
ghost use Rattle.numeric_sort.specs.Ordered.{AllFinite};
ghost use Rattle.grouping_same_rhythm.specs.Own.{snapped, ratio_of};
ghost use Rattle.grouping_same_rhythm.specs.passes.Owns.{Modal};

use grouping_normalizer::normal_of;
use numeric::near::near;
use numeric::round::round_ties_even;

// What the second delta counts as in its group, made whole. The lent deltas are left with the distinct ones in front.
pub fn modal_delta(deltas: &mut [f64], margin: f64) -> Option<f64>
    requires { AllFinite deltas.old }
    ensures { Modal margin deltas.old deltas.new result }
{
    if deltas.len() < 2 {
        return None;
    }
    let second = deltas[1];
    let normal = normal_of(deltas, margin, second);
    Some(round_ties_even(normal))
}

// The previous group's own interval, where it is near.
#[tactic(auto, unfolding(crate::specs::Own::snapped))]
pub fn snap(own: Option<f64>, previous: Option<f64>, margin: f64) -> Option<f64>
    ensures { result ≡ snapped margin own previous }
{
    match (own, previous) {
        (Some(x), Some(y)) if near(x, y, margin) => Some(y),
        _ => own,
    }
}

// Two zeros give a NaN, as in the source.
#[tactic(auto, unfolding(crate::specs::Own::ratio_of))]
pub fn ratio(own: Option<f64>, previous: Option<f64>) -> f64
    ensures { result ≡ ratio_of own previous }
{
    match (own, previous) {
        (Some(x), Some(y)) => x / y,
        _ => 1.0,
    }
}

// The common ratio that lies nearest to a quotient.
ghost use Rattle.std.specs.Prelude.{◌≡◌, cond};
ghost use Rattle.std.specs.Float.Ieee as Ieee;
ghost use Rattle.numeric.specs.passes.Gap.{gap_of};
ghost use Rattle.call_build.specs.Ratio.{nearest_ratio};
ghost use Rattle.call_build.specs.passes.Candidate.{candidate_of};

use numeric::near;

// The source's common ratios after 1.0, in its order.
const LATER_RATIOS: [f64; 8] = [
    2.0,
    0.5,
    3.0,
    0.3333333333333333,
    1.5,
    0.6666666666666666,
    1.25,
    0.8,
];

// A ratio and how far it is from the quotient.
#[derive(Clone, Copy)]
pub struct Candidate {
    pub ratio: f64,
    pub gap: f64,
}

#[tactic(auto, unfolding(crate::specs::passes::Candidate::candidate_of))]
fn measured(ratio: f64, q: f64) -> Candidate
    ensures { result ≡ candidate_of q ratio }
{
    Candidate {
        ratio,
        gap: near::gap(ratio, q),
    }
}

// `ratio` where it is nearer, so that of equals the first stays.
#[tactic(auto, unfolding(crate::specs::passes::Candidate::candidate_of))]
fn nearer(best: Candidate, ratio: f64, q: f64) -> Candidate
    ensures { result ≡ cond (Ieee.lt (gap_of ratio q) best.gap) (candidate_of q ratio) best }
{
    let next = measured(ratio, q);
    if next.gap < best.gap { next } else { best }
}

// The nine in the source's order, one after another. The compiler writes the loop out.
pub fn nearest_ratio(q: f64) -> f64
    ensures { result ≡ nearest_ratio q }
{
    let mut best = measured(1.0, q);
    for ratio in LATER_RATIOS {
        best = nearer(best, ratio, q);
    }
    best.ratio
}

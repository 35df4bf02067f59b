// The penalty of a rhythm group that repeats an interval.
#![tactic(auto)]

ghost use Rattle.std.specs.Prelude.{◌≡◌, cond, ltb};
ghost use Rattle.numeric.specs.Constants.{one64, eight_tenths};
ghost use Rattle.evaluator_rhythm.specs.RepeatedInterval.{similar, similar_to, some_pair, walk_penalty};
ghost use Rattle.evaluator_rhythm.specs.passes.Walk.{newest_of, penalty_among};
ghost use Rattle.evaluator_rhythm.specs.RepeatedInterval.{newest_first, smaller, larger, duration_penalty};
ghost use Rattle.evaluator_rhythm.specs.RepeatedInterval.{repeated_interval_penalty};

use grouping_same_rhythm::owns::Recent;
use numeric::near::near;

#[tactic(auto, unfolding(crate::specs::RepeatedInterval::similar))]
fn is_similar(newer: f64, older: f64, threshold: f64) -> bool
    ensures { result ≡ similar threshold newer older }
{
    near(1.0, newer / older, threshold)
}

// Whether an own interval is similar to an older one.
fn similar_to(newer: f64, older: &[f64], threshold: f64) -> bool
    ensures { result ≡ similar_to threshold newer older.now }
{
    older.iter().any(|o| is_similar(newer, *o, threshold))
}

// Whether one of them is similar to an older one. The newest comes first.
#[tactic(auto, unfolding(crate::specs::RepeatedInterval::some_pair))]
fn some_pair(owns: &[f64], threshold: f64) -> bool
    ensures { result ≡ some_pair threshold owns.now }
{
    match owns {
        [] => false,
        [newer, older @ ..] => similar_to(*newer, older, threshold) || some_pair(older, threshold),
    }
}

// The own intervals of K groups, if they all exist. By the place: an array's `map` can't stop at one that is absent.
#[tactic(auto, unfolding(crate::specs::passes::Walk::newest_of))]
fn newest<const K: usize>(owns: [Option<f64>; K]) -> Option<[f64; K]>
    ensures { result ≡ newest_of K owns.entry }
{
    let mut found = [0.0; K];
    for i in 0..K {
        found[i] = owns[i]?;
    }
    Some(found)
}

fn penalty_if(similar: bool) -> f64
    ensures { result ≡ cond similar eight_tenths one64 }
{
    if similar { 0.8 } else { 1.0 }
}

// The walk over K groups, a group and the ones before it, if their own intervals exist.
#[tactic(auto, unfolding(crate::specs::passes::Walk::penalty_among))]
fn walk<const K: usize>(owns: Option<[f64; K]>, threshold: f64) -> f64
    ensures { result ≡ penalty_among threshold owns.entry }
{
    match owns {
        Some(walked) => penalty_if(some_pair(&walked, threshold)),
        None => 1.0,
    }
}

// A group of six notes or more takes no penalty from the walk over four.
fn short_penalty(owns: Recent, notes: usize, threshold: f64) -> f64
    ensures { result ≡ cond (ltb notes 6) (walk_penalty threshold 4 (newest_first owns)) one64 }
{
    if notes < 6 {
        let four = [owns.newest, owns.second, owns.third, owns.fourth];
        walk(newest(four), threshold)
    } else {
        1.0
    }
}

// Not the library's `min` and `max`: these pass over a NaN, and of two zeros give either.
#[tactic(auto, unfolding(crate::specs::RepeatedInterval::smaller))]
fn smaller_of(x: f64, y: f64) -> f64
    ensures { result ≡ smaller x y }
{
    if x <= y { x } else { y }
}

#[tactic(auto, unfolding(crate::specs::RepeatedInterval::larger))]
fn larger_of(x: f64, y: f64) -> f64
    ensures { result ≡ larger x y }
{
    if y <= x { x } else { y }
}

fn duration_penalty(duration: f64, window: f64) -> f64
    ensures { result ≡ duration_penalty duration window }
{
    larger_of(1.0 - duration * 2.0 / window, 0.5)
}

// `notes` is how many notes the group has, `duration` its last start minus its first.
pub fn repeated_interval_penalty(
    owns: Recent,
    notes: usize,
    duration: f64,
    window: f64,
    threshold: f64,
) -> f64
    ensures { result ≡ repeated_interval_penalty threshold owns notes duration window }
{
    let three = [owns.newest, owns.second, owns.third];
    let long = walk(newest(three), threshold);
    let short = short_penalty(owns, notes, threshold);
    smaller_of(long, short) * duration_penalty(duration, window)
}

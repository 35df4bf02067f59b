// The delta normaliser: what a delta counts as among the deltas of its group.
#![tactic(auto)]

ghost use Rattle.std.specs.Prelude.{◌≡◌, ◌<◌, length};
ghost use Rattle.numeric_sort.specs.Ordered.{AllFinite};
ghost use Rattle.grouping_normalizer.specs.Normalizer.{alike, holds, middle, middle_of, sets, NormalOf};
ghost use Rattle.grouping_normalizer.specs.passes.Distinct.{Distinct};
ghost use Rattle.grouping_normalizer.specs.passes.Sets.{SetLen};

use numeric::near::near;
use numeric::order::total_order;

// Equal in all bits, for values that are no NaN. `to_bits` asks that there is none: here is no such clause.
fn is_alike(a: f64, b: f64) -> bool
    ensures { result ≡ alike a b }
{
    total_order(a, b) && total_order(b, a)
}

// Puts the distinct values, in total order, in front. The result is how many there are. By index, as each turn reads
// and writes the slice at two places; the library's `dedup` is of a Vec, and there is no heap.
fn distinct_values(values: &mut [f64]) -> usize
    requires { AllFinite values.old }
    ensures { Distinct values.old values.new result }
{
    numeric_sort::sort(values);
    if values.is_empty() {
        return 0;
    }
    let mut k = 0;
    for i in 1..values.len() {
        if !is_alike(values[k], values[i]) {
            k += 1;
            values[k] = values[i];
        }
    }
    k + 1
}

// How many values the set in front has: those before the first that is not near the first one of all. By
// place, so that a must-fail edit can turn one.
fn set_len(values: &[f64], margin: f64) -> usize
    requires { 0 < length values.now }
    ensures { SetLen margin values.now result }
{
    let first = values[0];
    1 + (1..values.len())
        .take_while(|i| near(values[*i], first, margin))
        .count()
}

fn is_held(values: &[f64], x: f64) -> bool
    ensures { result ≡ holds x values.now }
{
    values.iter().any(|v| is_alike(x, *v))
}

// The middle value of a set, or half the sum of the two. The source sorts the set first, which changes nothing of it.
#[tactic(auto, using(crate::proofs::SetLaws::middle_odd))]
fn middle_value(set: &[f64]) -> f64
    requires { 0 < length set.now }
    ensures { result ≡ middle set.now }
{
    let half = set.len() / 2;
    if set.len() % 2 == 1 {
        set[half]
    } else {
        (set[half - 1] + set[half]) / 2.0
    }
}

// The middle of the set that holds x, of distinct values in order; x itself where none holds it. An iterator over the
// sets would be no plainer: how long one is is known only when it is cut off.
#[tactic(auto, using(crate::proofs::SetLaws::middles))]
fn middle_of(values: &[f64], margin: f64, x: f64) -> f64
    ensures { result ≡ middle_of x (sets margin values.now) }
{
    let mut rest = values;
    while !rest.is_empty() {
        let (set, others) = rest.split_at(set_len(rest, margin));
        if is_held(set, x) {
            return middle_value(set);
        }
        rest = others;
    }
    x
}

// What x counts as among the deltas of a group. They are lent to be put in order, the distinct ones in front.
#[tactic(auto, using(crate::proofs::DistinctLaws::fronts))]
pub fn normal_of(deltas: &mut [f64], margin: f64, x: f64) -> f64
    requires { AllFinite deltas.old }
    ensures { NormalOf margin deltas.old deltas.new x result }
{
    let k = distinct_values(deltas);
    middle_of(&deltas[..k], margin, x)
}

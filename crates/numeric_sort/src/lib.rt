// Sorting by the total order, in linear time where the values rise or fall already.
#![tactic(auto)]

ghost use Rattle.std.specs.Prelude.{◌≡◌};
ghost use Rattle.std.specs.List.Sorted.{IsPermutation};
ghost use Rattle.numeric_sort.specs.Ordered.{ordered, AllFinite};
ghost use Rattle.numeric_sort.specs.passes.Sort.{comparison};

use numeric::order::total_order;
use std::cmp::Ordering;

// How two values stand in the total order. It has no place for a NaN, which stands last here: `sort_unstable_by` asks
// that any two values can be compared. A sort asks whether the first is less, and that one test of the order tells.
// `total_cmp` behind the first test would be no plainer, as it is a second order, which a law would have to tie to
// `total_order`; `OrderedFloat` takes the two zeros for equal.
fn compare(a: &f64, b: &f64) -> Ordering
    ensures { result ≡ comparison a.now b.now }
{
    if a.is_nan() || b.is_nan() {
        return a.is_nan().cmp(&b.is_nan());
    }
    if !total_order(*b, *a) {
        return Ordering::Less;
    }
    if !total_order(*a, *b) {
        return Ordering::Greater;
    }
    Ordering::Equal
}

// Turns falling values round, so that they rise: up to 20 values the library puts in one by one, and each of falling
// ones would go before all that are in. Of other values the first pairs mostly tell. In order they are the same list.
#[tactic(auto, using(crate::proofs::ShuffleLaws::finite_ordered))]
fn turn_if_falling(values: &mut [f64])
    ensures finite { AllFinite values.old → AllFinite values.new }
    ensures turned { IsPermutation values.old values.new }
    ensures order { AllFinite values.old → ordered values.new ≡ ordered values.old }
{
    if values.is_sorted_by(|a, b| !total_order(*a, *b)) {
        values.reverse();
    }
}

// The library's sort, by the total order.
fn put_in_order(values: &mut [f64])
    requires { AllFinite values.old }
    ensures { values.new ≡ ordered values.old }
{
    values.sort_unstable_by(compare);
}

// Puts the values in total order. That they are finite is a clause here and above: a type for it would hold a `&mut`.
#[tactic(auto, using(crate::proofs::OrderedLaws::few))]
pub fn sort(values: &mut [f64])
    requires { AllFinite values.old }
    ensures { values.new ≡ ordered values.old }
{
    turn_if_falling(values);
    put_in_order(values);
}

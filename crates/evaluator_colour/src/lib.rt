// The colour evaluator's formulas, one function each: the same rounded operations as the source's, in its order.
#![tactic(auto)]

ghost use Rattle.std.specs.Prelude.{◌≡◌};
ghost use Rattle.evaluator_colour.specs.Formulas.{hit_value, alt_value, mono_value, add_if, object_sum};
ghost use Rattle.evaluator_colour.specs.RatioPenalty.{lowered, ratio_penalty};

use grouping_chart::object::ObjectIndex;
use numeric::logistic::LogisticTable;
use numeric::near::near;

// How an object stands in its groups: its hit pattern's interval, its alternating pattern's place in that, its
// streak's place in the alternating pattern, and of which of the three it is the first object.
#[derive(Clone, Copy)]
pub struct Standing {
    pub interval: usize,
    pub pattern_place: usize,
    pub streak_place: usize,
    pub streak: bool,
    pub pattern: bool,
    pub hit: bool,
}

pub fn hit_value(table: &LogisticTable, interval: usize) -> f64
    ensures { result ≡ hit_value interval }
{
    2.0 * (1.0 - table.at(interval))
}

#[tactic(auto, unfolding(crate::specs::Formulas::alt_value))]
pub fn alt_value(table: &LogisticTable, place: usize, hit: f64) -> f64
    ensures { result ≡ alt_value place hit }
{
    table.at(place) * hit
}

pub fn mono_value(table: &LogisticTable, place: usize, alt: f64) -> f64
    ensures { result ≡ mono_value place alt }
{
    table.at(place) * alt * 0.5
}

#[tactic(auto, unfolding(crate::specs::Formulas::add_if))]
pub fn add_if(first: bool, sum: f64, x: f64) -> f64
    ensures { result ≡ add_if first sum x }
{
    if first { sum + x } else { sum }
}

// The object's value before its ratio penalty.
pub fn object_sum(table: &LogisticTable, o: Standing) -> f64
    ensures { result ≡ object_sum o }
{
    let hit = hit_value(table, o.interval);
    let alt = alt_value(table, o.pattern_place, hit);
    let mono = mono_value(table, o.streak_place, alt);
    add_if(
        o.hit,
        add_if(o.pattern, add_if(o.streak, 0.0, mono), alt),
        hit,
    )
}

fn lower(r: f64) -> f64
    ensures { result ≡ lowered r }
{
    1.0 - r / 2.0 * 0.8
}

// By the object's ratio c and the ratio p of the object two before it. Below object 2 there is none, and p is not read:
// no plainer as an Option, as the index tells.
pub fn ratio_penalty(idx: ObjectIndex, c: f64, p: f64, tolerance: f64) -> f64
    ensures { result ≡ ratio_penalty tolerance idx.0 c p }
{
    let i = idx.0;
    if i < 2 {
        return 1.0;
    }
    if near(1.0, c / p, tolerance) {
        return lower(c);
    }
    if i < 4 {
        return 1.0;
    }
    lower(p)
}

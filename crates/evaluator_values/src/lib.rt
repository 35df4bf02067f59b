// Each object's value, from the encoder's tables.
#![tactic(auto)]

ghost use Rattle.std.specs.Prelude.{◌≡◌, ◌-◌, ◌<◌, ◌≤◌, length, get_or};
ghost use Rattle.std.specs.Float.{nan};
ghost use Rattle.lent.specs.Over.{over};
ghost use Rattle.evaluator_values.specs.Colour.{colour_values};
ghost use Rattle.evaluator_values.specs.passes.Tables.{ObjectIn, NumbersAt, looked_up, looked_colour, Sources};

use evaluator_colour::Standing;
use grouping_chart::chart::Chart;
use grouping_chart::object::ObjectIndex;
use grouping_preprocessor::Levels;
use grouping_preprocessor::tables::Tables;
use lent::fill;
use numeric::logistic::LogisticTable;

// An object's group number on each level.
#[derive(Clone, Copy)]
pub struct Numbers {
    pub streak: usize,
    pub pattern: usize,
    pub hit: usize,
}

// That the tables have the object is asked of each function here: a struct of both, made for each object, would be no
// plainer.
fn numbers_at(tables: Tables, idx: ObjectIndex) -> Numbers
    requires { ObjectIn tables idx.0 }
    ensures { NumbersAt tables.entry idx.0 result }
{
    let i = idx.0;
    let streak = usize::from(tables.streak[i]);
    let pattern = usize::from(tables.pattern[streak]);
    let hit = usize::from(tables.hit[pattern]);
    Numbers {
        streak,
        pattern,
        hit,
    }
}

fn standing_at(tables: Tables, idx: ObjectIndex) -> Standing
    requires { ObjectIn tables idx.0 }
    ensures { result ≡ looked_up tables.entry idx.0 }
{
    let i = idx.0;
    let at = numbers_at(tables, idx);
    let interval = usize::from(tables.interval[at.hit]);
    let pattern_place = usize::from(tables.pattern_place[at.pattern]);
    let streak_place = usize::from(tables.streak_place[at.streak]);
    let first = usize::from(tables.first[at.streak]);
    let streak = first == i;
    if i == 0 {
        return Standing {
            interval,
            pattern_place,
            streak_place,
            streak,
            pattern: true,
            hit: true,
        };
    }
    let before = numbers_at(tables, ObjectIndex(i - 1));
    Standing {
        interval,
        pattern_place,
        streak_place,
        streak,
        pattern: at.pattern != before.pattern,
        hit: at.hit != before.hit,
    }
}

// The ratio of the object two before. Below object 2 there is none, and the first stands in: the penalty reads none. No
// plainer as an Option, as the index says already that there is none.
fn earlier_ratio(ratio: &[f64], idx: ObjectIndex) -> f64
    requires { idx.0 < length ratio.now }
    ensures { result ≡ get_or ratio.now (idx.0 - 2) nan }
{
    let i = idx.0;
    if i < 2 {
        return ratio[0];
    }
    ratio[i - 2]
}

fn value_at(
    table: &LogisticTable,
    ratio: &[f64],
    tables: Tables,
    tolerance: f64,
    idx: ObjectIndex,
) -> f64
    requires object { ObjectIn tables idx.0 }
    requires ratio { idx.0 < length ratio.now }
    ensures { result ≡ looked_colour tolerance ratio.now tables.entry idx.0 }
{
    let sum = evaluator_colour::object_sum(table, standing_at(tables, idx));
    let i = idx.0;
    let c = ratio[i];
    let p = earlier_ratio(ratio, idx);
    sum * evaluator_colour::ratio_penalty(idx, c, p, tolerance)
}

// Fills the colour value of each object, by the encoder's tables in the work slice.
pub fn fill_values(
    table: &LogisticTable,
    chart: Chart,
    work: &[u16],
    levels: Levels,
    tolerance: f64,
    value: &mut [f64],
)
    requires sources { Sources chart.kind.now chart.ratio.now work.now levels }
    requires room { length chart.kind.now ≤ length value.old }
    ensures { value.new
        ≡ over (colour_values levels.limit tolerance chart.entry.kind.now chart.entry.ratio.now) value.old }
{
    let n = chart.kind.len();
    let tables = Tables::of(work, n, levels);
    fill::by_place(n, value, |i| {
        value_at(table, chart.ratio, tables, tolerance, ObjectIndex(i))
    });
}

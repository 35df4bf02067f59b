// The calls colour and stretch: one f64 an object, and the mean of a stretch of them.
#![tactic(auto)]

ghost use Rattle.std.specs.Prelude.{◌≡◌};
ghost use Rattle.grouping_chart.specs.Outcome.{outcome};
ghost use Rattle.grouping_chart.specs.Lent.{seen};
ghost use Rattle.call_colour.specs.Call.{memory, filled, colour_outcome, stretch_outcome};
ghost use Rattle.call_colour.specs.passes.Rooms.{ChartRoom};

use grouping_chart::chart::Chart;
use grouping_chart::refusal::Refusal;
use grouping_chart::room::judge;
use grouping_chart::settings::Settings;
use grouping_hits::limit::SearchLimit;
use lent::fill;
use numeric::logistic::LogisticTable;

pub mod stretches;

// A stretch's mean, and its tenths to the nearest.
#[derive(Clone, Copy)]
pub struct StretchMean {
    pub mean: f64,
    pub tenths: i64,
}

// What colour, stretch and lesson do with an accepted chart: encode, fill the values, and clear the work slices.
pub fn fill_chart(
    chart: Chart,
    s: Settings,
    value: &mut [f64],
    work: &mut [u16],
    scratch: &mut [f64],
)
    requires { ChartRoom s chart.kind.now chart.ratio.now (memory value.old work.old scratch.old) }
    ensures { memory value.new work.new scratch.new ≡ filled s chart.entry.kind.now chart.entry.ratio.now
        (memory value.old work.old scratch.old) }
{
    let n = chart.kind.len();
    let limit = SearchLimit::of(s.search_limit);
    let k = grouping_preprocessor::encode_levels(chart.kind, work, limit);
    let table = LogisticTable::new();
    evaluator_values::fill_values(&table, chart, work, k, s.tolerance, value);
    fill::front(work, 8 * n, 0);
    fill::front(scratch, n, 0.0);
}

// Fills the values. The slices that are written are no struct: a clause on a struct that holds a `&mut` also has to say
// which borrow it is.
pub fn colour(
    chart: Chart,
    s: Settings,
    value: &mut [f64],
    work: &mut [u16],
    scratch: &mut [f64],
) -> Result<(), Refusal>
    ensures { outcome result (memory value.new work.new scratch.new)
        ≡ colour_outcome s (seen chart.entry) (memory value.old work.old scratch.old) }
{
    let short = value.len() < chart.kind.len();
    judge(chart, s, short, work.len(), scratch.len())?;
    fill_chart(chart, s, value, work, scratch);
    Ok(())
}

// The mean of the stretch that has object a and not object b.
pub fn stretch(
    chart: Chart,
    s: Settings,
    a: usize,
    b: usize,
    value: &mut [f64],
    work: &mut [u16],
    scratch: &mut [f64],
) -> Result<StretchMean, Refusal>
    ensures { outcome result (memory value.new work.new scratch.new)
        ≡ stretch_outcome s (seen chart.entry) a b (memory value.old work.old scratch.old) }
{
    let short = value.len() < chart.kind.len();
    judge(chart, s, short, work.len(), scratch.len())?;
    stretches::refusal_between(chart.kind, a, b)?;
    fill_chart(chart, s, value, work, scratch);
    let mean = stretches::mean(chart.kind, value, a, b - a);
    Ok(StretchMean {
        mean,
        tenths: numeric::tenths::tenths(mean),
    })
}

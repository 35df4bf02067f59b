// The call lesson: the stretches of a lesson, each with the mean and the tenths that stretch answers.
#![tactic(auto)]

ghost use Rattle.std.specs.Prelude.{◌≡◌, map};
ghost use Rattle.lent.specs.Over.{over};
ghost use Rattle.grouping_chart.specs.Outcome.{outcome};
ghost use Rattle.grouping_chart.specs.Lent.{seen};
ghost use Rattle.call_lesson.specs.Lesson.{pairs};
ghost use Rattle.call_lesson.specs.Lent.{stretches_seen};
ghost use Rattle.call_lesson.specs.Call.{memory, lesson_outcome};
ghost use Rattle.call_lesson.specs.passes.Rooms.{PairsRoom, mean_in, tenths_in};

use call_colour::stretches;
use grouping_chart::chart::Chart;
use grouping_chart::refusal::Refusal;
use grouping_chart::settings::Settings;
use lent::fill;

pub mod verdict;

// The stretches as C lends them: of each its first object, and how many objects it has.
#[derive(Clone, Copy)]
pub struct Stretches<'a> {
    pub offset: &'a [u64],
    pub length: &'a [u64],
}

// The mean of each pair's stretch, and its tenths.
fn fill_answers(kind: &[u8], value: &[f64], marked: Stretches, mean: &mut [f64], tenths: &mut [i64])
    requires { PairsRoom kind.now value.now (stretches_seen marked) mean.old tenths.old }
    ensures mean { mean.new ≡ over (map (mean_in kind.now value.now) (pairs (stretches_seen marked.entry))) mean.old }
    ensures tenths { tenths.new
        ≡ over (map (tenths_in kind.now value.now) (pairs (stretches_seen marked.entry))) tenths.old }
{
    let pairs = marked.offset.len();
    fill::by_place(pairs, mean, |i| {
        stretches::mean(
            kind,
            value,
            marked.offset[i] as usize,
            marked.length[i] as usize,
        )
    });
    fill::by_place(pairs, tenths, |i| numeric::tenths::tenths(mean[i]));
}

// Fills the values once, and of each pair what stretch answers of it alone.
pub fn lesson(
    chart: Chart,
    s: Settings,
    marked: Stretches,
    value: &mut [f64],
    mean: &mut [f64],
    tenths: &mut [i64],
    work: &mut [u16],
    scratch: &mut [f64],
) -> Result<(), Refusal>
    ensures { outcome result (memory value.new mean.new tenths.new work.new scratch.new)
        ≡ lesson_outcome s (seen chart.entry) (stretches_seen marked.entry)
        (memory value.old mean.old tenths.old work.old scratch.old) }
{
    let n = chart.kind.len();
    let pairs = marked.offset.len();
    let short = (value.len() < n) | ((mean.len() < pairs) | (tenths.len() < pairs));
    verdict::judge(chart, s, marked, short, work.len(), scratch.len())?;
    call_colour::fill_chart(chart, s, value, work, scratch);
    fill_answers(chart.kind, value, marked, mean, tenths);
    Ok(())
}

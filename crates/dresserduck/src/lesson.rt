// The call on the stretches of a lesson, for C and Rust, in the manner of lib.rt.
ghost use Rattle.std.specs.Prelude.{◌≡◌};
ghost use Rattle.grouping_chart.specs.Outcome.{outcome};
ghost use Rattle.grouping_chart.specs.Chart.{chart};
ghost use Rattle.call_lesson.specs.Lesson.{stretches};
ghost use Rattle.call_lesson.specs.Call.{memory, lesson_outcome};
ghost use Rattle.dresserduck.specs.Host.{lessoned_of, for_host};

use call_lesson::Stretches;
use grouping_chart::chart::Chart;
use grouping_chart::refusal::Refusal;
use grouping_chart::settings::Settings;

// dresserduck_lessoned in the header.
#[repr(C)]
#[derive(Clone, Copy, Default)]
pub struct Lessoned {
    pub refusal: u64,
    pub place: u64,
}

impl From<Result<(), Refusal>> for Lessoned {
    ghost from_gives = { λ answer told. told ≡ lessoned_of answer };

    #[tactic(auto, unfolding(crate::specs::Host::lessoned_of))]
    fn from(answer: Result<(), Refusal>) -> Lessoned {
        match answer {
            Ok(()) => Lessoned::default(),
            Err(first) => Lessoned {
                refusal: u64::from(first.reason),
                place: first.place as u64,
            },
        }
    }
}

#[unsafe(no_mangle)]
#[tactic(auto, unfolding(crate::specs::Host::for_host))]
pub extern "C" fn dresserduck_lesson(
    kind: &[u8],
    start: &[f64],
    delta: &[f64],
    ratio: &[f64],
    settings: Settings,
    offset: &[u64],
    length: &[u64],
    value: &mut [f64],
    mean: &mut [f64],
    tenths: &mut [i64],
    work: &mut [u16],
    scratch: &mut [f64],
) -> Lessoned
    ensures { outcome result (memory value.new mean.new tenths.new work.new scratch.new)
        ≡ for_host lessoned_of (lesson_outcome settings (chart kind.now start.now delta.now ratio.now)
        (stretches offset.now length.now) (memory value.old mean.old tenths.old work.old scratch.old)) }
{
    let chart = Chart {
        kind,
        start,
        delta,
        ratio,
    };
    let marked = Stretches { offset, length };
    Lessoned::from(call_lesson::lesson(chart, settings, marked, value, mean, tenths, work, scratch))
}

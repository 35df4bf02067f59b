// The call that says where the colour turns, for C and Rust, in the manner of lib.rt.
ghost use Rattle.std.specs.Prelude.{◌≡◌};
ghost use Rattle.grouping_chart.specs.Outcome.{outcome};
ghost use Rattle.grouping_chart.specs.Chart.{chart};
ghost use Rattle.call_turns.specs.Call.{memory, turns_outcome};
ghost use Rattle.dresserduck.specs.Host.{turned_of, for_host};

use grouping_chart::chart::Chart;
use grouping_chart::refusal::Refusal;
use grouping_chart::settings::Settings;

// dresserduck_turned in the header.
#[repr(C)]
#[derive(Clone, Copy, Default)]
pub struct Turned {
    pub refusal: u64,
    pub place: u64,
}

impl From<Result<(), Refusal>> for Turned {
    ghost from_gives = { λ answer told. told ≡ turned_of answer };

    #[tactic(auto, unfolding(crate::specs::Host::turned_of))]
    fn from(answer: Result<(), Refusal>) -> Turned {
        match answer {
            Ok(()) => Turned::default(),
            Err(first) => Turned {
                refusal: u64::from(first.reason),
                place: first.place as u64,
            },
        }
    }
}

#[unsafe(no_mangle)]
#[tactic(auto, unfolding(crate::specs::Host::for_host))]
pub extern "C" fn dresserduck_turns(
    kind: &[u8],
    start: &[f64],
    delta: &[f64],
    ratio: &[f64],
    settings: Settings,
    previous: &mut [u16],
    next: &mut [u16],
    work: &mut [u16],
    scratch: &mut [f64],
) -> Turned
    ensures { outcome result (memory previous.new next.new work.new scratch.new)
        ≡ for_host turned_of (turns_outcome settings (chart kind.now start.now delta.now ratio.now)
        (memory previous.old next.old work.old scratch.old)) }
{
    let chart = Chart {
        kind,
        start,
        delta,
        ratio,
    };
    Turned::from(call_turns::turns(chart, settings, previous, next, work, scratch))
}

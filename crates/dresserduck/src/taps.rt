// The call on a chart whose deltas are known to within ranges, for C and Rust, in the manner of lib.rt.
ghost use Rattle.std.specs.Prelude.{◌≡◌};
ghost use Rattle.grouping_chart.specs.Outcome.{outcome};
ghost use Rattle.call_taps.specs.Taps.{tap_chart};
ghost use Rattle.call_taps.specs.Call.{memory, taps_outcome};
ghost use Rattle.dresserduck.specs.Host.{tapped_of, for_host};

use call_taps::TapChart;
use grouping_chart::refusal::Refusal;
use grouping_chart::settings::Settings;

// dresserduck_tapped in the header.
#[repr(C)]
#[derive(Clone, Copy, Default)]
pub struct Tapped {
    pub refusal: u64,
    pub place: u64,
    pub open: u64,
    pub groups: u64,
}

impl From<Result<Option<usize>, Refusal>> for Tapped {
    ghost from_gives = { λ answer told. told ≡ tapped_of answer };

    #[tactic(auto, unfolding(crate::specs::Host::tapped_of))]
    fn from(answer: Result<Option<usize>, Refusal>) -> Tapped {
        match answer {
            Ok(Some(groups)) => Tapped {
                groups: groups as u64,
                ..Tapped::default()
            },
            Ok(None) => Tapped {
                open: 1,
                ..Tapped::default()
            },
            Err(first) => Tapped {
                refusal: u64::from(first.reason),
                place: first.place as u64,
                ..Tapped::default()
            },
        }
    }
}

#[unsafe(no_mangle)]
#[tactic(auto, unfolding(crate::specs::Host::for_host))]
pub extern "C" fn dresserduck_taps(
    kind: &[u8],
    start: &[f64],
    lowest: &[f64],
    highest: &[f64],
    ratio: &[f64],
    settings: Settings,
    pair: &mut [u8],
    group: &mut [u16],
    work: &mut [u16],
    scratch: &mut [f64],
) -> Tapped
    ensures { outcome result (memory pair.new group.new work.new scratch.new)
        ≡ for_host tapped_of (taps_outcome settings
        (tap_chart kind.now start.now lowest.now highest.now ratio.now)
        (memory pair.old group.old work.old scratch.old)) }
{
    let taps = TapChart {
        kind,
        start,
        lowest,
        highest,
        ratio,
    };
    Tapped::from(call_taps::taps(taps, settings, pair, group, work, scratch))
}

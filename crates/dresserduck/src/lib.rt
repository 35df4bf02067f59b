// The calls for C and Rust. Each hands its slices on and turns the answer into a record of plain numbers. The records,
// the lists of slices, and a function and a conversion for each call are the C interface, which has no generic ones.
#![tactic(auto)]

ghost use Rattle.std.specs.Prelude.{◌≡◌};
ghost use Rattle.grouping_chart.specs.Outcome.{outcome};
ghost use Rattle.grouping_chart.specs.Chart.{chart};
ghost use Rattle.call_build.specs.Build.{raw};
ghost use Rattle.call_build.specs.Call as build;
ghost use Rattle.call_encode.specs.Call as encode;
ghost use Rattle.call_colour.specs.Call as calls;
ghost use Rattle.call_rhythm.specs.Call as rhythm;
ghost use Rattle.call_record.specs.Call as recording;
ghost use Rattle.dresserduck.specs.Host.{built_of, encoded_of, coloured_of, stretched_of, grouped_of, recorded_of};
ghost use Rattle.dresserduck.specs.Host.{has_own, own_bits, for_host};

use call_build::Raw;
use call_colour::StretchMean;
use call_record::GroupRecord;
use call_rhythm::GroupTotals;
use grouping_chart::chart::Chart;
use grouping_chart::refusal::Refusal;
use grouping_chart::settings::Settings;
use numeric::canonical::bits;

pub mod lesson;
pub mod taps;
pub mod turns;

// dresserduck_built in the header.
#[repr(C)]
#[derive(Clone, Copy, Default)]
pub struct Built {
    pub refusal: u64,
    pub place: u64,
    pub objects: u64,
}

impl From<Result<usize, Refusal>> for Built {
    ghost from_gives = { λ answer told. told ≡ built_of answer };

    #[tactic(auto, unfolding(crate::specs::Host::built_of))]
    fn from(answer: Result<usize, Refusal>) -> Built {
        match answer {
            Ok(objects) => Built {
                objects: objects as u64,
                ..Built::default()
            },
            Err(first) => Built {
                refusal: u64::from(first.reason),
                place: first.place as u64,
                ..Built::default()
            },
        }
    }
}

#[unsafe(no_mangle)]
#[tactic(auto, unfolding(crate::specs::Host::for_host))]
pub extern "C" fn dresserduck_build(
    kind: &[u8],
    time: &[f64],
    rate: f64,
    built_kind: &mut [u8],
    start: &mut [f64],
    delta: &mut [f64],
    ratio: &mut [f64],
) -> Built
    ensures { outcome result (build.memory built_kind.new start.new delta.new ratio.new)
        ≡ for_host built_of (build.build_outcome rate (raw kind.now time.now)
        (build.memory built_kind.old start.old delta.old ratio.old)) }
{
    let raw = Raw { kind, time };
    Built::from(call_build::build(raw, rate, built_kind, start, delta, ratio))
}

// dresserduck_encoded in the header.
#[repr(C)]
#[derive(Clone, Copy, Default)]
pub struct Encoded {
    pub refusal: u64,
    pub place: u64,
    pub hitpatterns: u64,
}

impl From<Result<usize, Refusal>> for Encoded {
    ghost from_gives = { λ answer told. told ≡ encoded_of answer };

    #[tactic(auto, unfolding(crate::specs::Host::encoded_of))]
    fn from(answer: Result<usize, Refusal>) -> Encoded {
        match answer {
            Ok(count) => Encoded {
                hitpatterns: count as u64,
                ..Encoded::default()
            },
            Err(first) => Encoded {
                refusal: u64::from(first.reason),
                place: first.place as u64,
                ..Encoded::default()
            },
        }
    }
}

#[unsafe(no_mangle)]
#[tactic(auto, unfolding(crate::specs::Host::for_host))]
pub extern "C" fn dresserduck_encode(
    kind: &[u8],
    start: &[f64],
    delta: &[f64],
    ratio: &[f64],
    settings: Settings,
    streak: &mut [u16],
    streak_place: &mut [u16],
    pattern: &mut [u16],
    pattern_place: &mut [u16],
    hit: &mut [u16],
    interval: &mut [u8],
    work: &mut [u16],
    scratch: &mut [f64],
) -> Encoded
    ensures { outcome result
        (encode.memory streak.new streak_place.new pattern.new pattern_place.new hit.new interval.new work.new
        scratch.new)
        ≡ for_host encoded_of (encode.encode_outcome settings (chart kind.now start.now delta.now ratio.now)
        (encode.memory streak.old streak_place.old pattern.old pattern_place.old hit.old interval.old work.old
        scratch.old)) }
{
    let chart = Chart {
        kind,
        start,
        delta,
        ratio,
    };
    Encoded::from(call_encode::encode(
        chart,
        settings,
        streak,
        streak_place,
        pattern,
        pattern_place,
        hit,
        interval,
        work,
        scratch,
    ))
}

// dresserduck_coloured in the header.
#[repr(C)]
#[derive(Clone, Copy, Default)]
pub struct Coloured {
    pub refusal: u64,
    pub place: u64,
}

impl From<Result<(), Refusal>> for Coloured {
    ghost from_gives = { λ answer told. told ≡ coloured_of answer };

    #[tactic(auto, unfolding(crate::specs::Host::coloured_of))]
    fn from(answer: Result<(), Refusal>) -> Coloured {
        match answer {
            Ok(()) => Coloured::default(),
            Err(first) => Coloured {
                refusal: u64::from(first.reason),
                place: first.place as u64,
                ..Coloured::default()
            },
        }
    }
}

#[unsafe(no_mangle)]
#[tactic(auto, unfolding(crate::specs::Host::for_host))]
pub extern "C" fn dresserduck_colour(
    kind: &[u8],
    start: &[f64],
    delta: &[f64],
    ratio: &[f64],
    settings: Settings,
    value: &mut [f64],
    work: &mut [u16],
    scratch: &mut [f64],
) -> Coloured
    ensures { outcome result (calls.memory value.new work.new scratch.new)
        ≡ for_host coloured_of (calls.colour_outcome settings (chart kind.now start.now delta.now ratio.now)
        (calls.memory value.old work.old scratch.old)) }
{
    let chart = Chart {
        kind,
        start,
        delta,
        ratio,
    };
    Coloured::from(call_colour::colour(chart, settings, value, work, scratch))
}

// dresserduck_stretched in the header.
#[repr(C)]
#[derive(Clone, Copy, Default)]
pub struct Stretched {
    pub refusal: u64,
    pub place: u64,
    pub mean: f64,
    pub tenths: i64,
}

impl From<Result<StretchMean, Refusal>> for Stretched {
    ghost from_gives = { λ answer told. told ≡ stretched_of answer };

    #[tactic(auto, unfolding(crate::specs::Host::stretched_of))]
    fn from(answer: Result<StretchMean, Refusal>) -> Stretched {
        match answer {
            Ok(found) => Stretched {
                mean: found.mean,
                tenths: found.tenths,
                ..Stretched::default()
            },
            Err(first) => Stretched {
                refusal: u64::from(first.reason),
                place: first.place as u64,
                ..Stretched::default()
            },
        }
    }
}

#[unsafe(no_mangle)]
#[tactic(auto, unfolding(crate::specs::Host::for_host))]
pub extern "C" fn dresserduck_stretch(
    kind: &[u8],
    start: &[f64],
    delta: &[f64],
    ratio: &[f64],
    settings: Settings,
    a: usize,
    b: usize,
    value: &mut [f64],
    work: &mut [u16],
    scratch: &mut [f64],
) -> Stretched
    ensures { outcome result (calls.memory value.new work.new scratch.new)
        ≡ for_host stretched_of (calls.stretch_outcome settings (chart kind.now start.now delta.now ratio.now) a b
        (calls.memory value.old work.old scratch.old)) }
{
    let chart = Chart {
        kind,
        start,
        delta,
        ratio,
    };
    Stretched::from(call_colour::stretch(chart, settings, a, b, value, work, scratch))
}

// dresserduck_grouped in the header.
#[repr(C)]
#[derive(Clone, Copy, Default)]
pub struct Grouped {
    pub refusal: u64,
    pub place: u64,
    pub groups: u64,
    pub patterngroups: u64,
}

impl From<Result<GroupTotals, Refusal>> for Grouped {
    ghost from_gives = { λ answer told. told ≡ grouped_of answer };

    #[tactic(auto, unfolding(crate::specs::Host::grouped_of))]
    fn from(answer: Result<GroupTotals, Refusal>) -> Grouped {
        match answer {
            Ok(totals) => Grouped {
                groups: totals.groups as u64,
                patterngroups: totals.patterns as u64,
                ..Grouped::default()
            },
            Err(first) => Grouped {
                refusal: u64::from(first.reason),
                place: first.place as u64,
                ..Grouped::default()
            },
        }
    }
}

#[unsafe(no_mangle)]
#[tactic(auto, unfolding(crate::specs::Host::for_host))]
pub extern "C" fn dresserduck_rhythm(
    kind: &[u8],
    start: &[f64],
    delta: &[f64],
    ratio: &[f64],
    settings: Settings,
    group: &mut [u16],
    pattern: &mut [u16],
    work: &mut [u16],
    scratch: &mut [f64],
) -> Grouped
    ensures { outcome result (rhythm.memory group.new pattern.new work.new scratch.new)
        ≡ for_host grouped_of (rhythm.rhythm_outcome settings (chart kind.now start.now delta.now ratio.now)
        (rhythm.memory group.old pattern.old work.old scratch.old)) }
{
    let chart = Chart {
        kind,
        start,
        delta,
        ratio,
    };
    Grouped::from(call_rhythm::rhythm(chart, settings, group, pattern, work, scratch))
}

// dresserduck_recorded in the header. A float leaves as its bits.
#[repr(C)]
#[derive(Clone, Copy, Default)]
pub struct Recorded {
    pub refusal: u64,
    pub place: u64,
    pub firstnote: u64,
    pub notecount: u64,
    pub hasown: u64,
    pub ownbits: u64,
    pub ratiobits: u64,
    pub intervalbits: u64,
    pub penaltybits: u64,
    pub patterngroup: u64,
    pub patternratiobits: u64,
}

#[tactic(auto, unfolding(crate::specs::Host::has_own))]
fn has_own(own: Option<f64>) -> u64
    ensures { result ≡ has_own own }
{
    u64::from(own.is_some())
}

#[tactic(auto, unfolding(crate::specs::Host::own_bits))]
fn own_bits(own: Option<f64>) -> u64
    ensures { result ≡ own_bits own }
{
    own.map_or(0, bits)
}

impl From<Result<GroupRecord, Refusal>> for Recorded {
    ghost from_gives = { λ answer told. told ≡ recorded_of answer };

    #[tactic(auto, unfolding(crate::specs::Host::recorded_of))]
    fn from(answer: Result<GroupRecord, Refusal>) -> Recorded {
        match answer {
            Ok(r) => Recorded {
                firstnote: r.first.0 as u64,
                notecount: r.notes as u64,
                hasown: has_own(r.own),
                ownbits: own_bits(r.own),
                ratiobits: bits(r.ratio),
                intervalbits: bits(r.interval),
                penaltybits: bits(r.penalty),
                patterngroup: r.pattern as u64,
                patternratiobits: bits(r.patternratio),
                ..Recorded::default()
            },
            Err(first) => Recorded {
                refusal: u64::from(first.reason),
                place: first.place as u64,
                ..Recorded::default()
            },
        }
    }
}

#[unsafe(no_mangle)]
#[tactic(auto, unfolding(crate::specs::Host::for_host))]
pub extern "C" fn dresserduck_record(
    kind: &[u8],
    start: &[f64],
    delta: &[f64],
    ratio: &[f64],
    settings: Settings,
    group: usize,
    window: f64,
    work: &mut [u16],
    scratch: &mut [f64],
) -> Recorded
    ensures { outcome result (recording.memory work.new scratch.new)
        ≡ for_host recorded_of (recording.record_outcome settings (chart kind.now start.now delta.now ratio.now)
        group window
        (recording.memory work.old scratch.old)) }
{
    let chart = Chart {
        kind,
        start,
        delta,
        ratio,
    };
    Recorded::from(call_record::record(chart, settings, group, window, work, scratch))
}

// Why a call refuses and where, and refusals 1 to 7: of the chart's size and lengths, and object by object.
ghost use Rattle.std.specs.Prelude.{◌≡◌, ℕ, ◌<◌, length};
ghost use Rattle.grouping_chart.specs.Chart.{equally_long};
ghost use Rattle.grouping_chart.specs.Lent.{seen};
ghost use Rattle.grouping_chart.specs.passes.Good.{SameLengths, first_at};
ghost use Rattle.grouping_chart.specs.Refusal.{Check, reason_number, at_0, time_good, ratio_good, delta_refusal};
ghost use Rattle.grouping_chart.specs.Refusal.{object_order, object_refusal, accepted, in_order};
ghost use Rattle.grouping_chart.specs.Refusal.{objects_verdict, verdict};

use crate::chart::{Chart, MOST_OBJECTS};
use crate::good;
use numeric::range;

// Why a call refuses. C is told its number; 12 to 14 are those of the letters program.
#[derive(Clone, Copy, PartialEq, Eq, Debug)]
pub enum Reason {
    TooManyObjects,
    UnequalLengths,
    ShortSlice,
    UnknownKind,
    BadStart,
    BadDelta,
    BadRatio,
    BadWindow,
    OutOfRange,
    BadRate,
    NoNotes,
    LowestAboveHighest,
    BadSettings,
    BadLesson,
}

// The first refusal that applies to a call. Its place is that of the object, or of the pair, that is refused, else 0.
#[derive(Clone, Copy, PartialEq, Eq, Debug)]
pub struct Refusal {
    pub reason: Reason,
    pub place: usize,
}

impl From<Reason> for u64 {
    ghost from_gives = { λ r n. n ≡ reason_number r };

    fn from(reason: Reason) -> u64 {
        match reason {
            Reason::TooManyObjects => 1,
            Reason::UnequalLengths => 2,
            Reason::ShortSlice => 3,
            Reason::UnknownKind => 4,
            Reason::BadStart => 5,
            Reason::BadDelta => 6,
            Reason::BadRatio => 7,
            Reason::BadWindow => 8,
            Reason::OutOfRange => 9,
            Reason::BadRate => 10,
            Reason::NoNotes => 11,
            Reason::LowestAboveHighest => 15,
            Reason::BadSettings => 16,
            Reason::BadLesson => 17,
        }
    }
}

// What is no one object's and no one pair's is refused at place 0.
impl From<Reason> for Refusal {
    ghost from_gives = { λ r f. f ≡ at_0 r };

    fn from(reason: Reason) -> Refusal {
        Refusal { reason, place: 0 }
    }
}

pub fn time_good(time: f64) -> bool
    ensures { result ≡ time_good time }
{
    range::is_within(range::EARLIEST, range::LATEST, time)
}

fn ratio_good(ratio: f64) -> bool
    ensures { result ≡ ratio_good ratio }
{
    range::is_within(range::LEAST_RATIO, range::GREATEST_RATIO, ratio)
}

// Whether a delta is good.
#[tactic(auto, unfolding(crate::specs::Refusal::delta_refusal))]
fn delta_refusal(delta: f64) -> Result<(), Reason>
    ensures { result ≡ delta_refusal delta }
{
    if time_good(delta) {
        return Ok(());
    }
    Err(Reason::BadDelta)
}

// Whether an object is good, by the test of its delta; else why it is refused.
#[tactic(auto, unfolding(crate::specs::Refusal::object_order))]
pub fn object_order(
    kind: u8,
    start: f64,
    delta: Result<(), Reason>,
    ratio: f64,
) -> Result<(), Reason>
    ensures { result ≡ object_order kind start delta ratio }
{
    if !good::kind_good(kind) {
        return Err(Reason::UnknownKind);
    }
    if !time_good(start) {
        return Err(Reason::BadStart);
    }
    delta?;
    if !ratio_good(ratio) {
        return Err(Reason::BadRatio);
    }
    Ok(())
}

#[tactic(auto, unfolding(crate::specs::Refusal::object_refusal))]
pub fn object_refusal(kind: u8, start: f64, delta: f64, ratio: f64) -> Result<(), Reason>
    ensures { result ≡ object_refusal kind start delta ratio }
{
    object_order(kind, start, delta_refusal(delta), ratio)
}

// The first of n objects, or pairs, that does not pass its test.
#[tactic(auto, unfolding(crate::specs::passes::Good::first_at))]
pub fn first_refused<F: Fn(usize) -> Result<(), Reason>>(n: usize, test: F) -> Result<(), Refusal>
    requires callable { (i : ℕ) → i < n → F.pre test i }
    ensures { (checks : ℕ → Check) → ((i : ℕ) (given : Check) → i < n → F.post test i given → given ≡ checks i)
        → result ≡ first_at checks n }
{
    for i in 0..n {
        if let Err(reason) = test(i) {
            return Err(Refusal { reason, place: i });
        }
    }
    Ok(())
}

// Most charts are good, which is told without a jump for each object.
fn check_objects(chart: Chart) -> Result<(), Refusal>
    requires { SameLengths (length chart.kind.now) chart.start.now chart.delta.now chart.ratio.now }
    ensures { result ≡ objects_verdict (seen chart.entry) }
{
    if good::all_good(chart) {
        return Ok(());
    }
    first_refused(chart.kind.len(), |i| {
        object_refusal(
            chart.kind[i],
            chart.start[i],
            chart.delta[i],
            chart.ratio[i],
        )
    })
}

// Whether the four slices are of one length.
#[tactic(auto, unfolding(crate::specs::Chart::equally_long))]
fn equally_long(chart: Chart) -> bool
    ensures { result ≡ equally_long (seen chart.entry) }
{
    let n = chart.kind.len();
    chart.start.len() == n && chart.delta.len() == n && chart.ratio.len() == n
}

// The tests that every call makes before it looks at an object, in their order: whether there are too many, whether the
// slices are of one length, and what is beside the chart.
pub fn before_objects(large: bool, equal: bool, beside: Result<(), Reason>) -> Result<(), Refusal>
    ensures { result ≡ in_order large equal beside accepted }
{
    if large {
        return Err(Refusal::from(Reason::TooManyObjects));
    }
    if !equal {
        return Err(Refusal::from(Reason::UnequalLengths));
    }
    beside?;
    Ok(())
}

// Refusals 1 to 7 of a call on a chart; `beside` is the test of what is beside it, which is refused straight after 2.
pub fn check(chart: Chart, beside: Result<(), Reason>) -> Result<(), Refusal>
    ensures { result ≡ verdict (seen chart.entry) beside }
{
    before_objects(MOST_OBJECTS < chart.kind.len(), equally_long(chart), beside)?;
    check_objects(chart)
}

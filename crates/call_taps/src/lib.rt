// The call taps: of a chart whose deltas are known to within ranges, what is sure of neighbouring notes, and the rhythm
// groups where they hang on no choice.
#![tactic(auto)]

ghost use Rattle.std.specs.Prelude.{◌≡◌, ◌<◌, length};
ghost use Rattle.grouping_chart.specs.Outcome.{outcome};
ghost use Rattle.call_taps.specs.Taps.{range_of, class_of};
ghost use Rattle.call_taps.specs.Lent.{taps_seen};
ghost use Rattle.call_taps.specs.Call.{memory, known_groups, filled, taps_outcome};
ghost use Rattle.call_taps.specs.passes.Rooms.{TapsRoom};

use grouping_chart::refusal::Refusal;
use grouping_chart::settings::Settings;
use grouping_interval::notes::list_notes;
use grouping_ranges::{Range, sure_class};
use lent::fill;

pub mod groups;
pub mod verdict;

// A chart as the call is lent it: five slices, with a place in each for each object. Its delta is from the lowest to
// the highest.
#[derive(Clone, Copy)]
pub struct TapChart<'a> {
    pub kind: &'a [u8],
    pub start: &'a [f64],
    pub lowest: &'a [f64],
    pub highest: &'a [f64],
    pub ratio: &'a [f64],
}

impl TapChart<'_> {
    // What is known of an object's delta.
    #[tactic(auto, unfolding(crate::specs::Taps::range_of))]
    pub(crate) fn range(self, object: usize) -> Range
        requires low { object < length self.lowest.now }
        requires high { object < length self.highest.now }
        ensures { result ≡ range_of (taps_seen self.entry) object }
    {
        Range {
            low: self.lowest[object],
            high: self.highest[object],
        }
    }

    // The class that two objects surely have, or OPEN.
    #[tactic(auto, unfolding(crate::specs::Taps::class_of))]
    pub(crate) fn class(self, first: u16, second: u16, margin: f64) -> u8
        requires first_low { first < length self.lowest.now }
        requires first_high { first < length self.highest.now }
        requires second_low { second < length self.lowest.now }
        requires second_high { second < length self.highest.now }
        ensures { result ≡ class_of margin (taps_seen self.entry) first second }
    {
        let a = self.range(usize::from(first));
        let b = self.range(usize::from(second));
        sure_class(a, b, margin)
    }
}

// What the call does with an accepted chart: class the pairs, group where that is sure, and clear the work slices. The
// lowest deltas of the notes, which `list_notes` puts in the scratch slice, are not read again.
fn fill_taps(
    taps: TapChart,
    s: Settings,
    pair: &mut [u8],
    group: &mut [u16],
    work: &mut [u16],
    scratch: &mut [f64],
) -> Option<usize>
    requires { TapsRoom (taps_seen taps) (memory pair.old group.old work.old scratch.old) }
    ensures known { result ≡ known_groups s.margin (taps_seen taps.entry) }
    ensures filled { memory pair.new group.new work.new scratch.new
        ≡ filled s (taps_seen taps.entry) (memory pair.old group.old work.old scratch.old) }
{
    let n = taps.kind.len();
    let notes = list_notes(taps.kind, taps.lowest, work, scratch);
    let (objects, rest) = work.split_at_mut(n);
    let objects = &objects[..notes];
    let known = groups::fill_answers(taps, s.margin, objects, &mut rest[..notes], pair, group);
    fill::front(work, 8 * n, 0);
    fill::front(scratch, n, 0.0);
    known
}

// The result is how many groups there are, where that is known.
pub fn taps(
    taps: TapChart,
    s: Settings,
    pair: &mut [u8],
    group: &mut [u16],
    work: &mut [u16],
    scratch: &mut [f64],
) -> Result<Option<usize>, Refusal>
    ensures { outcome result (memory pair.new group.new work.new scratch.new)
        ≡ taps_outcome s (taps_seen taps.entry) (memory pair.old group.old work.old scratch.old) }
{
    let n = taps.kind.len();
    let short = (pair.len() < n) | (group.len() < n);
    verdict::judge(taps, s, short, work.len(), scratch.len())?;
    Ok(fill_taps(taps, s, pair, group, work, scratch))
}

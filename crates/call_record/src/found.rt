// One rhythm group of a chart, found by passes through the work slices.
ghost use Rattle.std.specs.Prelude.{◌≡◌, drop};
ghost use Rattle.lent.specs.Over.{written};
ghost use Rattle.grouping_chart.specs.Chart.{size};
ghost use Rattle.grouping_chart.specs.Lent.{seen};
ghost use Rattle.call_rhythm.specs.passes.Tables.{notes_writes};
ghost use Rattle.call_record.specs.passes.Found.{GroupRoom, located_at, locate_writes, found_at, find_writes};

use call_rhythm::tables::number_notes;
use grouping_chart::chart::Chart;
use grouping_chart::object::ObjectIndex;
use grouping_interval::notes::list_notes;
use grouping_same_rhythm::groups::fill_intervals;
use grouping_same_rhythm::owns::{Recent, reach};
use grouping_same_rhythm::patterns::{Pattern, pattern_at};

// The notes of a group: its first object, how many they are, the own intervals there, its last start minus its first;
// and how many groups there are.
#[derive(Clone, Copy)]
pub struct LocatedGroup {
    pub first: ObjectIndex,
    pub notes: usize,
    pub owns: Recent,
    pub duration: f64,
    pub groups: usize,
}

// The group's notes, its interval and its pattern.
#[derive(Clone, Copy)]
pub struct FoundGroup {
    pub located: LocatedGroup,
    pub interval: f64,
    pub pattern: Pattern,
}

// The notes of group g. The work slice takes the regions of `number_notes`, and `scratch` the notes' deltas. The two
// are no struct: a clause on a struct that holds a `&mut` also has to say which borrow it is.
fn locate(
    chart: Chart,
    margin: f64,
    g: usize,
    work: &mut [u16],
    scratch: &mut [f64],
) -> LocatedGroup
    requires { GroupRoom margin chart.kind.now chart.start.now chart.delta.now g work.old scratch.old }
    ensures found { let c = seen chart.entry in result ≡ located_at margin c.kinds c.starts c.deltas g }
    ensures work { let c = seen chart.entry in work.new
        ≡ written (notes_writes margin c.kinds c.deltas) work.old }
    ensures scratch { let c = seen chart.entry in scratch.new
        ≡ written (locate_writes margin c.kinds c.deltas g) scratch.old }
    ensures rest { let c = seen chart.entry in drop (size c) scratch.new ≡ drop (size c) scratch.old }
{
    let n = chart.kind.len();
    let m = list_notes(chart.kind, chart.delta, work, scratch);
    let groups = number_notes(&scratch[..m], margin, work, n);
    let reached = reach(&mut scratch[..m], margin, g);
    let objects = &work[reached.at..reached.end];
    let notes = objects.len();
    let first = usize::from(objects[0]);
    let last = usize::from(objects[notes - 1]);
    let start = chart.start;
    LocatedGroup {
        first: ObjectIndex(first),
        notes,
        owns: reached.owns,
        duration: start[last] - start[first],
        groups,
    }
}

// Group g. Once its notes are located, `scratch` takes the groups' intervals.
pub fn find(
    chart: Chart,
    margin: f64,
    g: usize,
    work: &mut [u16],
    scratch: &mut [f64],
) -> FoundGroup
    requires { GroupRoom margin chart.kind.now chart.start.now chart.delta.now g work.old scratch.old }
    ensures found { let c = seen chart.entry in result ≡ found_at margin c.kinds c.starts c.deltas g }
    ensures work { let c = seen chart.entry in work.new
        ≡ written (notes_writes margin c.kinds c.deltas) work.old }
    ensures scratch { let c = seen chart.entry in scratch.new
        ≡ written (find_writes margin c.kinds c.starts c.deltas g) scratch.old }
    ensures rest { let c = seen chart.entry in drop (size c) scratch.new ≡ drop (size c) scratch.old }
{
    let n = chart.kind.len();
    let located = locate(chart, margin, g, work, scratch);
    let groups = located.groups;
    fill_intervals(chart.start, &work[n..n + groups], margin, scratch);
    let interval = scratch[g];
    let pattern = pattern_at(&scratch[..groups], margin, g);
    FoundGroup {
        located,
        interval,
        pattern,
    }
}

// The tables of rhythm groups: each note's group, each group's pattern.
ghost use Rattle.std.specs.Prelude.{◌≡◌, ◌*◌, length, take};
ghost use Rattle.lent.specs.Over.{over, put, written};
ghost use Rattle.grouping_marks.specs.Marks.{group_count, group_numbers};
ghost use Rattle.grouping_chart.specs.Lent.{seen};
ghost use Rattle.grouping_interval.specs.IntervalGrouping.{interval_marks};
ghost use Rattle.call_rhythm.specs.Rhythm.{counts_of};
ghost use Rattle.call_rhythm.specs.passes.Tables.{NumbersRoom, numbers_writes, FirstsThere, intervals_from};
ghost use Rattle.call_rhythm.specs.passes.Tables.{patterns_from, TablesRoom, work_writes, scratch_writes};

use grouping_chart::chart::Chart;
use grouping_interval::group_by_interval;
use grouping_interval::marks::mark_intervals;
use grouping_interval::notes::list_notes;
use grouping_marks::{group_firsts, group_numbers};
use grouping_same_rhythm::groups::fill_intervals;

// How many notes, rhythm groups and pattern groups there are.
#[derive(Clone, Copy)]
pub struct GroupCounts {
    pub notes: usize,
    pub groups: usize,
    pub patterns: usize,
}

// Regions of the work slice, n places each: 0 the notes' objects, 1 the groups' first objects, 2 the notes' groups,
// 3 the groups' patterns. C lends them as one slice. They are no struct: a clause on a struct that holds a `&mut` also
// has to say which borrow it is.

// Fills regions 1 and 2, from the notes' deltas: region 2 has the notes' marks until the firsts are listed, then the
// numbers in their places. The result is how many groups there are, which is the last number and one more.
pub fn number_notes(deltas: &[f64], margin: f64, work: &mut [u16], n: usize) -> usize
    requires { NumbersRoom deltas.now n work.old }
    ensures count { result ≡ group_count (interval_marks margin deltas.now) }
    ensures work { work.new
        ≡ written (numbers_writes n (interval_marks margin deltas.now) (take (length deltas.now) work.old))
        work.old }
{
    let notes = deltas.len();
    if notes == 0 {
        return 0;
    }
    mark_intervals(deltas, margin, &mut work[2 * n..2 * n + notes]);
    let (objects, rest) = work.split_at_mut(n);
    let (firsts, rest) = rest.split_at_mut(n);
    let numbers = &mut rest[..notes];
    group_firsts(numbers, &objects[..notes], firsts);
    group_numbers(numbers);
    usize::from(numbers[notes - 1]) + 1
}

// Fills region 3, from the intervals, which are put in the scratch slice. The result is how many pattern groups there
// are.
fn number_groups(
    start: &[f64],
    margin: f64,
    n: usize,
    groups: usize,
    work: &mut [u16],
    scratch: &mut [f64],
) -> usize
    requires { FirstsThere start.now n groups work.old scratch.old }
    ensures count { result ≡ group_count (patterns_from margin start.now n groups work.old) }
    ensures work { work.new
        ≡ put (3 * n) (group_numbers (patterns_from margin start.now n groups work.old)) work.old }
    ensures scratch { scratch.new ≡ over (intervals_from margin start.now n groups work.old) scratch.old }
{
    fill_intervals(start, &work[n..n + groups], margin, scratch);
    group_by_interval(&scratch[..groups], margin, &mut work[3 * n..3 * n + groups])
}

// Fills all four.
pub fn group_notes(chart: Chart, margin: f64, work: &mut [u16], scratch: &mut [f64]) -> GroupCounts
    requires { TablesRoom chart.kind.now chart.start.now chart.delta.now work.old scratch.old }
    ensures count { let c = seen chart.entry in result ≡ counts_of margin c.kinds c.starts c.deltas }
    ensures work { let c = seen chart.entry in work.new
        ≡ written (work_writes margin c.kinds c.starts c.deltas) work.old }
    ensures scratch { let c = seen chart.entry in scratch.new
        ≡ written (scratch_writes margin c.kinds c.starts c.deltas) scratch.old }
{
    let n = chart.kind.len();
    let notes = list_notes(chart.kind, chart.delta, work, scratch);
    let groups = number_notes(&scratch[..notes], margin, work, n);
    let patterns = number_groups(chart.start, margin, n, groups, work, scratch);
    GroupCounts {
        notes,
        groups,
        patterns,
    }
}

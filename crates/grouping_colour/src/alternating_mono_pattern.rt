// Alternating patterns: which streaks open one, and which patterns are coupled. A mark or a flag is a number, as in
// grouping_marks: its group's number comes into its place.
ghost use Rattle.std.specs.Prelude.{◌≡◌, ◌≤◌, ◌<◌, length};
ghost use Rattle.lent.specs.Over.{over};
ghost use Rattle.grouping_colour.specs.AlternatingMonoPattern.{opens_pattern, pattern_marks, coupled_at, coupled};

use grouping_marks::alike::Features;
use lent::fill;

// The mark of the streak i.
#[tactic(auto, unfolding(crate::specs::AlternatingMonoPattern::opens_pattern))]
fn opens_pattern(lengths: &[u16], i: usize) -> u16
    requires { i < length lengths.now }
    ensures { result ≡ opens_pattern lengths.now i }
{
    if i == 0 {
        return 1;
    }
    if lengths[i] == lengths[i - 1] { 0 } else { 1 }
}

// Marks the streaks that open an alternating pattern, by the streaks' lengths.
pub fn mark_patterns(lengths: &[u16], marks: &mut [u16])
    requires { length lengths.now ≤ length marks.old }
    ensures { marks.new ≡ over (pattern_marks lengths.now) marks.old }
{
    fill::by_place(lengths.len(), marks, |i| opens_pattern(lengths, i));
}

// 1 where the pattern i is like the pattern i + 2.
#[tactic(auto, unfolding(crate::specs::AlternatingMonoPattern::coupled_at))]
fn coupled_at(patterns: &Features, i: usize) -> u16
    requires { i < length patterns.now.first.now }
    ensures { result ≡ coupled_at patterns.now.first.now patterns.now.second.now patterns.now.third.now i }
{
    let alike = patterns.len() - i > 2 && patterns.alike(i, i + 2);
    u16::from(alike)
}

// Flags the coupled patterns, by their first-streak lengths, streak counts and types.
pub fn flag_coupled(patterns: &Features, flags: &mut [u16])
    requires { length patterns.now.first.now ≤ length flags.old }
    ensures { flags.new
        ≡ over (coupled patterns.now.first.now patterns.now.second.now patterns.now.third.now) flags.old }
{
    fill::by_place(patterns.len(), flags, |i| coupled_at(patterns, i));
}

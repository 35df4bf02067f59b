// Hit patterns: which patterns open one, and each hit pattern's repetition interval. A mark or a flag is a number, as
// in grouping_marks: its group's number comes into its place.
#![tactic(auto)]

ghost use Rattle.std.specs.Prelude.{◌≡◌, cond, ◌≤◌, ◌<◌, length};
ghost use Rattle.lent.specs.Over.{over};
ghost use Rattle.grouping_hits.specs.RepeatingHitPatterns.{hit_marks, second_at, second_lengths, intervals};
ghost use Rattle.grouping_hits.specs.passes.Stages.{stage_after, opens_hit, matches_taken};

pub mod limit;

use grouping_marks::alike::Features;
use grouping_marks::by_mark;
use lent::fill;
use limit::SearchLimit;

// Where a pattern stands in the hit pattern that is open before it.
#[derive(Clone, Copy)]
enum Stage {
    // None is open.
    Closed,
    // Coupled patterns went before.
    Coupled,
    // The first uncoupled one did too.
    Uncoupled,
}

// The stage behind a pattern, by its coupled flag.
#[tactic(auto, unfolding(crate::specs::passes::Stages::stage_after))]
fn stage_after(stage: Stage, coupled: u16) -> Stage
    ensures { result ≡ stage_after stage coupled }
{
    match (stage, coupled) {
        (Stage::Closed, 0) | (Stage::Uncoupled, _) => Stage::Closed,
        (Stage::Coupled, 0) => Stage::Uncoupled,
        _ => Stage::Coupled,
    }
}

// The mark of a pattern at this stage.
#[tactic(auto, unfolding(crate::specs::passes::Stages::opens_hit))]
fn opens_hit(stage: Stage, coupled: u16) -> u16
    ensures { result ≡ opens_hit stage coupled }
{
    match stage {
        Stage::Closed => 1,
        Stage::Coupled | Stage::Uncoupled => 0,
    }
}

// Puts in place of each pattern's coupled flag the mark whether it opens a hit pattern. A loop, as in grouping_marks:
// one `scan` for all passes would take two closures, which is no plainer.
pub fn mark_hits(flags: &mut [u16])
    ensures { flags.new ≡ hit_marks flags.old }
{
    let mut stage = Stage::Closed;
    for flag in flags.iter_mut() {
        let coupled = *flag;
        *flag = opens_hit(stage, coupled);
        stage = stage_after(stage, coupled);
    }
}

// The length of the pattern behind, where that one, by its mark, opens no hit pattern; else 0.
#[tactic(auto, unfolding(crate::specs::RepeatingHitPatterns::second_at))]
fn second_at(lengths: &[u16], marks: &[u16], i: usize) -> u16
    requires each { length lengths.now ≤ length marks.now }
    requires inside { i < length lengths.now }
    ensures { result ≡ second_at lengths.now marks.now i }
{
    let next = i + 1;
    if next < lengths.len() {
        by_mark(marks[next], lengths[next], 0)
    } else {
        0
    }
}

// For each pattern the first-streak length of the next one in its hit pattern.
pub fn second_lengths(lengths: &[u16], marks: &[u16], seconds: &mut [u16])
    requires each { length lengths.now ≤ length marks.now }
    requires room { length lengths.now ≤ length seconds.old }
    ensures { seconds.new ≡ over (second_lengths lengths.now marks.now) seconds.old }
{
    fill::by_place(lengths.len(), seconds, |i| second_at(lengths, marks, i));
}

// k where it is found. A choice under a name, so that the loop stores in each turn, as the passes over marks do.
fn nearer(found: bool, k: u16, other: u16) -> u16
    ensures { result ≡ cond found k other }
{
    if found { k } else { other }
}

// Gives k to each hit pattern that matches the one k before it. The others keep what they have. By index: each turn
// reads two places of three columns and writes a fourth, which is no plainer by iterators.
fn take_matches(patterns: &Features, k: u16, taken: &mut [u16])
    requires { length patterns.now.first.now ≤ length taken.old }
    ensures { taken.new
        ≡ over (matches_taken k patterns.now.first.now patterns.now.second.now patterns.now.third.now taken.old)
        taken.old }
{
    let back = usize::from(k);
    for h in back..patterns.len() {
        let other = taken[h];
        taken[h] = nearer(patterns.alike(h - back, h), k, other);
    }
}

// Each hit pattern's interval, searched below the limit: from the largest k down, so that the smallest one stays.
pub fn repetition_intervals(patterns: &Features, limit: SearchLimit, found: &mut [u16])
    requires { length patterns.now.first.now ≤ length found.old }
    ensures { found.new
        ≡ over (intervals limit.value patterns.now.first.now patterns.now.second.now patterns.now.third.now)
        found.old }
{
    let below = limit.value;
    fill::front(found, patterns.len(), below + 1);
    for k in (1..below).rev() {
        take_matches(patterns, k, found);
    }
}

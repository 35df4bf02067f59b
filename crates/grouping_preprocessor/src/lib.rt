// The encoder: from the kinds to the tables from which each object's six numbers are looked up, and each streak's first
// and last object.
#![tactic(auto)]

ghost use Rattle.std.specs.Prelude.{◌≡◌, ◌≤◌, [], ◌∷◌, length};
ghost use Rattle.lent.specs.Over.{over};
ghost use Rattle.grouping_marks.specs.Marks.{group_count, group_numbers, group_places, group_sizes, group_firsts};
ghost use Rattle.grouping_hits.specs.RepeatingHitPatterns.{hit_marks, second_lengths};
ghost use Rattle.grouping_colour.specs.MonoStreak.{streak_marks, streak_of, streak_lengths, streak_types};
ghost use Rattle.grouping_colour.specs.AlternatingMonoPattern.{pattern_marks, coupled};
ghost use Rattle.grouping_preprocessor.specs.passes.Steps.{Regions, Encodes, AsLong, hits_by, intervals_found};

use grouping_colour::{alternating_mono_pattern, mono_streak};
use grouping_hits::limit::SearchLimit;
use grouping_marks::alike::Features;
use grouping_marks::ends::group_ends;
use grouping_marks::{group_firsts, group_numbers, group_places, group_sizes, keep_firsts};
use lent::fill;

pub mod tables;

// How many streaks, alternating patterns and hit patterns there are, and the search limit of the intervals. By it the
// clauses of who reads the tables say how they were made; to hand it over beside the counts would be no plainer.
#[derive(Clone, Copy)]
pub struct Levels {
    pub streaks: usize,
    pub patterns: usize,
    pub hits: usize,
    pub limit: u16,
}

// The kinds as numbers of 16 bits.
fn widen(kind: &[u8], wide: &mut [u16])
    requires { length wide.old ≡ length kind.now }
    ensures { wide.new ≡ kind.now }
{
    fill::by_place(kind.len(), wide, |i| u16::from(kind[i]));
}

// Streaks: each object's number, their types and lengths; the result is their count. The regions travel one by one,
// here and below, and that the items are few is a clause each time: a struct or a type of them would hold `&mut`s.
fn find_streaks(
    kind: &[u8],
    marks: &mut [u16],
    streak: &mut [u16],
    types: &mut [u16],
    lengths: &mut [u16],
) -> usize
    requires few { length kind.now ≤ 16384 }
    requires regions { AsLong (length kind.now) (marks.old ∷ streak.old ∷ types.old ∷ lengths.old ∷ []) }
    ensures count { result ≡ group_count (streak_marks kind.now) }
    ensures few { result ≤ length kind.now }
    ensures marks { marks.new ≡ streak_marks kind.now }
    ensures streak { streak.new ≡ streak_of kind.now }
    ensures types { types.new ≡ over (streak_types kind.now) types.old }
    ensures lengths { lengths.new ≡ over (streak_lengths kind.now) lengths.old }
{
    mono_streak::mark_streaks(kind, marks);
    widen(kind, streak);
    group_firsts(marks, streak, types);
    fill::copy(marks, streak);
    group_numbers(streak);
    group_sizes(marks, lengths)
}

// From the streaks' lengths and types to alternating patterns: each streak's pattern and its place there, each
// pattern's first length and type in place of these, and its streak count; the result is their count.
fn find_patterns(
    lengths: &mut [u16],
    types: &mut [u16],
    marks: &mut [u16],
    numbers: &mut [u16],
    places: &mut [u16],
    counts: &mut [u16],
) -> usize
    requires few { length lengths.old ≤ 16384 }
    requires regions { AsLong (length lengths.old)
        (types.old ∷ marks.old ∷ numbers.old ∷ places.old ∷ counts.old ∷ []) }
    ensures count { result ≡ group_count (pattern_marks lengths.old) }
    ensures few { result ≤ length lengths.old }
    ensures lengths { lengths.new ≡ over (group_firsts (pattern_marks lengths.old) lengths.old) lengths.old }
    ensures types { types.new ≡ over (group_firsts (pattern_marks lengths.old) types.old) types.old }
    ensures marks { marks.new ≡ pattern_marks lengths.old }
    ensures numbers { numbers.new ≡ group_numbers (pattern_marks lengths.old) }
    ensures places { places.new ≡ group_places (pattern_marks lengths.old) }
    ensures counts { counts.new ≡ over (group_sizes (pattern_marks lengths.old)) counts.old }
{
    alternating_mono_pattern::mark_patterns(lengths, marks);
    let patterns = group_sizes(marks, counts);
    keep_firsts(marks, lengths);
    keep_firsts(marks, types);
    fill::copy(marks, numbers);
    group_numbers(numbers);
    fill::copy(marks, places);
    group_places(places);
    patterns
}

// Marks the patterns that open a hit pattern, by their first lengths, streak counts and types, and leaves their second
// lengths in place of the types.
fn find_hit_marks(lengths: &[u16], counts: &[u16], types: &mut [u16], marks: &mut [u16])
    requires { AsLong (length lengths.now) (counts.now ∷ types.old ∷ marks.old ∷ []) }
    ensures marks { marks.new ≡ hit_marks (coupled lengths.now counts.now types.old) }
    ensures types { types.new ≡ second_lengths lengths.now (hit_marks (coupled lengths.now counts.now types.old)) }
{
    let patterns = Features {
        first: lengths,
        second: counts,
        third: types,
    };
    alternating_mono_pattern::flag_coupled(&patterns, marks);
    grouping_hits::mark_hits(marks);
    grouping_hits::second_lengths(lengths, marks, types);
}

// From alternating patterns, by their first lengths, streak counts and types, to hit patterns: each pattern's hit
// pattern and its place there in place of its length and type, and each hit pattern's interval; the result is their
// count.
#[tactic(auto, using(crate::proofs::StepLaws::fronts))]
fn find_hits(
    lengths: &mut [u16],
    counts: &mut [u16],
    types: &mut [u16],
    marks: &mut [u16],
    found: &mut [u16],
    limit: SearchLimit,
) -> usize
    requires few { length lengths.old ≤ 16384 }
    requires regions { AsLong (length lengths.old) (counts.old ∷ types.old ∷ marks.old ∷ found.old ∷ []) }
    ensures count { result ≡ group_count (hits_by lengths.old counts.old types.old) }
    ensures few { result ≤ length lengths.old }
    ensures lengths { lengths.new ≡ group_numbers (hits_by lengths.old counts.old types.old) }
    ensures counts { counts.new ≡ over (group_sizes (hits_by lengths.old counts.old types.old)) counts.old }
    ensures types { types.new ≡ group_places (hits_by lengths.old counts.old types.old) }
    ensures marks { marks.new ≡ hits_by lengths.old counts.old types.old }
    ensures found { found.new
        ≡ over (intervals_found limit.value lengths.old (hits_by lengths.old counts.old types.old)) found.old }
{
    find_hit_marks(lengths, counts, types, marks);
    let hits = group_sizes(marks, counts);
    keep_firsts(marks, lengths);
    keep_firsts(marks, types);
    let patterns = Features {
        first: &counts[..hits],
        second: &lengths[..hits],
        third: &types[..hits],
    };
    grouping_hits::repetition_intervals(&patterns, limit, found);
    fill::copy(marks, lengths);
    group_numbers(lengths);
    fill::copy(marks, types);
    group_places(types);
    hits
}

// Finds all levels. Their tables are in the work slice, in eight regions of n places. Each streak's ends are found
// last, by each object's streak: the marks of hit patterns and their sizes give place to them, and no region is free
// before.
pub fn encode_levels(kind: &[u8], w: &mut [u16], limit: SearchLimit) -> Levels
    requires { Regions (length kind.now) w.old }
    ensures { Encodes limit.value kind.now w.old w.new result }
{
    let n = kind.len();
    let (streak, rest) = w.split_at_mut(n);
    let (lengths, rest) = rest.split_at_mut(n);
    let (types, rest) = rest.split_at_mut(n);
    let (numbers, rest) = rest.split_at_mut(n);
    let (places, rest) = rest.split_at_mut(n);
    let (counts, rest) = rest.split_at_mut(n);
    let (hits_open, rest) = rest.split_at_mut(n);
    let (found, _) = rest.split_at_mut(n);
    let streaks = find_streaks(kind, found, streak, types, lengths);
    let patterns = find_patterns(
        &mut lengths[..streaks],
        &mut types[..streaks],
        &mut found[..streaks],
        &mut numbers[..streaks],
        &mut places[..streaks],
        &mut counts[..streaks],
    );
    let hits = find_hits(
        &mut lengths[..patterns],
        &mut counts[..patterns],
        &mut types[..patterns],
        &mut hits_open[..patterns],
        &mut found[..patterns],
        limit,
    );
    group_ends(streak, &mut hits_open[..streaks], &mut counts[..streaks]);
    Levels {
        streaks,
        patterns,
        hits,
        limit: limit.value,
    }
}

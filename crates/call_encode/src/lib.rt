// The call encode: per object six numbers, and the number of hit patterns.
#![tactic(auto)]

ghost use Rattle.std.specs.Prelude.{◌≡◌, ◌*◌, length};
ghost use Rattle.lent.specs.Over.{over};
ghost use Rattle.grouping_preprocessor.specs.Preprocessor.{hit_count};
ghost use Rattle.grouping_preprocessor.specs.passes.LookUps.{streaks, streak_places, patterns, pattern_places};
ghost use Rattle.grouping_preprocessor.specs.passes.LookUps.{hits, intervals};
ghost use Rattle.grouping_chart.specs.Outcome.{outcome};
ghost use Rattle.grouping_chart.specs.Lent.{seen};
ghost use Rattle.call_encode.specs.Call.{memory, encoded_kinds, kinds_memory, encode_outcome};
ghost use Rattle.call_encode.specs.passes.Rooms.{SpreadRoom, KindsRoom};

use grouping_chart::chart::Chart;
use grouping_chart::refusal::Refusal;
use grouping_chart::room::judge;
use grouping_chart::settings::Settings;
use grouping_hits::limit::SearchLimit;
use grouping_preprocessor::tables::Tables;
use lent::fill;

// Gives each object its six numbers, looked up in the encoder's tables.
fn spread(
    tables: Tables,
    streak: &mut [u16],
    streak_place: &mut [u16],
    pattern: &mut [u16],
    pattern_place: &mut [u16],
    hit: &mut [u16],
    interval: &mut [u8],
)
    requires { SpreadRoom tables streak.old streak_place.old pattern.old pattern_place.old hit.old interval.old }
    ensures streak { streak.new ≡ over (streaks tables.entry) streak.old }
    ensures streak_place { streak_place.new ≡ over (streak_places tables.entry) streak_place.old }
    ensures pattern { pattern.new ≡ over (patterns tables.entry) pattern.old }
    ensures pattern_place { pattern_place.new ≡ over (pattern_places tables.entry) pattern_place.old }
    ensures hit { hit.new ≡ over (hits tables.entry) hit.old }
    ensures interval { interval.new ≡ over (intervals tables.entry) interval.old }
{
    let n = tables.streak.len();
    fill::copy(tables.streak, streak);
    fill::gather(tables.streak_place, tables.streak, streak_place);
    fill::gather(tables.pattern, tables.streak, pattern);
    fill::gather(tables.pattern_place, &pattern[..n], pattern_place);
    fill::gather(tables.hit, &pattern[..n], hit);
    fill::gather(tables.interval, &hit[..n], interval);
}

// The six numbers of each object, by the kinds alone, under a search limit. The result is the number of hit patterns.
// The answer slices stay parameters: a struct of `&mut` slices is no plainer. By value its fields have no names at the
// return (`out.exit.0`), and by value or behind a `&mut` the look-ups from field to field get no generated proof.
pub fn encode_kinds(
    kind: &[u8],
    limit: SearchLimit,
    streak: &mut [u16],
    streak_place: &mut [u16],
    pattern: &mut [u16],
    pattern_place: &mut [u16],
    hit: &mut [u16],
    interval: &mut [u8],
    work: &mut [u16],
) -> usize
    requires { KindsRoom (length kind.now) limit.value
        (kinds_memory streak.old streak_place.old pattern.old pattern_place.old hit.old interval.old work.old) }
    ensures count { result ≡ hit_count kind.now }
    ensures filled { kinds_memory streak.new streak_place.new pattern.new pattern_place.new hit.new interval.new
        work.new
        ≡ encoded_kinds limit.value kind.now
        (kinds_memory streak.old streak_place.old pattern.old pattern_place.old hit.old interval.old work.old) }
{
    let n = kind.len();
    let levels = grouping_preprocessor::encode_levels(kind, work, limit);
    let tables = Tables::of(work, n, levels);
    spread(
        tables,
        streak,
        streak_place,
        pattern,
        pattern_place,
        hit,
        interval,
    );
    fill::front(work, 8 * n, 0);
    levels.hits
}

pub fn encode(
    chart: Chart,
    s: Settings,
    streak: &mut [u16],
    streak_place: &mut [u16],
    pattern: &mut [u16],
    pattern_place: &mut [u16],
    hit: &mut [u16],
    interval: &mut [u8],
    work: &mut [u16],
    scratch: &mut [f64],
) -> Result<usize, Refusal>
    ensures { outcome result
        (memory streak.new streak_place.new pattern.new pattern_place.new hit.new interval.new work.new scratch.new)
        ≡ encode_outcome s (seen chart.entry)
        (memory streak.old streak_place.old pattern.old pattern_place.old hit.old interval.old work.old scratch.old) }
{
    let n = chart.kind.len();
    let short = (streak.len() < n)
        | (streak_place.len() < n)
        | (pattern.len() < n)
        | (pattern_place.len() < n)
        | (hit.len() < n)
        | (interval.len() < n);
    judge(chart, s, short, work.len(), scratch.len())?;
    let limit = SearchLimit::of(s.search_limit);
    let hits = encode_kinds(
        chart.kind,
        limit,
        streak,
        streak_place,
        pattern,
        pattern_place,
        hit,
        interval,
        work,
    );
    fill::front(scratch, n, 0.0);
    Ok(hits)
}

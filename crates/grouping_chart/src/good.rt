// Whether all of a chart's objects are good, list by list. No loop here jumps by what it reads, so that several
// values are tested at a time.
ghost use Rattle.std.specs.Prelude.{◌≡◌, ℕ, ◌<◌, Bool};
ghost use Rattle.numeric.specs.Range.{within};
ghost use Rattle.grouping_chart.specs.Lent.{seen};
ghost use Rattle.grouping_chart.specs.Refusal.{kind_good};
ghost use Rattle.grouping_chart.specs.passes.Good.{all, all_places, all_good};

use crate::chart::Chart;
use crate::object::Kind;
use numeric::range;

// Center, Rim and NonHit.
pub fn kind_good(kind: u8) -> bool
    ensures { result ≡ kind_good kind }
{
    Kind::try_from(kind).is_ok()
}

// Whether a test passes at each of the first n places. `all` would jump at each (docs/DECISIONS.md); tried as a fold,
// whose two goals want proofs by the iterator's steps where the check finds the loop's alone.
#[tactic(auto, unfolding(crate::specs::passes::Good::all_places))]
pub fn all_places<F: Fn(usize) -> bool>(n: usize, test: F) -> bool
    requires callable { (i : ℕ) → i < n → F.pre test i }
    ensures { (passes : ℕ → Bool) → ((i : ℕ) (given : Bool) → i < n → F.post test i given → given ≡ passes i)
        → result ≡ all_places passes n }
{
    let mut good = true;
    for i in 0..n {
        good = good & test(i);
    }
    good
}

pub fn kinds_good(kind: &[u8]) -> bool
    ensures { result ≡ all kind_good kind.now }
{
    all_places(kind.len(), |i| kind_good(kind[i]))
}

pub fn all_within(lo: f64, hi: f64, values: &[f64]) -> bool
    ensures { result ≡ all (within lo hi) values.now }
{
    all_places(values.len(), |i| range::is_within(lo, hi, values[i]))
}

pub fn all_good(chart: Chart) -> bool
    ensures { result ≡ all_good (seen chart.entry) }
{
    let kinds = kinds_good(chart.kind);
    let starts = all_within(range::EARLIEST, range::LATEST, chart.start);
    let deltas = all_within(range::EARLIEST, range::LATEST, chart.delta);
    let ratios = all_within(range::LEAST_RATIO, range::GREATEST_RATIO, chart.ratio);
    kinds & (starts & (deltas & ratios))
}

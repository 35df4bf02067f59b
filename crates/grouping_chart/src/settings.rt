// The four numbers that each call on a chart takes, and which sets of them are refused.
ghost use Rattle.std.specs.Prelude.{◌≡◌};
ghost use Rattle.grouping_chart.specs.Settings.{base_settings, settings_good, settings_refusal};

use crate::refusal::Reason;
use numeric::range;

// The base's search limit, by itself for the letters program, which is handed no set.
pub const SEARCH_LIMIT: u16 = 16;

// The margin in milliseconds, the search limit, the penalty threshold and the ratio tolerance: dresserduck_settings in
// the header.
#[repr(C)]
#[derive(Clone, Copy)]
pub struct Settings {
    pub margin: f64,
    pub search_limit: u64,
    pub threshold: f64,
    pub tolerance: f64,
}

// The base's.
pub fn base() -> Settings
    ensures { result ≡ base_settings }
{
    Settings {
        margin: 5.0,
        search_limit: u64::from(SEARCH_LIMIT),
        threshold: 0.1,
        tolerance: 0.01,
    }
}

// Whether each number lies in its range. The limit is tested as it is lent, of 64 bits.
#[tactic(auto, unfolding(crate::specs::Settings::settings_good))]
fn settings_good(s: Settings) -> bool
    ensures { result ≡ settings_good s }
{
    let margin = range::is_within(0.0, 50.0, s.margin);
    let limit = (2 <= s.search_limit) & (s.search_limit <= 64);
    let threshold = range::is_within(0.0, 1.0, s.threshold);
    let tolerance = range::is_within(0.0, 1.0, s.tolerance);
    margin & (limit & (threshold & tolerance))
}

// Whether a set is good; else why not.
#[tactic(auto, unfolding(crate::specs::Settings::settings_refusal))]
pub fn settings_refusal(s: Settings) -> Result<(), Reason>
    ensures { result ≡ settings_refusal s }
{
    if settings_good(s) {
        return Ok(());
    }
    Err(Reason::BadSettings)
}

// The colour encoder's first two levels, streaks and alternating patterns.
#![tactic(auto)]

pub mod alternating_mono_pattern;
pub mod mono_streak;

// The encoder's tables, from which each object's six numbers are looked up.
ghost use Rattle.std.specs.Prelude.{length};
ghost use Rattle.grouping_preprocessor.specs.passes.LookUps.{TablesRoom, Cut, StreaksRoom, StreaksCut};

use crate::Levels;

// Each object's streak; each streak's alternating pattern and its place there; each alternating pattern's hit pattern
// and its place there; each hit pattern's interval; each streak's first object.
#[derive(Clone, Copy)]
pub struct Tables<'a> {
    pub streak: &'a [u16],
    pub pattern: &'a [u16],
    pub streak_place: &'a [u16],
    pub hit: &'a [u16],
    pub pattern_place: &'a [u16],
    pub interval: &'a [u16],
    pub first: &'a [u16],
}

impl<'a> Tables<'a> {
    // Where `encode_levels` leaves them for n objects: in the work slice, in regions of n places.
    pub fn of(work: &'a [u16], n: usize, levels: Levels) -> Tables<'a>
        requires { TablesRoom n levels (length work.now) }
        ensures { Cut n levels work.now result }
    {
        let streaks = Streaks::of(work, n, levels);
        Tables {
            streak: streaks.streak,
            pattern: &work[3 * n..3 * n + levels.streaks],
            streak_place: &work[4 * n..4 * n + levels.streaks],
            hit: &work[n..n + levels.patterns],
            pattern_place: &work[2 * n..2 * n + levels.patterns],
            interval: &work[7 * n..7 * n + levels.hits],
            first: streaks.first,
        }
    }
}

// What is kept of every streak: each object's streak, and each streak's first and last object.
#[derive(Clone, Copy)]
pub struct Streaks<'a> {
    pub streak: &'a [u16],
    pub first: &'a [u16],
    pub last: &'a [u16],
}

impl<'a> Streaks<'a> {
    // In the same places, all before the last region, which may be written meanwhile.
    pub fn of(work: &'a [u16], n: usize, levels: Levels) -> Streaks<'a>
        requires { StreaksRoom n levels (length work.now) }
        ensures { StreaksCut n levels work.now result }
    {
        Streaks {
            streak: &work[..n],
            first: &work[5 * n..5 * n + levels.streaks],
            last: &work[6 * n..6 * n + levels.streaks],
        }
    }
}

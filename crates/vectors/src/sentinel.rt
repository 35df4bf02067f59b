// What slices are lent with, and whether a call left in them what it must.
ghost use Rattle.std.specs.Prelude.{◌<◌, ◌*◌, ◌^◌};
ghost use Rattle.vectors.specs.Held.{Tells};
ghost use Rattle.vectors.specs.Sentinel.{Cleared};

use crate::column::Column;
pub use grouping_chart::chart::MOST_OBJECTS;

// The sentinels are no answers: a number of a group or a note is below 16,384 or, for none, 65,535.
pub const NUMBER_SENTINEL: u16 = 48879;

// An interval is at most 17, and a kind at most 2.
pub const BYTE_SENTINEL: u8 = 190;

// A value is at most 83,886,085 in size, and a start, a delta or a ratio that is built at most 2^24.
pub const FLOAT_SENTINEL: f64 = -1.0e300;

// The most places of a slice: one for each object, and 7 to spare. Slices are cut from arrays of so many, as there is
// no heap.
pub const MOST_PLACES: usize = MOST_OBJECTS + 7;

// The most places of a work slice: eight for each object, and 7 to spare.
pub const MOST_WORK: usize = 8 * MOST_OBJECTS + 7;

// Whether a call on n objects left 8n zeros and n times +0.0, and every place past them as it was lent.
pub fn work_cleared(n: usize, work: &[u16], scratch: &[f64]) -> bool
    requires { 8 * n < 2 ^ 64 }
    ensures { Tells result (Cleared n work.now scratch.now) }
{
    Column::zeros(8 * n).held(NUMBER_SENTINEL, work)
        && Column::zeros(n).held(FLOAT_SENTINEL, scratch)
}

// What the head of a stored case must say.
ghost use Rattle.std.specs.Prelude.{length};
ghost use Rattle.vectors.specs.Held.{Tells};
ghost use Rattle.vectors.specs.Form.{Formed, PartFormed};

use crate::call::Call;
use crate::case::Case;

// Whether the case is of this call, its numbers have from `low` to `high` bytes, and its own bytes are `size`.
pub fn formed(case: Case, call: Call, low: u8, high: u8, size: usize) -> bool
    ensures { Tells result (Formed call low high size case.entry.head (length case.entry.bytes.now)) }
{
    let h = case.head;
    h.call == Some(call) && low <= h.width && h.width <= high && case.bytes.len() == size
}

// The same of a case that is a part of another one, of n objects: its numbers have so many bytes.
pub fn part_formed(part: Case, call: Call, width: u8, size: usize, n: usize) -> bool
    ensures { Tells result (PartFormed call width size n part.entry.head (length part.entry.bytes.now)) }
{
    formed(part, call, width, width, size) && part.head.objects == n
}

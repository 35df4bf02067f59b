// How many places the slices of a case have.
ghost use Rattle.std.specs.Prelude.{◌≡◌, ◌+◌, ◌*◌, ◌<◌, ◌≤◌, MatchOption};
ghost use Rattle.grouping_chart.specs.Chart.{largest};
ghost use Rattle.vectors.specs.Case.{column_size};
ghost use Rattle.vectors.specs.passes.Room.{Few};

use crate::case;
use crate::case::Case;
use crate::sentinel::MOST_OBJECTS;

// How many places the slices have to spare: at most 7. It travels beside the case, from which each call's replay makes
// its room: made before, a case that has none would have to be told in another way.
#[derive(Clone, Copy)]
pub struct Spare {
    pub places: usize,
    ghost few: { places ≤ 7 },
}

// A case with no more objects than a chart may have, and how many places its slices have to spare.
#[derive(Clone, Copy)]
pub struct Room<'a> {
    pub case: Case<'a>,
    pub spare: usize,
    ghost few: { Few case.head.objects spare },
}

impl<'a> Room<'a> {
    // Room for the objects that the head says, unless there are too many.
    pub fn of(case: Case<'a>, spare: Spare) -> Option<Room<'a>>
        ensures { MatchOption result (largest < case.entry.head.objects)
            (λ r. (r.case ≡ case.entry) × (r.spare ≡ spare.places)) }
    {
        if case.head.objects > MOST_OBJECTS {
            return None;
        }
        Some(Room {
            case,
            spare: spare.places,
        })
    }

    // How many places a slice has for each object, and to spare.
    pub fn places(self) -> usize
        ensures { result ≡ self.entry.case.head.objects + self.entry.spare }
    {
        self.case.head.objects + self.spare
    }

    // And a work slice, with eight for each object.
    pub fn work(self) -> usize
        ensures { result ≡ 8 * self.entry.case.head.objects + self.entry.spare }
    {
        8 * self.case.head.objects + self.spare
    }

    // How many bytes a column has that holds a number for each object.
    pub fn column_size(self) -> usize
        ensures { let h = self.entry.case.head in
            (result ≡ column_size h.objects h.width) × (result ≤ 2 * h.objects) }
    {
        case::column_size(self.case.head.objects, self.case.head.width)
    }
}

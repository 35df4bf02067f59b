// A chart's notes: their objects and deltas in lent slices, and how many rhythm groups they make.
ghost use Rattle.std.specs.Prelude.{◌≡◌, length};
ghost use Rattle.grouping_marks.specs.Marks.{group_count};
ghost use Rattle.grouping_interval.specs.Notes.{of_notes};
ghost use Rattle.grouping_interval.specs.IntervalGrouping.{interval_marks};
ghost use Rattle.grouping_interval.specs.passes.Rooms.{NotesRoom, NotesListed};
ghost use Rattle.grouping_interval.specs.passes.Counting.{SumsFit, counted_first, counted_behind};
ghost use Rattle.grouping_interval.specs.passes.Counting.{counted_further, groups_counted};

use crate::{last_taken, pair_class, rise};
use grouping_chart::object::{NoteIndex, ObjectIndex, is_note};
use numeric::near::near;

// Puts each note's object number and delta in front. The result is how many notes there are. The loop goes by the
// place: it is what is written, and written at `note`, which an iterator over the slices doesn't follow.
#[tactic(auto, using(crate::proofs::ListLaws::listing_start))]
pub fn list_notes(kind: &[u8], delta: &[f64], objects: &mut [u16], values: &mut [f64]) -> usize
    requires { NotesRoom kind.now delta.now objects.old values.old }
    ensures { NotesListed kind.now delta.now
        objects.old objects.new values.old values.new result }
{
    let mut note = NoteIndex(0);
    for (i, number) in kind.iter().enumerate() {
        let object = ObjectIndex(i);
        if is_note(*number) {
            objects[note.0] = object.0 as u16;
            values[note.0] = delta[object.0];
            note = NoteIndex(note.0 + 1);
        }
    }
    note.0
}

// The groups of the notes seen so far, one at least, of which `last` is the last that a group took. It is not known yet
// whether that group takes a note that is pending too, of which this is the delta.
#[derive(Clone, Copy)]
pub struct Counting {
    pub notes: usize,
    pub groups: usize,
    pub last: f64,
    pub pending: Option<f64>,
}

// That its sums fit is no invariant of the type, since each further note uses one of them up.
impl Counting {
    // The first note, of delta d.
    #[tactic(auto, unfolding(crate::specs::passes::Counting::counted_first))]
    fn first(d: f64) -> Counting
        ensures { result ≡ counted_first d }
    {
        Counting {
            notes: 1,
            groups: 1,
            last: d,
            pending: None,
        }
    }

    // After a pending note of delta `next`, one of delta d.
    #[tactic(auto, unfolding(crate::specs::passes::Counting::counted_behind))]
    fn behind(self, next: f64, d: f64, margin: f64) -> Counting
        requires { SumsFit self }
        ensures { result ≡ counted_behind margin self next d }
    {
        let notes = self.notes + 1;
        let groups = self.groups + 1;
        if near(next, d, margin) {
            Counting {
                notes,
                groups: self.groups,
                last: next,
                pending: Some(d),
            }
        } else if rise(next, d, margin) {
            Counting {
                notes,
                groups,
                last: d,
                pending: None,
            }
        } else {
            Counting {
                notes,
                groups,
                last: next,
                pending: Some(d),
            }
        }
    }

    // A further note, of delta d.
    #[tactic(auto, unfolding(crate::specs::passes::Counting::counted_further))]
    fn further(self, d: f64, margin: f64) -> Counting
        requires { SumsFit self }
        ensures { result ≡ counted_further margin self d }
    {
        match self.pending {
            Some(next) => self.behind(next, d, margin),
            None => Counting {
                notes: self.notes + 1,
                groups: self.groups,
                last: self.last,
                pending: Some(d),
            },
        }
    }

    // How many groups there are when no note follows.
    #[tactic(auto, unfolding(crate::specs::passes::Counting::groups_counted))]
    fn total(self, margin: f64) -> usize
        requires { SumsFit self }
        ensures { result ≡ groups_counted margin self }
    {
        match self.pending {
            None => self.groups,
            Some(next) => {
                if last_taken(2 < self.notes, pair_class(self.last, next, margin)) {
                    self.groups
                } else {
                    self.groups + 1
                }
            }
        }
    }
}

// How many rhythm groups a chart's notes make. Nothing is written. Tried: a `zip` of the two lists tests both ends at
// each object, and the call record took up to 18 in 100 longer.
#[tactic(auto, using(crate::proofs::CountLaws::counting))]
pub fn count_groups(kind: &[u8], delta: &[f64], margin: f64) -> usize
    requires { length delta.now ≡ length kind.now }
    ensures { result ≡ group_count (interval_marks margin (of_notes kind.now delta.now)) }
{
    let mut counting: Option<Counting> = None;
    for (i, k) in kind.iter().enumerate() {
        if is_note(*k) {
            let d = delta[i];
            counting = Some(match counting {
                None => Counting::first(d),
                Some(c) => c.further(d, margin),
            });
        }
    }
    match counting {
        None => 0,
        Some(c) => c.total(margin),
    }
}

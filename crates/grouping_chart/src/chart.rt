// A chart as a call is lent it.

// The most objects that a chart may have.
pub const MOST_OBJECTS: usize = 16384;

// Four slices, with a place in each for each object. That they are of one length is known once `judge` has passed. A
// second struct that holds it would be no plainer: a pass is lent the lists alone that it reads, and the rooms of the
// passes (`NotesRoom` and its like) say it in one clause with what they ask of the slices that are written.
#[derive(Clone, Copy)]
pub struct Chart<'a> {
    pub kind: &'a [u8],
    pub start: &'a [f64],
    pub delta: &'a [f64],
    pub ratio: &'a [f64],
}

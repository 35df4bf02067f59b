// Where the replay of a file stands.
ghost use Rattle.std.specs.Prelude.{◌≡◌, ◌<◌};
ghost use Rattle.vectors.specs.Call.{is_call};
ghost use Rattle.vectors.specs.declared.call.Call.TheVariants.{Lesson};
ghost use Rattle.replay_cases.specs.Count.{at_start, ended_with, after_part, After, spare_of};

use crate::tally::Tally;
use vectors::call::Call;
use vectors::case::Head;
use vectors::room::Spare;

// The most cases of a file.
const MOST_CASES: u64 = 1_000_000;

// How many cases may follow, the objects of the charts, a tally of the cases with a chart, of those on one that are no
// lessons, and of lessons, and the head of the last chart. That `left` is 0 at the end too is how the promise of a
// whole file says that it was read; a `for` with a `break` would be no plainer beside it.
#[derive(Clone, Copy)]
pub struct Replay {
    pub left: u64,
    pub objects: u64,
    pub charts: Tally,
    pub parts: Tally,
    pub lessons: Tally,
    pub chart: Head,
}

// What became of a case: its head, and whether it held. A `Result` of an `Option` would be no plainer, since all four
// are counted, in one match.
#[derive(Clone, Copy)]
pub enum Replayed {
    Chart(Head, bool),
    Part(Head, bool),
    Broken,
    End,
}

// Whether the case with this head is a lesson.
#[tactic(auto, using(vectors::proofs::CallLaws::asked, vectors::proofs::CallLaws::not_asked))]
fn is_lesson(h: Head) -> bool
    ensures { result ≡ is_call h.call Lesson }
{
    h.call == Some(Call::Lesson)
}

impl Replay {
    // At a file's start.
    #[tactic(auto, unfolding(crate::specs::Count::at_start, crate::specs::Tally::no_cases))]
    pub fn start() -> Replay
        ensures { result ≡ at_start }
    {
        Replay {
            left: MOST_CASES,
            objects: 0,
            charts: Tally::default(),
            parts: Tally::default(),
            lessons: Tally::default(),
            chart: vectors::case::read_head(b""),
        }
    }

    // With no case to follow.
    #[tactic(auto, unfolding(crate::specs::Count::ended_with))]
    fn ended(self, charts: Tally) -> Replay
        ensures { result ≡ ended_with self charts }
    {
        Replay {
            left: 0,
            charts,
            ..self
        }
    }

    // After a part, by whether it is a lesson.
    #[tactic(auto, unfolding(crate::specs::Count::after_part))]
    fn after_part(self, h: Head, held: bool) -> Replay
        requires { 0 < self.left }
        ensures { result ≡ after_part self h held }
    {
        let left = self.left - 1;
        if is_lesson(h) {
            return Replay {
                left,
                lessons: self.lessons.counted(held),
                ..self
            };
        }
        Replay {
            left,
            parts: self.parts.counted(held),
            ..self
        }
    }

    // After a case, or at the file's end. A case that can't be read counts as one with a chart that differs, and ends
    // the replay.
    #[tactic(auto, unfolding(crate::specs::Count::after_case, crate::specs::Count::ended_with))]
    pub fn after(self, c: Replayed) -> Replay
        requires { 0 < self.left }
        ensures { After self c result }
    {
        match c {
            Replayed::Chart(h, held) => Replay {
                left: self.left - 1,
                objects: self.objects.wrapping_add(h.objects as u64),
                charts: self.charts.counted(held),
                chart: h,
                ..self
            },
            Replayed::Part(h, held) => self.after_part(h, held),
            Replayed::Broken => self.ended(self.charts.counted(false)),
            Replayed::End => self.ended(self.charts),
        }
    }

    // How many places the next case's slices have to spare: 0 to 7, by the cases before it that are no lessons. A part
    // counts twice, so that charts with a part each, and their parts, take all eight in turn.
    #[tactic(auto, unfolding(crate::specs::Count::spare_of))]
    pub fn spare(self) -> Spare
        ensures { result.places ≡ spare_of self }
    {
        let cases = self.charts.cases % 8 + 2 * (self.parts.cases % 8);
        Spare {
            places: (cases % 8) as usize,
        }
    }
}

// What is counted over the cases of one call.
ghost use Rattle.std.specs.Prelude.{◌≡◌};
ghost use Rattle.replay_cases.specs.Tally.{one_more};

// How many cases were replayed, how many differ, and the number of the first of those.
#[derive(Clone, Copy, Default)]
pub struct Tally {
    pub cases: u64,
    pub differ: u64,
    pub first: Option<u64>,
}

impl Tally {
    // After one case more, which held or differs.
    #[tactic(auto, unfolding(crate::specs::Tally::one_more, crate::specs::Tally::first_differing))]
    pub fn counted(self, held: bool) -> Tally
        ensures { result ≡ one_more self held }
    {
        let cases = self.cases.wrapping_add(1);
        if held {
            return Tally { cases, ..self };
        }
        Tally {
            cases,
            differ: self.differ.wrapping_add(1),
            first: Some(self.first.unwrap_or(self.cases)),
        }
    }
}

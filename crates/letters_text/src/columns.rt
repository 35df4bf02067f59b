// The numbers of a drill's objects, in columns, and those of one object.
ghost use Rattle.std.specs.Prelude.{◌≡◌, ◌<◌, length};

// An object's kind, the numbers of its groups, and its hit pattern's interval.
#[derive(Clone, Copy, Debug, PartialEq, Eq)]
pub struct Object {
    pub kind: u8,
    pub streak: u16,
    pub pattern: u16,
    pub hit: u16,
    pub interval: u8,
}

// The numbers of all objects, in each column one for each.
#[derive(Clone, Copy)]
pub struct Columns<'a> {
    pub kinds: &'a [u8],
    pub streak: &'a [u16],
    pub pattern: &'a [u16],
    pub hit: &'a [u16],
    pub interval: &'a [u8],
    ghost streaks: { length streak.now ≡ length kinds.now },
    ghost patterns: { length pattern.now ≡ length kinds.now },
    ghost hits: { length hit.now ≡ length kinds.now },
    ghost intervals: { length interval.now ≡ length kinds.now },
}

impl Columns<'_> {
    ghost use Rattle.letters_text.specs.Lines.{columns_of, object_at};

    #[tactic(auto, unfolding(crate::specs::Lines::object_at))]
    pub(crate) fn object(&self, i: usize) -> Object
        requires { i < length self.now.kinds.now }
        ensures { result ≡ object_at (columns_of self.now) i }
    {
        Object {
            kind: self.kinds[i],
            streak: self.streak[i],
            pattern: self.pattern[i],
            hit: self.hit[i],
            interval: self.interval[i],
        }
    }
}

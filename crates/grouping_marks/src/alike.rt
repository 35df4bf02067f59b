// Whether two items are alike, by three numbers of each.
ghost use Rattle.std.specs.Prelude.{◌≡◌, ◌<◌, length};
ghost use Rattle.grouping_marks.specs.Alike.{alike_at};

// Three numbers of each item.
#[derive(Clone, Copy)]
pub struct Features<'a> {
    pub first: &'a [u16],
    pub second: &'a [u16],
    pub third: &'a [u16],
    pub ghost as_many_seconds: { length second.now ≡ length first.now },
    pub ghost as_many_thirds: { length third.now ≡ length first.now },
}

impl<'a> Features<'a> {
    pub fn len(&self) -> usize
        ensures { result ≡ length self.now.first.now }
    {
        self.first.len()
    }

    // Whether items a and b have the same three numbers. The three tests are joined without jumps, so that a loop tests
    // several pairs at a time.
    pub fn alike(&self, a: usize, b: usize) -> bool
        requires first_inside { a < length self.now.first.now }
        requires second_inside { b < length self.now.first.now }
        ensures { result ≡ alike_at self.now.first.now self.now.second.now self.now.third.now a b }
    {
        let first = self.first[a] == self.first[b];
        let second = self.second[a] == self.second[b];
        let third = self.third[a] == self.third[b];
        first & (second & third)
    }
}

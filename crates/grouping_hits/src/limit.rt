// How far back a repetition of a hit pattern is searched.
ghost use Rattle.std.specs.Prelude.{◌≡◌, ◌+◌, ◌≤◌, ◌<◌};

// Hit patterns less than this far back are searched, and the interval of one that is like none of these is one more.
#[derive(Clone, Copy)]
pub struct SearchLimit {
    pub value: u16,
    pub ghost some: { 1 ≤ value },
    pub ghost fits: { value + 1 < 65536 },
}

impl SearchLimit {
    // Of a limit that is handed over with 64 bits. It is narrowed by `as`, since that it fits is known, so that
    // TryFrom's Err can't come.
    pub fn of(limit: u64) -> SearchLimit
        requires some { 1 ≤ limit }
        requires fits { limit + 1 < 65536 }
        ensures { result.value ≡ limit }
    {
        SearchLimit {
            value: limit as u16,
        }
    }
}

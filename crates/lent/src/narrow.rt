// The widths that a number of a table may have in the slice where it is looked up to. `TryFrom` would be no plainer:
// its answer is a Result, and here the number is known to fit.
ghost use Rattle.std.specs.Prelude.{◌≡◌, ℕ, ◌<◌, ⊤};

pub trait Narrow: Copy {
    // Whether a number is one of this width.
    ghost Fits: { ℕ → Type 0 };

    ghost narrowed: { ℕ → Self };

    fn narrow(x: u16) -> Self
        requires { Fits x }
        ensures { result ≡ narrowed x };
}

impl Narrow for u16 {
    ghost Fits = { λ _. ⊤ };

    ghost narrowed = { λ x. x };

    fn narrow(x: u16) -> u16 {
        x
    }
}

impl Narrow for u8 {
    ghost Fits = { λ x. x < 256 };

    ghost narrowed = { λ x. x };

    fn narrow(x: u16) -> u8 {
        x as u8
    }
}

// To a whole number, ties to even.
ghost use Rattle.std.specs.Prelude.{◌≡◌};
ghost use Rattle.numeric.specs.RoundTiesEven.{round_ties_even};

// The library's rounding is the one that IEEE 754 words.
pub fn round_ties_even(x: f64) -> f64
    ensures { result ≡ round_ties_even x }
{
    x.round_ties_even()
}

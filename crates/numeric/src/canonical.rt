// How a NaN leaves: with the bits 7FF8000000000000, whichever NaN it was.
ghost use Rattle.std.specs.Prelude.{◌≡◌};
ghost use Rattle.std.specs.Float.Ieee as Ieee;
ghost use Rattle.std.specs.Float.{binary64};

// x, a NaN made anew. The logic has one NaN, so the promise can't tell its bits: a test does.
pub fn canonical(x: f64) -> f64
    ensures { result ≡ x }
{
    if x.is_nan() { f64::NAN } else { x }
}

// The bits of x; of a NaN 7FF8000000000000. The test is no plainer away: the library's `to_bits` asks that x is no NaN.
pub fn bits(x: f64) -> u64
    ensures { result ≡ Ieee.to_bits binary64 x }
{
    if x.is_nan() {
        0x7FF8_0000_0000_0000
    } else {
        x.to_bits()
    }
}

// The tenths of an f64, to the nearest: whole numbers made of its bits, so that the product with ten is exact.
ghost use Rattle.std.specs.Prelude.{◌≡◌, ◌^◌, ◌<◌};
ghost use Rattle.numeric.specs.Tenths.{tenths_of, InTenthsRange};
ghost use Rattle.numeric.specs.passes.Tenths.{ScaledOf, TenNearest};

// The size of a float: digits / 2^shift.
#[derive(Clone, Copy)]
pub struct Scaled {
    pub digits: u64,
    pub shift: u64,
}

// That x is in range is a clause here, below and of the export: C lends an f64, which has no type that says so.
fn size_of(x: f64) -> Scaled
    requires { InTenthsRange x }
    ensures { ScaledOf x result.digits result.shift }
{
    let bits: u64 = x.to_bits();
    let field: u64 = bits % 0x8000_0000_0000_0000 / 0x10_0000_0000_0000;
    let rest: u64 = bits % 0x10_0000_0000_0000;
    if field == 0 {
        return Scaled {
            digits: rest,
            shift: 1074,
        };
    }
    Scaled {
        digits: 0x10_0000_0000_0000 + rest,
        shift: 1075 - field,
    }
}

// The whole number nearest to 10 * digits / 2^shift, at an exact half the even one. Ten times the digits is below
// 2^57, half of 2^58. The rest is doubled, as 2^shift has no half at shift 0.
fn ten_nearest(digits: u64, shift: u64) -> u64
    requires { digits < 2 ^ 53 }
    ensures { TenNearest digits shift result }
{
    if 57 < shift {
        return 0;
    }
    let ten = 10 * digits;
    let whole = ten >> shift;
    let rest = ten - (whole << shift);
    let unit = 1u64 << shift;
    if 2 * rest < unit {
        return whole;
    }
    if 2 * rest == unit {
        return whole + whole % 2;
    }
    whole + 1
}

// The whole number nearest to ten times x. What is nearest to the size is so with either sign.
pub fn tenths(x: f64) -> i64
    requires { InTenthsRange x }
    ensures { result ≡ tenths_of x }
{
    let s = size_of(x);
    let t = ten_nearest(s.digits, s.shift) as i64;
    if x < 0.0 {
        return -t;
    }
    t
}

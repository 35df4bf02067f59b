// A stored case as bytes, low byte first: a head of 8 bytes, then a body that begins with a number and the kinds.
ghost use Rattle.std.specs.Prelude.{◌≡◌, ◌+◌, ◌*◌, ◌^◌, ◌<◌, ◌≤◌, get_or};
ghost use Rattle.std.specs.Float.Ieee as Ieee;
ghost use Rattle.std.specs.Float.{binary64};
ghost use Rattle.vectors.specs.Case.{bytes_at, pair_at, column_size, quad_at, word_at, head_of};

use crate::call::Call;
use std::array;
use std::convert::TryFrom;

// Which call, if its number names one, how many bytes a number of its columns has, how many objects, and how many bytes
// the body.
#[derive(Clone, Copy)]
pub struct Head {
    pub call: Option<Call>,
    pub width: u8,
    pub objects: usize,
    pub size: usize,
}

// A case: its head and the bytes of its body.
#[derive(Clone, Copy)]
pub struct Case<'a> {
    pub head: Head,
    pub bytes: &'a [u8],
}

// The byte at a place, 0 past the end.
pub fn byte_at(s: &[u8], at: usize) -> u8
    ensures { result ≡ get_or s.now at 0 }
{
    s.get(at).copied().unwrap_or(0)
}

// N bytes from a place on. That the place fits is asked of each reader, since how far it reads differs.
fn bytes_at<const N: usize>(s: &[u8], at: usize) -> [u8; N]
    requires { at + N ≤ 2 ^ 64 }
    ensures { result ≡ bytes_at s.now at N }
{
    array::from_fn(|k| byte_at(s, at + k))
}

// The number of two bytes at a place. One each for two, four and eight bytes: `from_le_bytes` is of no trait, and a
// trait of our own with three impls would be no plainer.
#[tactic(auto, unfolding(crate::specs::Case::pair_at, crate::specs::Case::bytes_at))]
pub fn pair_at(s: &[u8], at: usize) -> u16
    requires { at + 1 < 2 ^ 64 }
    ensures { result ≡ pair_at s.now at }
{
    u16::from_le_bytes(bytes_at(s, at))
}

// The number of four bytes at a place.
#[tactic(auto, unfolding(crate::specs::Case::quad_at, crate::specs::Case::pair_at, crate::specs::Case::bytes_at))]
pub fn quad_at(s: &[u8], at: usize) -> u32
    requires { at + 3 < 2 ^ 64 }
    ensures { result ≡ quad_at s.now at }
{
    u32::from_le_bytes(bytes_at(s, at))
}

// The number of eight bytes at a place.
pub fn word_at(s: &[u8], at: usize) -> u64
    requires { at + 7 < 2 ^ 64 }
    ensures { result ≡ word_at s.now at }
{
    u64::from_le_bytes(bytes_at(s, at))
}

#[tactic(auto, unfolding(crate::specs::Case::head_of))]
pub fn read_head(s: &[u8]) -> Head
    ensures { result ≡ head_of s.now }
{
    Head {
        call: Call::try_from(byte_at(s, 0)).ok(),
        width: byte_at(s, 1),
        objects: usize::from(pair_at(s, 2)),
        size: quad_at(s, 4) as usize,
    }
}

// How many bytes a column of n numbers has.
#[tactic(auto, unfolding(crate::specs::Case::column_size))]
pub fn column_size(n: usize, width: u8) -> usize
    requires { 2 * n < 2 ^ 64 }
    ensures { (result ≡ column_size n width) × (result ≤ 2 * n) }
{
    if width == 1 { n } else { 2 * n }
}

// The float that has these bits. `f64::from_bits` asks that they are no NaN's, which stored ones may be.
#[tactic(auto, using(crate::proofs::FloatLaws::a_nan, crate::proofs::FloatLaws::no_nan))]
pub fn float_of(bits: u64) -> f64
    ensures { result ≡ Ieee.of_bits binary64 bits }
{
    if bits % 0x8000_0000_0000_0000 > 0x7FF0_0000_0000_0000 {
        return f64::NAN;
    }
    f64::from_bits(bits)
}

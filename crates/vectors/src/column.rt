// A column of a stored case, which contracts see as the list of its values.
ghost use Rattle.std.specs.Prelude.{◌≡◌, ◌+◌, ◌*◌, ◌^◌, ◌<◌, ◌≤◌, replicate, slice_get, length};
ghost use Rattle.lent.specs.Over.{over, part};
ghost use Rattle.vectors.specs.Case.{column, words};

use crate::case;
use std::marker::Model;

// How many bytes a value of a column has.
#[derive(Clone, Copy)]
enum Width {
    One,
    Two,
    Eight,
}

// The width of a case's numbers, by what its head says: one byte each or, for any other width, two.
impl From<u8> for Width {
    ghost use Rattle.vectors.specs.passes.Values.{width_of};

    ghost from_gives = { λ said width. width ≡ width_of said };

    #[tactic(auto, unfolding(crate::specs::passes::Values::width_of))]
    fn from(said: u8) -> Width {
        match said {
            1 => Width::One,
            _ => Width::Two,
        }
    }
}

// So many values, from a place of a case on.
#[derive(Drop)]
pub struct Column<'a> {
    bytes: &'a [u8],
    at: usize,
    width: Width,
    count: usize,
}

impl<'a> Model for Column<'a> {
    ghost use Rattle.std.specs.Prelude.{List, ℕ, ◌+◌, ◌*◌, ◌^◌, ◌<◌};
    ghost use Rattle.vectors.specs.passes.Values.{values, bytes_of};

    ghost Value = { List ℕ };

    ghost view = { λ c. values c.bytes.now c.at c.width c.count };

    ghost invariant = { λ c. c.at + bytes_of c.width * c.count < 2 ^ 64 };
}

impl<'a> Column<'a> {
    // Numbers of the width that a head says. A function for each width: each promises the list by a definition of its
    // own and asks for other room, so that one of the width would be no plainer.
    #[tactic(auto, using(crate::proofs::ColumnLaws::values_numbers, crate::proofs::ColumnLaws::long))]
    pub fn numbers(bytes: &'a [u8], at: usize, width: u8, count: usize) -> Column<'a>
        requires { at + 2 * count < 2 ^ 64 }
        ensures values { result ≡ column bytes.now at width count }
        ensures long { length result ≡ count }
    {
        Column {
            bytes,
            at,
            width: Width::from(width),
            count,
        }
    }

    #[tactic(auto, using(crate::proofs::ColumnLaws::values_bytes))]
    pub fn bytes(bytes: &'a [u8], at: usize, count: usize) -> Column<'a>
        requires { at + count ≤ length bytes.now }
        ensures { result ≡ part at count bytes.now }
    {
        Column {
            bytes,
            at,
            width: Width::One,
            count,
        }
    }

    // Words of eight bytes, as the bits of floats are.
    #[tactic(auto, using(crate::proofs::ColumnLaws::values_words, crate::proofs::ColumnLaws::long))]
    pub fn words(bytes: &'a [u8], at: usize, count: usize) -> Column<'a>
        requires { at + 8 * count < 2 ^ 64 }
        ensures values { result ≡ words bytes.now at count }
        ensures long { length result ≡ count }
    {
        Column {
            bytes,
            at,
            width: Width::Eight,
            count,
        }
    }

    #[tactic(auto, using(crate::proofs::ColumnLaws::values_zeros))]
    pub fn zeros(count: usize) -> Column<'a>
        ensures { result ≡ replicate count 0 }
    {
        let width = Width::One;
        Column {
            bytes: b"",
            at: 0,
            width,
            count,
        }
    }

    pub(crate) fn count(&self) -> usize
        ensures { result ≡ length self.now }
    {
        self.count
    }

    // Value i, if there is one.
    pub(crate) fn get(&self, i: usize) -> Option<u64>
        ensures { result ≡ slice_get self.now i }
    {
        if i >= self.count {
            return None;
        }
        Some(match self.width {
            Width::One => u64::from(case::byte_at(self.bytes, self.at + i)),
            Width::Two => u64::from(case::pair_at(self.bytes, self.at + 2 * i)),
            Width::Eight => case::word_at(self.bytes, self.at + 8 * i),
        })
    }

    // Reads the values into a slice.
    pub fn read(&self, out: &mut [u64])
        requires { length self.now ≤ length out.old }
        ensures { out.new ≡ over self.now out.old }
    {
        lent::fill::by_place(self.count(), out, |i| self.get(i).unwrap_or(0));
    }
}

// Whether a slice that was lent full of a sentinel holds what a call must leave there:
// its answers, and the sentinel in every other place.
ghost use Rattle.std.specs.Prelude.{◌≡◌, List, ℕ, map, refl};
ghost use Rattle.std.specs.Float.Ieee as Ieee;
ghost use Rattle.std.specs.Float.{binary64};
ghost use Rattle.std.specs.Int.{w64, cast_unsigned};
ghost use Rattle.std.proofs.lemmas.List.{map-id};
ghost use Rattle.vectors.specs.Held.{Tells, FrontHeld};

use crate::column::Column;

// What a place of a slice holds: the number that it is compared by, which of a float or a number with a sign is its
// bits.
// u8 and u16 have an impl each: one over `Into<u64>` would be no plainer, with f64 to be kept out of it.
pub trait Place: Copy {
    ghost bits_of: { Self → ℕ };

    ghost all_bits: { List Self → List ℕ };

    fn bits(&self) -> u64
        ensures { result ≡ bits_of self.now };

    ghost each_place: { (xs : List Self) → all_bits xs ≡ map bits_of xs };
}

impl Place for u8 {
    ghost bits_of = { λ x. x };

    ghost all_bits = { λ xs. xs };

    ghost each_place = { λ xs. Prim.search map-id };

    fn bits(&self) -> u64 {
        u64::from(*self)
    }
}

impl Place for u16 {
    ghost bits_of = { λ x. x };

    ghost all_bits = { λ xs. xs };

    ghost each_place = { λ xs. Prim.search map-id };

    fn bits(&self) -> u64 {
        u64::from(*self)
    }
}

impl Place for f64 {
    ghost bits_of = { Ieee.to_bits binary64 };

    ghost all_bits = { map (Ieee.to_bits binary64) };

    ghost each_place = { λ xs. refl };

    fn bits(&self) -> u64 {
        numeric::canonical::bits(*self)
    }
}

impl Place for i64 {
    ghost bits_of = { cast_unsigned w64 };

    ghost all_bits = { map (cast_unsigned w64) };

    ghost each_place = { λ xs. refl };

    fn bits(&self) -> u64 {
        self.cast_unsigned()
    }
}

impl<'a> Column<'a> {
    // Whether `got` holds the column's values, and then the sentinel.
    pub fn held<T: Place>(&self, sentinel: T, got: &[T]) -> bool
        ensures { Tells result (FrontHeld self.now (T.bits_of sentinel) (T.all_bits got.now)) }
    {
        let past = sentinel.bits();
        self.count() <= got.len()
            && got
                .iter()
                .enumerate()
                .all(|(i, x)| x.bits() == self.get(i).unwrap_or(past))
    }
}

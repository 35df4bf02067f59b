// Filling a lent slice from its front: copies, look-ups and one value over and over.
ghost use Rattle.std.specs.Prelude.{◌≡◌, ℕ, ◌+◌, ◌<◌, ◌≤◌, length, get_or, map, replicate};
ghost use Rattle.lent.specs.Over.{over, put};
ghost use Rattle.lent.specs.Scan.{gathered, tabulate};
ghost use Rattle.lent.specs.passes.Bounds.{AllBelow};

use crate::narrow::Narrow;

// A loop, since the library's `copy_from_slice` calls `memmove`, which a host would have to bring.
pub fn copy<T: Copy>(src: &[T], out: &mut [T])
    requires { length src.now ≤ length out.old }
    ensures { out.new ≡ over src.now out.old }
{
    for i in 0..src.len() {
        out[i] = src[i];
    }
}

// Sets each of the first n places to what f gives for it: the one loop that fills by the place. `iter_mut` with
// `enumerate` is no plainer, as the proof goes by index, nor is `&mut out[..n]`, as the clause says all of the slice.
pub fn by_place<T: Copy, F: Fn(usize) -> T>(n: usize, out: &mut [T], f: F)
    requires room { n ≤ length out.old }
    requires callable { (i : ℕ) → i < n → F.pre f i }
    ensures { (value : ℕ → T) → ((i : ℕ) (given : T) → i < n → F.post f i given → given ≡ value i)
        → out.new ≡ over (tabulate value n) out.old }
{
    for i in 0..n {
        out[i] = f(i);
    }
}

// Sets the first n places to a value. `fill` asks that a clone cannot fail, and gives the value only where a clone is
// it: Copy says neither, and clauses here would ask both of each caller.
pub fn front<T: Copy>(s: &mut [T], n: usize, value: T)
    requires { n ≤ length s.old }
    ensures { s.new ≡ over (replicate n value) s.old }
{
    s[..n].fill_with(|| value);
}

// What the table has at each number, as numbers of the slice's width. Tried with `usize::from` for `as`: the proof
// didn't close, since what `narrow` asks is not read through that call.
pub fn gather<T: Narrow>(table: &[u16], idx: &[u16], out: &mut [T])
    requires room { length idx.now ≤ length out.old }
    requires inside { AllBelow idx.now (length table.now) }
    requires fit { (i : ℕ) → i < length table.now → T.Fits (get_or table.now i 0) }
    ensures { out.new ≡ over (map T.narrowed (gathered table.now idx.now)) out.old }
{
    by_place(idx.len(), out, |i| T::narrow(table[idx[i] as usize]));
}

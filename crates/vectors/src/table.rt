// Floats that are stored by their bits: reading them into a slice.
ghost use Rattle.std.specs.Prelude.{◌≡◌, ◌≤◌, length};
ghost use Rattle.lent.specs.Over.{over};
ghost use Rattle.vectors.specs.Table.{floats, entries, float_at, entry_at};

use crate::case;
use crate::column::Column;

// The float whose bits a column has at i.
fn float_at(bits: &Column, i: usize) -> f64
    ensures { result ≡ float_at bits.now i }
{
    case::float_of(bits.get(i).unwrap_or(0))
}

// The float of the table that a column names at i by its number.
fn entry_at(table: &Column, names: &Column, i: usize) -> f64
    ensures { result ≡ entry_at table.now names.now i }
{
    float_at(table, names.get(i).unwrap_or(0) as usize)
}

// Reads the floats whose bits a column has.
#[tactic(auto, unfolding(crate::specs::Table::floats))]
pub fn read(bits: &Column, out: &mut [f64])
    requires { length bits.now ≤ length out.old }
    ensures { out.new ≡ over (floats bits.now) out.old }
{
    lent::fill::by_place(bits.count(), out, |i| float_at(bits, i));
}

// Reads those of the table that a column names by their numbers.
#[tactic(auto, unfolding(crate::specs::Table::entries))]
pub fn read_named(table: &Column, names: &Column, out: &mut [f64])
    requires { length names.now ≤ length out.old }
    ensures { out.new ≡ over (entries table.now names.now) out.old }
{
    lent::fill::by_place(names.count(), out, |i| entry_at(table, names, i));
}

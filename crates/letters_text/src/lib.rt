// The letters program's text to print: the lines of a drill's objects, or the one line on what is wrong with an input.
#![tactic(auto)]

ghost use Rattle.std.specs.Prelude.{◌≡◌, ◌++◌, [], ◌∷◌, ◌+◌, ◌≤◌, ◌<◌, length};
ghost use Rattle.arrayvec.specs.ArrayString.{array_string_len};
ghost use Rattle.letters_count.specs.Numbers.{number_of};
ghost use Rattle.letters_text.specs.Lines.{columns_of, line_head, parting, first_letter, next_letter};
ghost use Rattle.letters_text.specs.Lines.{lines, refused_line, long_line};
ghost use Rattle.letters_text.specs.passes.Memory.{LinesFit};

use arrayvec::ArrayString;
pub use columns::{Columns, Object};
use itoa::Integer;
use letters_count::Refusal;
use letters_grammar::letter_of;

mod columns;

// Each `put_` function writes a text behind what is printed so far. Room is a clause of each, as each uses some of it
// up.
// The digits are itoa's: `write!` hands back a result of which no promise says that it is Ok.
fn put_number<const N: usize, I: Integer>(out: &mut ArrayString<N>, n: I)
    requires { array_string_len out.old + length (I.text n) ≤ N }
    ensures { out.new.bytes ≡ out.old.bytes ++ I.text n }
{
    let mut digits = itoa::Buffer::new();
    out.push_str(digits.format(n));
}

// The head of the line that o opens.
#[tactic(auto, using(crate::proofs::LinesLaws::steps), unfolding(crate::specs::Lines::line_head))]
fn put_head<const N: usize>(out: &mut ArrayString<N>, o: Object)
    requires { array_string_len out.old + length (line_head o) ≤ N }
    ensures { out.new.bytes ≡ out.old.bytes ++ line_head o }
{
    put_number(out, o.interval);
    out.push(' ');
}

// What stands between the letters of two neighbours.
#[tactic(auto, using(crate::proofs::LinesLaws::steps), unfolding(crate::specs::Lines::parting))]
fn put_parting<const N: usize>(out: &mut ArrayString<N>, p: Object, o: Object)
    requires { array_string_len out.old + length (parting p o) ≤ N }
    ensures { out.new.bytes ≡ out.old.bytes ++ parting p o }
{
    if o.hit != p.hit {
        out.push('\n');
        put_head(out, o);
    } else if o.pattern != p.pattern {
        out.push('|');
    } else if o.streak != p.streak {
        out.push(',');
    }
}

// The first object's letter, with the head of its line.
#[tactic(auto, using(crate::proofs::LinesLaws::steps), unfolding(crate::specs::Lines::first_letter))]
fn put_first<const N: usize>(out: &mut ArrayString<N>, o: Object)
    requires { array_string_len out.old + length (first_letter o) ≤ N }
    ensures { out.new.bytes ≡ out.old.bytes ++ first_letter o }
{
    put_head(out, o);
    out.push(letter_of(o.kind));
}

// The letter of o, with what parts it from p's.
#[tactic(auto, using(crate::proofs::LinesLaws::steps), unfolding(crate::specs::Lines::next_letter))]
fn put_next<const N: usize>(out: &mut ArrayString<N>, p: Object, o: Object)
    requires { array_string_len out.old + length (next_letter p o) ≤ N }
    ensures { out.new.bytes ≡ out.old.bytes ++ next_letter p o }
{
    put_parting(out, p, o);
    out.push(letter_of(o.kind));
}

// The lines of a drill, from the numbers of its objects.
pub fn write_lines<const N: usize>(columns: &Columns, out: &mut ArrayString<N>)
    requires { LinesFit (columns_of columns.now) (array_string_len out.old) N }
    ensures { out.new.bytes ≡ out.old.bytes ++ lines (columns_of columns.now) }
{
    let n = columns.kinds.len();
    if n == 0 {
        return;
    }
    let mut last = columns.object(0);
    put_first(out, last);
    // by the place: an object has a number in each of five columns, so an iterator over the places is no plainer
    for i in 1..n {
        let next = columns.object(i);
        put_next(out, last, next);
        last = next;
    }
    out.push('\n');
}

// `no N P`: a refusal's number, and its place.
#[tactic(auto, using(crate::proofs::LinesLaws::steps), unfolding(crate::specs::Lines::refused_line))]
pub fn write_refused<const N: usize>(refusal: Refusal, out: &mut ArrayString<N>)
    requires { (refusal.place < 10000) × (array_string_len out.old + 11 ≤ N) }
    ensures { out.new.bytes ≡ out.old.bytes ++ refused_line (number_of refusal.fault) refusal.place }
{
    out.push_str("no ");
    put_number(out, u64::from(refusal.fault));
    out.push(' ');
    put_number(out, refusal.place);
    out.push('\n');
}

// `long`, for a text of over 4,096 bytes.
#[tactic(auto, unfolding(crate::specs::Lines::long_line))]
pub fn write_long<const N: usize>(out: &mut ArrayString<N>)
    requires { array_string_len out.old + 5 ≤ N }
    ensures { out.new.bytes ≡ out.old.bytes ++ long_line }
{
    out.push_str("long\n");
}

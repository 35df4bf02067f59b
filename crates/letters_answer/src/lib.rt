// Everything that the letters program does but writing its output.
#![tactic(auto)]

ghost use Rattle.std.specs.Prelude.{◌≡◌, ◌≤◌, [], Some, IfSome, length, drop};
ghost use Rattle.letters_grammar.specs.Reading.{most_objects};
ghost use Rattle.letters_shorthand.specs.Input.{input_bytes};
ghost use Rattle.letters_text.specs.Lines.{lines};
ghost use Rattle.letters_answer.specs.Output.{columns, letters_output, InputAnswered};

use arrayvec::ArrayString;
use grouping_chart::settings::SEARCH_LIMIT;
use grouping_hits::limit::SearchLimit;
use letters_count::MOST_OBJECTS;
use letters_shorthand::{InputError, MOST_BYTES};
use letters_text::Columns;
use std::io::Read;

// The longest text, a line feed, and a byte more that tells a longer input.
pub const INPUT_BYTES: usize = MOST_BYTES + 2;

// Five bytes an object.
pub const OUTPUT_BYTES: usize = 5 * MOST_OBJECTS;

// All that is printed for an input.
pub type Output = ArrayString<OUTPUT_BYTES>;

// What encoding needs as memory, eight places an object.
const WORK: usize = 8 * MOST_OBJECTS;

// The lines of a drill, by the kinds of its objects.
fn write_objects(kinds: &[u8], out: &mut Output)
    requires { (length kinds.now ≤ most_objects) × (out.old.bytes ≡ []) }
    ensures { out.new.bytes ≡ lines (columns kinds.now) }
{
    let n = kinds.len();
    // the memory that encoding is lent is fixed, with room for the most objects
    let mut streak = [0u16; MOST_OBJECTS];
    let mut streak_place = [0u16; MOST_OBJECTS];
    let mut pattern = [0u16; MOST_OBJECTS];
    let mut pattern_place = [0u16; MOST_OBJECTS];
    let mut hit = [0u16; MOST_OBJECTS];
    let mut interval = [0u8; MOST_OBJECTS];
    let mut work = [0u16; WORK];
    let limit = SearchLimit {
        value: SEARCH_LIMIT,
    };
    call_encode::encode_kinds(
        kinds,
        limit,
        &mut streak,
        &mut streak_place,
        &mut pattern,
        &mut pattern_place,
        &mut hit,
        &mut interval,
        &mut work,
    );
    let columns = Columns {
        kinds,
        streak: &streak[..n],
        pattern: &pattern[..n],
        hit: &hit[..n],
        interval: &interval[..n],
    };
    letters_text::write_lines(&columns, out);
}

// All that is printed for a whole text.
fn write_answer(text: &[u8], out: &mut Output)
    requires { out.old.bytes ≡ [] }
    ensures { out.new.bytes ≡ letters_output text.now }
{
    let mut kinds = [0u8; MOST_OBJECTS];
    match letters_shorthand::read_input(text, &mut kinds) {
        Ok(n) => write_objects(&kinds[..n], out),
        Err(InputError::Long) => letters_text::write_long(out),
        Err(InputError::Refused(refusal)) => letters_text::write_refused(refusal, out),
    }
}

// Reads the input, as much of it as tells all, and answers it as `write_answer` does. A failed read counts as its end.
// Where the reader's bytes are known, and none of those that tell all are left, all of them are answered.
// How many bytes standard input has no promise can say: tests/letters sees that none was passed over.
pub fn answer_input<R: Read>(reader: &mut R, input: &mut [u8; INPUT_BYTES]) -> Output
    ensures answered { InputAnswered input.new result.bytes }
    ensures whole { IfSome (R.remaining reader.old) (λ text. R.remaining reader.new ≡ Some (drop input_bytes text)
        → result.bytes ≡ letters_output text) }
{
    let n = reading::read_full(reader, input);
    let mut out = Output::new();
    write_answer(&input[..n], &mut out);
    out
}

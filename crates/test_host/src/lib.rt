// `numeric`, `group_by_interval`, the normaliser and the reading of drills under C names, for tests alone.
#![tactic(auto)]

ghost use Rattle.std.specs.Prelude.{◌≡◌};
ghost use Rattle.std.specs.Float.Ieee as Ieee;
ghost use Rattle.std.specs.Float.{binary64};
ghost use Rattle.numeric.specs.Near.{is_near};
ghost use Rattle.numeric.specs.TotalOrder.{total_order};
ghost use Rattle.numeric.specs.RoundTiesEven.{round_ties_even};
ghost use Rattle.numeric.specs.Tenths.{tenths_of, InTenthsRange};
ghost use Rattle.numeric.specs.Logistic.{logistic_at};
ghost use Rattle.numeric_sort.specs.Ordered.{AllFinite};
ghost use Rattle.grouping_normalizer.specs.Normalizer.{NormalOf};
ghost use Rattle.grouping_interval.specs.GroupByInterval.{GroupedByInterval};
ghost use Rattle.grouping_interval.specs.passes.Rooms.{ValuesRoom};
ghost use Rattle.lent.specs.Over.{over};
ghost use Rattle.letters_grammar.specs.Letters.{trimmed};
ghost use Rattle.letters_shorthand.specs.Input.{input_of, objects_read, answer_of, told};
ghost use Rattle.test_host.specs.Told.{told_of};

use letters_count::MOST_OBJECTS;
use letters_shorthand::InputError;

#[unsafe(no_mangle)]
pub extern "C" fn numeric_near(a: f64, b: f64, margin: f64) -> bool
    ensures { result ≡ is_near margin a b }
{
    numeric::near::near(a, b, margin)
}

#[unsafe(no_mangle)]
pub extern "C" fn numeric_total_order(a: f64, b: f64) -> bool
    ensures { result ≡ total_order a b }
{
    numeric::order::total_order(a, b)
}

#[unsafe(no_mangle)]
pub extern "C" fn numeric_round_ties_even(x: f64) -> f64
    ensures { result ≡ round_ties_even x }
{
    numeric::round::round_ties_even(x)
}

#[unsafe(no_mangle)]
pub extern "C" fn numeric_tenths(x: f64) -> i64
    requires { InTenthsRange x }
    ensures { result ≡ tenths_of x }
{
    numeric::tenths::tenths(x)
}

#[unsafe(no_mangle)]
pub extern "C" fn numeric_logistic(n: usize) -> f64
    ensures { result ≡ logistic_at n }
{
    numeric::logistic::LogisticTable::new().at(n)
}

#[unsafe(no_mangle)]
pub extern "C" fn numeric_canonical(x: f64) -> f64
    ensures { result ≡ x }
{
    numeric::canonical::canonical(x)
}

#[unsafe(no_mangle)]
pub extern "C" fn numeric_bits(x: f64) -> u64
    ensures { result ≡ Ieee.to_bits binary64 x }
{
    numeric::canonical::bits(x)
}

#[unsafe(no_mangle)]
pub extern "C" fn grouping_group_by_interval(
    values: &[f64],
    margin: f64,
    group: &mut [u16],
) -> usize
    requires { ValuesRoom values.now group.old }
    ensures { GroupedByInterval margin values.now group.old group.new result }
{
    grouping_interval::group_by_interval(values, margin, group)
}

#[unsafe(no_mangle)]
pub extern "C" fn grouping_normal_of(deltas: &mut [f64], margin: f64, x: f64) -> f64
    requires { AllFinite deltas.old }
    ensures { NormalOf margin deltas.old deltas.new x result }
{
    grouping_normalizer::normal_of(deltas, margin, x)
}

// An input: 0, 1 for one that is too long, or the refusal's number; its place; how many objects were read. C has no
// Result, so these are plain numbers.
#[repr(C)]
#[derive(Clone, Copy, Default)]
pub struct LettersRead {
    pub number: u64,
    pub place: usize,
    pub objects: usize,
}

impl From<Result<usize, InputError>> for LettersRead {
    ghost from_gives = { λ reading told_as. told_as ≡ told_of (told reading) };

    #[tactic(auto, unfolding(crate::specs::Told::told_of))]
    fn from(reading: Result<usize, InputError>) -> LettersRead {
        match reading {
            Ok(objects) => LettersRead {
                objects,
                ..LettersRead::default()
            },
            Err(InputError::Long) => LettersRead {
                number: 1,
                ..LettersRead::default()
            },
            Err(InputError::Refused(refusal)) => LettersRead {
                number: u64::from(refusal.fault),
                place: refusal.place,
                ..LettersRead::default()
            },
        }
    }
}

#[unsafe(no_mangle)]
pub extern "C" fn letters_read(text: &[u8], kinds: &mut [u8; MOST_OBJECTS]) -> LettersRead
    ensures answer { result ≡ told_of (answer_of (input_of (trimmed text.now))) }
    ensures kinds { kinds.new ≡ over (objects_read (input_of (trimmed text.now))) kinds.old }
{
    LettersRead::from(letters_shorthand::read_input(text, kinds))
}

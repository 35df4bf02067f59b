// The calls whose answers are stored.
use std::convert::TryFrom;

// Which call a stored case is of.
#[derive(Clone, Copy, PartialEq, Eq)]
pub enum Call {
    Encode,
    Colour,
    Stretch,
    Rhythm,
    Record,
    Build,
    Turns,
    Lesson,
}

// A number that names no call.
#[derive(Clone, Copy, PartialEq, Eq)]
pub struct UnknownCall(pub u8);

impl TryFrom<u8> for Call {
    ghost use Rattle.vectors.specs.Call.{Named};

    type Error = UnknownCall;

    ghost try_from_gives = { Named };

    fn try_from(number: u8) -> Result<Call, UnknownCall> {
        match number {
            1 => Ok(Call::Encode),
            2 => Ok(Call::Colour),
            3 => Ok(Call::Stretch),
            4 => Ok(Call::Rhythm),
            5 => Ok(Call::Record),
            6 => Ok(Call::Build),
            7 => Ok(Call::Turns),
            8 => Ok(Call::Lesson),
            _ => Err(UnknownCall(number)),
        }
    }
}

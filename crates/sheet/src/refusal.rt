ghost use Rattle.std.specs.Prelude.{◌≡◌, Some};
ghost use Rattle.sheet.specs.Refusals.{number_of, words_of};

use std::error::Error;
use std::fmt;

// Why a call did nothing.
#[derive(Clone, Copy, PartialEq, Eq, Debug)]
pub enum Refusal {
    // A width or a height is 0 or above 1024.
    BadSize = 1,
    // A memory is shorter than the sheet has pixels.
    ShortMemory = 2,
    // The bench is open where the call wants it settled, or settled where the call wants it open.
    WrongState = 3,
    // A row, a column or a place is not there.
    OutOfRange = 4,
    // The order of work does not admit the metric.
    NotAdmitted = 5,
    // The front is smaller than the sheet, or a place waits in it.
    UnfitFront = 6,
    // Line 1 or 3 of a run list is not the names that stand there.
    BadNames = 7,
    // Any other line of a run list is not as the format has it.
    BadLine = 8,
    // A run list has more than 16,384 bytes.
    LongText = 9,
}

// The number by which a host knows the refusal.
impl From<Refusal> for u32 {
    ghost from_gives = { λ refusal number. number ≡ number_of refusal };

    fn from(refusal: Refusal) -> u32 {
        refusal as u32
    }
}

impl fmt::Display for Refusal {
    ghost output = { λ refusal. Some (words_of refusal) };

    fn fmt<W: fmt::Write>(&self, f: &mut fmt::Formatter<W>) -> fmt::Result {
        match self {
            Refusal::BadSize => write!(f, "a side is 0 or above 1024"),
            Refusal::ShortMemory => write!(f, "a memory is too short"),
            Refusal::WrongState => write!(f, "the bench is not in the state for it"),
            Refusal::OutOfRange => write!(f, "it is off the sheet"),
            Refusal::NotAdmitted => write!(f, "the order does not admit the metric"),
            Refusal::UnfitFront => write!(f, "the front is too small or not empty"),
            Refusal::BadNames => write!(f, "a line of names is not as it must be"),
            Refusal::BadLine => write!(f, "a line is not as it must be"),
            Refusal::LongText => write!(f, "the text is too long"),
        }
    }
}

impl Error for Refusal {}

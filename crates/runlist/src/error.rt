ghost use Rattle.std.specs.Prelude.{◌≡◌, Some};
ghost use Rattle.runlist.specs.declared.error.Error.TheVariants.{Refused, OutOfMemory};
ghost use Rattle.runlist.specs.Replies.{error_text};

use reader::list::Fault;
use std::alloc::AllocError;
use std::fmt;
use writer::Answers;
use writer::answer::Answer;

// Why a text has no answer of a run.
#[derive(Clone, Copy, PartialEq, Eq, Debug)]
pub enum Error {
    // It is no run list.
    Refused(Fault),
    OutOfMemory,
}

impl From<Fault> for Error {
    ghost from_gives = { λ fault error. error ≡ Refused fault };

    fn from(fault: Fault) -> Error {
        Error::Refused(fault)
    }
}

impl From<AllocError> for Error {
    ghost from_gives = { λ _ error. error ≡ OutOfMemory };

    fn from(_error: AllocError) -> Error {
        Error::OutOfMemory
    }
}

// A refused text prints as the text that it is answered with, which needs no memory.
impl fmt::Display for Error {
    ghost output = { λ error. Some (error_text error) };

    fn fmt<W: fmt::Write>(&self, f: &mut fmt::Formatter<W>) -> fmt::Result {
        match self {
            Error::Refused(fault) => {
                let answer = Answer {
                    line: fault.line,
                    outcome: Err(fault.refusal),
                };
                let answers = Answers(&[answer]);
                write!(f, "{answers}")
            }
            Error::OutOfMemory => write!(f, "memory allocation failed"),
        }
    }
}

impl std::error::Error for Error {}

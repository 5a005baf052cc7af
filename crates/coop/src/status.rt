//! How a run ends, and the number that says so to the system; and why it ends without an answer.
ghost use Rattle.std.specs.Prelude.{◌≡◌};
ghost use Rattle.coop.specs.Outcome.{status_number, status_of};

use checker::Verdict;
use convexity::ConvexAnswer;
use report::Answer;
use std::alloc::AllocError;

/// How a run ends, with the number that the program ends with.
#[derive(Clone, Copy, Debug, PartialEq, Eq)]
pub enum Status {
    /// The positive answer was printed.
    Done = 0,
    /// The negative answer was printed.
    Negative = 1,
    /// The words are no command, or the command doesn't take the document.
    Usage = 2,
    /// The input is no document of the command.
    Refused = 3,
    /// The input could not be read; nothing was printed.
    ReadFault = 5,
    /// The line could not be written to its end.
    WriteFault = 6,
    /// Memory was not found; nothing was printed.
    OutOfMemory = 7,
}

impl Status {
    /// Returns the number that the program ends with: 0 to 3 after an answer, 5 to 7 after a fault.
    pub fn number(self) -> u8
        ensures { result ≡ status_number self }
    {
        self as u8
    }
}

/// The status after an answer was printed.
pub(crate) fn status_of(answer: &Answer) -> Status
    ensures { result ≡ status_of answer.now }
{
    match answer {
        Answer::Nucleolus { .. }
        | Answer::InCore
        | Answer::CorePoint { .. }
        | Answer::Shapley { .. }
        | Answer::Bird { .. }
        | Answer::Convex {
            answer: ConvexAnswer::Convex { .. },
            ..
        }
        | Answer::Prekernel
        | Answer::Matching(_)
        | Answer::Summary(_)
        | Answer::Verdict(Verdict::Yes) => Status::Done,
        Answer::NoImputation { .. }
        | Answer::NotEfficient { .. }
        | Answer::Blocked { .. }
        | Answer::EmptyCore { .. }
        | Answer::Convex {
            answer: ConvexAnswer::Not { .. },
            ..
        }
        | Answer::NotPrekernel { .. }
        | Answer::Verdict(Verdict::No(_)) => Status::Negative,
        Answer::Usage(_) => Status::Usage,
        Answer::Refused(_) => Status::Refused,
    }
}

/// Why an answer isn't found.
#[derive(Clone, Copy)]
pub enum Stop {
    /// A read failed.
    Fault,
    /// Memory was not found.
    Memory,
}

impl From<AllocError> for Stop {
    ghost use Rattle.std.specs.Prelude.{◌≡◌};
    ghost use Rattle.coop.specs.declared.status.Stop.TheVariants.{Memory};

    ghost from_gives = { λ _ e. e ≡ Memory };

    fn from(_: AllocError) -> Stop {
        Stop::Memory
    }
}

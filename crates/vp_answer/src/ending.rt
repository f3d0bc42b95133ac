//! How a job ends that takes memory of its own.

ghost use Rattle.std.specs.Prelude.{◌≡◌};

use crate::Status;

/// How a job ends, where no write fails and memory does not run out.
#[derive(Clone, Copy, Debug, PartialEq, Eq)]
pub enum Ending {
    /// Its text is whole, and finds no fault.
    Done,
    /// A rule is broken that the input claims to keep.
    Finding,
    /// The input is refused.
    Refused,
}

impl Ending {
    ghost use Rattle.std.specs.Prelude.{◌≡◌};
    ghost use Rattle.vp_answer.specs.Answers.{status_of};

    /// Its status.
    pub fn status(self) -> Status
        ensures { result ≡ status_of self }
    {
        match self {
            Ending::Done => Status::Done,
            Ending::Finding => Status::Finding,
            Ending::Refused => Status::Refused,
        }
    }
}

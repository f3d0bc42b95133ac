//! How the program ended.

ghost use Rattle.std.specs.Prelude.{◌≡◌};

/// How the program ended.
#[derive(Clone, Copy, Debug, PartialEq, Eq)]
pub enum Status {
    /// The whole text was written.
    Done,
    /// The input breaks a rule that it claims to keep.
    Finding,
    /// The words are no command.
    Usage,
    /// The input is not in the grammar of the command, or does not fit it.
    Refused,
    /// A read failed; nothing was written.
    ReadFault,
    /// A write failed; a proper beginning of the text was written.
    WriteFault,
    /// There was no memory; nothing was written.
    NoMemory,
    /// The input has more than 67108864 bytes; nothing was written.
    TooLong,
}

impl Status {
    ghost use Rattle.std.specs.Prelude.{◌≡◌};
    ghost use Rattle.vp_answer.specs.StatusCode.{code_of};

    /// The number that the program ends with.
    pub fn code(self) -> u8
        ensures { result ≡ code_of self }
    {
        self as u8
    }
}

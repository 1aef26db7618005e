//! How a call of `tdc` ends.

ghost use Rattle.std.specs.Prelude.{◌≡◌};
ghost use Rattle.td_c_ends.specs.Status.{number_of};

/// How a call of `tdc` ends, with the exit status of the process. What isn't said to fail didn't.
#[derive(Clone, Copy, PartialEq, Eq)]
pub enum Status {
    /// 0: the command's output went to `out`, nothing to `err`.
    Done,
    /// 1: one error line went to `err`, nothing to `out`.
    Refused,
    /// 2: the words are no command; the usage line went to `err`, nothing to `out`.
    Usage,
    /// 3: a read of the source failed; `error read` went to `err`, nothing to `out`.
    ReadFault,
    /// 4: a write of `out` or of `err` failed; a prefix of what was to be written went there, and to the other nothing. The
    /// source failed too where that was `error read`.
    WriteFault,
    /// 5: there was no memory, and no more than the limit was taken of the source; `error memory` went to `err`, nothing to
    /// `out`.
    NoMemory,
}

impl Status {
    /// The exit status of the process.
    pub fn number(self) -> u8
        ensures { result ≡ number_of self }
    {
        match self {
            Status::Done => 0,
            Status::Refused => 1,
            Status::Usage => 2,
            Status::ReadFault => 3,
            Status::WriteFault => 4,
            Status::NoMemory => 5,
        }
    }
}

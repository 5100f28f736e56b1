//! How a run ends.

/// How a run ends: what it answers to its caller beside the text.
#[derive(Clone, Copy, Debug, PartialEq, Eq)]
pub enum Status {
    /// The work is done, and its text is written.
    Done,
    /// The policies before or after have errors.
    Findings,
    /// The words are no command.
    Usage,
    /// The bytes are no document.
    Document,
    /// The source failed before its end.
    ReadFault,
    /// The sink failed before it had taken the text of work that was done.
    WriteFault,
    /// Memory ran out.
    OutOfMemory,
    /// There are more bytes than a document may have.
    TooLong,
}

impl Status {
    ghost use Rattle.std.specs.Prelude.{◌≡◌};
    ghost use Rattle.edit_service.specs.Status.{after_fault, code_of};

    /// The number that a program ends with.
    pub fn code(self) -> u8
        ensures { result ≡ code_of self }
    {
        match self {
            Status::Done => 0,
            Status::Findings => 1,
            Status::Usage => 2,
            Status::Document => 3,
            Status::ReadFault => 8,
            Status::WriteFault => 9,
            Status::OutOfMemory => 10,
            Status::TooLong => 11,
        }
    }

    /// The status to end with where a write failed: it hides work that was done, and nothing else.
    pub(crate) fn after_fault(self) -> Status
        ensures { result ≡ after_fault self }
    {
        if self == Status::Done {
            Status::WriteFault
        } else {
            self
        }
    }
}

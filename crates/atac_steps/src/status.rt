//! How a call ended, and its exit code.

ghost use Rattle.std.specs.Prelude.{◌≡◌};
ghost use Rattle.atac_steps.specs.Codes.{code_of};

/// How a call ended.
#[derive(Clone, Copy, Debug, PartialEq, Eq)]
pub enum Status {
    /// The whole text was put, and what is to be kept was kept.
    Done,
    /// The words are no command.
    Usage,
    /// The program isn't understood.
    Refused,
    /// The shelf doesn't hold a name.
    Absent,
    /// The shelf holds more bytes under a name than the limit.
    Long,
    /// A trace can't be read, is of another program, or would be too large.
    BadTrace,
    /// The shelf failed at a fetch. This comes only where its count of read faults rose in the call.
    ReadFault,
    /// The sink `out` failed at a put. This comes only where its count of faults rose in the call.
    WriteFault,
    /// The shelf failed at a keep. This comes only where its count of keep faults rose in the call.
    KeepFault,
    /// Memory was wanted and not found. This may come in place of each status but `Usage`.
    NoMemory,
    /// No watcher has the name.
    NoWatcher,
}

impl Status {
    /// The exit code, from 0 to 11. It is 0 for `Done` alone.
    pub fn code(&self) -> u8
        ensures { result ≡ code_of self.now }
    {
        match self {
            Status::Done => 0,
            Status::Usage => 2,
            Status::Refused => 3,
            Status::Absent => 4,
            Status::Long => 5,
            Status::BadTrace => 6,
            Status::ReadFault => 7,
            Status::WriteFault => 8,
            Status::KeepFault => 9,
            Status::NoMemory => 10,
            Status::NoWatcher => 11,
        }
    }
}

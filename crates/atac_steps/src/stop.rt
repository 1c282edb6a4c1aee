//! Why a command ends before it is done.

ghost use Rattle.std.specs.Prelude.{◌≡◌, ◌≢◌, ◌++◌, codes};
ghost use Rattle.atac_steps.specs.Ends.{status_of, file_of, said_of, fault_text};
ghost use Rattle.atac_steps.specs.Stops.{end_of};
ghost use Rattle.atac_steps.specs.declared.stop.Stop.TheVariants.{NoMemory};

use crate::status::Status;
use c_base::place::NoMemory as MemoryWanted;

/// What is wrong with a trace.
#[derive(Clone, Copy, Debug, PartialEq, Eq, Drop)]
pub enum TraceFault {
    NotATrace,
    Version,
    Length,
    Order,
    Damaged,
    OtherProgram,
    TooMuch,
}

impl TraceFault {
    // Its number and name, behind a colon.
    fn text(self) -> &'static [u8]
        ensures { result.now ≡ codes ": " ++ fault_text self }
    {
        match self {
            TraceFault::NotATrace => b": 60 NotATrace",
            TraceFault::Version => b": 61 Version",
            TraceFault::Length => b": 62 Length",
            TraceFault::Order => b": 63 Order",
            TraceFault::Damaged => b": 64 Damaged",
            TraceFault::OtherProgram => b": 65 OtherProgram",
            TraceFault::TooMuch => b": 66 TooMuch",
        }
    }
}

/// Why a command ends before it is done. A file is named by the word that was given.
#[derive(Debug, Drop)]
pub enum Stop<'a> {
    /// With what is said of the program: a place, a number and its name.
    NotAccepted(&'a str, String),
    NotHeld(&'a str),
    TooLong(&'a str),
    /// With what is wrong with the trace.
    NoTrace(&'a str, TraceFault),
    ReadFailed(&'a str),
    WriteFailed,
    KeepFailed(&'a str),
    NoMemory,
    /// No watcher has the name.
    NotWatched(&'a str),
}

impl<'a> Stop<'a> {
    /// The status of a call that ends by this stop.
    pub fn status(&self) -> Status
        ensures status { result ≡ status_of (end_of self.now) }
        ensures not_usage { result ≢ Status.Usage }
    {
        match self {
            Stop::NotAccepted(_, _) => Status::Refused,
            Stop::NotHeld(_) => Status::Absent,
            Stop::TooLong(_) => Status::Long,
            Stop::NoTrace(_, _) => Status::BadTrace,
            Stop::ReadFailed(_) => Status::ReadFault,
            Stop::WriteFailed => Status::WriteFault,
            Stop::KeepFailed(_) => Status::KeepFault,
            Stop::NoMemory => Status::NoMemory,
            Stop::NotWatched(_) => Status::NoWatcher,
        }
    }

    /// The name of the file or watcher that it speaks of, or nothing.
    pub fn file(&self) -> &'a [u8]
        ensures { result.now ≡ file_of (end_of self.now) }
    {
        match self {
            Stop::NotAccepted(file, _) => file.as_bytes(),
            Stop::NotHeld(file) => file.as_bytes(),
            Stop::TooLong(file) => file.as_bytes(),
            Stop::NoTrace(file, _) => file.as_bytes(),
            Stop::ReadFailed(file) => file.as_bytes(),
            Stop::WriteFailed => b"",
            Stop::KeepFailed(file) => file.as_bytes(),
            Stop::NoMemory => b"",
            Stop::NotWatched(name) => name.as_bytes(),
        }
    }

    /// What it says, behind that name.
    pub fn said(&self) -> &[u8]
        ensures { result.now ≡ said_of (end_of self.now) }
    {
        match self {
            Stop::NotAccepted(_, said) => said.as_bytes(),
            Stop::NotHeld(_) => b": absent",
            Stop::TooLong(_) => b": too long",
            Stop::NoTrace(_, why) => why.text(),
            Stop::ReadFailed(_) => b": read fault",
            Stop::WriteFailed => b"write fault",
            Stop::KeepFailed(_) => b": keep fault",
            Stop::NoMemory => b"no memory",
            Stop::NotWatched(_) => b": no watcher",
        }
    }
}

impl<'a> From<MemoryWanted> for Stop<'a> {
    ghost from_gives = { λ _ stop. stop ≡ NoMemory };

    fn from(_error: MemoryWanted) -> Stop<'a> {
        Stop::NoMemory
    }
}

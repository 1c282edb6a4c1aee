//! Why there is no trace, or no bytes of it.

ghost use Rattle.std.specs.Prelude.{◌≡◌};
ghost use Rattle.trace_file.specs.declared.refusal.DecodeRefusal.TheVariants as decoding;
ghost use Rattle.trace_file.specs.declared.refusal.EncodeRefusal.TheVariants as encoding;

use c_base::place::NoMemory;
use std::alloc::AllocError;
use thiserror::Error;

/// Why no bytes were made of a trace.
#[derive(Clone, Copy, Debug, PartialEq, Eq, Drop, Error)]
pub enum EncodeRefusal {
    #[error("the trace takes too many bytes")]
    TooMuch,
    #[error("memory was wanted and not found")]
    NoMemory,
}

/// Why bytes are no trace.
#[derive(Clone, Copy, Debug, PartialEq, Eq, Drop, Error)]
pub enum DecodeRefusal {
    #[error("not a trace")]
    NotATrace,
    #[error("a trace of another version")]
    Version,
    #[error("the length is not what the lists say")]
    Length,
    #[error("a list out of order, or a number out of range")]
    Order,
    #[error("the digest at the end differs")]
    Damaged,
    #[error("memory was wanted and not found")]
    NoMemory,
}

impl From<NoMemory> for DecodeRefusal {
    ghost from_gives = { λ _ e. e ≡ decoding.NoMemory };

    fn from(_e: NoMemory) -> DecodeRefusal {
        DecodeRefusal::NoMemory
    }
}

impl From<NoMemory> for EncodeRefusal {
    ghost from_gives = { λ _ e. e ≡ encoding.NoMemory };

    fn from(_e: NoMemory) -> EncodeRefusal {
        EncodeRefusal::NoMemory
    }
}

impl From<AllocError> for EncodeRefusal {
    ghost from_gives = { λ _ e. e ≡ encoding.NoMemory };

    fn from(_e: AllocError) -> EncodeRefusal {
        EncodeRefusal::NoMemory
    }
}

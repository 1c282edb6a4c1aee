//! The standard streams as sinks.

ghost use Rattle.std.specs.Prelude.{◌≡◌, List, ℕ, IsTrue, None};
ghost use Rattle.std.specs.Io.KnownBytes.{Appends};
ghost use Rattle.atac_cli.specs.Streams.{Took};

use atac_base::outside::{PutErr, Sink};
use std::io::{ErrorKind, Write};

/// Writes all the bytes, and says whether it did. A stream that takes nothing is a fault.
#[tactic(auto, using(crate::proofs::Appending::nothing_yet, crate::proofs::Appending::took_more, crate::proofs::Appending::took_no_more, crate::proofs::Appending::took_all))]
fn write_whole<W: Write>(stream: &mut W, bytes: &[u8]) -> bool
    ensures whole { IsTrue result → Appends (W.contents stream.old) (W.contents stream.new) bytes.now }
    ensures front { (rest : List ℕ) × Took (W.contents stream.old) (W.contents stream.new) bytes.now rest }
{
    let mut rest = bytes;
    for _ in 0..u64::MAX {
        if rest.is_empty() {
            return stream.flush().is_ok();
        }
        match stream.write(rest) {
            Ok(0) => return false,
            Ok(count) => rest = &rest[count..],
            Err(error) => {
                if error.kind() != ErrorKind::Interrupted {
                    return false;
                }
            }
        }
    }
    false
}

/// A standard stream. It tells nothing and takes no memory. Its count of faults begins at 0; that of wants stays 0.
#[derive(Drop)]
pub struct StreamSink<W: Write + Drop> {
    stream: W,
    faults: u64,
}

impl<W: Write + Drop> StreamSink<W> {
    /// The sink of this stream.
    pub fn new(stream: W) -> StreamSink<W>
        ensures { ⟦<StreamSink<W> as Sink>⟧.state result ≡ record { bytes = None; faults = 0; wants = 0 } }
    {
        StreamSink { stream, faults: 0 }
    }
}

impl<W: Write + Drop> Sink for StreamSink<W> {
    ghost state = { λ sink. record { bytes = None; faults = sink.faults; wants = 0 } };

    fn put(&mut self, piece: &[u8]) -> Result<(), PutErr> {
        if write_whole(&mut self.stream, piece) {
            return Ok(());
        }
        self.faults = self.faults.saturating_add(1);
        Err(PutErr::Failed)
    }
}

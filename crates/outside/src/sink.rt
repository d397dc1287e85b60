//! Writing bytes out.
ghost use Rattle.std.specs.Prelude.{◌≡◌, ℕ, List, Option, IfOk, IsOk, OnOk, OnErr, length, take};
ghost use Rattle.std.specs.Io.KnownBytes.{Appends, WriteAppends};
ghost use Rattle.outside.specs.Faults.{HasCause};
ghost use Rattle.outside.specs.Sinks.{TakesSome};

use thiserror::Error;

/// Why a piece could not be written.
#[derive(Clone, Copy, Debug, PartialEq, Eq, Error)]
pub enum SinkFault {
    /// The bytes could not be written.
    #[error("the write failed")]
    Failed,
}

/// A place to write bytes to.
pub trait Sink {
    // All that was written so far, or `None` where that is not told.
    ghost written: { Self → Option (List ℕ) };

    // The count of faults.
    ghost faults: { Self → ℕ };

    /// Writes the first bytes of a piece, and returns how many it took. A piece that is not empty
    /// loses at least one.
    fn write(&mut self, bytes: &[u8]) -> Result<usize, SinkFault>
        ensures taken { IfOk result (TakesSome bytes.now) }
        ensures empty { length bytes.now ≡ 0 → IsOk result }
        ensures bytes { WriteAppends (written self.old) (written self.new) result bytes.now }
        ensures cause { HasCause (faults self.old) (faults self.new) result };
}

/// Writes a whole text. After a fault the sink has taken the first bytes of it.
pub fn write_whole<S: Sink>(sink: &mut S, text: &[u8]) -> Result<(), SinkFault>
    ensures whole { OnOk result (Appends (S.written sink.old) (S.written sink.new) text.now) }
    ensures prefix { OnErr result ((k : ℕ) × Appends (S.written sink.old) (S.written sink.new) (take k text.now)) }
    ensures cause { HasCause (S.faults sink.old) (S.faults sink.new) result }
{
    let mut at = 0;
    while at < text.len() {
        at += sink.write(&text[at..])?;
    }
    Ok(())
}

//! The output of the system: a thin adapter, which tells its calls, and nothing of content.
ghost use Rattle.std.specs.Prelude.{◌≡◌, ◌≤◌, ◌<◌, [], length, IfSome};
ghost use Rattle.mz_io.specs.Streams.{IsTaken};

use crate::log::{Log, Note};
use crate::{Failed, Sink};
use std::io::Write;

/// A stream of the system, flushed in each call.
///
/// Each `Err` of the system is a failure, also that of the flush, and so is a piece of which nothing
/// is taken. Each is counted.
#[derive(Drop)]
pub struct StdSink<W: Write> {
    inner: W,
    faults: u64,
    log: Log,
}

impl<W: Write> StdSink<W> {
    /// The stream as a sink.
    pub fn new(inner: W) -> StdSink<W>
        ensures faults { result.faults ≡ 0 }
        ensures calls { result.log.calls ≡ [] }
    {
        StdSink {
            inner,
            faults: 0,
            log: Log::new(),
        }
    }

    /// Writes a prefix of the piece and flushes it; `None` where either fails, or nothing is taken.
    fn write_some(&mut self, piece: &[u8]) -> Option<usize>
        ensures bound { IfSome result (λ n. n ≤ length piece.now) }
        ensures some { IfSome result (λ n. 0 < length piece.now → 0 < n) }
        ensures taken { IsTaken (W.contents self.old.inner) (W.contents self.new.inner) result piece.now }
        ensures faults { self.new.faults ≡ self.old.faults }
        ensures log { self.new.log ≡ self.old.log }
    {
        let Ok(count) = self.inner.write(piece) else {
            return None;
        };
        if count == 0 && !piece.is_empty() {
            return None;
        }
        if self.inner.flush().is_err() {
            return None;
        }
        Some(count)
    }
}

impl<W: Write> Sink for StdSink<W> {
    ghost use Rattle.std.specs.Prelude.{[]};

    ghost calls = { λ sink. sink.log.calls };

    ghost told = { ⊥ };

    ghost written = { λ _. [] };

    ghost faults = { λ sink. sink.faults };

    ghost is_clear = { λ _. ⊥ };

    ghost room = { λ _. 0 };

    ghost tells = { λ told sink. absurd told };

    fn write(&mut self, piece: &[u8]) -> Result<usize, Failed> {
        match self.write_some(piece) {
            Some(count) => {
                self.log.note(&Note::Write(&piece[..count]));
                Ok(count)
            }
            None => {
                self.log.note(&Note::WriteFails(piece));
                self.faults = self.faults.saturating_add(1);
                Err(Failed)
            }
        }
    }
}

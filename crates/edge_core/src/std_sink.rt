//! A sink over a writer of std.
ghost use Rattle.std.specs.Prelude.{◌≡◌, None};
ghost use Rattle.edge_core.specs.Outside.{SinkState};

use crate::{Failed, Sink};
use std::io::Write;

/// A writer of std, such as the standard output. It tells nothing of what was written.
///
/// A write that takes none of some bytes is counted as a fault, since a caller could try forever. That the
/// bytes which were taken arrive is trusted, and only tested.
#[derive(Drop)]
pub struct StdSink<W: Write + Drop> {
    inner: W,
    faults: u64,
}

impl<W: Write + Drop> StdSink<W> {
    /// No fault is counted.
    pub fn new(inner: W) -> StdSink<W>
        ensures { (⟦<StdSink<W> as Sink>⟧.state result).faults ≡ 0 }
    {
        StdSink { inner, faults: 0 }
    }
}

impl<W: Write + Drop> Sink for StdSink<W> {
    ghost state = { λ sink. record { written = None; faults = sink.faults } };

    fn write(&mut self, piece: &[u8]) -> Result<usize, Failed> {
        if let Ok(count) = self.inner.write(piece) {
            if count > 0 || piece.is_empty() {
                return Ok(count);
            }
        }
        self.faults = self.faults.saturating_add(1);
        Err(Failed)
    }
}

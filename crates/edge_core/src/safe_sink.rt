//! A sink that never fails.
ghost use Rattle.std.specs.Prelude.{◌≡◌, None, Ok, length};
ghost use Rattle.edge_core.specs.Outside.{SinkState};

use crate::{Failed, Sink};

/// For output that nobody wants: each piece goes whole, and nothing is kept or told. No write fails.
#[derive(Drop)]
pub struct SafeSink {}

impl SafeSink {
    pub fn new() -> SafeSink
        ensures { (⟦<SafeSink as Sink>⟧.state result).faults ≡ 0 }
    {
        SafeSink {}
    }
}

impl Sink for SafeSink {
    ghost state = { λ _. record { written = None; faults = 0 } };

    fn write(&mut self, piece: &[u8]) -> Result<usize, Failed>
        ensures { result ≡ Ok (length piece.now) }
    {
        Ok(piece.len())
    }
}

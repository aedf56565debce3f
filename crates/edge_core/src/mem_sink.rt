//! A sink in memory, whose writes fail when they are told to.
ghost use Rattle.std.specs.Prelude.{◌≡◌, ◌<◌, ◌++◌, [], ◌∷◌, length, OnOk, OnErr, IfOk, IsErr, is_ok, Contains, ◌⊎◌};
ghost use Rattle.std.specs.Prelude.{if◌then◌else◌};
ghost use Rattle.std.specs.Io.KnownBytes.{WriteAppends};
ghost use Rattle.edge_core.specs.Outside.{HasCause, one_more};

use crate::{Failed, Sink};
use std::alloc::{AllocError, Global};

/// Bytes in memory. It tells them.
///
/// Its writes are counted from 1. The count stays at its last value.
#[derive(Drop)]
pub struct MemSink {
    bytes: Vec<u8>,
    // The numbers of the writes that are to fail.
    failing: Vec<u64>,
    writes: u64,
    faults: u64,
}

impl MemSink {
    ghost use Rattle.edge_core.specs.MemSink.{mem_sink_bytes, mem_sink_state, listed_writes, write_count};

    /// Nothing is written, no write is listed.
    pub fn new(alloc: Global) -> MemSink
        ensures bytes { mem_sink_bytes result ≡ [] }
        ensures faults { (mem_sink_state result).faults ≡ 0 }
        ensures listed { listed_writes result ≡ [] }
        ensures writes { write_count result ≡ 0 }
    {
        MemSink {
            bytes: Vec::new(alloc),
            failing: Vec::new(alloc),
            writes: 0,
            faults: 0,
        }
    }

    /// Makes the write of this number fail.
    pub fn fail_at(&mut self, call: u64) -> Result<(), AllocError>
        ensures listed { OnOk result (listed_writes self.new ≡ listed_writes self.old ++ call ∷ []) }
        ensures err { OnErr result (listed_writes self.new ≡ listed_writes self.old) }
        ensures state { mem_sink_state self.new ≡ mem_sink_state self.old }
        ensures writes { write_count self.new ≡ write_count self.old }
    {
        self.failing.push(call)?;
        Ok(())
    }

    /// What was written.
    pub fn bytes(&self) -> &[u8]
        ensures { result.now ≡ mem_sink_bytes self.now }
    {
        &self.bytes
    }
}

impl Sink for MemSink {
    ghost use Rattle.edge_core.specs.MemSink.{mem_sink_state, listed_writes, write_count, next_write, spare_room};

    ghost state = { mem_sink_state };

    // The clauses of the trait, and that it fails exactly when it is told to or memory runs out.
    fn write(&mut self, piece: &[u8]) -> Result<usize, Failed>
        ensures whole { IfOk result (λ n. n ≡ length piece.now) }
        ensures bytes { WriteAppends (mem_sink_state self.old).written (mem_sink_state self.new).written result
            piece.now }
        ensures cause { HasCause (mem_sink_state self.old).faults (mem_sink_state self.new).faults result }

        ensures fails { Contains (listed_writes self.old) (next_write self.old) → IsErr result }
        ensures only { OnErr result (Contains (listed_writes self.old) (next_write self.old)
            ⊎ (spare_room self.old < length piece.now)) }
        ensures faults { (mem_sink_state self.new).faults
            ≡ (if is_ok result then (mem_sink_state self.old).faults else one_more (mem_sink_state self.old).faults) }
        ensures counts { write_count self.new ≡ next_write self.old }
        ensures listed { listed_writes self.new ≡ listed_writes self.old }
    {
        self.writes = self.writes.saturating_add(1);
        if !self.failing.contains(&self.writes) && self.bytes.extend_from_slice(piece).is_ok() {
            return Ok(piece.len());
        }
        self.faults = self.faults.saturating_add(1);
        Err(Failed)
    }
}

//! A shelf in memory, whose calls fail when they are told to.
ghost use Rattle.std.specs.Prelude.{◌≡◌, ◌+◌, ◌++◌, [], ◌∷◌, None, Some, drop, OnOk, OnErr, IfOk, IsErr, is_ok};
ghost use Rattle.std.specs.Prelude.{Contains, ◌⊎◌, if◌then◌else◌, unwrap_or};
ghost use Rattle.std.specs.Result.{result_ok};
ghost use Rattle.std.specs.Io.{ReadsAtMost};
ghost use Rattle.std.specs.Io.KnownBytes.{ReadConsumes};
ghost use Rattle.edge_core.specs.Outside.{KeepsHeld, Begins, HasCause, one_more};

use crate::held::{HeldFile, copy_next_at, place_of, put_first};
use crate::name_note::{Event, NameNote};
use crate::{Failed, Shelf};
use std::alloc::{AllocError, Global};

/// Files in memory. It tells what they hold.
///
/// The calls of `open` and `read` are counted together, from 1. The count stays at its last value.
#[derive(Drop)]
pub struct MemShelf {
    alloc: Global,
    files: Vec<HeldFile>,
    // The numbers of the calls that are to fail.
    failing: Vec<u64>,
    calls: u64,
    faults: u64,
    // Of the open file: its place, and how much of it was handed out.
    place: Option<usize>,
    taken: usize,
    note: NameNote,
}

impl MemShelf {
    ghost use Rattle.edge_core.specs.MemShelf.{mem_shelf_state, listed, call_count, mem_files};
    ghost use Rattle.edge_core.specs.Held.{Holds};

    /// No file is held, no call is listed.
    pub fn new(alloc: Global) -> MemShelf
        ensures held { (name : _) → mem_files result name ≡ None }
        ensures closed { (mem_shelf_state result).opened ≡ None }
        ensures faults { (mem_shelf_state result).faults ≡ 0 }
        ensures missed { (mem_shelf_state result).missed ≡ None }
        ensures asked { (mem_shelf_state result).asked ≡ [] }
        ensures listed { listed result ≡ [] }
        ensures calls { call_count result ≡ 0 }
    {
        MemShelf {
            alloc,
            files: Vec::new(alloc),
            failing: Vec::new(alloc),
            calls: 0,
            faults: 0,
            place: None,
            taken: 0,
            note: NameNote::new(),
        }
    }

    /// Holds these bytes under this name, in place of earlier ones, and closes the open file.
    pub fn add(&mut self, name: &str, bytes: &[u8]) -> Result<(), AllocError>
        ensures held { OnOk result (Holds (mem_files self.old) (mem_files self.new) name.now bytes.now) }
        ensures closed { OnOk result ((mem_shelf_state self.new).opened ≡ None) }
        ensures faults { (mem_shelf_state self.new).faults ≡ (mem_shelf_state self.old).faults }
        ensures missed { (mem_shelf_state self.new).missed ≡ (mem_shelf_state self.old).missed }
        ensures asked { (mem_shelf_state self.new).asked ≡ (mem_shelf_state self.old).asked }
        ensures listed { listed self.new ≡ listed self.old }
        ensures calls { call_count self.new ≡ call_count self.old }
        ensures err { OnErr result (mem_shelf_state self.new ≡ mem_shelf_state self.old) }
    {
        put_first(self.alloc, &mut self.files, name, bytes)?;
        self.place = None;
        self.note = self.note.after(&Event::Closed);
        Ok(())
    }

    /// Makes the call of this number fail, of the calls of `open` and `read`.
    pub fn fail_at(&mut self, call: u64) -> Result<(), AllocError>
        ensures listed { OnOk result (listed self.new ≡ listed self.old ++ call ∷ []) }
        ensures err { OnErr result (listed self.new ≡ listed self.old) }
        ensures state { mem_shelf_state self.new ≡ mem_shelf_state self.old }
        ensures calls { call_count self.new ≡ call_count self.old }
    {
        self.failing.push(call)?;
        Ok(())
    }
}

impl Shelf for MemShelf {
    ghost use Rattle.edge_core.specs.MemShelf.{mem_shelf_state, mem_files, listed, call_count, next_call};

    ghost state = { mem_shelf_state };

    // The clauses of the trait, and that it fails exactly when it is told to or the name is not held.
    fn open(&mut self, name: &str) -> Result<(), Failed>
        ensures held { KeepsHeld (mem_shelf_state self.old) (mem_shelf_state self.new) }
        ensures opened { (mem_shelf_state self.new).opened ≡ (if is_ok result then Some name.now else None) }
        ensures asked { (mem_shelf_state self.new).asked ≡ (mem_shelf_state self.old).asked ++ name.now ∷ [] }
        ensures taken { OnOk result ((mem_shelf_state self.new).taken ≡ 0) }
        ensures content { OnOk result
            (Begins (mem_shelf_state self.old).held name.now (mem_shelf_state self.new).left) }
        ensures cause { HasCause (mem_shelf_state self.old).faults (mem_shelf_state self.new).faults result }
        ensures missed { (mem_shelf_state self.new).missed
            ≡ (if is_ok result then (mem_shelf_state self.old).missed else Some name.now) }

        ensures fails { Contains (listed self.old) (next_call self.old) → IsErr result }
        ensures absent { mem_files self.old name.now ≡ None → IsErr result }
        ensures only { OnErr result
            (Contains (listed self.old) (next_call self.old) ⊎ (mem_files self.old name.now ≡ None)) }
        ensures faults { (mem_shelf_state self.new).faults
            ≡ (if is_ok result then (mem_shelf_state self.old).faults else one_more (mem_shelf_state self.old).faults) }
        ensures counts { call_count self.new ≡ next_call self.old }
        ensures listed { listed self.new ≡ listed self.old }
    {
        self.calls = self.calls.saturating_add(1);
        if !self.failing.contains(&self.calls) {
            if let Some(place) = place_of(&self.files, name) {
                self.place = Some(place);
                self.taken = 0;
                self.note = self.note.after(&Event::Opened(name));
                return Ok(());
            }
        }
        self.place = None;
        self.faults = self.faults.saturating_add(1);
        self.note = self.note.after(&Event::NotOpened(name));
        Err(Failed)
    }

    // The clauses of the trait, and that it fails exactly when it is told to.
    fn read(&mut self, buf: &mut [u8]) -> Result<usize, Failed>
        ensures held { KeepsHeld (mem_shelf_state self.old) (mem_shelf_state self.new) }
        ensures opened { (mem_shelf_state self.new).opened ≡ (mem_shelf_state self.old).opened }
        ensures asked { (mem_shelf_state self.new).asked ≡ (mem_shelf_state self.old).asked }
        ensures bound { ReadsAtMost result buf.new }
        ensures bytes { ReadConsumes (mem_shelf_state self.old).left (mem_shelf_state self.new).left result buf.new }
        ensures taken { (mem_shelf_state self.new).taken
            ≡ (mem_shelf_state self.old).taken + unwrap_or (result_ok result) 0 }
        ensures rest { IfOk result (λ n. drop n buf.new ≡ drop n buf.old) }
        ensures cause { HasCause (mem_shelf_state self.old).faults (mem_shelf_state self.new).faults result }
        ensures missed { (mem_shelf_state self.new).missed
            ≡ (if is_ok result then (mem_shelf_state self.old).missed else (mem_shelf_state self.old).opened) }

        ensures fails { Contains (listed self.old) (next_call self.old) → IsErr result }
        ensures only { OnErr result (Contains (listed self.old) (next_call self.old)) }
        ensures faults { (mem_shelf_state self.new).faults
            ≡ (if is_ok result then (mem_shelf_state self.old).faults else one_more (mem_shelf_state self.old).faults) }
        ensures counts { call_count self.new ≡ next_call self.old }
        ensures listed { listed self.new ≡ listed self.old }
    {
        self.calls = self.calls.saturating_add(1);
        if self.failing.contains(&self.calls) {
            self.faults = self.faults.saturating_add(1);
            self.note = self.note.after(&Event::NotRead);
            return Err(Failed);
        }
        let count = copy_next_at(&self.files, self.place, self.taken, buf);
        self.taken += count;
        Ok(count)
    }
}

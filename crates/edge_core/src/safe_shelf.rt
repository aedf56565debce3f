//! A shelf in memory that never fails.
ghost use Rattle.std.specs.Prelude.{◌≡◌, [], None, OnOk, OnErr};

use crate::held::{HeldFile, copy_next_at, place_of, put_first};
use crate::name_note::{Event, NameNote};
use crate::{Failed, Shelf};
use std::alloc::{AllocError, Global};

/// Files in memory, whose calls all return Ok. It tells what they hold.
///
/// A file that it does not hold is read as an empty one. Its count of faults is 0.
#[derive(Drop)]
pub struct SafeShelf {
    alloc: Global,
    files: Vec<HeldFile>,
    // Of the open file: its place, if it is held, and how much of it was handed out.
    place: Option<usize>,
    taken: usize,
    note: NameNote,
}

impl SafeShelf {
    ghost use Rattle.edge_core.specs.SafeShelf.{safe_shelf_state, safe_files};
    ghost use Rattle.edge_core.specs.Held.{Holds};

    /// No file is held.
    pub fn new(alloc: Global) -> SafeShelf
        ensures held { (name : _) → safe_files result name ≡ None }
        ensures closed { (safe_shelf_state result).opened ≡ None }
        ensures faults { (safe_shelf_state result).faults ≡ 0 }
        ensures asked { (safe_shelf_state result).asked ≡ [] }
    {
        SafeShelf {
            alloc,
            files: Vec::new(alloc),
            place: None,
            taken: 0,
            note: NameNote::new(),
        }
    }

    /// Holds these bytes under this name, in place of earlier ones, and closes the open file.
    pub fn add(&mut self, name: &str, bytes: &[u8]) -> Result<(), AllocError>
        ensures held { OnOk result (Holds (safe_files self.old) (safe_files self.new) name.now bytes.now) }
        ensures closed { OnOk result ((safe_shelf_state self.new).opened ≡ None) }
        ensures asked { (safe_shelf_state self.new).asked ≡ (safe_shelf_state self.old).asked }
        ensures err { OnErr result (safe_shelf_state self.new ≡ safe_shelf_state self.old) }
    {
        put_first(self.alloc, &mut self.files, name, bytes)?;
        self.note = self.note.after(&Event::Closed);
        Ok(())
    }
}

impl Shelf for SafeShelf {
    ghost use Rattle.edge_core.specs.SafeShelf.{safe_shelf_state};

    ghost state = { safe_shelf_state };

    fn open(&mut self, name: &str) -> Result<(), Failed> {
        self.place = place_of(&self.files, name);
        self.taken = 0;
        self.note = self.note.after(&Event::Opened(name));
        Ok(())
    }

    fn read(&mut self, buf: &mut [u8]) -> Result<usize, Failed> {
        let count = copy_next_at(&self.files, self.place, self.taken, buf);
        self.taken += count;
        Ok(count)
    }
}

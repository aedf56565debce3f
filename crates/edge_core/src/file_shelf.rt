//! A shelf over the files of the system.
ghost use Rattle.std.specs.Prelude.{◌≡◌, [], None, true, if◌then◌else◌, is_some};
ghost use Rattle.edge_core.specs.Outside.{ShelfState};

use crate::name_note::{Event, NameNote};
use crate::{Failed, Shelf};
use std::fs;
use std::io::Read;
use std::rt::Files;

/// The most bytes that one read asks the system for.
const PIECE: usize = 65_536;

/// The files that std opens by their paths. It tells nothing of what they hold.
///
/// Trusted, and only tested: that the file of the name is the one that is opened, and that its bytes are
/// those that are handed out. Its state says of names what its own calls note.
#[derive(Drop)]
pub struct FileShelf<'a, R: Files> {
    rt: &'a R,
    file: Option<R::File>,
    /// Where the system puts bytes, since std says nothing of the rest of a buffer that it reads into.
    piece: [u8; PIECE],
    taken: u64,
    faults: u64,
    note: NameNote,
}

impl<'a, R: Files> FileShelf<'a, R> {
    /// No file is open.
    pub fn new(rt: &'a R) -> FileShelf<'a, R>
        ensures closed { (⟦<FileShelf<'a, R> as Shelf>⟧.state result).opened ≡ None }
        ensures faults { (⟦<FileShelf<'a, R> as Shelf>⟧.state result).faults ≡ 0 }
        ensures missed { (⟦<FileShelf<'a, R> as Shelf>⟧.state result).missed ≡ None }
        ensures asked { (⟦<FileShelf<'a, R> as Shelf>⟧.state result).asked ≡ [] }
    {
        FileShelf {
            rt,
            file: None,
            piece: [0; PIECE],
            taken: 0,
            faults: 0,
            note: NameNote::new(),
        }
    }
}

impl<R: Files> Shelf for FileShelf<'_, R> {
    ghost state = { λ shelf. record {
      held = None;
      may_open = λ _. true;
      opened = if is_some shelf.file then shelf.note.names.opened else None;
      left = None;
      taken = shelf.taken;
      faults = shelf.faults;
      missed = shelf.note.names.missed;
      asked = shelf.note.names.asked;
    } };

    fn open(&mut self, name: &str) -> Result<(), Failed> {
        match fs::open(self.rt, name) {
            Ok(file) => {
                self.file = Some(file);
                self.taken = 0;
                self.note = self.note.after(&Event::Opened(name));
                Ok(())
            }
            Err(_) => {
                self.file = None;
                self.faults = self.faults.saturating_add(1);
                self.note = self.note.after(&Event::NotOpened(name));
                Err(Failed)
            }
        }
    }

    fn read(&mut self, buf: &mut [u8]) -> Result<usize, Failed> {
        let room = buf.len().min(PIECE);
        let piece = &mut self.piece[..];
        if let Some(file) = &mut self.file {
            if let Ok(count) = file.read(&mut piece[..room]) {
                buf[..count].copy_from_slice(&piece[..count]);
                self.taken += count as u64;
                return Ok(count);
            }
        }
        self.faults = self.faults.saturating_add(1);
        self.note = self.note.after(&Event::NotRead);
        Err(Failed)
    }
}

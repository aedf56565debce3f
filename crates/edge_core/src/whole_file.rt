//! Reads a whole file.
ghost use Rattle.std.specs.Prelude.{◌≡◌, ◌++◌, [], ◌∷◌, ◌<◌, ◌≤◌, Some, IsSome, IsTrue, IfOk, OnOk, IsErrOf, vec_len};
ghost use Rattle.std.specs.Option.{ForSome};
ghost use Rattle.edge_core.specs.Outside.{KeepsHeld, Rose, bytes_of};
ghost use Rattle.edge_core.specs.Load.{LoadsAs, IsOpenAt};
ghost use Rattle.edge_core.specs.declared.whole_file.LoadFault.TheVariants.{Read, NoMemory};

use crate::{Failed, Shelf};
use std::alloc::{AllocError, Global};
use thiserror::Error;

/// The most bytes that a file may have: 64 MiB.
pub const MOST_BYTES: usize = 67_108_864;

/// How many bytes one read asks for: a power of two, as are the sizes of the growing vector. So a file of
/// `MOST_BYTES` leaves no spare room.
const PIECE: usize = 65_536;

/// Why a file was not loaded.
#[derive(Clone, Copy, Debug, PartialEq, Eq, Error)]
pub enum LoadFault {
    /// The shelf failed to open the file or to read it.
    #[error("cannot be read")]
    Read,
    /// The file has more than `MOST_BYTES` bytes.
    #[error("more than 67108864 bytes")]
    TooLong,
    /// Memory ran out.
    #[error("out of memory")]
    NoMemory,
}

impl From<Failed> for LoadFault {
    ghost from_gives = { λ _ fault. fault ≡ Read };

    fn from(_failed: Failed) -> LoadFault {
        LoadFault::Read
    }
}

impl From<AllocError> for LoadFault {
    ghost from_gives = { λ _ fault. fault ≡ NoMemory };

    fn from(_error: AllocError) -> LoadFault {
        LoadFault::NoMemory
    }
}

/// Reads a whole file: to the first read that gives no byte.
///
/// TooLong comes once more than [`MOST_BYTES`] were taken; the file then stays open, and its rest is unread.
/// The vector grows by doubling, so at most half of its memory stays unused.
#[tactic(auto, using(crate::proofs::SoFar::so_far_none, crate::proofs::SoFar::so_far_more, crate::proofs::SoFar::so_far_all, crate::proofs::SoFar::so_far_no_longer))]
pub fn load<S: Shelf>(alloc: Global, shelf: &mut S, name: &str) -> Result<Vec<u8>, LoadFault>
    requires { IsTrue ((S.state shelf.old).may_open name.now) }
    ensures held { KeepsHeld (S.state shelf.old) (S.state shelf.new) }
    ensures asked { (S.state shelf.new).asked ≡ (S.state shelf.old).asked ++ name.now ∷ [] }
    ensures later { (S.state shelf.old).faults ≤ (S.state shelf.new).faults }

    // If the shelf tells what it holds.
    ensures content { ForSome (S.state shelf.old).held (λ files. LoadsAs (bytes_of files name.now) result) }

    // On every shelf.
    ensures short { IfOk result (λ bytes. vec_len bytes ≤ 67108864) }
    ensures taken { IfOk result (λ bytes. (S.state shelf.new).taken ≡ vec_len bytes) }
    ensures opened { OnOk result ((S.state shelf.new).opened ≡ Some name.now) }
    ensures too_long { IsErrOf result LoadFault.TooLong → 67108864 < (S.state shelf.new).taken }
    ensures too_long_name { IsErrOf result LoadFault.TooLong → (S.state shelf.new).opened ≡ Some name.now }
    ensures read { IsErrOf result LoadFault.Read → Rose (S.state shelf.old).faults (S.state shelf.new).faults }
    ensures missed { IsErrOf result LoadFault.Read → (S.state shelf.new).missed ≡ Some name.now }

    // Whatever is returned, a file that is open then is the one of the name, and its rest comes after what was taken.
    ensures left { IsSome (S.state shelf.new).opened → IsOpenAt (S.state shelf.old).held name.now (S.state shelf.new) }
{
    shelf.open(name)?;
    let mut bytes = Vec::new(alloc);
    let mut piece = [0u8; PIECE];
    loop {
        let count = shelf.read(&mut piece)?;
        if count == 0 {
            return Ok(bytes);
        }
        if count > MOST_BYTES - bytes.len() {
            return Err(LoadFault::TooLong);
        }
        bytes.extend_from_slice(&piece[..count])?;
    }
}

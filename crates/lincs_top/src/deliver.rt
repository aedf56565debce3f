//! Writes the output of a command.
ghost use Rattle.std.specs.Prelude.{false, ℕ, List};
ghost use Rattle.edge_core.specs.Outside.{SinkState, Sends};
ghost use Rattle.lincs_top.specs.Deliver.{Concludes, MakesText};
ghost use Rattle.lincs_top.specs.End.{gave};

use crate::stop::{Stop, Verdict};
use edge_core::{Failed, Sink, put_all};
use std::alloc::AllocError;

/// Returns what a command comes to once its output was sent: its verdict, or that the output failed.
pub fn concluded<'a>(sent: Result<(), Failed>, verdict: Verdict) -> Result<Verdict, Stop<'a>>
    ensures { (old new : SinkState) (text : List ℕ) → Sends old new text sent
        → Concludes false (gave verdict) text old new result }
{
    match sent {
        Ok(()) => Ok(verdict),
        Err(Failed) => Err(Stop::Unwritten),
    }
}

/// Writes the whole output of a command, and returns its verdict.
pub fn write_out<'a, O: Sink>(
    out: &mut O,
    text: &[u8],
    verdict: Verdict,
) -> Result<Verdict, Stop<'a>>
    ensures { Concludes false (gave verdict) text.now (O.state out.old) (O.state out.new) result }
{
    concluded(put_all(out, text), verdict)
}

/// Writes the whole output of a command, and returns its verdict. Nothing is written if there was no
/// memory for the text.
pub fn deliver<'a, O: Sink>(
    out: &mut O,
    text: Result<Vec<u8>, AllocError>,
    verdict: Verdict,
) -> Result<Verdict, Stop<'a>>
    ensures { (bytes : List ℕ) → MakesText bytes text
        → Concludes false (gave verdict) bytes (O.state out.old) (O.state out.new) result }
{
    let Ok(text) = text else {
        return Err(Stop::NoMemory);
    };
    write_out(out, &text, verdict)
}

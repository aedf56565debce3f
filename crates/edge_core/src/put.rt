//! Writes all of a text to a sink.
ghost use Rattle.std.specs.Prelude.{◌≡◌, []};
ghost use Rattle.edge_core.specs.Outside.{Sends};

use crate::{Failed, Sink};

/// Writes all the bytes. It takes no memory, and an empty text makes no write.
///
/// At `Failed` a part of the bytes went out.
#[tactic(auto, using(crate::proofs::Sent::sent_none, crate::proofs::Sent::sent_more, crate::proofs::Sent::sent_kept, crate::proofs::Sent::sent_part, crate::proofs::Sent::sent_all))]
pub fn put_all<O: Sink>(sink: &mut O, bytes: &[u8]) -> Result<(), Failed>
    ensures sends { Sends (O.state sink.old) (O.state sink.new) bytes.now result }
    ensures silent { bytes.now ≡ [] → O.state sink.new ≡ O.state sink.old }
{
    let mut rest = bytes;
    while !rest.is_empty() {
        let count = sink.write(rest)?;
        rest = &rest[count..];
    }
    Ok(())
}

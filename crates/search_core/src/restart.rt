//! Restarts: from time to time the trail goes back to level 0. Lemmas, activities and signs are kept.
ghost use Rattle.watch_core.specs.Places.{placed};
ghost use Rattle.watch_core.specs.Trail.{IsTrail};
ghost use Rattle.watch_core.specs.Rest.{IsAtRest};
ghost use Rattle.search_core.specs.State.{place, GoesOn};

use crate::activity::Activity;
use crate::backjump::backjump;
use crate::inner_literal::InnerLiteral;
use watch_core::Watched;

/// The number of conflicts that one unit of the sequence stands for.
const UNIT: u64 = 250;

/// Counts conflicts down to the next restart, along the sequence of Luby, Sinclair and Zuckerman (1993): 1, 1, 2, 1,
/// 1, 2, 4, ..
#[derive(Clone, Copy)]
pub(crate) struct Restarts {
    left: u64,
    run: u64,
    term: u64,
}

impl Restarts {
    /// The start of the sequence.
    pub(crate) fn new() -> Restarts {
        Restarts {
            left: UNIT,
            run: 1,
            term: 1,
        }
    }

    /// Counts one more conflict, and tells whether a restart is due.
    pub(crate) fn is_due(&mut self) -> bool {
        if self.left > 0 {
            self.left -= 1;
            return false;
        }
        if self.run & self.run.wrapping_neg() == self.term {
            self.run = self.run.wrapping_add(1);
            self.term = 1;
        } else {
            self.term = self.term.wrapping_mul(2);
        }
        self.left = self.term.wrapping_mul(UNIT);
        true
    }
}

/// Goes back to level 0, if the trail is above it.
pub(crate) fn restart(watched: &mut Watched<InnerLiteral>, activity: &mut Activity)
    requires rest { IsAtRest place watched.old.trail (placed place watched.old.clauses) }
    ensures rest { IsAtRest place watched.new.trail (placed place watched.new.clauses) }
    ensures kept { IsTrail place watched.new.trail }
    ensures goes { GoesOn watched.old.clauses watched.old.trail watched.new.clauses watched.new.trail }
{
    if watched.trail().level() == 0 {
        return;
    }
    backjump(watched, 0, activity);
}

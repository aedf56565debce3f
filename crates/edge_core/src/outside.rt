//! What the outside means: by a shelf's state and a sink's state, which only clauses read.
ghost use Rattle.std.specs.Prelude.{◌≡◌, ◌+◌, ◌^◌, ◌<◌, ◌++◌, [], ◌∷◌, None, Some, length, drop, IsTrue, IsSome, IfOk};
ghost use Rattle.std.specs.Prelude.{OnOk, is_ok, if◌then◌else◌, unwrap_or};
ghost use Rattle.std.specs.Result.{result_ok};
ghost use Rattle.std.specs.Io.{ReadsAtMost, WritesAtMost};
ghost use Rattle.std.specs.Io.KnownBytes.{ReadConsumes, WriteAppends};
ghost use Rattle.edge_core.specs.Outside.{ShelfState, SinkState, KeepsHeld, Begins, HasCause};

/// A call of the outside that failed. The object's count of faults says that it did.
#[derive(Clone, Copy, Debug, PartialEq, Eq)]
pub struct Failed;

/// Files by name, of which at most one is open.
pub trait Shelf {
    ghost state: { Self → ShelfState };

    /// Opens the file of this name in place of the one that was open. At `Failed` no file is open.
    fn open(&mut self, name: &str) -> Result<(), Failed>
        requires { IsTrue ((state self.old).may_open name.now) }
        ensures held { KeepsHeld (state self.old) (state self.new) }
        ensures opened { (state self.new).opened ≡ (if is_ok result then Some name.now else None) }
        ensures asked { (state self.new).asked ≡ (state self.old).asked ++ name.now ∷ [] }

        // The whole file is left.
        ensures taken { OnOk result ((state self.new).taken ≡ 0) }
        ensures content { OnOk result (Begins (state self.old).held name.now (state self.new).left) }

        ensures cause { HasCause (state self.old).faults (state self.new).faults result }
        ensures missed { (state self.new).missed ≡ (if is_ok result then (state self.old).missed else Some name.now) };

    /// Copies the next bytes of the open file to the front of `buf`, and says how many.
    /// None for a buffer that isn't empty means the end. At `Failed` nothing was taken.
    fn read(&mut self, buf: &mut [u8]) -> Result<usize, Failed>
        requires open_file { IsSome (state self.old).opened }
        requires room { (state self.old).taken + length buf.old < 2 ^ 64 }
        ensures held { KeepsHeld (state self.old) (state self.new) }
        ensures opened { (state self.new).opened ≡ (state self.old).opened }
        ensures asked { (state self.new).asked ≡ (state self.old).asked }

        ensures bound { ReadsAtMost result buf.new }
        ensures bytes { ReadConsumes (state self.old).left (state self.new).left result buf.new }
        ensures taken { (state self.new).taken ≡ (state self.old).taken + unwrap_or (result_ok result) 0 }
        ensures rest { IfOk result (λ n. drop n buf.new ≡ drop n buf.old) }

        ensures cause { HasCause (state self.old).faults (state self.new).faults result }
        ensures missed { (state self.new).missed
            ≡ (if is_ok result then (state self.old).missed else (state self.old).opened) };
}

/// A place that bytes go out to.
pub trait Sink {
    ghost state: { Self → SinkState };

    /// Writes the first bytes of the piece, and says how many: at least one of a piece that isn't empty.
    /// At `Failed` nothing of the piece went out.
    fn write(&mut self, piece: &[u8]) -> Result<usize, Failed>
        ensures bound { WritesAtMost result piece.now }
        ensures moves { IfOk result (λ n. 0 < length piece.now → 0 < n) }
        ensures bytes { WriteAppends (state self.old).written (state self.new).written result piece.now }
        ensures cause { HasCause (state self.old).faults (state self.new).faults result };
}

//! Where bytes go.
ghost use Rattle.std.specs.Prelude.{ℕ, ◌<◌, ◌≤◌, List, length, take, Option, IfOk, OnErr};
ghost use Rattle.std.specs.Io.KnownBytes.{Appends, Keeps};
ghost use Rattle.dd_io.specs.Causes.{Rose};

use crate::Failed;

/// A device that takes bytes, piece by piece.
pub trait Sink {
    /// The bytes that the sink holds, where it tells them.
    ghost held: { Self → Option (List ℕ) };

    /// How often the sink failed.
    ghost faults: { Self → ℕ };

    /// Appends the first bytes of a piece, and says how many: of a nonempty piece at least one.
    fn write(&mut self, b: &[u8]) -> Result<usize, Failed>
        ensures bound { IfOk result (λ n. n ≤ length b.now) }
        ensures some { IfOk result (λ n. 0 < length b.now → 0 < n) }
        ensures appends { IfOk result (λ n. Appends (held self.old) (held self.new) (take n b.now)) }

        // A failed write takes no byte, and the count says that it failed.
        ensures failed_keeps { OnErr result (Keeps (held self.old) (held self.new)) }
        ensures failed { OnErr result (Rose (faults self.old) (faults self.new)) }
        ensures later { faults self.old ≤ faults self.new };
}

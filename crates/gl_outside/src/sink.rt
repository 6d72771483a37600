//! What takes bytes.

ghost use Rattle.std.specs.Prelude.{◌≡◌, ℕ, ◌≤◌, List, Option, OnOk, OnErr};
ghost use Rattle.gl_outside.specs.Outside.{HasRisen, Appends, AppendsFront};

use thiserror::Error;

/// A sink did not take all the bytes.
#[derive(Clone, Copy, Debug, PartialEq, Eq, Error)]
#[error("the output could not be written")]
pub struct SinkFailed;

/// What takes bytes, as the standard output.
pub trait Sink {
    /// All bytes that it has taken, which a sink may leave untold.
    ghost written: { Self → Option (List ℕ) };

    /// How many calls have failed. At 2^64 - 1 the count stays.
    ghost faults: { Self → ℕ };

    /// Takes the bytes. It takes no memory.
    fn put(&mut self, bytes: &[u8]) -> Result<(), SinkFailed>
        ensures ok { OnOk result (Appends (written self.old) bytes.now (written self.new)) }
        ensures no_fault { OnOk result (faults self.new ≡ faults self.old) }

        // After a failure it has taken a front of the bytes.
        ensures err { OnErr result (AppendsFront (written self.old) bytes.now (written self.new)) }
        ensures failed { OnErr result (HasRisen (faults self.old) (faults self.new)) }
        ensures count { faults self.old ≤ faults self.new };
}

ghost use Rattle.std.specs.Prelude.{◌≡◌, ℕ, ◌≤◌, List, Option, IfErr, OnOk, OnErr, IsErrOf};
ghost use Rattle.rho_outside.specs.Causes.{KeepCause};
ghost use Rattle.rho_outside.specs.Put.{GrewBy, GrewByPart};

use crate::fault::KeepFault;
use std::alloc::Global;

/// An output to which bytes are appended.
///
/// A call may raise the count of failures and never lowers it; the count stands still at the greatest `u64`.
pub trait Sink {
    /// The bytes that were put, where the sink tells them.
    ghost written: { Self → Option (List ℕ) };

    /// How often a put has failed.
    ghost faults: { Self → ℕ };

    /// Appends all of the bytes.
    ///
    /// `Failed` comes only where the count of failures rose; a prefix of the bytes, maybe none, was appended then.
    /// `NoMemory` is want of memory, and nothing was appended.
    fn put(&mut self, alloc: Global, bytes: &[u8]) -> Result<(), KeepFault>
        ensures put { OnOk result (GrewBy bytes.now (written self.old) (written self.new)) }
        ensures part { OnErr result (GrewByPart bytes.now (written self.old) (written self.new)) }
        ensures no_memory { IsErrOf result KeepFault.NoMemory → written self.new ≡ written self.old }
        ensures faults { faults self.old ≤ faults self.new }
        ensures cause { IfErr result (KeepCause (faults self.old) (faults self.new)) };
}

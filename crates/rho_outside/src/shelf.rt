ghost use Rattle.std.specs.Prelude.{◌≡◌, ℕ, ◌≤◌, Option, option_map, length, IfOk, IfErr, OnOk, OnErr, IsErrOf};
ghost use Rattle.rho_outside.specs.FileMap.{FileMap, with_file, Gives, SameBut};
ghost use Rattle.rho_outside.specs.Causes.{FetchCause, KeepCause};

use crate::fault::{FetchFault, KeepFault};
use std::alloc::Global;

/// A place of named files.
///
/// Each call may raise its own count of failures and never lowers one; a count stands still at the greatest `u64`.
/// A shelf that tells no contents, as one over real files, is held to its counts and limits alone.
pub trait Shelf {
    /// What each name holds, where the shelf tells it.
    ghost files: { Self → Option FileMap };

    /// How often a fetch has failed.
    ghost fetch_faults: { Self → ℕ };

    /// How often a keep has failed.
    ghost keep_faults: { Self → ℕ };

    /// Gives the bytes of the named file, of which there may be at most `max`, and changes no file.
    ///
    /// `Failed` comes only where the count of failed fetches rose, `Missing` only where it rose or the told files
    /// lack the name. `TooLarge` comes only with `seen` above `max`, where the file has at least `seen` bytes.
    /// `NoMemory` is want of memory.
    fn fetch(&mut self, alloc: Global, name: &str, max: u64) -> Result<Vec<u8>, FetchFault>
        ensures unchanged { files self.new ≡ files self.old }
        ensures fetch_faults { fetch_faults self.old ≤ fetch_faults self.new }
        ensures keep_faults { keep_faults self.new ≡ keep_faults self.old }
        ensures within { IfOk result (λ bytes. length bytes.items ≤ max) }
        ensures given { IfOk result (λ bytes. Gives (files self.old) name.now bytes.items) }
        ensures cause { IfErr result (FetchCause (files self.old) name.now max (fetch_faults self.old) (fetch_faults self.new)) };

    /// Gives the named file these bytes in place of those that it had, and leaves every other file as it is.
    ///
    /// `Failed` comes only where the count of failed keeps rose; nothing is said of the named file then.
    /// `NoMemory` is want of memory, and leaves all files as they are.
    fn keep(&mut self, alloc: Global, name: &str, bytes: &[u8]) -> Result<(), KeepFault>
        ensures kept { OnOk result (files self.new ≡ option_map (with_file name.now bytes.now) (files self.old)) }
        ensures others { OnErr result (SameBut name.now (files self.old) (files self.new)) }
        ensures no_memory { IsErrOf result KeepFault.NoMemory → files self.new ≡ files self.old }
        ensures keep_faults { keep_faults self.old ≤ keep_faults self.new }
        ensures fetch_faults { fetch_faults self.new ≡ fetch_faults self.old }
        ensures cause { IfErr result (KeepCause (keep_faults self.old) (keep_faults self.new)) };
}

//! Files that are read whole.
ghost use Rattle.std.specs.Prelude.{◌≡◌, ◌≤◌, ℕ, List, Option, Some, length, IfOk, IfSome};
ghost use Rattle.dv_outside.specs.Causes.{Rose};
ghost use Rattle.dv_outside.specs.Shelf.{IsLongerThan};

use std::alloc::Global;
use thiserror::Error;

/// Why a file isn't given.
#[derive(Clone, Copy, Debug, PartialEq, Eq, Error)]
pub enum ShelfRefusal {
    /// The file can't be read. A file that is missing is such a fault.
    #[error("the file can't be read")]
    Failed,
    /// The file is longer than the limit.
    #[error("the file is too long")]
    TooLong,
    /// Want of memory.
    #[error("there is not enough memory for the file")]
    Memory,
}

/// A place where files are found by their names.
pub trait Shelf {
    /// The octets of each file by its name, where the shelf tells them. A name that isn't there has none.
    ghost files: { Self → Option (List ℕ → Option (List ℕ)) };

    /// The count of faults.
    ghost faults: { Self → ℕ };

    /// The octets of the file of this name, at most `limit` of them.
    ///
    /// Where the shelf tells its files, `TooLong` says that the file is longer than the limit, and for a longer file
    /// there is no `Ok`, by `short` and `octets`. So but for a fault and for want of memory a file gives `TooLong`
    /// exactly where it is longer than the limit.
    fn read(&mut self, alloc: Global, name: &str, limit: u64) -> Result<Vec<u8>, ShelfRefusal>
        ensures short { IfOk result (λ octets. length octets.items ≤ limit) }
        ensures octets { IfSome (files self.old) (λ file. IfOk result (λ octets. file name.now ≡ Some octets.items)) }
        ensures too_long { IfSome (files self.old) (λ file. result ≡ Err ShelfRefusal.TooLong → IsLongerThan limit (file name.now)) }
        ensures files { files self.new ≡ files self.old }
        ensures later { faults self.old ≤ faults self.new }
        ensures failed { result ≡ Err ShelfRefusal.Failed → Rose (faults self.old) (faults self.new) };
}

// Why modules cannot be put in order.

ghost use Rattle.std.specs.Prelude.{◌≡◌};

use pts_module_file::FileWhy;
use pts_names::Name;
use std::alloc::{AllocError, AllocFailed};

/// Why modules cannot be put in order.
#[derive(Debug, Drop)]
pub enum OrderFault {
    /// The shelf has no file of a module with this name.
    NoModule(Name),
    /// The line with this number is the first that breaks the format of its file, and why.
    BadFile(usize, FileWhy),
    /// This module is met while its own uses are gone through.
    CycleOfUses(Name),
    /// Out of memory.
    Memory,
}

impl From<AllocError> for OrderFault {
    ghost use Rattle.pts_modules.specs.declared.fault.OrderFault.{OrderFault};

    ghost from_gives = { λ _ e. e ≡ OrderFault.Memory };

    fn from(_: AllocError) -> OrderFault {
        OrderFault::Memory
    }
}

impl<T: Drop> From<AllocFailed<T>> for OrderFault {
    ghost use Rattle.pts_modules.specs.declared.fault.OrderFault.{OrderFault};

    ghost from_gives = { λ _ e. e ≡ OrderFault.Memory };

    fn from(_: AllocFailed<T>) -> OrderFault {
        OrderFault::Memory
    }
}

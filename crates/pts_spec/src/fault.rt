ghost use Rattle.std.specs.Prelude.{◌≡◌};

use pts_ctx::SystemFault;
use pts_names::Text;
use std::alloc::{AllocError, AllocFailed};
use std::fmt;
use std::fmt::{Display, Formatter};

/// Why bytes are no specification of a system, in the order in which it is asked.
#[derive(Debug, Drop)]
pub enum SpecFault {
    /// The bytes aren't UTF-8, or the text is no document of TOML.
    NotToml,
    /// This key is the first of `sorts`, `axioms` and `rules` that is missing or holds something else than it should;
    /// or these three are right, and it is the least other key of the document.
    Shape(Text),
    /// The lists that are written are no system. The fault is never that memory ran out.
    System(SystemFault),
    /// There was no memory for the system.
    Memory,
}

impl From<AllocError> for SpecFault {
    ghost use Rattle.pts_spec.specs.declared.fault.SpecFault.{SpecFault};

    ghost from_gives = { λ _ fault. fault ≡ SpecFault.Memory };

    fn from(_error: AllocError) -> SpecFault {
        SpecFault::Memory
    }
}

impl Display for SpecFault {
    ghost use Rattle.std.specs.Prelude.{Some};
    ghost use Rattle.pts_spec.specs.FaultText.{specification_text};

    ghost output = { λ e. Some (specification_text e) };

    fn fmt<W: fmt::Write>(&self, f: &mut Formatter<W>) -> fmt::Result {
        match self {
            SpecFault::NotToml => f.write_str("NotToml"),
            SpecFault::Shape(key) => {
                f.write_str("Shape ")?;
                f.write_str(key.text())
            }
            SpecFault::System(fault) => write!(f, "{fault}"),
            SpecFault::Memory => f.write_str("Memory"),
        }
    }
}

/// Why a value of a document is not read.
#[derive(Debug, Drop)]
pub(crate) enum KeyFault {
    /// It has another shape than is asked for.
    Shape,
    /// There was no memory for what is read.
    Memory,
}

impl From<AllocError> for KeyFault {
    ghost use Rattle.pts_spec.specs.declared.fault.KeyFault.{KeyFault};

    ghost from_gives = { λ _ misfit. misfit ≡ KeyFault.Memory };

    fn from(_error: AllocError) -> KeyFault {
        KeyFault::Memory
    }
}

impl<T: Drop> From<AllocFailed<T>> for KeyFault {
    ghost use Rattle.pts_spec.specs.declared.fault.KeyFault.{KeyFault};

    ghost from_gives = { λ _ misfit. misfit ≡ KeyFault.Memory };

    fn from(_error: AllocFailed<T>) -> KeyFault {
        KeyFault::Memory
    }
}

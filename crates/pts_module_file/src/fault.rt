ghost use Rattle.std.specs.Prelude.{◌≡◌};

use pts_parser::ReadFault;
use std::alloc::{AllocError, AllocFailed};
use std::fmt;
use std::fmt::{Display, Formatter};

/// Why a line breaks the format of module files.
#[derive(Debug, Drop)]
pub enum FileWhy {
    /// It is none of the lines that may stand there, or has a name that is no plain name of at most 63 bytes.
    Form,
    /// It begins with the word of a parameter or a declaration that may stand there, and is refused so.
    Read(ReadFault),
}

impl Display for FileWhy {
    ghost use Rattle.std.specs.Prelude.{Some};
    ghost use Rattle.pts_module_file.specs.FaultText.{file_why_text};

    ghost output = { λ w. Some (file_why_text w) };

    fn fmt<W: fmt::Write>(&self, f: &mut Formatter<W>) -> fmt::Result {
        match self {
            FileWhy::Form => f.write_str("Form"),
            FileWhy::Read(fault) => write!(f, "{fault}"),
        }
    }
}

/// Why bytes are no module file.
#[derive(Debug, Drop)]
pub enum FileFault {
    /// The line with this number is the first that breaks the format, and why. Lines are counted from 1, and one past the
    /// last is named where the line `end` is missing.
    BadFile(usize, FileWhy),
    /// There was no memory for the module.
    Memory,
}

/// Why a line is refused.
#[derive(Debug, Drop)]
pub(crate) enum FileLineFault {
    Because(FileWhy),
    Memory,
}

impl From<AllocError> for FileLineFault {
    ghost use Rattle.pts_module_file.specs.declared.fault.FileLineFault.{FileLineFault};

    ghost from_gives = { λ _ fault. fault ≡ FileLineFault.Memory };

    fn from(_: AllocError) -> FileLineFault {
        FileLineFault::Memory
    }
}

impl From<AllocError> for FileFault {
    ghost use Rattle.pts_module_file.specs.declared.fault.FileFault.{FileFault};

    ghost from_gives = { λ _ fault. fault ≡ FileFault.Memory };

    fn from(_: AllocError) -> FileFault {
        FileFault::Memory
    }
}

impl<T: Drop> From<AllocFailed<T>> for FileFault {
    ghost use Rattle.pts_module_file.specs.declared.fault.FileFault.{FileFault};

    ghost from_gives = { λ _ fault. fault ≡ FileFault.Memory };

    fn from(_: AllocFailed<T>) -> FileFault {
        FileFault::Memory
    }
}

ghost use Rattle.std.specs.Prelude.{◌≡◌};

use std::alloc::AllocError;

/// Why a text is no name. A place is the number of bytes before it.
#[derive(Debug, Drop, PartialEq, Eq)]
pub enum NameFault {
    /// The text is empty.
    Empty,
    /// No identifier begins at this place, at which a part begins.
    BadStart(usize),
    /// The character at this place does not go on with the identifier before it.
    BadPart(usize),
    /// The text has this many bytes, which is more than 128.
    TooLong(usize),
    /// There was no memory for the name.
    Memory,
}

impl From<AllocError> for NameFault {
    ghost use Rattle.pts_names.specs.declared.fault.NameFault.{NameFault};

    ghost from_gives = { λ _ fault. fault ≡ NameFault.Memory };

    fn from(_error: AllocError) -> NameFault {
        NameFault::Memory
    }
}

/// Why a text is no spelling of a sort.
#[derive(Debug, Drop, PartialEq, Eq)]
pub enum SortNameFault {
    /// The text is neither `*` nor `#` nor `'` and one identifier.
    BadSpelling,
    /// There was no memory for the spelling.
    Memory,
}

impl From<AllocError> for SortNameFault {
    ghost use Rattle.pts_names.specs.declared.fault.SortNameFault.{SortNameFault};

    ghost from_gives = { λ _ fault. fault ≡ SortNameFault.Memory };

    fn from(_error: AllocError) -> SortNameFault {
        SortNameFault::Memory
    }
}

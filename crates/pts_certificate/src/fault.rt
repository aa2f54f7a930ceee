ghost use Rattle.std.specs.Prelude.{◌≡◌};

use pts_ctx::SystemFault;
use std::alloc::{AllocError, AllocFailed};
use std::fmt;
use std::fmt::{Display, Formatter};

/// Why a text is no certificate. Lines are counted from 1.
#[derive(Debug, Drop)]
pub enum CertificateFault {
    /// The line has no form that may stand in its place.
    BadLine(usize),
    /// A number of the line has a leading zero, is 2^32 or more, or leads to no earlier line.
    BadNumber(usize),
    /// The term of the line is not within limits.
    TooLarge(usize),
    /// The text ends before a line `end`.
    Truncated,
    /// The lists of sorts, axioms and rules are no system.
    System(SystemFault),
    /// There was no memory for the certificate.
    Memory,
}

impl Display for CertificateFault {
    ghost use Rattle.std.specs.Prelude.{Some};
    ghost use Rattle.pts_certificate.specs.FaultText.{certificate_text};

    ghost output = { λ e. Some (certificate_text e) };

    fn fmt<W: fmt::Write>(&self, f: &mut Formatter<W>) -> fmt::Result {
        match self {
            CertificateFault::BadLine(line) => write!(f, "BadLine {line}"),
            CertificateFault::BadNumber(line) => write!(f, "BadNumber {line}"),
            CertificateFault::TooLarge(line) => write!(f, "TooLarge {line}"),
            CertificateFault::Truncated => f.write_str("Truncated"),
            CertificateFault::System(fault) => write!(f, "{fault}"),
            CertificateFault::Memory => f.write_str("Memory"),
        }
    }
}

/// Why a line is refused.
#[derive(Debug, Drop)]
pub(crate) enum LineFault {
    /// It has no form that may stand in its place.
    BadLine,
    /// A number has a leading zero, is 2^32 or more, or leads to no earlier line.
    BadNumber,
    /// Its term is not within limits.
    TooLarge,
    /// It comes after lists that are no system.
    System(SystemFault),
    /// There was no memory for it.
    Memory,
}

impl From<AllocError> for LineFault {
    ghost use Rattle.pts_certificate.specs.declared.fault.LineFault.{LineFault};

    ghost from_gives = { λ _ refusal. refusal ≡ LineFault.Memory };

    fn from(_: AllocError) -> LineFault {
        LineFault::Memory
    }
}

impl<T: Drop> From<AllocFailed<T>> for LineFault {
    ghost use Rattle.pts_certificate.specs.declared.fault.LineFault.{LineFault};

    ghost from_gives = { λ _ refusal. refusal ≡ LineFault.Memory };

    fn from(_: AllocFailed<T>) -> LineFault {
        LineFault::Memory
    }
}

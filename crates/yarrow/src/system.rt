// The system that a command works in, and the end of a run that has none.

ghost use Rattle.std.specs.Prelude.{◌≡◌, [], Ok, IfOk, IfErr, string_bytes};
ghost use Rattle.pts_spec.specs.SpecFile.{system_of};
ghost use Rattle.yarrow.specs.Runs.{Writes};
ghost use Rattle.yarrow.specs.Systems.{IsRead, IsReady, IsUnready, IsUnread, RefusesFile, UnreadyPrints, unready_line, unready_status};

use crate::run::{Finish, printed, without_memory};
use pts_ctx::{Context, System};
use pts_io::{Found, Library, ReadFail, Sink};
use pts_spec::{SpecFault, read_system};
use std::alloc::{AllocError, Global};

/// Why a command has no system to work in.
#[derive(Drop)]
pub(crate) enum Unready {
    /// The library failed.
    LibraryFailed,
    /// The library has no file of the name.
    NoFile,
    /// The file is longer than a file may be.
    TooLong,
    /// The file is no specification of a system. The refusal is never that memory ran out.
    Refused(SpecFault),
    /// There was no memory for it.
    NoMemory,
}

/// Reads the specification of this name, whose file is read from the library once.
pub(crate) fn system_named<L: Library>(
    alloc: Global,
    name: &str,
    library: &mut L,
) -> Result<System, Unready>
    ensures files { (L.state library.new).files ≡ (L.state library.old).files }
    ensures ready { IfOk result (λ system. IsReady (L.state library.old) (L.state library.new) name.now system) }
    ensures unready { IfErr result (λ why. IsUnready (L.state library.old) (L.state library.new) name.now why) }
{
    match file_named(alloc, name, library) {
        Ok(bytes) => system_in(alloc, bytes.as_slice()),
        Err(why) => Err(why),
    }
}

/// Reads the file of this name from the library once.
pub(crate) fn file_named<L: Library>(
    alloc: Global,
    name: &str,
    library: &mut L,
) -> Result<Vec<u8>, Unready>
    ensures files { (L.state library.new).files ≡ (L.state library.old).files }
    ensures read { IfOk result (λ bytes.
        IsRead (L.state library.old) (L.state library.new) name.now bytes.items) }
    ensures unread { IfErr result (λ why. IsUnread (L.state library.old) (L.state library.new) name.now why) }
{
    match library.read(alloc, name) {
        Ok(Found::Bytes(bytes)) => Ok(bytes),
        Ok(Found::NoFile) => Err(Unready::NoFile),
        Ok(Found::TooLong) => Err(Unready::TooLong),
        Err(ReadFail::Failed) => Err(Unready::LibraryFailed),
        Err(ReadFail::Memory) => Err(Unready::NoMemory),
    }
}

/// The system that a file writes.
pub(crate) fn system_in(alloc: Global, bytes: &[u8]) -> Result<System, Unready>
    ensures ready { IfOk result (λ system. system_of bytes.now ≡ Ok system) }
    ensures refused { IfErr result (RefusesFile bytes.now) }
{
    match read_system(alloc, bytes) {
        Ok(system) => Ok(system),
        Err(SpecFault::Memory) => Err(Unready::NoMemory),
        Err(fault) => Err(Unready::Refused(fault)),
    }
}

/// The status of a run that has no system.
pub(crate) fn unready_status(why: &Unready) -> u8
    ensures { result ≡ unready_status why.now }
{
    match why {
        Unready::LibraryFailed | Unready::NoFile => 6,
        Unready::TooLong => 8,
        Unready::Refused(_) => 3,
        Unready::NoMemory => 7,
    }
}

/// The line of a run that has no system: `library failed NAME`, `no file NAME`, `too long NAME`, or `refused system` with
/// the refusal. When memory runs out it is empty.
pub(crate) fn unready_line(alloc: Global, name: &str, why: &Unready) -> Result<String, AllocError>
    ensures { IfOk result (λ s. string_bytes s ≡ unready_line name.now why.now) }
{
    match why {
        Unready::LibraryFailed => format!(in alloc; "library failed {name}\n"),
        Unready::NoFile => format!(in alloc; "no file {name}\n"),
        Unready::TooLong => format!(in alloc; "too long {name}\n"),
        Unready::Refused(fault) => format!(in alloc; "refused system {fault}\n"),
        Unready::NoMemory => Ok(String::new(alloc)),
    }
}

/// The end of a run for which a file, or the system that it specifies, is not there.
pub(crate) fn print_unready<K: Sink>(
    alloc: Global,
    name: &str,
    why: &Unready,
    sink: &mut K,
) -> Finish
    ensures prints { Writes (UnreadyPrints name.now why.now)
        (K.state sink.old) (K.state sink.new) result.status }
    ensures context { result.context.entries ≡ [] }
    ensures labels { result.context.labels ≡ [] }
    ensures order { result.order ≡ [] }
{
    match unready_line(alloc, name, why) {
        Ok(line) => printed(
            alloc,
            sink,
            unready_status(why),
            line.as_bytes(),
            Context::new(alloc),
        ),
        Err(_) => without_memory(alloc),
    }
}

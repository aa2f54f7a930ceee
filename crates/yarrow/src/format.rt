// The command `format`.

ghost use Rattle.std.specs.Prelude.{◌≡◌, []};
ghost use Rattle.yarrow.specs.Runs.{Writes};
ghost use Rattle.yarrow.specs.Formats.{LinesPrint, IsFormatRun};

use crate::run::{Finish, LIMIT, finished, printed, without_memory};
use crate::system::{system_named, unready_line, unready_status};
use pts_ctx::{Context, System};
use pts_format::{Ended, format_lines};
use pts_io::{Library, Sink, Source};
use std::alloc::Global;

/// Reads the system that the library's file of this name specifies, and then each line of the source as a closed term
/// over no constants, which is printed, or refused. Each line is answered before the next one is read.
///
/// Where there is no system, one line says why, and nothing is taken from the source.
pub fn run_format<S: Source, K: Sink, L: Library>(
    alloc: Global,
    name: &str,
    source: &mut S,
    sink: &mut K,
    library: &mut L,
) -> Finish
    ensures format { IsFormatRun name.now (L.state library.old) (L.state library.new)
        (S.state source.old) (S.state source.new) (K.state sink.old) (K.state sink.new) result.status }
    ensures context { result.context.entries ≡ [] }
    ensures labels { result.context.labels ≡ [] }
    ensures order { result.order ≡ [] }
    ensures files { (L.state library.new).files ≡ (L.state library.old).files }
{
    match system_named(alloc, name, library) {
        Ok(system) => format_source(alloc, &system, source, sink),
        Err(why) => match unready_line(alloc, name, &why) {
            Ok(line) => {
                let status = unready_status(&why);
                printed(alloc, sink, status, line.as_bytes(), Context::new(alloc))
            }
            Err(_) => without_memory(alloc),
        },
    }
}

// Answers the lines of the source.
fn format_source<S: Source, K: Sink>(
    alloc: Global,
    system: &System,
    source: &mut S,
    sink: &mut K,
) -> Finish
    ensures format { Writes (LinesPrint system.now.sorts (S.state source.old) (S.state source.new))
        (K.state sink.old) (K.state sink.new) result.status }
    ensures context { result.context.entries ≡ [] }
    ensures labels { result.context.labels ≡ [] }
    ensures order { result.order ≡ [] }
{
    match format_lines(alloc, system, source, sink, LIMIT as u32) {
        Ended::Whole => finished(alloc, 0),
        Ended::ReadFailed => printed(alloc, sink, 4, b"read failed\n", Context::new(alloc)),
        Ended::TooMuch => printed(alloc, sink, 8, b"input too long\n", Context::new(alloc)),
        Ended::WriteFailed => finished(alloc, 5),
        Ended::NoMemory => without_memory(alloc),
    }
}

// The top call.

ghost use Rattle.std.specs.Prelude.{◌≡◌, [], false, map, string_bytes};
ghost use Rattle.yarrow.specs.Commands.{command_of};
ghost use Rattle.yarrow.specs.Runs.{PrintsLine, IsCheckRun};
ghost use Rattle.yarrow.specs.Commanded.{IsRun, reads_files};

use crate::answer::{Answer, answer_to};
use crate::batch::run_batch;
use crate::command::{Command, command_of};
use crate::format::run_format;
use crate::replay::run_replay;
use pts_ctx::Context;
use pts_io::{Library, Sink, Source, WholeFault, read_whole, write_whole};
use pts_names::List;
use std::alloc::Global;

/// How many bytes an input has at most.
pub const LIMIT: usize = 16_777_216;

/// What a run ends with: its status, the context that it built, and for each round that it played the order of its events,
/// which are the numbers of their sessions.
#[derive(Drop)]
pub struct Finish {
    pub status: u8,
    pub context: Context,
    pub order: List<List<u32>>,
}

/// Runs the program with the words after its own name. The forms are `check`, `format SPEC`, `batch SPEC MODULE` and
/// `replay SPEC`, where SPEC is any word that isn't empty and MODULE is a plain name of at most 128 bytes; all other words
/// print `usage`, with status 2, and take nothing from the source.
pub fn run<S: Source, K: Sink, L: Library>(
    alloc: Global,
    words: &[String],
    source: &mut S,
    sink: &mut K,
    library: &mut L,
) -> Finish
    ensures run { IsRun (command_of (map string_bytes words.now))
        (L.state library.old) (L.state library.new) (S.state source.old) (S.state source.new)
        (K.state sink.old) (K.state sink.new) result.status result.order result.context.entries result.context.labels }
    ensures library { reads_files (command_of (map string_bytes words.now)) ≡ false → library.new ≡ library.old }
    ensures files { (L.state library.new).files ≡ (L.state library.old).files }
{
    match command_of(words) {
        Some(Command::Check) => run_check(alloc, source, sink),
        Some(Command::Format(name)) => run_format(alloc, name, source, sink, library),
        Some(Command::Batch(spec, name)) => run_batch(alloc, spec, name, sink, library),
        Some(Command::Replay(name)) => run_replay(alloc, name, source, sink, library),
        None => printed(alloc, sink, 2, b"usage\n", Context::new(alloc)),
    }
}

/// Reads a certificate from the source, whole, checks it over the empty context, and prints one line.
pub fn run_check<S: Source, K: Sink>(alloc: Global, source: &mut S, sink: &mut K) -> Finish
    ensures check { IsCheckRun (S.state source.old) (S.state source.new)
        (K.state sink.old) (K.state sink.new) result.status result.context.entries result.context.labels }
    ensures order { result.order ≡ [] }
{
    match read_whole(alloc, source, LIMIT) {
        Err(WholeFault::Failed) => {
            printed(alloc, sink, 4, b"read failed\n", Context::new(alloc))
        }
        Err(WholeFault::TooMuch) => {
            printed(alloc, sink, 8, b"input too long\n", Context::new(alloc))
        }
        Err(WholeFault::Memory) => without_memory(alloc),
        Ok(bytes) => match answer_to(alloc, bytes.as_slice()) {
            Err(_) => without_memory(alloc),
            Ok(answer) => {
                let Answer {
                    status,
                    line,
                    context,
                } = answer;
                printed(alloc, sink, status, line.as_bytes(), context)
            }
        },
    }
}

/// The end of a run that had no memory.
pub(crate) fn without_memory(alloc: Global) -> Finish
    ensures status { result.status ≡ 7 }
    ensures context { result.context.entries ≡ [] }
    ensures labels { result.context.labels ≡ [] }
    ensures order { result.order ≡ [] }
{
    finished(alloc, 7)
}

/// The end of a run that built no context.
pub(crate) fn finished(alloc: Global, status: u8) -> Finish
    ensures status { result.status ≡ status }
    ensures context { result.context.entries ≡ [] }
    ensures labels { result.context.labels ≡ [] }
    ensures order { result.order ≡ [] }
{
    ended(alloc, status, Context::new(alloc))
}

/// The end of a run that built a context.
pub(crate) fn ended(alloc: Global, status: u8, context: Context) -> Finish
    ensures status { result.status ≡ status }
    ensures context { result.context.entries ≡ context.entries }
    ensures labels { result.context.labels ≡ context.labels }
    ensures order { result.order ≡ [] }
{
    Finish {
        status,
        context,
        order: List::of(Vec::new(alloc)),
    }
}

/// The end of a run that prints a line: its status, or 5 where the line could not be written whole.
pub(crate) fn printed<K: Sink>(
    alloc: Global,
    sink: &mut K,
    status: u8,
    line: &[u8],
    context: Context,
) -> Finish
    ensures status { PrintsLine status line.now (K.state sink.old) (K.state sink.new) result.status }
    ensures context { result.context.entries ≡ context.entries }
    ensures labels { result.context.labels ≡ context.labels }
    ensures order { result.order ≡ [] }
{
    let order = List::of(Vec::new(alloc));
    match write_whole(sink, line) {
        Ok(()) => Finish {
            status,
            context,
            order,
        },
        Err(_) => Finish {
            status: 5,
            context,
            order,
        },
    }
}

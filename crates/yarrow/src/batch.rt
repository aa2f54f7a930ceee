// The command `batch`.

ghost use Rattle.std.specs.Prelude.{◌≡◌, ◌++◌, ℕ, [], codes, true, take, Err, IfOk, OnOk, string_bytes};
ghost use Rattle.pts_ctx.specs.Front.{bare_front};
ghost use Rattle.pts_rules.specs.Derives.{Legal};
ghost use Rattle.pts_spec.specs.SpecFile.{system_of};
ghost use Rattle.pts_batch.specs.Batches.{BatchAnswers};
ghost use Rattle.pts_batch.specs.Shown.{answer_seen};
ghost use Rattle.yarrow.specs.Commands.{is_module};
ghost use Rattle.yarrow.specs.Runs.{Prints, PrintsPart, Writes};
ghost use Rattle.yarrow.specs.Batches.{IsBatchRun, IsLegalIn, FilesPrint, AnswerPrints, ModulePrints, text_of, done_line};

use crate::run::{Finish, ended, printed, without_memory};
use crate::system::{file_named, print_unready, system_in};
use pts_batch::{Batch, World, batch};
use pts_ctx::System;
use pts_io::{Library, Sink, write_whole};
use pts_names::{Name, NameFault, Text};
use std::alloc::{AllocError, Global};
use std::mem::forget;

/// How many units the statements of a module may cost.
pub const BUDGET: u64 = 1_000_000;

/// Reads the system that the library's file of this name specifies and the file of the module, in this order, and checks
/// the module over the empty context. Each declaration is printed with its type, and last `done` with their number; or one
/// line says why the module is refused, or what is not there.
pub fn run_batch<K: Sink, L: Library>(
    alloc: Global,
    spec: &str,
    name: &str,
    sink: &mut K,
    library: &mut L,
) -> Finish
    requires named { is_module name.now ≡ true }
    ensures batch { IsBatchRun spec.now name.now (L.state library.old) (L.state library.new)
        (K.state sink.old) (K.state sink.new) result.status result.context.entries result.context.labels }
    ensures order { result.order ≡ [] }
    ensures files { (L.state library.new).files ≡ (L.state library.old).files }
{
    let text = match file_named(alloc, spec, library) {
        Ok(text) => text,
        Err(why) => return print_unready(alloc, spec, &why, sink),
    };
    let Ok(file) = format!(in alloc; "{name}.yar") else {
        return without_memory(alloc);
    };
    match file_named(alloc, file.as_str(), library) {
        Ok(bytes) => batch_files(alloc, spec, name, text.as_slice(), bytes.as_slice(), sink),
        Err(why) => print_unready(alloc, file.as_str(), &why, sink),
    }
}

// Answers the file of the module, by the text of the specification.
fn batch_files<K: Sink>(
    alloc: Global,
    spec: &str,
    name: &str,
    text: &[u8],
    bytes: &[u8],
    sink: &mut K,
) -> Finish
    requires named { is_module name.now ≡ true }
    ensures prints { Writes
        (λ status out. FilesPrint spec.now name.now text.now bytes.now status out result.context.entries result.context.labels)
        (K.state sink.old) (K.state sink.new) result.status }
    ensures legal { IsLegalIn (system_of text.now) result.context.entries }
    ensures order { result.order ≡ [] }
{
    match system_in(alloc, text) {
        Ok(system) => batch_module(alloc, system, name, bytes, sink),
        Err(why) => print_unready(alloc, spec, &why, sink),
    }
}

// Answers the file of the module in a system.
fn batch_module<K: Sink>(
    alloc: Global,
    system: System,
    name: &str,
    bytes: &[u8],
    sink: &mut K,
) -> Finish
    requires named { is_module name.now ≡ true }
    ensures prints { Writes
        (λ status out. ModulePrints system name.now bytes.now status out result.context.entries result.context.labels)
        (K.state sink.old) (K.state sink.new) result.status }
    ensures legal { Legal system (bare_front result.context.entries) }
    ensures order { result.order ≡ [] }
{
    match answer_module(alloc, system, name, bytes) {
        Ok(batch) => print_batch(alloc, batch, sink),
        Err(_) => without_memory(alloc),
    }
}

// The answer to the file of the module in a system.
fn answer_module(
    alloc: Global,
    system: System,
    name: &str,
    bytes: &[u8],
) -> Result<Batch, AllocError>
    requires named { is_module name.now ≡ true }
    ensures answer { IfOk result (λ r. BatchAnswers system name.now bytes.now 1000000 (answer_seen r) r.units) }
    ensures legal { IfOk result (λ r. Legal system (bare_front r.context.entries)) }
{
    let name = module_name(alloc, name)?;
    let world = World { system };
    batch(alloc, &world, &name, bytes, BUDGET)
}

// The name of the module.
fn module_name(alloc: Global, text: &str) -> Result<Name, AllocError>
    requires named { is_module text.now ≡ true }
    ensures { IfOk result (λ name. name ≡ text.now) }
{
    match Name::read(alloc, text) {
        Ok(name) => Ok(name),
        Err(fault) => match fault {
            NameFault::Memory => Err(AllocError),
            _ => unreachable!(),
        },
    }
}

// Prints an answer.
fn print_batch<K: Sink>(alloc: Global, batch: Batch, sink: &mut K) -> Finish
    ensures prints { Writes (AnswerPrints (answer_seen batch))
        (K.state sink.old) (K.state sink.new) result.status }
    ensures context { result.context.entries ≡ batch.context.entries }
    ensures labels { result.context.labels ≡ batch.context.labels }
    ensures order { result.order ≡ [] }
{
    let Batch {
        lines,
        declarations,
        context,
        refused,
        ..
    } = batch;
    // The run ends after these lines; the system takes back the memory.
    forget(declarations);
    match print_lines(alloc, lines.items(), sink) {
        Ok(()) => {}
        Err(Unprinted::WriteFailed) => return ended(alloc, 5, context),
        Err(Unprinted::NoMemory) => return ended(alloc, 7, context),
    }
    if refused {
        return ended(alloc, 1, context);
    }
    match done_line(alloc, context.len()) {
        Ok(line) => printed(alloc, sink, 0, line.as_bytes(), context),
        Err(_) => ended(alloc, 7, context),
    }
}

/// Why not all lines are printed.
#[derive(Clone, Copy, Debug, PartialEq, Eq)]
pub(crate) enum Unprinted {
    /// The sink failed.
    WriteFailed,
    /// There was no memory for a line.
    NoMemory,
}

// Prints each line as soon as it is made.
fn print_lines<K: Sink>(alloc: Global, lines: &[Text], sink: &mut K) -> Result<(), Unprinted>
    ensures whole { OnOk result (Prints (K.state sink.old) (K.state sink.new) (text_of lines.now)) }
    ensures write_failed { result ≡ Err Unprinted.WriteFailed
        → PrintsPart (K.state sink.old) (K.state sink.new) (text_of lines.now) }
    ensures no_memory { result ≡ Err Unprinted.NoMemory
        → (n : ℕ) × Prints (K.state sink.old) (K.state sink.new) (text_of (take n lines.now)) }
{
    for line in lines {
        let Ok(text) = line_text(alloc, line) else {
            return Err(Unprinted::NoMemory);
        };
        let Ok(()) = write_whole(sink, text.as_bytes()) else {
            return Err(Unprinted::WriteFailed);
        };
    }
    Ok(())
}

// A line with a line feed.
fn line_text(alloc: Global, line: &Text) -> Result<String, AllocError>
    ensures { IfOk result (λ s. string_bytes s ≡ line.now ++ codes "\n") }
{
    let line = line.text();
    format!(in alloc; "{line}\n")
}

// `done N`
fn done_line(alloc: Global, count: usize) -> Result<String, AllocError>
    ensures { IfOk result (λ s. string_bytes s ≡ done_line count) }
{
    format!(in alloc; "done {count}\n")
}

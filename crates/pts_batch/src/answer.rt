// Batches of one module.

ghost use Rattle.std.specs.Prelude.{◌≡◌, true, ◌+◌, ◌++◌, ◌∷◌, [], Ok, None, IfOk, codes};
ghost use Rattle.std.specs.Fmt.{decimal};
ghost use Rattle.pts_check.specs.Entered.{declared_entries, MayFollow};
ghost use Rattle.pts_module_file.specs.File.{AllShort, module_file_of, module_of};
ghost use Rattle.pts_names.specs.Name.{is_short};
ghost use Rattle.pts_statement.specs.Words.{fault_text};
ghost use Rattle.pts_batch.specs.Batches.{BatchAnswers, refusal, bad_line, at_line, unbuilt_line, with_entries};
ghost use Rattle.pts_batch.specs.Calls.{AnswersBadFile, AnswersFault};
ghost use Rattle.pts_batch.specs.Shown.{answer_seen, Evident};

use crate::lines::entry_lines;
use crate::loading::{LoadFault, Loading, load};
use crate::world::{Batch, World};
use pts_ctx::{Context, ROOM, System};
use pts_module_file::{FileFault, FileWhy, ModuleFile, ModuleLine, read_module};
use pts_names::{List, Name, Text};
use pts_rules::Meter;
use pts_statement::{StatementFault, fault_text};
use std::alloc::{AllocError, Global};

/// Checks the file of the module with this name on a budget of so many units, over the empty context. Its declarations
/// enter after the label of the module, and each is printed with its type; or one line says why the module is refused,
/// and nothing enters.
///
/// Refusals come in this order: `BadFile` with the first line that breaks the format; `NotBuilt` with the first line that
/// uses a module or has a parameter; `Declaration` with the first line whose statement is refused; `ContextFull` where
/// there are more than 200,000 declarations.
pub fn batch(
    alloc: Global,
    world: &World,
    name: &Name,
    bytes: &[u8],
    budget: u64,
) -> Result<Batch, AllocError>
    ensures answer { IfOk result (λ r. BatchAnswers world.now.system name.now bytes.now budget (answer_seen r) r.units) }
    ensures evidence { IfOk result (λ r. Evident world.now.system r) }
{
    match read_module(alloc, name, bytes) {
        Ok(file) => batch_file(alloc, world, name, bytes, file, budget),
        Err(fault) => bad_file(alloc, name, &fault),
    }
}

// A file that breaks the format.
fn bad_file(alloc: Global, name: &Name, fault: &FileFault) -> Result<Batch, AllocError>
    ensures answer { IfOk result (λ r. AnswersBadFile name.now fault.now (answer_seen r)) }
    ensures units { IfOk result (λ r. r.units ≡ 0) }
    ensures evidence { IfOk result (λ r. (r.declarations ≡ []) × (r.context.entries ≡ [])) }
{
    match fault {
        FileFault::BadFile(line, why) => bad_line(alloc, name, *line, why),
        FileFault::Memory => Err(AllocError),
    }
}

// A line that breaks the format.
fn bad_line(alloc: Global, name: &Name, line: usize, why: &FileWhy) -> Result<Batch, AllocError>
    ensures answer { IfOk result (λ r. answer_seen r ≡ refusal name.now (bad_line line why.now)) }
    ensures units { IfOk result (λ r. r.units ≡ 0) }
    ensures evidence { IfOk result (λ r. (r.declarations ≡ []) × (r.context.entries ≡ [])) }
{
    let text = format!(in alloc; "BadFile {line} {why}")?;
    refusal(alloc, name, text.as_str(), 0)
}

// A file in its format.
fn batch_file(
    alloc: Global,
    world: &World,
    name: &Name,
    bytes: &[u8],
    file: ModuleFile,
    budget: u64,
) -> Result<Batch, AllocError>
    requires read { module_of name.now bytes.now ≡ Ok (module_file_of file) }
    requires short { is_short name.now ≡ true }
    requires names { AllShort (module_file_of file).stated }
    ensures answer { IfOk result (λ r. BatchAnswers world.now.system name.now bytes.now budget (answer_seen r) r.units) }
    ensures evidence { IfOk result (λ r. Evident world.now.system r) }
{
    match unbuilt_line(&file) {
        Some(line) => not_built(alloc, name, line),
        None => batch_lines(alloc, world, name, bytes, file, budget),
    }
}

// The first line of a kind that is not built.
fn unbuilt_line(file: &ModuleFile) -> Option<usize>
    ensures { result ≡ unbuilt_line (module_file_of file.now) }
{
    if let Some(line) = file.uses.first() {
        return Some(line.0);
    }
    match file.parameters.first() {
        Some(line) => Some(line.0),
        None => None,
    }
}

fn not_built(alloc: Global, name: &Name, line: usize) -> Result<Batch, AllocError>
    ensures answer { IfOk result (λ r. answer_seen r ≡ refusal name.now (codes "NotBuilt " ++ decimal line)) }
    ensures units { IfOk result (λ r. r.units ≡ 0) }
    ensures evidence { IfOk result (λ r. (r.declarations ≡ []) × (r.context.entries ≡ [])) }
{
    let text = format!(in alloc; "NotBuilt {line}")?;
    refusal(alloc, name, text.as_str(), 0)
}

// A file with declarations alone.
fn batch_lines(
    alloc: Global,
    world: &World,
    name: &Name,
    bytes: &[u8],
    file: ModuleFile,
    budget: u64,
) -> Result<Batch, AllocError>
    requires read { module_of name.now bytes.now ≡ Ok (module_file_of file) }
    requires short { is_short name.now ≡ true }
    requires names { AllShort (module_file_of file).stated }
    requires built { unbuilt_line (module_file_of file) ≡ None }
    ensures answer { IfOk result (λ r. BatchAnswers world.now.system name.now bytes.now budget (answer_seen r) r.units) }
    ensures evidence { IfOk result (λ r. Evident world.now.system r) }
{
    let mut meter = Meter::new(budget);
    let lines = declarations_of(file);
    match load(alloc, &world.system, name, lines, &mut meter) {
        Ok(loading) => finish(alloc, &world.system, name, loading, meter.spent()),
        Err(fault) => stopped(alloc, &world.system, name, &fault, meter.spent()),
    }
}

// The declarations alone.
fn declarations_of(file: ModuleFile) -> Vec<(usize, ModuleLine)>
    ensures { result ≡ file.declarations }
{
    let ModuleFile { declarations, .. } = file;
    declarations
}

// All statements have passed.
fn finish(
    alloc: Global,
    system: &System,
    name: &Name,
    loading: Loading,
    units: u64,
) -> Result<Batch, AllocError>
    requires entries { loading.context.entries ≡ declared_entries loading.declarations.items }
    requires labels { loading.context.labels ≡ (name.now, 0) ∷ [] }
    requires evidence { MayFollow system.now [] loading.declarations.items }
    ensures answer { IfOk result (λ r. answer_seen r ≡ with_entries system.now.sorts name.now loading.context.entries) }
    ensures units { IfOk result (λ r. r.units ≡ units) }
    ensures entries { IfOk result (λ r. r.context.entries ≡ declared_entries r.declarations) }
    ensures evidence { IfOk result (λ r. MayFollow system.now [] r.declarations) }
{
    if loading.context.len() > ROOM {
        return refusal(alloc, name, "ContextFull 0", units);
    }
    let lines = entry_lines(alloc, system, loading.declarations.as_slice())?;
    let Loading {
        context,
        declarations,
    } = loading;
    Ok(Batch {
        lines: List::of(lines),
        declarations: List::of(declarations),
        context,
        units,
        refused: false,
    })
}

// A statement has not passed.
fn stopped(
    alloc: Global,
    system: &System,
    name: &Name,
    fault: &LoadFault,
    units: u64,
) -> Result<Batch, AllocError>
    ensures answer { IfOk result (λ r. AnswersFault system.now.sorts name.now fault.now (answer_seen r)) }
    ensures units { IfOk result (λ r. r.units ≡ units) }
    ensures evidence { IfOk result (λ r. (r.declarations ≡ []) × (r.context.entries ≡ [])) }
{
    match fault {
        LoadFault::Refused(line, fault) => {
            refused_line(alloc, system, name, *line, fault, units)
        }
        LoadFault::Memory => Err(AllocError),
    }
}

// The statement on a line is refused.
fn refused_line(
    alloc: Global,
    system: &System,
    name: &Name,
    line: usize,
    fault: &StatementFault,
    units: u64,
) -> Result<Batch, AllocError>
    ensures answer { IfOk result (λ r. answer_seen r ≡ refusal name.now (at_line line (fault_text system.now.sorts fault.now))) }
    ensures units { IfOk result (λ r. r.units ≡ units) }
    ensures evidence { IfOk result (λ r. (r.declarations ≡ []) × (r.context.entries ≡ [])) }
{
    let why = fault_text(alloc, system, fault)?;
    let text = format!(in alloc; "Declaration {line} {why}")?;
    refusal(alloc, name, text.as_str(), units)
}

// A refusal: one line, and nothing enters.
fn refusal(alloc: Global, name: &Name, text: &str, units: u64) -> Result<Batch, AllocError>
    ensures answer { IfOk result (λ r. answer_seen r ≡ refusal name.now text.now) }
    ensures units { IfOk result (λ r. r.units ≡ units) }
    ensures evidence { IfOk result (λ r. (r.declarations ≡ []) × (r.context.entries ≡ [])) }
{
    let line = format!(in alloc; "refused {name} {text}")?;
    let mut lines = Vec::new(alloc);
    lines.push(Text::of(line))?;
    Ok(Batch {
        lines: List::of(lines),
        declarations: List::of(Vec::new(alloc)),
        context: Context::new(alloc),
        units,
        refused: true,
    })
}

ghost use Rattle.std.specs.Prelude.{◌≡◌, true, Some, None, IfOk, if◌then◌else◌};
ghost use Rattle.pts_names.specs.Name.{is_short};
ghost use Rattle.pts_lines.specs.Reading.{declaration_said};
ghost use Rattle.pts_lines.specs.Seen.{declaration_of};
ghost use Rattle.pts_module_file.specs.File.{AnswersAs, file_line_of, IsRead};
ghost use Rattle.pts_module_file.specs.Lines as lines;
ghost use Rattle.pts_module_file.specs.Lines.{is_short_text, is_passed, name_of};

use crate::fault::{FileLineFault, FileWhy};
use crate::stage::{Item, Stage, behind, may_declare};
use pts_bytes::{is_text, text_of};
use pts_lines::{Declaring, DeclaringLine, declaring_word, read_declaration};
use pts_names::{Name, NameFault};
use pts_parser::ReadFault;
use std::alloc::{AllocError, Global};

/// What a line is at a stage of the file of the module with this name, and the stage after it.
pub(crate) fn line_at(
    alloc: Global,
    asked: &Name,
    stage: Stage,
    line: &[u8],
) -> Result<(Stage, Item), FileLineFault>
    ensures { AnswersAs (λ r. (r.0, file_line_of r.1)) result (lines.line_at asked.now stage line.now) }
{
    let Some(text) = text_of(line) else {
        return Err(FileLineFault::Because(FileWhy::Form));
    };
    if is_passed(line) {
        return Ok((stage, Item::Passed));
    }
    staged_line(alloc, asked, stage, line, text)
}

/// The same of a text that says something.
fn staged_line(
    alloc: Global,
    asked: &Name,
    stage: Stage,
    line: &[u8],
    text: &str,
) -> Result<(Stage, Item), FileLineFault>
    requires { text.now ≡ line.now }
    ensures { AnswersAs (λ r. (r.0, file_line_of r.1)) result (lines.staged_line asked.now stage line.now) }
{
    match stage {
        Stage::Format => format_line(line),
        Stage::Module => module_line(asked, line),
        Stage::Uses => uses_line(alloc, line, text),
        Stage::Parameters => later_line(alloc, Stage::Parameters, text),
        Stage::Declarations => later_line(alloc, Stage::Declarations, text),
        Stage::Ended => Err(FileLineFault::Because(FileWhy::Form)),
    }
}

/// The first line.
fn format_line(line: &[u8]) -> Result<(Stage, Item), FileLineFault>
    ensures { AnswersAs (λ r. (r.0, file_line_of r.1)) result (lines.format_line line.now) }
{
    if is_text(line, "yarrow-module 1") {
        return Ok((Stage::Module, Item::Fixed));
    }
    Err(FileLineFault::Because(FileWhy::Form))
}

/// The line with the module's name.
#[tactic(auto, using(crate::proofs::Fronts::front_is, crate::proofs::Fronts::back_is))]
fn module_line(asked: &Name, line: &[u8]) -> Result<(Stage, Item), FileLineFault>
    ensures { AnswersAs (λ r. (r.0, file_line_of r.1)) result (lines.module_line asked.now line.now) }
{
    let (front, name) = line.split_at(line.len().min(7));
    if asked.is_short() && is_text(front, "module ") && is_text(name, asked.text()) {
        return Ok((Stage::Uses, Item::Fixed));
    }
    Err(FileLineFault::Because(FileWhy::Form))
}

/// A line that says what is used, or what may follow those.
#[tactic(auto, using(crate::proofs::Fronts::front_is, crate::proofs::Fronts::back_is))]
fn uses_line(alloc: Global, line: &[u8], text: &str) -> Result<(Stage, Item), FileLineFault>
    requires { text.now ≡ line.now }
    ensures { AnswersAs (λ r. (r.0, file_line_of r.1)) result (lines.uses_line line.now) }
{
    let (front, name) = line.split_at(line.len().min(5));
    if is_text(front, "uses ") {
        if let Some(used) = short_name(alloc, name)? {
            return Ok((Stage::Uses, Item::Uses(used)));
        }
    }
    later_line(alloc, Stage::Uses, text)
}

/// A parameter or a declaration, or the end.
fn later_line(alloc: Global, stage: Stage, text: &str) -> Result<(Stage, Item), FileLineFault>
    ensures { AnswersAs (λ r. (r.0, file_line_of r.1)) result (lines.later_line stage text.now) }
{
    match declaring_word(alloc, text)? {
        Some(declaring) => {
            if !may_declare(stage, declaring) {
                return Err(FileLineFault::Because(FileWhy::Form));
            }
            declared(alloc, text)
        }
        None => ending(stage, text),
    }
}

/// The line `end`.
fn ending(stage: Stage, text: &str) -> Result<(Stage, Item), FileLineFault>
    ensures { AnswersAs (λ r. (r.0, file_line_of r.1)) result (lines.ending stage text.now) }
{
    if may_declare(stage, Declaring::Assume) && is_text(text.as_bytes(), "end") {
        return Ok((Stage::Ended, Item::Fixed));
    }
    Err(FileLineFault::Because(FileWhy::Form))
}

/// A declaration that may stand there.
fn declared(alloc: Global, text: &str) -> Result<(Stage, Item), FileLineFault>
    ensures { AnswersAs (λ r. (r.0, file_line_of r.1)) result (lines.declared (declaration_said text.now)) }
{
    match read_declaration(alloc, text) {
        Ok(declaration) => with_short_name(declaration),
        Err(fault) => Err(refusal_of(fault)),
    }
}

/// A declaration, if its name is short.
fn with_short_name(declaration: DeclaringLine) -> Result<(Stage, Item), FileLineFault>
    ensures { AnswersAs (λ r. (r.0, file_line_of r.1)) result (lines.with_short_name (declaration_of declaration)) }
{
    let declaring = declaring_of(&declaration);
    if !name_of(&declaration).is_short() {
        return Err(FileLineFault::Because(FileWhy::Form));
    }
    Ok((behind(declaring), Item::Declared(declaration)))
}

/// What a declaration is.
fn declaring_of(declaration: &DeclaringLine) -> Declaring
    ensures { result ≡ (declaration_of declaration.now).0 }
{
    match declaration {
        DeclaringLine::Parameter(_, _) => Declaring::Parameter,
        DeclaringLine::Assume(_, _) => Declaring::Assume,
        DeclaringLine::Define(_, _, _) => Declaring::Define,
    }
}

/// Its name.
fn name_of(declaration: &DeclaringLine) -> &Name
    ensures { Some result.now ≡ name_of (declaration_of declaration.now).1 }
{
    match declaration {
        DeclaringLine::Parameter(name, _) => name,
        DeclaringLine::Assume(name, _) => name,
        DeclaringLine::Define(name, _, _) => name,
    }
}

/// The refusal of a line that is no declaration.
fn refusal_of(fault: ReadFault) -> FileLineFault
    ensures { IsRead fault result }
{
    match fault {
        ReadFault::Memory => FileLineFault::Memory,
        other => FileLineFault::Because(FileWhy::Read(other)),
    }
}

/// The plain name of at most 63 bytes that the bytes are.
fn short_name(alloc: Global, bytes: &[u8]) -> Result<Option<Name>, AllocError>
    ensures { IfOk result (λ o. o ≡ (if is_short_text bytes.now then Some bytes.now else None)) }
{
    let Some(text) = text_of(bytes) else {
        return Ok(None);
    };
    match Name::read(alloc, text) {
        Ok(name) => {
            if name.is_short() {
                return Ok(Some(name));
            }
            Ok(None)
        }
        Err(fault) => match fault {
            NameFault::Memory => Err(AllocError),
            _ => Ok(None),
        },
    }
}

/// An empty line, or one that begins with `%`.
fn is_passed(line: &[u8]) -> bool
    ensures { result ≡ is_passed line.now }
{
    match line.first() {
        None => true,
        Some(byte) => *byte == b'%',
    }
}

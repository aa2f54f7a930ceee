ghost use Rattle.std.specs.Prelude.{◌≡◌, true, Ok, IfOk, IfErr};
ghost use Rattle.pts_lines.specs.Seen.{declaration_of};
ghost use Rattle.pts_module_file.specs.Lines.{declares};
ghost use Rattle.pts_names.specs.Name.{is_short};
ghost use Rattle.pts_module_file.specs.File.{module_file_of, stated_of, with_entry, file_line_of, module_of, fault_at, RefusesModule, AllShort};

use crate::fault::{FileFault, FileLineFault, FileWhy};
use crate::item::line_at;
use crate::split::split_line;
use crate::stage::{Item, Stage};
use pts_grammar::Tree;
use pts_lines::DeclaringLine;
use pts_names::Name;
use std::alloc::{AllocFailed, Global};

/// A declaration: an assumption with its type, or a definition with its type, if it is written, and its body.
#[derive(Debug, Drop)]
pub enum ModuleLine {
    Assume(Name, Tree),
    Define(Name, Option<Tree>, Tree),
}

/// What a module file says, each with the number of its line: the modules that it uses, its parameters with their types,
/// and its declarations. Names are not looked up.
#[derive(Debug, Drop)]
pub struct ModuleFile {
    pub uses: Vec<(usize, Name)>,
    pub parameters: Vec<(usize, Name, Tree)>,
    pub declarations: Vec<(usize, ModuleLine)>,
}

/// Reads the file of the module with this name.
///
/// # Errors
///
/// `BadFile` names the first line that breaks the format, or one past the last where `end` is missing. It is `Read` for
/// the tokens and the grammar of a line that begins with the word of a parameter or a declaration and may stand there,
/// and `Form` for all else.
pub fn read_module(alloc: Global, name: &Name, bytes: &[u8]) -> Result<ModuleFile, FileFault>
    ensures module { IfOk result (λ m. module_of name.now bytes.now ≡ Ok (module_file_of m)) }
    ensures short { IfOk result (λ m. is_short name.now ≡ true) }
    ensures names { IfOk result (λ m. AllShort (module_file_of m).stated) }
    ensures refused { IfErr result (λ e. RefusesModule name.now bytes.now e) }
{
    read_all(alloc, name, bytes)
}

// The same, of which the names aren't spoken of.
#[tactic(auto, unfolding(crate::specs::File::module_of))]
fn read_all(alloc: Global, name: &Name, bytes: &[u8]) -> Result<ModuleFile, FileFault>
    ensures module { IfOk result (λ m. module_of name.now bytes.now ≡ Ok (module_file_of m)) }
    ensures refused { IfErr result (λ e. RefusesModule name.now bytes.now e) }
{
    let mut module = ModuleFile {
        uses: Vec::new(alloc),
        parameters: Vec::new(alloc),
        declarations: Vec::new(alloc),
    };
    let mut stage = Stage::Format;
    let mut rest = bytes;
    let mut number: usize = 1;
    while let Some((line, behind)) = split_line(rest) {
        let (next, item) = match line_at(alloc, name, stage, line) {
            Ok(found) => found,
            Err(refusal) => return Err(at_line(number, refusal)),
        };
        module.add(number, item)?;
        stage = next;
        number += 1;
        rest = behind;
    }
    if stage != Stage::Ended {
        return Err(FileFault::BadFile(number, FileWhy::Form));
    }
    Ok(module)
}

impl ModuleFile {
    /// Adds what a line says.
    fn add(&mut self, number: usize, item: Item) -> Result<(), FileFault>
        ensures added { IfOk result (λ u. module_file_of self.new ≡ with_entry (module_file_of self.old) number (file_line_of item)) }
        ensures memory { IfErr result (λ e. e ≡ FileFault.Memory) }
    {
        match item {
            Item::Passed | Item::Fixed => {}
            Item::Uses(name) => self.uses.push((number, name))?,
            Item::Declared(declaration) => self.declare(number, declaration)?,
        }
        Ok(())
    }

    /// Adds a parameter or a declaration.
    fn declare(&mut self, number: usize, declaration: DeclaringLine) -> Result<(), FileFault>
        ensures added { IfOk result (λ u. module_file_of self.new ≡ with_entry (module_file_of self.old) number (declares (declaration_of declaration))) }
        ensures memory { IfErr result (λ e. e ≡ FileFault.Memory) }
    {
        match declaration {
            DeclaringLine::Parameter(name, ty) => self.parameters.push((number, name, ty))?,
            DeclaringLine::Assume(name, ty) => self.state(number, ModuleLine::Assume(name, ty))?,
            DeclaringLine::Define(name, ty, body) => {
                self.state(number, ModuleLine::Define(name, ty, body))?
            }
        }
        Ok(())
    }

    /// Adds a declaration.
    fn state(&mut self, number: usize, line: ModuleLine) -> Result<(), FileFault>
        ensures added { IfOk result (λ u. module_file_of self.new ≡ with_entry (module_file_of self.old) number (declares (declaration_of (stated_of line)))) }
        ensures memory { IfErr result (λ e. e ≡ FileFault.Memory) }
    {
        self.declarations.push((number, line))?;
        Ok(())
    }
}

/// A refusal of this line.
fn at_line(number: usize, refusal: FileLineFault) -> FileFault
    ensures { result ≡ fault_at number refusal }
{
    match refusal {
        FileLineFault::Because(why) => FileFault::BadFile(number, why),
        FileLineFault::Memory => FileFault::Memory,
    }
}

// What is done about the name of a module.

ghost use Rattle.std.specs.Prelude.{◌≡◌, Ok, IfOk, IfErr, MatchOption};
ghost use Rattle.pts_module_file.specs.File.{module_file_of};
ghost use Rattle.pts_modules.specs.Orders.{UnlessMemory, is_in, stopped, turn_of, used_by};
ghost use Rattle.pts_modules.specs.Stacks.{Goes, is_open, names_open};

use crate::{OrderFault, Shelf};
use pts_module_file::{FileFault, ModuleFile, read_module};
use pts_names::Name;
use std::alloc::{AllocError, Global};

/// A module whose uses are gone through, and the place of the next one.
#[derive(Drop)]
pub(crate) struct Opened {
    pub(crate) name: Name,
    pub(crate) uses: Vec<Name>,
    pub(crate) next: usize,
}

/// The uses that are to be gone through next, those of the module with this name; none where it has its place already.
pub(crate) fn uses_of(
    alloc: Global,
    shelf: &Shelf,
    opened: &[Opened],
    done: &[Name],
    name: &Name,
) -> Result<Option<Vec<Name>>, OrderFault>
    ensures goes { IfOk result (λ o. Goes (turn_of shelf.now.modules (names_open opened.now) done.now name.now) o) }
    ensures stops { IfErr result (UnlessMemory (λ e. turn_of shelf.now.modules (names_open opened.now) done.now name.now ≡ stopped e)) }
{
    if is_among(done, name) {
        return Ok(None);
    }
    if is_opened(opened, name) {
        return Err(OrderFault::CycleOfUses(name.copy()?));
    }
    let Some(bytes) = shelf.module(name) else {
        return Err(OrderFault::NoModule(name.copy()?));
    };
    match read_module(alloc, name, bytes) {
        Ok(file) => Ok(Some(names_used(alloc, &file)?)),
        Err(FileFault::BadFile(line, why)) => Err(OrderFault::BadFile(line, why)),
        Err(FileFault::Memory) => Err(OrderFault::Memory),
    }
}

// Whether a name is in a list.
fn is_among(names: &[Name], name: &Name) -> bool
    ensures { result ≡ is_in name.now names.now }
{
    for other in names {
        if name.same(other) {
            return true;
        }
    }
    false
}

// Whether the uses of the module with this name are gone through.
#[tactic(auto, using(crate::proofs::Stack::open_names))]
fn is_opened(opened: &[Opened], name: &Name) -> bool
    ensures { result ≡ is_in name.now (names_open opened.now) }
{
    is_one_of(opened, name)
}

fn is_one_of(opened: &[Opened], name: &Name) -> bool
    ensures { result ≡ is_open name.now opened.now }
{
    for module in opened {
        if name.same(&module.name) {
            return true;
        }
    }
    false
}

// The names of the modules that a file uses.
fn names_used(alloc: Global, file: &ModuleFile) -> Result<Vec<Name>, AllocError>
    ensures { IfOk result (λ v. v.items ≡ used_by (module_file_of file.now)) }
{
    let mut names = Vec::new(alloc);
    for line in &file.uses {
        names.push(line.1.copy()?)?;
    }
    Ok(names)
}

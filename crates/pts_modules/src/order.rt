// The order of modules.

ghost use Rattle.std.specs.Prelude.{◌≡◌, ◌<◌, ◌≤◌, ◌∷◌, [], Ok, Err, IfOk, IfErr, OnOk};
ghost use Rattle.pts_modules.specs.Orders.{Order, Orders, UnlessMemory};
ghost use Rattle.pts_modules.specs.Stacks.{Ends, EndsWith, open_of, opened_one, work};

use crate::uses::{Opened, uses_of};
use crate::{OrderFault, Shelf};
use pts_names::Name;
use std::alloc::Global;

/// The modules with these names in order, each after those that it uses, and each once. The lists of names are walked for each
/// use, so that the time grows with the square of the number of modules, beside that for reading their files.
///
/// # Errors
///
/// `NoModule`, `BadFile` and `CycleOfUses` name the first fault that is met. `Memory`.
pub fn order_modules(alloc: Global, shelf: &Shelf, names: &[Name]) -> Result<Vec<Name>, OrderFault>
    ensures ordered { IfOk result (λ v. Orders shelf.now.modules [] [] names.now (Ok v.items)) }
    ensures refused { IfErr result (UnlessMemory (λ e. Orders shelf.now.modules [] [] names.now (Err e))) }
{
    let mut done = Vec::new(alloc);
    for name in names {
        match place_module(alloc, shelf, &mut done, name) {
            Ok(()) => {}
            Err(fault) => return Err(fault),
        }
    }
    Ok(done)
}

/// Goes on with an order: the module with this name takes its place in it, after those that it uses, if it has none yet.
///
/// # Errors
///
/// As those of `order_modules`. The list may then have some more names.
pub fn place_module(
    alloc: Global,
    shelf: &Shelf,
    done: &mut Vec<Name>,
    name: &Name,
) -> Result<(), OrderFault>
    ensures ordered { OnOk result (Orders shelf.now.modules [] done.old.items (name.now ∷ []) (Ok done.new.items)) }
    ensures refused { IfErr result (UnlessMemory (λ e. Orders shelf.now.modules [] done.old.items (name.now ∷ []) (Err e))) }
{
    let mut opened = Vec::new(alloc);
    match visit(alloc, shelf, &mut opened, done, name) {
        Ok(()) => {}
        Err(fault) => return Err(fault),
    }
    while let Some(newest) = opened.pop() {
        match go_on(alloc, shelf, &mut opened, done, newest) {
            Ok(()) => {}
            Err(fault) => return Err(fault),
        }
    }
    Ok(())
}

// Goes on with the module that was opened last: with its next use, or it takes its place.
fn go_on(
    alloc: Global,
    shelf: &Shelf,
    opened: &mut Vec<Opened>,
    done: &mut Vec<Name>,
    newest: Opened,
) -> Result<(), OrderFault>
    ensures goes { OnOk result ((o : Order) → Ends shelf.now.modules (open_of opened.new.items) done.new.items o → Ends shelf.now.modules (opened_one newest ∷ open_of opened.old.items) done.old.items o) }
    ensures stops { IfErr result (UnlessMemory (λ e. Ends shelf.now.modules (opened_one newest ∷ open_of opened.old.items) done.old.items (Err e))) }
    ensures less { OnOk result (work shelf.now.modules (open_of opened.new.items) done.new.items < work shelf.now.modules (opened_one newest ∷ open_of opened.old.items) done.old.items) }
{
    let Opened { name, uses, next } = newest;
    if next >= uses.len() {
        done.push(name)?;
        return Ok(());
    }
    let used = uses[next].copy()?;
    opened.push(Opened {
        name,
        uses,
        next: next + 1,
    })?;
    match visit(alloc, shelf, opened, done, &used) {
        Ok(()) => Ok(()),
        Err(fault) => Err(fault),
    }
}

// Passes over a name, or opens its module.
fn visit(
    alloc: Global,
    shelf: &Shelf,
    opened: &mut Vec<Opened>,
    done: &[Name],
    name: &Name,
) -> Result<(), OrderFault>
    ensures goes { OnOk result ((o : Order) → Ends shelf.now.modules (open_of opened.new.items) done.now o → EndsWith shelf.now.modules (open_of opened.old.items) done.now name.now o) }
    ensures stops { IfErr result (UnlessMemory (λ e. EndsWith shelf.now.modules (open_of opened.old.items) done.now name.now (Err e))) }
    ensures less { OnOk result (work shelf.now.modules (open_of opened.new.items) done.now ≤ work shelf.now.modules (open_of opened.old.items) done.now) }
{
    match uses_of(alloc, shelf, opened, done, name) {
        Ok(None) => Ok(()),
        Ok(Some(uses)) => {
            let name = name.copy()?;
            opened.push(Opened {
                name,
                uses,
                next: 0,
            })?;
            Ok(())
        }
        Err(fault) => Err(fault),
    }
}

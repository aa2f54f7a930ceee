// Names that are copied before the core has its turn, so that it takes no memory.

ghost use Rattle.std.specs.Prelude.{◌≡◌, map, IfOk};
ghost use Rattle.std.specs.Option.{option_map};
ghost use Rattle.pts_check.specs.Entered.{declared_entries};

use pts_names::Name;
use pts_record::Declaration;
use std::alloc::{AllocError, Global};

/// A name twice: for the index of the context or the reply that is kept, and for the reply that is shown.
#[derive(Drop)]
pub(crate) struct Copies {
    pub(crate) kept: Name,
    pub(crate) shown: Name,
}

/// Two copies of a name.
pub(crate) fn copies_of(name: &Name) -> Result<Copies, AllocError>
    ensures kept { IfOk result (λ c. c.kept ≡ name.now) }
    ensures shown { IfOk result (λ c. c.shown ≡ name.now) }
{
    Ok(Copies {
        kept: name.copy()?,
        shown: name.copy()?,
    })
}

/// Two copies of the name of each declaration.
pub(crate) fn names_of(
    alloc: Global,
    declarations: &[Declaration],
) -> Result<Vec<Copies>, AllocError>
    ensures kept { IfOk result (λ v. map (λ c. c.kept) v.items ≡ map (λ e. e.name) (declared_entries declarations.now)) }
    ensures shown { IfOk result (λ v. map (λ c. c.shown) v.items ≡ map (λ e. e.name) (declared_entries declarations.now)) }
{
    let mut names = Vec::new(alloc);
    for declaration in declarations {
        names.push(copies_of(&declaration.name)?)?;
    }
    Ok(names)
}

/// Two copies of a label.
pub(crate) fn label_of(label: &Option<Name>) -> Result<Option<Copies>, AllocError>
    ensures kept { IfOk result (λ o. option_map (λ c. c.kept) o ≡ label.now) }
    ensures shown { IfOk result (λ o. option_map (λ c. c.shown) o ≡ label.now) }
{
    match label {
        Some(label) => Ok(Some(copies_of(label)?)),
        None => Ok(None),
    }
}

/// The copies once more.
pub(crate) fn copy_all(alloc: Global, names: &[Copies]) -> Result<Vec<Copies>, AllocError>
    ensures { IfOk result (λ v. map (λ c. c.kept) v.items ≡ map (λ c. c.kept) names.now) }
{
    let mut copies = Vec::new(alloc);
    for name in names {
        copies.push(copies_of(&name.kept)?)?;
    }
    Ok(copies)
}

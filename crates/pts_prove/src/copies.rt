// Copies of names.

ghost use Rattle.std.specs.Prelude.{[], ◌++◌, ◌∷◌, ◌≡◌, IfOk};

use pts_names::Name;
use std::alloc::{AllocError, Global};

/// The same names.
pub(crate) fn copy_names(alloc: Global, names: &[Name]) -> Result<Vec<Name>, AllocError>
    ensures { IfOk result (λ v. v.items ≡ names.now) }
{
    let mut copies = Vec::new(alloc);
    for name in names {
        copies.push(name.copy()?)?;
    }
    Ok(copies)
}

/// The same names with one after them.
#[tactic(auto)]
pub(crate) fn names_with(
    alloc: Global,
    names: &[Name],
    last: &Name,
) -> Result<Vec<Name>, AllocError>
    ensures { IfOk result (λ v. v.items ≡ names.now ++ last.now ∷ []) }
{
    let mut copies = copy_names(alloc, names)?;
    copies.push(last.copy()?)?;
    Ok(copies)
}

// Copies of declarations, and of their entries.

ghost use Rattle.std.specs.Prelude.{◌≡◌, IfOk};
ghost use Rattle.pts_ctx.specs.Entries.{global_of};
ghost use Rattle.pts_check.specs.Entered.{declared};

use pts_ctx::Entry;
use pts_record::Declaration;
use std::alloc::{AllocError, Global};

/// The same declarations again, with their records.
pub(crate) fn copies_of(
    alloc: Global,
    declarations: &[Declaration],
) -> Result<Vec<Declaration>, AllocError>
    ensures { IfOk result (λ v. v.items ≡ declarations.now) }
{
    let mut copies = Vec::new(alloc);
    for declaration in declarations {
        copies.push(copy_of(alloc, declaration)?)?;
    }
    Ok(copies)
}

fn copy_of(alloc: Global, declaration: &Declaration) -> Result<Declaration, AllocError>
    ensures { IfOk result (λ d. d ≡ declaration.now) }
{
    let body = match &declaration.body {
        Some(body) => Some(body.copy(alloc)?),
        None => None,
    };
    Ok(Declaration {
        name: declaration.name.copy()?,
        body,
        ty: declaration.ty.copy(alloc)?,
        proof: declaration.proof.copy()?,
    })
}

/// The entry of a declaration, as a copy.
pub(crate) fn entry_of(alloc: Global, declaration: &Declaration) -> Result<Entry, AllocError>
    ensures entry { IfOk result (λ e. global_of e ≡ declared declaration.now) }
    ensures name { IfOk result (λ e. e.name ≡ declaration.now.name) }
{
    let body = match &declaration.body {
        Some(body) => Some(body.copy(alloc)?),
        None => None,
    };
    Ok(Entry {
        name: declaration.name.copy()?,
        body,
        ty: declaration.ty.copy(alloc)?,
    })
}

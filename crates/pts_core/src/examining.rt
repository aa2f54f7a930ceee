// The declarations of an offer are looked at.

ghost use Rattle.std.specs.Prelude.{◌≡◌, map, true, IfOk};
ghost use Rattle.pts_ctx.specs.Entries.{global_of};
ghost use Rattle.pts_ctx.specs.Seen.{globals_within};
ghost use Rattle.pts_check.specs.Entered.{declared, declared_entries};
ghost use Rattle.pts_core.specs.declared.finding.Finding.TheVariants.{Sound};
ghost use Rattle.pts_core.specs.Findings.{finding_of};
ghost use Rattle.pts_core.specs.Copies.{ClashesAt};

use crate::finding::Finding;
use pts_check::declaration_fault;
use pts_ctx::{Context, Entry, System};
use pts_record::Declaration;
use std::alloc::{AllocError, Global};

/// What was found, and the place of a name that is there twice.
#[derive(Clone, Copy)]
pub(crate) struct Found {
    pub(crate) finding: Finding,
    pub(crate) place: usize,
}

/// What is found of declarations over a front, which is given back.
pub(crate) fn look_through(
    alloc: Global,
    system: &System,
    front: Context,
    declarations: &[Declaration],
) -> Result<Found, AllocError>
    ensures finding { IfOk result (λ f. f.finding ≡ finding_of system.now front.entries declarations.now) }
    ensures clash { IfOk result (λ f. ClashesAt f.finding f.place front.entries (declared_entries declarations.now)) }
    ensures within { IfOk result (λ f. f.finding ≡ Sound → globals_within (declared_entries declarations.now) ≡ true) }
{
    let mut scope = front;
    scope.reserve(declarations.len(), 0)?;
    for (number, declaration) in declarations.iter().enumerate() {
        if let Some(place) = scope.place_of(&declaration.name) {
            let finding = Finding::Doubled {
                declaration: number,
            };
            return Ok(Found { finding, place });
        }
        if let Some((node, why)) = declaration_fault(system, &scope, declaration) {
            let finding = Finding::Faulty {
                declaration: number,
                node,
                why,
            };
            return Ok(Found { finding, place: 0 });
        }
        let key = declaration.name.copy()?;
        scope.push(entry_of(alloc, declaration)?, key);
    }
    Ok(Found {
        finding: Finding::Sound,
        place: 0,
    })
}

// The entry of a declaration, as a copy.
fn entry_of(alloc: Global, declaration: &Declaration) -> Result<Entry, AllocError>
    ensures entry { IfOk result (λ e. global_of e ≡ declared declaration.now) }
    ensures name { IfOk result (λ e. e.name ≡ declaration.now.name) }
{
    let body = match &declaration.body {
        Some(body) => Some(body.copy(alloc)?),
        None => None,
    };
    Ok(Entry {
        name: declaration.name.copy()?,
        body,
        ty: declaration.ty.copy(alloc)?,
    })
}

/// The entries of declarations, as copies.
pub(crate) fn entry_copies(
    alloc: Global,
    declarations: &[Declaration],
) -> Result<Vec<Entry>, AllocError>
    ensures { IfOk result (λ v. map global_of v.items ≡ declared_entries declarations.now) }
{
    let mut entries = Vec::with_capacity(alloc, declarations.len())?;
    for declaration in declarations {
        entries.push(entry_of(alloc, declaration)?)?;
    }
    Ok(entries)
}

/// The entries of declarations, whose records are given back.
pub(crate) fn entries_of(
    alloc: Global,
    declarations: Vec<Declaration>,
) -> Result<Vec<Entry>, AllocError>
    ensures { IfOk result (λ v. map global_of v.items ≡ declared_entries declarations.items) }
{
    let mut entries = Vec::with_capacity(alloc, declarations.len())?;
    for declaration in declarations {
        let Declaration { name, body, ty, .. } = declaration;
        entries.push(Entry { name, body, ty })?;
    }
    Ok(entries)
}

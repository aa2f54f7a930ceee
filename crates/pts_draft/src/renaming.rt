// Declarations under new names.

ghost use Rattle.std.specs.Prelude.{◌≡◌, ◌∷◌, ◌++◌, [], map, true, IfOk, OnOk};
ghost use Rattle.pts_ctx.specs.Front.{Fresh};
ghost use Rattle.pts_ctx.specs.Seen.{NamesDiffer, global_within, globals_within};
ghost use Rattle.pts_record.specs.Renaming.{renamed_record};
ghost use Rattle.pts_check.specs.Entered.{declared, declared_entries};
ghost use Rattle.pts_image.specs.Renaming.{renamed_entry};
ghost use Rattle.pts_draft.specs.Renaming.{AreRenamed, declares, proofs_of};

use crate::scopes::extend;
use pts_ctx::Context;
use pts_image::rename_declaration;
use pts_names::Name;
use pts_record::{Declaration, Names};
use std::alloc::{AllocError, Global};

/// Whether one of the declarations has the name.
pub(crate) fn declares(declarations: &[Declaration], name: &Name) -> bool
    ensures { result ≡ declares declarations.now name.now }
{
    for declaration in declarations {
        if name.same(&declaration.name) {
            return true;
        }
    }
    false
}

/// Copies of declarations with new names, and their entries after those of a scope.
pub(crate) fn extend_renamed<N: Names>(
    alloc: Global,
    scope: &mut Context,
    declarations: &[Declaration],
    names: &N,
) -> Result<Vec<Declaration>, AllocError>
    requires differ { NamesDiffer (scope.old.entries ++ map (renamed_entry (N.new_name names.now)) (declared_entries declarations.now)) }
    requires within { globals_within (declared_entries declarations.now) ≡ true }
    ensures renamed { IfOk result (λ v. AreRenamed (N.new_name names.now) declarations.now v.items) }
    ensures entries { OnOk result (scope.new.entries ≡ scope.old.entries ++ map (renamed_entry (N.new_name names.now)) (declared_entries declarations.now)) }
    ensures labels { scope.new.labels ≡ scope.old.labels }
{
    let mut renamed = Vec::new(alloc);
    for declaration in declarations {
        add_renamed(alloc, scope, &mut renamed, declaration, names)?;
    }
    Ok(renamed)
}

// Adds a copy of a declaration with new names after others, and its entry after those of a scope.
fn add_renamed<N: Names>(
    alloc: Global,
    scope: &mut Context,
    renamed: &mut Vec<Declaration>,
    declaration: &Declaration,
    names: &N,
) -> Result<(), AllocError>
    requires fresh { Fresh (N.new_name names.now declaration.now.name) scope.old.entries }
    requires within { global_within (declared declaration.now) ≡ true }
    ensures added { OnOk result (declared_entries renamed.new.items ≡ declared_entries renamed.old.items ++ renamed_entry (N.new_name names.now) (declared declaration.now) ∷ []) }
    ensures proofs { OnOk result (proofs_of renamed.new.items ≡ proofs_of renamed.old.items ++ renamed_record (N.new_name names.now) declaration.now.proof ∷ []) }
    ensures entries { OnOk result (scope.new.entries ≡ scope.old.entries ++ renamed_entry (N.new_name names.now) (declared declaration.now) ∷ []) }
    ensures labels { scope.new.labels ≡ scope.old.labels }
{
    let later = rename_declaration(alloc, declaration, names)?;
    extend(alloc, scope, renamed, later)
}

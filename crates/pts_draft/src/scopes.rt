// Fronts with declarations after them.

ghost use Rattle.std.specs.Prelude.{◌≡◌, ◌<◌, ◌≤◌, ◌+◌, ◌∷◌, ◌++◌, [], drop, length, true, IfOk, OnOk, OnErr};
ghost use Rattle.std.specs.Option.{option_map};
ghost use Rattle.pts_ctx.specs.Front.{Fresh};
ghost use Rattle.pts_ctx.specs.Seen.{NamesDiffer, global_within};
ghost use Rattle.pts_check.specs.Entered.{declared};
ghost use Rattle.pts_draft.specs.Drafts.{first_taken};

use crate::copies::entry_of;
use pts_ctx::Context;
use pts_names::Name;
use pts_record::Declaration;
use std::alloc::{AllocError, Global};

/// The first declaration whose name exists in a front, by that name and its place there.
pub(crate) fn first_taken<'a>(
    front: &Context,
    declarations: &'a [Declaration],
) -> Option<(&'a Name, usize)>
    ensures { option_map (λ t. (t.0.now, t.1)) result ≡ first_taken front.now.entries declarations.now }
{
    for declaration in declarations {
        if let Some(place) = front.place_of(&declaration.name) {
            return Some((&declaration.name, place));
        }
    }
    None
}

/// A front with the entries of a scope from a place on after it, which the two share.
pub(crate) fn scope_over(
    front: &Context,
    scope: &mut Context,
    from: usize,
) -> Result<Context, AllocError>
    requires inside { from ≤ length scope.old.entries }
    requires differ { NamesDiffer (front.now.entries ++ drop from scope.old.entries) }
    ensures entries { IfOk result (λ c. c.entries ≡ front.now.entries ++ drop from scope.old.entries) }
    ensures labels { IfOk result (λ c. c.labels ≡ front.now.labels) }
    ensures scope { scope.new ≡ scope.old }
{
    let mut longer = front.copy()?;
    longer.extend_from(scope, from)?;
    Ok(longer)
}

/// Adds a declaration after others, and a copy of its entry to their scope. Where memory runs out nothing is added.
pub(crate) fn extend(
    alloc: Global,
    scope: &mut Context,
    declarations: &mut Vec<Declaration>,
    declaration: Declaration,
) -> Result<(), AllocError>
    requires fresh { Fresh declaration.name scope.old.entries }
    requires within { global_within (declared declaration) ≡ true }
    ensures declarations { OnOk result (declarations.new.items ≡ declarations.old.items ++ declaration ∷ []) }
    ensures entries { OnOk result (scope.new.entries ≡ scope.old.entries ++ declared declaration ∷ []) }
    ensures labels { scope.new.labels ≡ scope.old.labels }
    ensures same { OnErr result (declarations.new.items ≡ declarations.old.items) }
    ensures same_entries { OnErr result (scope.new.entries ≡ scope.old.entries) }
{
    scope.reserve(1, 0)?;
    declarations.reserve(1)?;
    push_entry(alloc, scope, &declaration)?;
    match declarations.push(declaration) {
        Ok(()) => Ok(()),
        Err(_) => unreachable!(),
    }
}

// Adds a copy of the entry of a declaration, for which there is room.
fn push_entry(
    alloc: Global,
    scope: &mut Context,
    declaration: &Declaration,
) -> Result<(), AllocError>
    requires fresh { Fresh declaration.now.name scope.old.entries }
    requires within { global_within (declared declaration.now) ≡ true }
    requires room { 0 < scope.old.spare_entries }
    ensures entries { OnOk result (scope.new.entries ≡ scope.old.entries ++ declared declaration.now ∷ []) }
    ensures labels { scope.new.labels ≡ scope.old.labels }
    ensures spare { scope.old.spare_entries ≤ scope.new.spare_entries + 1 }
    ensures same { OnErr result (scope.new.entries ≡ scope.old.entries) }
{
    let key = declaration.name.copy()?;
    let entry = entry_of(alloc, declaration)?;
    scope.push(entry, key);
    Ok(())
}

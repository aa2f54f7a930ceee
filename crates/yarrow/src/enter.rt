// Declarations enter a context.

ghost use Rattle.std.specs.Prelude.{◌≡◌, ◌<◌, ◌≤◌, ◌+◌, ◌++◌, ◌∷◌, [], length, map, true, None, Ok, IfOk, IsSome};
ghost use Rattle.pts_ctx.specs.Front.{Fresh};
ghost use Rattle.pts_ctx.specs.Seen.{global_within};
ghost use Rattle.pts_certificate.specs.Seen.{declared_of};
ghost use Rattle.yarrow.specs.Enter.{entry_of, refusal_of, enter_all};

use pts_check::declaration_fault;
use pts_ctx::{Context, Entry, ROOM, System};
use pts_names::Name;
use pts_record::Declaration;
use pts_rules::Why;
use std::alloc::{AllocError, Global};

/// Why a declaration does not enter a context.
#[derive(Debug, Drop)]
pub enum Refusal {
    /// The name is taken already, at that place.
    Clash(Name, usize),
    /// The context has 200,000 entries.
    Full,
    /// The node is no instance of its form, and that is the first condition that it breaks. Where all are instances and
    /// the record does not conclude the declaration, it is the number of nodes with `Conclusion`.
    Faulty(Name, usize, Why),
}

/// A context, and why the next declaration did not enter it.
#[derive(Drop)]
pub struct Entrance {
    pub context: Context,
    pub refusal: Option<Refusal>,
}

/// Enters declarations into the empty context, in order, until the first that is refused.
pub fn enter_all(
    alloc: Global,
    system: &System,
    declarations: Vec<Declaration>,
) -> Result<Entrance, AllocError>
    ensures entries { IfOk result (λ e. e.context.entries ≡ (enter_all system.now [] (map declared_of declarations.items)).entries) }
    ensures labels { IfOk result (λ e. e.context.labels ≡ []) }
    ensures refusal { IfOk result (λ e. e.refusal ≡ (enter_all system.now [] (map declared_of declarations.items)).refusal) }
{
    let mut context = Context::new(alloc);
    context.reserve(declarations.len().min(ROOM), 0)?;
    let mut rest = declarations.into_iter();
    while let Some(declaration) = rest.next() {
        let refusal = enter(system, &mut context, declaration)?;
        if refusal.is_some() {
            return Ok(Entrance { context, refusal });
        }
    }
    Ok(Entrance {
        context,
        refusal: None,
    })
}

// Enters a declaration, or says why not.
fn enter(
    system: &System,
    context: &mut Context,
    declaration: Declaration,
) -> Result<Option<Refusal>, AllocError>
    requires room { length context.old.entries < 200000 → 0 < context.old.spare_entries }
    ensures refusal { IfOk result (λ r. r ≡ refusal_of system.now context.old.entries (declared_of declaration)) }
    ensures entered { result ≡ Ok None → context.new.entries ≡ context.old.entries ++ entry_of (declared_of declaration) ∷ [] }
    ensures kept { IfOk result (λ r. IsSome r → context.new.entries ≡ context.old.entries) }
    ensures labels { context.new.labels ≡ context.old.labels }
    ensures spare { context.old.spare_entries ≤ context.new.spare_entries + 1 }
{
    if let Some(refusal) = refusal_of(system, context, &declaration)? {
        return Ok(Some(refusal));
    }
    let key = declaration.name.copy()?;
    let Declaration { name, body, ty, .. } = declaration;
    context.push(Entry { name, body, ty }, key);
    Ok(None)
}

// Why a declaration does not enter. The terms of one that does are within limits.
#[tactic(auto, unfolding(crate::specs::Enter::refusal_of))]
fn refusal_of(
    system: &System,
    context: &Context,
    declaration: &Declaration,
) -> Result<Option<Refusal>, AllocError>
    ensures refusal { IfOk result (λ r. r ≡ refusal_of system.now context.now.entries (declared_of declaration.now)) }
    ensures fresh { result ≡ Ok None → Fresh declaration.now.name context.now.entries }
    ensures few { result ≡ Ok None → length context.now.entries < 200000 }
    ensures within { result ≡ Ok None → global_within (entry_of (declared_of declaration.now)) ≡ true }
{
    if let Some(place) = context.place_of(&declaration.name) {
        return Ok(Some(Refusal::Clash(declaration.name.copy()?, place)));
    }
    if context.len() >= ROOM {
        return Ok(Some(Refusal::Full));
    }
    match declaration_fault(system, context, declaration) {
        Some(fault) => Ok(Some(Refusal::Faulty(declaration.name.copy()?, fault.0, fault.1))),
        None => Ok(None),
    }
}

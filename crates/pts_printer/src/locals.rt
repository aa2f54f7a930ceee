// The printed names of locals.

ghost use Rattle.std.specs.Prelude.{◌≡◌, ◌++◌, ◌∷◌, [], IfOk, OnOk, length, map, reverse, vec_len, ◌&&◌};
ghost use Rattle.pts_terms.specs.Seen.{named};
ghost use Rattle.pts_printed.specs.Locals as written;
ghost use Rattle.pts_names.specs.Name.{same_name, underscore};

use crate::choice::{add_constants, is_needed_underscore, is_underscore};
use crate::occurrence::occurs;
use crate::outer::Outer;
use crate::taken::Taken;
use pts_names::{Name, Text};
use pts_terms::Term;
use std::alloc::{AllocError, Global};

/// The printed names of the locals around a term, of which the outermost is the first.
#[tactic(auto, unfolding(pts_printed::specs::Locals::chosen_locals))]
pub(crate) fn chosen_locals(
    alloc: Global,
    locals: &[Name],
    term: &Term,
) -> Result<Outer, AllocError>
    ensures { IfOk result (λ outer. outer ≡ reverse (written.chosen_locals locals.now (named term.now))) }
{
    let mut taken = Taken::new(alloc);
    add_constants(term, &mut taken)?;
    for place in 0..locals.len() {
        let local = &locals[place];
        let used = is_needed_underscore(local, term, (locals.len() - 1 - place) as u64);
        let name = taken.choice(alloc, local, used)?;
        taken.add_variable(name)?;
    }
    Ok(Outer::of(taken.into_variables()))
}

/// The printed names of the hypotheses of a goal, in their order.
#[tactic(auto, unfolding(pts_printed::specs::Locals::goal_locals))]
pub(crate) fn goal_names(
    alloc: Global,
    names: &[Name],
    types: &[Term],
    statement: &Term,
) -> Result<Vec<Text>, AllocError>
    requires { length names.now ≡ length types.now }
    ensures count { IfOk result (λ chosen. vec_len chosen ≡ length names.now) }
    ensures names { IfOk result (λ chosen. chosen.items ≡ written.goal_locals names.now (map named types.now) (named statement.now)) }
{
    let mut taken = Taken::new(alloc);
    add_goal_constants(types, statement, &mut taken)?;
    for place in 0..names.len() {
        let name = &names[place];
        let used = is_used_behind(name, &types[place + 1..], statement);
        let chosen = taken.choice(alloc, name, used)?;
        taken.add_variable(chosen)?;
    }
    Ok(taken.into_variables())
}

// Adds the constants of one part that occur in a goal.
fn add_goal_constants<'a>(
    types: &'a [Term],
    statement: &'a Term,
    taken: &mut Taken<'a>,
) -> Result<(), AllocError>
    ensures variables { OnOk result (taken.new.variables ≡ taken.old.variables) }
    ensures constants { OnOk result (taken.new.constants ≡ taken.old.constants ++ written.goal_constants (map named types.now) (named statement.now)) }
{
    for ty in types {
        add_constants(ty, taken)?;
    }
    add_constants(statement, taken)
}

// Whether the name of a hypothesis is `_` and its variable occurs after it. Of other names it does not matter.
fn is_used_behind(name: &Name, types: &[Term], statement: &Term) -> bool
    ensures { result ≡ (same_name name.now underscore && written.occurs_behind 0 (map named types.now) (named statement.now)) }
{
    if is_underscore(name) {
        return occurs_behind(types, statement);
    }
    false
}

// Whether the variable of a hypothesis occurs in the types after it or in the statement.
fn occurs_behind(types: &[Term], statement: &Term) -> bool
    ensures { result ≡ written.occurs_behind 0 (map named types.now) (named statement.now) }
{
    for place in 0..types.len() {
        if occurs(&types[place], place as u64) {
            return true;
        }
    }
    occurs(statement, types.len() as u64)
}

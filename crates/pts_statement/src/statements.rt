// Statements of modules.

ghost use Rattle.std.specs.Prelude.{◌≡◌, ◌≤◌, length, true, IfOk, IfErr, Ok, None, option_map};
ghost use Rattle.pts_names.specs.Name.{joined, is_short};
ghost use Rattle.pts_ctx.specs.Front.{Fresh};
ghost use Rattle.pts_ctx.specs.Seen.{place_of};
ghost use Rattle.pts_grammar.specs.Seen.{syntax_of};
ghost use Rattle.pts_rules.specs.Meter.{left};
ghost use Rattle.pts_reduce_cost.specs.Laws.{WithinBudget};
ghost use Rattle.pts_infer_cost.specs.Typing.{comes};
ghost use Rattle.pts_check.specs.Entered.{declared, MayEnter};
ghost use Rattle.pts_reduce.specs.Given.{Later};
ghost use Rattle.pts_declare.specs.Stated.{stated_of};
ghost use Rattle.pts_statement.specs.Statements.{Statement, assumes, defines, name_of, stated, visible};
ghost use Rattle.pts_statement.specs.Declaring.{Declares};
ghost use Rattle.pts_statement.specs.Refusals.{RefusesStatement, NotFree, AnswersStated};

use crate::fault::StatementFault;
use crate::scope::FileScope;
use pts_ctx::{Context, System};
use pts_declare::{Stated, check};
use pts_names::{Name, NameFault};
use pts_parser::{ReadFault, Tree, resolve};
use pts_record::Declaration;
use pts_rules::Meter;
use std::alloc::Global;

/// The assumption of a name with that type, in the module with that label: names and sorts are looked up, and the type is
/// inferred with the sort test. The declaration is called after the module.
///
/// # Errors
///
/// First `Read` with the first name or sort that is unknown, from the left; then `Taken`, where the name is taken already;
/// then `Declare` with the fault of `pts_declare::check`, at its cost. After `Spent` the meter stands at its limit.
/// `Memory`.
#[tactic(auto, using(crate::proofs::Stating::unread_refused))]
pub fn assume(
    alloc: Global,
    system: &System,
    front: &Context,
    label: &Name,
    name: &Name,
    ty: &Tree,
    meter: &mut Meter,
) -> Result<Declaration, StatementFault>
    requires label { length label.now ≤ 63 }
    requires name { is_short name.now ≡ true }
    ensures declared { IfOk result (λ d. WithinBudget (Declares system.now label.now front.now.entries (assumes name.now (syntax_of ty.now))) (left meter.old) (comes (declared d)) (left meter.new)) }
    ensures refused { IfErr result (λ e. RefusesStatement system.now label.now front.now.entries (assumes name.now (syntax_of ty.now)) e (left meter.old) (left meter.new)) }
    ensures evidence { IfOk result (λ d. MayEnter system.now front.now.entries d) }
    ensures later { Later meter.old meter.new }
{
    let stated = assumed(alloc, system, front, label, name, ty)?;
    declare(alloc, system, front, label, name, stated, meter)
}

/// The definition of a name by that body, with that type if there is one, in the module with that label: names and sorts
/// are looked up, the body is inferred, and a given type is inferred and fitted. The declaration is called after the
/// module.
///
/// # Errors
///
/// Those of `assume`. A type is looked up before the body.
#[tactic(auto, using(crate::proofs::Stating::unread_refused))]
pub fn define(
    alloc: Global,
    system: &System,
    front: &Context,
    label: &Name,
    name: &Name,
    ty: Option<&Tree>,
    body: &Tree,
    meter: &mut Meter,
) -> Result<Declaration, StatementFault>
    requires label { length label.now ≤ 63 }
    requires name { is_short name.now ≡ true }
    ensures declared { IfOk result (λ d. WithinBudget (Declares system.now label.now front.now.entries (defines name.now (option_map (λ t. syntax_of t.now) ty.entry) (syntax_of body.now))) (left meter.old) (comes (declared d)) (left meter.new)) }
    ensures refused { IfErr result (λ e. RefusesStatement system.now label.now front.now.entries (defines name.now (option_map (λ t. syntax_of t.now) ty.entry) (syntax_of body.now)) e (left meter.old) (left meter.new)) }
    ensures evidence { IfOk result (λ d. MayEnter system.now front.now.entries d) }
    ensures later { Later meter.old meter.new }
{
    let stated = defined(alloc, system, front, label, name, ty, body)?;
    declare(alloc, system, front, label, name, stated, meter)
}

// What is stated by an assumption.
fn assumed(
    alloc: Global,
    system: &System,
    front: &Context,
    label: &Name,
    name: &Name,
    ty: &Tree,
) -> Result<Stated, ReadFault>
    requires label { length label.now ≤ 63 }
    ensures { AnswersStated result (stated system.now.sorts (visible label.now front.now.entries) (assumes name.now (syntax_of ty.now))) }
{
    let _ = name;
    let scope = FileScope::of(label, front);
    let ty = resolve(alloc, ty, system, &[], &scope)?;
    Ok(Stated::Assumption(ty))
}

// What is stated by a definition.
fn defined(
    alloc: Global,
    system: &System,
    front: &Context,
    label: &Name,
    name: &Name,
    ty: Option<&Tree>,
    body: &Tree,
) -> Result<Stated, ReadFault>
    requires label { length label.now ≤ 63 }
    ensures { AnswersStated result (stated system.now.sorts (visible label.now front.now.entries) (defines name.now (option_map (λ t. syntax_of t.now) ty.entry) (syntax_of body.now))) }
{
    let _ = name;
    let scope = FileScope::of(label, front);
    match ty {
        Some(ty) => {
            let ty = resolve(alloc, ty, system, &[], &scope)?;
            let body = resolve(alloc, body, system, &[], &scope)?;
            Ok(Stated::Typed(ty, body))
        }
        None => Ok(Stated::Definition(resolve(alloc, body, system, &[], &scope)?)),
    }
}

// The declaration of what was stated.
#[tactic(auto, using(crate::proofs::Stating::taken_by, crate::proofs::Stating::declared_by, crate::proofs::Stating::refused_by))]
fn declare(
    alloc: Global,
    system: &System,
    front: &Context,
    label: &Name,
    name: &Name,
    given: Stated,
    meter: &mut Meter,
) -> Result<Declaration, StatementFault>
    requires label { length label.now ≤ 63 }
    requires name { is_short name.now ≡ true }
    ensures declared { IfOk result (λ r. (d : Statement) → name_of d ≡ name.now → stated system.now.sorts (visible label.now front.now.entries) d ≡ Ok (stated_of given) → WithinBudget (Declares system.now label.now front.now.entries d) (left meter.old) (comes (declared r)) (left meter.new)) }
    ensures refused { IfErr result (λ e. (d : Statement) → name_of d ≡ name.now → stated system.now.sorts (visible label.now front.now.entries) d ≡ Ok (stated_of given) → RefusesStatement system.now label.now front.now.entries d e (left meter.old) (left meter.new)) }
    ensures evidence { IfOk result (λ d. MayEnter system.now front.now.entries d) }
    ensures later { Later meter.old meter.new }
{
    match free_name(alloc, front, label, name) {
        Ok(name) => Ok(check(alloc, system, front, name, given, meter)?),
        Err(fault) => Err(fault),
    }
}

// The name that a declaration of the module gets, if it is free.
fn free_name(
    alloc: Global,
    front: &Context,
    label: &Name,
    name: &Name,
) -> Result<Name, StatementFault>
    requires label { length label.now ≤ 63 }
    requires name { is_short name.now ≡ true }
    ensures name { IfOk result (λ x. x ≡ joined label.now name.now) }
    ensures free { IfOk result (λ x. place_of x front.now.entries ≡ None) }
    ensures fresh { IfOk result (λ x. Fresh x front.now.entries) }
    ensures taken { IfErr result (λ e. NotFree (joined label.now name.now) front.now.entries e) }
{
    let whole = match Name::join(alloc, label, name) {
        Ok(whole) => whole,
        Err(NameFault::Memory) => return Err(StatementFault::Memory),
        Err(_) => unreachable!(),
    };
    match front.place_of(&whole) {
        Some(place) => Err(StatementFault::Taken(whole, place)),
        None => Ok(whole),
    }
}

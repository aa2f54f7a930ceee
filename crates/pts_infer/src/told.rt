// Flaws, which are found deep inside and shown from the whole.

ghost use Rattle.std.specs.Prelude.{◌≡◌, ◌<◌, ℕ, List, length};
ghost use Rattle.pts_record.specs.declared.shape.Shape.{Shape};
ghost use Rattle.pts_record.specs.Table.{named_at};
ghost use Rattle.pts_reduce_cost.specs.Run.{fails};
ghost use Rattle.pts_infer_cost.specs.Typing.{here, into, under, unsorted, not_a_sort, not_product, judged, of_argument, of_definition};
ghost use Rattle.pts_infer.specs.Given.{FoundAs, MisfitsWith, ToldAs, ToldWanted, ToldOf, ShownBelow, kind_of};
ghost use Rattle.pts_infer.specs.Works.{outward};

use crate::fault::{Fault, FoundFlaw, Misfit, What};
use pts_names::Name;
use pts_record::Boxed;
use std::alloc::Global;

/// The way of a flaw outwards: from the part with that number, or from one under a binder.
#[derive(Clone, Copy)]
pub(crate) enum Way<'a> {
    Part(u8),
    Under(u8, &'a Name),
}

/// A flaw that is here.
#[tactic(auto, using(crate::proofs::Outwards::shown_here))]
pub(crate) fn flaw_here(alloc: Global, what: What) -> Fault
    ensures { (ss : List Shape) → ShownBelow (length ss) what → FoundAs ss (here (kind_of ss what)) result }
{
    let found = FoundFlaw {
        place: Vec::new(alloc),
        names: Vec::new(alloc),
        what,
    };
    match Boxed::new(alloc, found) {
        Ok(found) => Fault::Flawed(found),
        Err(_) => Fault::Memory,
    }
}

/// A flaw of a fit that is here.
pub(crate) fn misfit_here(alloc: Global, what: What) -> Misfit
    ensures { (ss : List Shape) (k : ℕ) → ShownBelow (length ss) what → MisfitsWith {A = Unit {0}} ss result k (fails (judged (here (kind_of ss what))) k) }
{
    match flaw_here(alloc, what) {
        Fault::Flawed(found) => Misfit::Own(found),
        Fault::Memory | Fault::Spent | Fault::Deep => Misfit::Memory,
    }
}

// A found flaw, from the part with that number.
#[tactic(auto, using(crate::proofs::Outwards::outwards))]
fn outwards(alloc: Global, found: Boxed<FoundFlaw>, part: u8) -> Fault
    ensures { (ss : List Shape) → ToldAs (into part) ss (Fault.Flawed found) result }
{
    let FoundFlaw { place, names, what } = found.into_inner();
    let mut place = place;
    if place.push(part).is_err() {
        return Fault::Memory;
    }
    match Boxed::new(alloc, FoundFlaw { place, names, what }) {
        Ok(found) => Fault::Flawed(found),
        Err(_) => Fault::Memory,
    }
}

// A found flaw, from the part with that number under a binder.
#[tactic(auto, using(crate::proofs::Outwards::outwards_under))]
fn outwards_under(alloc: Global, found: Boxed<FoundFlaw>, part: u8, x: &Name) -> Fault
    ensures { (ss : List Shape) → ToldAs (under part x.now) ss (Fault.Flawed found) result }
{
    let FoundFlaw { place, names, what } = found.into_inner();
    let (mut place, mut names) = (place, names);
    let Ok(x) = x.copy() else {
        return Fault::Memory;
    };
    if place.push(part).is_err() || names.push(x).is_err() {
        return Fault::Memory;
    }
    match Boxed::new(alloc, FoundFlaw { place, names, what }) {
        Ok(found) => Fault::Flawed(found),
        Err(_) => Fault::Memory,
    }
}

/// A fault of the part with that number, shown from the whole.
pub(crate) fn into_part(alloc: Global, fault: Fault, part: u8) -> Fault
    ensures { (ss : List Shape) → ToldAs (into part) ss fault result }
{
    match fault {
        Fault::Flawed(found) => outwards(alloc, found, part),
        Fault::Spent => Fault::Spent,
        Fault::Deep => Fault::Deep,
        Fault::Memory => Fault::Memory,
    }
}

/// A fault of the part with that number under a binder, shown from the whole.
pub(crate) fn under_binder(alloc: Global, fault: Fault, part: u8, x: &Name) -> Fault
    ensures { (ss : List Shape) → ToldAs (under part x.now) ss fault result }
{
    match fault {
        Fault::Flawed(found) => outwards_under(alloc, found, part, x),
        Fault::Spent => Fault::Spent,
        Fault::Deep => Fault::Deep,
        Fault::Memory => Fault::Memory,
    }
}

/// A fault that comes this way, shown from the whole.
pub(crate) fn out_of(alloc: Global, fault: Fault, way: Way<'_>) -> Fault
    ensures { (ss : List Shape) → ToldAs (outward way.entry) ss fault result }
{
    match way {
        Way::Part(part) => into_part(alloc, fault, part),
        Way::Under(part, x) => under_binder(alloc, fault, part, x),
    }
}

// A type that is no sort's, of what is under a binder.
#[tactic(auto, using(crate::proofs::Outwards::found_told))]
fn unsorted_behind(alloc: Global, part: u8, x: &Name, ty: usize) -> Fault
    ensures { (ss : List Shape) → ty < length ss → FoundAs ss (under part x.now (here (not_a_sort (named_at ss ty)))) result }
{
    under_binder(alloc, flaw_here(alloc, What::NotASort(ty)), part, x)
}

/// Any flaw of what has the type with that number says that this type is no sort's.
#[tactic(auto, using(crate::proofs::Outwards::unsorted_told))]
pub(crate) fn unsorted_body(alloc: Global, fault: Fault, part: u8, x: &Name, ty: usize) -> Fault
    ensures { (ss : List Shape) → ty < length ss → ToldAs (unsorted part x.now (named_at ss ty)) ss fault result }
{
    match fault {
        Fault::Flawed(_) => unsorted_behind(alloc, part, x, ty),
        Fault::Spent => Fault::Spent,
        Fault::Deep => Fault::Deep,
        Fault::Memory => Fault::Memory,
    }
}

/// Any flaw of the form of a type says that the type is no product.
#[tactic(auto, using(crate::proofs::Outwards::unproduct_told))]
pub(crate) fn no_product(alloc: Global, fault: Fault, ty: usize) -> Fault
    ensures { (ss : List Shape) → ty < length ss → ToldAs (λ f. here (not_product (named_at ss ty))) ss fault result }
{
    match fault {
        Fault::Flawed(_) => flaw_here(alloc, What::NotProduct(ty)),
        Fault::Spent => Fault::Spent,
        Fault::Deep => Fault::Deep,
        Fault::Memory => Fault::Memory,
    }
}

/// A fault of inferring the wanted type, as one of the fit.
pub(crate) fn for_wanted(fault: Fault) -> Misfit
    ensures { (ss : List Shape) → ToldWanted ss fault result }
{
    match fault {
        Fault::Flawed(found) => Misfit::Wanted(found),
        Fault::Spent => Misfit::Spent,
        Fault::Deep => Misfit::Deep,
        Fault::Memory => Misfit::Memory,
    }
}

/// A fault of the fit of an argument, shown from the application.
#[tactic(auto, using(crate::proofs::Outwards::argument_told))]
pub(crate) fn for_argument(alloc: Global, misfit: Misfit, domain: usize) -> Fault
    ensures { (ss : List Shape) → domain < length ss → ToldOf (of_argument (named_at ss domain)) ss misfit result }
{
    match misfit {
        Misfit::Wanted(_) => into_part(alloc, flaw_here(alloc, What::NotASort(domain)), 1),
        Misfit::Own(found) => outwards(alloc, found, 1),
        Misfit::Spent => Fault::Spent,
        Misfit::Deep => Fault::Deep,
        Misfit::Memory => Fault::Memory,
    }
}

/// A fault of the fit of what is defined, shown from the local definition.
#[tactic(auto, using(crate::proofs::Outwards::definition_told))]
pub(crate) fn for_definition(alloc: Global, misfit: Misfit) -> Fault
    ensures { (ss : List Shape) → ToldOf of_definition ss misfit result }
{
    match misfit {
        Misfit::Wanted(found) => outwards(alloc, found, 1),
        Misfit::Own(found) => outwards(alloc, found, 0),
        Misfit::Spent => Fault::Spent,
        Misfit::Deep => Fault::Deep,
        Misfit::Memory => Fault::Memory,
    }
}

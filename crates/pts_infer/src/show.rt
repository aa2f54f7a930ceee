// Flaws, as they are answered: by terms in place of numbers.

ghost use Rattle.std.specs.Prelude.{◌≡◌, ◌++◌, IfOk, length, reverse};
ghost use Rattle.pts_infer.specs.Given.{ShownBelow, FaultStands, MisfitStands, flaw_of, kind_of};
ghost use Rattle.pts_infer.specs.Answered.{kind_seen, flaw_seen, behind, ShownAs, ShownJudged, ShownMisfit};

use crate::answer::{FitFault, Flaw, FlawKind, InferFault};
use crate::fault::{Fault, FoundFlaw, Misfit, What};
use pts_names::{List, Name};
use pts_record::Record;
use std::alloc::{AllocError, Global};

// What is wrong, by terms.
fn show_kind(proof: &Record, what: What) -> Result<FlawKind, AllocError>
    requires { ShownBelow (length proof.now.shapes) what }
    ensures { IfOk result (λ k. kind_seen k ≡ kind_of proof.now.shapes what) }
{
    Ok(match what {
        What::NotASort(term) => FlawKind::NotASort(proof.tree(term)?),
        What::NotProduct(term) => FlawKind::NotProduct(proof.tree(term)?),
        What::NoRule(first, second) => FlawKind::NoRule(first, second),
        What::NoAxiom(sort) => FlawKind::NoAxiom(sort),
        What::NotConvertible(place, have, want) => show_types(proof, place, have, want)?,
    })
}

// Two types that are not convertible.
fn show_types(
    proof: &Record,
    place: List<u8>,
    have: usize,
    want: usize,
) -> Result<FlawKind, AllocError>
    requires { ShownBelow (length proof.now.shapes) (What.NotConvertible place have want) }
    ensures { IfOk result (λ k. kind_seen k ≡ kind_of proof.now.shapes (What.NotConvertible place have want)) }
{
    let have = proof.tree(have)?;
    let want = proof.tree(want)?;
    Ok(FlawKind::NotConvertible { place, have, want })
}

// Copies of names.
fn copies(alloc: Global, names: &[Name]) -> Result<Vec<Name>, AllocError>
    ensures { IfOk result (λ v. v.items ≡ names.now) }
{
    let mut copies = Vec::new(alloc);
    for name in names {
        copies.push(name.copy()?)?;
    }
    Ok(copies)
}

// The given names, and after them those that were passed, of which the last is the outermost.
fn show_names(alloc: Global, given: &[Name], passed: Vec<Name>) -> Result<List<Name>, AllocError>
    ensures { IfOk result (λ l. l ≡ given.now ++ reverse passed.items) }
{
    let mut names = copies(alloc, given)?;
    let mut passed = passed;
    'names: while let Some(name) = passed.pop() {
        names.push(name)?;
    }
    Ok(List::of(names))
}

/// A flaw that was found.
pub(crate) fn show_flaw(
    proof: &Record,
    names: &[Name],
    found: FoundFlaw,
) -> Result<Flaw, AllocError>
    requires { ShownBelow (length proof.now.shapes) found.what }
    ensures { IfOk result (λ f. flaw_seen f ≡ behind names.now (flaw_of proof.now.shapes found)) }
{
    let FoundFlaw {
        mut place,
        names: passed,
        what,
    } = found;
    place.reverse();
    Ok(Flaw {
        place: List::of(place),
        names: show_names(proof.alloc(), names, passed)?,
        kind: show_kind(proof, what)?,
    })
}

/// A fault of inference.
pub(crate) fn show_fault(proof: &Record, names: &[Name], fault: Fault) -> InferFault
    requires { FaultStands (length proof.now.shapes) fault }
    ensures { ShownAs proof.now.shapes names.now fault result }
{
    match fault {
        Fault::Flawed(found) => match show_flaw(proof, names, found.into_inner()) {
            Ok(flaw) => InferFault::Flaw(flaw),
            Err(_) => InferFault::Memory,
        },
        Fault::Spent => InferFault::Spent,
        Fault::Deep => InferFault::Deep,
        Fault::Memory => InferFault::Memory,
    }
}

/// A fault of inference, as one of the judged term.
pub(crate) fn show_judged(proof: &Record, names: &[Name], fault: Fault) -> FitFault
    requires { FaultStands (length proof.now.shapes) fault }
    ensures { ShownJudged proof.now.shapes names.now fault result }
{
    match fault {
        Fault::Flawed(found) => match show_flaw(proof, names, found.into_inner()) {
            Ok(flaw) => FitFault::Judged(flaw),
            Err(_) => FitFault::Memory,
        },
        Fault::Spent => FitFault::Spent,
        Fault::Deep => FitFault::Deep,
        Fault::Memory => FitFault::Memory,
    }
}

// A flaw of the wanted type.
fn show_wanted(proof: &Record, names: &[Name], found: FoundFlaw) -> FitFault
    requires { ShownBelow (length proof.now.shapes) found.what }
    ensures { ShownMisfit proof.now.shapes names.now (Misfit.Wanted found) result }
{
    match show_flaw(proof, names, found) {
        Ok(flaw) => FitFault::Wanted(flaw),
        Err(_) => FitFault::Memory,
    }
}

// A flaw of the judged term.
fn show_own(proof: &Record, names: &[Name], found: FoundFlaw) -> FitFault
    requires { ShownBelow (length proof.now.shapes) found.what }
    ensures { ShownMisfit proof.now.shapes names.now (Misfit.Own found) result }
{
    match show_flaw(proof, names, found) {
        Ok(flaw) => FitFault::Judged(flaw),
        Err(_) => FitFault::Memory,
    }
}

/// A fault of a fit.
pub(crate) fn show_misfit(proof: &Record, names: &[Name], misfit: Misfit) -> FitFault
    requires { MisfitStands (length proof.now.shapes) misfit }
    ensures { ShownMisfit proof.now.shapes names.now misfit result }
{
    match misfit {
        Misfit::Wanted(found) => show_wanted(proof, names, found.into_inner()),
        Misfit::Own(found) => show_own(proof, names, found.into_inner()),
        Misfit::Spent => FitFault::Spent,
        Misfit::Deep => FitFault::Deep,
        Misfit::Memory => FitFault::Memory,
    }
}

// How flaws are printed.

ghost use Rattle.std.specs.Prelude.{◌≡◌, ◌++◌, [], IfOk, string_bytes, get_or};
ghost use Rattle.pts_infer.specs.Answered.{flaw_seen, kind_seen};
ghost use Rattle.pts_flaw_text.specs.FlawText.{kind_text};
ghost use Rattle.pts_flaw_text.specs.FlawText as texts;

use pts_ctx::System;
use pts_infer::{Flaw, FlawKind};
use pts_names::Name;
use pts_printer::print_term;
use pts_terms::Sort;
use std::alloc::{AllocError, Global};

/// How a flaw is printed: the part that has it, as `term` or `argument 2`, its place there, its kind, and the values of the
/// kind, with a blank before each. Its terms are printed in the system, over its names.
pub fn flaw_text(
    alloc: Global,
    system: &System,
    part: &str,
    flaw: &Flaw,
) -> Result<String, AllocError>
    ensures { IfOk result (λ s. string_bytes s ≡ texts.flaw_text system.now.sorts part.now (flaw_seen flaw.now)) }
{
    let place = place_text(alloc, flaw.place.items())?;
    let kind = kind_text(alloc, system, flaw.names.items(), &flaw.kind)?;
    format!(in alloc; "{part} {place} {kind}")
}

/// How a place in a term is printed: its numbers with dots between them, and `-` where it has none.
pub fn place_text(alloc: Global, place: &[u8]) -> Result<String, AllocError>
    ensures { IfOk result (λ s. string_bytes s ≡ texts.place_text place.now) }
{
    let Some((first, rest)) = place.split_first() else {
        return String::from_str(alloc, "-");
    };
    let mut text = format!(in alloc; "{first}")?;
    for number in rest {
        let next = format!(in alloc; ".{number}")?;
        text.push_str(next.as_str())?;
    }
    Ok(text)
}

fn kind_text(
    alloc: Global,
    system: &System,
    names: &[Name],
    kind: &FlawKind,
) -> Result<String, AllocError>
    ensures { IfOk result (λ s. string_bytes s ≡ kind_text system.now.sorts names.now (kind_seen kind.now)) }
{
    match kind {
        FlawKind::NotASort(term) => {
            let term = print_term(alloc, system, names, term)?;
            format!(in alloc; "NotASort {term}")
        }
        FlawKind::NotProduct(term) => {
            let term = print_term(alloc, system, names, term)?;
            format!(in alloc; "NotProduct {term}")
        }
        FlawKind::NoRule(first, second) => {
            let first = sort_text(system, *first);
            let second = sort_text(system, *second);
            format!(in alloc; "NoRule {first} {second}")
        }
        FlawKind::NoAxiom(sort) => {
            let sort = sort_text(system, *sort);
            format!(in alloc; "NoAxiom {sort}")
        }
        FlawKind::NotConvertible { place, have, want } => {
            let place = place_text(alloc, place.items())?;
            let have = print_term(alloc, system, names, have)?;
            let want = print_term(alloc, system, names, want)?;
            format!(in alloc; "NotConvertible {place} {have} ; {want}")
        }
    }
}

// The spelling of a sort, and the empty text where there is none.
#[tactic(auto, using(pts_printer::proofs::Joined::none_there))]
fn sort_text(system: &System, sort: Sort) -> &str
    ensures { result.now ≡ get_or system.now.sorts sort.0 [] }
{
    match system.spelling(sort) {
        Some(spelling) => spelling.text(),
        None => "",
    }
}

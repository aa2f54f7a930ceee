// Goals, as they are written.

ghost use Rattle.std.specs.Prelude.{◌≡◌, ◌++◌, ◌∷◌, [], OnOk, codes, length, map, reverse};
ghost use Rattle.pts_terms.specs.Seen.{named};
ghost use Rattle.pts_printed.specs.Locals.{comma_joined, hypotheses};
ghost use Rattle.pts_printed.specs.Spelled.{spelled};
ghost use Rattle.pts_printed.specs.Text.{text_of};
ghost use Rattle.pts_printer.specs.Commas as commas;

use crate::outer::{Outer, copy};
use crate::page::Page;
use crate::writing::write_term;
use pts_ctx::System;
use pts_names::Text;
use pts_terms::Term;
use std::alloc::{AllocError, Global};

/// Writes the hypotheses of a goal by their printed names, each type over the hypotheses before it.
#[tactic(auto, using(crate::proofs::Joined::commas_first))]
pub(crate) fn hypotheses_at(
    alloc: Global,
    system: &System,
    page: &mut Page,
    outer: &mut Outer,
    names: &[Text],
    types: &[Term],
) -> Result<(), AllocError>
    requires count { length names.now ≡ length types.now }
    requires outermost { outer.old ≡ [] }
    ensures text { OnOk result (page.new ≡ page.old ++ comma_joined (hypotheses system.now.sorts [] names.now (map named types.now))) }
    ensures outer { OnOk result (outer.new ≡ reverse names.now) }
{
    for place in 0..names.len() {
        hypothesis_at(
            alloc,
            system,
            page,
            outer,
            separator(place),
            &names[place],
            &types[place],
        )?;
    }
    Ok(())
}

// A hypothesis, as `x : A`, after which the later types come.
fn hypothesis_at(
    alloc: Global,
    system: &System,
    page: &mut Page,
    outer: &mut Outer,
    separator: &str,
    name: &Text,
    ty: &Term,
) -> Result<(), AllocError>
    ensures text { OnOk result (page.new ≡ page.old ++ (separator.now ++ (name.now ++ (codes " : " ++ text_of (spelled system.now.sorts outer.old (named ty.now)))))) }
    ensures outer { OnOk result (outer.new ≡ name.now ∷ outer.old) }
{
    page.begin(separator, name.text(), " : ")?;
    write_term(alloc, system, page, outer, ty)?;
    Ok(outer.enter(copy(alloc, name)?)?)
}

// What stands before the hypothesis at this place.
fn separator(place: usize) -> &'static str
    ensures { result.now ≡ commas.separator place }
{
    if place == 0 { "" } else { ", " }
}

/// What stands before the statement of a goal with these hypotheses.
pub(crate) fn turnstile(types: &[Term]) -> &'static str
    ensures { result.now ≡ commas.turnstile types.now }
{
    if types.is_empty() { "|- " } else { " |- " }
}

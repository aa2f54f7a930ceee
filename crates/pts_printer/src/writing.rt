// Terms, as they are written.

ghost use Rattle.std.specs.Prelude.{◌≡◌, ◌++◌, ◌∷◌, [], OnOk, codes, get_or};
ghost use Rattle.pts_names.specs.Name.{same_name, underscore};
ghost use Rattle.pts_terms.specs.Seen.{named};
ghost use Rattle.pts_printed.specs.Spelled.{spelled};
ghost use Rattle.pts_printed.specs.Text.{in_parens, is_binding, text_of};
ghost use Rattle.pts_printer.specs.Ahead.{behind, IsTold};

use crate::ahead::Ahead;
use crate::choice::{chosen, product_name};
use crate::form::{is_binding, is_compound};
use crate::outer::Outer;
use crate::page::Page;
use pts_ctx::System;
use pts_names::Text;
use pts_terms::{Boxed, Sort, Term};
use std::alloc::{AllocError, Global};

/// Writes a term among these variables, which are there again after it. Its binders are gone through once before.
pub(crate) fn write_term(
    alloc: Global,
    system: &System,
    page: &mut Page,
    outer: &mut Outer,
    term: &Term,
) -> Result<(), AllocError>
    ensures text { OnOk result (page.new ≡ page.old ++ text_of (spelled system.now.sorts outer.old (named term.now))) }
    ensures outer { OnOk result (outer.new ≡ outer.old) }
{
    let mut ahead = Ahead::of(alloc, term)?;
    term_at(alloc, system, page, outer, &mut ahead, term)
}

// A term with its binders ahead, which are then after.
#[cycle(term_at)]
#[tactic(auto, using(crate::proofs::Joined::let_joined))]
fn term_at(
    alloc: Global,
    system: &System,
    page: &mut Page,
    outer: &mut Outer,
    ahead: &mut Ahead,
    term: &Term,
) -> Result<(), AllocError>
    requires told { IsTold (named term.now) ahead.old }
    ensures text { OnOk result (page.new ≡ page.old ++ text_of (spelled system.now.sorts outer.old (named term.now))) }
    ensures outer { OnOk result (outer.new ≡ outer.old) }
    ensures ahead { OnOk result (ahead.new ≡ behind (named term.now) ahead.old) }
{
    match term {
        Term::Sort(sort) => page.write(spelling(system, *sort)),
        Term::Const(name) => page.write(name.text()),
        Term::Var(index) => page.write(outer.name(*index as usize)),
        Term::App(f, a) => {
            part_at(alloc, system, page, outer, ahead, f, is_binding(f.get()))?;
            page.write(" ")?;
            part_at(alloc, system, page, outer, ahead, a, is_compound(a.get()))
        }
        Term::Lam(x, t, b) => {
            let name = chosen(alloc, x, outer, b.get(), ahead.next())?;
            domain_at(alloc, system, page, outer, ahead, "\\", &name, t)?;
            body_at(alloc, system, page, outer, ahead, name, b)
        }
        Term::Pi(x, t, b) => {
            let name = product_name(alloc, x, outer, b.get(), ahead.next())?;
            if is_arrow(&name) {
                left_at(alloc, system, page, outer, ahead, t)?;
                return body_at(alloc, system, page, outer, ahead, name, b);
            }
            domain_at(alloc, system, page, outer, ahead, "@", &name, t)?;
            body_at(alloc, system, page, outer, ahead, name, b)
        }
        Term::Let(x, d, t, b) => {
            let name = chosen(alloc, x, outer, b.get(), ahead.next())?;
            definition_at(alloc, system, page, outer, ahead, &name, d)?;
            type_at(alloc, system, page, outer, ahead, t)?;
            body_at(alloc, system, page, outer, ahead, name, b)
        }
    }
}

// A part, in parentheses or as it is.
#[cycle(term_at)]
fn part_at(
    alloc: Global,
    system: &System,
    page: &mut Page,
    outer: &mut Outer,
    ahead: &mut Ahead,
    part: &Boxed<Term>,
    wrapped: bool,
) -> Result<(), AllocError>
    requires told { IsTold (named part.now) ahead.old }
    ensures text { OnOk result (page.new ≡ page.old ++ in_parens wrapped (text_of (spelled system.now.sorts outer.old (named part.now)))) }
    ensures outer { OnOk result (outer.new ≡ outer.old) }
    ensures ahead { OnOk result (ahead.new ≡ behind (named part.now) ahead.old) }
{
    if !wrapped {
        return term_at(alloc, system, page, outer, ahead, part.get());
    }
    page.write("(")?;
    term_at(alloc, system, page, outer, ahead, part.get())?;
    page.write(")")
}

// The sign of a binder with its name and its type, as `\x:A. `.
#[cycle(term_at)]
fn domain_at(
    alloc: Global,
    system: &System,
    page: &mut Page,
    outer: &mut Outer,
    ahead: &mut Ahead,
    sign: &str,
    name: &Text,
    domain: &Boxed<Term>,
) -> Result<(), AllocError>
    requires told { IsTold (named domain.now) ahead.old }
    ensures text { OnOk result (page.new ≡ page.old ++ (sign.now ++ (name.now ++ (codes ":" ++ (text_of (spelled system.now.sorts outer.old (named domain.now)) ++ codes ". "))))) }
    ensures outer { OnOk result (outer.new ≡ outer.old) }
    ensures ahead { OnOk result (ahead.new ≡ behind (named domain.now) ahead.old) }
{
    page.begin(sign, name.text(), ":")?;
    term_at(alloc, system, page, outer, ahead, domain.get())?;
    page.write(". ")
}

// What stands to the left of an arrow, and the arrow.
#[cycle(term_at)]
fn left_at(
    alloc: Global,
    system: &System,
    page: &mut Page,
    outer: &mut Outer,
    ahead: &mut Ahead,
    domain: &Boxed<Term>,
) -> Result<(), AllocError>
    requires told { IsTold (named domain.now) ahead.old }
    ensures text { OnOk result (page.new ≡ page.old ++ (in_parens (is_binding (spelled system.now.sorts outer.old (named domain.now))) (text_of (spelled system.now.sorts outer.old (named domain.now))) ++ codes " -> ")) }
    ensures outer { OnOk result (outer.new ≡ outer.old) }
    ensures ahead { OnOk result (ahead.new ≡ behind (named domain.now) ahead.old) }
{
    part_at(
        alloc,
        system,
        page,
        outer,
        ahead,
        domain,
        is_binding(domain.get()),
    )?;
    page.write(" -> ")
}

// A local definition up to its type, as `let x := a`.
#[cycle(term_at)]
fn definition_at(
    alloc: Global,
    system: &System,
    page: &mut Page,
    outer: &mut Outer,
    ahead: &mut Ahead,
    name: &Text,
    definition: &Boxed<Term>,
) -> Result<(), AllocError>
    requires told { IsTold (named definition.now) ahead.old }
    ensures text { OnOk result (page.new ≡ page.old ++ (codes "let " ++ (name.now ++ (codes " := " ++ text_of (spelled system.now.sorts outer.old (named definition.now)))))) }
    ensures outer { OnOk result (outer.new ≡ outer.old) }
    ensures ahead { OnOk result (ahead.new ≡ behind (named definition.now) ahead.old) }
{
    page.begin("let ", name.text(), " := ")?;
    term_at(alloc, system, page, outer, ahead, definition.get())
}

// The type of a local definition, as ` : A in `.
#[cycle(term_at)]
fn type_at(
    alloc: Global,
    system: &System,
    page: &mut Page,
    outer: &mut Outer,
    ahead: &mut Ahead,
    ty: &Boxed<Term>,
) -> Result<(), AllocError>
    requires told { IsTold (named ty.now) ahead.old }
    ensures text { OnOk result (page.new ≡ page.old ++ (codes " : " ++ (text_of (spelled system.now.sorts outer.old (named ty.now)) ++ codes " in "))) }
    ensures outer { OnOk result (outer.new ≡ outer.old) }
    ensures ahead { OnOk result (ahead.new ≡ behind (named ty.now) ahead.old) }
{
    page.write(" : ")?;
    term_at(alloc, system, page, outer, ahead, ty.get())?;
    page.write(" in ")
}

// A body, in which one more variable has this name.
#[cycle(term_at)]
fn body_at(
    alloc: Global,
    system: &System,
    page: &mut Page,
    outer: &mut Outer,
    ahead: &mut Ahead,
    name: Text,
    body: &Boxed<Term>,
) -> Result<(), AllocError>
    requires told { IsTold (named body.now) ahead.old }
    ensures text { OnOk result (page.new ≡ page.old ++ text_of (spelled system.now.sorts (name ∷ outer.old) (named body.now))) }
    ensures outer { OnOk result (outer.new ≡ outer.old) }
    ensures ahead { OnOk result (ahead.new ≡ behind (named body.now) ahead.old) }
{
    outer.enter(name)?;
    term_at(alloc, system, page, outer, ahead, body.get())?;
    outer.leave();
    Ok(())
}

// Whether a product whose variable has this name is written with an arrow.
#[tactic(auto, using(crate::proofs::Names::arrow_name))]
fn is_arrow(name: &Text) -> bool
    ensures { result ≡ same_name name.now underscore }
{
    name.text() == "_"
}

// The spelling of a sort, and the empty text where there is none.
#[tactic(auto, using(crate::proofs::Joined::none_there))]
fn spelling(system: &System, sort: Sort) -> &str
    ensures { result.now ≡ get_or system.now.sorts sort.0 [] }
{
    match system.spelling(sort) {
        Some(name) => name.text(),
        None => "",
    }
}

// Declarations with new names.

ghost use Rattle.std.specs.Prelude.{◌≡◌, IfOk};
ghost use Rattle.std.specs.Option.{option_map};
ghost use Rattle.pts_terms.specs.Seen.{named};
ghost use Rattle.pts_record.specs.Renaming.{renamed_record};
ghost use Rattle.pts_image.specs.Renaming.{renamed_term};

use pts_record::{Declaration, Names, Record};
use pts_terms::Term;
use sqlite_items::Boxed;
use std::alloc::{AllocError, Global};

/// The same declaration with its new name, and with those of the constants in its terms and in its record. It costs a copy.
pub fn rename_declaration<N: Names>(
    alloc: Global,
    declaration: &Declaration,
    names: &N,
) -> Result<Declaration, AllocError>
    ensures name { IfOk result (λ d. d.name ≡ N.new_name names.now declaration.now.name) }
    ensures body { IfOk result (λ d. option_map named d.body ≡ option_map (renamed_term (N.new_name names.now)) (option_map named declaration.now.body)) }
    ensures ty { IfOk result (λ d. named d.ty ≡ renamed_term (N.new_name names.now) (named declaration.now.ty)) }
    ensures proof { IfOk result (λ d. d.proof ≡ renamed_record (N.new_name names.now) declaration.now.proof) }
{
    let body = rename_body(alloc, &declaration.body, names)?;
    let ty = rename_term(alloc, &declaration.ty, names)?;
    Ok(Declaration {
        name: names.new_name(&declaration.name)?,
        body,
        ty,
        proof: rename_proof(&declaration.proof, names)?,
    })
}

fn rename_proof<N: Names>(proof: &Record, names: &N) -> Result<Record, AllocError>
    ensures { IfOk result (λ r. r ≡ renamed_record (N.new_name names.now) proof.now) }
{
    let copy = proof.copy()?;
    copy.renamed(names)
}

fn rename_body<N: Names>(
    alloc: Global,
    body: &Option<Term>,
    names: &N,
) -> Result<Option<Term>, AllocError>
    ensures { IfOk result (λ b. option_map named b ≡ option_map (renamed_term (N.new_name names.now)) (option_map named body.now)) }
{
    match body {
        Some(body) => Ok(Some(rename_term(alloc, body, names)?)),
        None => Ok(None),
    }
}

/// The same term with the new names of its constants. The printed names of binders stay.
#[cycle(rename_term)]
pub fn rename_term<N: Names>(alloc: Global, term: &Term, names: &N) -> Result<Term, AllocError>
    ensures { IfOk result (λ t. named t ≡ renamed_term (N.new_name names.now) (named term.now)) }
{
    match term {
        Term::Sort(s) => Ok(Term::Sort(*s)),
        Term::Const(c) => Ok(Term::Const(names.new_name(c)?)),
        Term::Var(i) => Ok(Term::Var(*i)),
        Term::App(f, a) => Ok(Term::App(
            rename_part(alloc, f, names)?,
            rename_part(alloc, a, names)?,
        )),
        Term::Lam(x, t, b) => Ok(Term::Lam(
            x.copy()?,
            rename_part(alloc, t, names)?,
            rename_part(alloc, b, names)?,
        )),
        Term::Pi(x, t, b) => Ok(Term::Pi(
            x.copy()?,
            rename_part(alloc, t, names)?,
            rename_part(alloc, b, names)?,
        )),
        Term::Let(x, d, t, b) => Ok(Term::Let(
            x.copy()?,
            rename_part(alloc, d, names)?,
            rename_part(alloc, t, names)?,
            rename_part(alloc, b, names)?,
        )),
    }
}

#[cycle(rename_term)]
fn rename_part<N: Names>(
    alloc: Global,
    part: &Boxed<Term>,
    names: &N,
) -> Result<Boxed<Term>, AllocError>
    ensures { IfOk result (λ t. named t ≡ renamed_term (N.new_name names.now) (named part.now)) }
{
    let renamed = rename_term(alloc, part.get(), names)?;
    Ok(Boxed::new(alloc, renamed)?)
}

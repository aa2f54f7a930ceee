ghost use Rattle.std.specs.Prelude.{◌≡◌, ◌≤◌};
ghost use Rattle.pts_certificate.specs.Calls.{Answers};
ghost use Rattle.pts_certificate.specs.Rows.{row_of_kind};
ghost use Rattle.pts_certificate.specs.Rows as format;

use crate::fault::LineFault;
use crate::kind::RowKind;
use crate::number::{Numbers, numbers_of};
use crate::split::Words;
use crate::table::row_of;
use crate::word::{binder_of, name_row, spelling_of};
use pts_ctx::{Name, System};
use pts_record::Shape;
use std::alloc::Global;

const TERM_ROWS: [(&str, RowKind); 7] = [
    ("sort", RowKind::SortTerm),
    ("const", RowKind::ConstTerm),
    ("var", RowKind::VarTerm),
    ("app", RowKind::AppTerm),
    ("lam", RowKind::LamTerm),
    ("pi", RowKind::PiTerm),
    ("let", RowKind::LetTerm),
];

/// The term that is written after `t`.
#[tactic(auto, unfolding(crate::specs::Rows::term_row))]
pub(crate) fn term_row(
    alloc: Global,
    system: &System,
    mut fields: Words,
) -> Result<Shape, LineFault>
    ensures { Answers result (format.term_row system.now fields.entry) }
{
    match row_of(&TERM_ROWS, fields.field()?) {
        Some(kind) => row_of_kind(alloc, system, kind, fields),
        None => Err(LineFault::BadLine),
    }
}

fn row_of_kind(
    alloc: Global,
    system: &System,
    kind: RowKind,
    fields: Words,
) -> Result<Shape, LineFault>
    ensures { Answers result (row_of_kind system.now kind fields.entry) }
{
    match kind {
        RowKind::SortTerm => sort_row(alloc, system, fields),
        RowKind::ConstTerm => const_row(alloc, fields),
        RowKind::VarTerm => var_row(fields),
        RowKind::AppTerm => app_row(fields),
        RowKind::LamTerm => lam_row(alloc, fields),
        RowKind::PiTerm => pi_row(alloc, fields),
        RowKind::LetTerm => let_row(alloc, fields),
    }
}

/// `t sort S`, where S is declared.
fn sort_row(alloc: Global, system: &System, mut fields: Words) -> Result<Shape, LineFault>
    ensures { Answers result (format.sort_row system.now fields.entry) }
{
    let word = fields.field()?;
    fields.end()?;
    let spelling = spelling_of(alloc, word)?;
    match system.sort(&spelling) {
        Some(sort) => Ok(Shape::Sort(sort)),
        None => Err(LineFault::BadLine),
    }
}

/// `t const NAME`
fn const_row(alloc: Global, fields: Words) -> Result<Shape, LineFault>
    ensures { Answers result (format.const_row fields.entry) }
{
    Ok(Shape::Const(name_row(alloc, fields)?))
}

/// `t var I`
fn var_row(fields: Words) -> Result<Shape, LineFault>
    ensures { Answers result (format.var_row fields.entry) }
{
    let numbers = numbers_of(fields, 1)?;
    Ok(Shape::Var(numbers.at(0)))
}

/// `t app F A`
fn app_row(fields: Words) -> Result<Shape, LineFault>
    ensures { Answers result (format.app_row fields.entry) }
{
    let numbers = numbers_of(fields, 2)?;
    Ok(Shape::App(numbers.link(0), numbers.link(1)))
}

/// `t lam X A B`
fn lam_row(alloc: Global, fields: Words) -> Result<Shape, LineFault>
    ensures { Answers result (format.lam_row fields.entry) }
{
    let (name, numbers) = binder_row(alloc, fields, 2)?;
    Ok(Shape::Lam(name, numbers.link(0), numbers.link(1)))
}

/// `t pi X A B`
fn pi_row(alloc: Global, fields: Words) -> Result<Shape, LineFault>
    ensures { Answers result (format.pi_row fields.entry) }
{
    let (name, numbers) = binder_row(alloc, fields, 2)?;
    Ok(Shape::Pi(name, numbers.link(0), numbers.link(1)))
}

/// `t let X D A B`
fn let_row(alloc: Global, fields: Words) -> Result<Shape, LineFault>
    ensures { Answers result (format.let_row fields.entry) }
{
    let (name, numbers) = binder_row(alloc, fields, 3)?;
    Ok(Shape::Let(name, numbers.link(0), numbers.link(1), numbers.link(2)))
}

/// A binder's name and the numbers after it.
fn binder_row(alloc: Global, mut fields: Words, count: usize) -> Result<(Name, Numbers), LineFault>
    requires { count ≤ 6 }
    ensures { Answers result (format.binder_row count fields.entry) }
{
    let name = binder_of(alloc, fields.field()?)?;
    let numbers = numbers_of(fields, count)?;
    Ok((name, numbers))
}

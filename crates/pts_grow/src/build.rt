// Terms that are made of a record's terms. A part that an operation leaves as it is keeps its number.

ghost use Rattle.std.specs.Prelude.{◌≡◌, ◌<◌, ◌+◌, ◌^◌, length, IfOk, IfErr, OnOk, true};
ghost use Rattle.pts_terms.specs.Tree.{app, var, lift, put, put_index};
ghost use Rattle.pts_names.specs.Name.{Name};
ghost use Rattle.pts_terms.specs.Limits.{within};
ghost use Rattle.pts_terms.specs.Seen.{named};
ghost use Rattle.pts_record.specs.Table.{named_at, named_trees, unfold_shape, the_name};
ghost use Rattle.pts_grow.specs.Keeps.{Keeps, StaysValid, IsTerm, WhyNot};

use crate::TermFault;
use pts_record::{Record, RecordFault, Shape, Term};

/// The number of a line of the table of terms, a leaf or a term made of terms of the record: of an equal line that a hint
/// leads to, and else of a new one.
///
/// # Errors
///
/// `TooLarge` exactly where the term is not within limits. `Memory`, also where a part does not stand.
#[tactic(auto, using(crate::proofs::Grow::lines))]
pub fn add_line(proof: &mut Record, shape: Shape) -> Result<usize, TermFault>
    ensures term { IfOk result (λ n. IsTerm proof.new n (unfold_shape the_name (named_trees proof.old.shapes) shape)) }
    ensures within { OnOk result (within (unfold_shape the_name (named_trees proof.old.shapes) shape) ≡ true) }
    ensures refused { IfErr result (λ e. WhyNot e (unfold_shape the_name (named_trees proof.old.shapes) shape)) }
    ensures keeps { Keeps proof.old proof.new }
    ensures valid { StaysValid proof.old proof.new }
    ensures nodes { proof.new.nodes ≡ proof.old.nodes }
{
    if let Some(number) = proof.known_term(&shape) {
        let _ = proof.shape(number);
        proof.limits(number);
        return Ok(number);
    }
    proof.linked();
    match proof.add_term(shape) {
        Ok(number) => {
            proof.note_term(number);
            Ok(number)
        }
        Err(RecordFault::TooLarge) => Err(TermFault::TooLarge),
        Err(RecordFault::Link(_) | RecordFault::Memory) => Err(TermFault::Memory),
    }
}

// Adds an index. One that does not fit 32 bits finds no memory.
#[tactic(auto, using(crate::proofs::Grow::keeping))]
fn add_index(proof: &mut Record, index: u64) -> Result<usize, TermFault>
    ensures term { IfOk result (λ n. IsTerm proof.new n (var index)) }
    ensures within { OnOk result (within {B = Name} (var index) ≡ true) }
    ensures refused { IfErr result (λ e. WhyNot {B = Name} e (var index)) }
    ensures keeps { Keeps proof.old proof.new }
    ensures valid { StaysValid proof.old proof.new }
    ensures nodes { proof.new.nodes ≡ proof.old.nodes }
{
    match u32::try_from(index) {
        Ok(index) => add_line(proof, Shape::Var(index)),
        Err(_) => Err(TermFault::Memory),
    }
}

// What stands for the index `at` of a body.
#[tactic(auto, using(crate::proofs::Grow::keeping))]
fn put_at(
    proof: &mut Record,
    index: u64,
    passed: u64,
    argument: usize,
    at: u64,
) -> Result<usize, TermFault>
    requires argument { argument < length proof.old.shapes }
    requires passed { passed < 2 ^ 63 }
    ensures term { IfOk result (λ n. IsTerm proof.new n (put_index index passed (named_at proof.old.shapes argument) at)) }
    ensures within { OnOk result (within (put_index index passed (named_at proof.old.shapes argument) at) ≡ true) }
    ensures refused { IfErr result (λ e. WhyNot e (put_index index passed (named_at proof.old.shapes argument) at)) }
    ensures keeps { Keeps proof.old proof.new }
    ensures valid { StaysValid proof.old proof.new }
    ensures nodes { proof.new.nodes ≡ proof.old.nodes }
{
    if at < index {
        return add_index(proof, at);
    }
    if at == index {
        return lift(proof, argument, 0, passed);
    }
    add_index(proof, at - 1)
}

/// A term of the program, part by part. A part that stands and that a hint leads to keeps its number.
///
/// # Errors
///
/// `TooLarge` exactly where the term is not within limits. No part of it is then added.
pub fn take_in(proof: &mut Record, term: &Term) -> Result<usize, TermFault>
    ensures term { IfOk result (λ n. IsTerm proof.new n (named term.now)) }
    ensures within { OnOk result (within (named term.now) ≡ true) }
    ensures refused { IfErr result (λ e. WhyNot e (named term.now)) }
    ensures keeps { Keeps proof.old proof.new }
    ensures valid { StaysValid proof.old proof.new }
    ensures nodes { proof.new.nodes ≡ proof.old.nodes }
{
    if term.depth() > 2000 || term.size() > 1_000_000 {
        return Err(TermFault::TooLarge);
    }
    take_parts(proof, term)
}

// The same, where parts may have been added of a term that is not within limits.
#[tactic(auto, using(crate::proofs::Grow::keeping, crate::proofs::Limits::limits))]
fn take_parts(proof: &mut Record, term: &Term) -> Result<usize, TermFault>
    ensures term { IfOk result (λ n. IsTerm proof.new n (named term.now)) }
    ensures within { OnOk result (within (named term.now) ≡ true) }
    ensures refused { IfErr result (λ e. WhyNot e (named term.now)) }
    ensures keeps { Keeps proof.old proof.new }
    ensures valid { StaysValid proof.old proof.new }
    ensures nodes { proof.new.nodes ≡ proof.old.nodes }
{
    match term {
        Term::Sort(s) => add_line(proof, Shape::Sort(*s)),
        Term::Const(c) => {
            let c = c.copy()?;
            add_line(proof, Shape::Const(c))
        }
        Term::Var(i) => add_line(proof, Shape::Var(*i)),
        Term::App(f, a) => {
            let f = take_parts(proof, f.get())?;
            let a = take_parts(proof, a.get())?;
            add_line(proof, Shape::App(f, a))
        }
        Term::Lam(x, t, b) => {
            let x = x.copy()?;
            let t = take_parts(proof, t.get())?;
            let b = take_parts(proof, b.get())?;
            add_line(proof, Shape::Lam(x, t, b))
        }
        Term::Pi(x, t, b) => {
            let x = x.copy()?;
            let t = take_parts(proof, t.get())?;
            let b = take_parts(proof, b.get())?;
            add_line(proof, Shape::Pi(x, t, b))
        }
        Term::Let(x, d, t, b) => {
            let x = x.copy()?;
            let d = take_parts(proof, d.get())?;
            let t = take_parts(proof, t.get())?;
            let b = take_parts(proof, b.get())?;
            add_line(proof, Shape::Let(x, d, t, b))
        }
    }
}

/// The application of two terms.
///
/// # Errors
///
/// `TooLarge` exactly where it is not within limits.
pub fn apply(proof: &mut Record, function: usize, argument: usize) -> Result<usize, TermFault>
    requires function { function < length proof.old.shapes }
    requires argument { argument < length proof.old.shapes }
    ensures term { IfOk result (λ n. IsTerm proof.new n (app (named_at proof.old.shapes function) (named_at proof.old.shapes argument))) }
    ensures within { OnOk result (within (app (named_at proof.old.shapes function) (named_at proof.old.shapes argument)) ≡ true) }
    ensures refused { IfErr result (λ e. WhyNot e (app (named_at proof.old.shapes function) (named_at proof.old.shapes argument))) }
    ensures keeps { Keeps proof.old proof.new }
    ensures valid { StaysValid proof.old proof.new }
    ensures nodes { proof.new.nodes ≡ proof.old.nodes }
{
    add_line(proof, Shape::App(function, argument))
}

/// The term with each free index that is at least `from` raised by `by`. A term that has no such index keeps its number.
///
/// # Errors
///
/// `TooLarge` exactly where it is not within limits.
#[tactic(auto, using(crate::proofs::Grow::keeping, crate::proofs::Limits::limits, crate::proofs::Lifted::left_alone))]
pub fn lift(proof: &mut Record, term: usize, from: u64, by: u64) -> Result<usize, TermFault>
    requires term { term < length proof.old.shapes }
    requires from { from + term < 2 ^ 64 }
    requires by { by < 2 ^ 63 }
    ensures term { IfOk result (λ n. IsTerm proof.new n (lift from by (named_at proof.old.shapes term))) }
    ensures within { OnOk result (within (lift from by (named_at proof.old.shapes term)) ≡ true) }
    ensures refused { IfErr result (λ e. WhyNot e (lift from by (named_at proof.old.shapes term))) }
    ensures keeps { Keeps proof.old proof.new }
    ensures valid { StaysValid proof.old proof.new }
    ensures nodes { proof.new.nodes ≡ proof.old.nodes }
{
    proof.limits(term);
    if proof.measure(term).free <= from {
        return Ok(term);
    }
    match proof.shape(term) {
        Shape::Sort(_) | Shape::Const(_) => Ok(term),
        Shape::Var(i) => {
            let index = u64::from(*i);
            let index = if index < from { index } else { index + by };
            add_index(proof, index)
        }
        Shape::App(f, a) => {
            let (f, a) = (*f, *a);
            let f = lift(proof, f, from, by)?;
            let a = lift(proof, a, from, by)?;
            add_line(proof, Shape::App(f, a))
        }
        Shape::Lam(x, t, b) => {
            let x = x.copy()?;
            let (t, b) = (*t, *b);
            let t = lift(proof, t, from, by)?;
            let b = lift(proof, b, from + 1, by)?;
            add_line(proof, Shape::Lam(x, t, b))
        }
        Shape::Pi(x, t, b) => {
            let x = x.copy()?;
            let (t, b) = (*t, *b);
            let t = lift(proof, t, from, by)?;
            let b = lift(proof, b, from + 1, by)?;
            add_line(proof, Shape::Pi(x, t, b))
        }
        Shape::Let(x, d, t, b) => {
            let x = x.copy()?;
            let (d, t, b) = (*d, *t, *b);
            let d = lift(proof, d, from, by)?;
            let t = lift(proof, t, from, by)?;
            let b = lift(proof, b, from + 1, by)?;
            add_line(proof, Shape::Let(x, d, t, b))
        }
    }
}

/// The body with the argument, lifted by the binders that were passed, for the index, and with greater indices lowered
/// by one. A body that has no such index keeps its number.
///
/// # Errors
///
/// `TooLarge` exactly where it is not within limits.
#[tactic(auto, using(crate::proofs::Grow::keeping, crate::proofs::Limits::limits, crate::proofs::Lifted::left_alone))]
pub fn put(
    proof: &mut Record,
    body: usize,
    index: u64,
    passed: u64,
    argument: usize,
) -> Result<usize, TermFault>
    requires body { body < length proof.old.shapes }
    requires argument { argument < length proof.old.shapes }
    requires index { index + body < 2 ^ 64 }
    requires passed { passed + body < 2 ^ 63 }
    ensures term { IfOk result (λ n. IsTerm proof.new n (put index passed (named_at proof.old.shapes argument) (named_at proof.old.shapes body))) }
    ensures within { OnOk result (within (put index passed (named_at proof.old.shapes argument) (named_at proof.old.shapes body)) ≡ true) }
    ensures refused { IfErr result (λ e. WhyNot e (put index passed (named_at proof.old.shapes argument) (named_at proof.old.shapes body))) }
    ensures keeps { Keeps proof.old proof.new }
    ensures valid { StaysValid proof.old proof.new }
    ensures nodes { proof.new.nodes ≡ proof.old.nodes }
{
    proof.limits(body);
    if proof.measure(body).free <= index {
        return Ok(body);
    }
    match proof.shape(body) {
        Shape::Sort(_) | Shape::Const(_) => Ok(body),
        Shape::Var(i) => {
            let at = u64::from(*i);
            put_at(proof, index, passed, argument, at)
        }
        Shape::App(f, a) => {
            let (f, a) = (*f, *a);
            let f = put(proof, f, index, passed, argument)?;
            let a = put(proof, a, index, passed, argument)?;
            add_line(proof, Shape::App(f, a))
        }
        Shape::Lam(x, t, b) => {
            let x = x.copy()?;
            let (t, b) = (*t, *b);
            let t = put(proof, t, index, passed, argument)?;
            let b = put(proof, b, index + 1, passed + 1, argument)?;
            add_line(proof, Shape::Lam(x, t, b))
        }
        Shape::Pi(x, t, b) => {
            let x = x.copy()?;
            let (t, b) = (*t, *b);
            let t = put(proof, t, index, passed, argument)?;
            let b = put(proof, b, index + 1, passed + 1, argument)?;
            add_line(proof, Shape::Pi(x, t, b))
        }
        Shape::Let(x, d, t, b) => {
            let x = x.copy()?;
            let (d, t, b) = (*d, *t, *b);
            let d = put(proof, d, index, passed, argument)?;
            let t = put(proof, t, index, passed, argument)?;
            let b = put(proof, b, index + 1, passed + 1, argument)?;
            add_line(proof, Shape::Let(x, d, t, b))
        }
    }
}

// How long open proofs take.

ghost use Rattle.std.specs.Prelude.{◌≡◌, IfOk, IfSome, false};
ghost use Rattle.pts_goals.specs.OpenProofs.{FitsFirst};

use crate::contexts::since;
use crate::entries::numbered;
use crate::steps::{EMPTY, TYPE, applied, changed, closed, is_empty, sorted};
use pts_goals::{Name, Proof, Record, Step};
use pts_record::{Form, Node, RecordFault, Shape, Sort};
use std::alloc::Global;
use std::io;
use std::rt::Clock;
use std::time::Instant;

/// How often a step is put in and taken back.
const ROUNDS: usize = 1_000;

/// Of so many steps one is an application, so that the term is no deeper than the limits allow.
const STRETCH: usize = 10;

/// The nanoseconds in which a step is put into a proof of so many steps and taken back.
pub fn refilling(alloc: Global, clock: &impl Clock, steps: usize) -> io::Result<u64> {
    let mut proof = grown(alloc, steps)?;
    let start = Instant::now(clock)?;
    'refill: for _ in 0..ROUNDS {
        refill(&mut proof)?;
    }
    Ok(since(clock, start)? / ROUNDS as u64)
}

/// The nanoseconds in which a proof of so many steps is copied and the copy is finished.
pub fn finishing(alloc: Global, clock: &impl Clock, steps: usize) -> io::Result<u64> {
    let mut proof = grown(alloc, steps.saturating_sub(1))?;
    let step = closed(&proof);
    put(&mut proof, step)?;
    let start = Instant::now(clock)?;
    finish_copy(&proof)?;
    since(clock, start)
}

fn invalid() -> io::Error {
    io::Error::from(io::ErrorKind::InvalidData)
}

fn put(proof: &mut Proof, step: Option<Step>) -> io::Result<()>
    requires here { proof.old.is_lent ≡ false }
    requires fits { IfSome step (λ s. FitsFirst proof.old.scratch proof.old.goals s) }
    ensures here { proof.new.is_lent ≡ false }
{
    let Some(step) = step else {
        return Err(invalid());
    };
    match proof.fill(step) {
        Ok(()) => Ok(()),
        Err(_) => Err(invalid()),
    }
}

fn refill(proof: &mut Proof) -> io::Result<()>
    requires here { proof.old.is_lent ≡ false }
    ensures here { proof.new.is_lent ≡ false }
{
    let step = changed(proof);
    put(proof, step)?;
    if proof.undo() { Ok(()) } else { Err(invalid()) }
}

fn finish_copy(proof: &Proof) -> io::Result<()>
    requires here { proof.now.is_lent ≡ false }
{
    let copy = proof.copy()?;
    match copy.finish() {
        Ok(_) => Ok(()),
        Err(_) => Err(invalid()),
    }
}

// The next step of a proof of so many steps.
fn step_after(proof: &Proof, steps: usize) -> Option<Step>
    requires here { proof.now.is_lent ≡ false }
    ensures { IfSome result (λ s. FitsFirst proof.now.scratch proof.now.goals s) }
{
    if steps % STRETCH == 0 {
        return applied(proof);
    }
    changed(proof)
}

// A proof of `A` with so many steps, and the goal `A`.
fn grown(alloc: Global, steps: usize) -> io::Result<Proof>
    ensures { IfOk result (λ p. p.is_lent ≡ false) }
{
    let mut proof = begun(alloc)?;
    for number in 0..steps {
        let step = step_after(&proof, number);
        put(&mut proof, step)?;
    }
    Ok(proof)
}

fn begun(alloc: Global) -> io::Result<Proof>
    ensures { IfOk result (λ p. p.is_lent ≡ false) }
{
    let name = numbered(alloc, 0)?;
    match record(alloc, &name) {
        Ok(scratch) => begin(name, scratch),
        Err(_) => Err(invalid()),
    }
}

#[tactic(auto, using(pts_goals::proofs::Beginning::beginning))]
fn begin(name: Name, scratch: Record) -> io::Result<Proof>
    ensures { IfOk result (λ p. p.is_lent ≡ false) }
{
    if !is_empty(&scratch, EMPTY) {
        return Err(invalid());
    }
    let Some(sorted) = sorted(&scratch, EMPTY, TYPE) else {
        return Err(invalid());
    };
    match Proof::start(name, scratch, sorted.node) {
        Ok(proof) => Ok(proof),
        Err(_) => Err(invalid()),
    }
}

// A record with `A`, a function on it, an element of it, and what they are. Nothing is asked of its nodes but that their links lead
// somewhere.
fn record(alloc: Global, name: &Name) -> Result<Record, RecordFault> {
    let mut proof = Record::new(alloc);
    proof.add_term(Shape::Const(name.copy()?))?;
    proof.add_term(Shape::Sort(Sort(0)))?;
    proof.add_term(Shape::Pi(name.copy()?, 0, 0))?;
    proof.add_node(line(Form::Empty, 0, 0))?;
    proof.add_node(line(Form::ConstAt, 0, 1))?;
    proof.add_node(line(Form::ConstAt, 0, 2))?;
    proof.add_node(line(Form::ConstAt, 0, 0))?;
    proof.add_node(line(Form::Same, 0, 0))?;
    Ok(proof)
}

// A node in the first context.
fn line(form: Form, subject: usize, claim: usize) -> Node {
    Node {
        form,
        ctx: 0,
        subject,
        claim,
        first: 0,
        second: 0,
        third: 0,
    }
}

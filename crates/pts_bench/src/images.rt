// How long images of records take.

use crate::contexts::since;
use crate::entries::numbered;
use pts_image::{is_last_closed, rename_const, subst_const};
use pts_record::{Form, Name, Node, Record, RecordFault, Shape, Sort};
use std::alloc::{AllocError, Global};
use std::io;
use std::rt::Clock;
use std::time::Instant;

/// The nanoseconds that it takes to rename the constant of a record with so many terms and as many nodes.
pub fn renaming(alloc: Global, clock: &impl Clock, count: usize) -> io::Result<u64> {
    let old = numbered(alloc, 0)?;
    let new = numbered(alloc, 1)?;
    let proof = arrows(alloc, &old, count)?;
    let start = Instant::now(clock)?;
    let _image = rename_const(&proof, &old, &new)?;
    since(clock, start)
}

/// The nanoseconds that it takes to replace the constant of a record with so many terms and as many nodes.
pub fn substituting(alloc: Global, clock: &impl Clock, count: usize) -> io::Result<u64> {
    let name = numbered(alloc, 0)?;
    let proof = arrows(alloc, &name, count)?;
    let argument = arrows(alloc, &numbered(alloc, 1)?, 1)?;
    if !is_last_closed(&argument) {
        return Err(io::Error::from(io::ErrorKind::InvalidData));
    }
    let start = Instant::now(clock)?;
    match subst_const(&proof, &name, &argument) {
        Ok(_) => since(clock, start),
        Err(_) => Err(io::Error::from(io::ErrorKind::OutOfMemory)),
    }
}

// A record with so many times the term `c -> c` after `c` and the first sort, and as often the node that judges it. Nothing is
// asked of its nodes but that their links lead somewhere.
fn arrows(alloc: Global, constant: &Name, count: usize) -> Result<Record, AllocError> {
    match filled(alloc, constant, count) {
        Ok(proof) => Ok(proof),
        Err(_) => Err(AllocError),
    }
}

fn filled(alloc: Global, constant: &Name, count: usize) -> Result<Record, RecordFault> {
    let mut proof = Record::new(alloc);
    proof.add_term(Shape::Const(constant.copy()?))?;
    proof.add_term(Shape::Sort(Sort(0)))?;
    proof.add_node(judgement(Form::Empty, 0))?;
    proof.add_node(judgement(Form::ConstAt, 0))?;
    for _ in 0..count {
        let subject = proof.add_term(Shape::Pi(constant.copy()?, 0, 0))?;
        proof.add_node(judgement(Form::PiAt, subject))?;
    }
    Ok(proof)
}

// A node in the first context, with the first two nodes as its premises.
fn judgement(form: Form, subject: usize) -> Node {
    Node {
        form,
        ctx: 0,
        subject,
        claim: 1,
        first: 1,
        second: 1,
        third: 0,
    }
}

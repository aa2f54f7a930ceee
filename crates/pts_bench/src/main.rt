// `pts_bench ENTRIES` measures how long contexts of so many definitions of 30 nodes take, and images of records with so many terms
// and nodes, looks at a shared core of so many entries, and open proofs of 1,000 and of 10,000 steps, and prints nanoseconds:
// `bench/run` makes its tables of libraries with it. It is no part of the product, and promises only that it keeps to what contexts,
// records, shared cores and open proofs ask for.
// Stands on open proofs, images, shared cores and contexts.
#![tactic(auto)]

mod contexts;
mod entries;
mod goals;
mod images;
mod sharing;
mod steps;

use crate::contexts::{building, copying, looking_up, making};
use crate::goals::{finishing, refilling};
use crate::images::{renaming, substituting};
use crate::sharing::{Looks, looking};
use pts_ctx::ROOM;
use std::process::ExitCode;
use std::{env, io};

fn main(rt: HostRuntime) -> ExitCode {
    let Some(entries) = wanted(&rt) else {
        let _ = println!(rt; "usage: pts_bench ENTRIES, from 64 to {ROOM}");
        return ExitCode::from(2);
    };
    let Ok(looks) = looking(&rt, rt.alloc(), entries) else {
        return ExitCode::from(7);
    };
    match measure(&rt, entries, &looks) {
        Ok(()) => ExitCode::from(0),
        Err(_) => ExitCode::from(7),
    }
}

// The number that is the only word.
fn wanted(rt: &HostRuntime) -> Option<usize> {
    let mut words = env::args(rt).ok()?.skip(1);
    let entries = words.next()?.as_str().parse::<usize>().ok()?;
    match words.next() {
        None if entries >= 64 && entries <= ROOM => Some(entries),
        _ => None,
    }
}

// Measures the rest, and prints all.
fn measure(rt: &HostRuntime, entries: usize, looks: &Looks) -> io::Result<()> {
    let alloc = rt.alloc();
    let making = making(alloc, rt, entries)?;
    let building = building(alloc, rt, entries)?;
    let copying = copying(alloc, rt, entries)?;
    let oldest = looking_up(alloc, rt, entries, 0)?;
    let missing = looking_up(alloc, rt, entries, entries)?;
    let renaming = renaming(alloc, rt, entries)?;
    let substituting = substituting(alloc, rt, entries)?;
    println!(rt;
        "making {making}\nbuilding {building}\ncopying {copying}\noldest {oldest}\nmissing {missing}"
    )?;
    println!(rt; "renaming {renaming}\nsubstituting {substituting}")?;
    let (alone, beside) = (looks.alone, looks.beside);
    println!(rt; "alone {alone}\nbeside {beside}")?;
    measure_proofs(rt)
}

// Measures open proofs.
fn measure_proofs(rt: &HostRuntime) -> io::Result<()> {
    let alloc = rt.alloc();
    for steps in [1_000, 10_000] {
        let refilling = refilling(alloc, rt, steps)?;
        let finishing = finishing(alloc, rt, steps)?;
        println!(rt; "refilling_{steps} {refilling}\nfinishing_{steps} {finishing}")?;
    }
    Ok(())
}

// How long looks at a shared core take.

use crate::contexts::since;
use crate::entries::numbered;
use pts_core::{Core, Declaration};
use pts_samples::simple;
use pts_share_tests::{assumption, examined_over, looked};
use std::alloc::Global;
use std::io;
use std::rt::Clock;
use std::sync::Wait;
use std::thread::Threads;
use std::time::Instant;

/// How often each thread looks.
const LOOKS: u32 = 10_000;

/// The nanoseconds of a look at a shared core of so many entries, where one thread looks alone, and where four look beside one another.
#[derive(Clone, Copy)]
pub struct Looks {
    pub alone: u64,
    pub beside: u64,
}

/// Measures looks at a shared core of so many entries.
pub fn looking<R: Threads + Wait + Sync + Clock>(
    rt: &R,
    alloc: Global,
    entries: usize,
) -> io::Result<Looks> {
    let Some(core) = library(alloc, entries) else {
        return Err(io::Error::from(io::ErrorKind::OutOfMemory));
    };
    let start = Instant::now(rt)?;
    let core = looked(rt, alloc, core, &[1], LOOKS)?;
    let alone = since(rt, start)?;
    let start = Instant::now(rt)?;
    let _core = looked(rt, alloc, core, &[1, 2, 3, 4], LOOKS)?;
    let beside = since(rt, start)?;
    Ok(Looks {
        alone: alone / u64::from(LOOKS),
        beside: beside / u64::from(4 * LOOKS),
    })
}

// A core with so many entries, at which one look was made: the first after so many entries orders them into chunks.
fn library(alloc: Global, entries: usize) -> Option<Core> {
    let mut core = Core::new(alloc, simple(alloc)?);
    let declarations = assumptions(alloc, entries)?;
    let examined = examined_over(alloc, &core, declarations)?;
    core.answer_submit(1, examined).ok()?;
    core.answer_look(1).ok()?;
    if core.context().len() == entries {
        Some(core)
    } else {
        None
    }
}

fn assumptions(alloc: Global, count: usize) -> Option<Vec<Declaration>> {
    let mut declarations = Vec::new(alloc);
    for number in 0..count {
        let name = numbered(alloc, number).ok()?;
        declarations.push(assumption(alloc, name)?).ok()?;
    }
    Some(declarations)
}

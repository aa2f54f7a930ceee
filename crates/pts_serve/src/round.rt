// A round of sessions in threads.

ghost use Rattle.std.specs.Prelude.{◌≡◌, ◌<◌, ◌≤◌, ◌^◌, ◌++◌, ℕ, List, [], true, IfOk, IfSome, length, map, vec_capacity};
ghost use Rattle.std.specs.List.{AllByRecursion};
ghost use Rattle.pts_names.specs.Lists.{AllDiffer};
ghost use Rattle.pts_serve.specs.Served.{ServedBeside};
ghost use Rattle.pts_serve.specs.Workers.{finish_of, finish_with, job_of, job_with, turned};

use crate::client::Client;
use crate::worker::SessionWorker;
use pts_names::Text;
use pts_rounds::{Gate, run_round};
use pts_share::{Core, Pass, Shared};
use std::alloc::{AllocError, Global};
use std::sync::Wait;
use std::thread::Threads;

/// A session with its lines of a round, and then with its replies.
#[derive(Drop)]
pub struct Staff<C> {
    pub number: u32,
    pub session: C,
    pub lines: Vec<Text>,
    pub replies: Vec<Text>,
}

/// The core after a round, and the sessions that had lines; none where memory ran out.
#[derive(Drop)]
pub struct Served<C> {
    pub core: Core,
    pub staff: Option<Vec<Staff<C>>>,
}

/// Each session runs its lines in a thread of its own, where one can be started, over one core. What they do together is a round
/// of one thread, whose events are those that the core's history has gained, in its order.
///
/// # Errors
///
/// Out of memory before the round began. The core is dropped then.
pub fn serve_round<R: Threads + Wait + Sync, G: Gate + Sync, W: Sync, C: Client<W> + Send + Drop>(
    rt: &R,
    gate: &G,
    alloc: Global,
    world: &W,
    core: Core,
    staff: Vec<Staff<C>>,
) -> Result<Served<C>, AllocError>
    requires some { 0 < length staff.items }
    requires differ { AllDiffer (map (λ s. s.number) staff.items) }
    requires few { length staff.items < 2 ^ 32 }
    requires fits { AllByRecursion (λ s. C.fits world.now s.session core.system core.history) staff.items }
    ensures served { IfOk result (λ r. IfSome r.staff (λ after. ServedBeside (C.local world.now) (C.resumes world.now) C.steps
        core.history r.core.history (map job_of staff.items) (map finish_of after.items))) }
    ensures fits { IfOk result (λ r. IfSome r.staff (λ after. AllByRecursion (λ s. C.fits world.now s.session core.system r.core.history) after.items)) }
    ensures numbers { IfOk result (λ r. IfSome r.staff (λ after. map (λ s. s.number) after.items ≡ map (λ s. s.number) staff.items)) }
    ensures system { IfOk result (λ r. r.core.system ≡ core.system) }
{
    let count = staff.len();
    let numbers = numbers_of(alloc, staff.as_slice())?;
    let mut after = Vec::with_capacity(alloc, count)?;
    let (shared, mut passes) = Shared::open(alloc, core, numbers.as_slice())?;
    let Ok(mut workers) = Vec::with_capacity(alloc, count) else {
        let core = shared.close(passes);
        return Ok(Served { core, staff: None });
    };
    hire(&shared, world, alloc, staff, &mut passes, &mut workers);
    run_round(rt, workers.as_mut_slice(), gate);
    let ended = dismiss(workers, &mut passes, &mut after);
    let core = shared.close(passes);
    if !ended {
        return Ok(Served { core, staff: None });
    }
    Ok(Served {
        core,
        staff: Some(after),
    })
}

// The numbers of the sessions, in order.
fn numbers_of<C>(alloc: Global, staff: &[Staff<C>]) -> Result<Vec<u32>, AllocError>
    ensures { IfOk result (λ v. v.items ≡ map (λ s. s.number) staff.now) }
{
    let mut numbers = Vec::new(alloc);
    for one in staff {
        numbers.push(one.number)?;
    }
    Ok(numbers)
}

// A worker for each session, from the last to the first.
fn hire<'a, W, C>(
    shared: &'a Shared,
    world: &'a W,
    alloc: Global,
    staff: Vec<Staff<C>>,
    passes: &mut Vec<Pass>,
    workers: &mut Vec<SessionWorker<'a, W, C>>,
)
    requires none { workers.old.items ≡ [] }
    requires room { length staff.items ≤ vec_capacity workers.old }
    requires owners { map (λ p. p.owner) passes.old.items ≡ map (λ s. s.number) staff.items }
    ensures jobs { turned (map job_with workers.new.items) ≡ map job_of staff.items }
    ensures passes { turned (map (λ w. w.pass) workers.new.items) ≡ passes.old.items }
    ensures shared { AllByRecursion (λ w. w.shared.now ≡ shared.now) workers.new.items }
    ensures world { AllByRecursion (λ w. w.world.now ≡ world.now) workers.new.items }
    ensures empty { passes.new.items ≡ [] }
    ensures capacity { vec_capacity passes.new ≡ vec_capacity passes.old }
{
    let mut staff = staff;
    while let Some(pass) = passes.pop() {
        let last = staff.pop();
        let Some(last) = last else { unreachable!() };
        let Staff {
            number: _,
            session,
            lines,
            replies,
        } = last;
        let pushed = workers.push(SessionWorker {
            shared,
            world,
            alloc,
            pass,
            session,
            lines,
            replies,
            ended: false,
        });
        let Ok(()) = pushed else { unreachable!() };
    }
    staff.destroy_empty();
}

// Whether both hold.
fn both(a: bool, b: bool) -> bool
    ensures { result ≡ true → (a ≡ true) × (b ≡ true) }
{
    a && b
}

// The passes and the sessions, from the last worker to the first, and whether each came to its end.
fn dismiss<'a, W, C>(
    workers: Vec<SessionWorker<'a, W, C>>,
    passes: &mut Vec<Pass>,
    staff: &mut Vec<Staff<C>>,
) -> bool
    requires none { (passes.old.items ≡ []) × (staff.old.items ≡ []) }
    requires room { (length workers.items ≤ vec_capacity passes.old) × (length workers.items ≤ vec_capacity staff.old) }
    ensures passes { passes.new.items ≡ turned (map (λ w. w.pass) workers.entry.items) }
    ensures finishes { map finish_of staff.new.items ≡ turned (map finish_with workers.entry.items) }
    ensures numbers { map (λ s. s.number) staff.new.items ≡ turned (map (λ w. w.pass.owner) workers.entry.items) }
    ensures ended { result ≡ true → AllByRecursion (λ w. w.ended ≡ true) workers.entry.items }
{
    let mut workers = workers;
    let mut all = true;
    while let Some(worker) = workers.pop() {
        let SessionWorker {
            shared: _,
            world: _,
            alloc: _,
            pass,
            session,
            lines,
            replies,
            ended,
        } = worker;
        let number = pass.owner;
        let pushed = passes.push(pass);
        let Ok(()) = pushed else { unreachable!() };
        all = both(all, ended);
        let pushed = staff.push(Staff {
            number,
            session,
            lines,
            replies,
        });
        let Ok(()) = pushed else { unreachable!() };
    }
    workers.destroy_empty();
    all
}

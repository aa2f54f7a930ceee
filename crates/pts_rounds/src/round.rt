ghost use Rattle.std.specs.List.{All, AllByRecursion};
ghost use Rattle.pts_rounds.specs.Workers.{EachRan, RanByPlace};

use crate::gate::Gate;
use std::sync::Wait;
use std::thread;
use std::thread::Threads;

/// What runs once in a round, in some thread.
pub trait Worker: Send {
    // It may be run.
    ghost ready: { Self → Type 0 };

    // What a run leaves of it.
    ghost ran: { Self → Self → Type 0 };

    /// Does its work, and passes the gate at its points.
    fn run<R: Wait, G: Gate>(&mut self, rt: &R, gate: &G)
        requires { ready self.old }
        ensures { ran self.old self.new };
}

/// Runs each worker once, in a thread of its own where one can be started. Where none can, they run one after another, and the
/// same holds.
pub fn run_round<R: Threads + Wait + Sync, W: Worker, G: Gate + Sync>(
    rt: &R,
    workers: &mut [W],
    gate: &G,
)
    requires { AllByRecursion W.ready workers.old }
    ensures { EachRan W.ran workers.old workers.new }
{
    run_each(rt, workers, gate);
}

// The same, as a thread sees it: place by place.
fn run_each<R: Threads + Wait + Sync, W: Worker, G: Gate + Sync>(
    rt: &R,
    workers: &mut [W],
    gate: &G,
)
    requires { All W.ready workers.old }
    ensures { RanByPlace W.ran workers.old workers.new }
{
    if workers.is_empty() {
        return;
    }
    let threads = workers.len();
    thread::for_each_mut(rt, workers, threads, &|_, worker| worker.run(rt, gate));
}

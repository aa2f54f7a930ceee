// Threads beside one another, each with a pass of one shared core.

ghost use Rattle.std.specs.Prelude.{◌≡◌, ◌<◌, ◌^◌, ℕ, IfOk, length, map};
ghost use Rattle.std.specs.List.{All, AllByRecursion};
ghost use Rattle.pts_names.specs.Lists.{AllDiffer};
ghost use Rattle.pts_share.specs.Passes.{AddedTo, IsPassOf, Pass};
ghost use Rattle.pts_share.specs.Sharing.{system_of, table_of};
ghost use Rattle.pts_share_tests.specs.Beside.{EachStays};

use pts_share::{Core, Pass, Shared};
use std::alloc::{AllocError, Global};
use std::sync::Wait;
use std::thread;
use std::thread::Threads;

/// The core after each of the sessions looked so often, in a thread of its own where one can be made.
///
/// # Errors
///
/// Out of memory at the beginning. Where a look runs out of memory, it is left out.
pub fn looked<R: Threads + Wait + Sync>(
    rt: &R,
    alloc: Global,
    core: Core,
    sessions: &[u32],
    looks: u32,
) -> Result<Core, AllocError>
    requires some { 0 < length sessions.now }
    requires differ { AllDiffer sessions.now }
    requires few { length sessions.now < 2 ^ 32 }
    ensures { IfOk result (λ c. AddedTo sessions.now core.history c.history) }
{
    let (shared, mut passes) = Shared::open(alloc, core, sessions)?;
    look_beside(rt, &shared, passes.as_mut_slice(), looks);
    Ok(shared.close(passes))
}

// Each session looks so often.
fn look_beside<R: Threads + Wait + Sync>(rt: &R, shared: &Shared, passes: &mut [Pass], looks: u32)
    requires { AllByRecursion (IsPassOf (table_of shared.now) (system_of shared.now)) passes.old }
    ensures passes { AllByRecursion (IsPassOf (table_of shared.now) (system_of shared.now)) passes.new }
    ensures sessions { map (λ p. p.owner) passes.new ≡ map (λ p. p.owner) passes.old }
{
    look_each(rt, shared, passes, looks);
}

// What a pass can be used with, in any thread.
trait Looking {
    ghost is_pass: { Self → Pass → Type 0 };

    // A session looks so often.
    fn look_some<R: Wait>(&self, rt: &R, pass: &mut Pass, looks: u32)
        requires { is_pass self.now pass.old }
        ensures pass { is_pass self.now pass.new }
        ensures session { pass.new.owner ≡ pass.old.owner };
}

impl Looking for Shared {
    ghost use Rattle.pts_share.specs.Passes.{IsPassOf};
    ghost use Rattle.pts_share.specs.Sharing.{system_of, table_of};

    ghost is_pass = { λ s. IsPassOf (table_of s) (system_of s) };

    fn look_some<R: Wait>(&self, rt: &R, pass: &mut Pass, looks: u32) {
        look_often(rt, self, pass, looks);
    }
}

// Each session looks so often, as a thread sees it: place by place.
fn look_each<R: Threads + Wait + Sync, L: Looking + Sync>(
    rt: &R,
    shared: &L,
    passes: &mut [Pass],
    looks: u32,
)
    requires { All (L.is_pass shared.now) passes.old }
    ensures { EachStays (L.is_pass shared.now) passes.old passes.new }
{
    if passes.is_empty() {
        return;
    }
    let threads = passes.len();
    thread::for_each_mut(
        rt,
        passes,
        threads,
        &|_, pass| { shared.look_some(rt, pass, looks) },
    );
}

// A session looks so often.
fn look_often<R: Wait>(rt: &R, shared: &Shared, pass: &mut Pass, looks: u32)
    requires { IsPassOf (table_of shared.now) (system_of shared.now) pass.old }
    ensures pass { IsPassOf (table_of shared.now) (system_of shared.now) pass.new }
    ensures session { pass.new.owner ≡ pass.old.owner }
{
    for _ in 0..looks {
        let _ = shared.look(rt, pass);
    }
}

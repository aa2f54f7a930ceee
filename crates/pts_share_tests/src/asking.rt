// Two sessions ask a shared core, by itself or through their ports.

ghost use Rattle.std.specs.Prelude.{◌≡◌, IfSome, [], ◌∷◌, map};
ghost use Rattle.std.specs.List.{AllByRecursion};
ghost use Rattle.pts_core.specs.Histories.{replay};
ghost use Rattle.pts_core.specs.Cores.{IsOver, MaySubmit, front_of};
ghost use Rattle.pts_share.specs.Passes.{IsPassOf, history_of};
ghost use Rattle.pts_share.specs.Sharing.{core_of, system_of, table_of};

use crate::offers::{assumption, examined_over};
use crate::pairs::{put_both, take_both};
use pts_core::{Examined, Name};
use pts_share::{Answer, Core, Pass, Port, PortFault, Shared, SharedPort, seen, session};
use std::alloc::{AllocError, Global};
use std::sync::Wait;

/// A way to a shared core.
#[derive(Clone, Copy)]
pub enum Way {
    Itself,
    Port,
}

/// What is answered to a submission by session 1 and to a look by session 2 after it, and the sessions and how many events they
/// have seen then.
#[derive(Drop)]
pub struct Answers {
    pub submitted: Result<Answer, PortFault>,
    pub looked: Result<Answer, PortFault>,
    pub first: (u32, u64),
    pub second: (u32, u64),
}

// The offer of the assumption of A, examined.
fn examined(alloc: Global, core: &Core) -> Option<Examined>
    ensures { IfSome result (λ x. MaySubmit x core.now) }
{
    let mut declarations = Vec::new(alloc);
    let name = Name::read(alloc, "A").ok()?;
    declarations.push(assumption(alloc, name)?).ok()?;
    examined_over(alloc, core, declarations)
}

// A look of the pass's session.
fn look<R: Wait>(
    rt: &R,
    alloc: Global,
    shared: &Shared,
    pass: &mut Pass,
    way: Way,
) -> Result<Answer, PortFault>
    requires pass { IsPassOf (table_of shared.now) (system_of shared.now) pass.old }
    ensures pass { IsPassOf (table_of shared.now) (system_of shared.now) pass.new }
    ensures session { pass.new.owner ≡ pass.old.owner }
{
    match way {
        Way::Itself => shared.look(rt, pass),
        Way::Port => {
            let mut port = SharedPort { shared, rt, pass };
            port.is_legal();
            port.look(alloc)
        }
    }
}

// A submission by the pass's session.
fn submit<R: Wait>(
    rt: &R,
    alloc: Global,
    shared: &Shared,
    pass: &mut Pass,
    examined: Examined,
    way: Way,
) -> Result<Answer, PortFault>
    requires pass { IsPassOf (table_of shared.now) (system_of shared.now) pass.old }
    requires system { examined.system ≡ system_of shared.now }
    requires front { IsOver examined (replay (history_of pass.old)) }
    ensures pass { IsPassOf (table_of shared.now) (system_of shared.now) pass.new }
    ensures session { pass.new.owner ≡ pass.old.owner }
{
    match way {
        Way::Itself => shared.submit(rt, pass, examined),
        Way::Port => {
            let mut port = SharedPort { shared, rt, pass };
            port.submit(alloc, examined)
        }
    }
}

// The session of a pass, and how many events it has seen.
fn seen_by(shared: &Shared, pass: &Pass) -> (u32, u64)
    requires { IsPassOf (table_of shared.now) (system_of shared.now) pass.now }
{
    let _ = shared;
    (session(pass), seen(pass))
}

// The session of the first pass submits, and then that of the second looks.
fn both_answered<R: Wait>(
    rt: &R,
    alloc: Global,
    shared: &Shared,
    first: &mut Pass,
    second: &mut Pass,
    examined: Examined,
    way: Way,
) -> Answers
    requires first { IsPassOf (table_of shared.now) (system_of shared.now) first.old }
    requires second { IsPassOf (table_of shared.now) (system_of shared.now) second.old }
    requires system { examined.system ≡ system_of shared.now }
    requires front { IsOver examined (replay (history_of first.old)) }
    ensures first { IsPassOf (table_of shared.now) (system_of shared.now) first.new }
    ensures second { IsPassOf (table_of shared.now) (system_of shared.now) second.new }
    ensures sessions { (first.new.owner ≡ first.old.owner) × (second.new.owner ≡ second.old.owner) }
{
    let submitted = submit(rt, alloc, shared, first, examined, way);
    let looked = look(rt, alloc, shared, second, way);
    Answers {
        submitted,
        looked,
        first: seen_by(shared, first),
        second: seen_by(shared, second),
    }
}

// The sessions of two passes ask, which have seen the history with which the core began to be shared.
fn ask_both<R: Wait>(
    rt: &R,
    alloc: Global,
    shared: &Shared,
    passes: &mut Vec<Pass>,
    examined: Examined,
    way: Way,
) -> Answers
    requires passes { AllByRecursion (λ p. IsPassOf (table_of shared.now) (system_of shared.now) p × (history_of p ≡ (core_of shared.now).history)) passes.old.items }
    requires sessions { map (λ p. p.owner) passes.old.items ≡ 1 ∷ 2 ∷ [] }
    requires replayed { replay (core_of shared.now).history ≡ front_of (core_of shared.now) }
    requires may { MaySubmit examined (core_of shared.now) }
    ensures passes { AllByRecursion (IsPassOf (table_of shared.now) (system_of shared.now)) passes.new.items }
    ensures sessions { map (λ p. p.owner) passes.new.items ≡ 1 ∷ 2 ∷ [] }
{
    let (mut first, mut second) = take_both(passes);
    let answers = both_answered(rt, alloc, shared, &mut first, &mut second, examined, way);
    put_both(passes, (first, second));
    answers
}

// Sessions 1 and 2 ask a core to which this may be submitted.
fn shared_and_asked<R: Wait>(
    rt: &R,
    alloc: Global,
    core: Core,
    examined: Examined,
    way: Way,
) -> Result<(Answers, Core), AllocError>
    requires { MaySubmit examined core }
{
    core.is_legal();
    let (shared, mut passes) = Shared::open(alloc, core, &[1, 2])?;
    let answers = ask_both(rt, alloc, &shared, &mut passes, examined, way);
    Ok((answers, shared.close(passes)))
}

/// What sessions 1 and 2 are answered that share a core, and the core after that.
pub fn asked<R: Wait>(rt: &R, alloc: Global, core: Core, way: Way) -> Option<(Answers, Core)> {
    let examined = examined(alloc, &core)?;
    shared_and_asked(rt, alloc, core, examined, way).ok()
}

// A shared core.

ghost use Rattle.std.specs.Prelude.{◌≡◌, ◌<◌, ◌^◌, ℕ, IfOk, IfErr, length, map};
ghost use Rattle.std.specs.List.{AllByRecursion};
ghost use Rattle.pts_names.specs.Lists.{In, AllDiffer};
ghost use Rattle.pts_core.specs.Histories.{look, replay};
ghost use Rattle.pts_core.specs.Cores.{IsOver, submitted};
ghost use Rattle.pts_core.specs.Ports.{AfterOthers, IsAnswer, IsNoAnswer};
ghost use Rattle.pts_share.specs.Passes.{AddedTo, AnyEvents, GoesOn, GrowsByOwn, HasTurn, IsPassOf, history_of};
ghost use Rattle.pts_share.specs.Sharing.{core_of, sessions_of, system_of, table_of};

use crate::guarded::Guarded;
use crate::pass::Pass;
use pts_core::{Answer, Core, Examined, PortFault};
use pts_lock::Turnstile;
use std::alloc::{AllocError, Global};
use std::sync::Wait;

/// A core that sessions share: each call waits for its turn, and under the turn the core makes room, copies the front that it
/// hands on, and steps. What that costs does not depend on the length of the history nor on that of the front.
pub struct Shared {
    pub lock: Turnstile<Guarded>,
}

impl Shared {
    /// A core is shared by these sessions: one pass for each, in order. Each has seen the whole history.
    ///
    /// # Errors
    ///
    /// Out of memory. The core is dropped then.
    pub fn open(
        alloc: Global,
        core: Core,
        sessions: &[u32],
    ) -> Result<(Shared, Vec<Pass>), AllocError>
        requires some { 0 < length sessions.now }
        requires differ { AllDiffer sessions.now }
        requires few { length sessions.now < 2 ^ 32 }
        ensures opening { IfOk result (λ r. (sessions_of r.0 ≡ sessions.now) × (core_of r.0 ≡ core)) }
        ensures sessions { IfOk result (λ r. map (λ p. p.owner) r.1.items ≡ sessions.now) }
        ensures passes { IfOk result (λ r. AllByRecursion (λ p. IsPassOf (table_of r.0) core.system p × (history_of p ≡ core.history)) r.1.items) }
    {
        core.is_legal();
        let (lock, passes) = Turnstile::new(alloc, Guarded { core }, sessions)?;
        Ok((Shared { lock }, passes))
    }

    /// A look of the pass's session.
    ///
    /// # Errors
    ///
    /// The history is full, or out of memory. Then the core is as it was found, and the pass has seen its history.
    pub fn look<R: Wait>(&self, rt: &R, pass: &mut Pass) -> Result<Answer, PortFault>
        requires pass { IsPassOf (table_of self.now) (system_of self.now) pass.old }
        ensures pass { IsPassOf (table_of self.now) (system_of self.now) pass.new }
        ensures session { pass.new.owner ≡ pass.old.owner }
        ensures answered { IfOk result (λ a. AfterOthers pass.old.owner AnyEvents (history_of pass.old) (λ h. IsAnswer (look pass.old.owner) h (history_of pass.new) a)) }
        ensures refused { IfErr result (λ e. AfterOthers pass.old.owner AnyEvents (history_of pass.old) (λ h. IsNoAnswer e h (history_of pass.new))) }
    {
        let mut core = self.take(rt, pass);
        let answer = core.answer_look(pass.owner);
        self.put(pass, core);
        answer
    }

    /// A submission by the pass's session of what was examined, in the core's system and over a front that the session has seen.
    ///
    /// # Errors
    ///
    /// The history is full, or out of memory. Then the core is as it was found, the pass has seen its history, and what was
    /// examined is dropped.
    pub fn submit<R: Wait>(
        &self,
        rt: &R,
        pass: &mut Pass,
        examined: Examined,
    ) -> Result<Answer, PortFault>
        requires pass { IsPassOf (table_of self.now) (system_of self.now) pass.old }
        requires system { examined.system ≡ system_of self.now }
        requires front { IsOver examined (replay (history_of pass.old)) }
        ensures pass { IsPassOf (table_of self.now) (system_of self.now) pass.new }
        ensures session { pass.new.owner ≡ pass.old.owner }
        ensures answered { IfOk result (λ a. AfterOthers pass.old.owner AnyEvents (history_of pass.old) (λ h. IsAnswer (submitted pass.old.owner examined) h (history_of pass.new) a)) }
        ensures refused { IfErr result (λ e. AfterOthers pass.old.owner AnyEvents (history_of pass.old) (λ h. IsNoAnswer e h (history_of pass.new))) }
    {
        let mut core = self.take(rt, pass);
        core.is_legal();
        let answer = core.answer_submit(pass.owner, examined);
        self.put(pass, core);
        answer
    }

    /// The core, when all passes are given back. Its history begins with what each session has seen, and no event after that is
    /// of this session; after the opening history each event is of one of the sessions. It takes no memory.
    pub fn close(self, passes: Vec<Pass>) -> Core
        requires some { 0 < length passes.items }
        requires passes { AllByRecursion (IsPassOf (table_of self) (system_of self)) passes.items }
        requires all { (n : ℕ) → In n (sessions_of self) → In n (map (λ p. p.owner) passes.items) }
        ensures system { result.system ≡ system_of self }
        ensures seen { AllByRecursion (λ p. GoesOn p.owner (history_of p) result.history) passes.items }
        ensures added { AddedTo (sessions_of self) (core_of self).history result.history }
    {
        let Shared { lock } = self;
        let Guarded { core } = lock.close(passes);
        core
    }

    // Waits for the turn, and takes the core.
    fn take<R: Wait>(&self, rt: &R, pass: &mut Pass) -> Core
        requires pass { IsPassOf (table_of self.now) (system_of self.now) pass.old }
        ensures session { pass.new.owner ≡ pass.old.owner }
        ensures system { result.system ≡ system_of self.now }
        ensures turn { HasTurn (table_of self.now) (system_of self.now) result.history pass.new }
        ensures goes_on { GoesOn pass.old.owner (history_of pass.old) result.history }
    {
        let Guarded { core } = self.lock.take(rt, pass);
        core
    }

    // Gives the core back, to whose history events of the session were added, and ends the turn.
    fn put(&self, pass: &mut Pass, core: Core)
        requires turn { GrowsByOwn (HasTurn (table_of self.now) (system_of self.now)) pass.old core.history }
        requires system { core.system ≡ system_of self.now }
        ensures pass { IsPassOf (table_of self.now) (system_of self.now) pass.new }
        ensures session { pass.new.owner ≡ pass.old.owner }
        ensures seen { history_of pass.new ≡ core.history }
    {
        core.is_legal();
        self.lock.put(pass, Guarded { core });
    }
}

// Ports, through which sessions ask a core.

ghost use Rattle.std.specs.Prelude.{◌≡◌, ℕ, List, IfOk, IfErr};
ghost use Rattle.pts_ctx.specs.System.{Specification};
ghost use Rattle.pts_core.specs.Histories.{Past, look, replay};
ghost use Rattle.pts_core.specs.Cores.{IsLegalCore, IsOver, submitted};
ghost use Rattle.pts_core.specs.Ports.{AfterOthers, IsAnswer, IsNoAnswer};

use crate::examined::Examined;
use crate::keeper::Core;
use crate::reply::Reply;
use pts_ctx::Context;
use std::alloc::{AllocError, Global};

/// The number of an event in the history, from 0 on, and the reply to it.
#[derive(Debug, Drop)]
pub struct Receipt {
    pub number: u64,
    pub reply: Reply,
}

/// The answer to a session: the receipt, and after `Seen` and `Committed` the whole front.
#[derive(Drop)]
pub struct Answer {
    pub receipt: Receipt,
    pub front: Option<Context>,
}

/// Why there is no answer.
#[derive(Debug, Drop)]
pub enum PortFault {
    /// The history has that many events, which are as many as it may have.
    HistoryFull(u64),
    /// Out of memory.
    Memory,
}

impl From<AllocError> for PortFault {
    ghost use Rattle.std.specs.Prelude.{◌≡◌};
    ghost use Rattle.pts_core.specs.declared.port.PortFault.{PortFault};

    ghost from_gives = { λ _ fault. fault ≡ PortFault.Memory };

    fn from(_error: AllocError) -> PortFault {
        PortFault::Memory
    }
}

/// The way on which one session asks a core, which may be one that others ask too. A call is one event of its session, and events
/// of other sessions may come before it, those that `may_come` allows.
pub trait Port {
    // The core's system, the number of the session, and the history as the session has seen it, whose replay is the front.
    ghost system: { Self → Specification };

    ghost session: { Self → ℕ };

    ghost history: { Self → List Past };

    // Which events of other sessions may come before that of a call.
    ghost may_come: { Self → List Past → Type 0 };

    // What a port needs to be asked, beside what the calls require.
    ghost ready: { Self → Type 0 };

    // The value on which the port works, where it only borrows that; no call exchanges it.
    ghost held: { Self → ℕ };

    /// What is sure of the core.
    fn is_legal(&self)
        requires ready { ready self.now }
        ensures { IsLegalCore (system self.now) (replay (history self.now)) (history self.now) };

    /// Asks how many entries there are.
    ///
    /// # Errors
    ///
    /// The history is full, or out of memory. Events of other sessions may have come all the same.
    fn look(&mut self, alloc: Global) -> Result<Answer, PortFault>
        requires ready { ready self.old }
        ensures ready { ready self.new }
        ensures held { held self.new ≡ held self.old }
        ensures system { system self.new ≡ system self.old }
        ensures session { session self.new ≡ session self.old }
        ensures answered { IfOk result (λ a. AfterOthers (session self.old) (may_come self.old) (history self.old) (λ h. IsAnswer (look (session self.old)) h (history self.new) a)) }
        ensures refused { IfErr result (λ e. AfterOthers (session self.old) (may_come self.old) (history self.old) (λ h. IsNoAnswer e h (history self.new))) };

    /// Asks that what was examined enters. It was examined in the core's system, over a front of the core.
    ///
    /// # Errors
    ///
    /// As those of `look`.
    fn submit(&mut self, alloc: Global, examined: Examined) -> Result<Answer, PortFault>
        requires ready { ready self.old }
        requires system { examined.system ≡ system self.old }
        requires front { IsOver examined (replay (history self.old)) }
        ensures ready { ready self.new }
        ensures held { held self.new ≡ held self.old }
        ensures system { system self.new ≡ system self.old }
        ensures session { session self.new ≡ session self.old }
        ensures answered { IfOk result (λ a. AfterOthers (session self.old) (may_come self.old) (history self.old) (λ h. IsAnswer (submitted (session self.old) examined) h (history self.new) a)) }
        ensures refused { IfErr result (λ e. AfterOthers (session self.old) (may_come self.old) (history self.old) (λ h. IsNoAnswer e h (history self.new))) };
}

/// The port to a core that is at hand, so that no one else asks it meanwhile: a call is one step of the core.
#[derive(Drop)]
pub struct CorePort<'a> {
    pub core: &'a mut Core,
    pub session: u32,
}

impl<'a> Port for CorePort<'a> {
    ghost use Rattle.std.specs.Prelude.{◌≡◌, ⊤, []};

    ghost system = { λ p. p.core.now.system };

    ghost session = { λ p. p.session };

    ghost history = { λ p. p.core.now.history };

    ghost may_come = { λ p others. others ≡ [] };

    ghost ready = { λ p. ⊤ };

    ghost held = { λ p. p.core.ghost_name };

    fn is_legal(&self) {
        self.core.is_legal()
    }

    fn look(&mut self, alloc: Global) -> Result<Answer, PortFault> {
        let _ = alloc;
        self.core.answer_look(self.session)
    }

    fn submit(&mut self, alloc: Global, examined: Examined) -> Result<Answer, PortFault> {
        let _ = alloc;
        self.core.is_legal();
        self.core.answer_submit(self.session, examined)
    }
}

// The port of a session to a shared core.

use crate::pass::Pass;
use crate::shared::Shared;
use pts_core::{Answer, Examined, Port, PortFault};
use std::alloc::Global;
use std::sync::Wait;

/// The port of a session to a core that others share with it. A call may wait, and events of the others may come before its own.
#[derive(Drop)]
pub struct SharedPort<'a, R> {
    pub shared: &'a Shared,
    pub rt: &'a R,
    pub pass: &'a mut Pass,
}

impl<'a, R: Wait> Port for SharedPort<'a, R> {
    ghost use Rattle.pts_share.specs.Passes.{AnyEvents, IsPassOf, history_of};
    ghost use Rattle.pts_share.specs.Loans.{loans};
    ghost use Rattle.pts_share.specs.Sharing.{system_of, table_of};

    ghost system = { λ p. system_of p.shared.now };

    ghost session = { λ p. p.pass.now.owner };

    ghost history = { λ p. history_of p.pass.now };

    ghost may_come = { λ p. AnyEvents };

    ghost ready = { λ p. IsPassOf (table_of p.shared.now) (system_of p.shared.now) p.pass.now };

    ghost held = { λ p. loans p.pass.ghost_name (table_of p.shared.now) };

    fn is_legal(&self) {
        let _ = &self.pass;
    }

    fn look(&mut self, alloc: Global) -> Result<Answer, PortFault> {
        let _ = alloc;
        self.shared.look(self.rt, self.pass)
    }

    fn submit(&mut self, alloc: Global, examined: Examined) -> Result<Answer, PortFault> {
        let _ = alloc;
        self.shared.submit(self.rt, self.pass, examined)
    }
}

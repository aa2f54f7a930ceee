// A port as the table of a round.

use crate::asking::ask_port;
use crate::players::SessionCore;
use crate::request::Request;
use pts_core::{Answer, Port};
use pts_play::Table;
use std::alloc::{AllocError, Global};

/// The port of one session, over which that session plays with a core that others may use too. Every request is one of the
/// port's session, whatever number a round gives it.
#[derive(Drop)]
pub struct PortTable<'a, P> {
    pub port: &'a mut P,
}

impl<'a, P: Port> Table<Request, Answer> for PortTable<'a, P> {
    ghost use Rattle.std.proofs.Common.{refl, ◌≡◌, ◌∙◌};
    ghost use Rattle.pts_core.specs.Histories.{replay};
    ghost use Rattle.pts_session.specs.Ports.{MayAsk, PortSteps};

    ghost may = { λ t q. P.ready t.port.now × MayAsk (P.system t.port.now) (replay (P.history t.port.now)) q };

    ghost steps = { λ t n q a u. P.ready u.port.now × PortSteps (P.session t.port.now) (P.may_come t.port.now) (P.system t.port.now)
        (P.history t.port.now) q a (P.session u.port.now) (P.system u.port.now) (P.history u.port.now) };

    ghost keeps = { λ t u. (P.ready t.port.now → P.ready u.port.now) × (P.system u.port.now ≡ P.system t.port.now)
        × (P.session u.port.now ≡ P.session t.port.now) };

    fn step(
        &mut self,
        alloc: Global,
        session: u32,
        request: Request,
    ) -> Result<Answer, AllocError> {
        let _ = session;
        match ask_port(alloc, self.port, request) {
            Ok(answer) => Ok(answer),
            Err(_) => Err(AllocError),
        }
    }

    ghost keeps_itself = { λ t. (λ r. r, refl, refl) };

    ghost keeps_on = { λ t u v e f. (λ r. f.0 (e.0 r), f.1 ∙ e.1, f.2 ∙ e.2) };
}

impl<'a, P: Port> SessionCore for PortTable<'a, P> {
    ghost use Rattle.pts_core.specs.Histories.{replay};

    ghost system = { λ t. P.system t.port.now };

    ghost front = { λ t. replay (P.history t.port.now) };

    ghost ready = { λ t. P.ready t.port.now };

    ghost may_be_asked = { λ t q r m. (r, m) };

    ghost answers = { λ t u n q a r s. s.1.answers };

    ghost keeps_system = { λ t u n q a s. s.1.system };

    ghost stays_ready = { λ t u n q a r s. s.0 };
}

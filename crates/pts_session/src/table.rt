// A core as the table of a round.

use crate::asking::ask_core;
use crate::players::SessionCore;
use crate::request::Request;
use pts_core::{Answer, Core};
use pts_play::Table;
use std::alloc::{AllocError, Global};

/// A core with which all sessions of a round play.
#[derive(Drop)]
pub struct CoreTable {
    pub core: Core,
}

impl Table<Request, Answer> for CoreTable {
    ghost use Rattle.std.proofs.Common.{refl, ◌≡◌, ◌∙◌};
    ghost use Rattle.pts_ctx.specs.Seen.{IsPrefix};
    ghost use Rattle.pts_core.specs.Histories.{replay};
    ghost use Rattle.pts_session.specs.Playing.{prefix_of_itself, prefix_on};
    ghost use Rattle.pts_session.specs.Ports.{CoreSteps, MayAsk};

    ghost may = { λ t q. MayAsk t.core.system (replay t.core.history) q };

    ghost steps = { λ t n q a u. CoreSteps t.core n q a u.core };

    ghost keeps = { λ t u. (u.core.system ≡ t.core.system) × IsPrefix t.core.history u.core.history };

    fn step(
        &mut self,
        alloc: Global,
        session: u32,
        request: Request,
    ) -> Result<Answer, AllocError> {
        let _ = alloc;
        match ask_core(&mut self.core, session, request) {
            Ok(answer) => Ok(answer),
            Err(_) => Err(AllocError),
        }
    }

    ghost keeps_itself = { λ t. (refl, prefix_of_itself t.core.history) };

    ghost keeps_on = { λ t u v e f. (f.0 ∙ e.0, prefix_on t.core.history u.core.history v.core.history e.1 f.1) };
}

impl SessionCore for CoreTable {
    ghost use Rattle.pts_core.specs.Histories.{replay};

    ghost system = { λ t. t.core.system };

    ghost front = { λ t. replay t.core.history };

    ghost ready = { λ t. Unit {0} };

    ghost may_be_asked = { λ t q r m. m };

    ghost answers = { λ t u n q a r s. s.answers };

    ghost keeps_system = { λ t u n q a s. s.system };

    ghost stays_ready = { λ t u n q a r s. tt };
}

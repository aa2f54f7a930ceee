// A session at work in a round.

ghost use Rattle.pts_serve.specs.Workers.{HasRun, IsReady};

use crate::client::{Client, Desk};
use pts_names::Text;
use pts_rounds::{Gate, Worker};
use pts_share::{Pass, Shared};
use std::alloc::Global;
use std::sync::Wait;

/// A session with its pass and its lines, and then with its replies, unless memory ran out.
pub(crate) struct SessionWorker<'a, W, C> {
    pub(crate) shared: &'a Shared,
    pub(crate) world: &'a W,
    pub(crate) alloc: Global,
    pub(crate) pass: Pass,
    pub(crate) session: C,
    pub(crate) lines: Vec<Text>,
    pub(crate) replies: Vec<Text>,
    pub(crate) ended: bool,
}

impl<'a, W: Sync, C: Client<W> + Send> Worker for SessionWorker<'a, W, C> {
    ghost ready = { IsReady (λ w. C.fits w) };

    ghost ran = { HasRun (λ w. C.local w) (λ w. C.resumes w) C.steps (λ w. C.fits w) };

    fn run<R: Wait, G: Gate>(&mut self, rt: &R, gate: &G) {
        let desk = Desk {
            shared: self.shared,
            rt,
            gate,
        };
        let lines = self.lines.as_slice();
        match self
            .session
            .run_lines(self.alloc, self.world, &desk, &mut self.pass, lines)
        {
            Ok(replies) => {
                self.replies = replies;
                self.ended = true;
            }
            Err(_) => self.ended = false,
        }
    }
}

// Lines that are run to their end, through a port.

ghost use Rattle.std.specs.Prelude.{◌≡◌, IfOk, IfErr, OnOk};
ghost use Rattle.pts_core.specs.Histories.{replay};
ghost use Rattle.pts_session.specs.Players.{FitsTo, IsFree};
ghost use Rattle.pts_session.specs.Ports.{DidNotRun, RanLine};

use crate::asking::ask_port;
use crate::session::Session;
use crate::world::World;
use pts_core::{Port, PortFault};
use pts_names::Text;
use pts_play::Local;
use std::alloc::Global;

impl Session {
    /// Runs a line to its end, with the one call of the port that it may make: its replies.
    ///
    /// # Errors
    ///
    /// The history is full, as the port says, or out of memory: before the line asks, or for its answer, or for its replies. Then
    /// nothing is said of the session, and its answer is lost if it had one.
    pub fn run_line<P: Port>(
        &mut self,
        alloc: Global,
        world: &World,
        text: &str,
        port: &mut P,
    ) -> Result<Vec<Text>, PortFault>
        requires free { IsFree world.now.system self.old }
        requires fits { FitsTo world.now.system self.old (P.system port.old) (replay (P.history port.old)) }
        requires ready { P.ready port.old }
        ensures ran { IfOk result (λ lines. RanLine (P.session port.old) (P.may_come port.old) world.now.system
            (P.history port.old) self.old.state text.now (P.history port.new) lines.items self.new.state) }
        ensures refused { IfErr result (λ e. DidNotRun (P.session port.old) (P.may_come port.old) world.now.system
            (P.history port.old) self.old.state text.now (P.history port.new) e) }
        ensures free { OnOk result (IsFree world.now.system self.new) }
        ensures fits { OnOk result (FitsTo world.now.system self.new (P.system port.new) (replay (P.history port.new))) }
        ensures ready { P.ready port.new }
        ensures held { P.held port.new ≡ P.held port.old }
        ensures system { P.system port.new ≡ P.system port.old }
        ensures session { P.session port.new ≡ P.session port.old }
    {
        match self.run_local(alloc, world, text)? {
            Local::Done(lines) => Ok(lines),
            Local::Ask(request) => {
                let answer = ask_port(alloc, port, request)?;
                Ok(self.resume(alloc, world, answer)?)
            }
        }
    }
}

// Requests are put to a core, or through a port.

ghost use Rattle.std.specs.Prelude.{◌≡◌, IfOk, IfErr};
ghost use Rattle.pts_ctx.specs.Seen.{IsPrefix};
ghost use Rattle.pts_core.specs.Histories.{replay};
ghost use Rattle.pts_core.specs.Cores.{front_of};
ghost use Rattle.pts_core.specs.Ports.{IsAnswer, IsNoAnswer};
ghost use Rattle.pts_session.specs.State.{awaited_after};
ghost use Rattle.pts_session.specs.Players.{AnswersAt};
ghost use Rattle.pts_session.specs.Ports.{CoreSteps, IsAnswered, IsNotAnswered, MayAsk, event_of};

use crate::request::Request;
use pts_core::{Answer, Core, Port, PortFault};
use std::alloc::Global;

/// A request of the session with this number, put to a core: one step of it.
///
/// # Errors
///
/// The history is full, or out of memory. Then nothing has happened.
#[tactic(auto, using(crate::proofs::Answering::core_steps, crate::proofs::Answering::may_put))]
pub(crate) fn ask_core(core: &mut Core, session: u32, request: Request) -> Result<Answer, PortFault>
    requires may { MayAsk core.old.system (replay core.old.history) request }
    ensures steps { IfOk result (λ a. CoreSteps core.old session request a core.new) }
    ensures refused { IfErr result (λ e. IsNoAnswer e core.old.history core.new.history) }
    ensures system { core.new.system ≡ core.old.system }
    ensures goes_on { IsPrefix core.old.history core.new.history }
{
    core.is_legal();
    let answer = put(core, session, request)?;
    core.is_legal();
    Ok(answer)
}

// The event of the request.
#[tactic(auto, using(crate::proofs::Answering::history_goes_on))]
fn put(core: &mut Core, session: u32, request: Request) -> Result<Answer, PortFault>
    requires may { MayAsk core.old.system (front_of core.old) request }
    ensures answered { IfOk result (λ a. IsAnswer (event_of session request) core.old.history core.new.history a) }
    ensures refused { IfErr result (λ e. IsNoAnswer e core.old.history core.new.history) }
    ensures system { core.new.system ≡ core.old.system }
    ensures goes_on { IsPrefix core.old.history core.new.history }
{
    match request {
        Request::Look => core.answer_look(session),
        Request::Submit(examined) => core.answer_submit(session, examined),
    }
}

/// A request that is put through a port.
///
/// # Errors
///
/// Those of the port: the history is full, or out of memory.
#[tactic(auto, using(crate::proofs::Answering::port_answers))]
pub(crate) fn ask_port<P: Port>(
    alloc: Global,
    port: &mut P,
    request: Request,
) -> Result<Answer, PortFault>
    requires ready { P.ready port.old }
    requires may { MayAsk (P.system port.old) (replay (P.history port.old)) request }
    ensures answered { IfOk result (λ a. IsAnswered (P.session port.old) (P.may_come port.old) (P.history port.old) request a (P.history port.new)) }
    ensures answers { IfOk result (λ a. AnswersAt (P.system port.old) (replay (P.history port.old)) (awaited_after request) a (replay (P.history port.new))) }
    ensures refused { IfErr result (λ e. IsNotAnswered (P.session port.old) (P.may_come port.old) (P.history port.old) e (P.history port.new)) }
    ensures ready { P.ready port.new }
    ensures held { P.held port.new ≡ P.held port.old }
    ensures system { P.system port.new ≡ P.system port.old }
    ensures session { P.session port.new ≡ P.session port.old }
{
    let answer = call(alloc, port, request)?;
    port.is_legal();
    Ok(answer)
}

// The call of the request.
fn call<P: Port>(alloc: Global, port: &mut P, request: Request) -> Result<Answer, PortFault>
    requires ready { P.ready port.old }
    requires may { MayAsk (P.system port.old) (replay (P.history port.old)) request }
    ensures answered { IfOk result (λ a. IsAnswered (P.session port.old) (P.may_come port.old) (P.history port.old) request a (P.history port.new)) }
    ensures refused { IfErr result (λ e. IsNotAnswered (P.session port.old) (P.may_come port.old) (P.history port.old) e (P.history port.new)) }
    ensures ready { P.ready port.new }
    ensures held { P.held port.new ≡ P.held port.old }
    ensures system { P.system port.new ≡ P.system port.old }
    ensures session { P.session port.new ≡ P.session port.old }
{
    match request {
        Request::Look => port.look(alloc),
        Request::Submit(examined) => port.submit(alloc, examined),
    }
}

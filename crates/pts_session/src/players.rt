// Sessions as players of rounds.

ghost use Rattle.std.specs.Prelude.{◌≡◌, ℕ};
ghost use Rattle.pts_ctx.specs.System.{Specification};
ghost use Rattle.pts_core.specs.Replies.{LabelledFront};
ghost use Rattle.pts_core.specs.declared.port.Answer.{Answer};
ghost use Rattle.pts_session.specs.declared.request.Request.{Request};
ghost use Rattle.pts_session.specs.State.{awaited_after};
ghost use Rattle.pts_session.specs.Players.{AnswersAt, Awaits, FitsTo, Hears, IsFree, MayHear, RunsLine};
ghost use Rattle.pts_session.specs.Ports.{MayAsk};
ghost use Rattle.pts_session.specs.Playing as playing;

use crate::request::Request;
use crate::session::Session;
use crate::world::World;
use pts_core::Answer;
use pts_names::Text;
use pts_play::{Local, Player, Table};
use std::alloc::{AllocError, Global};
use std::marker::{Model, PhantomData};

/// A core with which sessions may play, or the way to one.
pub trait SessionCore: Table<Request, Answer> {
    // Its system, and its front.
    ghost system: { Self → Specification };

    ghost front: { Self → LabelledFront };

    // What it needs to be asked, beside what is asked.
    ghost ready: { Self → Type 0 };

    ghost may_be_asked: { (C : Self) (q : Request) → ready C → MayAsk (system C) (front C) q → Self.Table.may C q };

    ghost answers: { (C D : Self) (n : ℕ) (q : Request) (a : Answer) → ready C → Self.Table.steps C n q a D
        → AnswersAt (system C) (front C) (awaited_after q) a (front D) };

    ghost keeps_system: { (C D : Self) (n : ℕ) (q : Request) (a : Answer) → Self.Table.steps C n q a D → system D ≡ system C };

    ghost stays_ready: { (C D : Self) (n : ℕ) (q : Request) (a : Answer) → ready C → Self.Table.steps C n q a D → ready D };
}

/// A session that plays with cores of one type.
#[derive(Drop)]
pub struct SessionPlayer<C> {
    session: Session,
    core: PhantomData<C>,
}

impl<C> Model for SessionPlayer<C> {
    ghost use Rattle.std.specs.Coded.{codes};
    ghost use Rattle.pts_terms.specs.Code.{coded_tree};
    ghost use Rattle.pts_session.specs.Seen.{SeenSession};

    ghost Value = { SeenSession };

    ghost coded = { Prim.hlevel (codes, coded_tree) };

    ghost view = { λ p. p.session };
}

impl<C> SessionPlayer<C> {
    /// This session.
    pub fn of(session: Session) -> SessionPlayer<C>
        ensures { result ≡ session }
    {
        SessionPlayer {
            session,
            core: PhantomData,
        }
    }

    /// The session.
    pub fn session(&self) -> &Session
        ensures { result.now ≡ self.now }
    {
        &self.session
    }
}

impl<C: SessionCore> Player for SessionPlayer<C> {
    type World = World;

    type Request = Request;

    type Answer = Answer;

    type Core = C;

    ghost local = { λ w s text o. RunsLine w.system s text o };

    ghost resumes = { λ w s a replies t. Hears s a replies t };

    ghost free = { λ w s. IsFree w.system s };

    ghost awaits = { λ w s q. Awaits w.system s q };

    ghost takes = { λ w s a. (s.system ≡ w.system) × MayHear s a };

    ghost fits = { λ w s c. FitsTo w.system s (C.system c) (C.front c) × C.ready c };

    fn run_local(
        &mut self,
        alloc: Global,
        world: &World,
        text: &str,
    ) -> Result<Local<Request>, AllocError> {
        self.session.run_local(alloc, world, text)
    }

    fn resume(
        &mut self,
        alloc: Global,
        world: &World,
        answer: Answer,
    ) -> Result<Vec<Text>, AllocError> {
        self.session.resume(alloc, world, answer)
    }

    ghost stays_free = { λ w s t text replies f r. playing.stays_free w.system s t text replies f r };

    ghost waits = { λ w s t text q f r. playing.waits w.system s t text q f r };

    ghost done_fits = { λ w s t text replies c f r. (playing.done_fits w.system s t text replies (C.system c) (C.front c) f.0 r, f.1) };

    ghost asks_fits = { λ w s t text q c f r. (playing.asks_fits w.system s t text q (C.system c) (C.front c) f.0 r, f.1) };

    ghost may_ask = { λ w s q c f a. C.may_be_asked c q f.1 (playing.may_ask w.system s q (C.system c) (C.front c) f.0 a) };

    ghost may_answer = { λ w s n q a c d f h e. playing.may_answer w.system s q a (C.system c) (C.front c) (C.front d) f.0 h (C.answers c d n q a f.1 e) };

    ghost resumed = { λ w s t n q a replies c d f h e r.
        let p = playing.resumed w.system s t a replies (C.system c) (C.system d) (C.front c) (C.front d) q f.0
        (C.answers c d n q a f.1 e) (C.keeps_system c d n q a e) r in
        (p.0, (p.1, C.stays_ready c d n q a f.1 e)) };

    ghost others = { λ w s n q a c d f e. (
      playing.others w.system s a (C.system c) (C.system d) (C.front c) (C.front d) q f.0 (C.answers c d n q a f.1 e)
          (C.keeps_system c d n q a e),
      C.stays_ready c d n q a f.1 e,
    ) };
}

ghost use Rattle.std.specs.Prelude.{ℕ, List, IfOk, ◌≡◌, ◌≤◌, map};
ghost use Rattle.pts_play.specs.Machines.{Outcome, done, asks};
ghost use Rattle.pts_play.specs.Seen.{outcome_of};

use pts_names::Text;
use std::alloc::{AllocError, Global};

/// What a line of a session comes to by itself.
#[derive(Drop)]
pub enum Local<R> {
    /// These replies, and the line is done.
    Done(Vec<Text>),
    /// One request to the core; the line is done by its answer.
    Ask(R),
}

/// A core as a round sees it: it answers requests, one after another. In place of a core this may be the way to one that
/// others use too; then other events may lie between two of its steps.
pub trait Table<Q, A> {
    // The request may be made of this core.
    ghost may: { Self → Q → Type 0 };

    // The request of the session with this number is answered so, and leads to that core.
    ghost steps: { Self → ℕ → Q → A → Self → Type 0 };

    // What each call keeps, also one that is refused.
    ghost keeps: { Self → Self → Type 0 };

    /// Answers a request of the session with this number.
    ///
    /// # Errors
    ///
    /// Out of memory, or of room for one more event. Then `keeps` says what is left of the core.
    fn step(&mut self, alloc: Global, session: u32, request: Q) -> Result<A, AllocError>
        requires { may self.old request }
        ensures steps { IfOk result (λ a. steps self.old session request a self.new) }
        ensures keeps { keeps self.old self.new };

    ghost keeps_itself: { (C : Self) → keeps C C };

    ghost keeps_on: { (C D E : Self) → keeps C D → keeps D E → keeps C E };
}

/// A session as a round sees it. It is lent the world at each call, never looks at the core, and learns of it by answers alone.
pub trait Player {
    type World;

    type Request: Drop;

    type Answer: Drop;

    type Core: Table<Self::Request, Self::Answer>;

    // What a line comes to in a session that waits for nothing.
    ghost local: { Self.World → Self → List ℕ → Outcome Self Self Self.Request → Type 0 };

    // The replies that an answer leads to in a session that waits for it, and the session after them.
    ghost resumes: { Self.World → Self → Self.Answer → List (List ℕ) → Self → Type 0 };

    // The session waits for nothing.
    ghost free: { Self.World → Self → Type 0 };

    // The session waits for the answer to this request.
    ghost awaits: { Self.World → Self → Self.Request → Type 0 };

    // The session may be given this answer.
    ghost takes: { Self.World → Self → Self.Answer → Type 0 };

    // The session may play with this core in this world.
    ghost fits: { Self.World → Self → Self.Core → Type 0 };

    /// Runs a line by itself, to its end or to a request.
    ///
    /// # Errors
    ///
    /// Out of memory. Then nothing is said of the session.
    fn run_local(
        &mut self,
        alloc: Global,
        world: &Self::World,
        text: &str,
    ) -> Result<Local<Self::Request>, AllocError>
        requires { free world.now self.old }
        ensures { IfOk result (λ l. local world.now self.old text.now (outcome_of l self.new)) };

    /// Takes the answer for which the session waits, and ends the line with its replies.
    ///
    /// # Errors
    ///
    /// Out of memory. Then nothing is said of the session.
    fn resume(
        &mut self,
        alloc: Global,
        world: &Self::World,
        answer: Self::Answer,
    ) -> Result<Vec<Text>, AllocError>
        requires { takes world.now self.old answer }
        ensures { IfOk result (λ v. resumes world.now self.old answer v.items self.new) };

    ghost stays_free: { (w : Self.World) (s t : Self) (text : List ℕ) (out : List (List ℕ)) → free w s → local w s text (done out t) → free w t };

    ghost waits: { (w : Self.World) (s t : Self) (text : List ℕ) (q : Self.Request) → free w s → local w s text (asks q t) → awaits w t q };

    ghost done_fits: { (w : Self.World) (s t : Self) (text : List ℕ) (out : List (List ℕ)) (C : Self.Core) → fits w s C → local w s text (done out t) → fits w t C };

    ghost asks_fits: { (w : Self.World) (s t : Self) (text : List ℕ) (q : Self.Request) (C : Self.Core) → fits w s C → local w s text (asks q t) → fits w t C };

    ghost may_ask: { (w : Self.World) (s : Self) (q : Self.Request) (C : Self.Core) → fits w s C → awaits w s q → Self.Core.may C q };

    ghost may_answer: { (w : Self.World) (s : Self) (n : ℕ) (q : Self.Request) (a : Self.Answer) (C D : Self.Core) → fits w s C → awaits w s q → Self.Core.steps C n q a D → takes w s a };

    ghost resumed: { (w : Self.World) (s t : Self) (n : ℕ) (q : Self.Request) (a : Self.Answer) (out : List (List ℕ)) (C D : Self.Core) → fits w s C → awaits w s q → Self.Core.steps C n q a D → resumes w s a out t → free w t × fits w t D };

    ghost others: { (w : Self.World) (s : Self) (n : ℕ) (q : Self.Request) (a : Self.Answer) (C D : Self.Core) → fits w s C → Self.Core.steps C n q a D → fits w s D };
}

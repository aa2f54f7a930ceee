// Sessions that may share a core.

ghost use Rattle.std.specs.Prelude.{◌≡◌, ◌++◌, ℕ, List, IfOk, OnOk};
ghost use Rattle.pts_ctx.specs.System.{Specification};
ghost use Rattle.pts_core.specs.Histories.{Past};
ghost use Rattle.pts_play.specs.Machines.{Outcome};
ghost use Rattle.pts_share.specs.Passes.{IsPassOf, history_of};
ghost use Rattle.pts_share.specs.Sharing.{system_of, table_of};
ghost use Rattle.pts_serve.specs.Served.{RanLines};

use pts_names::Text;
use pts_rounds::Gate;
use pts_share::{Pass, Shared};
use std::alloc::{AllocError, Global};
use std::sync::Wait;

/// Where a session asks a core that it shares: the core, and the gate that it passes at each point of its work.
#[derive(Drop)]
pub struct Desk<'a, R, G> {
    pub shared: &'a Shared,
    pub rt: &'a R,
    pub gate: &'a G,
}

/// A session that may share a core with others. It is lent a world, never looks at the core, and learns of it by answers alone.
pub trait Client<W> {
    type Request;

    type Answer;

    // What a line comes to in a session that waits for nothing.
    ghost local: { W → Self → List ℕ → Outcome Self Self Self.Request → Type 0 };

    // The replies that an answer leads to in a session that waits for it, and the session after them.
    ghost resumes: { W → Self → Self.Answer → List (List ℕ) → Self → Type 0 };

    // The core, by its history: the request of the session with this number is answered so.
    ghost steps: { List Past → ℕ → Self.Request → Self.Answer → List Past → Type 0 };

    // The session waits for nothing, and may play on with a core of this system and this history.
    ghost fits: { W → Self → Specification → List Past → Type 0 };

    /// Runs lines to their end, with what they ask through the pass: their replies.
    ///
    /// # Errors
    ///
    /// Out of memory, or the history is full. Then nothing is said of the session.
    fn run_lines<R: Wait, G: Gate>(
        &mut self,
        alloc: Global,
        world: &W,
        desk: &Desk<'_, R, G>,
        pass: &mut Pass,
        lines: &[Text],
    ) -> Result<Vec<Text>, AllocError>
        requires pass { IsPassOf (table_of desk.now.shared.now) (system_of desk.now.shared.now) pass.old }
        requires fits { fits world.now self.old (system_of desk.now.shared.now) (history_of pass.old) }
        ensures ran { IfOk result (λ replies. RanLines (local world.now) (resumes world.now) steps pass.old.owner
            (history_of pass.old) self.old lines.now (history_of pass.new) self.new replies.items) }
        ensures fits { OnOk result (fits world.now self.new (system_of desk.now.shared.now) (history_of pass.new)) }
        ensures pass { IsPassOf (table_of desk.now.shared.now) (system_of desk.now.shared.now) pass.new }
        ensures session { pass.new.owner ≡ pass.old.owner };

    // Events of others change nothing of that.
    ghost fits_on: { (w : W) (s : Self) (S : Specification) (h more : List Past) → fits w s S h → fits w s S (h ++ more) };
}

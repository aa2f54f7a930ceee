ghost use Rattle.std.specs.Prelude.{◌≡◌, ◌≢◌, ◌++◌, ◌∷◌, ℕ, List, [], length, map, true, false, IfOk, OnOk, OnErr};
ghost use Rattle.pts_play.specs.Inputs.{IsSession};
ghost use Rattle.pts_play.specs.Play.{Playing, full_line};

use pts_names::Text;
use std::alloc::{AllocError, Global};

/// A play in progress, as the loop over the input sees it: it takes lines for the next round, and runs it. How a round is run
/// is its own affair, on one thread or on many.
pub trait Game {
    type World;

    type Core;

    type State;

    // The state of the play.
    ghost state: { Self → Playing Self.Core Self.State };

    // What a round does, in a world.
    ghost rounds: { Self.World → Playing Self.Core Self.State → (numbers : List ℕ) → (out : List (List ℕ)) → Playing Self.Core Self.State → Type 0 };

    // It may go on in this world.
    ghost ready: { Self.World → Self → Type 0 };

    // A round takes these numbers.
    ghost takes: { List ℕ → Type 0 };

    // What each call keeps, also one that is refused.
    ghost keeps: { Self → Self → Type 0 };

    /// Whether there is a line for the round that has not run.
    fn has_lines(&self) -> bool
        ensures some { result ≡ true → (state self.now).lines ≢ [] }
        ensures none { result ≡ false → (state self.now).lines ≡ [] };

    /// Adds a line of the session with this number to the round that has not run.
    ///
    /// # Errors
    ///
    /// Out of memory. Then the orders of the rounds are as before, and nothing else is said of the play.
    fn add_line(&mut self, number: u32, text: Text) -> Result<(), AllocError>
        requires session { IsSession number }
        ensures added { OnOk result (state self.new ≡ record (state self.old) { lines = (state self.old).lines ++ (number, text) ∷ [] }) }
        ensures ready { OnOk result ((w : Self.World) → ready w self.old → ready w self.new) }
        ensures orders { OnErr result ((state self.new).orders ≡ (state self.old).orders) }
        ensures keeps { keeps self.old self.new };

    /// Runs the round, with these numbers, and answers the lines that are printed for it, each with a line feed.
    ///
    /// # Errors
    ///
    /// Out of memory, or what a step of the core refuses. Then the orders of the rounds are as before, and nothing else is
    /// said of the play.
    fn run_round(
        &mut self,
        alloc: Global,
        world: &Self::World,
        numbers: &[u32],
    ) -> Result<Vec<Text>, AllocError>
        requires ready { ready world.now self.old }
        requires numbers { takes numbers.now }
        ensures played { IfOk result (λ lines. (out : List (List ℕ)) × (lines.items ≡ map full_line out) × rounds world.now (state self.old) numbers.now out (state self.new)) }
        ensures ready { OnOk result (ready world.now self.new) }
        ensures orders { OnErr result ((state self.new).orders ≡ (state self.old).orders) }
        ensures keeps { keeps self.old self.new };

    ghost takes_none: { takes [] };

    ghost has_sessions: { (w : Self.World) (g : Self) → ready w g → length (state g).sessions ≡ 64 };

    ghost keeps_itself: { (g : Self) → keeps g g };

    ghost keeps_on: { (g h k : Self) → keeps g h → keeps h k → keeps g k };
}

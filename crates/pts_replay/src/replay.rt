ghost use Rattle.std.specs.Prelude.{◌≡◌, ◌≤◌, ◌+◌, ◌++◌, ◌∷◌, ℕ, suc, List, [], length, map, All, IfOk, OnOk};
ghost use Rattle.std.proofs.Common.{◌∙◌};
ghost use Rattle.std.proofs.lemmas.List.{length-map};
ghost use Rattle.std.proofs.lemmas.List.Elements.{All-nil};
ghost use Rattle.std.specs.List.{AllByRecursion};
ghost use Rattle.pts_play.specs.Rounds.{OrderFrom};
ghost use Rattle.pts_play.specs.Inputs.{IsSession};
ghost use Rattle.pts_play.specs.Play.{PlaysRound, full_line};
ghost use Rattle.pts_play.specs.Turns.{AllClear, AllFit, HaveLines, NoLines, players};
ghost use Rattle.pts_replay.specs.Games.{state_of, MayGoOn};

use crate::game::Game;
use pts_names::{List, Text};
use pts_play::{Player, Seat, Table, add_line, close_round, play_round};
use std::alloc::{AllocError, Global};

/// A play on one thread, in which the numbers after `go` choose whose call is next.
#[derive(Drop)]
pub struct Replay<P, Q, C> {
    pub core: C,
    pub seats: Vec<Seat<P, Q>>,
    /// The lines of the round that has not run, each with the number of its session.
    pub lines: Vec<(u32, Text)>,
    /// The orders of the rounds that were played: each is the numbers of the sessions of its events.
    pub orders: Vec<List<u32>>,
}

impl<P: Drop, Q: Drop, C: Drop> Replay<P, Q, C> {
    /// The play of these sessions over the core at its start.
    ///
    /// # Errors
    ///
    /// Out of memory.
    pub fn new(alloc: Global, core: C, sessions: Vec<P>) -> Result<Replay<P, Q, C>, AllocError>
        ensures core { IfOk result (λ g. g.core ≡ core) }
        ensures sessions { IfOk result (λ g. players g.seats.items ≡ sessions.items) }
        ensures lines { IfOk result (λ g. g.lines.items ≡ []) }
        ensures orders { IfOk result (λ g. g.orders.items ≡ []) }
        ensures clear { IfOk result (λ g. AllClear g.seats.items) }
        ensures bare { IfOk result (λ g. NoLines g.seats.items) }
    {
        Ok(Replay {
            core,
            seats: seats_of(alloc, sessions)?,
            lines: Vec::new(alloc),
            orders: Vec::new(alloc),
        })
    }
}

// A seat for each session.
fn seats_of<P: Drop, Q: Drop>(
    alloc: Global,
    sessions: Vec<P>,
) -> Result<Vec<Seat<P, Q>>, AllocError>
    ensures players { IfOk result (λ seats. players seats.items ≡ sessions.items) }
    ensures clear { IfOk result (λ seats. AllClear seats.items) }
    ensures bare { IfOk result (λ seats. NoLines seats.items) }
{
    let mut seats = Vec::new(alloc);
    let mut rest = sessions.into_iter();
    while let Some(session) = rest.next() {
        seats.push(Seat::new(alloc, session))?;
    }
    Ok(seats)
}

impl<P: Player> Game for Replay<P, P::Request, P::Core> {
    type World = P::World;

    type Core = P::Core;

    type State = P;

    ghost state = { state_of };

    ghost rounds = { λ w. PlaysRound P.Core.steps (P.local w) (P.resumes w) OrderFrom };

    ghost ready = { λ w g. MayGoOn (P.free w) (P.fits w) g };

    ghost takes = { λ numbers. All IsSession numbers };

    ghost keeps = { λ g h. P.Core.keeps g.core h.core };

    fn has_lines(&self) -> bool {
        !self.lines.is_empty()
    }

    fn add_line(&mut self, number: u32, text: Text) -> Result<(), AllocError> {
        self.lines.push((number, text))?;
        Ok(())
    }

    fn run_round(
        &mut self,
        alloc: Global,
        world: &P::World,
        numbers: &[u32],
    ) -> Result<Vec<Text>, AllocError> {
        let lines = std::mem::replace(&mut self.lines, Vec::new(alloc));
        let number = self.orders.len() as u64 + 1;
        let seats = self.seats.as_mut_slice();
        let round = round_of(alloc, world, &mut self.core, seats, lines, numbers, number)?;
        self.orders.push(List::of(round.order))?;
        Ok(round.printed)
    }

    ghost takes_none = { All-nil IsSession };

    ghost has_sessions = { λ w g r. length-map g.seats.items (λ s. s.player) ∙ r.sessions };

    ghost keeps_itself = { λ g. P.Core.keeps_itself g.core };

    ghost keeps_on = { λ g h k a b. P.Core.keeps_on g.core h.core k.core a b };
}

// The order of a round that has run, and the lines that are printed for it, each with a line feed.
#[derive(Drop)]
struct Round {
    order: Vec<u32>,
    printed: Vec<Text>,
}

// Runs the round with this number, of these lines.
fn round_of<P: Player>(
    alloc: Global,
    world: &P::World,
    core: &mut P::Core,
    seats: &mut [Seat<P, P::Request>],
    lines: Vec<(u32, Text)>,
    numbers: &[u32],
    number: u64,
) -> Result<Round, AllocError>
    requires sessions { length seats.old ≡ 64 }
    requires known { All (λ l. IsSession l.0) lines.items }
    requires numbers { All IsSession numbers.now }
    requires clear { AllClear seats.old }
    requires bare { NoLines seats.old }
    requires free { AllByRecursion (P.free world.now) (players seats.old) }
    requires fits { AllFit (P.fits world.now) core.old seats.old }
    ensures played { IfOk result (λ r. (orders : List (List ℕ)) → suc (length orders) ≡ number → (out : List (List ℕ)) × (r.printed.items ≡ map full_line out)
        × PlaysRound P.Core.steps (P.local world.now) (P.resumes world.now) OrderFrom (record { core = core.old; sessions = players seats.old; lines = lines.items; orders = orders }) numbers.now out (record { core = core.new; sessions = players seats.new; lines = []; orders = orders ++ r.order.items ∷ [] })) }
    ensures clear { OnOk result (AllClear seats.new) }
    ensures bare { OnOk result (NoLines seats.new) }
    ensures free { OnOk result (AllByRecursion (P.free world.now) (players seats.new)) }
    ensures fits { OnOk result (AllFit (P.fits world.now) core.new seats.new) }
    ensures keeps { P.Core.keeps core.old core.new }
{
    hand_out(seats, lines)?;
    let order = play_round(alloc, world, core, seats, numbers)?;
    let printed = close_round(alloc, seats, order.as_slice(), number)?;
    Ok(Round { order, printed })
}

// Gives each line to its session.
fn hand_out<P, Q>(seats: &mut [Seat<P, Q>], lines: Vec<(u32, Text)>) -> Result<(), AllocError>
    requires sessions { length seats.old ≡ 64 }
    requires known { All (λ l. IsSession l.0) lines.items }
    requires clear { AllClear seats.old }
    requires bare { NoLines seats.old }
    ensures lines { OnOk result (HaveLines 1 lines.items seats.new) }
    ensures clear { OnOk result (AllClear seats.new) }
    ensures players { OnOk result (players seats.new ≡ players seats.old) }
{
    let mut rest = lines.into_iter();
    while let Some((number, text)) = rest.next() {
        add_line(seats, number as usize - 1, text)?;
    }
    Ok(())
}

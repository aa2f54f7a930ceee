ghost use Rattle.std.specs.Prelude.{◌≡◌, ◌∷◌, ℕ, Bool, List, [], map, true, false, All, IfOk, IfErr, OnOk, OnErr};
ghost use Rattle.pts_io.specs.Lines.{IsText};
ghost use Rattle.pts_io.specs.declared.ended.Ended.{Ended};
ghost use Rattle.pts_play.specs.Inputs.{IsSession};
ghost use Rattle.pts_play.specs.Play.{full_line, refused_line, PlaysRest};
ghost use Rattle.pts_replay.specs.Replies.{LineLeads, InputLeads, EndsBy};

use crate::game::Game;
use crate::line::{Asked, read_line};
use pts_io::{Ended, Input};
use pts_names::Text;
use std::alloc::{AllocError, Global};

/// What is printed for a line of the input, or at its end.
#[derive(Drop)]
pub(crate) struct Reply {
    /// Lines, each with a line feed.
    pub(crate) lines: Vec<Text>,
    /// No line is read after this.
    pub(crate) is_last: bool,
}

/// Does what the reader of lines answered, and answers what is printed for it, or how the play ends by it.
pub(crate) fn answer_input<G: Game>(
    alloc: Global,
    world: &G::World,
    game: &mut G,
    numbered: bool,
    number: u64,
    input: &Input,
) -> Result<Reply, Ended>
    requires ready { G.ready world.now game.old }
    requires numbers { numbered ≡ true → (ns : List ℕ) → All IsSession ns → G.takes ns }
    ensures leads { IfOk result (λ r. (out : List (List ℕ)) × (r.lines.items ≡ map full_line out) × InputLeads (G.rounds world.now) numbered number input.now (G.state game.old) r.is_last out (G.state game.new)) }
    ensures ready { OnOk result (G.ready world.now game.new) }
    ensures ended { IfErr result (EndsBy input.now) }
    ensures orders { OnErr result ((G.state game.new).orders ≡ (G.state game.old).orders) }
    ensures too_much { IfErr result (λ e. e ≡ Ended.TooMuch → G.state game.new ≡ G.state game.old) }
    ensures keeps { G.keeps game.old game.new }
{
    match input {
        Input::Text(text) => {
            let line = text.as_str();
            let Ok(reply) = answer_line(alloc, world, game, numbered, number, line) else {
                return Err(Ended::NoMemory);
            };
            Ok(reply)
        }
        Input::Bad => {
            let Ok(lines) = refusal(alloc, number) else {
                return Err(Ended::NoMemory);
            };
            Ok(reply_of(lines))
        }
        Input::TooMuch => Err(Ended::TooMuch),
        Input::End => {
            let Ok(lines) = last_round(alloc, world, game) else {
                return Err(Ended::NoMemory);
            };
            Ok(last_of(lines))
        }
    }
}

// Does what a line asks for.
fn answer_line<G: Game>(
    alloc: Global,
    world: &G::World,
    game: &mut G,
    numbered: bool,
    number: u64,
    line: &str,
) -> Result<Reply, AllocError>
    requires ready { G.ready world.now game.old }
    requires numbers { numbered ≡ true → (ns : List ℕ) → All IsSession ns → G.takes ns }
    ensures leads { IfOk result (λ r. (out : List (List ℕ)) × (r.lines.items ≡ map full_line out) × (IsText line.now → LineLeads (G.rounds world.now) numbered number line.now (G.state game.old) r.is_last out (G.state game.new))) }
    ensures ready { OnOk result (G.ready world.now game.new) }
    ensures orders { OnErr result ((G.state game.new).orders ≡ (G.state game.old).orders) }
    ensures keeps { G.keeps game.old game.new }
{
    let asked = read_line(alloc, line, numbered)?;
    match asked {
        Asked::Line(session, text) => {
            game.add_line(session, text)?;
            Ok(reply_of(Vec::new(alloc)))
        }
        Asked::Go(numbers) => {
            let round = game.run_round(alloc, world, numbers.as_slice())?;
            Ok(reply_of(round))
        }
        Asked::End => {
            let last = last_round(alloc, world, game)?;
            Ok(last_of(last))
        }
        Asked::Unknown => {
            let refused = refusal(alloc, number)?;
            Ok(reply_of(refused))
        }
    }
}

// These lines, after which lines are read.
fn reply_of(lines: Vec<Text>) -> Reply
    ensures lines { result.lines.items ≡ lines.items }
    ensures goes_on { result.is_last ≡ false }
{
    Reply {
        lines,
        is_last: false,
    }
}

// These lines, after which none is read.
fn last_of(lines: Vec<Text>) -> Reply
    ensures lines { result.lines.items ≡ lines.items }
    ensures ends { result.is_last ≡ true }
{
    Reply {
        lines,
        is_last: true,
    }
}

// Runs the round that has not run, if it has a line, and answers the lines that are printed for it.
fn last_round<G: Game>(
    alloc: Global,
    world: &G::World,
    game: &mut G,
) -> Result<Vec<Text>, AllocError>
    requires ready { G.ready world.now game.old }
    ensures rest { IfOk result (λ lines. (out : List (List ℕ)) × (lines.items ≡ map full_line out) × ((numbered : Bool) → PlaysRest (G.rounds world.now) IsText numbered (G.state game.old) out (G.state game.new))) }
    ensures ready { OnOk result (G.ready world.now game.new) }
    ensures orders { OnErr result ((G.state game.new).orders ≡ (G.state game.old).orders) }
    ensures keeps { G.keeps game.old game.new }
{
    if !game.has_lines() {
        return Ok(Vec::new(alloc));
    }
    game.run_round(alloc, world, &[])
}

// `refused line K`
fn refusal(alloc: Global, number: u64) -> Result<Vec<Text>, AllocError>
    ensures { IfOk result (λ lines. lines.items ≡ map full_line (refused_line number ∷ [])) }
{
    let line = format!(in alloc; "refused line {number}\n")?;
    let mut lines = Vec::new(alloc);
    lines.push(Text::of(line))?;
    Ok(lines)
}

// The commands, with what is handed in.

ghost use Rattle.std.specs.Prelude.{IfOk};
ghost use Rattle.pts_prove.specs.Refining.{command_of, refinement_of};
ghost use Rattle.pts_prove.specs.Works.{Came, FitsAt, Grown, IsAsked, sequent_at};

use crate::fault::ProveFault;
use crate::work::{Place, Work};
use pts_goals::Step;
use pts_names::Name;
use pts_terms::Term;

/// A command.
#[derive(Clone, Copy)]
pub(crate) enum Command<'a> {
    Intro(&'a Name),
    Exact(&'a Term),
    Apply(&'a Term),
    Cut(&'a Name, &'a Term),
    Unfold(&'a Name),
    Convert(&'a Term),
}

impl Work<'_> {
    // The step that a command puts into the goal.
    #[tactic(auto)]
    pub(crate) fn step(&mut self, goal: Place, command: Command<'_>) -> Result<Step, ProveFault>
        requires goal { IsAsked self.old goal }
        ensures came { Came self.old self.new (refinement_of self.new.proof.now) result (command_of self.old.system.now self.old.front.now.entries command.entry (sequent_at self.old goal)) }
        ensures fits { IfOk result (FitsAt self.new goal) }
        ensures grown { Grown self.old self.new }
    {
        match command {
            Command::Intro(name) => self.intro(goal, name),
            Command::Exact(term) => self.exact(goal, term),
            Command::Apply(term) => self.apply(goal, term),
            Command::Cut(name, ty) => self.cut(goal, name, ty),
            Command::Unfold(name) => self.unfold(goal, name),
            Command::Convert(term) => self.convert(goal, term),
        }
    }
}

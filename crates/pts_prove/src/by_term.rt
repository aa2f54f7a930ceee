// A term for the goal.

ghost use Rattle.std.specs.Prelude.{IfOk};
ghost use Rattle.pts_terms.specs.Seen.{named};
ghost use Rattle.pts_prove_cost.specs.Commands.{exacts};
ghost use Rattle.pts_prove.specs.Refining.{refinement_of};
ghost use Rattle.pts_prove.specs.Works.{Came, FitsAt, Grown, IsAsked, sequent_at};

use crate::fault::ProveFault;
use crate::work::{Place, Work};
use pts_goals::Step;
use pts_infer::Part;
use pts_terms::Term;

impl Work<'_> {
    // The term is inferred, and fitted to the goal.
    #[tactic(auto, using(crate::proofs::Working::going_on))]
    pub(crate) fn exact(&mut self, goal: Place, term: &Term) -> Result<Step, ProveFault>
        requires goal { IsAsked self.old goal }
        ensures came { Came self.old self.new (refinement_of self.new.proof.now) result (exacts self.old.system.now self.old.front.now.entries (sequent_at self.old goal) (named term.now)) }
        ensures fits { IfOk result (FitsAt self.new goal) }
        ensures grown { Grown self.old self.new }
    {
        let term = self.take(term)?;
        let judged = self.infer(goal.ctx, term, Part::Whole)?;
        let node = self.fit(goal.ctx, judged, goal.statement, Part::Whole)?;
        Ok(Step::Exact { node })
    }
}

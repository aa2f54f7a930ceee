// A function for the goal, applied to arguments.

ghost use Rattle.std.specs.Prelude.{◌≡◌, IfOk, length};
ghost use Rattle.pts_terms.specs.Seen.{named};
ghost use Rattle.pts_prove_cost.specs.Commands.{applies};
ghost use Rattle.pts_prove.specs.Refining.{refinement_of};
ghost use Rattle.pts_prove.specs.Works.{Came, FitsAt, Grown, HasTerm, IsAsked, sequent_at};
ghost use Rattle.pts_prove.specs.Applications.{AreFound, IsChain, applying_whole, arguments_in};

use crate::fault::ProveFault;
use crate::work::{Pattern, Place, Work};
use pts_goals::{Link, List, Step};
use pts_infer::Part;
use pts_match::Subterm;
use pts_terms::Term;

impl Work<'_> {
    // All arguments, for which these are the parts that were found, the last one's first.
    #[tactic(auto, using(crate::proofs::Applied::applying))]
    fn apply_found(
        &mut self,
        goal: Place,
        ty: usize,
        parts: Vec<Option<Subterm>>,
    ) -> Result<Vec<Link>, ProveFault>
        requires goal { IsAsked self.old goal }
        requires ty { HasTerm self.old ty }
        requires parts { AreFound self.old (length parts.items) parts.items }
        ensures came { Came self.old self.new (λ ls. arguments_in self.new ls.items) result (applying_whole self.old goal ty parts.items) }
        ensures count { IfOk result (λ ls. length ls.items ≡ length parts.items) }
        ensures chain { IfOk result (λ ls. IsChain self.new goal.ctx ty goal.statement ls.items) }
        ensures grown { Grown self.old self.new }
    {
        let mut parts = parts;
        parts.reverse();
        let none = Vec::new(self.proof.alloc());
        self.apply_all(goal, ty, &parts, 0, ty, none)
    }

    // The type of the term is searched for a match with the goal, under its products; then the arguments are taken in
    // order.
    #[tactic(auto, using(crate::proofs::Applied::applying))]
    pub(crate) fn apply(&mut self, goal: Place, term: &Term) -> Result<Step, ProveFault>
        requires goal { IsAsked self.old goal }
        ensures came { Came self.old self.new (refinement_of self.new.proof.now) result (applies self.old.system.now self.old.front.now.entries (sequent_at self.old goal) (named term.now)) }
        ensures fits { IfOk result (FitsAt self.new goal) }
        ensures grown { Grown self.old self.new }
    {
        let term = self.take(term)?;
        let function = self.infer(goal.ctx, term, Part::Whole)?;
        let pattern = Pattern {
            ctx: goal.ctx,
            ty: function.claim,
            taken: 0,
        };
        let parts = self.search(pattern, goal.statement)?;
        let links = self.apply_found(goal, function.claim, parts)?;
        Ok(Step::Apply {
            function,
            links: List::of(links),
        })
    }
}

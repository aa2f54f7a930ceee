// A variable for a goal that is a product.

ghost use Rattle.std.specs.Prelude.{IfOk};
ghost use Rattle.pts_prove_cost.specs.Commands.{intros};
ghost use Rattle.pts_prove.specs.Refining.{refinement_of};
ghost use Rattle.pts_prove.specs.Works.{Came, FitsAt, Grown, IsAsked, sequent_at};

use crate::fault::ProveFault;
use crate::scope::check_fresh;
use crate::work::{Place, Work};
use pts_goals::Step;
use pts_names::Name;

impl Work<'_> {
    // The goal is a product, perhaps by its form, and has a sort.
    #[tactic(auto, using(crate::proofs::Working::going_on))]
    pub(crate) fn intro(&mut self, goal: Place, name: &Name) -> Result<Step, ProveFault>
        requires goal { IsAsked self.old goal }
        ensures came { Came self.old self.new (refinement_of self.new.proof.now) result (intros self.old.system.now self.old.front.now.entries (sequent_at self.old goal) name.now) }
        ensures fits { IfOk result (FitsAt self.new goal) }
        ensures grown { Grown self.old self.new }
    {
        check_fresh(self.front, self.names, name)?;
        let opening = self.open(goal)?;
        let parts = self.sort_product(goal, opening)?;
        Ok(Step::Intro {
            name: name.copy()?,
            product: parts.product,
            domain: parts.domain,
            inner: parts.inner,
            sorted: parts.body,
            change: opening.change,
        })
    }
}

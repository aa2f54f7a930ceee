// Terms that are handed in.

ghost use Rattle.std.specs.Prelude.{IfOk};
ghost use Rattle.pts_terms.specs.Seen.{named};
ghost use Rattle.pts_prove_cost.specs.Commands.{limited};
ghost use Rattle.pts_prove.specs.Works.{Came, Grown, IsNumberOf, term_in};

use crate::fault::{ProveFault, of_making};
use crate::work::Work;
use pts_grow::take_in;
use pts_terms::Term;

impl Work<'_> {
    // The number of a term that is handed in.
    #[tactic(auto, using(crate::proofs::Working::adds))]
    pub(crate) fn take(&mut self, term: &Term) -> Result<usize, ProveFault>
        ensures came { Came self.old self.new (term_in self.new) result (limited (named term.now)) }
        ensures term { IfOk result (λ t. IsNumberOf self.new t (named term.now)) }
        ensures grown { Grown self.old self.new }
    {
        match take_in(self.proof, term) {
            Ok(term) => Ok(term),
            Err(fault) => Err(of_making(fault)),
        }
    }
}

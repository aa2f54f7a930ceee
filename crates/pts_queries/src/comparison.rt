// `equal TERM ; TERM`

ghost use Rattle.std.specs.Prelude.{◌≡◌, IfOk, IfErr, OnOk};
ghost use Rattle.pts_ctx.specs.System.{Specification};
ghost use Rattle.pts_terms.specs.Seen.{named};
ghost use Rattle.pts_grammar.specs.Seen.{syntax_of};
ghost use Rattle.pts_rules.specs.Meter.{left as units};
ghost use Rattle.pts_reduce_cost.specs.Costs.{Globals, TestAnswer, beyond};
ghost use Rattle.pts_reduce_cost.specs.Laws.{WithinBudget};
ghost use Rattle.pts_reduce.specs.Answered.{Refused};
ghost use Rattle.pts_infer.specs.Given.{IsTooLarge, EitherLarge};
ghost use Rattle.pts_queries.specs.Replies.{difference_line};
ghost use Rattle.pts_queries.specs.Queries.{AnswersEqual, AnswersEqualUnder, AnswersWork, TestsTerms, tested_line};
ghost use Rattle.pts_queries.specs.Hypotheses.{Grown, IsContext, entries_in};
ghost use Rattle.pts_queries.specs.Inner.{HasTerm, IsTested, term_in};

use crate::hypotheses::{Under, begin};
use crate::reading::{Resolved, term_over};
use crate::reduction::stopped_line;
use pts_ctx::{Context, System};
use pts_flaw_text::place_text;
use pts_grow::TermFault;
use pts_names::Text;
use pts_parser::Tree;
use pts_reduce::{Conversion, ReduceFault, convert};
use pts_rules::Meter;
use pts_terms::Term;
use std::alloc::{AllocError, Global};

/// The reply to `equal TERM ; TERM` over a front, on a budget of units: `yes` where the terms are convertible, else `no` and
/// the place where their forms differ. Nothing is inferred. The only error is that memory runs out.
///
/// The first unknown name or sort is refused, from the left, then that a term or the nesting of tests is `Deep`, at the
/// cost of the conversion test; and `Spent` exactly where no outcome costs at most the budget.
pub fn equal(
    alloc: Global,
    system: &System,
    front: &Context,
    budget: u64,
    left: &Tree,
    right: &Tree,
) -> Result<Text, AllocError>
    ensures { IfOk result (λ line. AnswersEqual system.now front.now.entries budget (syntax_of left.now) (syntax_of right.now) line) }
{
    let mut begun = begin(alloc)?;
    let mut under = Under {
        proof: &mut begun.proof,
        ctx: begun.ctx,
        names: &[],
    };
    under.equal(alloc, system, front, budget, left, right)
}

// `no PATH`
fn difference_line(alloc: Global, place: &[u8]) -> Result<Text, AllocError>
    ensures { IfOk result (λ line. line ≡ difference_line place.now) }
{
    let place = place_text(alloc, place)?;
    Ok(Text::of(format!(in alloc; "no {place}")?))
}

impl Under<'_> {
    /// The reply to `equal TERM ; TERM` under the hypotheses, as `equal` gives it without any. A plain name is that of the
    /// innermost hypothesis that has it, if one has.
    #[tactic(auto, using(crate::proofs::Growing::growing))]
    pub fn equal(
        &mut self,
        alloc: Global,
        system: &System,
        front: &Context,
        budget: u64,
        left: &Tree,
        right: &Tree,
    ) -> Result<Text, AllocError>
        requires context { IsContext self.old }
        ensures answers { IfOk result (λ line. AnswersEqualUnder system.now front.now.entries self.old.names.now (entries_in self.old) budget (syntax_of left.now) (syntax_of right.now) line) }
        ensures grown { Grown system.now front.now.entries self.old self.new }
    {
        let left = match term_over(alloc, system, front, self.names, left)? {
            Resolved::Term(term) => term,
            Resolved::Refused(line) => return Ok(line),
        };
        match term_over(alloc, system, front, self.names, right)? {
            Resolved::Term(right) => self.compared(alloc, system, front, budget, &left, &right),
            Resolved::Refused(line) => Ok(line),
        }
    }

    // The reply on two terms.
    fn compared(
        &mut self,
        alloc: Global,
        system: &System,
        front: &Context,
        budget: u64,
        left: &Term,
        right: &Term,
    ) -> Result<Text, AllocError>
        requires context { IsContext self.old }
        ensures answers { IfOk result (λ line. AnswersWork (TestsTerms front.now.entries (entries_in self.old) (named left.now) (named right.now)) budget tested_line line) }
        ensures grown { Grown system.now front.now.entries self.old self.new }
    {
        let mut meter = Meter::new(budget);
        match self.tested(alloc, system, front, left, right, &mut meter) {
            Ok(line) => Ok(line),
            Err(fault) => stopped_line(alloc, &fault),
        }
    }

    // The line of the test of two terms.
    #[tactic(auto, using(crate::proofs::Growing::growing, crate::proofs::Reaching::test_large))]
    fn tested(
        &mut self,
        alloc: Global,
        system: &System,
        front: &Context,
        left: &Term,
        right: &Term,
        meter: &mut Meter,
    ) -> Result<Text, ReduceFault>
        requires context { IsContext self.old }
        ensures tested { IfOk result (λ line. IsTested (TestsTerms front.now.entries (entries_in self.old) (named left.now) (named right.now)) (units meter.old) (units meter.new) line) }
        ensures refused { IfErr result (λ e. Refused (TestsTerms front.now.entries (entries_in self.old) (named left.now) (named right.now)) beyond e (units meter.old) (units meter.new)) }
        ensures grown { Grown system.now front.now.entries self.old self.new }
    {
        match self.enter_both(left, right) {
            Ok((left, right)) => self.tested_at(alloc, front, left, right, meter),
            Err(TermFault::TooLarge) => Err(ReduceFault::Deep),
            Err(TermFault::Memory) => Err(ReduceFault::Memory),
        }
    }

    // The numbers of two terms that are handed in.
    #[tactic(auto, using(crate::proofs::Growing::growing))]
    fn enter_both(&mut self, left: &Term, right: &Term) -> Result<(usize, usize), TermFault>
        ensures left { IfOk result (λ p. HasTerm self.new p.0 × (term_in self.new p.0 ≡ named left.now)) }
        ensures right { IfOk result (λ p. HasTerm self.new p.1 × (term_in self.new p.1 ≡ named right.now)) }
        ensures refused { IfErr result (λ e. IsTooLarge e → EitherLarge (named left.now) (named right.now)) }
        ensures grown { (S : Specification) (G : Globals) → Grown S G self.old self.new }
    {
        let left = self.enter(left)?;
        let right = self.enter(right)?;
        Ok((left, right))
    }

    // The same by the numbers of the terms.
    #[tactic(auto, using(pts_grow::proofs::Grow::keeping, crate::proofs::Reaching::test_refused))]
    fn tested_at(
        &mut self,
        alloc: Global,
        front: &Context,
        left: usize,
        right: usize,
        meter: &mut Meter,
    ) -> Result<Text, ReduceFault>
        requires context { IsContext self.old }
        requires left { HasTerm self.old left }
        requires right { HasTerm self.old right }
        ensures tested { IfOk result (λ line. IsTested (TestsTerms front.now.entries (entries_in self.old) (term_in self.old left) (term_in self.old right)) (units meter.old) (units meter.new) line) }
        ensures refused { IfErr result (λ e. Refused (TestsTerms front.now.entries (entries_in self.old) (term_in self.old left) (term_in self.old right)) beyond e (units meter.old) (units meter.new)) }
        ensures grown { (S : Specification) → Grown S front.now.entries self.old self.new }
    {
        match convert(front, self.proof, self.ctx, left, right, meter)? {
            Conversion::Yes(_) => Ok(Text::of(String::from_str(alloc, "yes")?)),
            Conversion::No { place, .. } => Ok(difference_line(alloc, place.items())?),
        }
    }
}

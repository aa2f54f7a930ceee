// `infer TERM`

ghost use Rattle.std.specs.Prelude.{◌≡◌, ◌≢◌, IfErr, IfOk, OnOk};
ghost use Rattle.pts_terms.specs.Seen.{named};
ghost use Rattle.pts_grammar.specs.Seen.{syntax_of};
ghost use Rattle.pts_rules.specs.Meter.{left};
ghost use Rattle.pts_reduce_cost.specs.Laws.{WithinBudget};
ghost use Rattle.pts_infer_cost.specs.Typing.{comes};
ghost use Rattle.pts_infer.specs.Answered.{Refused};
ghost use Rattle.pts_infer.specs.declared.answer.InferFault.{InferFault};
ghost use Rattle.pts_infer.specs.declared.part.Part.TheVariants.{Whole};
ghost use Rattle.pts_flaw_text.specs.InferText.{infer_text};
ghost use Rattle.pts_queries.specs.Replies.{refusal};
ghost use Rattle.pts_queries.specs.Queries.{AnswersInfer, AnswersInferUnder, AnswersWork, InfersTerm, inferred_line};
ghost use Rattle.pts_queries.specs.Hypotheses.{Grown, IsContext, entries_in};
ghost use Rattle.pts_queries.specs.Inner.{HasTerm, term_in};

use crate::hypotheses::{Under, begin};
use crate::reading::{Resolved, term_over};
use crate::replies::judgement_line;
use pts_ctx::{Context, System};
use pts_flaw_text::infer_text;
use pts_grow::{TermFault, judged_at};
use pts_infer::{InferFault, Part, infer as infer_number};
use pts_names::Text;
use pts_parser::Tree;
use pts_rules::Meter;
use pts_terms::Term;
use std::alloc::{AllocError, Global};

/// The reply to `infer TERM` over a front, on a budget of units: the term with its type. The only error is that memory runs
/// out.
///
/// The first unknown name or sort is refused, from the left, then the flaw of the term, and that something is `Deep`,
/// at the cost of inference; and `Spent` exactly where no outcome costs at most the budget.
pub fn infer(
    alloc: Global,
    system: &System,
    front: &Context,
    budget: u64,
    tree: &Tree,
) -> Result<Text, AllocError>
    ensures { IfOk result (λ line. AnswersInfer system.now front.now.entries budget (syntax_of tree.now) line) }
{
    let mut begun = begin(alloc)?;
    let mut under = Under {
        proof: &mut begun.proof,
        ctx: begun.ctx,
        names: &[],
    };
    under.infer(alloc, system, front, budget, tree)
}

// The line that refuses a term that is inferred.
fn untyped_line(alloc: Global, system: &System, fault: &InferFault) -> Result<Text, AllocError>
    ensures line { IfOk result (λ line. line ≡ refusal (infer_text system.now.sorts Whole fault.now)) }
    ensures refusal { OnOk result (fault.now ≢ InferFault.Memory) }
{
    let text = infer_text(alloc, system, Part::Whole, fault)?;
    Ok(Text::of(format!(in alloc; "refused {text}")?))
}

impl Under<'_> {
    /// The reply to `infer TERM` under the hypotheses, as `infer` gives it without any. A plain name is that of the
    /// innermost hypothesis that has it, if one has, and terms are printed over the hypotheses.
    #[tactic(auto, using(crate::proofs::Growing::growing))]
    pub fn infer(
        &mut self,
        alloc: Global,
        system: &System,
        front: &Context,
        budget: u64,
        tree: &Tree,
    ) -> Result<Text, AllocError>
        requires context { IsContext self.old }
        ensures answers { IfOk result (λ line. AnswersInferUnder system.now front.now.entries self.old.names.now (entries_in self.old) budget (syntax_of tree.now) line) }
        ensures grown { Grown system.now front.now.entries self.old self.new }
    {
        match term_over(alloc, system, front, self.names, tree)? {
            Resolved::Term(term) => self.inferred(alloc, system, front, budget, &term),
            Resolved::Refused(line) => Ok(line),
        }
    }

    // The reply on a term.
    fn inferred(
        &mut self,
        alloc: Global,
        system: &System,
        front: &Context,
        budget: u64,
        term: &Term,
    ) -> Result<Text, AllocError>
        requires context { IsContext self.old }
        ensures answers { IfOk result (λ line. AnswersWork (InfersTerm system.now front.now.entries (entries_in self.old) (named term.now)) budget (inferred_line system.now.sorts self.old.names.now (named term.now)) line) }
        ensures grown { Grown system.now front.now.entries self.old self.new }
    {
        let mut meter = Meter::new(budget);
        match self.type_of(system, front, term, &mut meter) {
            Ok(ty) => judgement_line(alloc, system, self.names, term, &ty),
            Err(fault) => untyped_line(alloc, system, &fault),
        }
    }

    // The type of a term.
    #[tactic(auto, using(crate::proofs::Growing::growing, crate::proofs::Reaching::infer_large))]
    fn type_of(
        &mut self,
        system: &System,
        front: &Context,
        term: &Term,
        meter: &mut Meter,
    ) -> Result<Term, InferFault>
        requires context { IsContext self.old }
        ensures typed { IfOk result (λ A. WithinBudget (InfersTerm system.now front.now.entries (entries_in self.old) (named term.now)) (left meter.old) (comes (named A)) (left meter.new)) }
        ensures refused { IfErr result (λ e. Refused self.old.names.now (InfersTerm system.now front.now.entries (entries_in self.old) (named term.now)) e (left meter.old) (left meter.new)) }
        ensures grown { Grown system.now front.now.entries self.old self.new }
    {
        match self.enter(term) {
            Ok(term) => self.type_at(system, front, term, meter),
            Err(TermFault::TooLarge) => Err(InferFault::Deep),
            Err(TermFault::Memory) => Err(InferFault::Memory),
        }
    }

    // The same by the number of the term.
    #[tactic(auto, using(pts_grow::proofs::Grow::keeping, crate::proofs::Reaching::untyped_within))]
    fn type_at(
        &mut self,
        system: &System,
        front: &Context,
        term: usize,
        meter: &mut Meter,
    ) -> Result<Term, InferFault>
        requires context { IsContext self.old }
        requires term { HasTerm self.old term }
        ensures typed { IfOk result (λ A. WithinBudget (InfersTerm system.now front.now.entries (entries_in self.old) (term_in self.old term)) (left meter.old) (comes (named A)) (left meter.new)) }
        ensures refused { IfErr result (λ e. Refused self.old.names.now (InfersTerm system.now front.now.entries (entries_in self.old) (term_in self.old term)) e (left meter.old) (left meter.new)) }
        ensures grown { Grown system.now front.now.entries self.old self.new }
    {
        let node = infer_number(system, front, self.proof, self.ctx, self.names, term, meter)?;
        let (_, judged) = judged_at(self.proof, node);
        Ok(self.proof.tree(judged.claim)?)
    }
}

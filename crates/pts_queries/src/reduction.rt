// `reduce TERM`

ghost use Rattle.std.specs.Prelude.{◌≡◌, ◌≢◌, IfOk, IfErr, OnOk};
ghost use Rattle.pts_ctx.specs.System.{Specification};
ghost use Rattle.pts_terms.specs.Seen.{named};
ghost use Rattle.pts_grammar.specs.Seen.{syntax_of};
ghost use Rattle.pts_rules.specs.Meter.{left};
ghost use Rattle.pts_reduce_cost.specs.Costs.{form, too_large};
ghost use Rattle.pts_reduce_cost.specs.Laws.{WithinBudget};
ghost use Rattle.pts_reduce.specs.Answered.{Refused};
ghost use Rattle.pts_reduce.specs.declared.fault.ReduceFault.{ReduceFault};
ghost use Rattle.pts_queries.specs.Replies.{refusal};
ghost use Rattle.pts_queries.specs.Queries.{AnswersReduce, AnswersReduceUnder, AnswersWork, ReducesTerm, reduced_line};
ghost use Rattle.pts_queries.specs.Hypotheses.{Grown, IsContext, entries_in};
ghost use Rattle.pts_queries.specs.Inner.{HasTerm, reduce_text, term_in};

use crate::hypotheses::{Under, begin};
use crate::reading::{Resolved, term_over};
use pts_ctx::{Context, System};
use pts_grow::TermFault;
use pts_names::Text;
use pts_parser::Tree;
use pts_printer::print_term;
use pts_reduce::{ReduceFault, whnf};
use pts_rules::Meter;
use pts_terms::Term;
use std::alloc::{AllocError, Global};

/// The reply to `reduce TERM` over a front, on a budget of units: the weak head normal form. Nothing is inferred. The only
/// error is that memory runs out.
///
/// The first unknown name or sort is refused, from the left, then that a term is `Deep`, at the cost of reduction; and
/// `Spent` exactly where no outcome costs at most the budget.
pub fn reduce(
    alloc: Global,
    system: &System,
    front: &Context,
    budget: u64,
    tree: &Tree,
) -> Result<Text, AllocError>
    ensures { IfOk result (λ line. AnswersReduce system.now front.now.entries budget (syntax_of tree.now) line) }
{
    let mut begun = begin(alloc)?;
    let mut under = Under {
        proof: &mut begun.proof,
        ctx: begun.ctx,
        names: &[],
    };
    under.reduce(alloc, system, front, budget, tree)
}

/// The line that refuses what is reduced or tested.
pub(crate) fn stopped_line(alloc: Global, fault: &ReduceFault) -> Result<Text, AllocError>
    ensures line { IfOk result (λ line. line ≡ refusal (reduce_text fault.now)) }
    ensures refusal { OnOk result (fault.now ≢ ReduceFault.Memory) }
{
    let name = match fault {
        ReduceFault::Spent => "Spent",
        ReduceFault::Deep => "Deep",
        ReduceFault::Memory => return Err(AllocError),
    };
    Ok(Text::of(format!(in alloc; "refused {name}")?))
}

impl Under<'_> {
    /// The reply to `reduce TERM` under the hypotheses, as `reduce` gives it without any. A plain name is that of the
    /// innermost hypothesis that has it, if one has, and the form is printed over the hypotheses.
    #[tactic(auto, using(crate::proofs::Growing::growing))]
    pub fn reduce(
        &mut self,
        alloc: Global,
        system: &System,
        front: &Context,
        budget: u64,
        tree: &Tree,
    ) -> Result<Text, AllocError>
        requires context { IsContext self.old }
        ensures answers { IfOk result (λ line. AnswersReduceUnder system.now front.now.entries self.old.names.now (entries_in self.old) budget (syntax_of tree.now) line) }
        ensures grown { Grown system.now front.now.entries self.old self.new }
    {
        match term_over(alloc, system, front, self.names, tree)? {
            Resolved::Term(term) => self.reduced(alloc, system, front, budget, &term),
            Resolved::Refused(line) => Ok(line),
        }
    }

    // The reply on a term.
    fn reduced(
        &mut self,
        alloc: Global,
        system: &System,
        front: &Context,
        budget: u64,
        term: &Term,
    ) -> Result<Text, AllocError>
        requires context { IsContext self.old }
        ensures answers { IfOk result (λ line. AnswersWork (ReducesTerm front.now.entries (entries_in self.old) (named term.now)) budget (reduced_line system.now.sorts self.old.names.now) line) }
        ensures grown { Grown system.now front.now.entries self.old self.new }
    {
        let mut meter = Meter::new(budget);
        match self.form_of(system, front, term, &mut meter) {
            Ok(form) => Ok(Text::of(print_term(alloc, system, self.names, &form)?)),
            Err(fault) => stopped_line(alloc, &fault),
        }
    }

    // The weak head normal form of a term.
    #[tactic(auto, using(crate::proofs::Growing::growing, crate::proofs::Reaching::form_large))]
    fn form_of(
        &mut self,
        system: &System,
        front: &Context,
        term: &Term,
        meter: &mut Meter,
    ) -> Result<Term, ReduceFault>
        requires context { IsContext self.old }
        ensures form { IfOk result (λ v. WithinBudget (ReducesTerm front.now.entries (entries_in self.old) (named term.now)) (left meter.old) (form (named v)) (left meter.new)) }
        ensures refused { IfErr result (λ e. Refused (ReducesTerm front.now.entries (entries_in self.old) (named term.now)) too_large e (left meter.old) (left meter.new)) }
        ensures grown { Grown system.now front.now.entries self.old self.new }
    {
        match self.enter(term) {
            Ok(term) => self.form_at(front, term, meter),
            Err(TermFault::TooLarge) => Err(ReduceFault::Deep),
            Err(TermFault::Memory) => Err(ReduceFault::Memory),
        }
    }

    // The same by the number of the term.
    #[tactic(auto, using(pts_grow::proofs::Grow::keeping, crate::proofs::Reaching::form_refused))]
    fn form_at(
        &mut self,
        front: &Context,
        term: usize,
        meter: &mut Meter,
    ) -> Result<Term, ReduceFault>
        requires context { IsContext self.old }
        requires term { HasTerm self.old term }
        ensures form { IfOk result (λ v. WithinBudget (ReducesTerm front.now.entries (entries_in self.old) (term_in self.old term)) (left meter.old) (form (named v)) (left meter.new)) }
        ensures refused { IfErr result (λ e. Refused (ReducesTerm front.now.entries (entries_in self.old) (term_in self.old term)) too_large e (left meter.old) (left meter.new)) }
        ensures grown { (S : Specification) → Grown S front.now.entries self.old self.new }
    {
        let whnf = whnf(front, self.proof, self.ctx, term, meter)?;
        Ok(self.proof.tree(whnf.term)?)
    }
}

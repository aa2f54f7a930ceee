// Another statement for the goal.

ghost use Rattle.std.specs.Prelude.{◌≡◌, ◌<◌, IfOk, length};
ghost use Rattle.pts_terms.specs.Seen.{named};
ghost use Rattle.pts_record.specs.Table.{named_at};
ghost use Rattle.pts_infer_cost.specs.Typing.{here, not_convertible};
ghost use Rattle.pts_infer.specs.Answered.{behind, flaw_seen, kind_seen};
ghost use Rattle.pts_prove_cost.specs.Refinement.{by_statement};
ghost use Rattle.pts_prove_cost.specs.Commands.{changes, converts, flawed, of_goal};
ghost use Rattle.pts_prove.specs.Answered.{Tells, part_seen};
ghost use Rattle.pts_prove.specs.Refining.{refinement_of};
ghost use Rattle.pts_prove.specs.Works.{Came, FitsAt, Grown, HasTerm, IsAsked, IsCompared, agreeing, sequent_at, term_in};

use crate::copies::copy_names;
use crate::fault::{ProveFault, of_reduction};
use crate::work::{Place, Work};
use pts_goals::Step;
use pts_grow::Compared;
use pts_infer::{Conversion, Flaw, FlawKind, Part, convert};
use pts_names::{List, Name};
use pts_record::Record;
use pts_terms::Term;
use std::alloc::AllocError;

// What is wrong with two statements that are not convertible: the forms that differ have this place in both.
fn unlike_kind(
    proof: &Record,
    place: List<u8>,
    new: usize,
    goal: usize,
) -> Result<FlawKind, AllocError>
    requires new { new < length proof.now.shapes }
    requires goal { goal < length proof.now.shapes }
    ensures { IfOk result (λ k. kind_seen k ≡ not_convertible place (named_at proof.now.shapes new) (named_at proof.now.shapes goal)) }
{
    let have = proof.tree(new)?;
    let want = proof.tree(goal)?;
    Ok(FlawKind::NotConvertible { place, have, want })
}

// The same as a flaw of the goal.
#[tactic(auto, using(crate::proofs::OtherStatement::flaw_is))]
fn unlike(
    proof: &Record,
    names: &[Name],
    place: List<u8>,
    new: usize,
    goal: usize,
) -> Result<Flaw, AllocError>
    requires new { new < length proof.now.shapes }
    requires goal { goal < length proof.now.shapes }
    ensures { IfOk result (λ f. flaw_seen f ≡ behind names.now (here (not_convertible place (named_at proof.now.shapes new) (named_at proof.now.shapes goal)))) }
{
    let names = List::of(copy_names(proof.alloc(), names)?);
    let kind = unlike_kind(proof, place, new, goal)?;
    Ok(Flaw {
        place: List::of(Vec::new(proof.alloc())),
        names,
        kind,
    })
}

// The same as a refusal.
fn refuse_unlike(
    proof: &Record,
    names: &[Name],
    place: List<u8>,
    new: usize,
    goal: usize,
) -> ProveFault
    requires new { new < length proof.now.shapes }
    requires goal { goal < length proof.now.shapes }
    ensures { Tells names.now (flawed of_goal (here (not_convertible place (named_at proof.now.shapes new) (named_at proof.now.shapes goal)))) result }
{
    match unlike(proof, names, place, new, goal) {
        Ok(flaw) => ProveFault::Flaw(Part::Goal, flaw),
        Err(_) => ProveFault::Memory,
    }
}

impl Work<'_> {
    // The test of a new statement against the goal.
    #[tactic(auto, using(pts_grow::proofs::Grow::keeping, pts_grow::proofs::Judgements::still, pts_reduce::proofs::Paid::later))]
    fn agree(&mut self, goal: Place, new: usize) -> Result<Compared, ProveFault>
        requires goal { IsAsked self.old goal }
        requires new { HasTerm self.old new }
        ensures came { Came self.old self.new (λ o. by_statement (term_in self.new o.left)) result (agreeing self.old goal new) }
        ensures compared { IfOk result (IsCompared self.new goal.ctx new goal.statement) }
        ensures grown { Grown self.old self.new }
    {
        match convert(
            self.front,
            self.proof,
            goal.ctx,
            new,
            goal.statement,
            self.meter,
        ) {
            Ok(Conversion::Yes(node)) => Ok(Compared {
                left: new,
                right: goal.statement,
                node,
            }),
            Ok(Conversion::No { place, .. }) => {
                Err(refuse_unlike(self.proof, self.names, place, new, goal.statement))
            }
            Err(fault) => Err(of_reduction(fault)),
        }
    }

    // The new statement has a sort, and is convertible with the goal.
    #[tactic(auto, using(crate::proofs::Working::going_on))]
    pub(crate) fn change(&mut self, goal: Place, new: usize, part: Part) -> Result<Step, ProveFault>
        requires goal { IsAsked self.old goal }
        requires new { HasTerm self.old new }
        ensures came { Came self.old self.new (refinement_of self.new.proof.now) result (changes self.old.system.now self.old.front.now.entries (sequent_at self.old goal) (part_seen part) (term_in self.old new)) }
        ensures fits { IfOk result (FitsAt self.new goal) }
        ensures grown { Grown self.old self.new }
    {
        let sorted = self.sorted(goal.ctx, new, part)?;
        let comparison = self.agree(goal, new)?;
        Ok(Step::Change {
            statement: new,
            sorted: sorted.judged,
            comparison,
        })
    }

    // The new statement is handed in.
    #[tactic(auto, using(crate::proofs::Working::going_on))]
    pub(crate) fn convert(&mut self, goal: Place, term: &Term) -> Result<Step, ProveFault>
        requires goal { IsAsked self.old goal }
        ensures came { Came self.old self.new (refinement_of self.new.proof.now) result (converts self.old.system.now self.old.front.now.entries (sequent_at self.old goal) (named term.now)) }
        ensures fits { IfOk result (FitsAt self.new goal) }
        ensures grown { Grown self.old self.new }
    {
        let new = self.take(term)?;
        self.change(goal, new, Part::Ty)
    }
}

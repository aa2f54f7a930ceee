// The body of a constant for its occurrences in a goal.

ghost use Rattle.std.specs.Prelude.{◌≡◌, IfOk, List as Sequence, Some, false, true};
ghost use Rattle.pts_names.specs.Name.{Name};
ghost use Rattle.pts_terms.specs.Limits.{within};
ghost use Rattle.pts_terms.specs.Seen.{named};
ghost use Rattle.pts_terms.specs.Tree.{subst_const};
ghost use Rattle.pts_ctx.specs.Front.{find};
ghost use Rattle.pts_ctx.specs.Entries.{global_of};
ghost use Rattle.pts_ctx.specs.Seen.{global_within};
ghost use Rattle.pts_grow.specs.Keeps.{IsTerm, Keeps, StaysValid};
ghost use Rattle.pts_prove_cost.specs.Commands.{limited, mentions, no_body, not_there, unfolds, unfolds_body, unfolds_entry};
ghost use Rattle.pts_prove.specs.Answered.{Tells};
ghost use Rattle.pts_prove.specs.Refining.{refinement_of};
ghost use Rattle.pts_prove.specs.Works.{Came, FitsAt, Grown, HasTerm, IsAsked, sequent_at, term_in, putting_body};

use crate::fault::{ProveFault, of_making};
use crate::replacing::{mentions, put_const};
use crate::scope::place_among;
use crate::work::{Place, Work};
use pts_ctx::Entry;
use pts_goals::Step;
use pts_grow::{TermFault, take_in};
use pts_infer::Part;
use pts_names::Name;
use pts_record::Record;
use pts_terms::Term;
use std::alloc::AllocError;

// The refusal of a name that has no body.
fn refuse_no_body(name: &Name) -> ProveFault
    ensures { (xs : Sequence Name) → Tells xs (no_body name.now) result }
{
    match name.copy() {
        Ok(name) => ProveFault::NoBody(name),
        Err(_) => ProveFault::Memory,
    }
}

// The refusal of a name that does not occur in the goal.
fn refuse_not_there(name: &Name) -> ProveFault
    ensures { (xs : Sequence Name) → Tells xs (not_there name.now) result }
{
    match name.copy() {
        Ok(name) => ProveFault::NotThere(name),
        Err(_) => ProveFault::Memory,
    }
}

// The body of an entry of the front, which is within limits.
fn take_body(proof: &mut Record, body: &Term) -> Result<usize, AllocError>
    requires within { within (named body.now) ≡ true }
    ensures term { IfOk result (λ n. IsTerm proof.new n (named body.now)) }
    ensures keeps { Keeps proof.old proof.new }
    ensures valid { StaysValid proof.old proof.new }
{
    match take_in(proof, body) {
        Ok(body) => Ok(body),
        Err(TermFault::Memory) => Err(AllocError),
        Err(TermFault::TooLarge) => unreachable!(),
    }
}

impl Work<'_> {
    // The goal with the body for the constant is within limits.
    #[tactic(auto, using(pts_grow::proofs::Grow::keeping, crate::proofs::Working::adds))]
    fn put_body(&mut self, goal: Place, name: &Name, body: &Term) -> Result<usize, ProveFault>
        requires goal { IsAsked self.old goal }
        requires within { within (named body.now) ≡ true }
        ensures came { Came self.old self.new (term_in self.new) result (limited (subst_const name.now (named body.now) (term_in self.old goal.statement))) }
        ensures term { IfOk result (HasTerm self.new) }
        ensures grown { Grown self.old self.new }
    {
        let body = take_body(self.proof, body)?;
        match put_const(self.proof, goal.statement, name, body) {
            Ok(new) => Ok(new),
            Err(fault) => Err(of_making(fault)),
        }
    }

    // The constant occurs in the goal.
    #[tactic(auto, using(crate::proofs::Working::going_on))]
    fn unfold_body(&mut self, goal: Place, name: &Name, body: &Term) -> Result<usize, ProveFault>
        requires goal { IsAsked self.old goal }
        requires within { within (named body.now) ≡ true }
        ensures came { Came self.old self.new (term_in self.new) result (unfolds_body self.old.system.now self.old.front.now.entries (sequent_at self.old goal) name.now (Some (named body.now)) (mentions name.now (term_in self.old goal.statement))) }
        ensures term { IfOk result (HasTerm self.new) }
        ensures grown { Grown self.old self.new }
    {
        if mentions(self.proof, goal.statement, name) {
            return self.put_body(goal, name, body);
        }
        Err(refuse_not_there(name))
    }

    // The entry is a definition.
    #[tactic(auto, using(crate::proofs::Working::going_on))]
    fn unfold_entry(&mut self, goal: Place, name: &Name, entry: &Entry) -> Result<usize, ProveFault>
        requires goal { IsAsked self.old goal }
        requires within { global_within (global_of entry.now) ≡ true }
        ensures came { Came self.old self.new (term_in self.new) result (unfolds_body self.old.system.now self.old.front.now.entries (sequent_at self.old goal) name.now (global_of entry.now).body (mentions name.now (term_in self.old goal.statement))) }
        ensures term { IfOk result (HasTerm self.new) }
        ensures grown { Grown self.old self.new }
    {
        match &entry.body {
            Some(body) => self.unfold_body(goal, name, body),
            None => Err(refuse_no_body(name)),
        }
    }

    // The front has the name.
    #[tactic(auto, using(crate::proofs::Working::going_on))]
    fn unfold_constant(&mut self, goal: Place, name: &Name) -> Result<usize, ProveFault>
        requires goal { IsAsked self.old goal }
        ensures came { Came self.old self.new (term_in self.new) result (unfolds_entry self.old.system.now self.old.front.now.entries (sequent_at self.old goal) name.now false (find name.now self.old.front.now.entries)) }
        ensures term { IfOk result (HasTerm self.new) }
        ensures grown { Grown self.old self.new }
    {
        let front = self.front;
        match front.lookup(name) {
            Some(entry) => self.unfold_entry(goal, name, entry),
            None => Err(refuse_not_there(name)),
        }
    }

    // The name is not that of a hypothesis.
    #[tactic(auto, using(crate::proofs::Working::going_on))]
    fn unfolded(&mut self, goal: Place, name: &Name) -> Result<usize, ProveFault>
        requires goal { IsAsked self.old goal }
        ensures came { Came self.old self.new (term_in self.new) result (putting_body self.old goal name.now) }
        ensures term { IfOk result (HasTerm self.new) }
        ensures grown { Grown self.old self.new }
    {
        match place_among(self.names, name) {
            Some(_) => Err(refuse_no_body(name)),
            None => self.unfold_constant(goal, name),
        }
    }

    // The new statement has the body of a constant for each of its occurrences.
    #[tactic(auto, using(crate::proofs::Working::going_on))]
    pub(crate) fn unfold(&mut self, goal: Place, name: &Name) -> Result<Step, ProveFault>
        requires goal { IsAsked self.old goal }
        ensures came { Came self.old self.new (refinement_of self.new.proof.now) result (unfolds self.old.system.now self.old.front.now.entries (sequent_at self.old goal) name.now) }
        ensures fits { IfOk result (FitsAt self.new goal) }
        ensures grown { Grown self.old self.new }
    {
        let new = self.unfolded(goal, name)?;
        self.change(goal, new, Part::Goal)
    }
}

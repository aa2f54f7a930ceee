// The inferences that a command asks for.

ghost use Rattle.std.specs.Prelude.{[], ◌++◌, ◌∷◌, ◌≡◌, ◌<◌, IfOk, Some, is_some, length, true};
ghost use Rattle.pts_record.specs.Table.{named_at};
ghost use Rattle.pts_record.specs.Said.{named_told, is_judgement, place_of, subject_of, claim_of};
ghost use Rattle.pts_infer_cost.specs.Typing.{as_sort};
ghost use Rattle.pts_grow.specs.Judges.{Judges};
ghost use Rattle.pts_prove.specs.Works.{Came, Grown, HasTerm, IsAsked, IsFitted, IsJudged, IsPlace, IsSorted, claim_in, fitting, inferring, sorting, sorting_under};

use crate::fault::{ProveFault, misfit_put_in, put_in};
use crate::work::{Place, Sorted, Work};
use pts_grow::{Judged, judged_at};
use pts_infer::{Part, fit, infer, infer_sorted};
use pts_names::Name;
use pts_record::{Record, Shape};
use pts_terms::Sort;

// The judgement that a node is, of a term by its number.
#[tactic(auto, using(crate::proofs::Stages::subject_named))]
fn judgement_of(proof: &Record, term: usize, node: usize) -> Judged
    requires node { node < length proof.now.nodes }
    requires judgement { is_judgement (named_told proof.now node) ≡ true }
    requires term { term < length proof.now.shapes }
    requires subject { subject_of (named_told proof.now node) ≡ named_at proof.now.shapes term }
    ensures subject { result.subject ≡ term }
    ensures claim { named_at proof.now.shapes result.claim ≡ claim_of (named_told proof.now node) }
    ensures judges { Judges proof.now (place_of (named_told proof.now node)) result }
{
    let (_, judged) = judged_at(proof, node);
    Judged {
        subject: term,
        claim: judged.claim,
        node,
    }
}

// The sort that a term is.
fn sort_at(proof: &Record, term: usize) -> Sort
    requires term { term < length proof.now.shapes }
    requires sort { is_some (as_sort (named_at proof.now.shapes term)) ≡ true }
    ensures { as_sort (named_at proof.now.shapes term) ≡ Some result.0 }
{
    match proof.shape(term) {
        Shape::Sort(sort) => *sort,
        _ => unreachable!(),
    }
}

impl Work<'_> {
    // A term with its type. Its flaws are in a part.
    #[tactic(auto, using(pts_grow::proofs::Grow::keeping, pts_grow::proofs::Judgements::still, pts_reduce::proofs::Paid::later))]
    pub(crate) fn infer(
        &mut self,
        ctx: usize,
        term: usize,
        part: Part,
    ) -> Result<Judged, ProveFault>
        requires place { IsPlace self.old ctx }
        requires term { HasTerm self.old term }
        ensures came { Came self.old self.new (claim_in self.new) result (inferring self.old ctx part term) }
        ensures judged { IfOk result (IsJudged self.new ctx term) }
        ensures grown { Grown self.old self.new }
    {
        match infer(
            self.system,
            self.front,
            self.proof,
            ctx,
            self.names,
            term,
            self.meter,
        ) {
            Ok(node) => Ok(judgement_of(self.proof, term, node)),
            Err(fault) => Err(put_in(part, fault)),
        }
    }

    // A term with a sort as its type. Its flaws are in a part.
    #[tactic(auto, using(pts_grow::proofs::Grow::keeping, pts_grow::proofs::Judgements::still, pts_reduce::proofs::Paid::later))]
    pub(crate) fn sorted(
        &mut self,
        ctx: usize,
        term: usize,
        part: Part,
    ) -> Result<Sorted, ProveFault>
        requires place { IsPlace self.old ctx }
        requires term { HasTerm self.old term }
        ensures came { Came self.old self.new (λ s. s.sort.0) result (sorting self.old ctx part term) }
        ensures sorted { IfOk result (IsSorted self.new ctx term) }
        ensures grown { Grown self.old self.new }
    {
        match infer_sorted(
            self.system,
            self.front,
            self.proof,
            ctx,
            self.names,
            term,
            self.meter,
        ) {
            Ok(node) => {
                let judged = judgement_of(self.proof, term, node);
                let sort = sort_at(self.proof, judged.claim);
                Ok(Sorted { judged, sort })
            }
            Err(fault) => Err(put_in(part, fault)),
        }
    }

    // A judgement, with the wanted type. Its flaws are in a part.
    #[tactic(auto, using(pts_grow::proofs::Grow::keeping, pts_grow::proofs::Judgements::still, pts_reduce::proofs::Paid::later))]
    pub(crate) fn fit(
        &mut self,
        ctx: usize,
        judged: Judged,
        want: usize,
        part: Part,
    ) -> Result<Judged, ProveFault>
        requires judged { IsJudged self.old ctx judged.subject judged }
        requires want { HasTerm self.old want }
        ensures came { Came self.old self.new (λ j. tt) result (fitting self.old ctx part judged.claim want) }
        ensures fitted { IfOk result (IsFitted self.new ctx judged.subject want) }
        ensures grown { Grown self.old self.new }
    {
        match fit(
            self.system,
            self.front,
            self.proof,
            self.names,
            judged.node,
            want,
            self.meter,
        ) {
            Ok(node) => Ok(Judged {
                subject: judged.subject,
                claim: want,
                node,
            }),
            Err(fault) => Err(misfit_put_in(part, fault)),
        }
    }

    // The same of a place under a hypothesis more, whose name is the last of the names. Its flaws are in the goal.
    #[tactic(auto, using(pts_grow::proofs::Grow::keeping, pts_grow::proofs::Judgements::still, pts_reduce::proofs::Paid::later))]
    pub(crate) fn sorted_named(
        &mut self,
        names: &[Name],
        name: &Name,
        under: Place,
    ) -> Result<Sorted, ProveFault>
        requires names { names.now ≡ self.old.names.now ++ name.now ∷ [] }
        requires under { IsAsked self.old under }
        ensures came { Came self.old self.new (λ s. s.sort.0) result (sorting_under self.old name.now under) }
        ensures sorted { IfOk result (IsSorted self.new under.ctx under.statement) }
        ensures grown { Grown self.old self.new }
    {
        match infer_sorted(
            self.system,
            self.front,
            self.proof,
            under.ctx,
            names,
            under.statement,
            self.meter,
        ) {
            Ok(node) => {
                let judged = judgement_of(self.proof, under.statement, node);
                let sort = sort_at(self.proof, judged.claim);
                Ok(Sorted { judged, sort })
            }
            Err(fault) => Err(put_in(Part::Goal, fault)),
        }
    }
}

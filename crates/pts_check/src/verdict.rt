// Verdicts on records, and what records conclude.

ghost use Rattle.std.specs.Prelude.{◌≡◌, IsTrue, true, None};
ghost use Rattle.pts_ctx.specs.Seen.{global_within};
ghost use Rattle.pts_ctx.specs.Front.{bare_front};
ghost use Rattle.pts_rules.specs.Valid.{first_fault, concludes};
ghost use Rattle.pts_check.specs.Verdicts.{verdict_of};
ghost use Rattle.pts_check.specs.Entered.{declared, bare_declared, declaration_fault};

use crate::forms::node_fault;
use crate::nodes::{sort_in, terms_of};
use pts_ctx::{Context, System};
use pts_record::{Declaration, Record};
use pts_rules::Why;

/// What a check answers: each node is an instance of its form, or the least one that is not, with the first condition
/// that it breaks.
#[derive(Clone, Copy, Debug, PartialEq, Eq)]
pub enum Verdict {
    Valid,
    Faulty { node: usize, why: Why },
}

/// Checks each node of a record over a front. It takes no memory, and goes over each node once.
///
/// What a valid record over a legal front says is derivable: `valid_records_are_sound` of the rules.
pub fn check(system: &System, front: &Context, proof: &Record) -> Verdict
    ensures { result ≡ verdict_of (first_fault system.now (bare_front front.now.entries) proof.now) }
{
    for number in 0..proof.nodes() {
        let node = proof.node(number);
        if let Some(why) = node_fault(system, front, proof, number, &node) {
            return Verdict::Faulty { node: number, why };
        }
    }
    Verdict::Valid
}

/// Whether the last node of a declaration's record stands in the empty local context and gives the declaration: the
/// body and the type of a definition, or the type of an assumption and some sort. The front plays no part.
///
/// The terms of a declaration that is concluded are within limits, as those of its record.
#[tactic(auto, using(crate::proofs::Limited::body_and_type_within, crate::proofs::Limited::type_within))]
pub fn concludes(front: &Context, declaration: &Declaration) -> bool
    ensures concludes { result ≡ concludes declaration.now.proof (bare_declared declaration.now) }
    ensures within { IsTrue result → global_within (declared declaration.now) ≡ true }
{
    let _ = front;
    let proof = &declaration.proof;
    let nodes = proof.nodes();
    if nodes == 0 {
        return false;
    }
    let last = nodes - 1;
    if !proof.is_judgement(last) {
        return false;
    }
    if proof.extent(last).length != 0 {
        return false;
    }
    let terms = terms_of(proof, last);
    proof.limits(terms.subject);
    proof.limits(terms.claim);
    match &declaration.body {
        Some(body) => {
            proof.is_term(terms.subject, body) && proof.is_term(terms.claim, &declaration.ty)
        }
        None => {
            proof.is_term(terms.subject, &declaration.ty) && sort_in(proof, terms.claim).is_some()
        }
    }
}

/// The terms of a declaration that its record concludes are within limits, as those of the record. This is said, and
/// nothing is answered.
pub fn concluded_limits(declaration: &Declaration)
    requires { concludes declaration.now.proof (bare_declared declaration.now) ≡ true }
    ensures { global_within (declared declaration.now) ≡ true }
{
    let proof = &declaration.proof;
    let last = proof.nodes() - 1;
    let terms = terms_of(proof, last);
    proof.limits(terms.subject);
    proof.limits(terms.claim);
}

/// What is wrong with a declaration over a front: the first fault of its record, with the node; or `Conclusion` at the
/// number of nodes, where the record is valid and does not conclude it. It takes no memory, and goes over each node once.
///
/// The terms of a declaration without a fault are within limits. Whether its name is new is not asked.
#[tactic(auto, unfolding(crate::specs::Entered::declaration_fault))]
pub fn declaration_fault(
    system: &System,
    front: &Context,
    declaration: &Declaration,
) -> Option<(usize, Why)>
    ensures fault { result ≡ declaration_fault system.now front.now.entries declaration.now.proof (declared declaration.now) }
    ensures within { result ≡ None → global_within (declared declaration.now) ≡ true }
{
    match check(system, front, &declaration.proof) {
        Verdict::Faulty { node, why } => Some((node, why)),
        Verdict::Valid if concludes(front, declaration) => None,
        Verdict::Valid => Some((declaration.proof.nodes(), Why::Conclusion)),
    }
}

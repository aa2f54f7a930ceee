// The public calls: each command refines the goal of an open proof that comes first.

ghost use Rattle.std.specs.Prelude.{◌≡◌, false};
ghost use Rattle.pts_terms.specs.Seen.{named};
ghost use Rattle.pts_ctx.specs.Front.{bare_front};
ghost use Rattle.pts_rules.specs.Meter.{left};
ghost use Rattle.pts_rules.specs.Valid.{IsValid};
ghost use Rattle.pts_grow.specs.Keeps.{Keeps};
ghost use Rattle.pts_reduce.specs.Given.{Later};
ghost use Rattle.pts_prove_cost.specs.Commands.{applies, converts, cuts, exacts, intros, unfolds};
ghost use Rattle.pts_prove.specs.Refining.{Proves};

use crate::command::Command;
use crate::fault::ProveFault;
use crate::refining::refine;
use pts_ctx::{Context, System};
use pts_goals::Proof;
use pts_names::Name;
use pts_rules::Meter;
use pts_terms::Term;

/// Puts an abstraction for the goal, which is a product as it stands or else by its weak head normal form, and has a sort.
/// The product's body takes its place, under a hypothesis of this name with the product's domain.
///
/// # Errors
///
/// `NoGoal`. `Taken` where the name exists in the scope, at no cost. `NotProduct`. `Flaw` of the part `Goal`. `Spent`, `Deep`:
/// as those of reduction and of inference with the sort test. `Deep`, last of all, where the whole term with its holes is not
/// within limits. `Memory`.
pub fn intro(
    system: &System,
    front: &Context,
    proof: &mut Proof,
    name: &Name,
    meter: &mut Meter,
) -> Result<(), ProveFault>
    requires here { proof.old.is_lent ≡ false }
    ensures proves { Proves proof.old (λ g. intros system.now front.now.entries g name.now) result proof.new (left meter.old) (left meter.new) }
    ensures here { proof.new.is_lent ≡ false }
    ensures keeps { Keeps proof.old.scratch proof.new.scratch }
    ensures valid { IsValid system.now (bare_front front.now.entries) proof.old.scratch → IsValid system.now (bare_front front.now.entries) proof.new.scratch }
    ensures later { Later meter.old meter.new }
{
    refine(system, front, proof, Command::Intro(name), meter)
}

/// Puts a term for the goal: it is inferred, and fitted to the goal. No goal takes its place.
///
/// # Errors
///
/// `NoGoal`. `Deep` where the term is not within limits, at no cost. `Flaw` of the part `Whole`. `Spent`, `Deep`: as those
/// of inference and of fits. `Deep`, last of all, where the whole term with its holes is not within limits. `Memory`.
pub fn exact(
    system: &System,
    front: &Context,
    proof: &mut Proof,
    term: &Term,
    meter: &mut Meter,
) -> Result<(), ProveFault>
    requires here { proof.old.is_lent ≡ false }
    ensures proves { Proves proof.old (λ g. exacts system.now front.now.entries g (named term.now)) result proof.new (left meter.old) (left meter.new) }
    ensures here { proof.new.is_lent ≡ false }
    ensures keeps { Keeps proof.old.scratch proof.new.scratch }
    ensures valid { IsValid system.now (bare_front front.now.entries) proof.old.scratch → IsValid system.now (bare_front front.now.entries) proof.new.scratch }
    ensures later { Later meter.old meter.new }
{
    refine(system, front, proof, Command::Exact(term), meter)
}

/// Puts a term for the goal that is applied to as many arguments as its type, perhaps after reduction of that type, has
/// products before it matches the goal. An argument that the match determines is inferred, and fitted to its product; each
/// other one is a goal, and in order they take the goal's place.
///
/// # Errors
///
/// `NoGoal`. `Deep` where the term is not within limits, at no cost. `Flaw` of the part `Whole` where the term is flawed.
/// `NoMatch` where the type matches the goal under none of its products; `Deep` where it has more than 2,000 of them. Then, in
/// the order of the arguments: `Flaw` of the part `Goal` where a product that was found by reduction, a domain that is to be a
/// goal, or an argument is flawed; `Undetermined` where an argument that the match leaves open occurs in the type; and `Deep`
/// where a type is not within limits. Were the products not met again with the arguments in them, the answer would be
/// `NotProduct`, or `NoMatch` after the last argument, where the type is to be the goal. `Spent`, `Deep`: as those of inference,
/// of reduction and of fits; each attempt to match costs one unit. `Deep`, last of all, where the whole term with its holes is
/// not within limits. `Memory`.
pub fn apply(
    system: &System,
    front: &Context,
    proof: &mut Proof,
    term: &Term,
    meter: &mut Meter,
) -> Result<(), ProveFault>
    requires here { proof.old.is_lent ≡ false }
    ensures proves { Proves proof.old (λ g. applies system.now front.now.entries g (named term.now)) result proof.new (left meter.old) (left meter.new) }
    ensures here { proof.new.is_lent ≡ false }
    ensures keeps { Keeps proof.old.scratch proof.new.scratch }
    ensures valid { IsValid system.now (bare_front front.now.entries) proof.old.scratch → IsValid system.now (bare_front front.now.entries) proof.new.scratch }
    ensures later { Later meter.old meter.new }
{
    refine(system, front, proof, Command::Apply(term), meter)
}

/// Puts a lemma before the goal: an abstraction over it, applied. The lemma takes the goal's place, and after it the goal under
/// a hypothesis of this name.
///
/// # Errors
///
/// `NoGoal`. `Taken` where the name exists in the scope, and `Deep` where the lemma is not within limits, at no cost. `Flaw` of
/// the part `Ty` where the lemma is flawed, and of the part `Goal` where the goal under it is, or where there is no rule for
/// the two sorts. `Spent`, `Deep`: as those of inference with the sort test; `Deep` too where the product of the lemma and the
/// goal is not within limits. `Deep`, last of all, where the whole term with its holes is not within limits. `Memory`.
pub fn cut(
    system: &System,
    front: &Context,
    proof: &mut Proof,
    name: &Name,
    ty: &Term,
    meter: &mut Meter,
) -> Result<(), ProveFault>
    requires here { proof.old.is_lent ≡ false }
    ensures proves { Proves proof.old (λ g. cuts system.now front.now.entries g name.now (named ty.now)) result proof.new (left meter.old) (left meter.new) }
    ensures here { proof.new.is_lent ≡ false }
    ensures keeps { Keeps proof.old.scratch proof.new.scratch }
    ensures valid { IsValid system.now (bare_front front.now.entries) proof.old.scratch → IsValid system.now (bare_front front.now.entries) proof.new.scratch }
    ensures later { Later meter.old meter.new }
{
    refine(system, front, proof, Command::Cut(name, ty), meter)
}

/// Puts the body of a constant for each of its occurrences in the goal. The new statement takes the goal's place: it has a sort,
/// and is convertible with the goal.
///
/// # Errors
///
/// `NoGoal`. `NoBody` where the name is that of an assumption or of a hypothesis, `NotThere` where it does not occur in the
/// goal, and `Deep` where the new statement is not within limits, at no cost. `Flaw` of the part `Goal`. `Spent`, `Deep`: as
/// those of inference with the sort test and of the conversion test. `Deep`, last of all, where the whole term with its holes
/// is not within limits. `Memory`.
pub fn unfold(
    system: &System,
    front: &Context,
    proof: &mut Proof,
    name: &Name,
    meter: &mut Meter,
) -> Result<(), ProveFault>
    requires here { proof.old.is_lent ≡ false }
    ensures proves { Proves proof.old (λ g. unfolds system.now front.now.entries g name.now) result proof.new (left meter.old) (left meter.new) }
    ensures here { proof.new.is_lent ≡ false }
    ensures keeps { Keeps proof.old.scratch proof.new.scratch }
    ensures valid { IsValid system.now (bare_front front.now.entries) proof.old.scratch → IsValid system.now (bare_front front.now.entries) proof.new.scratch }
    ensures later { Later meter.old meter.new }
{
    refine(system, front, proof, Command::Unfold(name), meter)
}

/// Puts another statement in the place of the goal: it has a sort, and is convertible with the goal.
///
/// # Errors
///
/// `NoGoal`. `Deep` where the statement is not within limits, at no cost. `Flaw` of the part `Ty` where the statement is
/// flawed, and of the part `Goal` where it is not convertible with the goal. `Spent`, `Deep`: as those of inference with the
/// sort test and of the conversion test. `Deep`, last of all, where the whole term with its holes is not within limits.
/// `Memory`.
pub fn convert_goal(
    system: &System,
    front: &Context,
    proof: &mut Proof,
    ty: &Term,
    meter: &mut Meter,
) -> Result<(), ProveFault>
    requires here { proof.old.is_lent ≡ false }
    ensures proves { Proves proof.old (λ g. converts system.now front.now.entries g (named ty.now)) result proof.new (left meter.old) (left meter.new) }
    ensures here { proof.new.is_lent ≡ false }
    ensures keeps { Keeps proof.old.scratch proof.new.scratch }
    ensures valid { IsValid system.now (bare_front front.now.entries) proof.old.scratch → IsValid system.now (bare_front front.now.entries) proof.new.scratch }
    ensures later { Later meter.old meter.new }
{
    refine(system, front, proof, Command::Convert(ty), meter)
}

// From spellings to the places of sorts.

ghost use Rattle.std.specs.Prelude.{◌≡◌, ◌≤◌, ◌<◌, length, map, not, is_some, None, Some, position, IfSome, IfOk, OnOk, IfErr};
ghost use Rattle.std.specs.Option.{option_map};
ghost use Rattle.std.specs.List.{AllByRecursion};
ghost use Rattle.pts_names.specs.Name.{same_name};
ghost use Rattle.pts_ctx.specs.Firsts.{clash_fault};
ghost use Rattle.pts_ctx.specs.System.{written, system_fault, sort_of, first_pair, axiom_is_declared, rule_is_declared, UnlessMemory, axiom_at, rule_at, AxiomBelow, RuleBelow};
ghost use Rattle.pts_ctx.specs.Tables.{axiom_places, rule_places};

use crate::system::{SystemFault, SystemPart};
use pts_names::SortName;
use pts_terms::Sort;
use std::alloc::Global;

/// The sort of a spelling.
pub fn sort_among(sorts: &[SortName], name: &SortName) -> Option<Sort>
    requires { length sorts.now ≤ 64 }
    ensures place { option_map (λ s. s.0) result ≡ sort_of sorts.now name.now }
    ensures inside { IfSome result (λ s. s.0 < length sorts.now) }
{
    match place_among(sorts, name) {
        Some(place) => Some(Sort(place as u8)),
        None => None,
    }
}

/// The place of a spelling.
fn place_among(sorts: &[SortName], name: &SortName) -> Option<usize>
    ensures place { result ≡ sort_of sorts.now name.now }
    ensures inside { IfSome result (λ k. k < length sorts.now) }
{
    sorts.iter().position(|sort| name.same(sort))
}

/// The least two places of one spelling.
fn first_twice(sorts: &[SortName]) -> Option<(usize, usize)>
    ensures { result ≡ first_pair same_name 0 sorts.now }
{
    for (place, sort) in sorts.iter().enumerate() {
        if let Some(distance) = place_among(&sorts[place + 1..], sort) {
            return Some((place, place + 1 + distance));
        }
    }
    None
}

/// The sorts of an axiom, where both are declared.
fn axiom_as_sorts(sorts: &[SortName], spelled: &(SortName, SortName)) -> Option<(Sort, Sort)>
    requires { length sorts.now ≤ 64 }
    ensures declared { axiom_is_declared sorts.now spelled.now ≡ is_some result }
    ensures places { IfSome result (λ a. axiom_places a ≡ axiom_at sorts.now spelled.now) }
    ensures below { IfSome result (λ a. AxiomBelow (length sorts.now) (axiom_places a)) }
{
    let left = sort_among(sorts, &spelled.0)?;
    let right = sort_among(sorts, &spelled.1)?;
    Some((left, right))
}

/// The sorts of a rule, where all three are declared.
fn rule_as_sorts(
    sorts: &[SortName],
    spelled: &(SortName, SortName, SortName),
) -> Option<(Sort, Sort, Sort)>
    requires { length sorts.now ≤ 64 }
    ensures declared { rule_is_declared sorts.now spelled.now ≡ is_some result }
    ensures places { IfSome result (λ r. rule_places r ≡ rule_at sorts.now spelled.now) }
    ensures below { IfSome result (λ r. RuleBelow (length sorts.now) (rule_places r)) }
{
    let first = sort_among(sorts, &spelled.0)?;
    let second = sort_among(sorts, &spelled.1)?;
    let third = sort_among(sorts, &spelled.2)?;
    Some((first, second, third))
}

/// The axioms by their sorts.
#[tactic(auto, using(crate::proofs::Positions::position_from_start))]
fn axioms_as_sorts(
    alloc: Global,
    sorts: &[SortName],
    axioms: &[(SortName, SortName)],
) -> Result<Vec<(Sort, Sort)>, SystemFault>
    requires { length sorts.now ≤ 64 }
    ensures places { IfOk result (λ found. map axiom_places found.items ≡ map (axiom_at sorts.now) axioms.now) }
    ensures below { IfOk result (λ found. AllByRecursion (AxiomBelow (length sorts.now)) (map axiom_places found.items)) }
    ensures declared { OnOk result (position (λ a. not (axiom_is_declared sorts.now a)) axioms.now ≡ None) }
    ensures refused { IfErr result (λ e. UnlessMemory e (option_map (SystemFault.UnknownSort SystemPart.Axiom) (position (λ a. not (axiom_is_declared sorts.now a)) axioms.now) ≡ Some e)) }
{
    let mut found = Vec::with_capacity(alloc, axioms.len())?;
    for (place, spelled) in axioms.iter().enumerate() {
        let Some(sorted) = axiom_as_sorts(sorts, spelled) else {
            return Err(SystemFault::UnknownSort(SystemPart::Axiom, place));
        };
        found.push(sorted)?;
    }
    Ok(found)
}

/// The rules by their sorts.
#[tactic(auto, using(crate::proofs::Positions::position_from_start))]
fn rules_as_sorts(
    alloc: Global,
    sorts: &[SortName],
    rules: &[(SortName, SortName, SortName)],
) -> Result<Vec<(Sort, Sort, Sort)>, SystemFault>
    requires { length sorts.now ≤ 64 }
    ensures places { IfOk result (λ found. map rule_places found.items ≡ map (rule_at sorts.now) rules.now) }
    ensures below { IfOk result (λ found. AllByRecursion (RuleBelow (length sorts.now)) (map rule_places found.items)) }
    ensures declared { OnOk result (position (λ r. not (rule_is_declared sorts.now r)) rules.now ≡ None) }
    ensures refused { IfErr result (λ e. UnlessMemory e (option_map (SystemFault.UnknownSort SystemPart.Rule) (position (λ r. not (rule_is_declared sorts.now r)) rules.now) ≡ Some e)) }
{
    let mut found = Vec::with_capacity(alloc, rules.len())?;
    for (place, spelled) in rules.iter().enumerate() {
        let Some(sorted) = rule_as_sorts(sorts, spelled) else {
            return Err(SystemFault::UnknownSort(SystemPart::Rule, place));
        };
        found.push(sorted)?;
    }
    Ok(found)
}

/// The axioms and the rules of a system by their sorts.
#[derive(Drop)]
pub struct BySorts {
    pub axioms: Vec<(Sort, Sort)>,
    pub rules: Vec<(Sort, Sort, Sort)>,
}

/// What is written, by the places of its sorts, where there are few sorts, none stands twice and all are declared.
pub fn by_sorts(
    alloc: Global,
    sorts: &[SortName],
    axioms: &[(SortName, SortName)],
    rules: &[(SortName, SortName, SortName)],
) -> Result<BySorts, SystemFault>
    ensures few { OnOk result (length sorts.now ≤ 64) }
    ensures axioms { IfOk result (λ s. map axiom_places s.axioms.items ≡ map (axiom_at sorts.now) axioms.now) }
    ensures rules { IfOk result (λ s. map rule_places s.rules.items ≡ map (rule_at sorts.now) rules.now) }
    ensures axioms_below { IfOk result (λ s. AllByRecursion (AxiomBelow (length sorts.now)) (map axiom_places s.axioms.items)) }
    ensures rules_below { IfOk result (λ s. AllByRecursion (RuleBelow (length sorts.now)) (map rule_places s.rules.items)) }
    ensures later { OnOk result (system_fault (written sorts.now axioms.now rules.now) ≡ clash_fault (map (axiom_at sorts.now) axioms.now) (map (rule_at sorts.now) rules.now)) }
    ensures refused { IfErr result (λ e. UnlessMemory e (system_fault (written sorts.now axioms.now rules.now) ≡ Some e)) }
{
    if sorts.len() > 64 {
        return Err(SystemFault::TooManySorts(sorts.len()));
    }
    if let Some((first, second)) = first_twice(sorts) {
        return Err(SystemFault::DuplicateSort(first, second));
    }
    let sorted_axioms = axioms_as_sorts(alloc, sorts, axioms)?;
    let sorted_rules = rules_as_sorts(alloc, sorts, rules)?;
    Ok(BySorts {
        axioms: sorted_axioms,
        rules: sorted_rules,
    })
}

// Lines that come one after another: the first of each left side, and the least pair that clash.

ghost use Rattle.std.specs.Prelude.{◌≡◌, ◌≤◌, ◌*◌, map, ℕ, List, [], ◌∷◌, ◌++◌, ◌<◌, length, IfOk};
ghost use Rattle.std.specs.List.{AllByRecursion};
ghost use Rattle.pts_ctx.specs.Firsts.{earlier, Knows};
ghost use Rattle.pts_ctx.specs.System.{AxiomBelow, RuleBelow};
ghost use Rattle.pts_ctx.specs.Tables.{axiom_places, rule_places, rule_line};

use pts_terms::Sort;
use std::alloc::{AllocError, Global};

/// What is known of the lines that came so far. A line has a left side, which is a number below the size of the tables,
/// and a right side.
#[derive(Drop)]
pub struct Firsts {
    /// The right side of the first line of each left side.
    pub rights: Vec<Option<Sort>>,
    /// The place of that line.
    pub places: Vec<usize>,
    /// The least pair of lines with one left side and two right sides.
    pub clash: Option<(usize, usize)>,
}

impl Firsts {
    /// Before the first line, with room for this many left sides.
    pub fn new(alloc: Global, left_sides: usize) -> Result<Firsts, AllocError>
        ensures knows { IfOk result (λ f. Knows f.rights.items f.places.items f.clash []) }
        ensures rights { IfOk result (λ f. length f.rights.items ≡ left_sides) }
        ensures places { IfOk result (λ f. length f.places.items ≡ left_sides) }
    {
        let mut rights = Vec::new(alloc);
        rights.resize(left_sides, None)?;
        let mut places = Vec::new(alloc);
        places.resize(left_sides, 0)?;
        Ok(Firsts {
            rights,
            places,
            clash: None,
        })
    }

    /// One more line, at the place after the others.
    pub fn note(&mut self, place: usize, left: usize, right: Sort)
        requires rights { left < length self.old.rights.items }
        requires places { left < length self.old.places.items }
        ensures knows { (lines : List (ℕ × ℕ)) → length lines ≡ place → Knows self.old.rights.items self.old.places.items self.old.clash lines → Knows self.new.rights.items self.new.places.items self.new.clash (lines ++ (left, right.0) ∷ []) }
        ensures rights { length self.new.rights.items ≡ length self.old.rights.items }
        ensures places { length self.new.places.items ≡ length self.old.places.items }
    {
        let Some(first) = self.rights[left] else {
            self.rights[left] = Some(right);
            self.places[left] = place;
            return;
        };
        if first.0 == right.0 {
            return;
        }
        self.clash = Some(earlier(self.clash, (self.places[left], place)));
    }
}

/// Of two pairs the one whose first place is less, and the one that was known if they have the same.
fn earlier(known: Option<(usize, usize)>, pair: (usize, usize)) -> (usize, usize)
    ensures { result ≡ earlier known pair }
{
    match known {
        Some(other) => { if pair.0 < other.0 { pair } else { other } }
        None => pair,
    }
}

/// What is known of these axioms, whose sorts are below the number of sorts.
pub fn axiom_firsts(
    alloc: Global,
    sorts: usize,
    axioms: &[(Sort, Sort)],
) -> Result<Firsts, AllocError>
    requires { AllByRecursion (AxiomBelow sorts) (map axiom_places axioms.now) }
    ensures knows { IfOk result (λ f. Knows f.rights.items f.places.items f.clash (map axiom_places axioms.now)) }
    ensures size { IfOk result (λ f. length f.rights.items ≡ sorts) }
{
    let mut firsts = Firsts::new(alloc, sorts)?;
    for (place, (left, right)) in axioms.iter().enumerate() {
        firsts.note(place, usize::from(left.0), *right);
    }
    Ok(firsts)
}

/// What is known of these rules. The left side of a rule is the place of its first two sorts in a table of rows of 64.
pub fn rule_firsts(
    alloc: Global,
    sorts: usize,
    rules: &[(Sort, Sort, Sort)],
) -> Result<Firsts, AllocError>
    requires few { sorts ≤ 64 }
    requires below { AllByRecursion (RuleBelow sorts) (map rule_places rules.now) }
    ensures knows { IfOk result (λ f. Knows f.rights.items f.places.items f.clash (map rule_line (map rule_places rules.now))) }
    ensures size { IfOk result (λ f. length f.rights.items ≡ 64 * sorts) }
{
    let mut firsts = Firsts::new(alloc, 64 * sorts)?;
    for (place, (first, second, third)) in rules.iter().enumerate() {
        firsts.note(
            place,
            64 * usize::from(first.0) + usize::from(second.0),
            *third,
        );
    }
    Ok(firsts)
}

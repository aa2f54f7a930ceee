// Systems of sorts, axioms and rules.

ghost use Rattle.std.specs.Prelude.{◌≡◌, ◌↔◌, IsTrue, ◌<◌, ◌≤◌, map, length, slice_get, None, Some, IfSome, IfOk, OnOk, IfErr};
ghost use Rattle.std.specs.Option.{option_map, option_copied};
ghost use Rattle.pts_ctx.specs.System.{axiom_of, rule_of, sort_of, written, specification_of, system_fault, IsDeclared, SameSystem, UnlessMemory, AxiomBelow, RuleBelow};
ghost use Rattle.std.specs.List.{AllByRecursion};
ghost use Rattle.pts_ctx.specs.Tables.{table_at, axiom_places, rule_places};
ghost use Rattle.pts_ctx.specs.Firsts.{clash_fault};

use crate::firsts::{axiom_firsts, rule_firsts};
use crate::places::{by_sorts, sort_among};
use pts_names::SortName;
use pts_terms::Sort;
use std::alloc::{AllocError, AllocFailed, Global};
use std::fmt;
use std::fmt::{Display, Formatter};
use std::marker::Model;

/// Where a sort that isn't declared is.
#[derive(Clone, Copy, Debug, PartialEq, Eq)]
pub enum SystemPart {
    Axiom,
    Rule,
}

/// Why lists are no system. Numbers are places in the lists, from 0 on; of several the least is named.
#[derive(Debug, Drop, PartialEq, Eq)]
pub enum SystemFault {
    TooManySorts(usize),
    DuplicateSort(usize, usize),
    UnknownSort(SystemPart, usize),
    AxiomClash(usize, usize),
    RuleClash(usize, usize),
    Memory,
}

impl From<AllocError> for SystemFault {
    ghost use Rattle.pts_ctx.specs.declared.system.SystemFault.{SystemFault};

    ghost from_gives = { λ _ fault. fault ≡ SystemFault.Memory };

    fn from(_error: AllocError) -> SystemFault {
        SystemFault::Memory
    }
}

impl<T: Drop> From<AllocFailed<T>> for SystemFault {
    ghost use Rattle.pts_ctx.specs.declared.system.SystemFault.{SystemFault};

    ghost from_gives = { λ _ fault. fault ≡ SystemFault.Memory };

    fn from(_error: AllocFailed<T>) -> SystemFault {
        SystemFault::Memory
    }
}

impl Display for SystemPart {
    ghost use Rattle.std.specs.Prelude.{Some};
    ghost use Rattle.pts_ctx.specs.FaultText.{part_text};

    ghost output = { λ p. Some (part_text p) };

    fn fmt<W: fmt::Write>(&self, f: &mut Formatter<W>) -> fmt::Result {
        f.write_str(match self {
            SystemPart::Axiom => "Axiom",
            SystemPart::Rule => "Rule",
        })
    }
}

impl Display for SystemFault {
    ghost use Rattle.std.specs.Prelude.{Some};
    ghost use Rattle.pts_ctx.specs.FaultText.{system_text};

    ghost output = { λ e. Some (system_text e) };

    fn fmt<W: fmt::Write>(&self, f: &mut Formatter<W>) -> fmt::Result {
        match self {
            SystemFault::TooManySorts(count) => write!(f, "TooManySorts {count}"),
            SystemFault::DuplicateSort(first, second) => write!(
                f,
                "DuplicateSort {first} {second}"
            ),
            SystemFault::UnknownSort(part, place) => write!(f, "UnknownSort {part} {place}"),
            SystemFault::AxiomClash(first, second) => write!(f, "AxiomClash {first} {second}"),
            SystemFault::RuleClash(first, second) => write!(f, "RuleClash {first} {second}"),
            SystemFault::Memory => f.write_str("Memory"),
        }
    }
}

/// A pure type system (Barendregt 1992) with at most 64 sorts, whose axioms and rules are partial functions.
/// Contracts see its spellings, and its axioms and rules as they were written, with places in place of spellings.
#[derive(Debug, Drop)]
pub struct System {
    sorts: Vec<SortName>,
    axioms: Vec<(Sort, Sort)>,
    rules: Vec<(Sort, Sort, Sort)>,
    axiom_table: Vec<Option<Sort>>,
    rule_table: Vec<Option<Sort>>,
}

impl Model for System {
    ghost use Rattle.std.specs.Prelude.{◌≡◌, ◌≤◌, ◌*◌, map, length};
    ghost use Rattle.pts_ctx.specs.System.{Specification, IsDeclared};
    ghost use Rattle.pts_ctx.specs.Tables.{axiom_places, rule_places, TableOf, SquareOf};

    ghost Value = { Specification };

    ghost view = { λ s. record { sorts = s.sorts.items; axioms = map axiom_places s.axioms.items; rules = map rule_places s.rules.items } };

    ghost invariant = { λ s. (length s.sorts.items ≤ 64) × IsDeclared (record { sorts = s.sorts.items; axioms = map axiom_places s.axioms.items; rules = map rule_places s.rules.items }) × TableOf s.axiom_table.items (map axiom_places s.axioms.items) × SquareOf s.rule_table.items (map rule_places s.rules.items) × (length s.axiom_table.items ≡ length s.sorts.items) × (length s.rule_table.items ≡ 64 * length s.sorts.items) };
}

impl System {
    /// The system that is written by its sorts, axioms and rules. A rule has the sorts of a product's domain, of its
    /// body and of the product itself.
    ///
    /// # Errors
    ///
    /// Of the faults of the lists the first is answered, in the order of the variants, with the least places.
    pub fn new(
        alloc: Global,
        sorts: Vec<SortName>,
        axioms: Vec<(SortName, SortName)>,
        rules: Vec<(SortName, SortName, SortName)>,
    ) -> Result<System, SystemFault>
        ensures system { IfOk result (λ s. s ≡ specification_of (written sorts.items axioms.items rules.items)) }
        ensures sound { OnOk result (system_fault (written sorts.items axioms.items rules.items) ≡ None) }
        ensures refused { IfErr result (λ e. UnlessMemory e (system_fault (written sorts.items axioms.items rules.items) ≡ Some e)) }
    {
        let sorted = by_sorts(alloc, &sorts, &axioms, &rules)?;
        System::tabled(alloc, sorts, sorted.axioms, sorted.rules)
    }

    /// The system of these axioms and rules, whose sorts are declared, with its tables.
    fn tabled(
        alloc: Global,
        sorts: Vec<SortName>,
        axioms: Vec<(Sort, Sort)>,
        rules: Vec<(Sort, Sort, Sort)>,
    ) -> Result<System, SystemFault>
        requires few { length sorts.items ≤ 64 }
        requires axioms { AllByRecursion (AxiomBelow (length sorts.items)) (map axiom_places axioms.items) }
        requires rules { AllByRecursion (RuleBelow (length sorts.items)) (map rule_places rules.items) }
        ensures system { IfOk result (λ s. s ≡ record { sorts = sorts.items; axioms = map axiom_places axioms.items; rules = map rule_places rules.items }) }
        ensures sound { OnOk result (clash_fault (map axiom_places axioms.items) (map rule_places rules.items) ≡ None) }
        ensures refused { IfErr result (λ e. UnlessMemory e (clash_fault (map axiom_places axioms.items) (map rule_places rules.items) ≡ Some e)) }
    {
        let axiom_firsts = axiom_firsts(alloc, sorts.len(), &axioms)?;
        if let Some((first, second)) = axiom_firsts.clash {
            return Err(SystemFault::AxiomClash(first, second));
        }
        let rule_firsts = rule_firsts(alloc, sorts.len(), &rules)?;
        if let Some((first, second)) = rule_firsts.clash {
            return Err(SystemFault::RuleClash(first, second));
        }
        Ok(System {
            sorts,
            axioms,
            rules,
            axiom_table: axiom_firsts.rights,
            rule_table: rule_firsts.rights,
        })
    }

    /// The sort of a spelling: its place in the list of sorts.
    pub fn sort(&self, name: &SortName) -> Option<Sort>
        ensures sort { option_map (λ s. s.0) result ≡ sort_of self.now.sorts name.now }
        ensures declared { IfSome result (λ s. s.0 < length self.now.sorts) }
    {
        sort_among(&self.sorts, name)
    }

    /// The spelling of a sort.
    pub fn spelling(&self, sort: Sort) -> Option<&SortName>
        ensures spelling { option_copied result ≡ slice_get self.now.sorts sort.0 }
    {
        self.sorts.get(usize::from(sort.0))
    }

    /// The sort of a sort, where it has an axiom. The cost does not depend on the number of axioms.
    pub fn axiom(&self, sort: Sort) -> Option<Sort>
        ensures axiom { option_map (λ s. s.0) result ≡ axiom_of self.now sort.0 }
        ensures declared { IfSome result (λ s. s.0 < length self.now.sorts) }
    {
        found_at(&self.axiom_table, usize::from(sort.0))
    }

    /// The sort of a product whose domain and body have these sorts, where there is a rule for them. The cost does not
    /// depend on the number of rules.
    pub fn rule(&self, first: Sort, second: Sort) -> Option<Sort>
        ensures rule { option_map (λ s. s.0) result ≡ rule_of self.now first.0 second.0 }
        ensures declared { IfSome result (λ s. s.0 < length self.now.sorts) }
    {
        if second.0 < 64 {
            found_at(
                &self.rule_table,
                64 * usize::from(first.0) + usize::from(second.0),
            )
        } else {
            None
        }
    }

    /// Whether both have the same spellings in the same order, and the same axioms and rules as partial functions.
    pub fn same_as(&self, other: &System) -> bool
        ensures { IsTrue result ↔ SameSystem self.now other.now }
    {
        if !same_spellings(&self.sorts, &other.sorts) {
            return false;
        }
        if !same_tables(&self.axiom_table, &other.axiom_table) {
            return false;
        }
        same_tables(&self.rule_table, &other.rule_table)
    }

    /// The same system again.
    pub fn copy(&self, alloc: Global) -> Result<System, AllocError>
        ensures { IfOk result (λ s. s ≡ self.now) }
    {
        Ok(System {
            sorts: copy_spellings(alloc, &self.sorts)?,
            axioms: Vec::from_slice(alloc, &self.axioms)?,
            rules: Vec::from_slice(alloc, &self.rules)?,
            axiom_table: Vec::from_slice(alloc, &self.axiom_table)?,
            rule_table: Vec::from_slice(alloc, &self.rule_table)?,
        })
    }

    /// What is sure of every system: it has at most 64 sorts, and those of its axioms and rules are declared.
    pub fn is_declared(&self)
        ensures few { length self.now.sorts ≤ 64 }
        ensures declared { IsDeclared self.now }
    {
        let _ = &self.sorts;
    }
}

fn same_spellings(one: &[SortName], other: &[SortName]) -> bool
    ensures { IsTrue result ↔ (one.now ≡ other.now) }
{
    one == other
}

fn same_tables(one: &[Option<Sort>], other: &[Option<Sort>]) -> bool
    ensures { IsTrue result ↔ (one.now ≡ other.now) }
{
    one == other
}

fn copy_spellings(alloc: Global, sorts: &[SortName]) -> Result<Vec<SortName>, AllocError>
    ensures { IfOk result (λ copy. copy.items ≡ sorts.now) }
{
    let mut copy = Vec::with_capacity(alloc, sorts.len())?;
    for sort in sorts {
        copy.push(sort.copy()?)?;
    }
    Ok(copy)
}

fn found_at(table: &[Option<Sort>], place: usize) -> Option<Sort>
    ensures { option_map (λ s. s.0) result ≡ table_at table.now place }
{
    if place < table.len() {
        table[place]
    } else {
        None
    }
}

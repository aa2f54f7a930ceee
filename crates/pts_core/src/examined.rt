// Offers that were examined.

ghost use Rattle.std.specs.Prelude.{◌≡◌, ◌≢◌, ℕ, length, true, None, Some, IfOk, IfSome};
ghost use Rattle.std.specs.Option.{option_copied};
ghost use Rattle.pts_ctx.specs.Front.{bare_front};
ghost use Rattle.pts_ctx.specs.Seen.{globals_within};
ghost use Rattle.pts_rules.specs.Derives.{Legal};
ghost use Rattle.pts_check.specs.Entered.{declared_entries};
ghost use Rattle.pts_core.specs.InnerNames.{NoneInner};
ghost use Rattle.pts_core.specs.Findings.{finding_of};
ghost use Rattle.pts_core.specs.Replies.{first_clash};
ghost use Rattle.pts_core.specs.Obstacles.{IsFaultless};
ghost use Rattle.pts_core.specs.declared.finding.Finding.TheVariants.{Sound};

use crate::copies::{Copies, label_of, names_of};
use crate::examining::{entries_of, entry_copies, look_through};
use crate::finding::Finding;
use crate::offer::Offer;
use pts_ctx::{Entry, System};
use pts_names::Name;
use std::alloc::{AllocError, Global};
use std::marker::Model;
use std::snapshot::Snapshot;

/// An offer, and what was found of it in a system.
///
/// It keeps the entries, and as many copies of names as the core needs to answer without memory. The system, the front and the
/// records are known to contracts alone: nothing reads them any more, and they are given back when the offer is examined.
#[derive(Drop)]
pub struct Examined {
    system: Snapshot<System>,
    offer: Snapshot<Offer>,
    pub(crate) front: usize,
    pub(crate) entries: Vec<Entry>,
    pub(crate) names: Vec<Copies>,
    pub(crate) label: Option<Copies>,
    pub(crate) finding: Finding,
    pub(crate) place: usize,
}

impl Model for Examined {
    ghost use Rattle.std.specs.Prelude.{map};
    ghost use Rattle.std.specs.Coded.{codes};
    ghost use Rattle.pts_terms.specs.Code.{coded_tree};
    ghost use Rattle.pts_ctx.specs.Entries.{global_of};
    ghost use Rattle.pts_core.specs.contracts.offer.Offer as o;
    ghost use Rattle.pts_core.specs.contracts.finding.Finding as f;
    ghost use Rattle.pts_core.specs.Cores.{SeenExamined};
    ghost use Rattle.pts_core.specs.Copies.{KeepsOffer};

    ghost Value = { SeenExamined };

    ghost coded = { Prim.hlevel (codes, coded_tree, o.the_row.coded, f.the_row.coded) };

    ghost view = { λ x. record { system = x.system.value; offer = x.offer.value; finding = x.finding } };

    ghost invariant = { λ x. KeepsOffer x.system.value x.offer.value x.front (map global_of x.entries.items) x.names.items x.label x.finding x.place };
}

impl Examined {
    /// How many declarations are offered.
    pub fn len(&self) -> usize
        ensures { result ≡ length self.now.offer.declarations }
    {
        self.entries.len()
    }

    /// How many entries the front of the offer has.
    pub(crate) fn front_len(&self) -> usize
        ensures { result ≡ length self.now.offer.front.entries }
    {
        self.front
    }

    /// What was found.
    pub(crate) fn finding(&self) -> Finding
        ensures { result ≡ self.now.finding }
    {
        self.finding
    }

    /// The label.
    pub(crate) fn label(&self) -> Option<&Name>
        ensures { option_copied result ≡ self.now.offer.label }
    {
        match &self.label {
            Some(label) => Some(&label.kept),
            None => None,
        }
    }

    /// Where the name of the declaration with this number is, over the front of the offer, if it was found to be there twice.
    pub(crate) fn doubled_at(&self, number: usize) -> Option<usize>
        ensures place { IfSome result (λ p. first_clash self.now.offer.front.entries (declared_entries self.now.offer.declarations) ≡ Some (number, p)) }
        ensures once { result ≡ None → IsFaultless self.now.finding → (p : ℕ) → first_clash self.now.offer.front.entries (declared_entries self.now.offer.declarations) ≢ Some (number, p) }
    {
        match self.finding {
            Finding::Doubled { declaration } => {
                if declaration == number {
                    Some(self.place)
                } else {
                    None
                }
            }
            _ => None,
        }
    }

    /// Where no record has a fault and no name is there twice, all was found sound.
    pub(crate) fn is_sound_if_once(&self)
        ensures { IsFaultless self.now.finding → first_clash self.now.offer.front.entries (declared_entries self.now.offer.declarations) ≡ None → self.now.finding ≡ Sound }
    {
        let _ = &self.entries;
    }

    /// What is sure of whatever was examined: what was found is what is to be found, and no declaration has an inner name.
    pub fn is_examined(&self)
        ensures finding { self.now.finding ≡ finding_of self.now.system self.now.offer.front.entries self.now.offer.declarations }
        ensures names { NoneInner (declared_entries self.now.offer.declarations) }
    {
        let _ = &self.entries;
    }
}

/// Looks at the declarations of an offer in their order, each over the front and the entries of those before it, up to the first
/// whose name exists already, whose record is not valid, or whose record does not conclude it.
///
/// Each node is looked at once, and the entries are copied once.
///
/// # Errors
///
/// Out of memory.
pub fn examine(alloc: Global, system: &System, offer: Offer) -> Result<Examined, AllocError>
    requires legal { Legal system.now (bare_front offer.front.entries) }
    requires names { NoneInner (declared_entries offer.declarations) }
    ensures system { IfOk result (λ x. x.system ≡ system.now) }
    ensures offer { IfOk result (λ x. x.offer ≡ offer) }
    ensures finding { IfOk result (λ x. x.finding ≡ finding_of system.now offer.front.entries offer.declarations) }
{
    let seen = Snapshot::of(&offer);
    let Offer {
        front,
        declarations,
        label,
    } = offer;
    let front_len = front.len();
    let declarations = declarations.into_vec();
    let found = look_through(alloc, system, front, &declarations)?;
    let names = names_of(alloc, &declarations)?;
    let entries = entries_of(alloc, declarations)?;
    let label = label_of(&label)?;
    Ok(Examined {
        system: Snapshot::of(system),
        offer: seen,
        front: front_len,
        entries,
        names,
        label,
        finding: found.finding,
        place: found.place,
    })
}

/// The same of an offer that is known to be sound: it is found so, and no record is looked at. The entries are copied once, and
/// the offer stays.
///
/// # Errors
///
/// Out of memory.
#[tactic(auto, using(crate::proofs::Legality::sound_once))]
pub fn examine_sound(alloc: Global, system: &System, offer: &Offer) -> Result<Examined, AllocError>
    requires sound { finding_of system.now offer.now.front.entries offer.now.declarations ≡ Sound }
    requires within { globals_within (declared_entries offer.now.declarations) ≡ true }
    requires names { NoneInner (declared_entries offer.now.declarations) }
    ensures system { IfOk result (λ x. x.system ≡ system.now) }
    ensures offer { IfOk result (λ x. x.offer ≡ offer.now) }
    ensures finding { IfOk result (λ x. x.finding ≡ Sound) }
{
    let declarations = offer.declarations.items();
    let entries = entry_copies(alloc, declarations)?;
    let names = names_of(alloc, declarations)?;
    let label = label_of(&offer.label)?;
    Ok(Examined {
        system: Snapshot::of(system),
        offer: Snapshot::of(offer),
        front: offer.front.len(),
        entries,
        names,
        label,
        finding: Finding::Sound,
        place: 0,
    })
}

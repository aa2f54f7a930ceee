// Drafts.

ghost use Rattle.std.specs.Prelude.{◌≡◌, ◌≤◌, ◌-◌, ◌∷◌, ◌++◌, [], length, take, true, None, IfOk, IfErr, OnOk, OnErr};
ghost use Rattle.std.specs.Option.{option_map};
ghost use Rattle.pts_terms.specs.Seen.{named};
ghost use Rattle.pts_ctx.specs.Front.{Fresh, bare_front};
ghost use Rattle.pts_ctx.specs.Seen.{IsPrefix, place_of};
ghost use Rattle.pts_rules.specs.Derives.{Legal};
ghost use Rattle.pts_rules.specs.Meter.{left};
ghost use Rattle.pts_rules.specs.Valid.{IsValid, concludes};
ghost use Rattle.pts_check.specs.Entered.{MayEnter, bare_declared, declared_entries};
ghost use Rattle.pts_reduce.specs.Given.{Later};
ghost use Rattle.pts_declare.specs.Stated.{assumption, stated_of};
ghost use Rattle.pts_core.specs.Findings.{finding_of};
ghost use Rattle.pts_core.specs.InnerNames.{NoneInner};
ghost use Rattle.pts_core.specs.declared.finding.Finding.TheVariants.{Sound};
ghost use Rattle.pts_draft.specs.Drafts.{IsDeclared, IsLegalDraft, definition_of, first_taken, scope};
ghost use Rattle.pts_draft.specs.Refusals.{IsTaken, RefusesStated};
ghost use Rattle.pts_draft.specs.Renaming.{AreRenamed, IsRenamed, RefusesRenaming, declares};
ghost use Rattle.pts_image.specs.Renaming.{new_name};

use crate::copies::copies_of;
use crate::fault::{DraftFault, RenameFault};
use crate::renaming::{declares, extend_renamed};
use crate::scopes::{extend, first_taken, scope_over};
use pts_check::concluded_limits;
use pts_core::{Examined, Offer, examine_sound};
use pts_ctx::{Context, System};
use pts_declare::{Stated, check};
use pts_image::OneName;
use pts_names::{List, Name};
use pts_record::Declaration;
use pts_rules::Meter;
use pts_terms::Term;
use std::alloc::{AllocError, Global};
use std::marker::Model;
use std::mem;
use std::snapshot::Snapshot;

/// Declarations over a legal front, in the order in which they came. The record of each is valid over the front and the entries of
/// those before it, and concludes it.
///
/// The system in which this is so is known to contracts alone. Beside the front a draft keeps its scope, in which terms are
/// inferred: the front, and after it the entries of the declarations.
#[derive(Drop)]
pub struct Draft {
    system: Snapshot<System>,
    front: Context,
    scope: Context,
    declarations: Vec<Declaration>,
    alloc: Global,
}

impl Model for Draft {
    ghost use Rattle.std.specs.Coded.{codes};
    ghost use Rattle.pts_terms.specs.Code.{coded_tree};
    ghost use Rattle.pts_record.specs.contracts.declaration.Declaration as e;
    ghost use Rattle.pts_core.specs.Cores.{labelled};
    ghost use Rattle.pts_draft.specs.Drafts.{SeenDraft, KeepsDraft};

    ghost Value = { SeenDraft };

    ghost coded = { Prim.hlevel (codes, coded_tree, e.the_row.coded) };

    ghost view = { λ d. record { system = d.system.value; entries = d.front.entries; labels = d.front.labels; declarations = d.declarations.items } };

    ghost invariant = { λ d. KeepsDraft d.system.value (labelled d.front) (labelled d.scope) d.declarations.items };
}

impl Draft {
    /// The empty draft over a front that is legal in the system. The front is copied once, for the scope.
    ///
    /// # Errors
    ///
    /// Out of memory.
    pub fn new(alloc: Global, system: &System, front: Context) -> Result<Draft, AllocError>
        requires legal { Legal system.now (bare_front front.entries) }
        ensures system { IfOk result (λ d. d.system ≡ system.now) }
        ensures entries { IfOk result (λ d. d.entries ≡ front.entries) }
        ensures labels { IfOk result (λ d. d.labels ≡ front.labels) }
        ensures declarations { IfOk result (λ d. d.declarations ≡ []) }
    {
        let scope = front.copy()?;
        Ok(Draft {
            system: Snapshot::of(system),
            front,
            scope,
            declarations: Vec::new(alloc),
            alloc,
        })
    }

    /// How many declarations there are.
    pub fn len(&self) -> usize
        ensures { result ≡ length self.now.declarations }
    {
        self.declarations.len()
    }

    /// The front.
    pub fn front(&self) -> &Context
        ensures entries { result.now.entries ≡ self.now.entries }
        ensures labels { result.now.labels ≡ self.now.labels }
    {
        &self.front
    }

    /// The front, and after it the entries of the declarations.
    pub fn scope(&self) -> &Context
        ensures entries { result.now.entries ≡ scope self.now }
        ensures labels { result.now.labels ≡ self.now.labels }
    {
        &self.scope
    }

    /// What is sure of every draft: its front is legal, and each declaration may be added to the front and the entries of those
    /// before it. So its scope is legal too.
    #[tactic(auto, using(pts_check::proofs::Entering::follow_legal))]
    pub fn is_legal(&self)
        ensures sure { IsLegalDraft self.now.system self.now.entries self.now.declarations }
        ensures scope { Legal self.now.system (bare_front (scope self.now)) }
    {
        let _ = &self.declarations;
    }

    /// Adds the assumption of a name with that type. The declarations that there are stay where they are. The type is copied.
    ///
    /// # Errors
    ///
    /// First `Taken`, where the name exists in the scope; then `Infer` with the fault of `pts_declare::check`, at its cost. After
    /// `Spent` the meter stands at its limit. `Memory`.
    pub fn assume(
        &mut self,
        system: &System,
        name: Name,
        ty: &Term,
        meter: &mut Meter,
    ) -> Result<(), DraftFault>
        requires system { system.now ≡ self.old.system }
        ensures declared { OnOk result (IsDeclared self.old name (assumption (named ty.now)) (left meter.old) (left meter.new) self.new.declarations) }
        ensures refused { IfErr result (λ e. RefusesStated self.old name (assumption (named ty.now)) e (left meter.old) (left meter.new)) }
        ensures system { self.new.system ≡ self.old.system }
        ensures entries { self.new.entries ≡ self.old.entries }
        ensures labels { self.new.labels ≡ self.old.labels }
        ensures same { OnErr result (self.new ≡ self.old) }
        ensures later { Later meter.old meter.new }
    {
        let ty = ty.copy(self.alloc)?;
        self.declare(system, name, Stated::Assumption(ty), meter)
    }

    /// Adds the definition of a name by that body, with that type if there is one. The declarations that there are stay where they
    /// are. The terms are copied.
    ///
    /// # Errors
    ///
    /// Those of `assume`.
    pub fn define(
        &mut self,
        system: &System,
        name: Name,
        ty: Option<&Term>,
        body: &Term,
        meter: &mut Meter,
    ) -> Result<(), DraftFault>
        requires system { system.now ≡ self.old.system }
        ensures declared { OnOk result (IsDeclared self.old name (definition_of ty.entry body.now) (left meter.old) (left meter.new) self.new.declarations) }
        ensures refused { IfErr result (λ e. RefusesStated self.old name (definition_of ty.entry body.now) e (left meter.old) (left meter.new)) }
        ensures system { self.new.system ≡ self.old.system }
        ensures entries { self.new.entries ≡ self.old.entries }
        ensures labels { self.new.labels ≡ self.old.labels }
        ensures same { OnErr result (self.new ≡ self.old) }
        ensures later { Later meter.old meter.new }
    {
        let stated = definition_of(self.alloc, ty, body)?;
        self.declare(system, name, stated, meter)
    }

    /// Adds a declaration that its record concludes. The record is not looked at.
    ///
    /// # Errors
    ///
    /// `Taken`, where the name exists in the scope. `Memory`.
    pub fn add(&mut self, declaration: Declaration) -> Result<(), DraftFault>
        requires valid { IsValid self.old.system (bare_front (scope self.old)) declaration.proof }
        requires concluded { concludes declaration.proof (bare_declared declaration) ≡ true }
        ensures free { OnOk result (place_of declaration.name (scope self.old) ≡ None) }
        ensures declarations { OnOk result (self.new.declarations ≡ self.old.declarations ++ declaration ∷ []) }
        ensures taken { IfErr result (λ e. IsTaken (first_taken (scope self.old) (declaration ∷ [])) e) }
        ensures system { self.new.system ≡ self.old.system }
        ensures entries { self.new.entries ≡ self.old.entries }
        ensures labels { self.new.labels ≡ self.old.labels }
        ensures same { OnErr result (self.new ≡ self.old) }
    {
        if let Some(place) = self.scope.place_of(&declaration.name) {
            return Err(DraftFault::Taken(declaration.name.copy()?, place));
        }
        concluded_limits(&declaration);
        self.enter(declaration)?;
        Ok(())
    }

    /// Takes this many last declarations back. It takes no memory, and no time that grows with the front.
    pub fn drop_last(&mut self, count: usize)
        requires { count ≤ length self.old.declarations }
        ensures declarations { self.new.declarations ≡ take (length self.old.declarations - count) self.old.declarations }
        ensures system { self.new.system ≡ self.old.system }
        ensures entries { self.new.entries ≡ self.old.entries }
        ensures labels { self.new.labels ≡ self.old.labels }
    {
        self.front.is_orderly();
        let kept = self.declarations.len() - count;
        self.scope.cut(count);
        self.declarations.truncate(kept);
    }

    /// Takes all declarations back, and answers how many there were. It takes no memory.
    pub fn discard(&mut self) -> usize
        ensures count { result ≡ length self.old.declarations }
        ensures declarations { self.new.declarations ≡ [] }
        ensures system { self.new.system ≡ self.old.system }
        ensures entries { self.new.entries ≡ self.old.entries }
        ensures labels { self.new.labels ≡ self.old.labels }
    {
        let count = self.len();
        self.drop_last(count);
        count
    }

    /// Renames a declaration: its entry, and each use of its name in the terms and in the records of the draft. The printed names of
    /// binders stay. It infers nothing, and costs copies of the declarations.
    ///
    /// # Errors
    ///
    /// `NotThere`, where no declaration of the draft has the old name; then `Taken`, where the new name exists in the scope, also if
    /// it is the old one. `Memory`.
    pub fn rename(&mut self, old: &Name, new: Name) -> Result<(), RenameFault>
        ensures renamed { OnOk result (IsRenamed self.old old.now new self.new.declarations) }
        ensures refused { IfErr result (λ e. RefusesRenaming self.old old.now new e) }
        ensures system { self.new.system ≡ self.old.system }
        ensures entries { self.new.entries ≡ self.old.entries }
        ensures labels { self.new.labels ≡ self.old.labels }
        ensures same { OnErr result (self.new ≡ self.old) }
    {
        if !declares(&self.declarations, old) {
            return Err(RenameFault::NotThere(old.copy()?));
        }
        if let Some(place) = self.scope.place_of(&new) {
            return Err(RenameFault::Taken(new, place));
        }
        self.take_names(&OneName { old, new: &new })?;
        Ok(())
    }

    /// The first declaration whose name exists in a front, by that name and its place there.
    pub fn first_taken(&self, front: &Context) -> Option<(&Name, usize)>
        ensures { option_map (λ t. (t.0.now, t.1)) result ≡ first_taken front.now.entries self.now.declarations }
    {
        first_taken(front, &self.declarations)
    }

    /// Moves to a front that begins with the present one and is legal.
    ///
    /// The names of the declarations are looked up in the new front, each once. The new front is copied once, for the scope,
    /// which shares the entries of the declarations with the old one; no term is inferred, looked at or copied.
    ///
    /// # Errors
    ///
    /// `Taken` with the first name of the draft that exists in the new front, and its place there. `Memory`.
    pub fn move_to(&mut self, front: Context) -> Result<(), DraftFault>
        requires longer { IsPrefix self.old.entries front.entries }
        requires legal { Legal self.old.system (bare_front front.entries) }
        ensures free { OnOk result (first_taken front.entries self.old.declarations ≡ None) }
        ensures entries { OnOk result (self.new.entries ≡ front.entries) }
        ensures labels { OnOk result (self.new.labels ≡ front.labels) }
        ensures taken { IfErr result (λ e. IsTaken (first_taken front.entries self.old.declarations) e) }
        ensures declarations { self.new.declarations ≡ self.old.declarations }
        ensures system { self.new.system ≡ self.old.system }
        ensures same { OnErr result (self.new ≡ self.old) }
    {
        if let Some((name, place)) = first_taken(&front, &self.declarations) {
            return Err(DraftFault::Taken(name.copy()?, place));
        }
        front.is_orderly();
        let scope = scope_over(&front, &mut self.scope, self.front.len())?;
        self.front = front;
        self.scope = scope;
        Ok(())
    }

    /// The offer of the declarations, without a label. It may be examined, and is found sound. The front is copied, and so are the
    /// declarations with their records.
    ///
    /// # Errors
    ///
    /// Out of memory.
    #[tactic(auto, using(crate::proofs::Following::follow_sound))]
    pub fn offer(&self) -> Result<Offer, AllocError>
        ensures entries { IfOk result (λ o. o.front.entries ≡ self.now.entries) }
        ensures labels { IfOk result (λ o. o.front.labels ≡ self.now.labels) }
        ensures declarations { IfOk result (λ o. o.declarations ≡ self.now.declarations) }
        ensures label { IfOk result (λ o. o.label ≡ None) }
        ensures legal { IfOk result (λ o. Legal self.now.system (bare_front o.front.entries)) }
        ensures sound { IfOk result (λ o. finding_of self.now.system o.front.entries o.declarations ≡ Sound) }
    {
        let declarations = copies_of(self.alloc, &self.declarations)?;
        Ok(Offer {
            front: self.front.copy()?,
            declarations: List::of(declarations),
            label: None,
        })
    }

    /// What `examine` gives for the offer of the declarations, without a label. The declarations were found sound one by one, so no
    /// record is looked at or copied: the entries are copied once, and the draft stays.
    ///
    /// # Errors
    ///
    /// Out of memory.
    #[tactic(auto, using(crate::proofs::Following::follow_sound))]
    pub fn examined(&mut self, system: &System) -> Result<Examined, AllocError>
        requires system { system.now ≡ self.old.system }
        requires names { NoneInner (declared_entries self.old.declarations) }
        ensures system { IfOk result (λ x. x.system ≡ self.old.system) }
        ensures entries { IfOk result (λ x. x.offer.front.entries ≡ self.old.entries) }
        ensures labels { IfOk result (λ x. x.offer.front.labels ≡ self.old.labels) }
        ensures declarations { IfOk result (λ x. x.offer.declarations ≡ self.old.declarations) }
        ensures label { IfOk result (λ x. x.offer.label ≡ None) }
        ensures sound { IfOk result (λ x. x.finding ≡ Sound) }
        ensures same { self.new ≡ self.old }
    {
        self.scope.is_orderly();
        let front = self.front.copy()?;
        let declarations = mem::replace(&mut self.declarations, Vec::new(self.alloc));
        let offer = Offer {
            front,
            declarations: List::of(declarations),
            label: None,
        };
        let examined = examine_sound(self.alloc, system, &offer);
        self.declarations = offer.declarations.into_vec();
        examined
    }

    /// The same draft again, in its system. The front and the scope are copied, and so are the declarations with their records.
    ///
    /// # Errors
    ///
    /// Out of memory.
    pub fn copy(&self, system: &System) -> Result<Draft, AllocError>
        requires system { system.now ≡ self.now.system }
        ensures { IfOk result (λ d. d ≡ self.now) }
    {
        Ok(Draft {
            system: Snapshot::of(system),
            front: self.front.copy()?,
            scope: self.scope.copy()?,
            declarations: copies_of(self.alloc, &self.declarations)?,
            alloc: self.alloc,
        })
    }

    // Adds the declaration of what is stated.
    #[tactic(auto, using(crate::proofs::Refusing::stated_refused))]
    fn declare(
        &mut self,
        system: &System,
        name: Name,
        stated: Stated,
        meter: &mut Meter,
    ) -> Result<(), DraftFault>
        requires system { system.now ≡ self.old.system }
        ensures declared { OnOk result (IsDeclared self.old name (stated_of stated) (left meter.old) (left meter.new) self.new.declarations) }
        ensures refused { IfErr result (λ e. RefusesStated self.old name (stated_of stated) e (left meter.old) (left meter.new)) }
        ensures system { self.new.system ≡ self.old.system }
        ensures entries { self.new.entries ≡ self.old.entries }
        ensures labels { self.new.labels ≡ self.old.labels }
        ensures same { OnErr result (self.new ≡ self.old) }
        ensures later { Later meter.old meter.new }
    {
        if let Some(place) = self.scope.place_of(&name) {
            return Err(DraftFault::Taken(name, place));
        }
        let declaration = check(self.alloc, system, &self.scope, name, stated, meter)?;
        self.enter(declaration)?;
        Ok(())
    }

    // Gives the declarations the new name.
    fn take_names(&mut self, names: &OneName<'_>) -> Result<(), AllocError>
        requires there { declares self.old.declarations names.now.old.now ≡ true }
        requires free { Fresh names.now.new.now (scope self.old) }
        ensures renamed { OnOk result (AreRenamed (new_name names.now.old.now names.now.new.now) self.old.declarations self.new.declarations) }
        ensures system { self.new.system ≡ self.old.system }
        ensures entries { self.new.entries ≡ self.old.entries }
        ensures labels { self.new.labels ≡ self.old.labels }
        ensures same { OnErr result (self.new ≡ self.old) }
    {
        self.scope.is_orderly();
        let mut scope = self.front.copy()?;
        let declarations = extend_renamed(self.alloc, &mut scope, &self.declarations, names)?;
        self.scope = scope;
        self.declarations = declarations;
        Ok(())
    }

    // Adds a declaration that may be added.
    fn enter(&mut self, declaration: Declaration) -> Result<(), AllocError>
        requires { MayEnter self.old.system (scope self.old) declaration }
        ensures declarations { OnOk result (self.new.declarations ≡ self.old.declarations ++ declaration ∷ []) }
        ensures system { self.new.system ≡ self.old.system }
        ensures entries { self.new.entries ≡ self.old.entries }
        ensures labels { self.new.labels ≡ self.old.labels }
        ensures same { OnErr result (self.new ≡ self.old) }
    {
        extend(
            self.alloc,
            &mut self.scope,
            &mut self.declarations,
            declaration,
        )?;
        Ok(())
    }
}

// What a definition states.
fn definition_of(alloc: Global, ty: Option<&Term>, body: &Term) -> Result<Stated, AllocError>
    ensures { IfOk result (λ s. stated_of s ≡ definition_of ty.entry body.now) }
{
    match ty {
        Some(ty) => {
            let ty = ty.copy(alloc)?;
            Ok(Stated::Typed(ty, body.copy(alloc)?))
        }
        None => Ok(Stated::Definition(body.copy(alloc)?)),
    }
}

// The statements of a module, one after another.

ghost use Rattle.std.specs.Prelude.{◌≡◌, ◌≤◌, ◌<◌, ◌+◌, ◌∷◌, ◌++◌, [], length, map, true, None, IfOk, OnOk, IfErr};
ghost use Rattle.pts_ctx.specs.Front.{Fresh, Global};
ghost use Rattle.pts_ctx.specs.Entries.{global_of};
ghost use Rattle.pts_ctx.specs.Seen.{global_within};
ghost use Rattle.pts_rules.specs.Meter.{left};
ghost use Rattle.pts_reduce.specs.Given.{Later};
ghost use Rattle.pts_reduce_cost.specs.Laws.{WithinBudget};
ghost use Rattle.pts_infer_cost.specs.Typing.{comes};
ghost use Rattle.pts_check.specs.Entered.{MayEnter, MayFollow, declared, declared_entries};
ghost use Rattle.pts_names.specs.Name.{is_short};
ghost use Rattle.pts_statement.specs.Statements.{name_of};
ghost use Rattle.pts_statement.specs.Declaring.{Declares};
ghost use Rattle.pts_statement.specs.Refusals.{RefusesStatement};
ghost use Rattle.pts_batch.specs.Evidence.{statement_of, numbered, AllDeclarable};
ghost use Rattle.pts_batch.specs.Loading.{Loads, entered};
ghost use Rattle.pts_batch.specs.Calls.{Stops, fault_at};

use pts_ctx::{Context, Entry, System};
use pts_module_file::ModuleLine;
use pts_names::Name;
use pts_record::Declaration;
use pts_rules::Meter;
use pts_statement::{StatementFault, assume, define};
use std::alloc::{AllocError, Global};

/// The declarations that entered, and the front that they make.
#[derive(Drop)]
pub struct Loading {
    pub context: Context,
    pub declarations: Vec<Declaration>,
}

/// Why the statements of a module do not enter: the one on a line is refused; or there is no memory.
#[derive(Drop)]
pub enum LoadFault {
    Refused(usize, StatementFault),
    Memory,
}

impl From<AllocError> for LoadFault {
    ghost use Rattle.std.specs.Prelude.{◌≡◌};
    ghost use Rattle.pts_batch.specs.declared.loading.LoadFault.{LoadFault};

    ghost from_gives = { λ _ fault. fault ≡ LoadFault.Memory };

    fn from(_: AllocError) -> LoadFault {
        LoadFault::Memory
    }
}

/// The declarations of the lines of the module with this label, over the empty front, in which the label is marked first.
/// The memory of each line is given back as soon as its declaration has entered.
///
/// # Errors
///
/// `Refused` with the first line whose statement is refused, and its fault. `Memory`.
pub fn load(
    alloc: Global,
    system: &System,
    label: &Name,
    lines: Vec<(usize, ModuleLine)>,
    meter: &mut Meter,
) -> Result<Loading, LoadFault>
    requires label { length label.now ≤ 63 }
    requires names { AllDeclarable lines.items }
    ensures loaded { IfOk result (λ l. Loads system.now label.now [] (map numbered lines.items) (left meter.old) (entered l.context.entries) (left meter.new)) }
    ensures labels { IfOk result (λ l. l.context.labels ≡ (label.now, 0) ∷ []) }
    ensures entries { IfOk result (λ l. l.context.entries ≡ declared_entries l.declarations.items) }
    ensures evidence { IfOk result (λ l. MayFollow system.now [] l.declarations.items) }
    ensures refused { IfErr result (λ e. Stops (Loads system.now label.now [] (map numbered lines.items)) (left meter.old) (left meter.new) e) }
    ensures later { Later meter.old meter.new }
{
    let mut loading = begin(alloc, label, lines.len())?;
    let mut rest = lines.into_iter();
    while let Some(line) = rest.next() {
        match loading.add(alloc, system, label, &line.1, meter) {
            Ok(()) => drop(line),
            Err(fault) => return Err(fault_at(line.0, fault)),
        }
    }
    Ok(loading)
}

// The fault of the statement on a line.
fn fault_at(line: usize, fault: StatementFault) -> LoadFault
    ensures { result ≡ fault_at line fault }
{
    match fault {
        StatementFault::Memory => LoadFault::Memory,
        fault => LoadFault::Refused(line, fault),
    }
}

// The empty front with the label, and room for so many declarations.
fn begin(alloc: Global, label: &Name, count: usize) -> Result<Loading, AllocError>
    ensures entries { IfOk result (λ l. l.context.entries ≡ []) }
    ensures labels { IfOk result (λ l. l.context.labels ≡ (label.now, 0) ∷ []) }
    ensures declarations { IfOk result (λ l. l.declarations.items ≡ []) }
    ensures room { IfOk result (λ l. count ≤ l.context.spare_entries) }
{
    let mut context = Context::new(alloc);
    context.reserve(count, 1)?;
    context.mark(label.copy()?);
    Ok(Loading {
        context,
        declarations: Vec::new(alloc),
    })
}

impl Loading {
    // Declares the statement on a line and enters it.
    fn add(
        &mut self,
        alloc: Global,
        system: &System,
        label: &Name,
        line: &ModuleLine,
        meter: &mut Meter,
    ) -> Result<(), StatementFault>
        requires label { length label.now ≤ 63 }
        requires name { is_short (name_of (statement_of line.now)) ≡ true }
        requires room { 0 < self.old.context.spare_entries }
        ensures entered { OnOk result ((d : Declaration) × WithinBudget (Declares system.now label.now self.old.context.entries (statement_of line.now)) (left meter.old) (comes (declared d)) (left meter.new) × MayEnter system.now self.old.context.entries d × (self.new.context.entries ≡ self.old.context.entries ++ declared d ∷ []) × (self.new.declarations.items ≡ self.old.declarations.items ++ d ∷ [])) }
        ensures refused { IfErr result (λ e. RefusesStatement system.now label.now self.old.context.entries (statement_of line.now) e (left meter.old) (left meter.new)) }
        ensures labels { self.new.context.labels ≡ self.old.context.labels }
        ensures spare { self.old.context.spare_entries ≤ self.new.context.spare_entries + 1 }
        ensures later { Later meter.old meter.new }
    {
        let declaration = declare(alloc, system, &self.context, label, line, meter)?;
        self.enter(alloc, declaration)?;
        Ok(())
    }

    // Enters a declaration.
    fn enter(&mut self, alloc: Global, declaration: Declaration) -> Result<(), AllocError>
        requires fresh { Fresh declaration.name self.old.context.entries }
        requires within { global_within (declared declaration) ≡ true }
        requires room { 0 < self.old.context.spare_entries }
        ensures entered { OnOk result (self.new.context.entries ≡ self.old.context.entries ++ declared declaration ∷ []) }
        ensures declared { OnOk result (self.new.declarations.items ≡ self.old.declarations.items ++ declaration ∷ []) }
        ensures labels { self.new.context.labels ≡ self.old.context.labels }
        ensures spare { self.old.context.spare_entries ≤ self.new.context.spare_entries + 1 }
    {
        let key = declaration.name.copy()?;
        let entry = entry_of(alloc, &declaration)?;
        self.declarations.push(declaration)?;
        self.context.push(entry, key);
        Ok(())
    }
}

// The declaration of the statement on a line.
fn declare(
    alloc: Global,
    system: &System,
    front: &Context,
    label: &Name,
    line: &ModuleLine,
    meter: &mut Meter,
) -> Result<Declaration, StatementFault>
    requires label { length label.now ≤ 63 }
    requires name { is_short (name_of (statement_of line.now)) ≡ true }
    ensures declared { IfOk result (λ d. WithinBudget (Declares system.now label.now front.now.entries (statement_of line.now)) (left meter.old) (comes (declared d)) (left meter.new)) }
    ensures refused { IfErr result (λ e. RefusesStatement system.now label.now front.now.entries (statement_of line.now) e (left meter.old) (left meter.new)) }
    ensures evidence { IfOk result (λ d. MayEnter system.now front.now.entries d) }
    ensures later { Later meter.old meter.new }
{
    match line {
        ModuleLine::Assume(name, ty) => assume(alloc, system, front, label, name, ty, meter),
        ModuleLine::Define(name, Some(ty), body) => {
            define(alloc, system, front, label, name, Some(ty), body, meter)
        }
        ModuleLine::Define(name, None, body) => {
            define(alloc, system, front, label, name, None, body, meter)
        }
    }
}

// The entry of a declaration.
fn entry_of(alloc: Global, declaration: &Declaration) -> Result<Entry, AllocError>
    ensures { IfOk result (λ e. global_of e ≡ declared declaration.now) }
{
    let body = match &declaration.body {
        Some(body) => Some(body.copy(alloc)?),
        None => None,
    };
    Ok(Entry {
        name: declaration.name.copy()?,
        body,
        ty: declaration.ty.copy(alloc)?,
    })
}

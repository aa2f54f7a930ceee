// Cores, what is offered to them, and what they are asked.

ghost use Rattle.std.specs.Prelude.{IfSome};
ghost use Rattle.pts_core.specs.Cores.{MaySubmit};

use pts_core::{
    Core, Declaration, EVENTS, Event, Examined, List, Name, Offer, Reply, examine, first_inner,
};
use pts_record::{Record, Sort, Term};
use pts_samples::{fill, simple};
use std::alloc::Global;

/// The record of an assumption concludes it.
pub const VALID: usize = 1;

/// The record of an assumption says that a sort is its own type.
pub const FAULTY: usize = 0;

/// The session that looks.
pub const LOOKING: u32 = 1;

/// The session that submits.
pub const SUBMITTING: u32 = 2;

/// The core of the simply typed calculus, with no entry.
pub fn empty(alloc: Global) -> Option<Core> {
    Some(Core::new(alloc, simple(alloc)?))
}

// The assumption of a name with the first sort as its type. Its record says that this sort has the second one as its type, if it is
// valid, or itself.
fn assumption(alloc: Global, text: &str, claim: usize) -> Option<Declaration> {
    let name = Name::read(alloc, text).ok()?;
    let mut proof = Record::new(alloc);
    fill(&mut proof, claim).ok()?;
    Some(Declaration {
        name,
        body: None,
        ty: Term::Sort(Sort(0)),
        proof,
    })
}

// Adds the assumption of a name.
fn add(alloc: Global, declarations: &mut Vec<Declaration>, text: &str, claim: usize) -> Option<()> {
    let declaration = assumption(alloc, text, claim)?;
    declarations.push(declaration).ok()
}

/// The assumptions of the names between blanks.
pub fn assumptions(alloc: Global, names: &str, claim: usize) -> Option<Vec<Declaration>> {
    let mut declarations = Vec::new(alloc);
    for name in names.split_whitespace() {
        add(alloc, &mut declarations, name, claim)?;
    }
    Some(declarations)
}

// Adds the assumption of n0, n1 and so on.
fn add_numbered(alloc: Global, declarations: &mut Vec<Declaration>, number: usize) -> Option<()> {
    let name = format!(in alloc; "n{number}").ok()?;
    add(alloc, declarations, name.as_str(), VALID)
}

/// So many assumptions: n0, n1 and so on.
pub fn numbered(alloc: Global, count: usize) -> Option<Vec<Declaration>> {
    let mut declarations = Vec::new(alloc);
    for number in 0..count {
        add_numbered(alloc, &mut declarations, number)?;
    }
    Some(declarations)
}

fn label_of(alloc: Global, label: Option<&str>) -> Option<Option<Name>> {
    match label {
        Some(label) => Some(Some(Name::read(alloc, label).ok()?)),
        None => Some(None),
    }
}

// What is offered over the present front of a core, examined.
fn examined(
    alloc: Global,
    core: &Core,
    declarations: Vec<Declaration>,
    label: Option<Name>,
) -> Option<Examined>
    ensures { IfSome result (λ x. MaySubmit x core.now) }
{
    if let Some(_) = first_inner(declarations.as_slice()) {
        return None;
    }
    let Ok(front) = core.context().copy() else {
        return None;
    };
    core.is_legal();
    let offer = Offer {
        front,
        declarations: List::of(declarations),
        label,
    };
    match examine(alloc, core.system(), offer) {
        Ok(examined) => Some(examined),
        Err(_) => None,
    }
}

/// What is offered with a label, examined.
pub fn labelled(
    alloc: Global,
    core: &Core,
    declarations: Vec<Declaration>,
    label: Option<&str>,
) -> Option<Examined>
    ensures { IfSome result (λ x. MaySubmit x core.now) }
{
    let label = label_of(alloc, label)?;
    examined(alloc, core, declarations, label)
}

/// The assumptions of these names, offered without a label and examined.
pub fn unlabelled(alloc: Global, core: &Core, names: &str) -> Option<Examined>
    ensures { IfSome result (λ x. MaySubmit x core.now) }
{
    let declarations = assumptions(alloc, names, VALID)?;
    examined(alloc, core, declarations, None)
}

/// A look.
pub fn look(core: &mut Core) -> Option<Reply> {
    if core.reserve(0).is_err() || core.events() >= EVENTS {
        return None;
    }
    Some(core.step(Event::Look(LOOKING)))
}

/// A submission.
pub fn submit(core: &mut Core, examined: Examined) -> Option<Reply>
    requires { MaySubmit examined core.old }
{
    if core.reserve(examined.len()).is_err() || core.events() >= EVENTS {
        return None;
    }
    Some(core.step(Event::Submit(SUBMITTING, examined)))
}

/// The reply to an offer.
pub fn offer(
    alloc: Global,
    core: &mut Core,
    declarations: Option<Vec<Declaration>>,
    label: Option<&str>,
) -> Option<Reply> {
    let examined = labelled(alloc, core, declarations?, label)?;
    submit(core, examined)
}

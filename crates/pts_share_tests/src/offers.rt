// Offers of assumptions over the front of a core.

ghost use Rattle.std.specs.Prelude.{IfSome};
ghost use Rattle.pts_core.specs.Cores.{MaySubmit};

use pts_core::{Core, Declaration, Examined, List, Name, Offer, examine, first_inner};
use pts_record::{Record, Sort, Term};
use pts_samples::fill;
use std::alloc::Global;

/// The assumption of a name, whose type is the first sort.
pub fn assumption(alloc: Global, name: Name) -> Option<Declaration> {
    let mut proof = Record::new(alloc);
    fill(&mut proof, 1).ok()?;
    Some(Declaration {
        name,
        body: None,
        ty: Term::Sort(Sort(0)),
        proof,
    })
}

/// What is offered over the front of a core, examined.
pub fn examined_over(alloc: Global, core: &Core, declarations: Vec<Declaration>) -> Option<Examined>
    ensures { IfSome result (λ x. MaySubmit x core.now) }
{
    if let Some(_) = first_inner(declarations.as_slice()) {
        return None;
    }
    let Ok(front) = core.context().copy() else {
        return None;
    };
    core.is_legal();
    let offer = Offer {
        front,
        declarations: List::of(declarations),
        label: None,
    };
    match examine(alloc, core.system(), offer) {
        Ok(examined) => Some(examined),
        Err(_) => None,
    }
}

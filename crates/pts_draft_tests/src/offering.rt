// What a draft offers enters a core.

ghost use Rattle.std.specs.Prelude.{◌≡◌, IfSome};
ghost use Rattle.pts_core.specs.Cores.{MaySubmit};

use crate::makers::filled;
use pts_core::{Answer, Core, Examined, Receipt, Reply, examine, first_inner};
use pts_draft::Draft;
use pts_samples::simple;
use std::alloc::Global;

/// The core of the simply typed calculus, with no entry.
pub fn empty(alloc: Global) -> Option<Core> {
    Some(Core::new(alloc, simple(alloc)?))
}

// The offer of a draft over a front of the core, examined.
fn offered(alloc: Global, core: &Core, draft: &Draft) -> Option<Examined>
    requires { draft.now.system ≡ core.now.system }
    ensures { IfSome result (λ x. MaySubmit x core.now) }
{
    let Ok(offer) = draft.offer() else {
        return None;
    };
    if let Some(_) = first_inner(offer.declarations.items()) {
        return None;
    }
    if !offer.front.is_front_of(core.context()) {
        return None;
    }
    match examine(alloc, core.system(), offer) {
        Ok(examined) => Some(examined),
        Err(_) => None,
    }
}

// The reply in an answer.
fn reply_of(answer: Answer) -> Reply {
    let Answer { receipt, .. } = answer;
    let Receipt { reply, .. } = receipt;
    reply
}

/// The reply of a core to the offer of a draft.
pub fn submit(alloc: Global, core: &mut Core, draft: &Draft) -> Option<Reply>
    requires { draft.now.system ≡ core.old.system }
    ensures { core.new.system ≡ core.old.system }
{
    let examined = offered(alloc, core, draft)?;
    match core.answer_submit(1, examined) {
        Ok(answer) => Some(reply_of(answer)),
        Err(_) => None,
    }
}

/// Whether a core takes in these declarations, after none.
pub fn is_committed(reply: &Reply, count: usize) -> bool {
    match reply {
        Reply::Committed(from, to) => *from == 0 && *to == count,
        _ => false,
    }
}

fn is_clash(reply: &Reply, clashing: &str) -> bool {
    match reply {
        Reply::Clash(name, place) => name.text() == clashing && *place == 0,
        _ => false,
    }
}

fn is_offered(alloc: Global) -> Option<bool> {
    let core = empty(alloc)?;
    let offer = filled(alloc, core.system())?.offer().ok()?;
    Some(offer.declarations.items().len() == 2 && offer.front.len() == 0 && offer.label.is_none())
}

#[test]
fn an_offer_has_the_front_and_the_declarations(rt: HostRuntime) {
    assert!(rt; is_offered(rt.alloc()) == Some(true));
}

fn enters_once(alloc: Global) -> Option<bool> {
    let mut core = empty(alloc)?;
    let draft = filled(alloc, core.system())?;
    let first = submit(alloc, &mut core, &draft)?;
    let second = submit(alloc, &mut core, &draft)?;
    Some(is_committed(&first, 2) && is_clash(&second, "a") && core.context().len() == 2)
}

#[test]
fn what_a_draft_offers_is_sound_and_enters_once(rt: HostRuntime) {
    assert!(rt; enters_once(rt.alloc()) == Some(true));
}

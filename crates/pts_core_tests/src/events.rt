// Events, the replies to them, and what is kept of them.

ghost use Rattle.pts_core.specs.Cores.{MaySubmit};

use crate::makers::{FAULTY, LOOKING, SUBMITTING, VALID, empty, submit, unlabelled};
use crate::replies::{replies, says, sees};
use pts_core::{Context, Core, EVENTS, Event, Examined, Name, Reply};
use std::alloc::Global;

// The reply to an event of a session.
fn past(core: &Core, number: u64, session: u32) -> Option<Reply> {
    if number >= core.events() || core.past_session(number) != session {
        return None;
    }
    core.past_reply(number).copy().ok()
}

// Whether the front has A, B and the label m before them.
fn has_both(alloc: Global, front: &Context) -> Option<bool> {
    let second = Name::read(alloc, "B").ok()?;
    let label = Name::read(alloc, "m").ok()?;
    Some(
        front.len() == 2
            && front.place_of(&second) == Some(1)
            && front.label_place(&label) == Some(0),
    )
}

// Offers in their order, and the replies.
const OFFERS: [(&str, usize, Option<&str>, &str); 6] = [
    ("A B", VALID, Some("m"), "committed 0 2"),
    ("B C", FAULTY, Some("m"), "loaded m 0"),
    ("C B", FAULTY, Some("m"), "faulty C 1 Claim"),
    ("C B", VALID, None, "clash B 1"),
    ("C D C", VALID, None, "clash C 2"),
    ("", VALID, None, "committed 2 2"),
];

fn replies_in_order(alloc: Global, core: &mut Core) -> bool {
    for (names, claim, label, reply) in OFFERS {
        if !replies(alloc, core, names, claim, label, reply) {
            return false;
        }
    }
    true
}

fn remembers(alloc: Global, core: &Core) -> bool {
    core.events() == 7
        && says(alloc, &past(core, 0, LOOKING), "seen 0")
        && says(alloc, &past(core, 3, SUBMITTING), "faulty C 1 Claim")
}

fn is_remembered(alloc: Global) -> Option<bool> {
    let mut core = empty(alloc)?;
    let is_answered = sees(alloc, &mut core, "seen 0") && replies_in_order(alloc, &mut core);
    Some(is_answered && remembers(alloc, &core) && has_both(alloc, core.context())?)
}

fn is_handed_over(alloc: Global) -> Option<bool> {
    let mut core = empty(alloc)?;
    if !replies(alloc, &mut core, "A B", VALID, Some("m"), "committed 0 2") {
        return None;
    }
    has_both(alloc, &core.into_context())
}

#[test]
fn a_core_replies_to_events_and_remembers_them(rt: HostRuntime) {
    assert!(rt; is_remembered(rt.alloc()) == Some(true));
    assert!(rt; is_handed_over(rt.alloc()) == Some(true));
}

// Submits the first of two offers that were examined over one front. The second may be submitted then.
fn submit_before(core: &mut Core, first: Examined, second: &Examined) -> bool
    requires first { MaySubmit first core.old }
    requires second { MaySubmit second.now core.old }
    ensures { MaySubmit second.now core.new }
{
    if core.reserve(first.len()).is_err() || core.events() >= EVENTS {
        return false;
    }
    let _ = core.step(Event::Submit(SUBMITTING, first));
    true
}

// The reply to the second of two offers that were examined over one front.
fn reply_after(core: &mut Core, first: Examined, second: Examined) -> Option<Reply>
    requires first { MaySubmit first core.old }
    requires second { MaySubmit second core.old }
{
    if !submit_before(core, first, &second) {
        return None;
    }
    submit(core, second)
}

// That of two offers of these names over the empty front.
fn second_reply(alloc: Global, first: &str, second: &str) -> Option<Reply> {
    let mut core = empty(alloc)?;
    let first = unlabelled(alloc, &core, first)?;
    let second = unlabelled(alloc, &core, second)?;
    reply_after(&mut core, first, second)
}

#[test]
fn an_offer_over_an_earlier_front_enters_where_its_names_are_new(rt: HostRuntime) {
    let alloc = rt.alloc();
    assert!(rt; says(alloc, &second_reply(alloc, "A B", "C D"), "committed 2 4"));
    assert!(rt; says(alloc, &second_reply(alloc, "A B", "C B"), "clash B 1"));
    assert!(rt; says(alloc, &second_reply(alloc, "A B", "C C"), "clash C 2"));
}

// How many entries there would be after an offer of these names, and how many there are.
fn lengths(alloc: Global, names: &str) -> Option<(usize, usize)> {
    let core = empty(alloc)?;
    let examined = unlabelled(alloc, &core, names)?;
    examined.is_examined();
    let front = core.after(&examined).ok()?;
    Some((front.len(), core.context().len()))
}

#[test]
fn the_front_after_an_offer_is_known_before(rt: HostRuntime) {
    assert!(rt; lengths(rt.alloc(), "A B") == Some((2, 0)));
    assert!(rt; lengths(rt.alloc(), "A A") == Some((0, 0)));
}

// What is in the way of an examined offer.

ghost use Rattle.std.specs.Prelude.{◌≡◌, ◌<◌, ◌≤◌, ◌+◌, length, None, Some, IfSome, IsSome};
ghost use Rattle.std.specs.Option.{option_and_then};
ghost use Rattle.pts_ctx.specs.Seen.{IsPrefix, label_place};
ghost use Rattle.pts_check.specs.Entered.{declared_entries};
ghost use Rattle.pts_core.specs.Replies.{first_clash, refusal_reply};
ghost use Rattle.pts_core.specs.Cores.{labelled};
ghost use Rattle.pts_core.specs.Obstacles.{obstacle_reply, IsFaultless, NoClashBefore, IsFree};

use crate::examined::Examined;
use crate::finding::Finding;
use pts_ctx::{Context, ROOM};
use pts_rules::Why;

/// Why an offer does not enter. Declarations are numbered from 0, and places count entries.
#[derive(Clone, Copy)]
pub(crate) enum Obstacle {
    /// The record of a declaration has a fault at a node.
    Faulty {
        declaration: usize,
        node: usize,
        why: Why,
    },
    /// The label exists.
    Loaded {
        place: usize,
    },
    /// The name of a declaration exists.
    Clash {
        declaration: usize,
        place: usize,
    },
    /// There are so many entries, and with those of the offer there would be too many.
    Full {
        entries: usize,
    },
}

/// The first obstacle in the way of an offer.
pub(crate) fn first_obstacle(context: &Context, examined: &Examined) -> Option<Obstacle>
    requires front { IsPrefix examined.now.offer.front.entries context.now.entries }
    requires few { length context.now.entries ≤ 200000 }
    ensures reply { IfSome result (λ o. obstacle_reply (declared_entries examined.now.offer.declarations) examined.now.offer.label o ≡ refusal_reply (labelled context.now) (declared_entries examined.now.offer.declarations) examined.now.offer.label examined.now.finding) }
    ensures named { IfSome result (λ o. IsSome (obstacle_reply (declared_entries examined.now.offer.declarations) examined.now.offer.label o)) }
    ensures free { result ≡ None → IsFree (labelled context.now) examined.now }
{
    examined.is_examined();
    if let Finding::Faulty {
        declaration,
        node,
        why,
    } = examined.finding()
    {
        return Some(Obstacle::Faulty {
            declaration,
            node,
            why,
        });
    }
    if let Some(place) = label_place(context, examined) {
        return Some(Obstacle::Loaded { place });
    }
    if let Some((declaration, place)) = first_clash(context, examined) {
        return Some(Obstacle::Clash { declaration, place });
    }
    examined.is_sound_if_once();
    let entries = context.len();
    if examined.len() > ROOM - entries {
        return Some(Obstacle::Full { entries });
    }
    None
}

// The place of the offer's label, where that exists.
fn label_place(context: &Context, examined: &Examined) -> Option<usize>
    ensures { result ≡ option_and_then (λ l. label_place l context.now.labels) examined.now.offer.label }
{
    match examined.label() {
        Some(label) => context.label_place(label),
        None => None,
    }
}

// The first declaration whose name exists, by its number, and where that is.
fn first_clash(context: &Context, examined: &Examined) -> Option<(usize, usize)>
    requires front { IsPrefix examined.now.offer.front.entries context.now.entries }
    requires few { length context.now.entries ≤ 200000 }
    requires faultless { IsFaultless examined.now.finding }
    ensures { result ≡ first_clash context.now.entries (declared_entries examined.now.offer.declarations) }
{
    for number in 0..examined.len() {
        if let Some(place) = clash_at(context, examined, number) {
            return Some((number, place));
        }
    }
    None
}

// Where the name of the declaration with this number is, if it exists: the index of the context finds it; or it is the name of a
// declaration before it, as was found out when the offer was examined, and then it is as far from the end of this front as it
// was from the end of the offer's.
fn clash_at(context: &Context, examined: &Examined, number: usize) -> Option<usize>
    requires number { number < length examined.now.offer.declarations }
    requires front { IsPrefix examined.now.offer.front.entries context.now.entries }
    requires few { length context.now.entries ≤ 200000 }
    requires faultless { IsFaultless examined.now.finding }
    requires in_offer { NoClashBefore number examined.now.offer.front.entries (declared_entries examined.now.offer.declarations) }
    requires in_context { NoClashBefore number context.now.entries (declared_entries examined.now.offer.declarations) }
    ensures place { IfSome result (λ p. first_clash context.now.entries (declared_entries examined.now.offer.declarations) ≡ Some (number, p)) }
    ensures in_offer { result ≡ None → NoClashBefore (number + 1) examined.now.offer.front.entries (declared_entries examined.now.offer.declarations) }
    ensures in_context { result ≡ None → NoClashBefore (number + 1) context.now.entries (declared_entries examined.now.offer.declarations) }
{
    let entry = &examined.entries[number];
    if let Some(place) = context.place_of(&entry.name) {
        return Some(place);
    }
    match examined.doubled_at(number) {
        Some(place) => Some(context.len() + (place - examined.front_len())),
        None => None,
    }
}

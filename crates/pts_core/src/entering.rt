// What becomes of an examined offer: it is refused, or it enters.

ghost use Rattle.std.specs.Prelude.{◌≡◌, ◌<◌, ◌≤◌, ◌+◌, ◌++◌, ◌⊎◌, length, map, slice_get, true, None, Some, IfOk, OnOk, IfSome, IsSome};
ghost use Rattle.std.specs.Option.{option_map};
ghost use Rattle.pts_ctx.specs.Entries.{global_of};
ghost use Rattle.pts_ctx.specs.Seen.{IsPrefix, globals_within, label_place};
ghost use Rattle.pts_check.specs.Entered.{declared_entries};
ghost use Rattle.pts_core.specs.declared.reply.Reply.TheVariants as reply;
ghost use Rattle.pts_core.specs.Replies.{first_clash, refusal_reply, reply_to};
ghost use Rattle.pts_core.specs.Histories.{left_by, marks};
ghost use Rattle.pts_core.specs.Cores.{labelled};
ghost use Rattle.pts_core.specs.Obstacles.{obstacle_reply, IsFree};

use crate::copies::{Copies, copies_of, copy_all};
use crate::examined::Examined;
use crate::obstacle::{Obstacle, first_obstacle};
use crate::reply::Reply;
use pts_ctx::{Context, Entry};
use std::alloc::{AllocError, Global};

/// A reply twice: for the history, and for who asked.
#[derive(Drop)]
pub(crate) struct Replies {
    pub(crate) kept: Reply,
    pub(crate) shown: Reply,
}

/// Enters what was examined where nothing is in its way, and else answers why not. It takes no memory.
pub(crate) fn answer(context: &mut Context, examined: Examined) -> Replies
    requires front { IsPrefix examined.offer.front.entries context.old.entries }
    requires few { length context.old.entries ≤ 200000 }
    requires entries { length examined.offer.declarations ≤ context.old.spare_entries }
    requires labels { 0 < context.old.spare_labels }
    ensures kept { result.kept ≡ reply_to (labelled context.old) (declared_entries examined.offer.declarations) examined.offer.label examined.finding }
    ensures shown { result.shown ≡ result.kept }
    ensures front { labelled context.new ≡ left_by (labelled context.old) result.kept (declared_entries examined.offer.declarations) examined.offer.label }
    ensures free { (refusal_reply (labelled context.old) (declared_entries examined.offer.declarations) examined.offer.label examined.finding ≡ Some result.kept) ⊎ IsFree (labelled context.old) examined }
{
    match first_obstacle(context, &examined) {
        Some(obstacle) => refused_with(examined, obstacle),
        None => enter(context, examined),
    }
}

// The refusal for an obstacle.
fn refused_with(examined: Examined, obstacle: Obstacle) -> Replies
    requires { IsSome (obstacle_reply (declared_entries examined.offer.declarations) examined.offer.label obstacle) }
    ensures kept { obstacle_reply (declared_entries examined.offer.declarations) examined.offer.label obstacle ≡ Some result.kept }
    ensures shown { result.shown ≡ result.kept }
{
    match obstacle {
        Obstacle::Faulty {
            declaration,
            node,
            why,
        } => {
            let name = name_at(examined, declaration);
            Replies {
                kept: Reply::Faulty(name.kept, node, why),
                shown: Reply::Faulty(name.shown, node, why),
            }
        }
        Obstacle::Loaded { place } => {
            let label = label_in(examined);
            Replies {
                kept: Reply::Loaded(label.kept, place),
                shown: Reply::Loaded(label.shown, place),
            }
        }
        Obstacle::Clash { declaration, place } => {
            let name = name_at(examined, declaration);
            Replies {
                kept: Reply::Clash(name.kept, place),
                shown: Reply::Clash(name.shown, place),
            }
        }
        Obstacle::Full { entries } => Replies {
            kept: Reply::ContextFull(entries),
            shown: Reply::ContextFull(entries),
        },
    }
}

// The name of a declaration.
fn name_at(examined: Examined, declaration: usize) -> Copies
    requires { declaration < length examined.offer.declarations }
    ensures kept { option_map (λ e. e.name) (slice_get (declared_entries examined.offer.declarations) declaration) ≡ Some result.kept }
    ensures shown { result.shown ≡ result.kept }
{
    let Examined { names, .. } = examined;
    let mut names = names;
    names.swap_remove(declaration)
}

// The label.
fn label_in(examined: Examined) -> Copies
    requires { IsSome examined.offer.label }
    ensures kept { examined.offer.label ≡ Some result.kept }
    ensures shown { result.shown ≡ result.kept }
{
    let Examined { label, .. } = examined;
    match label {
        Some(label) => label,
        None => unreachable!(),
    }
}

// Marks the label and enters the entries, in whose way there is nothing.
fn enter(context: &mut Context, examined: Examined) -> Replies
    requires free { IsFree (labelled context.old) examined }
    requires entries { length examined.offer.declarations ≤ context.old.spare_entries }
    requires labels { 0 < context.old.spare_labels }
    ensures entries { context.new.entries ≡ context.old.entries ++ declared_entries examined.offer.declarations }
    ensures labels { context.new.labels ≡ context.old.labels ++ marks examined.offer.label (length context.old.entries) }
    ensures kept { result.kept ≡ reply.Committed (length context.old.entries) (length context.old.entries + length examined.offer.declarations) }
    ensures shown { result.shown ≡ result.kept }
{
    let Examined {
        entries,
        names,
        label,
        ..
    } = examined;
    let from = context.len();
    mark(context, label);
    push_all(context, entries, names);
    let to = context.len();
    Replies {
        kept: Reply::Committed(from, to),
        shown: Reply::Committed(from, to),
    }
}

/// Marks the label and enters copies of the entries, in whose way there is nothing.
pub(crate) fn enter_copies(
    alloc: Global,
    context: &mut Context,
    examined: &Examined,
) -> Result<(), AllocError>
    requires free { IsFree (labelled context.old) examined.now }
    ensures entries { OnOk result (context.new.entries ≡ context.old.entries ++ declared_entries examined.now.offer.declarations) }
    ensures labels { OnOk result (context.new.labels ≡ context.old.labels ++ marks examined.now.offer.label (length context.old.entries)) }
{
    let entries = copy_entries(alloc, &examined.entries)?;
    let names = copy_all(alloc, &examined.names)?;
    let label = match &examined.label {
        Some(label) => Some(copies_of(&label.kept)?),
        None => None,
    };
    context.reserve(entries.len(), 1)?;
    mark(context, label);
    push_all(context, entries, names);
    Ok(())
}

fn copy_entries(alloc: Global, entries: &[Entry]) -> Result<Vec<Entry>, AllocError>
    ensures { IfOk result (λ v. map global_of v.items ≡ map global_of entries.now) }
{
    let mut copies = Vec::new(alloc);
    for entry in entries {
        copies.push(entry.copy(alloc)?)?;
    }
    Ok(copies)
}

// Marks a label that does not exist yet, where there is one.
fn mark(context: &mut Context, label: Option<Copies>)
    requires fresh { IfSome label (λ c. label_place c.kept context.old.labels ≡ None) }
    requires room { 0 < context.old.spare_labels }
    ensures entries { context.new.entries ≡ context.old.entries }
    ensures labels { context.new.labels ≡ context.old.labels ++ marks (option_map (λ c. c.kept) label) (length context.old.entries) }
    ensures spare { context.new.spare_entries ≡ context.old.spare_entries }
{
    match label {
        Some(label) => context.mark(label.kept),
        None => {}
    }
}

// Adds entries, with copies of their names, after those that there are.
fn push_all(context: &mut Context, entries: Vec<Entry>, names: Vec<Copies>)
    requires names { map (λ c. c.kept) names.items ≡ map (λ e. e.name) (map global_of entries.items) }
    requires free { first_clash context.old.entries (map global_of entries.items) ≡ None }
    requires within { globals_within (map global_of entries.items) ≡ true }
    requires room { length entries.items ≤ context.old.spare_entries }
    ensures entries { context.new.entries ≡ context.old.entries ++ map global_of entries.items }
    ensures labels { context.new.labels ≡ context.old.labels }
{
    let mut entries = entries.into_iter();
    let mut names = names.into_iter();
    while let Some(entry) = entries.next() {
        match names.next() {
            Some(name) => context.push(entry, name.kept),
            None => unreachable!(),
        }
    }
}

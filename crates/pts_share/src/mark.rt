// The entries of the history that the lock sees. No value of these types is made: they are there for contracts.

use pts_core::{Event, Reply, System};
use std::marker::Model;
use std::snapshot::Snapshot;

/// An event of the past, as contracts see those of a core.
pub struct PastEvent {
    session: u32,
    front: usize,
    asked: Snapshot<Event>,
    reply: Snapshot<Reply>,
}

impl Model for PastEvent {
    ghost use Rattle.std.specs.Coded.{codes};
    ghost use Rattle.pts_terms.specs.Code.{coded_tree};
    ghost use Rattle.pts_core.specs.contracts.finding.Finding as f;
    ghost use Rattle.pts_core.specs.contracts.reply.Reply as r;
    ghost use Rattle.pts_core.specs.Histories as h;
    ghost use Rattle.pts_core.specs.Events.{kept_event};

    ghost Value = { h.Past };

    ghost coded = { Prim.hlevel (codes, coded_tree, f.the_row.coded, r.the_row.coded) };

    ghost view = { λ p. kept_event p.session p.front p.asked.value p.reply.value };
}

/// What the lock's history has: the system of the core, once and first, and then the core's events.
pub enum Mark {
    System(System),
    Event(PastEvent),
}

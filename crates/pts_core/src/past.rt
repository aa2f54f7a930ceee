// Events of the past.

use crate::event::Event;
use crate::reply::Reply;
use std::marker::Model;
use std::mem::size_of;
use std::snapshot::Snapshot;

/// An event of the history. What was offered is known to contracts alone.
#[derive(Drop)]
pub(crate) struct Past {
    pub(crate) session: u32,
    pub(crate) front: usize,
    pub(crate) asked: Snapshot<Event>,
    pub(crate) reply: Reply,
}

// A history of 4,000,000 events is to take no more than 256 MB.
const _: () = prove!(size_of::<Past>() <= 64);

impl Model for Past {
    ghost use Rattle.std.specs.Coded.{codes};
    ghost use Rattle.pts_terms.specs.Code.{coded_tree};
    ghost use Rattle.pts_core.specs.contracts.finding.Finding as f;
    ghost use Rattle.pts_core.specs.contracts.reply.Reply as r;
    ghost use Rattle.pts_core.specs.Histories as h;
    ghost use Rattle.pts_core.specs.Events.{kept_event};

    ghost Value = { h.Past };

    ghost coded = { Prim.hlevel (codes, coded_tree, f.the_row.coded, r.the_row.coded) };

    ghost view = { λ p. kept_event p.session p.front p.asked.value p.reply };
}

// A core as its lock has it.

use crate::mark::Mark;
use pts_core::Core;
use pts_lock::Staged;

/// A core behind a lock.
#[derive(Drop)]
pub struct Guarded {
    pub core: Core,
}

impl Staged for Guarded {
    ghost use Rattle.pts_share.specs.Marks.{marks};

    type Entry = Mark;

    ghost history = { λ g. marks g.core.system g.core.history };

    fn stage(&self) -> u64 {
        self.core.is_legal();
        self.core.events() + 1
    }
}

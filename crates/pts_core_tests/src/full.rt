// A core with as many entries as it may have.

use crate::makers::{VALID, empty, numbered, offer};
use crate::replies::{replies, says, sees};
use pts_core::Core;
use std::alloc::Global;

// How many entries a core has at most.
const ENTRIES: usize = 200_000;

fn is_filled(alloc: Global, core: &mut Core) -> bool {
    let declarations = numbered(alloc, ENTRIES);
    says(
        alloc,
        &offer(alloc, core, declarations, None),
        "committed 0 200000",
    )
}

// Names that exist are said before that there is no room, and no entries need none.
fn refuses_more(alloc: Global, core: &mut Core) -> bool {
    replies(alloc, core, "A", VALID, None, "full 200000")
        && replies(alloc, core, "A n7", VALID, None, "clash n7 7")
        && replies(alloc, core, "", VALID, None, "committed 200000 200000")
        && sees(alloc, core, "seen 200000")
}

fn is_full_then(alloc: Global) -> Option<bool> {
    let mut core = empty(alloc)?;
    Some(is_filled(alloc, &mut core) && refuses_more(alloc, &mut core))
}

#[test]
fn a_core_has_at_most_200000_entries(rt: HostRuntime) {
    assert!(rt; is_full_then(rt.alloc()) == Some(true));
}

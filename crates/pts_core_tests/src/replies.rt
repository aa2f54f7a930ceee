// Replies as they are read.

use crate::makers::{assumptions, look, offer};
use pts_core::{Core, Reply};
use std::alloc::{AllocError, Global};

/// The words of a reply.
pub fn words(alloc: Global, reply: &Reply) -> Result<String, AllocError> {
    match reply {
        Reply::Seen(entries) => format!(in alloc; "seen {entries}"),
        Reply::Committed(from, to) => format!(in alloc; "committed {from} {to}"),
        Reply::Faulty(name, node, why) => format!(in alloc; "faulty {name} {node} {why}"),
        Reply::Clash(name, place) => format!(in alloc; "clash {name} {place}"),
        Reply::Loaded(label, place) => format!(in alloc; "loaded {label} {place}"),
        Reply::ContextFull(entries) => format!(in alloc; "full {entries}"),
    }
}

/// Whether there is a reply with these words.
pub fn says(alloc: Global, reply: &Option<Reply>, wanted: &str) -> bool {
    match reply {
        Some(reply) => match words(alloc, reply) {
            Ok(words) => words.as_str() == wanted,
            Err(_) => false,
        },
        None => false,
    }
}

/// Whether a submission of these names has this reply.
pub fn replies(
    alloc: Global,
    core: &mut Core,
    names: &str,
    claim: usize,
    label: Option<&str>,
    wanted: &str,
) -> bool {
    let declarations = assumptions(alloc, names, claim);
    says(alloc, &offer(alloc, core, declarations, label), wanted)
}

/// Whether a look has this reply.
pub fn sees(alloc: Global, core: &mut Core, wanted: &str) -> bool {
    says(alloc, &look(core), wanted)
}

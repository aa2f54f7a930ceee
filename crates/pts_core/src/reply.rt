// What the core replies.

ghost use Rattle.std.specs.Prelude.{◌≡◌, IfOk};

use pts_names::Name;
use pts_rules::Why;
use std::alloc::AllocError;
use std::fmt;
use std::fmt::{Display, Formatter};

/// The reply to an event. Places count entries from the first one on.
#[derive(Debug, Drop)]
pub enum Reply {
    /// To a look: so many entries there are.
    Seen(usize),
    /// The entries of the offer have the places from the first number up to the second, which is not one of them.
    Committed(usize, usize),
    /// The record of the declaration of that name has that fault, at that node.
    Faulty(Name, usize, Why),
    /// The name exists already, at that place.
    Clash(Name, usize),
    /// The label exists already, at that number of entries.
    Loaded(Name, usize),
    /// So many entries there are, and with those of the offer there would be more than 200,000.
    ContextFull(usize),
}

impl Reply {
    /// The same reply again.
    ///
    /// # Errors
    ///
    /// Out of memory.
    pub fn copy(&self) -> Result<Reply, AllocError>
        ensures { IfOk result (λ r. r ≡ self.now) }
    {
        Ok(match self {
            Reply::Seen(entries) => Reply::Seen(*entries),
            Reply::Committed(from, to) => Reply::Committed(*from, *to),
            Reply::Faulty(name, node, why) => Reply::Faulty(name.copy()?, *node, *why),
            Reply::Clash(name, place) => Reply::Clash(name.copy()?, *place),
            Reply::Loaded(label, place) => Reply::Loaded(label.copy()?, *place),
            Reply::ContextFull(entries) => Reply::ContextFull(*entries),
        })
    }
}

impl Display for Reply {
    ghost use Rattle.std.specs.Prelude.{Some};
    ghost use Rattle.pts_core.specs.ReplyText.{reply_text};

    ghost output = { λ r. Some (reply_text r) };

    fn fmt<W: fmt::Write>(&self, f: &mut Formatter<W>) -> fmt::Result {
        match self {
            Reply::Seen(entries) => write!(f, "seen {entries}"),
            Reply::Committed(from, to) => write!(f, "committed {from} {to}"),
            Reply::Faulty(name, node, why) => write!(f, "refused Faulty {name} {node} {why}"),
            Reply::Clash(name, place) => write!(f, "refused Clash {name} {place}"),
            Reply::Loaded(label, place) => write!(f, "refused Loaded {label} {place}"),
            Reply::ContextFull(entries) => write!(f, "refused ContextFull {entries}"),
        }
    }
}

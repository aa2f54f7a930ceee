// What a core is asked.

use crate::examined::Examined;

/// An event, with the number of the session that asks for it.
#[derive(Drop)]
pub enum Event {
    /// How many entries are there?
    Look(u32),
    /// What was examined is to enter.
    Submit(u32, Examined),
}

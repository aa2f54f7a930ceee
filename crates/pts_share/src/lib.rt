//! A core that several threads share, behind a lock whose turns go by tickets. Each session has a pass, with which it asks.
//! The core has one history. Each call is one event of it, and gets the answer that its definition gives at its place there.
//! Stands on the lock and on the core.
#![tactic(auto)]

mod guarded;
mod laws;
mod mark;
mod pass;
mod port;
mod shared;

pub use guarded::Guarded;
pub use laws::loans_differ;
pub use mark::{Mark, PastEvent};
pub use pass::{Pass, seen, session};
pub use port::SharedPort;
pub use pts_core::{Answer, Core, Examined, Port, PortFault};
pub use shared::Shared;

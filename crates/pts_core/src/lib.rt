//! The core: the one front that sessions share, to which they add what they have declared, and the history of that.
//! Each reply is that of its definition, and the front stays legal in the core's system.
//! Stands on the checker.
#![tactic(auto)]

mod copies;
mod entering;
mod event;
mod examined;
mod examining;
mod finding;
mod inner;
mod keeper;
mod laws;
mod obstacle;
mod offer;
mod past;
mod port;
mod reply;

pub use event::Event;
pub use examined::{Examined, examine, examine_sound};
pub use finding::Finding;
pub use inner::{first_inner, is_inner};
pub use keeper::{Core, EVENTS};
pub use laws::{earlier_fronts_are_legal, fronts_stay, histories_grow, sound_offers_enter};
pub use offer::{Offer, Template};
pub use port::{Answer, CorePort, Port, PortFault, Receipt};
pub use pts_ctx::{Context, Entry, System};
pub use pts_names::{List, Name};
pub use pts_record::Declaration;
pub use pts_rules::Why;
pub use reply::Reply;

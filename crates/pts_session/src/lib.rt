//! Sessions: a base, which is a front of the core, a draft over it and a budget, and what each line does to these.
//! A line and an answer come to what the definitions say, and after a lack of memory a line has changed nothing.
//! Stands on drafts, on queries, on the reader of lines, and on the core and on rounds, in which sessions play.
#![tactic(auto)]

mod asking;
mod declaring;
mod laws;
mod moving;
mod players;
mod port_table;
mod renaming;
mod replies;
mod request;
mod session;
mod table;
mod through;
mod world;

pub use laws::{
    answers_have_one_outcome, answers_move_the_base, lines_ask_for_their_state,
    lines_have_one_outcome, lines_keep_the_base,
};
pub use players::{SessionCore, SessionPlayer};
pub use port_table::PortTable;
pub use pts_core::{Answer, Examined, PortFault};
pub use pts_names::Text;
pub use pts_play::Local;
pub use request::{Awaited, Request};
pub use session::{BUDGET, Session};
pub use table::CoreTable;
pub use world::World;

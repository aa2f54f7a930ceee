//! The loop that plays an input: it reads lines, groups them into rounds, and prints.
//! What is printed is what the play of the input prints, whatever the sessions, the core and the rounds are.
//! Stands on `pts_play` for rounds and on `pts_io` for lines.
#![tactic(auto)]

mod game;
mod input;
mod line;
mod replay;
mod reply;

pub use game::Game;
pub use input::play_input;
pub use replay::Replay;

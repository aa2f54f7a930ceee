//! Sessions that play over one core, in rounds.
//! A round in the code is a round of the definitions, whatever the sessions and the core are; rounds that were served are rounds.
//! Stands on `pts_names` for texts.
#![tactic(auto)]

mod alone;
mod laws;
mod lines;
mod machines;
mod round;
mod seat;
mod text;

pub use alone::run_through;
pub use laws::{
    Rounds, lines_say_one_thing, played_rounds_are_turns, rounds_are_merged, rounds_are_turns,
    served_inputs_are_played,
};
pub use lines::add_line;
pub use machines::{Local, Player, Table};
pub use round::play_round;
pub use seat::Seat;
pub use text::{close_round, done_line, order_line, reply_line};

//! A board that threads share: they claim shards of one spec from one supply, and deliver books in turns that make one history.
//!
//! `Board::new` gives a board and its seats, one for each thread. A thread asks its seat's number of the next shard (`claim`), until there is
//! none, and hands in the book of each (`deliver`); what it is refused comes back with the book. `latest` is a copy of what all have handed in
//! so far, and `note` and `learn` carry what one seat has seen to another. `close` takes the board and all its seats, and has the book of all.
#![tactic(auto)]

mod board;
mod claims;
mod closing;
mod error;
mod gate;
mod history;
mod notes;
mod plays;
mod rule;
mod seat;
mod seating;
mod turns;
mod workers;

pub use board::{Board, is_plan};
pub use closing::Closed;
pub use error::{
    BoardError, DeliverError, DeliverErrorKind, LatestError, MAX_SEATS, MAX_SHARDS, MAX_TURNS,
};
pub use gate::{Gate, OpenGate};
pub use history::{Call, Entry, Facts, Receipt};
pub use seat::{Note, Seat};
pub use workers::Workers;

//! The module `tally`: sums that several threads add to and that never pass 2^64 - 1, and observing values in pieces, with a
//! worker thread for each piece.
#![tactic(auto)]

mod book;
mod error;
mod gate;
mod pieces;
mod snapshot;
mod tally;

pub use book::{Book, Event, Reply};
pub use error::TallyError;
pub use gate::{Gate, OpenGate};
pub use pieces::{observe_all, observe_all_gauge};
pub use tally::{Share, Tally, TallyKey};

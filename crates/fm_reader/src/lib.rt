//! The reader of documents: from a text back to the exposition that it is the document of.
#![tactic(auto)]

pub mod difference;
pub mod error;
mod lines;
mod machine;
mod parts;
mod reading;
mod samples;

pub use difference::{Difference, first_difference};
pub use error::ReadError;
pub use reading::read;

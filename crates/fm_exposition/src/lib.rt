//! Expositions and their parts, when two are equal, and the writing of a text.
#![tactic(auto)]

mod equality;
pub mod exemplar_limit;
pub mod exposition;
mod finding;
pub mod make;
pub mod parts;
pub mod store;
mod writing;

pub use exposition::{CommonLabels, Exemplar, Exposition, FamilySamples, Sample, Value};
pub use store::SampleStore;
pub use writing::write_text;

//! Reads the single lines of a document.

mod exemplar;
pub(crate) mod heads;
mod labels;
pub(crate) mod sample;
pub(crate) mod shared;
mod values;

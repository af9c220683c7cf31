//! The rules of a registry: what its calls are and when each is refused, histories of accepted calls and the trees that read them, and
//! the tests of names and labels.
#![tactic(auto)]

pub mod constant_labels;
mod error;
pub mod label_names;
pub mod lists;
pub mod names;
pub mod namespace;

pub use error::RegistryError;

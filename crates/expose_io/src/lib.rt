//! What `expose` reads, makes and prints: the word that names a scene; the metrics of each scene; the document or the fault, and the
//! status.
#![tactic(auto)]

pub mod histogram;
pub mod output;
pub mod scene;
pub mod states;
pub mod tally;
pub mod tree;

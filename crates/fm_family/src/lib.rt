//! Families: metrics of one type by label set, each made when its label set is first used.
#![tactic(auto)]

pub mod factory;
pub mod family;
pub mod members;
pub mod pairs;
pub mod vec;

pub use factory::{DefaultFactory, MetricFactory};
pub use family::{DefaultFamily, Family};
pub use members::FamilyCore;
pub use pairs::{PairFamily, with_pairs};
pub use vec::collected::{Collected, CollectedMembers, Collector};
pub use vec::hashing::LabelHashing;
pub use vec::metric_vec::MetricVec;

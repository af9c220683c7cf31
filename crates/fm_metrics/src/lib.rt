//! Metrics of one member: counters, gauges, state sets, infos and unknowns. Some are shared by threads, without a lock but for
//! exemplars; some keep the value they were made with; and some ask for it.
#![tactic(auto)]

pub mod counter;
pub mod exemplar_counter;
pub mod gauge;
pub mod info;
pub mod labeled;
pub mod named_states;
pub mod source;
pub mod state_set;
pub mod unknown;

pub use counter::{ConstCounter, Counter};
pub use exemplar_counter::ExemplarCounter;
pub use gauge::{ConstGauge, Gauge, InProgress};
pub use info::Info;
pub use labeled::Labeled;
pub use named_states::NamedStates;
pub use state_set::{ConstStateSet, StateSet, StateSetValue};
pub use unknown::Unknown;

//! Registries of metrics, with their subsystems, and the registry that a whole program shares. `main` owns that one and passes
//! references to it: this library has no global state.

mod global;
mod listed;
mod listing;
mod registering;
mod texts;
mod tree;

pub use fm_raw::{MetricType, Unit};
pub use fm_registry_rules::RegistryError;
pub use global::{
    GlobalRegistry, SetRegistryError, register, register_metric, register_with_unit,
    set_global_registry, with_global_registry, with_global_registry_mut,
};
pub use listed::ListedMetric;
pub use registering::{Register, register_global};
pub use texts::{add, add_with_unit};
pub use tree::{
    Registry, RegistryBuilder, RegistryCall, RegistrySubsystemBuilder, Subsystem, register_at,
};

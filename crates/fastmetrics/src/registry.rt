//! Registries of metrics, with their subsystems, roots that need no box, and the registry that a whole program shares.
//!
//! <!-- cut: crates/calling/src/many.rt -->
//! ```rust
//! let mut root = Root::new(rt)?;
//! for name in ["mail", "images", "reports", "backups", "imports"] {
//!     let work = make_work(&mut root, name)?;
//!     work.begun.inc();
//!     work.running.inc();
//! }
//! root.encode(out)?;
//! ```

mod calls;
mod description;
mod fitting;
mod kinds;
mod maker;
mod paths;
mod root;

pub use description::Description;
pub use fm_core::registry::{
    GlobalRegistry, ListedMetric, MetricType, Register, Registry, RegistryBuilder, RegistryCall,
    RegistryError, RegistrySubsystemBuilder, SetRegistryError, Subsystem, Unit, add, add_with_unit,
    register, register_global, register_metric, register_with_unit, set_global_registry,
    with_global_registry, with_global_registry_mut,
};
pub use kinds::{
    Constant, CounterVec, FixedCounterVec, FixedGaugeVec, GaugeHistogramVec, GaugeVec, Here,
    HistogramVec, Holds, In, Itself, Metric, NamedFamily, NoOwn, OneOf, Scalar, VecOf,
};
pub use maker::{Made, Maker, Waiter};
pub use paths::{add_at, add_subsystem_at};
pub use root::{Root, Shown};

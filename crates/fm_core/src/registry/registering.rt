//! Values that register their metrics themselves.
ghost use Rattle.std.specs.Prelude.{Result, ⊤};
ghost use Rattle.fm_registry_rules.specs.Tree.{Tree};
ghost use Rattle.fm_registry_rules.specs.declared.error.RegistryError.{RegistryError as Refusal};
ghost use Rattle.fm_core.specs.Locked.{RegistersLocked};

use super::global::GlobalRegistry;
use crate::registry::{Registry, RegistryError};
use std::alloc::Global;
use std::sync::Wait;
use std::sync::atomic::Ordering::SeqCst;

/// A value that registers its metrics itself, in a registry of metrics of the type `M`, which is `Box<dyn
/// EncodeMetric>` where a program boxes them.
///
/// Implement it for each `M`, as `impl<M: Drop> Register<M> for MyMetrics<M>`, with metrics that `main` boxed: a method
/// that boxes them itself, or a type with boxes, can't be proved.
///
/// <!-- cut: tests/unit/src/fastmetrics_threads.rt.in -->
/// ```rust
/// impl Register<ConstGauge<i64>> for Slow<'_> {
///     // ..
///         let (name, help) = (String::from_str(alloc, "g")?, String::from_str(alloc, "H")?);
///         registry.add_metric(name, help, MetricType::Gauge, None, ConstGauge::new(5i64))
/// ```
pub trait Register<M> {
    ghost use Rattle.fm_core.specs.HasHistory.{HasHistory};

    /// Holds of the registry before and after a call, and of its result. By default it holds of all.
    ghost registers: { Self → Tree M → Tree M → Result (Unit {0}) Refusal → Type 0 } = { λ _ _ _ _. ⊤ };

    /// Registers the metrics. The implementation says which of them are registered after an error.
    fn register(&self, alloc: Global, registry: &mut Registry<M>) -> Result<(), RegistryError>
        ensures sound { HasHistory registry.old → HasHistory registry.new }
        ensures registers { registers self.now registry.old registry.new result };
}

/// Registers the metrics of `metrics` in the global registry. It waits for the lock.
pub fn register_global<R: Wait, M: Drop, T: Register<M>>(
    rt: &R,
    alloc: Global,
    global: &GlobalRegistry<M>,
    metrics: &T,
) -> Result<(), RegistryError>
    ensures { RegistersLocked (T.registers metrics.now) result }
{
    let mut protected = global.protected.write(rt);
    protected.is_initialized.store(true, SeqCst);
    metrics.register(alloc, &mut protected.registry)
}

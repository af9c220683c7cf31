//! The registry that a whole program shares, protected by a lock: reading and changing it, and registering in it.
ghost use Rattle.std.specs.Prelude.{◌≡◌, Some, None};
ghost use Rattle.std.specs.Fn.{FnOnceTakesAt, FnOnceTakesAtMut, FnOnceReturnsAt, FnOnceReturnsAtMut};
ghost use Rattle.fm_core.specs.View.{asked_metric};
ghost use Rattle.fm_core.specs.HasHistory.{HasHistory};
ghost use Rattle.fm_core.specs.Registers.{Registers};
ghost use Rattle.fm_core.specs.Locked.{RegistersLocked};

use crate::registry::{MetricType, Registry, RegistryError, Unit};
use fm_encoder::EncodeMetric;
use fm_encoder::collector::type_of;
use std::alloc::Global;
use std::marker::Model;
use std::sync::atomic::AtomicBool;
use std::sync::atomic::Ordering::SeqCst;
use std::sync::{RwLock, Wait};
use thiserror::Error;

/// The registry can't be set: one was set or used before.
///
/// <!-- cut: tests/unit/src/fastmetrics_threads.rt.in -->
/// ```rust
/// if set_global_registry(rt, global, Registry::default()).is_ok() {
///     set = set.saturating_add(1);
/// }
/// ```
#[derive(Clone, Copy, Debug, PartialEq, Eq, Error)]
#[error("Global registry has already been initialized")]
pub struct SetRegistryError;

// The registry protected by the lock, and whether it was set or used.
#[derive(Drop)]
pub(crate) struct Protected<M> {
    pub(crate) registry: Registry<M>,
    pub(crate) is_initialized: AtomicBool,
}

impl<M> Model for Protected<M> {
    ghost use Rattle.fm_registry_rules.specs.Tree.{Tree};
    ghost use Rattle.fm_registry_rules.specs.inside.TreeCode.{tree_code};

    ghost Value = { Tree M };

    ghost coded = { tree_code M.code };

    ghost view = { λ k. k.registry };

    ghost use Rattle.fm_core.specs.inside.Protected.{IsSound};

    ghost invariant = { IsSound };
}

impl<M> Protected<M> {
    ghost use Rattle.std.specs.Prelude.{◌≡◌};
    ghost use Rattle.fm_core.specs.HasHistory.{HasHistory};

    // The registry. It counts as used: no other can be set.
    fn used(&self) -> &Registry<M>
        ensures shown { result.now ≡ self.now }
        ensures sound { HasHistory result.now }
    {
        self.is_initialized.store(true, SeqCst);
        &self.registry
    }
}

/// A registry protected by a lock, which several threads may read at once. It is empty until one is set. The first use
/// fixes it: from then on `set_global_registry` fails.
///
/// <!-- cut: crates/calling/src/globals.rt -->
/// ```rust
/// let global: GlobalRegistry = GlobalRegistry::new();
/// set_global_registry(&rt, &global, named(alloc)?.build()?)?;
///
/// let requests = Counter::<u64>::try_default(rt, alloc)?;
/// let metric: Box<dyn EncodeMetric> = Box::new(alloc, requests.clone()?)?;
/// let (name, help) = texts(alloc)?;
/// register_metric(&rt, &global, name, help, None, metric)?;
/// ```
#[derive(Drop)]
pub struct GlobalRegistry<M: Drop = Box<dyn EncodeMetric>> {
    pub(crate) protected: RwLock<Protected<M>>,
}

impl<M: Drop> GlobalRegistry<M> {
    /// A registry that was neither set nor used. It takes no memory.
    pub fn new() -> GlobalRegistry<M> {
        GlobalRegistry {
            protected: RwLock::new(Protected {
                registry: Registry::default(),
                is_initialized: AtomicBool::new(false),
            }),
        }
    }
}

/// Sets the registry, once. Fails if a registry was set or used before, and then drops `registry`. It waits for the
/// lock.
pub fn set_global_registry<R: Wait, M: Drop>(
    rt: &R,
    global: &GlobalRegistry<M>,
    registry: Registry<M>,
) -> Result<(), SetRegistryError>
    requires { HasHistory registry }
{
    let mut protected = global.protected.write(rt);
    if protected.is_initialized.load(SeqCst) {
        return Err(SetRegistryError);
    }
    *protected = Protected {
        registry,
        is_initialized: AtomicBool::new(true),
    };
    Ok(())
}

/// Calls `f` with the registry, under the lock for reading, which other threads may hold too, and returns its result.
/// It waits while another thread changes the registry. `f` must not change the same registry, nor read it again while
/// another thread may want to change it: it would wait for ever.
pub fn with_global_registry<R: Wait, M: Drop, T, F: FnOnce(&Registry<M>) -> T>(
    rt: &R,
    global: &GlobalRegistry<M>,
    f: F,
) -> T
    requires { (registry : _) → HasHistory registry → FnOnceTakesAt F.FnOnce f registry }
    ensures { (registry : _) × HasHistory registry × FnOnceReturnsAt F.FnOnce f registry result }
{
    let protected = global.protected.read(rt);
    f(protected.used())
}

/// Calls `f` with the registry, under the lock, to change it, and returns its result. It waits for the lock. `f` must
/// not use the same registry by another call: it would wait for ever.
pub fn with_global_registry_mut<R: Wait, M: Drop, T, F: FnOnce(&mut Registry<M>) -> T>(
    rt: &R,
    global: &GlobalRegistry<M>,
    f: F,
) -> T
    requires takes { (registry : _) → HasHistory registry → FnOnceTakesAtMut F.FnOnce f registry }
    requires leaves { (old : _) (result : T) (new : _) → HasHistory old
        → FnOnceReturnsAtMut F.FnOnce f old result new
        → HasHistory new }
    ensures { (old : _) × (new : _) × HasHistory old × FnOnceReturnsAtMut F.FnOnce f old result new }
{
    let mut protected = global.protected.write(rt);
    protected.is_initialized.store(true, SeqCst);
    f(&mut protected.registry)
}

impl<M: Drop> Protected<M> {
    // Registers a metric of this type in the registry. From then on none can be set.
    fn add_metric(
        &mut self,
        name: String,
        help: String,
        metric_type: MetricType,
        unit: Option<Unit>,
        metric: M,
    ) -> Result<(), RegistryError>
        ensures registers { Registers (λ t. t ≡ metric_type) (asked_metric name help unit metric)
            self.old self.new result }
        ensures sound { HasHistory self.old }
    {
        self.is_initialized.store(true, SeqCst);
        self.registry
            .add_metric(name, help, metric_type, unit, metric)
    }
}

/// Registers a metric in the global registry, as `Registry::register_metric` does. The metric's type is read before the
/// lock is taken. It waits for the lock.
pub fn register_metric<R: Wait>(
    rt: &R,
    global: &GlobalRegistry,
    name: String,
    help: String,
    unit: Option<Unit>,
    metric: Box<dyn EncodeMetric>,
) -> Result<(), RegistryError>
    ensures { RegistersLocked (Registers (λ t. types metric t)
        (asked_metric name help unit metric)) result }
{
    let metric_type = type_of(&metric);
    let mut protected = global.protected.write(rt);
    protected.add_metric(name, help, metric_type, unit, metric)
}

/// Like `register_metric`, with a unit.
pub fn register_with_unit<R: Wait>(
    rt: &R,
    global: &GlobalRegistry,
    name: String,
    help: String,
    unit: Unit,
    metric: Box<dyn EncodeMetric>,
) -> Result<(), RegistryError>
    ensures { RegistersLocked (Registers (λ t. types metric t)
        (asked_metric name help (Some unit) metric)) result }
{
    register_metric(rt, global, name, help, Some(unit), metric)
}

/// Like `register_metric`, without a unit.
pub fn register<R: Wait>(
    rt: &R,
    global: &GlobalRegistry,
    name: String,
    help: String,
    metric: Box<dyn EncodeMetric>,
) -> Result<(), RegistryError>
    ensures { RegistersLocked (Registers (λ t. types metric t)
        (asked_metric name help None metric)) result }
{
    register_metric(rt, global, name, help, None, metric)
}

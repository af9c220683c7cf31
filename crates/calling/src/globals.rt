//! The registry that a whole program shares: it is set, metrics are registered in it, and its document is written.
ghost use Rattle.fastmetrics.specs.HasHistory.{HasHistory};

use crate::documents::body;
use fastmetrics::encoder::EncodeMetric;
use fastmetrics::format::text::EncodeError;
use fastmetrics::metrics::counter::Counter;
use fastmetrics::raw::TryDefault;
use fastmetrics::registry::{
    GlobalRegistry, Registry, RegistryBuilder, RegistryError, register_metric, set_global_registry,
    with_global_registry, with_global_registry_mut,
};
use std::alloc::{AllocError, Global};
use std::io::Write;
use std::sync::Wait;

/// Registers a metric that `main` boxed, on any thread. It waits for the lock.
pub fn share<R: Wait>(
    rt: &R,
    global: &GlobalRegistry,
    name: String,
    help: String,
    metric: Box<dyn EncodeMetric>,
) -> Result<(), RegistryError> {
    with_global_registry_mut(
        rt,
        global,
        |registry: &mut Registry| -> Result<(), RegistryError>
            requires { HasHistory registry.old }
            ensures { HasHistory registry.new }
        { registry.register(name, help, metric) },
    )
}

/// The document of the registry that the program shares, in memory: the lock is free before a byte is written.
pub fn shared_body<R: Wait>(
    rt: &R,
    alloc: Global,
    global: &GlobalRegistry,
) -> Result<Vec<u8>, EncodeError> {
    with_global_registry(
        rt,
        global,
        |registry: &Registry| -> Result<Vec<u8>, EncodeError>
            requires { HasHistory registry.now }
        { body(alloc, registry) },
    )
}

// The builder of a registry whose metrics are printed after `myapp_`.
fn named(alloc: Global) -> Result<RegistryBuilder, RegistryError> {
    let namespace = String::from_str(alloc, "myapp")?;
    Registry::builder().with_namespace(namespace)
}

// The name and the help of the counter.
fn texts(alloc: Global) -> Result<(String, String), AllocError> {
    let name = String::from_str(alloc, "requests")?;
    let help = String::from_str(alloc, "Requests to the server")?;
    Ok((name, help))
}

// Writes the document of the registry that the program shares.
fn write_shared<R: Wait, W: Write>(
    rt: &R,
    alloc: Global,
    global: &GlobalRegistry,
    out: &mut W,
) -> anyhow::Result<()> {
    let body = shared_body(rt, alloc, global)?;
    out.write_all(body.as_slice())?;
    Ok(())
}

/// Sets the registry that the program shares, counts in it, and writes its document.
pub fn show<R: Wait + Copy + Drop, W: Write>(
    rt: R,
    alloc: Global,
    out: &mut W,
) -> anyhow::Result<()> {
    let global: GlobalRegistry = GlobalRegistry::new();
    set_global_registry(&rt, &global, named(alloc)?.build()?)?;

    let requests = Counter::<u64>::try_default(rt, alloc)?;
    let metric: Box<dyn EncodeMetric> = Box::new(alloc, requests.clone()?)?;
    let (name, help) = texts(alloc)?;
    register_metric(&rt, &global, name, help, None, metric)?;

    requests.inc();
    write_shared(&rt, alloc, &global, out)
}

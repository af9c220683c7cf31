//! Where metrics are registered.
ghost use Rattle.fastmetrics.specs.HasHistory.{HasHistory};

use fastmetrics::encoder::EncodeMetric;
use fastmetrics::raw::Unit;
use fastmetrics::registry::{
    Registry, RegistryBuilder, RegistryCall, RegistryError, add_at, add_subsystem_at,
};
use std::alloc::{AllocError, Global};

// One owned label.
fn one_label(alloc: Global, name: &str, value: &str) -> Result<Vec<(String, String)>, AllocError> {
    let name = String::from_str(alloc, name)?;
    let value = String::from_str(alloc, value)?;
    Ok(vec![in alloc; (name, value)]?)
}

/// The builder of a root whose metrics are printed after `myapp_`, each with the label `env="prod"`. `main` goes on with
/// `let mut registry = production(alloc)?.build()?;`.
pub fn production(alloc: Global) -> Result<RegistryBuilder, RegistryError> {
    let namespace = String::from_str(alloc, "myapp")?;
    let labels = one_label(alloc, "env", "prod")?;
    Registry::builder()
        .with_namespace(namespace)?
        .with_const_labels(labels)
}

/// Registers a metric in seconds in the subsystem of this name, which is made if it is not there.
pub fn register_in_seconds(
    registry: &mut Registry,
    below: String,
    name: String,
    help: String,
    metric: Box<dyn EncodeMetric>,
) -> Result<(), RegistryError>
    requires { HasHistory registry.old }
    ensures { HasHistory registry.new }
{
    registry
        .subsystem(below)?
        .register_with_unit(name, help, Unit::Seconds, metric)
}

/// Registers a metric two subsystems below the registry, of which the first has a label of its own. Both are made if they are not
/// there. It needs no proof.
pub fn register_queries(
    alloc: Global,
    registry: &mut Registry,
    metric: Box<dyn EncodeMetric>,
) -> Result<(), RegistryError>
    requires { HasHistory registry.old }
    ensures { HasHistory registry.new }
{
    add_subsystem_at(alloc, registry, &[], "mysql", &[("engine", "innodb")])?;
    add_at(
        alloc,
        registry,
        &["mysql", "pool"],
        "queries",
        "Queries",
        metric,
    )
}

// The call that makes the subsystem of the database.
fn make_database(alloc: Global) -> Result<RegistryCall, AllocError> {
    let name = String::from_str(alloc, "database")?;
    Ok(RegistryCall::Subsystem {
        path: Vec::new(alloc),
        name,
        labels: Vec::new(alloc),
    })
}

// The call that registers a metric of the queries there.
fn register_in_database(
    alloc: Global,
    metric: Box<dyn EncodeMetric>,
) -> Result<RegistryCall, AllocError> {
    let path = vec![in alloc; String::from_str(alloc, "database")?]?;
    let name = String::from_str(alloc, "queries")?;
    let help = String::from_str(alloc, "Queries to the database")?;
    Ok(RegistryCall::Register {
        path,
        name,
        help,
        unit: None,
        metric,
    })
}

/// Makes two calls in turn, a subsystem and a metric in it, and returns the first refusal. It needs no proof, even if the path
/// is long.
pub fn run_two(
    alloc: Global,
    registry: &mut Registry,
    metric: Box<dyn EncodeMetric>,
) -> Result<(), RegistryError>
    requires { HasHistory registry.old }
    ensures { HasHistory registry.new }
{
    let (make, register) = (make_database(alloc)?, register_in_database(alloc, metric)?);
    let calls = vec![in alloc; make, register]?;
    for reply in registry.run(calls)? {
        reply?;
    }
    Ok(())
}

//! Registering metrics by texts.
ghost use Rattle.std.specs.Prelude.{◌≡◌, None, Some, IfOk, IfErr, string_bytes};
ghost use Rattle.fm_registry_rules.specs.declared.error.RegistryError.TheVariants.{Memory};
ghost use Rattle.fm_core.specs.HasHistory.{HasHistory, Grows};
ghost use Rattle.fm_core.specs.Named.{named_metric, AddsNamed};

use crate::registry::Registry;
use fm_encoder::EncodeMetric;
use fm_raw::Unit;
use fm_registry_rules::RegistryError;
use std::alloc::Global;

// Owned copies of both texts.
fn owned(alloc: Global, name: &str, help: &str) -> Result<(String, String), RegistryError>
    ensures name { IfOk result (λ texts. string_bytes texts.0 ≡ name.now) }
    ensures help { IfOk result (λ texts. string_bytes texts.1 ≡ help.now) }
    ensures memory { IfErr result (λ e. e ≡ Memory) }
{
    let name = String::from_str(alloc, name)?;
    let help = String::from_str(alloc, help)?;
    Ok((name, help))
}

// Registers a metric by its name and its help, with or without a unit.
fn add_by_texts(
    alloc: Global,
    registry: &mut Registry,
    name: &str,
    help: &str,
    unit: Option<Unit>,
    metric: Box<dyn EncodeMetric>,
) -> Result<(), RegistryError>
    ensures registers { AddsNamed (λ t. types metric t)
        (named_metric name.now help.now unit metric) registry.old
        registry.new result }
    ensures grows { Grows registry.old registry.new }
    ensures sound { HasHistory registry.old → HasHistory registry.new }
{
    let (name, help) = owned(alloc, name, help)?;
    registry.register_metric(name, help, unit, metric)
}

/// Registers a metric by its name and its help, which are copied. It has the errors of `Registry::register`, in the same order.
///
/// It takes memory for both texts first, and fails with `Memory` if there is none. At an error the metric is dropped, and the
/// registry stays as it was.
pub fn add(
    alloc: Global,
    registry: &mut Registry,
    name: &str,
    help: &str,
    metric: Box<dyn EncodeMetric>,
) -> Result<(), RegistryError>
    ensures registers { AddsNamed (λ t. types metric t)
        (named_metric name.now help.now None metric) registry.old
        registry.new result }
    ensures grows { Grows registry.old registry.new }
    ensures sound { HasHistory registry.old → HasHistory registry.new }
{
    add_by_texts(alloc, registry, name, help, None, metric)
}

/// Like `add`, with a unit.
pub fn add_with_unit(
    alloc: Global,
    registry: &mut Registry,
    name: &str,
    help: &str,
    unit: Unit,
    metric: Box<dyn EncodeMetric>,
) -> Result<(), RegistryError>
    ensures registers { AddsNamed (λ t. types metric t)
        (named_metric name.now help.now (Some unit) metric) registry.old
        registry.new result }
    ensures grows { Grows registry.old registry.new }
    ensures sound { HasHistory registry.old → HasHistory registry.new }
{
    add_by_texts(alloc, registry, name, help, Some(unit), metric)
}

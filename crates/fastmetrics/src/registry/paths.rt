//! Calls at a path of subsystems of a registry with boxes, which are made where they are missing.
ghost use Rattle.std.specs.Prelude.{◌≡◌, ◌⊎◌, ◌++◌, ◌∷◌, [], None, Err, IfOk, map};
ghost use Rattle.fm_grammar.specs.LabelPairs.{shown_label};
ghost use Rattle.fm_registry_rules.specs.declared.error.RegistryError.TheVariants.{Memory};
ghost use Rattle.fm_registry_rules.specs.Answer.{refusal_of};
ghost use Rattle.fm_registry_rules.specs.History.{Subsystem};
ghost use Rattle.fm_registry_rules.specs.Tree.{Reads};
ghost use Rattle.fm_core.specs.HasHistory.{HasHistory, Grows};
ghost use Rattle.fm_core.specs.Calls.{seen_path, IsCall};
ghost use Rattle.fm_core.specs.Named.{named_metric};
ghost use Rattle.fastmetrics.specs.Paths.{Below, Replied, RegistersBelow, shown_path};

use crate::registry::calls::{asking, registering};
use fm_core::registry::{Registry, RegistryCall, RegistryError};
use fm_encoder::EncodeMetric;
use std::alloc::{AllocError, Global};

// Owned copies of the names on a path.
fn owned_path(alloc: Global, path: &[&str]) -> Result<Vec<String>, AllocError>
    ensures { IfOk result (λ names. seen_path names.items ≡ shown_path path.now) }
{
    let mut names = Vec::new(alloc);
    for name in path {
        names.push(String::from_str(alloc, name)?)?;
    }
    Ok(names)
}

// Asks for the subsystems on a path in turn, below the path `above`, and then makes a call. The first refusal ends it.
fn call_below<M: EncodeMetric>(
    alloc: Global,
    registry: &mut Registry<M>,
    mut above: Vec<String>,
    path: &[&str],
    call: RegistryCall<M>,
) -> Result<(), RegistryError>
    ensures calls { (b : _) → Reads registry.old b
        → Below (λ b reply t. (c : _) × IsCall M.types call c × Replied c b reply t)
        (seen_path above.items) (shown_path path.now) b (refusal_of result) registry.new }
    ensures grows { Grows registry.old registry.new }
{
    match path.split_first() {
        None => registry.run_call(call),
        Some((name, rest)) => {
            let ask = asking(alloc, &above, name, &[])?;
            above.push(String::from_str(alloc, name)?)?;
            registry.run_call(ask)?;
            call_below(alloc, registry, above, rest, call)
        }
    }
}

/// Registers a metric by its name and its help in the subsystem that the path leads to. The subsystems on the path that aren't there
/// are made, without labels of their own.
///
/// It has the errors of `subsystem_builder` for each of them in turn, and then those of `Registry::register`. It takes memory for
/// the texts first, and fails with `Memory` if there is none. At an error the metric is dropped, nothing after it is done, and the
/// subsystems that were made before it stay.
pub fn add_at(
    alloc: Global,
    registry: &mut Registry,
    path: &[&str],
    name: &str,
    help: &str,
    metric: Box<dyn EncodeMetric>,
) -> Result<(), RegistryError>
    ensures registers { ((result ≡ Err Memory) × (registry.new ≡ registry.old))
        ⊎ ((b : _) → Reads registry.old b
        → Below (RegistersBelow (shown_path path.now) (λ t. types metric t)
        (named_metric name.now help.now None metric))
        [] (shown_path path.now) b (refusal_of result) registry.new) }
    ensures grows { Grows registry.old registry.new }
    ensures sound { HasHistory registry.old → HasHistory registry.new }
{
    let names = owned_path(alloc, path)?;
    let call = registering(alloc, &names, name, help, None, metric)?;
    call_below(alloc, registry, Vec::new(alloc), path, call)
}

/// Makes the subsystem with this name at the end of a path, with these labels besides those of the registries above it, if it isn't
/// there. The subsystems on the path that aren't there are made, without labels of their own.
///
/// It has the errors of a subsystem builder for each of them in turn. It takes memory for the texts first, and fails with `Memory`
/// if there is none. At an error nothing after it is done, and the subsystems that were made before it stay.
pub fn add_subsystem_at(
    alloc: Global,
    registry: &mut Registry,
    path: &[&str],
    name: &str,
    labels: &[(&str, &str)],
) -> Result<(), RegistryError>
    ensures asks { ((result ≡ Err Memory) × (registry.new ≡ registry.old))
        ⊎ ((b : _) → Reads registry.old b
        → Below (Replied (Subsystem (shown_path path.now) name.now (map shown_label labels.now)))
        [] (shown_path path.now) b (refusal_of result) registry.new) }
    ensures grows { Grows registry.old registry.new }
    ensures sound { HasHistory registry.old → HasHistory registry.new }
{
    let names = owned_path(alloc, path)?;
    let call = asking(alloc, &names, name, labels)?;
    call_below(alloc, registry, Vec::new(alloc), path, call)
}

//! Calls of a registry, made of texts.
ghost use Rattle.std.specs.Prelude.{◌≡◌, ◌++◌, ◌∷◌, [], IfOk, map};
ghost use Rattle.fm_grammar.specs.LabelPairs.{shown_label};
ghost use Rattle.fm_core.specs.Calls.{seen_path};
ghost use Rattle.fastmetrics.specs.inside.Requests.{Registering, Asking};

use fm_core::registry::RegistryCall;
use fm_raw::Unit;
use fm_text::owned_labels;
use std::alloc::{AllocError, Global};

/// A call that registers a metric at this path.
pub(crate) fn registering<M: Drop>(
    alloc: Global,
    path: &Vec<String>,
    name: &str,
    help: &str,
    unit: Option<Unit>,
    metric: M,
) -> Result<RegistryCall<M>, AllocError>
    ensures { IfOk result (Registering (seen_path path.now.items) name.now help.now unit metric) }
{
    Ok(RegistryCall::Register {
        path: path.clone()?,
        name: String::from_str(alloc, name)?,
        help: String::from_str(alloc, help)?,
        unit,
        metric,
    })
}

/// A call that asks for a subsystem at this path.
pub(crate) fn asking<M: Drop>(
    alloc: Global,
    path: &Vec<String>,
    name: &str,
    labels: &[(&str, &str)],
) -> Result<RegistryCall<M>, AllocError>
    ensures { IfOk result (Asking (seen_path path.now.items) name.now (map shown_label labels.now)) }
{
    Ok(RegistryCall::Subsystem {
        path: path.clone()?,
        name: String::from_str(alloc, name)?,
        labels: owned_labels(alloc, labels)?,
    })
}

/// The path with a name at its end.
pub(crate) fn path_below(
    alloc: Global,
    path: &Vec<String>,
    name: &str,
) -> Result<Vec<String>, AllocError>
    ensures { IfOk result
        (λ below. seen_path below.items ≡ seen_path path.now.items ++ name.now ∷ []) }
{
    let mut below = path.clone()?;
    below.push(String::from_str(alloc, name)?)?;
    Ok(below)
}

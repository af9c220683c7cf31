//! The namespace of a subsystem.
ghost use Rattle.std.specs.Prelude.{◌≡◌, Some, IfOk};
ghost use Rattle.std.specs.Option.{option_map};
ghost use Rattle.std.specs.String.{string_bytes};
ghost use Rattle.fm_registry_rules.specs.Texts.{join_name};

use std::alloc::{AllocError, Global};

/// The namespace of a subsystem with this name: the namespace above it and the name, joined by an underscore. Fails if memory
/// runs out.
pub fn subsystem_namespace(
    alloc: Global,
    namespace: &Option<String>,
    name: &str,
) -> Result<String, AllocError>
    ensures { IfOk result
        (λ text. Some (string_bytes text)
        ≡ join_name (option_map string_bytes namespace.now) name.now) }
{
    match namespace {
        None => String::from_str(alloc, name),
        Some(namespace) => {
            let mut text = String::from_str(alloc, namespace.as_str())?;
            text.push_str("_")?;
            text.push_str(name)?;
            Ok(text)
        }
    }
}

//! The label names that a family of some type may have.
ghost use Rattle.std.specs.Prelude.{IfOk, ◌≡◌, None};
ghost use Rattle.fm_registry_rules.specs.Answer.{refusal_of};
ghost use Rattle.fm_registry_rules.specs.LabelNames.{shown_texts, IsOrMemory};
ghost use Rattle.fm_labels.specs.ReservedNames.{reserved_refusal, family_names_refusal};

use fm_raw::MetricType;
use fm_registry_rules::RegistryError;
use fm_registry_rules::label_names::LabelNames;
use std::alloc::Global;

/// Fails if one of the names is one that the type keeps for itself.
pub fn test_reserved(
    alloc: Global,
    metric_type: MetricType,
    names: &LabelNames,
) -> Result<(), RegistryError>
    ensures { IsOrMemory (refusal_of result) (reserved_refusal metric_type names.now) }
{
    let Some(reserved) = metric_type.reserved_label() else {
        return Ok(());
    };
    if names.has(reserved) {
        let name = String::from_str(alloc, reserved)?;
        return Err(RegistryError::ReservedLabel { name });
    }
    Ok(())
}

// Copies of these names, if a family of the type may have them.
pub(crate) fn tested_label_names(
    alloc: Global,
    metric_type: MetricType,
    names: &[&str],
) -> Result<LabelNames, RegistryError>
    ensures answer { IsOrMemory (refusal_of result)
        (family_names_refusal metric_type (shown_texts names.now)) }
    ensures copied { IfOk result (λ copies. copies ≡ shown_texts names.now) }
{
    let names = LabelNames::new(alloc, names)?;
    test_reserved(alloc, metric_type, &names)?;
    Ok(names)
}

// The printed names of metrics, and the texts of their units.
ghost use Rattle.std.specs.Prelude.{◌≡◌, OnOk, string_bytes};
ghost use Rattle.std.specs.Option.{option_map, option_copied};
ghost use Rattle.fm_raw.specs.Units.{unit_text};
ghost use Rattle.fm_registry_rules.specs.Texts.{printed_name};
ghost use Rattle.fm_registry_rules.specs.Listing.{listed_name};
ghost use Rattle.fm_core.specs.Seen.{seen_listed};

use crate::registry::ListedMetric;
use fm_raw::Unit;
use std::alloc::AllocError;

// Replaces a text by namespace, name and unit, those that are there, joined by underscores.
pub(crate) fn join_name(
    text: &mut String,
    namespace: Option<&str>,
    name: &str,
    unit: Option<&str>,
) -> Result<(), AllocError>
    ensures { OnOk result
        (string_bytes text.new
        ≡ printed_name (option_copied namespace.entry) name.now (option_copied unit.entry)) }
{
    text.clear();
    if let Some(namespace) = namespace {
        text.push_str(namespace)?;
        text.push_str("_")?;
    }
    text.push_str(name)?;
    if let Some(unit) = unit {
        text.push_str("_")?;
        text.push_str(unit)?;
    }
    Ok(())
}

// Replaces a text by the printed name of a listed metric.
pub(crate) fn print_name<M>(
    text: &mut String,
    listed: &ListedMetric<'_, M>,
) -> Result<(), AllocError>
    ensures { OnOk result (string_bytes text.new ≡ listed_name (seen_listed listed.now)) }
{
    join_name(text, listed.namespace, listed.tail, None)
}

// The text of a unit.
pub(crate) fn text_of(unit: Option<&Unit>) -> Option<&str>
    ensures { option_copied result ≡ option_map (λ u. unit_text u.now) unit.entry }
{
    match unit {
        Some(unit) => Some(unit.as_str()),
        None => None,
    }
}

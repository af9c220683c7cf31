//! Reads the first lines of a family: its type line, its help line and its unit line.
ghost use Rattle.std.specs.Prelude.{◌≡◌, ◌↔◌, IsTrue, IfOk, string_bytes};
ghost use Rattle.std.specs.Option.{option_map, option_copied};
ghost use Rattle.fm_grammar.specs.WellFormed.{EndsWithUnit};
ghost use Rattle.fm_reader.specs.inside.Lines.{FoundType, FoundHelp, FoundUnit, shown_type};

use crate::parts::labels::read_escaped;
use fm_grammar::MetricType;
use fm_raw::{is_snake_case, is_unit_text};
use std::alloc::{AllocError, Global};

/// The name and the type on a type line, or None if the text is not a type line.
pub(crate) fn read_type(line: &str) -> Option<(&str, MetricType)>
    ensures { FoundType line.now (option_map shown_type result) }
{
    let Some(after) = line.strip_prefix("# TYPE ") else {
        return None;
    };
    let Some((name, word)) = after.split_once(' ') else {
        return None;
    };
    if !is_snake_case(name) {
        return None;
    }
    let Some(metric_type) = MetricType::from_word(word) else {
        return None;
    };
    Some((name, metric_type))
}

/// The help text on the help line of the family with this name, or None if the text is not such a line.
///
/// Fails if there is no memory.
pub(crate) fn read_help(alloc: Global, name: &str, line: &str) -> Result<Option<String>, AllocError>
    ensures { IfOk result (λ found. FoundHelp line.now name.now (option_map string_bytes found)) }
{
    let Some(after) = line.strip_prefix("# HELP ") else {
        return Ok(None);
    };
    let Some(spaced) = after.strip_prefix(name) else {
        return Ok(None);
    };
    let Some(text) = spaced.strip_prefix(' ') else {
        return Ok(None);
    };
    let Some((help, rest)) = read_escaped(alloc, text)? else {
        return Ok(None);
    };
    if !rest.is_empty() {
        return Ok(None);
    }
    Ok(Some(help))
}

/// The unit on the unit line of the family with this name and type, or None if the text is not such a line.
pub(crate) fn read_unit<'a>(name: &str, metric_type: MetricType, line: &'a str) -> Option<&'a str>
    ensures { FoundUnit line.now name.now metric_type (option_copied result) }
{
    let Some(after) = line.strip_prefix("# UNIT ") else {
        return None;
    };
    let Some(spaced) = after.strip_prefix(name) else {
        return None;
    };
    let Some(unit) = spaced.strip_prefix(' ') else {
        return None;
    };
    if !metric_type.takes_unit() || !is_unit_text(unit) || !ends_with_unit(name, unit) {
        return None;
    }
    Some(unit)
}

// Whether a name consists of a name in snake case, an underscore and this unit.
fn ends_with_unit(name: &str, unit: &str) -> bool
    ensures { IsTrue result ↔ EndsWithUnit name.now unit.now }
{
    let Some(front) = name.strip_suffix(unit) else {
        return false;
    };
    let Some(front) = front.strip_suffix('_') else {
        return false;
    };
    is_snake_case(front)
}

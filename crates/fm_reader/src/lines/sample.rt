//! Reads sample lines.
ghost use Rattle.std.specs.Prelude.{◌≡◌, ◌↔◌, IsTrue, IfOk};
ghost use Rattle.std.specs.Option.{option_map, option_copied};
ghost use Rattle.fm_reader.specs.inside.Lines.{FoundSample};
ghost use Rattle.fm_reader.specs.inside.Parts.{EndsName, IsAfterSuffix, IsKindFront, seen_kind};
ghost use Rattle.fm_reader.specs.inside.Samples.{read_sample_of};

use crate::lines::shared::{ReadLabels, own_start, read_shared};
use crate::lines::values::read_values;
use crate::samples::ReadSamples;
use fm_exposition::{Exemplar, Value};
use fm_grammar::{MetricType, SampleKind};
use std::alloc::{AllocError, Global};

/// A sample as it was read.
#[derive(Drop)]
pub(crate) struct ReadSample<'a> {
    /// Its kind, which decides the suffix of its name.
    pub kind: SampleKind,
    /// Its labels in order.
    pub labels: ReadLabels<'a>,
    /// Its value.
    pub value: Value,
    /// Its timestamp in milliseconds, if it has one.
    pub time: Option<u128>,
    /// Its exemplar, if it has one.
    pub exemplar: Option<Exemplar>,
}

/// The sample on a line of the family with this name and type, or None if the text is not such a line. The samples
/// before it are given, as it may share labels with the last of them.
///
/// Fails if there is no memory.
pub(crate) fn read_sample<'a>(
    alloc: Global,
    name: &str,
    metric_type: MetricType,
    before: &ReadSamples<'a>,
    line: &'a str,
) -> Result<Option<ReadSample<'a>>, AllocError>
    ensures { IfOk result
        (λ found. FoundSample line.now name.now metric_type
        (option_map (read_sample_of before.now.common) found)) }
{
    let Some(after) = line.strip_prefix(name) else {
        return Ok(None);
    };
    let Some((kind, block)) = read_kind(metric_type, after) else {
        return Ok(None);
    };
    let own_start = own_start(metric_type, kind);
    let Some((labels, text)) = read_shared(alloc, before, own_start, block)? else {
        return Ok(None);
    };
    let Some(values) = read_values(alloc, kind, text)? else {
        return Ok(None);
    };
    Ok(Some(ReadSample {
        kind,
        labels,
        value: values.value,
        time: values.time,
        exemplar: values.exemplar,
    }))
}

// The kind whose suffix the text begins with, and the text after the suffix.
fn read_kind(metric_type: MetricType, text: &str) -> Option<(SampleKind, &str)>
    ensures { IsKindFront metric_type text.now (seen_kind result) }
{
    for kind in metric_type.kinds() {
        if let Some(rest) = after_suffix(*kind, text) {
            return Some((*kind, rest));
        }
    }
    None
}

// The text after the suffix of a kind.
fn after_suffix(kind: SampleKind, text: &str) -> Option<&str>
    ensures { IsAfterSuffix kind text.now (option_copied result) }
{
    let Some(rest) = text.strip_prefix(kind.suffix()) else {
        return None;
    };
    if !ends_name(rest) {
        return None;
    }
    Some(rest)
}

// Whether a text begins with what may come after a suffix.
fn ends_name(text: &str) -> bool
    ensures { IsTrue result ↔ EndsName text.now }
{
    text.starts_with('{') || text.starts_with(' ')
}

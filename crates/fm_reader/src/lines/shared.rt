//! Reads the labels of a sample, which may begin with those of the sample before.
ghost use Rattle.std.specs.Prelude.{◌≡◌, ◌++◌, List, Some, IfOk, IfSome};
ghost use Rattle.fm_grammar.specs.Exposition.{Label};
ghost use Rattle.fm_reader.specs.inside.Parts.{IsBlockFront};
ghost use Rattle.fm_reader.specs.inside.Shared.{IsOwnLabel, IsNamedFront, IsCommonFront, all_labels, shared_front};

use crate::lines::labels::{are_different, is_new, read_block, read_braces};
use crate::parts::labels::read_label;
use crate::samples::{Common, ReadSamples};
use fm_grammar::{LabelList, MetricType, SampleKind};
use std::alloc::{AllocError, Global};

/// A sample's labels as they were read.
#[derive(Drop)]
pub(crate) struct ReadLabels<'a> {
    /// The common labels, or None if they are those of the sample before.
    pub common: Option<Common<'a>>,
    /// The labels after the common ones.
    pub own: LabelList,
}

/// How the label begins that a sample of this kind has beside those of its point: the bound of a bucket, or a quantile.
/// An empty text for other kinds. A state has such a label too, but a point has so few states that sharing the others
/// costs more time than it saves.
pub(crate) fn own_start(metric_type: MetricType, kind: SampleKind) -> &'static str {
    match kind {
        SampleKind::Bucket => "le=\"",
        SampleKind::Plain => match metric_type {
            MetricType::Summary => "quantile=\"",
            _ => "",
        },
        _ => "",
    }
}

/// A sample's labels up to the space before its value, and the text after it; None if the text does not begin so.
///
/// If the text does not begin with the common labels of the sample before, but its last label is the own one, which
/// begins as given, the labels before that one become the common labels.
pub(crate) fn read_shared<'a>(
    alloc: Global,
    before: &ReadSamples<'a>,
    own_start: &str,
    text: &'a str,
) -> Result<Option<(ReadLabels<'a>, &'a str)>, AllocError>
    ensures { IfOk result
        (λ found. IsBlockFront text.now (shared_front before.now.common found)) }
{
    if let Some((own, rest)) = read_after_common(alloc, before, text)? {
        return Ok(Some((ReadLabels { common: None, own }, rest)));
    }
    if let Some(found) = read_parted(alloc, own_start, text)? {
        return Ok(Some(found));
    }
    let Some((labels, rest)) = read_block(alloc, text)? else {
        return Ok(None);
    };
    let labels = without_common(alloc, before, labels)?;
    Ok(Some((labels, rest)))
}

// The labels after the common ones of the sample before: none or one. None if the text does not begin with the common
// labels, or if there are none or others: then all labels have to be read.
fn read_after_common<'a>(
    alloc: Global,
    before: &ReadSamples<'_>,
    text: &'a str,
) -> Result<Option<(LabelList, &'a str)>, AllocError>
    ensures { IfOk result (λ found. IfSome found
        (λ front. IsBlockFront text.now (Some (before.now.common ++ front.0, front.1.now)))) }
{
    let common = before.common_text();
    if common.is_empty() {
        return Ok(None);
    }
    let Some(inner) = text.strip_prefix('{') else {
        return Ok(None);
    };
    let Some(after) = inner.strip_prefix(common) else {
        return Ok(None);
    };
    if let Some(rest) = after.strip_prefix("} ") {
        return Ok(Some((LabelList::new(alloc), rest)));
    }
    let Some(label) = after.strip_prefix(',') else {
        return Ok(None);
    };
    read_own(alloc, before.common(), label)
}

// The only label before a closing brace and a space, and the text after them; None if the text does not begin so, or
// if one of the common labels has the label's name.
#[inline(always)]
fn read_own<'a>(
    alloc: Global,
    common: &LabelList,
    text: &'a str,
) -> Result<Option<(LabelList, &'a str)>, AllocError>
    ensures { IfOk result (λ found. IfSome found
        (λ front. IsOwnLabel common.now text.now front.0 front.1.now)) }
{
    let Some((own, rest)) = read_braces(alloc, text)? else {
        return Ok(None);
    };
    if own.len() != 1 || !is_new(common, common.len(), own.at(0).0) {
        return Ok(None);
    }
    Ok(Some((own, rest)))
}

// Labels of which none are common.
fn without_common<'a>(
    alloc: Global,
    before: &ReadSamples<'a>,
    labels: LabelList,
) -> Result<ReadLabels<'a>, AllocError>
    ensures { IfOk result (λ found. all_labels before.now.common found ≡ labels) }
{
    if before.common_text().is_empty() {
        return Ok(ReadLabels {
            common: None,
            own: labels,
        });
    }
    Ok(ReadLabels {
        common: Some(Common::none(alloc)?),
        own: labels,
    })
}

// New common labels, and the own label after them, which begins as given. None if the text begins with anything else:
// then all labels have to be read.
fn read_parted<'a>(
    alloc: Global,
    own_start: &str,
    text: &'a str,
) -> Result<Option<(ReadLabels<'a>, &'a str)>, AllocError>
    ensures { IfOk result (λ found. IfSome found (λ front. (before : List Label)
        → IsBlockFront text.now (Some (all_labels before front.0, front.1.now)))) }
{
    if own_start.is_empty() {
        return Ok(None);
    }
    let Some(inner) = text.strip_prefix('{') else {
        return Ok(None);
    };
    if inner.starts_with(own_start) {
        return Ok(None);
    }
    let Some((common, more)) = read_common(alloc, own_start, inner)? else {
        return Ok(None);
    };
    let Some((own, rest)) = read_own(alloc, common.labels(), more)? else {
        return Ok(None);
    };
    Ok(Some((
        ReadLabels {
            common: Some(common),
            own,
        },
        rest,
    )))
}

// The labels before the one that begins so, and the text from that one on. None if the text does not begin with such
// labels, or if two of them have one name.
#[inline(never)]
fn read_common<'a>(
    alloc: Global,
    own_start: &str,
    text: &'a str,
) -> Result<Option<(Common<'a>, &'a str)>, AllocError>
    ensures { IfOk result (λ found. IfSome found
        (λ front. IsCommonFront text.now front.0 front.1.now)) }
{
    let Some((labels, more)) = read_before(alloc, own_start, text)? else {
        return Ok(None);
    };
    if !are_different(alloc, &labels)? {
        return Ok(None);
    }
    let Some(front) = text.strip_suffix(more) else {
        return Ok(None);
    };
    let Some(common) = front.strip_suffix(',') else {
        return Ok(None);
    };
    let common = Common::new(alloc, labels, common)?;
    Ok(Some((common, more)))
}

// The same without a test of the names.
fn read_before<'a>(
    alloc: Global,
    own_start: &str,
    text: &'a str,
) -> Result<Option<(LabelList, &'a str)>, AllocError>
    ensures { IfOk result (λ found. IfSome found
        (λ front. IsNamedFront text.now front.0 front.1.now)) }
{
    let mut labels = LabelList::with_room(alloc, text.len())?;
    let mut rest = text;
    loop {
        let Some(after) = read_label(alloc, &mut labels, rest)? else {
            return Ok(None);
        };
        let Some(more) = after.strip_prefix(',') else {
            return Ok(None);
        };
        if more.starts_with(own_start) {
            return Ok(Some((labels, more)));
        }
        rest = more;
    }
}

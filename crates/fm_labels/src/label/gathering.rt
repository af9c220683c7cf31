//! What encoders of points and exemplars do with a label set encoder, and no label set.
ghost use Rattle.std.specs.Prelude.{◌≡◌, [], ◌++◌, None, OnOk};
ghost use Rattle.fm_labels.specs.Refusals.{IsOutcome};

use crate::collecting::first_refusal::FirstRefusal;
use crate::label::{LabelEncoder, LabelSetEncoder};
use fm_grammar::MetricType;
use fm_raw::EncodeError;
use fm_text::LabelText;
use std::alloc::{AllocError, Global};

impl LabelEncoder {
    // The labels.
    fn into_text(self) -> LabelText
        ensures { result.labels ≡ self.labels }
    {
        let LabelEncoder {
            metric_type: _,
            labels,
            refused: _,
        } = self;
        labels
    }
}

/// An encoder without labels.
pub fn new(alloc: Global, metric_type: MetricType) -> LabelSetEncoder
    ensures { result ≡ record { metric_type = metric_type; labels = []; refused = None } }
{
    LabelSetEncoder {
        label: LabelEncoder {
            metric_type,
            labels: LabelText::new(alloc),
            refused: FirstRefusal { error: None },
        },
    }
}

/// The type of the family that the labels are for.
pub fn metric_type(encoder: &LabelSetEncoder) -> MetricType
    ensures { result ≡ encoder.now.metric_type }
{
    encoder.label.metric_type
}

/// The labels so far.
pub fn text(encoder: &LabelSetEncoder) -> &LabelText
    ensures { result.now.labels ≡ encoder.now.labels }
{
    &encoder.label.labels
}

/// Replaces the labels by copies of these, as if nothing had been refused. If memory runs out, nothing is known of the labels.
pub fn restart(encoder: &mut LabelSetEncoder, before: &LabelText) -> Result<(), AllocError>
    ensures same_type { encoder.new.metric_type ≡ encoder.old.metric_type }
    ensures restarted { OnOk result
        (encoder.new ≡ record encoder.old { labels = before.now.labels; refused = None }) }
{
    encoder.label.refused.error = None;
    encoder.label.labels.assign(before)
}

/// Removes all labels, as if nothing had been refused, for a family of this type.
pub fn begin(encoder: &mut LabelSetEncoder, metric_type: MetricType)
    ensures { encoder.new ≡ record { metric_type = metric_type; labels = []; refused = None } }
{
    encoder.label.metric_type = metric_type;
    encoder.label.refused.error = None;
    encoder.label.labels.clear();
}

/// Adds copies of these labels without a test. If memory runs out, nothing is known of the labels.
pub fn append(encoder: &mut LabelSetEncoder, labels: &LabelText) -> Result<(), AllocError>
    ensures same_type { encoder.new.metric_type ≡ encoder.old.metric_type }
    ensures appended { OnOk result
        (encoder.new ≡ record encoder.old { labels = encoder.old.labels ++ labels.now.labels }) }
{
    encoder.label.labels.append(labels)
}

/// The first refusal, after the visited source returned `visited`.
pub fn outcome(
    encoder: &LabelSetEncoder,
    visited: Result<(), EncodeError>,
) -> Result<(), EncodeError>
    ensures { IsOutcome encoder.now.refused visited result }
{
    encoder.label.refused.outcome(visited)
}

impl LabelSetEncoder {
    // The labels.
    pub(crate) fn into_text(self) -> LabelText
        ensures { result.labels ≡ self.labels }
    {
        let LabelSetEncoder { label } = self;
        label.into_text()
    }
}

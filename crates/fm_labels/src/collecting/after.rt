//! Labels that are gathered after other labels.
ghost use Rattle.std.specs.Prelude.{◌≡◌, ◌⊎◌, ◌++◌, None, MatchResult};
ghost use Rattle.fm_labels.specs.Labels.{LabelsValid, LabelsFault, all_written};
ghost use Rattle.fm_labels.specs.Refusals.{OwnRefusal};

use crate::label::{LabelSetEncoder, gathering};
use crate::label_set::EncodeLabelSet;
use fm_grammar::MetricType;
use fm_raw::EncodeError;
use fm_text::LabelText;
use std::alloc::Global;

// Adds the labels that a label set emits, after those that the encoder has.
pub(crate) fn gather_labels<LS: EncodeLabelSet>(
    encoder: &mut LabelSetEncoder,
    labels: &LS,
) -> Result<(), EncodeError>
    requires accepting { encoder.old.refused ≡ None }
    ensures same_type { encoder.new.metric_type ≡ encoder.old.metric_type }
    ensures gathered { MatchResult result
        (λ _. LabelsValid encoder.old.metric_type encoder.old.labels (LS.labels labels.now)
        × (encoder.new.labels ≡ encoder.old.labels ++ all_written (LS.labels labels.now)))
        (λ k. OwnRefusal (LS.may_fault labels.now) k
        ⊎ LabelsFault k encoder.old.metric_type encoder.old.labels (LS.labels labels.now)) }
{
    if labels.is_empty() {
        return Ok(());
    }
    let visited = labels.encode(encoder);
    gathering::outcome(encoder, visited)
}

/// The labels that a label set emits, which come after these labels in a family of this type. Its errors are those of the labels,
/// and one of the label set's own is `Memory` or `MetricFault`. Fails with `Memory` if memory runs out.
pub fn gather_labels_after<LS: EncodeLabelSet>(
    alloc: Global,
    metric_type: MetricType,
    before: &LabelText,
    labels: &LS,
) -> Result<LabelText, EncodeError>
    ensures { MatchResult result
        (λ own. LabelsValid metric_type before.now.labels (LS.labels labels.now)
        × (own.labels ≡ all_written (LS.labels labels.now)))
        (λ k. OwnRefusal (LS.may_fault labels.now) k
        ⊎ LabelsFault k metric_type before.now.labels (LS.labels labels.now)) }
{
    let mut all = gathering::new(alloc, metric_type);
    gathering::restart(&mut all, before)?;
    gather_labels(&mut all, labels)?;
    Ok(gathering::text(&all).suffix(alloc, before.len())?)
}

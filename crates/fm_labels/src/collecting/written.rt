//! Labels that are read once and kept, so that each later reading copies them.
ghost use Rattle.std.specs.Prelude.{◌≡◌, [], IfOk, IfErr, IfSome};
ghost use Rattle.fm_grammar.specs.declared.MetricType.{MetricType};
ghost use Rattle.fm_raw.specs.declared.encode_error.EncodeError.{EncodeError};
ghost use Rattle.fm_labels.specs.WrittenLabels.{AreWritten};
ghost use Rattle.fm_labels.specs.Labels.{LabelsValid, all_written};

use crate::label::gathering;
use crate::label_set::EncodeLabelSet;
use crate::names::has_any_reserved;
use fm_grammar::MetricType;
use fm_raw::EncodeError;
use fm_text::LabelText;
use std::alloc::Global;
use std::marker::Model;

// The labels of a label set, if they are valid in a family whose type reserves no name and which has no constant labels.
fn valid_labels<LS: EncodeLabelSet>(alloc: Global, labels: &LS) -> Result<LabelText, EncodeError>
    ensures { IfOk result (λ text. LabelsValid MetricType.Unknown [] (LS.labels labels.now)
        × (text.labels ≡ all_written (LS.labels labels.now))) }
{
    let mut encoder = gathering::new(alloc, MetricType::Unknown);
    let visited = labels.encode(&mut encoder);
    gathering::outcome(&encoder, visited)?;
    Ok(encoder.into_text())
}

/// The labels of a label set, as they are written. They are valid in a family of any type that has no constant labels.
pub struct WrittenLabels {
    pub labels: LabelText,
}

impl Drop for WrittenLabels {
    fn drop(self) {
        let WrittenLabels { labels: _ } = self;
    }
}

impl Model for WrittenLabels {
    ghost use Rattle.std.specs.Prelude.{List};
    ghost use Rattle.fm_grammar.specs.Exposition.{Label};

    ghost Value = { List Label };

    ghost view = { λ k. k.labels.labels };
}

impl WrittenLabels {
    /// The labels of this label set, or `None` if they are not valid in each family: a name is invalid, two labels have the same
    /// name, one has a name that some type reserves (`le`, `quantile`), a label is malformed, or the label set returns an error of
    /// its own. Fails with `Memory` if memory runs out, or if the label set returns `Memory`.
    pub fn read<LS: EncodeLabelSet>(
        alloc: Global,
        labels: &LS,
    ) -> Result<Option<WrittenLabels>, EncodeError>
        ensures read { IfOk result (λ read. IfSome read (AreWritten (LS.labels labels.now))) }
        ensures memory { IfErr result (λ e. e ≡ EncodeError.Memory) }
    {
        match valid_labels(alloc, labels) {
            Ok(labels) => {
                if has_any_reserved(&labels) {
                    return Ok(None);
                }
                Ok(Some(WrittenLabels { labels }))
            }
            Err(EncodeError::Memory) => Err(EncodeError::Memory),
            Err(_) => Ok(None),
        }
    }
}

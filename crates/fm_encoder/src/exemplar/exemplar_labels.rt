//! Labels of exemplars that were tested before they are emitted.
ghost use Rattle.std.specs.Prelude.{◌≡◌, ℕ, ℤ, ◌⊎◌, ◌<◌, [], MatchResult, Option};
ghost use Rattle.fm_grammar.specs.declared.MetricType.TheVariants.{Unknown};
ghost use Rattle.fm_grammar.specs.WellFormed.{label_code_points};
ghost use Rattle.fm_raw.specs.declared.encode_error.EncodeError.TheVariants.{ExemplarTooLong};
ghost use Rattle.fm_labels.specs.Labels.{LabelsFault, all_written, emitted_again};
ghost use Rattle.fm_encoder.specs.Points.{ExemplarPartsValid};
ghost use Rattle.fm_labels.specs.Refusals.{OwnRefusal};

use crate::exemplar::written_labels;
use fm_exposition::exemplar_limit::are_short;
use fm_labels::label::LabelSetEncoder;
use fm_labels::label_set::{EncodeLabelSet, encode_written};
use fm_raw::EncodeError;
use std::alloc::Global;
use std::marker::Model;

/// Labels that an exemplar may have: their names are valid and different, and names and values together have at most 128
/// code points. No encoder refuses them as those of an exemplar.
///
/// <!-- cut: tests/scripts/src/traced.rt.in -->
/// ```rust
/// Ok(LabeledExemplar {
///     labels: ExemplarLabels::new(alloc, labels)?,
///     value: fixed(value)?,
///     timestamp: line.time("exts")?,
/// })
/// ```
#[derive(Debug)]
pub struct ExemplarLabels {
    labels: Vec<(String, String)>,
}

impl Drop for ExemplarLabels {
    fn drop(self) {
        let ExemplarLabels { labels: _ } = self;
    }
}

impl Model for ExemplarLabels {
    ghost use Rattle.std.specs.Prelude.{List, [], ◌≤◌};
    ghost use Rattle.fm_grammar.specs.declared.MetricType.TheVariants.{Unknown};
    ghost use Rattle.fm_grammar.specs.Exposition.{Label};
    ghost use Rattle.fm_grammar.specs.WellFormed.{label_code_points};
    ghost use Rattle.fm_grammar.specs.LabelPairs.{labels_of};
    ghost use Rattle.fm_labels.specs.Labels.{LabelsValid, all_written, emitted_again};

    ghost Value = { List Label };

    ghost view = { λ l. labels_of l.labels.items };

    ghost invariant = { λ l. LabelsValid Unknown [] (emitted_again (labels_of l.labels.items))
        × (label_code_points (all_written (emitted_again (labels_of l.labels.items))) ≤ 128) };
}

impl ExemplarLabels {
    /// A copy of the labels that the set emits, with their texts. It takes memory.
    ///
    /// Errors, in this order: those of the labels, of which no name is reserved; `ExemplarTooLong`, if their names and values
    /// together have more than 128 code points. Fails with `Memory` if memory runs out.
    pub fn new<LS: EncodeLabelSet>(
        alloc: Global,
        labels: &LS,
    ) -> Result<ExemplarLabels, EncodeError>
        ensures { MatchResult result
            (λ ls. ls ≡ all_written (LS.labels labels.now))
            (λ k. OwnRefusal (LS.may_fault labels.now) k
            ⊎ LabelsFault k Unknown [] (LS.labels labels.now)
            ⊎ ((k ≡ ExemplarTooLong) × (128 < label_code_points (all_written (LS.labels labels.now))))) }
    {
        let labels = written_labels(alloc, labels)?;
        if !are_short(&labels) {
            return Err(EncodeError::ExemplarTooLong);
        }
        Ok(ExemplarLabels { labels })
    }

    /// An exemplar with these labels is valid, whatever its value and its time. It does nothing.
    pub fn are_taken(&self)
        ensures { (value : ℤ) (time : Option ℕ)
            → ExemplarPartsValid (record { labels = emitted_again self.now; value = value; time = time }) }
    {
        let _ = &self.labels;
    }
}

impl EncodeLabelSet for ExemplarLabels {
    ghost labels = { emitted_again };

    fn encode(&self, encoder: &mut LabelSetEncoder) -> Result<(), EncodeError> {
        encode_written(self.labels.as_slice(), encoder)
    }
}

//! The constant labels of a registry.
ghost use Rattle.std.specs.Prelude.{◌≡◌, ◌⊎◌, ◌++◌, [], false, None, OnOk, OnErr, IfSome, MatchResult};
ghost use Rattle.fm_grammar.specs.LabelPairs.{labels_of};
ghost use Rattle.fm_grammar.specs.WellFormed.{AreLabels};
ghost use Rattle.fm_labels.specs.Labels.{LabelsValid, LabelsFault, all_written, emitted_again};
ghost use Rattle.fm_labels.specs.Refusals.{OwnRefusal};
ghost use Rattle.fm_labels.specs.WrittenLabels.{AreWritten};
ghost use Rattle.fm_labels.specs.inside.Constants.{AreTested};

use crate::collecting::after::gather_labels;
use crate::collecting::written::WrittenLabels;
use crate::label::{LabelSetEncoder, gathering};
use crate::label_set::EncodeLabelSet;
use crate::names::has_reserved;
use fm_grammar::MetricType;
use fm_raw::EncodeError;
use fm_text::LabelText;
use std::alloc::{AllocError, Global};
use std::marker::Model;
use std::mem;

// Adds the labels that a label set emits, after those that the encoder has. Kept labels are copied, unless one of them has the name of a
// label that the encoder has.
fn add_labels<LS: EncodeLabelSet>(
    encoder: &mut LabelSetEncoder,
    written: Option<&WrittenLabels>,
    labels: &LS,
) -> Result<(), EncodeError>
    requires accepting { encoder.old.refused ≡ None }
    requires written { IfSome written (λ k. AreWritten (LS.labels labels.now) k.now) }
    ensures same_type { encoder.new.metric_type ≡ encoder.old.metric_type }
    ensures gathered { MatchResult result
        (λ _. LabelsValid encoder.old.metric_type encoder.old.labels (LS.labels labels.now)
        × (encoder.new.labels ≡ encoder.old.labels ++ all_written (LS.labels labels.now)))
        (λ k. OwnRefusal (LS.may_fault labels.now) k
        ⊎ LabelsFault k encoder.old.metric_type encoder.old.labels (LS.labels labels.now)) }
{
    if let Some(written) = written {
        if !gathering::text(encoder).has_name_of(&written.labels) {
            return Ok(gathering::append(encoder, &written.labels)?);
        }
    }
    gather_labels(encoder, labels)
}

// Replaces labels by copies of these. Fails if memory runs out.
fn replace(text: &mut LabelText, labels: &[(String, String)]) -> Result<(), AllocError>
    ensures { OnOk result (text.new.labels ≡ labels_of labels.now) }
{
    text.clear();
    for label in labels {
        text.push(label.0.as_str(), label.1.as_str())?;
    }
    Ok(())
}

/// The constant labels of a registry, tested for the type of its current family.
pub struct ConstantLabels {
    labels: LabelText,
    // Takes the labels of the next registry, and is then swapped with those before.
    next: LabelText,
    // Whether one of them has the name that the family's type reserves.
    has_reserved: bool,
}

impl Drop for ConstantLabels {
    fn drop(self) {
        let ConstantLabels {
            labels: _,
            next: _,
            has_reserved: _,
        } = self;
    }
}

impl Model for ConstantLabels {
    ghost use Rattle.fm_grammar.specs.WellFormed.{AreLabels};
    ghost use Rattle.fm_labels.specs.inside.Constants.{FamilyConstants};

    ghost Value = { FamilyConstants };

    ghost view = { λ c. record { labels = c.labels.labels; has_reserved = c.has_reserved } };

    ghost invariant = { λ c. AreLabels c.labels.labels };
}

impl ConstantLabels {
    /// No labels.
    pub fn none(alloc: Global) -> ConstantLabels
        ensures { result ≡ record { labels = []; has_reserved = false } }
    {
        ConstantLabels {
            labels: LabelText::new(alloc),
            next: LabelText::new(alloc),
            has_reserved: false,
        }
    }

    /// Goes on to these labels of a registry, tested for a family of this type, unless they are those before. Fails if memory runs
    /// out, and then changes nothing.
    pub fn enter(
        &mut self,
        metric_type: MetricType,
        labels: &[(String, String)],
    ) -> Result<(), AllocError>
        requires labels { AreLabels (labels_of labels.now) }
        requires tested { AreTested metric_type self.old }
        ensures tested { OnOk result (AreTested metric_type self.new) }
        ensures entered { OnOk result (self.new.labels ≡ labels_of labels.now) }
        ensures kept { OnErr result (self.new ≡ self.old) }
    {
        if self.labels.are(labels) {
            return Ok(());
        }
        replace(&mut self.next, labels)?;
        let has_reserved = has_reserved(metric_type, &self.next);
        mem::swap(&mut self.labels, &mut self.next);
        self.has_reserved = has_reserved;
        Ok(())
    }

    /// Goes on to a family of this type, for which the labels are tested.
    pub fn begin(&mut self, metric_type: MetricType)
        ensures tested { AreTested metric_type self.new }
        ensures labels { self.new.labels ≡ self.old.labels }
    {
        self.has_reserved = has_reserved(metric_type, &self.labels);
    }

    /// Replaces the encoder's labels by the constant labels, followed by these; all of them are valid. Its errors are those of all
    /// these labels, and one of the label set's own is `Memory` or `MetricFault`. Fails with `Memory` if memory runs out.
    pub fn followed_by<LS: EncodeLabelSet>(
        &self,
        encoder: &mut LabelSetEncoder,
        written: Option<&WrittenLabels>,
        labels: &LS,
    ) -> Result<(), EncodeError>
        requires tested { AreTested encoder.old.metric_type self.now }
        requires written { IfSome written (λ k. AreWritten (LS.labels labels.now) k.now) }
        ensures same_type { encoder.new.metric_type ≡ encoder.old.metric_type }
        ensures gathered { let all = emitted_again self.now.labels ++ LS.labels labels.now in
            MatchResult result
            (λ _. LabelsValid encoder.old.metric_type [] all
            × (encoder.new.labels ≡ all_written all))
            (λ k. OwnRefusal (LS.may_fault labels.now) k
            ⊎ LabelsFault k encoder.old.metric_type [] all) }
    {
        if self.has_reserved {
            return Err(EncodeError::ReservedLabel);
        }
        if self.labels.len() > 0 {
            gathering::restart(encoder, &self.labels)?;
            add_labels(encoder, written, labels)?;
        } else if let Some(written) = written {
            gathering::restart(encoder, &written.labels)?;
        } else {
            let metric_type = gathering::metric_type(encoder);
            gathering::begin(encoder, metric_type);
            gather_labels(encoder, labels)?;
        }
        Ok(())
    }
}

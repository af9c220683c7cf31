//! Labels of a family whose names were tested when it was made.
ghost use Rattle.std.specs.Prelude.{◌≡◌, ◌++◌, ◌⊎◌, [], length, IfNone, IfSome, None, Some, OnOk, map};
ghost use Rattle.fm_raw.specs.declared.encode_error.EncodeError.{EncodeError};
ghost use Rattle.std.specs.String.{string_bytes};
ghost use Rattle.fm_grammar.specs.LabelPairs.{labels_with};
ghost use Rattle.fm_registry_rules.specs.LabelNames.{AreLabelNames};
ghost use Rattle.fm_labels.specs.Labels.{emitted_again};
ghost use Rattle.fm_labels.specs.inside.TakenNames.{NamesAreFree, IsTakenName};
ghost use Rattle.fm_labels.specs.LabelEncoders.{TakesLabels};
ghost use Rattle.fm_labels.specs.Refusals.{NoFault, result_of};

use crate::keep;
use crate::label::{LabelEncoder, LabelSetEncoder};
use crate::label_values::{LabelValues, next_value};
use crate::names::is_reserved;
use fm_raw::EncodeError;
use fm_registry_rules::label_names::LabelNames;
use fm_text::LabelText;
use std::alloc::AllocError;

// Adds labels with these names and these values, in order.
fn add_named(
    labels: &mut LabelText,
    names: &[String],
    values: &LabelValues,
) -> Result<(), AllocError>
    requires idle { (labels.old.name ≡ None) × (labels.old.value ≡ None) }
    requires count { length values.now ≡ length names.now }
    ensures idle { (labels.new.name ≡ None) × (labels.new.value ≡ None) }
    ensures added { OnOk result
        (labels.new.labels ≡ labels.old.labels ++ labels_with (map string_bytes names.now) values.now) }
{
    let mut rest = values.as_bytes();
    for (i, name) in names.iter().enumerate() {
        let Some((value, after)) = next_value(rest, i + 1 == names.len()) else {
            return Ok(());
        };
        labels.add(name.as_str(), value)?;
        rest = after;
    }
    Ok(())
}

impl LabelEncoder {
    // Why labels with these names may not follow, if one of them may not: the type reserves a name, or a label before has it.
    fn taken_name(&self, names: &LabelNames) -> Option<EncodeError>
        ensures taken { IfSome result (λ k. IsTakenName k self.now.metric_type self.now.labels names.now) }
        ensures free { IfNone result (NamesAreFree self.now.metric_type self.now.labels names.now) }
    {
        for name in names.as_slice() {
            let name = name.as_str();
            if is_reserved(self.metric_type, name) {
                return Some(EncodeError::ReservedLabel);
            }
            if self.labels.has_name(name) {
                return Some(EncodeError::DuplicateLabel);
            }
        }
        None
    }

    // Takes labels with these names, in order, and as many values, where the current label has no piece.
    fn take_named(&mut self, names: &LabelNames, values: &LabelValues) -> Result<(), EncodeError>
        requires idle { self.old.refused ≡ None → self.old.pieces ≡ [] }
        requires count { length values.now ≡ length names.now }
        ensures same_type { self.new.metric_type ≡ self.old.metric_type }
        ensures kept { (k : EncodeError) → self.old.refused ≡ Some k → self.new ≡ self.old }
        ensures pieces { self.new.refused ≡ None → self.new.pieces ≡ [] }
        ensures labels { self.new.refused ≡ None → AreLabelNames names.now
            × NamesAreFree self.old.metric_type self.old.labels names.now
            × (self.new.labels ≡ self.old.labels ++ labels_with names.now values.now) }
        ensures refused { (k : EncodeError) → self.old.refused ≡ None → self.new.refused ≡ Some k
            → (k ≡ EncodeError.Memory) ⊎ IsTakenName k self.old.metric_type self.old.labels names.now }
        ensures returned { result ≡ result_of self.new.refused }
    {
        self.refused.check()?;
        if let Some(error) = self.taken_name(names) {
            return self.refused.refuse(error);
        }
        keep!(
            self.refused,
            add_named(&mut self.labels, names.as_slice(), values)
        )
    }
}

impl LabelSetEncoder {
    /// Takes labels with these names, in order, and as many values. They need no test but for the labels before them: a name that the
    /// metric's type reserves is refused as `ReservedLabel`, one that an earlier label has as `DuplicateLabel`. Fails with `Memory`
    /// if memory runs out.
    pub fn encode_named(
        &mut self,
        names: &LabelNames,
        values: &LabelValues,
    ) -> Result<(), EncodeError>
        requires { length values.now ≡ length names.now }
        ensures { TakesLabels (emitted_again (labels_with names.now values.now)) NoFault
            self.old self.new result }
    {
        self.label.take_named(names, values)
    }
}

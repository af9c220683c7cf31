//! How the members of a family by label names are encoded.
ghost use Rattle.std.specs.Prelude.{◌≡◌, length, Any, Ok, None};
ghost use Rattle.std.specs.List.{IsDistinct, AllByRecursion};
ghost use Rattle.std.specs.Map.{keys_of};
ghost use Rattle.fm_encoder.specs.Emits.{EmitsMembers};
ghost use Rattle.fm_labels.specs.LabelValues.{values_eq};
ghost use Rattle.fm_family.specs.Members.{OffersFirst, MayFault};
ghost use Rattle.fm_family.specs.VecMembers.{named_labels, NeverFaults};

use crate::vec::members::VecMembers;
use fm_encoder::{EncodeLabelSet, EncodePoint, MetricEncoder, collector};
use fm_labels::label::LabelSetEncoder;
use fm_labels::label_values::LabelValues;
use fm_raw::EncodeError;
use fm_registry_rules::label_names::LabelNames;

// The labels of a member: the family's names with its values.
#[derive(Drop)]
struct NamedLabels<'a> {
    names: &'a LabelNames,
    values: &'a LabelValues,
    ghost same_count: { length values.now ≡ length names.now },
}

impl EncodeLabelSet for NamedLabels<'_> {
    ghost labels = { λ l. named_labels l.names.now l.values.now };

    fn encode(&self, encoder: &mut LabelSetEncoder) -> Result<(), EncodeError> {
        encoder.encode_named(self.names, self.values)
    }
}

impl<M: EncodePoint> VecMembers<M> {
    /// Encodes each metric's points under its labels, in order, up to the first error, which is returned. It waits if a metric is
    /// protected by a lock.
    pub fn encode_members(
        &self,
        names: &LabelNames,
        encoder: &mut MetricEncoder,
    ) -> Result<(), EncodeError>
        requires { self.now.count ≡ length names.now }
        ensures offered { EmitsMembers (OffersFirst (named_labels names.now) M.points self.now.entries)
            (Any (MayFault NeverFaults M.may_fault) self.now.entries)
            encoder.old encoder.new result }
        ensures different { IsDistinct values_eq (keys_of self.now.entries) }
        ensures values { AllByRecursion (λ entry. length entry.0 ≡ length names.now) self.now.entries }
    {
        for index in 0..self.len() {
            let Some((values, metric)) = self.entry(index) else {
                unreachable!()
            };
            let labels = NamedLabels { names, values };
            collector::encode_member(encoder, None, &labels, metric)?;
        }
        Ok(())
    }
}

//! Values of labels, and labels by name and value, for label sets of a program's own.
//!
//! <!-- cut: crates/own_metric/src/lib.rt -->
//! ```rust
//! let name = LabelValue::Text(self.name.as_str());
//! let priority = LabelValue::Whole(u64::from(self.priority));
//! encode_labels(encoder, &[("queue", name), ("priority", priority)])
//! ```
ghost use Rattle.std.specs.Prelude.{[], ◌∷◌, true, false, map, codes, decimal, if◌then◌else◌};
ghost use Rattle.std.specs.Fmt.{signed_decimal};
ghost use Rattle.fm_grammar.specs.Numbers.{fixed_text};
ghost use Rattle.fm_labels.specs.Labels.{ValuePiece};
ghost use Rattle.fm_labels.specs.LabelEncoders.{EmitsLabels};
ghost use Rattle.fm_labels.specs.Refusals.{NoFault};

use crate::label::{EncodeLabel, EncodeLabelValue, LabelEncoder, LabelSetEncoder};
use crate::label_set::{EncodeLabelSet, LabelSlice};
pub use crate::label_text_value::{LabelStr, StaticStr};
use fm_raw::{EncodeError, Fixed};

/// The value of a label: a text, a number or a truth value.
///
/// <!-- cut: crates/own_metric/src/lib.rt -->
/// ```rust
/// let name = LabelValue::Text(self.name.as_str());
/// let priority = LabelValue::Whole(u64::from(self.priority));
/// encode_labels(encoder, &[("queue", name), ("priority", priority)])
/// ```
#[derive(Clone, Copy, Debug, PartialEq, Eq, PartialOrd, Ord, Hash)]
pub enum LabelValue<'a> {
    /// This text.
    Text(&'a str),
    /// A whole number that isn't negative, in decimal.
    Whole(u64),
    /// A whole number, in decimal.
    Signed(i64),
    /// A number in millionths, with its decimal places.
    Millionths(Fixed),
    /// `true` or `false`.
    Truth(bool),
    /// No value: the label is left out.
    Absent,
}

impl EncodeLabelValue for LabelValue<'_> {
    ghost use Rattle.fm_labels.specs.declared.label_value.LabelValue.TheVariants.{Text, Whole, Signed, Millionths, Truth, Absent};

    ghost pieces = { elim [
      | Text text ↦ ValuePiece text.now ∷ []
      | Whole number ↦ ValuePiece (decimal number) ∷ []
      | Signed number ↦ ValuePiece (signed_decimal number) ∷ []
      | Millionths number ↦ ValuePiece (fixed_text number) ∷ []
      | Truth truth ↦ ValuePiece (if truth then codes "true" else codes "false") ∷ []
      | Absent ↦ []
    ] };

    ghost is_skipped = { elim [
      | Text text ↦ false
      | Whole number ↦ false
      | Signed number ↦ false
      | Millionths number ↦ false
      | Truth truth ↦ false
      | Absent ↦ true
    ] };

    fn encode(&self, encoder: &mut LabelEncoder) -> Result<(), EncodeError> {
        match self {
            LabelValue::Text(text) => encoder.encode_str_value(text),
            LabelValue::Whole(number) => encoder.encode_u64_value(*number),
            LabelValue::Signed(number) => encoder.encode_i64_value(*number),
            LabelValue::Millionths(number) => encoder.encode_fixed_value(*number),
            LabelValue::Truth(truth) => encoder.encode_bool_value(*truth),
            LabelValue::Absent => Ok(()),
        }
    }

    fn skip_encoding(&self) -> bool {
        matches!(self, LabelValue::Absent)
    }
}

/// Passes these labels to the encoder, each a name and a value, in order. A label set of a program's own calls it in its `encode`,
/// whatever the number of its labels. It fails as the encoder does.
pub fn encode_labels<'a>(
    encoder: &mut LabelSetEncoder,
    labels: &[(&'a str, LabelValue<'a>)],
) -> Result<(), EncodeError>
    ensures { EmitsLabels
        (map ⟦<(&'a str, LabelValue<'a>) as EncodeLabel>⟧.pieces labels.now)
        NoFault encoder.old encoder.new
        result }
{
    LabelSlice(labels).encode(encoder)
}

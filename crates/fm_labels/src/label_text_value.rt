//! Names and values of labels: texts, truth values, millionths and options, and labels that are pairs of them.
ghost use Rattle.std.specs.Prelude.{[], ◌∷◌, ◌++◌, ◌⊎◌, false, true, if◌then◌else◌, MatchOption, codes, string_bytes};
ghost use Rattle.std.specs.Option.{option_map_or};
ghost use Rattle.fm_grammar.specs.Numbers.{fixed_text};
ghost use Rattle.fm_labels.specs.Labels.{NamePiece, ValuePiece};
ghost use Rattle.fm_labels.specs.LabelEncoders.{TakesPieces};
ghost use Rattle.fm_labels.specs.Refusals.{NoFault};

use crate::label::{EncodeLabel, EncodeLabelName, EncodeLabelValue, LabelEncoder};
use fm_raw::EncodeError;
use fm_raw::fixed::{Fixed, FixedBuffer, FixedSum};

/// Borrows a text as a name or a value of a label.
///
/// <!-- cut: tests/unit/src/fm_family_label_sets.rt.in -->
/// ```rust
/// fn encode(&self, encoder: &mut LabelSetEncoder) -> Result<(), EncodeError> {
///     encoder.encode(&(LabelStr("path"), &self.path))
/// }
/// ```
#[derive(Clone, Copy, Debug, PartialEq, Eq, PartialOrd, Ord, Hash)]
pub struct LabelStr<'a>(pub &'a str);

/// A text of the program itself as a name or a value of a label. Unlike `LabelStr` it may be part of a boxed metric.
///
/// <!-- cut: crates/calling/src/own.rt -->
/// ```rust
/// with_pairs(
///     &handles.statuses,
///     &[(StaticStr("status"), status)],
///     |count| count.inc(),
/// )?;
/// ```
#[derive(Clone, Copy, Debug, PartialEq, Eq, PartialOrd, Ord, Hash)]
pub struct StaticStr(pub &'static str);

impl EncodeLabelName for LabelStr<'_> {
    ghost pieces = { λ s. NamePiece s.0.now ∷ [] };

    fn encode(&self, encoder: &mut LabelEncoder) -> Result<(), EncodeError> {
        encoder.encode_label_name(self.0)
    }
}

impl EncodeLabelValue for LabelStr<'_> {
    ghost pieces = { λ s. ValuePiece s.0.now ∷ [] };

    ghost is_skipped = { λ _. false };

    fn encode(&self, encoder: &mut LabelEncoder) -> Result<(), EncodeError> {
        encoder.encode_str_value(self.0)
    }

    fn skip_encoding(&self) -> bool {
        false
    }
}

impl EncodeLabelName for StaticStr {
    ghost pieces = { λ s. NamePiece s.0.now ∷ [] };

    fn encode(&self, encoder: &mut LabelEncoder) -> Result<(), EncodeError> {
        encoder.encode_label_name(self.0)
    }
}

impl EncodeLabelValue for StaticStr {
    ghost pieces = { λ s. ValuePiece s.0.now ∷ [] };

    ghost is_skipped = { λ _. false };

    fn encode(&self, encoder: &mut LabelEncoder) -> Result<(), EncodeError> {
        encoder.encode_str_value(self.0)
    }

    fn skip_encoding(&self) -> bool {
        false
    }
}

impl EncodeLabelName for &str {
    ghost pieces = { λ s. NamePiece s.now ∷ [] };

    fn encode(&self, encoder: &mut LabelEncoder) -> Result<(), EncodeError> {
        encoder.encode_label_name(self)
    }
}

impl EncodeLabelValue for &str {
    ghost pieces = { λ s. ValuePiece s.now ∷ [] };

    ghost is_skipped = { λ _. false };

    fn encode(&self, encoder: &mut LabelEncoder) -> Result<(), EncodeError> {
        encoder.encode_str_value(self)
    }

    fn skip_encoding(&self) -> bool {
        false
    }
}

impl EncodeLabelName for String {
    ghost pieces = { λ s. NamePiece (string_bytes s) ∷ [] };

    fn encode(&self, encoder: &mut LabelEncoder) -> Result<(), EncodeError> {
        encoder.encode_label_name(self.as_str())
    }
}

impl EncodeLabelValue for String {
    ghost pieces = { λ s. ValuePiece (string_bytes s) ∷ [] };

    ghost is_skipped = { λ _. false };

    fn encode(&self, encoder: &mut LabelEncoder) -> Result<(), EncodeError> {
        encoder.encode_str_value(self.as_str())
    }

    fn skip_encoding(&self) -> bool {
        false
    }
}

impl EncodeLabelValue for bool {
    ghost pieces = { λ b. ValuePiece (if b then codes "true" else codes "false") ∷ [] };

    ghost is_skipped = { λ _. false };

    fn encode(&self, encoder: &mut LabelEncoder) -> Result<(), EncodeError> {
        encoder.encode_bool_value(*self)
    }

    fn skip_encoding(&self) -> bool {
        false
    }
}

impl EncodeLabelValue for Fixed {
    ghost pieces = { λ n. ValuePiece (fixed_text n) ∷ [] };

    ghost is_skipped = { λ _. false };

    fn encode(&self, encoder: &mut LabelEncoder) -> Result<(), EncodeError> {
        encoder.encode_fixed_value(*self)
    }

    fn skip_encoding(&self) -> bool {
        false
    }
}

/// A label whose value is `None` is left out, and so is one with `Some` of a value that is left out.
impl<T: EncodeLabelValue> EncodeLabelValue for Option<T> {
    ghost pieces = { λ o. option_map_or T.pieces o [] };

    ghost may_fault = { λ o. MatchOption o ⊥ T.may_fault };

    ghost is_skipped = { λ o. option_map_or T.is_skipped o true };

    fn encode(&self, encoder: &mut LabelEncoder) -> Result<(), EncodeError> {
        match self {
            Some(value) => value.encode(encoder),
            None => Ok(()),
        }
    }

    fn skip_encoding(&self) -> bool {
        match self {
            Some(value) => value.skip_encoding(),
            None => true,
        }
    }
}

/// A label of a name and a value. It emits nothing if the value is left out.
impl<N: EncodeLabelName, V: EncodeLabelValue> EncodeLabel for (N, V) {
    ghost pieces = { λ p. if V.is_skipped p.1 then [] else N.pieces p.0 ++ V.pieces p.1 };

    ghost may_fault = { λ p. N.may_fault p.0 ⊎ V.may_fault p.1 };

    fn encode(&self, encoder: &mut LabelEncoder) -> Result<(), EncodeError> {
        if self.1.skip_encoding() {
            return Ok(());
        }
        self.0.encode(encoder)?;
        self.1.encode(encoder)
    }
}

impl LabelEncoder {
    /// Takes the text `true` or `false` as the label's value. It fails as `encode_str_value` does.
    pub fn encode_bool_value(&mut self, value: bool) -> Result<(), EncodeError>
        ensures { TakesPieces
            (ValuePiece (if value then codes "true" else codes "false") ∷ []) NoFault
            self.old self.new result }
    {
        self.encode_str_value(if value { "true" } else { "false" })
    }

    /// Takes a number of millionths, written in decimal, as the label's value. It fails as `encode_str_value` does.
    pub fn encode_fixed_value(&mut self, value: Fixed) -> Result<(), EncodeError>
        ensures { TakesPieces (ValuePiece (fixed_text value) ∷ []) NoFault
            self.old self.new result }
    {
        let mut buffer = FixedBuffer::new();
        self.encode_str_value(buffer.format(FixedSum::from(value)))
    }
}

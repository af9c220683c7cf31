//! Labels: what emits them, and the encoders that gather them.
//!
//! <!-- cut: crates/expose_io/src/tree.rt -->
//! ```rust
//! fn encode(&self, encoder: &mut LabelSetEncoder) -> Result<(), EncodeError> {
//!     encoder.encode(&(LabelStr("method"), self.method))?;
//!     encoder.encode(&(LabelStr("status"), self.status))
//! }
//! ```
ghost use Rattle.std.specs.Prelude.{◌≡◌, [], ◌∷◌, ◌++◌, Bool, Some, None, Ok, Err, OnOk, MatchResult};
ghost use Rattle.fm_raw.specs.declared.encode_error.EncodeError.{EncodeError};
ghost use Rattle.fm_labels.specs.Labels.{EmittedLabel, NamePiece, ValuePiece, NameFits, NameFault, written};
ghost use Rattle.fm_labels.specs.LabelEncoders.{GatheredPieces, GatheredLabels, EmitsPieces, TakesPieces, TakesLabels};
ghost use Rattle.fm_labels.specs.Refusals.{result_of, Takes, NoFault};
ghost use Rattle.fm_labels.specs.inside.Steps.{EndsLabel};

use crate::collecting::first_refusal::{FirstRefusal, own_refusal};
use crate::keep;
use crate::names::is_reserved;
use fm_grammar::MetricType;
use fm_raw::EncodeError;
use fm_raw::name::is_label_name;
use fm_text::LabelText;
use std::marker::Model;

pub(crate) mod gathering;
mod named;

/// A source of the name of a label.
///
/// <!-- cut: crates/expose_io/src/tree.rt -->
/// ```rust
/// encoder.encode(&(LabelStr("status"), self.status))
/// ```
pub trait EncodeLabelName {
    /// The pieces that `encode` emits: mostly one name.
    ghost pieces: { Self → EmittedLabel };

    /// `encode` may return an error of its own other than `Memory`.
    ghost may_fault: { Self → Type 0 } = { λ _. ⊥ };

    /// Passes the name to the encoder by `encode_label_name`.
    fn encode(&self, encoder: &mut LabelEncoder) -> Result<(), EncodeError>
        ensures { EmitsPieces (pieces self.now) (may_fault self.now)
            encoder.old encoder.new result };
}

/// A source of the value of a label.
///
/// <!-- cut: crates/expose_io/src/tree.rt -->
/// ```rust
/// ghost pieces = { λ method. ValuePiece (method_text method) ∷ [] };
/// // ..
/// fn encode(&self, encoder: &mut LabelEncoder) -> Result<(), EncodeError> {
///     encoder.encode_str_value(match self {
///         Method::Get => "Get",
///         Method::Put => "Put",
///     })
/// }
/// ```
pub trait EncodeLabelValue {
    /// The pieces that `encode` emits: mostly one value.
    ghost pieces: { Self → EmittedLabel };

    /// `encode` may return an error of its own other than `Memory`.
    ghost may_fault: { Self → Type 0 } = { λ _. ⊥ };

    /// A label with this value is left out.
    ghost is_skipped: { Self → Bool };

    /// Passes the value to the encoder by one of its `encode_.._value` calls.
    fn encode(&self, encoder: &mut LabelEncoder) -> Result<(), EncodeError>
        ensures { EmitsPieces (pieces self.now) (may_fault self.now)
            encoder.old encoder.new result };

    /// Whether a label with this value is left out: `false` for most values.
    fn skip_encoding(&self) -> bool
        ensures { result ≡ is_skipped self.now };
}

/// A source of a label.
///
/// <!-- cut: tests/scripts/src/own/labels.rt.in -->
/// ```rust
/// for piece in &self.pieces {
///     match piece {
///         Piece::Name(text) => encoder.encode_label_name(text.as_str())?,
///         Piece::Value(text) => encoder.encode_str_value(text.as_str())?,
///         Piece::Fault(error) => return Err(*error),
///     }
/// }
/// Ok(())
/// ```
pub trait EncodeLabel {
    /// The pieces that `encode` emits: a name and a value, or nothing for a label that is left out.
    ghost pieces: { Self → EmittedLabel };

    /// `encode` may return an error of its own other than `Memory`.
    ghost may_fault: { Self → Type 0 } = { λ _. ⊥ };

    /// Passes the label to the encoder.
    fn encode(&self, encoder: &mut LabelEncoder) -> Result<(), EncodeError>
        ensures { EmitsPieces (pieces self.now) (may_fault self.now)
            encoder.old encoder.new result };
}

/// Gathers the pieces of one label, which follows the labels before it.
///
/// <!-- cut: tests/unit/src/fm_labels_values.rt.in -->
/// ```rust
/// 9 => encoder.encode_u64_value(u64::MAX),
/// 10 => encoder.encode_u128_value(u128::MAX),
/// 11 => encoder.encode_usize_value(usize::MAX),
/// 12 => encoder.encode_bool_value(true),
/// 13 => encoder.encode_fixed_value(Fixed::from_millionths(-1)),
/// _ => encoder.encode_str_value("a\"b"),
/// ```
pub struct LabelEncoder {
    metric_type: MetricType,
    labels: LabelText,
    refused: FirstRefusal,
}

impl Drop for LabelEncoder {
    fn drop(self) {
        let LabelEncoder {
            metric_type: _,
            labels: _,
            refused: _,
        } = self;
    }
}

impl Model for LabelEncoder {
    ghost use Rattle.std.specs.Prelude.{◌≡◌, Some};
    ghost use Rattle.fm_grammar.specs.Exposition.{Text};
    ghost use Rattle.fm_labels.specs.Labels.{NameFits};
    ghost use Rattle.fm_labels.specs.inside.Steps.{pieces_of};
    ghost use Rattle.fm_labels.specs.LabelEncoders.{GatheredPieces};

    ghost Value = { GatheredPieces };

    ghost view = { λ e. record {
      metric_type = e.metric_type;
      labels = e.labels.labels;
      pieces = pieces_of e.labels.name e.labels.value;
      refused = e.refused.error;
    } };

    ghost invariant = { λ e. (name : Text) → e.labels.name ≡ Some name
        → NameFits e.metric_type e.labels.labels name };
}

impl LabelEncoder {
    // Tests whether a label with this name may follow the labels before it.
    fn test_name(&self, name: &str) -> Result<(), EncodeError>
        ensures { MatchResult result
            (λ _. NameFits self.now.metric_type self.now.labels name.now)
            (λ k. NameFault k self.now.metric_type self.now.labels name.now) }
    {
        if !is_label_name(name) {
            return Err(EncodeError::InvalidLabelName);
        }
        if is_reserved(self.metric_type, name) {
            return Err(EncodeError::ReservedLabel);
        }
        if self.labels.has_name(name) {
            return Err(EncodeError::DuplicateLabel);
        }
        Ok(())
    }

    /// Takes the label's name. Errors, in this order: the label already has a piece (`MalformedLabel`); the name is not a valid
    /// label name (`InvalidLabelName`); the metric's type reserves the name for its own labels (`ReservedLabel`); an earlier
    /// label has the name (`DuplicateLabel`); memory runs out (`Memory`).
    pub fn encode_label_name(&mut self, name: &str) -> Result<(), EncodeError>
        ensures { TakesPieces (NamePiece name.now ∷ []) NoFault self.old self.new result }
    {
        self.refused.check()?;
        if self.labels.is_named() || self.labels.is_valued() {
            return self.refused.refuse(EncodeError::MalformedLabel);
        }
        if let Err(error) = self.test_name(name) {
            return self.refused.refuse(error);
        }
        keep!(self.refused, self.labels.set_name(name))
    }

    /// Takes the label's value as it is. Fails with `MalformedLabel` if the label has no name yet or already has a value, and
    /// with `Memory` if memory runs out.
    pub fn encode_str_value(&mut self, value: &str) -> Result<(), EncodeError>
        ensures { TakesPieces (ValuePiece value.now ∷ []) NoFault self.old self.new result }
    {
        self.refused.check()?;
        if !self.labels.is_named() || self.labels.is_valued() {
            return self.refused.refuse(EncodeError::MalformedLabel);
        }
        keep!(self.refused, self.labels.set_value(value))
    }

    // Writes the current label, which has both pieces.
    fn write_label(&mut self) -> Result<(), EncodeError>
        requires accepting { self.old.refused ≡ None }
        ensures same_type { self.new.metric_type ≡ self.old.metric_type }
        ensures pieces { self.new.refused ≡ None → self.new.pieces ≡ [] }
        ensures labels { self.new.refused ≡ None
            → self.new.labels ≡ self.old.labels ++ written self.old.pieces }
        ensures refused { (k : EncodeError) → self.new.refused ≡ Some k → k ≡ EncodeError.Memory }
        ensures returned { result ≡ result_of self.new.refused }
    {
        keep!(self.refused, self.labels.end_label())
    }

    // Ends the current label, after the visited source returned `visited`.
    fn end_label(&mut self, visited: Result<(), EncodeError>) -> Result<(), EncodeError>
        ensures { Takes (EndsLabel visited self.old self.new) self.new.refused result }
    {
        self.refused.check()?;
        if let Err(error) = visited {
            return self.refused.refuse(own_refusal(error));
        }
        match (self.labels.is_named(), self.labels.is_valued()) {
            (false, false) => Ok(()),
            (true, true) => self.write_label(),
            _ => self.refused.refuse(EncodeError::MalformedLabel),
        }
    }
}

/// Gathers the labels of a label set.
///
/// <!-- cut: tests/scripts/src/own/labels.rt.in -->
/// ```rust
/// for label in &self.labels {
///     encoder.encode(label)?;
/// }
/// ```
pub struct LabelSetEncoder {
    label: LabelEncoder,
}

impl Drop for LabelSetEncoder {
    fn drop(self) {
        let LabelSetEncoder { label: _ } = self;
    }
}

impl Model for LabelSetEncoder {
    ghost use Rattle.std.specs.Prelude.{◌≡◌, [], None};
    ghost use Rattle.fm_labels.specs.LabelEncoders.{GatheredLabels};

    ghost Value = { GatheredLabels };

    ghost view = { λ e. record {
      metric_type = e.label.metric_type;
      labels = e.label.labels;
      refused = e.label.refused;
    } };

    ghost invariant = { λ e. e.label.refused ≡ None → e.label.pieces ≡ [] };
}

impl LabelSetEncoder {
    /// Takes one more label. Besides the errors of its name and its value: a name without a value is refused as
    /// `MalformedLabel`, and the label's own error becomes `Memory` or `MetricFault`.
    pub fn encode<L: EncodeLabel>(&mut self, label: &L) -> Result<(), EncodeError>
        ensures { TakesLabels (L.pieces label.now ∷ []) (L.may_fault label.now)
            self.old self.new result }
    {
        let visited = label.encode(&mut self.label);
        self.label.end_label(visited)
    }
}

//! The value of a gauge.
ghost use Rattle.std.specs.Prelude.{pos, List, [], ◌∷◌};
ghost use Rattle.fm_grammar.specs.Exposition.{Value as Number, Whole, Fixed as Millionths};
ghost use Rattle.fm_encoder.specs.Emits.{EmitsNumbers};

use crate::value::encoder::{OfGauge, ValueEncoder};
use fm_raw::EncodeError;
use fm_raw::fixed::Fixed;

/// Takes the value of a gauge, which is one number.
///
/// <!-- cut: tests/scripts/src/own/value.rt.in -->
/// ```rust
/// fn encode(&self, encoder: &mut GaugeValueEncoder) -> Result<(), EncodeError> {
///     // ..
///         encoder.encode_u32(*number)?;
/// ```
pub type GaugeValueEncoder = ValueEncoder<OfGauge>;

/// A source of the value of a gauge.
///
/// <!-- cut: tests/scripts/src/own/value.rt.in -->
/// ```rust
/// impl EncodeGaugeValue for OwnValue {
///     // ..
///     fn encode(&self, encoder: &mut GaugeValueEncoder) -> Result<(), EncodeError> {
/// ```
pub trait EncodeGaugeValue {
    /// The numbers that `encode` emits. A value with more or less than one is refused.
    ghost numbers: { Self → List Number };

    /// `encode` may return an error of its own other than `Memory`.
    ghost may_fault: { Self → Type 0 } = { λ _. ⊥ };

    /// Passes the number to the encoder.
    fn encode(&self, encoder: &mut GaugeValueEncoder) -> Result<(), EncodeError>
        ensures { EmitsNumbers (numbers self.now) (may_fault self.now)
            encoder.old encoder.new result };
}

impl EncodeGaugeValue for i32 {
    ghost numbers = { λ n. Whole n ∷ [] };

    fn encode(&self, encoder: &mut GaugeValueEncoder) -> Result<(), EncodeError> {
        encoder.encode_i32(*self)
    }
}

impl EncodeGaugeValue for i64 {
    ghost numbers = { λ n. Whole n ∷ [] };

    fn encode(&self, encoder: &mut GaugeValueEncoder) -> Result<(), EncodeError> {
        encoder.encode_i64(*self)
    }
}

impl EncodeGaugeValue for isize {
    ghost numbers = { λ n. Whole n ∷ [] };

    fn encode(&self, encoder: &mut GaugeValueEncoder) -> Result<(), EncodeError> {
        encoder.encode_isize(*self)
    }
}

impl EncodeGaugeValue for u32 {
    ghost numbers = { λ n. Whole (pos n) ∷ [] };

    fn encode(&self, encoder: &mut GaugeValueEncoder) -> Result<(), EncodeError> {
        encoder.encode_u32(*self)
    }
}

impl EncodeGaugeValue for u64 {
    ghost numbers = { λ n. Whole (pos n) ∷ [] };

    fn encode(&self, encoder: &mut GaugeValueEncoder) -> Result<(), EncodeError> {
        encoder.encode_u64(*self)
    }
}

impl EncodeGaugeValue for Fixed {
    ghost numbers = { λ n. Millionths n ∷ [] };

    fn encode(&self, encoder: &mut GaugeValueEncoder) -> Result<(), EncodeError> {
        encoder.encode_fixed(*self)
    }
}

//! The encoders of one number, which differ in the calls that they have.
ghost use Rattle.std.specs.Prelude.{◌≡◌, ◌⊎◌, pos, [], ◌∷◌, MatchResult, None, Some, Ok, Err};
ghost use Rattle.fm_grammar.specs.Exposition.{Whole, Fixed as Millionths};
ghost use Rattle.fm_raw.specs.declared.encode_error.EncodeError.{EncodeError};
ghost use Rattle.fm_exposition.specs.Samples.{value_of};
ghost use Rattle.fm_labels.specs.Refusals.{own_refusal, NoFault};
ghost use Rattle.fm_encoder.specs.Takes.{TakesNumbers};
ghost use Rattle.fm_encoder.specs.inside.Steps.{IsNumber};

use fm_exposition::Value;
use fm_labels::collecting::first_refusal::{FirstRefusal, own_refusal};
use fm_raw::EncodeError;
use fm_raw::fixed::{Fixed, FixedSum};
use std::marker::{Model, PhantomData};

/// A counter, whose value is not negative.
pub struct OfCounter;

/// A gauge.
pub struct OfGauge;

/// An unknown metric.
pub struct OfUnknown;

/// Metrics whose values may be signed numbers.
pub trait TakesSigned {}

impl TakesSigned for OfGauge {}

impl TakesSigned for OfUnknown {}

/// Metrics whose values may be a `u64`.
pub trait TakesLong {}

impl TakesLong for OfCounter {}

impl TakesLong for OfGauge {}

/// Takes the value of a metric of this kind, which is one number.
#[derive(Drop)]
pub struct ValueEncoder<K> {
    number: Option<Value>,
    refused: FirstRefusal,
    kind: PhantomData<K>,
}

impl<K> Model for ValueEncoder<K> {
    ghost use Rattle.std.specs.Prelude.{IfSome};
    ghost use Rattle.std.specs.Option.{option_to_list, option_map};
    ghost use Rattle.fm_exposition.specs.Samples.{value_of};
    ghost use Rattle.fm_encoder.specs.Gathered.{GatheredNumbers};
    ghost use Rattle.fm_encoder.specs.inside.Steps.{IsNumber};

    ghost Value = { GatheredNumbers };

    ghost view = { λ e. record {
      numbers = option_to_list (option_map value_of e.number);
      refused = e.refused.error;
    } };

    ghost invariant = { λ e. IfSome e.number (λ v. IsNumber (value_of v)) };
}

impl<K> ValueEncoder<K> {
    pub(crate) fn new() -> ValueEncoder<K>
        ensures { result ≡ record { numbers = []; refused = None } }
    {
        ValueEncoder {
            number: None,
            refused: FirstRefusal { error: None },
            kind: PhantomData,
        }
    }

    fn gather(&mut self, number: Value) -> Result<(), EncodeError>
        requires { IsNumber (value_of number) }
        ensures { TakesNumbers (value_of number ∷ []) NoFault self.old self.new result }
    {
        self.refused.check()?;
        if self.number.is_some() {
            return self.refused.refuse(EncodeError::ValueTwice);
        }
        self.number = Some(number);
        Ok(())
    }

    // The one number, after the visited source returned `visited`, or the first refusal.
    pub(crate) fn end(self, visited: Result<(), EncodeError>) -> Result<Value, EncodeError>
        ensures { MatchResult result
            (λ v. (self.refused ≡ None) × (visited ≡ Ok tt)
            × (self.numbers ≡ value_of v ∷ []) × IsNumber (value_of v))
            (λ k. (self.refused ≡ Some k)
            ⊎ (((e : EncodeError) × (self.refused ≡ None) × (visited ≡ Err e) × (k ≡ own_refusal e))
            ⊎ ((self.refused ≡ None) × (visited ≡ Ok tt)
            × (k ≡ EncodeError.MissingValue) × (self.numbers ≡ [])))) }
    {
        self.refused.check()?;
        match (visited, self.number) {
            (Ok(()), Some(number)) => Ok(number),
            (Ok(()), None) => Err(EncodeError::MissingValue),
            (Err(error), _) => Err(own_refusal(error)),
        }
    }

    /// Takes the number. A second number is refused as `ValueTwice`.
    pub fn encode_u32(&mut self, number: u32) -> Result<(), EncodeError>
        ensures { TakesNumbers (Whole (pos number) ∷ []) NoFault self.old self.new result }
    {
        self.gather(Value::Whole(i128::from(number)))
    }

    /// Takes the number, in millionths. A second number is refused as `ValueTwice`.
    pub fn encode_fixed(&mut self, number: Fixed) -> Result<(), EncodeError>
        ensures { TakesNumbers (Millionths number ∷ []) NoFault self.old self.new result }
    {
        self.gather(Value::Fixed(FixedSum::from(number)))
    }
}

impl<K: TakesLong> ValueEncoder<K> {
    /// Takes the number. A second number is refused as `ValueTwice`.
    pub fn encode_u64(&mut self, number: u64) -> Result<(), EncodeError>
        ensures { TakesNumbers (Whole (pos number) ∷ []) NoFault self.old self.new result }
    {
        self.gather(Value::Whole(i128::from(number)))
    }
}

impl<K: TakesSigned> ValueEncoder<K> {
    /// Takes the number. A second number is refused as `ValueTwice`.
    pub fn encode_i32(&mut self, number: i32) -> Result<(), EncodeError>
        ensures { TakesNumbers (Whole number ∷ []) NoFault self.old self.new result }
    {
        self.gather(Value::Whole(i128::from(number)))
    }

    /// Takes the number. A second number is refused as `ValueTwice`.
    pub fn encode_i64(&mut self, number: i64) -> Result<(), EncodeError>
        ensures { TakesNumbers (Whole number ∷ []) NoFault self.old self.new result }
    {
        self.gather(Value::Whole(i128::from(number)))
    }

    /// Takes the number. A second number is refused as `ValueTwice`.
    pub fn encode_isize(&mut self, number: isize) -> Result<(), EncodeError>
        ensures { TakesNumbers (Whole number ∷ []) NoFault self.old self.new result }
    {
        self.gather(Value::Whole(number as i128))
    }
}

impl ValueEncoder<OfCounter> {
    /// Takes the number. A second number is refused as `ValueTwice`.
    pub fn encode_usize(&mut self, number: usize) -> Result<(), EncodeError>
        ensures { TakesNumbers (Whole (pos number) ∷ []) NoFault self.old self.new result }
    {
        self.gather(Value::Whole(number as i128))
    }
}

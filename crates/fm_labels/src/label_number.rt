//! Whole numbers as values of labels, in decimal.
ghost use Rattle.std.specs.Prelude.{[], ◌∷◌, false, decimal};
ghost use Rattle.std.specs.Fmt.{signed_decimal};
ghost use Rattle.fm_labels.specs.Labels.{ValuePiece};
ghost use Rattle.fm_labels.specs.LabelEncoders.{TakesPieces};
ghost use Rattle.fm_labels.specs.Refusals.{NoFault};

use crate::label::{EncodeLabelValue, LabelEncoder};
use fm_raw::EncodeError;
use itoa::{Buffer, Integer};

impl LabelEncoder {
    fn encode_integer_value<I: Integer>(&mut self, value: I) -> Result<(), EncodeError>
        ensures { TakesPieces (ValuePiece (I.text value) ∷ []) NoFault self.old self.new result }
    {
        let mut buffer = Buffer::new();
        self.encode_str_value(buffer.format(value))
    }

    /// Takes the number in decimal as the label's value. It fails as `encode_str_value` does.
    pub fn encode_i8_value(&mut self, value: i8) -> Result<(), EncodeError>
        ensures { TakesPieces (ValuePiece (signed_decimal value) ∷ []) NoFault
            self.old self.new result }
    {
        self.encode_integer_value(value)
    }

    /// Takes the number in decimal as the label's value. It fails as `encode_str_value` does.
    pub fn encode_i16_value(&mut self, value: i16) -> Result<(), EncodeError>
        ensures { TakesPieces (ValuePiece (signed_decimal value) ∷ []) NoFault
            self.old self.new result }
    {
        self.encode_integer_value(value)
    }

    /// Takes the number in decimal as the label's value. It fails as `encode_str_value` does.
    pub fn encode_i32_value(&mut self, value: i32) -> Result<(), EncodeError>
        ensures { TakesPieces (ValuePiece (signed_decimal value) ∷ []) NoFault
            self.old self.new result }
    {
        self.encode_integer_value(value)
    }

    /// Takes the number in decimal as the label's value. It fails as `encode_str_value` does.
    pub fn encode_i64_value(&mut self, value: i64) -> Result<(), EncodeError>
        ensures { TakesPieces (ValuePiece (signed_decimal value) ∷ []) NoFault
            self.old self.new result }
    {
        self.encode_integer_value(value)
    }

    /// Takes the number in decimal as the label's value. It fails as `encode_str_value` does.
    pub fn encode_i128_value(&mut self, value: i128) -> Result<(), EncodeError>
        ensures { TakesPieces (ValuePiece (signed_decimal value) ∷ []) NoFault
            self.old self.new result }
    {
        self.encode_integer_value(value)
    }

    /// Takes the number in decimal as the label's value. It fails as `encode_str_value` does.
    pub fn encode_isize_value(&mut self, value: isize) -> Result<(), EncodeError>
        ensures { TakesPieces (ValuePiece (signed_decimal value) ∷ []) NoFault
            self.old self.new result }
    {
        self.encode_integer_value(value)
    }

    /// Takes the number in decimal as the label's value. It fails as `encode_str_value` does.
    pub fn encode_u8_value(&mut self, value: u8) -> Result<(), EncodeError>
        ensures { TakesPieces (ValuePiece (decimal value) ∷ []) NoFault self.old self.new result }
    {
        self.encode_integer_value(value)
    }

    /// Takes the number in decimal as the label's value. It fails as `encode_str_value` does.
    pub fn encode_u16_value(&mut self, value: u16) -> Result<(), EncodeError>
        ensures { TakesPieces (ValuePiece (decimal value) ∷ []) NoFault self.old self.new result }
    {
        self.encode_integer_value(value)
    }

    /// Takes the number in decimal as the label's value. It fails as `encode_str_value` does.
    pub fn encode_u32_value(&mut self, value: u32) -> Result<(), EncodeError>
        ensures { TakesPieces (ValuePiece (decimal value) ∷ []) NoFault self.old self.new result }
    {
        self.encode_integer_value(value)
    }

    /// Takes the number in decimal as the label's value. It fails as `encode_str_value` does.
    pub fn encode_u64_value(&mut self, value: u64) -> Result<(), EncodeError>
        ensures { TakesPieces (ValuePiece (decimal value) ∷ []) NoFault self.old self.new result }
    {
        self.encode_integer_value(value)
    }

    /// Takes the number in decimal as the label's value. It fails as `encode_str_value` does.
    pub fn encode_u128_value(&mut self, value: u128) -> Result<(), EncodeError>
        ensures { TakesPieces (ValuePiece (decimal value) ∷ []) NoFault self.old self.new result }
    {
        self.encode_integer_value(value)
    }

    /// Takes the number in decimal as the label's value. It fails as `encode_str_value` does.
    pub fn encode_usize_value(&mut self, value: usize) -> Result<(), EncodeError>
        ensures { TakesPieces (ValuePiece (decimal value) ∷ []) NoFault self.old self.new result }
    {
        self.encode_integer_value(value)
    }
}

impl EncodeLabelValue for i8 {
    ghost pieces = { λ n. ValuePiece (signed_decimal n) ∷ [] };

    ghost is_skipped = { λ _. false };

    fn encode(&self, encoder: &mut LabelEncoder) -> Result<(), EncodeError> {
        encoder.encode_i8_value(*self)
    }

    fn skip_encoding(&self) -> bool {
        false
    }
}

impl EncodeLabelValue for i16 {
    ghost pieces = { λ n. ValuePiece (signed_decimal n) ∷ [] };

    ghost is_skipped = { λ _. false };

    fn encode(&self, encoder: &mut LabelEncoder) -> Result<(), EncodeError> {
        encoder.encode_i16_value(*self)
    }

    fn skip_encoding(&self) -> bool {
        false
    }
}

impl EncodeLabelValue for i32 {
    ghost pieces = { λ n. ValuePiece (signed_decimal n) ∷ [] };

    ghost is_skipped = { λ _. false };

    fn encode(&self, encoder: &mut LabelEncoder) -> Result<(), EncodeError> {
        encoder.encode_i32_value(*self)
    }

    fn skip_encoding(&self) -> bool {
        false
    }
}

impl EncodeLabelValue for i64 {
    ghost pieces = { λ n. ValuePiece (signed_decimal n) ∷ [] };

    ghost is_skipped = { λ _. false };

    fn encode(&self, encoder: &mut LabelEncoder) -> Result<(), EncodeError> {
        encoder.encode_i64_value(*self)
    }

    fn skip_encoding(&self) -> bool {
        false
    }
}

impl EncodeLabelValue for i128 {
    ghost pieces = { λ n. ValuePiece (signed_decimal n) ∷ [] };

    ghost is_skipped = { λ _. false };

    fn encode(&self, encoder: &mut LabelEncoder) -> Result<(), EncodeError> {
        encoder.encode_i128_value(*self)
    }

    fn skip_encoding(&self) -> bool {
        false
    }
}

impl EncodeLabelValue for isize {
    ghost pieces = { λ n. ValuePiece (signed_decimal n) ∷ [] };

    ghost is_skipped = { λ _. false };

    fn encode(&self, encoder: &mut LabelEncoder) -> Result<(), EncodeError> {
        encoder.encode_isize_value(*self)
    }

    fn skip_encoding(&self) -> bool {
        false
    }
}

impl EncodeLabelValue for u8 {
    ghost pieces = { λ n. ValuePiece (decimal n) ∷ [] };

    ghost is_skipped = { λ _. false };

    fn encode(&self, encoder: &mut LabelEncoder) -> Result<(), EncodeError> {
        encoder.encode_u8_value(*self)
    }

    fn skip_encoding(&self) -> bool {
        false
    }
}

impl EncodeLabelValue for u16 {
    ghost pieces = { λ n. ValuePiece (decimal n) ∷ [] };

    ghost is_skipped = { λ _. false };

    fn encode(&self, encoder: &mut LabelEncoder) -> Result<(), EncodeError> {
        encoder.encode_u16_value(*self)
    }

    fn skip_encoding(&self) -> bool {
        false
    }
}

impl EncodeLabelValue for u32 {
    ghost pieces = { λ n. ValuePiece (decimal n) ∷ [] };

    ghost is_skipped = { λ _. false };

    fn encode(&self, encoder: &mut LabelEncoder) -> Result<(), EncodeError> {
        encoder.encode_u32_value(*self)
    }

    fn skip_encoding(&self) -> bool {
        false
    }
}

impl EncodeLabelValue for u64 {
    ghost pieces = { λ n. ValuePiece (decimal n) ∷ [] };

    ghost is_skipped = { λ _. false };

    fn encode(&self, encoder: &mut LabelEncoder) -> Result<(), EncodeError> {
        encoder.encode_u64_value(*self)
    }

    fn skip_encoding(&self) -> bool {
        false
    }
}

impl EncodeLabelValue for u128 {
    ghost pieces = { λ n. ValuePiece (decimal n) ∷ [] };

    ghost is_skipped = { λ _. false };

    fn encode(&self, encoder: &mut LabelEncoder) -> Result<(), EncodeError> {
        encoder.encode_u128_value(*self)
    }

    fn skip_encoding(&self) -> bool {
        false
    }
}

impl EncodeLabelValue for usize {
    ghost pieces = { λ n. ValuePiece (decimal n) ∷ [] };

    ghost is_skipped = { λ _. false };

    fn encode(&self, encoder: &mut LabelEncoder) -> Result<(), EncodeError> {
        encoder.encode_usize_value(*self)
    }

    fn skip_encoding(&self) -> bool {
        false
    }
}

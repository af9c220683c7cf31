//! Names and values of labels by reference or in a smart pointer, and texts that are borrowed or owned.
ghost use Rattle.std.specs.Prelude.{[], ◌∷◌, false};
ghost use Rattle.std.specs.Arc.{arc_value};
ghost use Rattle.std.specs.Cow.{cow_str_bytes};
ghost use Rattle.std.specs.Rc.{rc_value};
ghost use Rattle.fm_labels.specs.Labels.{NamePiece, ValuePiece};

use crate::label::{EncodeLabelName, EncodeLabelValue, LabelEncoder};
use fm_raw::EncodeError;
use std::borrow::CowStr;
use std::rc::Rc;
use std::sync::Arc;

impl<T: EncodeLabelName> EncodeLabelName for &T {
    ghost pieces = { λ r. T.pieces r.now };

    ghost may_fault = { λ r. T.may_fault r.now };

    fn encode(&self, encoder: &mut LabelEncoder) -> Result<(), EncodeError> {
        (**self).encode(encoder)
    }
}

impl<T: EncodeLabelName> EncodeLabelName for &mut T {
    ghost pieces = { λ r. T.pieces r.now };

    ghost may_fault = { λ r. T.may_fault r.now };

    fn encode(&self, encoder: &mut LabelEncoder) -> Result<(), EncodeError> {
        (**self).encode(encoder)
    }
}

impl<T: EncodeLabelName> EncodeLabelName for Box<T> {
    ghost pieces = { λ b. T.pieces b.value };

    ghost may_fault = { λ b. T.may_fault b.value };

    fn encode(&self, encoder: &mut LabelEncoder) -> Result<(), EncodeError> {
        (**self).encode(encoder)
    }
}

impl<T: EncodeLabelName> EncodeLabelName for Rc<T> {
    ghost pieces = { λ p. T.pieces (rc_value p) };

    ghost may_fault = { λ p. T.may_fault (rc_value p) };

    fn encode(&self, encoder: &mut LabelEncoder) -> Result<(), EncodeError> {
        (**self).encode(encoder)
    }
}

impl<T: EncodeLabelName> EncodeLabelName for Arc<T> {
    ghost pieces = { λ p. T.pieces (arc_value p) };

    ghost may_fault = { λ p. T.may_fault (arc_value p) };

    fn encode(&self, encoder: &mut LabelEncoder) -> Result<(), EncodeError> {
        (**self).encode(encoder)
    }
}

impl<T: EncodeLabelValue> EncodeLabelValue for &T {
    ghost pieces = { λ r. T.pieces r.now };

    ghost may_fault = { λ r. T.may_fault r.now };

    ghost is_skipped = { λ r. T.is_skipped r.now };

    fn encode(&self, encoder: &mut LabelEncoder) -> Result<(), EncodeError> {
        (**self).encode(encoder)
    }

    fn skip_encoding(&self) -> bool {
        (**self).skip_encoding()
    }
}

impl<T: EncodeLabelValue> EncodeLabelValue for &mut T {
    ghost pieces = { λ r. T.pieces r.now };

    ghost may_fault = { λ r. T.may_fault r.now };

    ghost is_skipped = { λ r. T.is_skipped r.now };

    fn encode(&self, encoder: &mut LabelEncoder) -> Result<(), EncodeError> {
        (**self).encode(encoder)
    }

    fn skip_encoding(&self) -> bool {
        (**self).skip_encoding()
    }
}

impl<T: EncodeLabelValue> EncodeLabelValue for Box<T> {
    ghost pieces = { λ b. T.pieces b.value };

    ghost may_fault = { λ b. T.may_fault b.value };

    ghost is_skipped = { λ b. T.is_skipped b.value };

    fn encode(&self, encoder: &mut LabelEncoder) -> Result<(), EncodeError> {
        (**self).encode(encoder)
    }

    fn skip_encoding(&self) -> bool {
        (**self).skip_encoding()
    }
}

impl<T: EncodeLabelValue> EncodeLabelValue for Rc<T> {
    ghost pieces = { λ p. T.pieces (rc_value p) };

    ghost may_fault = { λ p. T.may_fault (rc_value p) };

    ghost is_skipped = { λ p. T.is_skipped (rc_value p) };

    fn encode(&self, encoder: &mut LabelEncoder) -> Result<(), EncodeError> {
        (**self).encode(encoder)
    }

    fn skip_encoding(&self) -> bool {
        (**self).skip_encoding()
    }
}

impl<T: EncodeLabelValue> EncodeLabelValue for Arc<T> {
    ghost pieces = { λ p. T.pieces (arc_value p) };

    ghost may_fault = { λ p. T.may_fault (arc_value p) };

    ghost is_skipped = { λ p. T.is_skipped (arc_value p) };

    fn encode(&self, encoder: &mut LabelEncoder) -> Result<(), EncodeError> {
        (**self).encode(encoder)
    }

    fn skip_encoding(&self) -> bool {
        (**self).skip_encoding()
    }
}

/// A text that is borrowed or owned, as a name.
impl EncodeLabelName for CowStr<'_> {
    ghost pieces = { λ c. NamePiece (cow_str_bytes c) ∷ [] };

    fn encode(&self, encoder: &mut LabelEncoder) -> Result<(), EncodeError> {
        match self {
            CowStr::Borrowed(text) => encoder.encode_label_name(text),
            CowStr::Owned(text) => encoder.encode_label_name(text.as_str()),
        }
    }
}

/// A text that is borrowed or owned, as a value.
impl EncodeLabelValue for CowStr<'_> {
    ghost pieces = { λ c. ValuePiece (cow_str_bytes c) ∷ [] };

    ghost is_skipped = { λ _. false };

    fn encode(&self, encoder: &mut LabelEncoder) -> Result<(), EncodeError> {
        match self {
            CowStr::Borrowed(text) => encoder.encode_str_value(text),
            CowStr::Owned(text) => encoder.encode_str_value(text.as_str()),
        }
    }

    fn skip_encoding(&self) -> bool {
        false
    }
}

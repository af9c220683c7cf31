//! Label sets, by reference or in a smart pointer.
ghost use Rattle.std.specs.Arc.{arc_value};
ghost use Rattle.std.specs.Rc.{rc_value};

use crate::label::LabelSetEncoder;
use crate::label_set::EncodeLabelSet;
use fm_raw::EncodeError;
use std::rc::Rc;
use std::sync::Arc;

impl<T: EncodeLabelSet> EncodeLabelSet for &T {
    ghost labels = { λ r. T.labels r.now };

    ghost may_fault = { λ r. T.may_fault r.now };

    fn encode(&self, encoder: &mut LabelSetEncoder) -> Result<(), EncodeError> {
        (**self).encode(encoder)
    }

    fn is_empty(&self) -> bool {
        (**self).is_empty()
    }
}

impl<T: EncodeLabelSet> EncodeLabelSet for &mut T {
    ghost labels = { λ r. T.labels r.now };

    ghost may_fault = { λ r. T.may_fault r.now };

    fn encode(&self, encoder: &mut LabelSetEncoder) -> Result<(), EncodeError> {
        (**self).encode(encoder)
    }

    fn is_empty(&self) -> bool {
        (**self).is_empty()
    }
}

impl<T: EncodeLabelSet> EncodeLabelSet for Box<T> {
    ghost labels = { λ b. T.labels b.value };

    ghost may_fault = { λ b. T.may_fault b.value };

    fn encode(&self, encoder: &mut LabelSetEncoder) -> Result<(), EncodeError> {
        (**self).encode(encoder)
    }

    fn is_empty(&self) -> bool {
        (**self).is_empty()
    }
}

impl<T: EncodeLabelSet> EncodeLabelSet for Rc<T> {
    ghost labels = { λ p. T.labels (rc_value p) };

    ghost may_fault = { λ p. T.may_fault (rc_value p) };

    fn encode(&self, encoder: &mut LabelSetEncoder) -> Result<(), EncodeError> {
        (**self).encode(encoder)
    }

    fn is_empty(&self) -> bool {
        (**self).is_empty()
    }
}

impl<T: EncodeLabelSet> EncodeLabelSet for Arc<T> {
    ghost labels = { λ p. T.labels (arc_value p) };

    ghost may_fault = { λ p. T.may_fault (arc_value p) };

    fn encode(&self, encoder: &mut LabelSetEncoder) -> Result<(), EncodeError> {
        (**self).encode(encoder)
    }

    fn is_empty(&self) -> bool {
        (**self).is_empty()
    }
}

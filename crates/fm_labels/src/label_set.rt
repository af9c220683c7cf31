//! Label sets: lists, sets and maps of labels.
//!
//! <!-- cut: crates/own_metric/src/request.rt -->
//! ```rust
//! encode_labels(
//!     encoder,
//!     &[
//!         ("method", LabelValue::Text(self.method.as_str())),
//!         ("status", LabelValue::Whole(u64::from(self.status))),
//!         ("failed", LabelValue::Truth(self.failed)),
//!     ],
//! )
//! ```
ghost use Rattle.std.specs.Prelude.{◌≡◌, [], List, IsTrue, map, Any, Ok};
ghost use Rattle.fm_grammar.specs.LabelPairs.{labels_of};
ghost use Rattle.fm_labels.specs.Labels.{EmittedLabel, emitted_again};
ghost use Rattle.fm_labels.specs.LabelEncoders.{EmitsLabels};
ghost use Rattle.fm_labels.specs.Refusals.{NoFault};

use crate::label::{EncodeLabel, EncodeLabelName, EncodeLabelValue, LabelSetEncoder};
use fm_raw::EncodeError;
use std::collections::{BTreeMap, BTreeSet, LinkedList, VecDeque};

/// A source of a list of labels.
///
/// <!-- cut: crates/calling/src/families.rt -->
/// ```rust
/// impl EncodeLabelSet for Answer {
///     ghost labels = { λ answer. label (codes "status") (decimal answer.status) ∷ [] };
///
///     fn encode(&self, encoder: &mut LabelSetEncoder) -> Result<(), EncodeError> {
///         encode_labels(encoder, &[("status", LabelValue::Whole(self.status))])
///     }
/// }
/// ```
pub trait EncodeLabelSet {
    /// The labels that `encode` emits, each as its pieces.
    ghost labels: { Self → List EmittedLabel };

    /// `encode` may return an error of its own other than `Memory`.
    ghost may_fault: { Self → Type 0 } = { λ _. ⊥ };

    /// Passes the labels to the encoder, one after the other.
    fn encode(&self, encoder: &mut LabelSetEncoder) -> Result<(), EncodeError>
        ensures { EmitsLabels (labels self.now) (may_fault self.now)
            encoder.old encoder.new result };

    /// Whether it has no labels. If it returns true, the labels are not read.
    fn is_empty(&self) -> bool
        ensures { IsTrue result → labels self.now ≡ [] }
    {
        false
    }
}

/// Emits the labels of a slice in order.
pub fn encode_all<T: EncodeLabel>(
    labels: &[T],
    encoder: &mut LabelSetEncoder,
) -> Result<(), EncodeError>
    ensures { EmitsLabels (map T.pieces labels.now) (Any T.may_fault labels.now)
        encoder.old encoder.new result }
{
    for label in labels {
        encoder.encode(label)?;
    }
    Ok(())
}

/// Emits written labels again.
pub fn encode_written(
    labels: &[(String, String)],
    encoder: &mut LabelSetEncoder,
) -> Result<(), EncodeError>
    ensures { EmitsLabels (emitted_again (labels_of labels.now)) NoFault encoder.old encoder.new result }
{
    encode_all(labels, encoder)
}

/// Lends a slice as a label set.
///
/// <!-- cut: tests/scripts/src/sets.rt.in -->
/// ```rust
/// Container::Slice => emitted!(encoder, &LabelSlice(self.labels.as_slice())),
/// ```
#[derive(Clone, Copy, Debug)]
pub struct LabelSlice<'a, T>(pub &'a [T]);

impl<T: EncodeLabel> EncodeLabelSet for LabelSlice<'_, T> {
    ghost labels = { λ s. map T.pieces s.0.now };

    ghost may_fault = { λ s. Any T.may_fault s.0.now };

    fn encode(&self, encoder: &mut LabelSetEncoder) -> Result<(), EncodeError> {
        encode_all(self.0, encoder)
    }

    fn is_empty(&self) -> bool {
        self.0.is_empty()
    }
}

/// No labels.
impl EncodeLabelSet for () {
    ghost labels = { λ _. [] };

    fn encode(&self, encoder: &mut LabelSetEncoder) -> Result<(), EncodeError> {
        let _ = &encoder;
        Ok(())
    }

    fn is_empty(&self) -> bool {
        true
    }
}

impl<T: EncodeLabel> EncodeLabelSet for Vec<T> {
    ghost labels = { λ v. map T.pieces v.items };

    ghost may_fault = { λ v. Any T.may_fault v.items };

    fn encode(&self, encoder: &mut LabelSetEncoder) -> Result<(), EncodeError> {
        encode_all(self.as_slice(), encoder)
    }

    fn is_empty(&self) -> bool {
        self.len() == 0
    }
}

impl<T: EncodeLabel, const N: usize> EncodeLabelSet for [T; N] {
    ghost labels = { λ xs. map T.pieces xs };

    ghost may_fault = { λ xs. Any T.may_fault xs };

    fn encode(&self, encoder: &mut LabelSetEncoder) -> Result<(), EncodeError> {
        encode_all(&self[..], encoder)
    }

    fn is_empty(&self) -> bool {
        N == 0
    }
}

impl<T: EncodeLabel> EncodeLabelSet for VecDeque<T> {
    ghost labels = { λ q. map T.pieces q.items };

    ghost may_fault = { λ q. Any T.may_fault q.items };

    fn encode(&self, encoder: &mut LabelSetEncoder) -> Result<(), EncodeError> {
        let (front, back) = self.as_slices();
        encode_all(front, encoder)?;
        encode_all(back, encoder)
    }

    fn is_empty(&self) -> bool {
        self.len() == 0
    }
}

impl<T: EncodeLabel> EncodeLabelSet for LinkedList<T> {
    ghost labels = { λ l. map T.pieces l };

    ghost may_fault = { λ l. Any T.may_fault l };

    fn encode(&self, encoder: &mut LabelSetEncoder) -> Result<(), EncodeError> {
        for label in self {
            encoder.encode(label)?;
        }
        Ok(())
    }

    fn is_empty(&self) -> bool {
        self.len() == 0
    }
}

impl<T: EncodeLabel + Ord> EncodeLabelSet for BTreeSet<T> {
    ghost labels = { λ s. map T.pieces s.keys };

    ghost may_fault = { λ s. Any T.may_fault s.keys };

    fn encode(&self, encoder: &mut LabelSetEncoder) -> Result<(), EncodeError> {
        for label in self {
            encoder.encode(label)?;
        }
        Ok(())
    }

    fn is_empty(&self) -> bool {
        self.len() == 0
    }
}

impl<K: EncodeLabelName + Ord, V: EncodeLabelValue> EncodeLabelSet for BTreeMap<K, V> {
    ghost labels = { λ m. map (λ e. ⟦<(K, V) as EncodeLabel>⟧.pieces e) m.entries };

    ghost may_fault = { λ m. Any (λ e. ⟦<(K, V) as EncodeLabel>⟧.may_fault e) m.entries };

    fn encode(&self, encoder: &mut LabelSetEncoder) -> Result<(), EncodeError> {
        for label in self {
            encoder.encode(&label)?;
        }
        Ok(())
    }

    fn is_empty(&self) -> bool {
        self.len() == 0
    }
}

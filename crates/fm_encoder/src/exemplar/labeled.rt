//! Exemplars of labels, a value and a time.
ghost use Rattle.std.specs.Prelude.{[], ◌∷◌};
ghost use Rattle.std.specs.Option.{option_map};
ghost use Rattle.fm_encoder.specs.Points.{millis};

use crate::exemplar::{EncodeExemplar, ExemplarEncoder};
use fm_labels::label_set::EncodeLabelSet;
use fm_raw::EncodeError;
use fm_raw::fixed::Fixed;
use std::time::Duration;

/// An observation under labels, mostly of the trace that it belongs to.
///
/// <!-- cut: crates/own_metric/src/counters.rt -->
/// ```rust
/// pub trace: LabeledExemplar<LS>,
/// // ..
/// encoder.encode_counter(&self.requests, Some(&self.trace), None)
/// ```
#[derive(Clone, Copy, Debug, Drop)]
pub struct LabeledExemplar<LS> {
    /// Its labels. Their names and values together have at most 128 code points.
    pub labels: LS,
    /// The value that was observed.
    pub value: Fixed,
    /// When it was observed, since the Unix epoch. It is written in whole milliseconds.
    pub timestamp: Option<Duration>,
}

/// The exemplar of these labels, this value and this time.
impl<LS: EncodeLabelSet> EncodeExemplar for LabeledExemplar<LS> {
    ghost exemplars = { λ e. record {
      labels = LS.labels e.labels;
      value = e.value;
      time = option_map millis e.timestamp;
    } ∷ [] };

    ghost may_fault = { λ e. LS.may_fault e.labels };

    fn encode(&self, encoder: &mut ExemplarEncoder) -> Result<(), EncodeError> {
        encoder.encode(&self.labels, self.value, self.timestamp)
    }
}

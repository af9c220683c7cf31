//! A metric that is a label set and a point.
//!
//! <!-- cut: crates/own_metric/src/lib.rt -->
//! ```rust
//! pub fn waiting_now(queue: Queue, requests: u64) -> Labeled<Queue, ConstGauge<u64>> {
//! ```
ghost use Rattle.std.specs.Prelude.{◌≡◌, ◌⊎◌};
ghost use Rattle.fm_encoder.specs.Emits.{MembersOf};

use fm_encoder::{EncodeError, EncodeLabelSet, EncodeMetric, EncodePoint, MetricEncoder};
use fm_raw::{MetricType, TypedMetric};
use std::time::Duration;

/// A metric of a program's own that consists of its labels and its point. Its type is that of the point. The point is a constant
/// metric, such as `ConstGauge`, a shared one, such as `Counter`, or a type of the program's own.
///
/// <!-- cut: crates/own_metric/src/lib.rt -->
/// ```rust
/// pub fn waiting_now(queue: Queue, requests: u64) -> Labeled<Queue, ConstGauge<u64>> {
///     Labeled {
///         labels: queue,
///         point: ConstGauge::new(requests),
///     }
/// }
/// ```
#[derive(Clone, Debug, Drop)]
pub struct Labeled<LS, P> {
    /// Its labels.
    pub labels: LS,
    /// Its point.
    pub point: P,
}

impl<
    LS: EncodeLabelSet + Send + Sync + Drop,
    P: EncodePoint + TypedMetric + Send + Sync + Drop,
> EncodeMetric for Labeled<LS, P> {
    ghost types = { λ _ t. t ≡ P.TYPE };

    ghost offers = { λ m _. MembersOf (LS.labels m.labels) (P.points m.point) };

    ghost may_fault = { λ m. LS.may_fault m.labels ⊎ P.may_fault m.point };

    fn encode(&self, encoder: &mut MetricEncoder) -> Result<(), EncodeError> {
        encoder.encode(&self.labels, &self.point)
    }

    fn metric_type(&self) -> MetricType {
        P::TYPE
    }

    fn timestamp(&self) -> Option<Duration> {
        None
    }
}

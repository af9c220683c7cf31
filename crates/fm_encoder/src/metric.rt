//! Metrics: what offers the members of a family, and the encoder that takes them.
//!
//! <!-- cut: crates/own_metric/src/readings.rt -->
//! ```rust
//! if encoder.timestamp() != Some(u128::from(reading.0)) {
//!     return Err(EncodeError::MetricFault);
//! }
//! encoder.encode_gauge(&reading.1)
//! ```
ghost use Rattle.std.specs.Prelude.{◌≡◌, ℕ, List, [], ◌∷◌, ◌⊎◌, MatchOption, Option, None, IsTrue, map};
ghost use Rattle.std.specs.Option.{option_map, option_map_or};
ghost use Rattle.fm_grammar.specs.declared.MetricType.{MetricType};
ghost use Rattle.fm_encoder.specs.Points.{Member, UnknownPoint, GaugePoint, CounterPoint, StateSetPoint, InfoPoint, HistogramPoint, GaugeHistogramPoint, SummaryPoint, millis};
ghost use Rattle.fm_encoder.specs.Buckets.{slots_of, MaySlotsFault};
ghost use Rattle.fm_encoder.specs.States.{state_of};
ghost use Rattle.fm_encoder.specs.Emits.{EmitsMembers, MembersOf};
ghost use Rattle.fm_encoder.specs.Takes.{TakesMembers};
ghost use Rattle.fm_labels.specs.Refusals.{NoFault};

use crate::exemplar::EncodeExemplar;
use crate::point::{EncodePoint, PointEncoder};
use crate::value::{EncodeCounterValue, EncodeGaugeValue, EncodeUnknownValue};
use fm_grammar::MetricType;
use fm_labels::collecting::constants::ConstantLabels;
use fm_labels::label_set::EncodeLabelSet;
use fm_raw::EncodeError;
use fm_raw::bucket::Bucket;
use fm_raw::fixed::FixedSum;
use fm_raw::quantile::Quantile;
use std::marker::Model;
use std::time::Duration;

pub(crate) mod collector;

/// A metric: what a registry takes, in a box or, as a root does, without one.
///
/// A collector relies only on what the metric declares: the lists of members that `encode` may offer, the types and timestamps
/// that it may return, whether it may be empty, and whether `encode` may return an error of its own.
///
/// <!-- cut: crates/own_metric/src/lib.rt -->
/// ```rust
/// ghost offers = { λ w _ ms. ms ≡ record {
///   labels = ⟦<Queue as EncodeLabelSet>⟧.labels w.queue;
///   point = GaugePoint (Whole (pos w.requests) ∷ []);
/// } ∷ [] };
///
/// fn encode(&self, encoder: &mut MetricEncoder) -> Result<(), EncodeError> {
///     encoder.encode(&self.queue, &ConstGauge::new(self.requests))
/// }
/// ```
pub trait EncodeMetric: Send + Sync + Drop {
    /// `metric_type` may return this type. If nothing is declared, it may return any type.
    ghost types: { Self → MetricType → Type 0 } = { λ _ _. Unit {0} };

    /// `is_empty` may return true.
    ghost may_be_empty: { Self → Type 0 } = { λ _. ⊥ };

    /// `timestamp` may return this number of milliseconds, or none.
    ghost stamps: { Self → Option ℕ → Type 0 } = { λ _ stamp. stamp ≡ None };

    /// The lists of members that `encode` may offer in a family with this timestamp, in milliseconds: values and a timestamp of one
    /// moment can be declared together.
    ghost offers: { Self → Option ℕ → List Member → Type 0 };

    /// `encode` may return an error of its own other than `Memory`.
    ghost may_fault: { Self → Type 0 } = { λ _. ⊥ };

    /// Offers the metric's members to the encoder. It may wait if they are under a lock.
    fn encode(&self, encoder: &mut MetricEncoder) -> Result<(), EncodeError>
        ensures { EmitsMembers
            (offers self.now encoder.old.context.setting.time) (may_fault self.now)
            encoder.old encoder.new result };

    /// The metric's type. A registry reads it once, when the metric is registered.
    fn metric_type(&self) -> MetricType
        ensures { types self.now result };

    /// When the samples were taken, since the Unix epoch; mostly `None`. It is written in whole milliseconds.
    fn timestamp(&self) -> Option<Duration>
        ensures { stamps self.now (option_map millis result) };

    /// Whether the metric has no members. If so, nothing of it is written. It may wait for a lock.
    fn is_empty(&self) -> bool
        ensures { IsTrue result → may_be_empty self.now }
    {
        false
    }
}

/// A boxed metric declares and offers what the metric in the box does.
impl EncodeMetric for Box<dyn EncodeMetric> {
    ghost types = { λ b. (EncodeMetric-box b).types b.value };

    ghost may_be_empty = { λ b. (EncodeMetric-box b).may_be_empty b.value };

    ghost stamps = { λ b. (EncodeMetric-box b).stamps b.value };

    ghost offers = { λ b. (EncodeMetric-box b).offers b.value };

    ghost may_fault = { λ b. (EncodeMetric-box b).may_fault b.value };

    fn encode(&self, encoder: &mut MetricEncoder) -> Result<(), EncodeError> {
        (**self).encode(encoder)
    }

    fn metric_type(&self) -> MetricType {
        (**self).metric_type()
    }

    fn timestamp(&self) -> Option<Duration> {
        (**self).timestamp()
    }

    fn is_empty(&self) -> bool {
        (**self).is_empty()
    }
}

/// What a metric passes its members to, each with its labels and its point: it makes their samples.
///
/// <!-- cut: crates/own_metric/src/summaries.rt -->
/// ```rust
/// fn encode(&self, encoder: &mut MetricEncoder) -> Result<(), EncodeError> {
///     encoder.encode_summary(self.quantiles.as_slice(), self.seconds, self.requests, None)
/// }
/// ```
pub struct MetricEncoder {
    constants: ConstantLabels,
    points: PointEncoder,
}

impl Drop for MetricEncoder {
    fn drop(self) {
        let MetricEncoder {
            constants: _,
            points: _,
        } = self;
    }
}

impl Model for MetricEncoder {
    ghost use Rattle.fm_encoder.specs.Gathered.{GatheredMembers};
    ghost use Rattle.fm_labels.specs.inside.Constants.{AreTested};

    ghost Value = { GatheredMembers };

    ghost view = { λ e. record {
      context = record { setting = e.points.setting; constants = e.constants.labels };
      output = e.points.output;
      refused = e.points.refused;
    } };

    ghost invariant = { λ e. AreTested e.points.setting.metric_type e.constants };
}

impl MetricEncoder {
    /// Takes a member: its labels, which are read once, and its point. Errors, in this order: those of the point's type, of the
    /// labels, and of the point's values. An error of the labels' or the point's own becomes `Memory` or `MetricFault`.
    pub fn encode<LS: EncodeLabelSet, P: EncodePoint>(
        &mut self,
        labels: &LS,
        point: &P,
    ) -> Result<(), EncodeError>
        ensures { TakesMembers
            (MembersOf (LS.labels labels.now) (P.points point.now))
            (LS.may_fault labels.now ⊎ P.may_fault point.now)
            self.old self.new result }
    {
        collector::encode_member(self, None, labels, point)
    }

    /// Takes the point of an unknown metric without member labels, as `PointEncoder::encode_unknown` does.
    pub fn encode_unknown<V: EncodeUnknownValue>(&mut self, value: &V) -> Result<(), EncodeError>
        ensures { TakesMembers (λ ms. ms ≡ record {
          labels = [];
          point = UnknownPoint (V.numbers value.now);
        } ∷ []) (V.may_fault value.now) self.old self.new result }
    {
        self.points.begin_member(&self.constants, None, &())?;
        self.points.encode_unknown(value)
    }

    /// Takes the point of a gauge without member labels, as `PointEncoder::encode_gauge` does.
    pub fn encode_gauge<V: EncodeGaugeValue>(&mut self, value: &V) -> Result<(), EncodeError>
        ensures { TakesMembers (λ ms. ms ≡ record {
          labels = [];
          point = GaugePoint (V.numbers value.now);
        } ∷ []) (V.may_fault value.now) self.old self.new result }
    {
        self.points.begin_member(&self.constants, None, &())?;
        self.points.encode_gauge(value)
    }

    /// Takes the point of a counter without member labels, as `PointEncoder::encode_counter` does.
    pub fn encode_counter<V: EncodeCounterValue, E: EncodeExemplar>(
        &mut self,
        total: &V,
        exemplar: Option<&E>,
        created: Option<Duration>,
    ) -> Result<(), EncodeError>
        ensures { TakesMembers (λ ms. ms ≡ record {
          labels = [];
          point = CounterPoint (V.numbers total.now)
              (option_map_or (λ e. E.exemplars e.now) exemplar.entry [])
              (option_map millis created);
        } ∷ []) (V.may_fault total.now ⊎ MatchOption exemplar.entry NoFault (λ e. E.may_fault e.now))
            self.old self.new result }
    {
        self.points.begin_member(&self.constants, None, &())?;
        self.points.encode_counter(total, exemplar, created)
    }

    /// Takes the point of a state set without member labels, as `PointEncoder::encode_stateset` does.
    pub fn encode_stateset(&mut self, states: Vec<(&str, bool)>) -> Result<(), EncodeError>
        ensures { TakesMembers (λ ms. ms ≡ record {
          labels = [];
          point = StateSetPoint (map state_of states.entry.items);
        } ∷ []) NoFault self.old self.new result }
    {
        self.points.begin_member(&self.constants, None, &())?;
        self.points.encode_stateset(states)
    }

    /// Takes the point of an info without member labels, as `PointEncoder::encode_info` does.
    pub fn encode_info<LS: EncodeLabelSet>(&mut self, labels: &LS) -> Result<(), EncodeError>
        ensures { TakesMembers (λ ms. ms ≡ record {
          labels = [];
          point = InfoPoint (LS.labels labels.now);
        } ∷ []) (LS.may_fault labels.now) self.old self.new result }
    {
        self.points.begin_member(&self.constants, None, &())?;
        self.points.encode_info(labels)
    }

    /// Takes the point of a histogram without member labels, as `PointEncoder::encode_histogram` does.
    pub fn encode_histogram<E: EncodeExemplar>(
        &mut self,
        buckets: &[Bucket],
        exemplars: &[Option<&E>],
        count: u64,
        sum: FixedSum,
        created: Option<Duration>,
    ) -> Result<(), EncodeError>
        ensures { TakesMembers (λ ms. ms ≡ record {
          labels = [];
          point = HistogramPoint buckets.now (slots_of E.exemplars exemplars.now) count sum
              (option_map millis created);
        } ∷ []) (MaySlotsFault E.may_fault exemplars.now) self.old self.new result }
    {
        self.points.begin_member(&self.constants, None, &())?;
        self.points
            .encode_histogram(buckets, exemplars, count, sum, created)
    }

    /// Takes the point of a gauge histogram without member labels, as `PointEncoder::encode_gauge_histogram` does.
    pub fn encode_gauge_histogram<E: EncodeExemplar>(
        &mut self,
        buckets: &[Bucket],
        exemplars: &[Option<&E>],
        count: u64,
        sum: FixedSum,
    ) -> Result<(), EncodeError>
        ensures { TakesMembers (λ ms. ms ≡ record {
          labels = [];
          point = GaugeHistogramPoint buckets.now (slots_of E.exemplars exemplars.now) count sum;
        } ∷ []) (MaySlotsFault E.may_fault exemplars.now) self.old self.new result }
    {
        self.points.begin_member(&self.constants, None, &())?;
        self.points
            .encode_gauge_histogram(buckets, exemplars, count, sum)
    }

    /// Takes the point of a summary without member labels, as `PointEncoder::encode_summary` does.
    pub fn encode_summary(
        &mut self,
        quantiles: &[Quantile],
        sum: FixedSum,
        count: u64,
        created: Option<Duration>,
    ) -> Result<(), EncodeError>
        ensures { TakesMembers (λ ms. ms ≡ record {
          labels = [];
          point = SummaryPoint quantiles.now sum count (option_map millis created);
        } ∷ []) NoFault self.old self.new result }
    {
        self.points.begin_member(&self.constants, None, &())?;
        self.points.encode_summary(quantiles, sum, count, created)
    }

    /// The timestamp of the current family, in milliseconds since the Unix epoch. A metric whose values change can offer those of
    /// this moment.
    pub fn timestamp(&self) -> Option<u128>
        ensures { result ≡ self.now.context.setting.time }
    {
        self.points.time()
    }
}

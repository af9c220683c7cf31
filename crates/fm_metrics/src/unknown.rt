//! Metrics of unknown type.
//!
//! <!-- cut: tests/unit/src/fastmetrics_constant_metrics.rt.in -->
//! ```rust
//! root.register("c", "H", None, Unknown::<i64>::new(-4))?;
//! ```
ghost use Rattle.std.specs.Prelude.{◌≡◌, [], ◌∷◌};
ghost use Rattle.fm_grammar.specs.declared.MetricType.TheVariants.{Unknown as UnknownType};
ghost use Rattle.fm_encoder.specs.Points.{UnknownPoint};
ghost use Rattle.fm_metrics.specs.Constants.{unknown_value};

use fm_encoder::{EncodeMetric, EncodePoint, EncodeUnknownValue, MetricEncoder, PointEncoder};
pub use fm_raw::UnknownValue;
use fm_raw::{EncodeError, MetricType, TypedMetric};
use std::time::Duration;

/// A metric of unknown type that keeps the value it was made with.
///
/// `T` is `i32`, `i64`, `isize`, `u32` or `Fixed`.
///
/// <!-- cut: tests/scripts/src/metrics/constant.rt.in -->
/// ```rust
/// fn unknown<N: Told + UnknownValue>(line: &Line) -> Result<Unknown<N>, Stop> {
///     Ok(Unknown::new(N::read(line.argument(0)?)?))
/// }
/// ```
#[derive(Clone, Debug, Drop)]
pub struct Unknown<T: UnknownValue> {
    value: T,
}

impl<T: UnknownValue> Unknown<T> {
    /// A metric with this value.
    pub fn new(value: T) -> Unknown<T>
        ensures { unknown_value result ≡ value }
    {
        Unknown { value }
    }

    /// The metric's value.
    pub fn get(&self) -> &T
        ensures { result.now ≡ unknown_value self.now }
    {
        &self.value
    }
}

impl<T: UnknownValue> TypedMetric for Unknown<T> {
    ghost TYPE = { UnknownType };

    const TYPE: MetricType = MetricType::Unknown;
}

impl<T: UnknownValue + EncodeUnknownValue> EncodePoint for Unknown<T> {
    ghost points = { λ u ps. ps ≡ UnknownPoint (T.numbers u.value) ∷ [] };

    ghost may_fault = { λ u. T.may_fault u.value };

    fn encode(&self, points: &mut PointEncoder) -> Result<(), EncodeError> {
        points.encode_unknown(&self.value)
    }
}

impl<T: UnknownValue + EncodeUnknownValue + Drop> EncodeMetric for Unknown<T> {
    ghost types = { λ _ t. t ≡ UnknownType };

    ghost offers = { λ u _ ms. ms
        ≡ record { labels = []; point = UnknownPoint (T.numbers u.value) } ∷ [] };

    ghost may_fault = { λ u. T.may_fault u.value };

    fn encode(&self, encoder: &mut MetricEncoder) -> Result<(), EncodeError> {
        encoder.encode(&(), self)
    }

    fn metric_type(&self) -> MetricType {
        MetricType::Unknown
    }

    fn timestamp(&self) -> Option<Duration> {
        None
    }
}

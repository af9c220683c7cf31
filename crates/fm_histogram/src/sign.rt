//! The one difference between histograms and gauge histograms: whether negative values and bounds are taken.
ghost use Rattle.std.specs.Prelude.{◌≡◌, ℕ, Bool, true, false, [], ◌∷◌, Option};
ghost use Rattle.std.specs.Option.{option_map};
ghost use Rattle.fm_grammar.specs.declared.MetricType.{MetricType as FamilyType};
ghost use Rattle.fm_grammar.specs.declared.MetricType.TheVariants.{Histogram as HistogramType, GaugeHistogram as GaugeHistogramType};
ghost use Rattle.fm_encoder.specs.Points.{millis, Point};
ghost use Rattle.fm_encoder.specs.Emits.{EmitsPoints};
ghost use Rattle.fm_histogram.specs.Histogram.{Histogram};
ghost use Rattle.fm_histogram.specs.Shown.{point_of, gauge_point_of};
ghost use Rattle.fm_labels.specs.Refusals.{NoFault};

use crate::counts::Counts;
use fm_encoder::{PointEncoder, encode_bare_gauge_histogram, encode_bare_histogram};
use fm_raw::{EncodeError, FixedSum, MetricType};
use std::time::Duration;

/// Which values and bounds are taken, and the type and the point of what was counted.
pub trait Sign: Drop {
    /// Whether negative values and bounds are taken.
    ghost NEGATIVE: { Bool };

    /// The type of the family, as contracts see it.
    ghost TYPE: { FamilyType };

    /// The point of what was counted, with this time of creation in milliseconds where its type has one.
    ghost point: { Histogram → Option ℕ → Point };

    /// Whether negative values and bounds are taken.
    const NEGATIVE: bool;

    /// The type of the family.
    const TYPE: MetricType;

    /// Emits the point.
    fn encode(
        counts: &Counts,
        created: Option<Duration>,
        points: &mut PointEncoder,
    ) -> Result<(), EncodeError>
        ensures { EmitsPoints
            (λ ps. ps ≡ point counts.now (option_map millis created) ∷ [])
            NoFault points.old points.new result };
}

/// Of histograms: values and bounds that are not negative are taken.
#[derive(Drop)]
pub struct NotNegative;

/// Of gauge histograms: all values and bounds are taken.
#[derive(Drop)]
pub struct Signed;

impl Sign for NotNegative {
    ghost NEGATIVE = { false };

    ghost TYPE = { HistogramType };

    ghost point = { point_of };

    const NEGATIVE: bool = false;

    const TYPE: MetricType = MetricType::Histogram;

    fn encode(
        counts: &Counts,
        created: Option<Duration>,
        points: &mut PointEncoder,
    ) -> Result<(), EncodeError> {
        let sum = FixedSum::from_millionths(counts.sum());
        encode_bare_histogram(points, counts.buckets(), counts.count(), sum, created)
    }
}

impl Sign for Signed {
    ghost NEGATIVE = { true };

    ghost TYPE = { GaugeHistogramType };

    ghost point = { λ s _. gauge_point_of s };

    const NEGATIVE: bool = true;

    const TYPE: MetricType = MetricType::GaugeHistogram;

    fn encode(
        counts: &Counts,
        _created: Option<Duration>,
        points: &mut PointEncoder,
    ) -> Result<(), EncodeError> {
        let sum = FixedSum::from_millionths(counts.sum());
        encode_bare_gauge_histogram(points, counts.buckets(), counts.count(), sum)
    }
}

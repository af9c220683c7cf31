//! Histograms and gauge histograms none of whose buckets has an exemplar.
ghost use Rattle.std.specs.Prelude.{◌≡◌, [], ◌∷◌, None, map};
ghost use Rattle.std.specs.Option.{option_map};
ghost use Rattle.fm_encoder.specs.Points.{HistogramPoint, GaugeHistogramPoint, millis};
ghost use Rattle.fm_labels.specs.Refusals.{Takes, NoFault};
ghost use Rattle.fm_encoder.specs.Takes.{TakesPoints};
ghost use Rattle.fm_encoder.specs.inside.BucketSteps.{HasBuckets, PushesBuckets};

use crate::point::PointEncoder;
use fm_grammar::{MetricType, SampleKind};
use fm_raw::EncodeError;
use fm_raw::bucket::Bucket;
use fm_raw::fixed::FixedSum;
use std::time::Duration;

/// Emits a histogram's point as `PointEncoder::encode_histogram` does where each slot is empty, and takes no list of such slots.
pub fn encode_bare_histogram(
    points: &mut PointEncoder,
    buckets: &[Bucket],
    count: u64,
    sum: FixedSum,
    created: Option<Duration>,
) -> Result<(), EncodeError>
    ensures { TakesPoints
        (λ ps. ps ≡ HistogramPoint buckets.now (map (λ _. []) buckets.now) count sum
        (option_map millis created) ∷ [])
        NoFault points.old points.new result }
{
    points.begin_buckets(MetricType::Histogram, buckets.len(), buckets.len())?;
    push_bare_buckets(points, buckets)?;
    points.push_totals(count, sum, created)
}

/// Emits a gauge histogram's point as `PointEncoder::encode_gauge_histogram` does where each slot is empty, and takes no list of such
/// slots.
pub fn encode_bare_gauge_histogram(
    points: &mut PointEncoder,
    buckets: &[Bucket],
    count: u64,
    sum: FixedSum,
) -> Result<(), EncodeError>
    ensures { TakesPoints
        (λ ps. ps ≡ GaugeHistogramPoint buckets.now (map (λ _. []) buckets.now) count sum ∷ [])
        NoFault points.old points.new result }
{
    points.begin_buckets(MetricType::GaugeHistogram, buckets.len(), buckets.len())?;
    push_bare_buckets(points, buckets)?;
    points.push_count_and_sum(SampleKind::GCount, count, SampleKind::GSum, sum)
}

// Adds a sample without exemplar for each bucket, in order.
fn push_bare_buckets(points: &mut PointEncoder, buckets: &[Bucket]) -> Result<(), EncodeError>
    requires accepting { points.old.refused ≡ None }
    requires buckets { HasBuckets points.old.setting.metric_type }
    ensures { Takes
        (PushesBuckets buckets.now (map (λ _. []) buckets.now) NoFault points.old points.new)
        points.new.refused result }
{
    let front = points.bucket_front()?;
    let mut values = 0;
    for i in 0..buckets.len() {
        values = points.push_bucket(&front, values, i, &buckets[i], None::<&()>)?;
    }
    points.front = front;
    Ok(())
}

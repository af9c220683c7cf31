//! The points of histograms and gauge histograms.
ghost use Rattle.std.specs.Prelude.{◌≡◌, [], ◌∷◌, length, None, Some, pos, MatchOption, IfSome, IfOk, IfErr, OnOk};
ghost use Rattle.std.specs.Option.{option_map, option_map_or};
ghost use Rattle.fm_grammar.specs.declared.MetricType.{MetricType};
ghost use Rattle.fm_grammar.specs.WellFormed.{IsExemplar};
ghost use Rattle.fm_grammar.specs.Exposition.{Whole};
ghost use Rattle.fm_grammar.specs.declared.SampleKind.TheVariants.{Bucket as BucketKind};
ghost use Rattle.fm_raw.specs.declared.encode_error.EncodeError.{EncodeError};
ghost use Rattle.fm_exposition.specs.Samples.{exemplar_of};
ghost use Rattle.fm_writer.specs.Front.{line_front};
ghost use Rattle.fm_encoder.specs.Points.{HistogramPoint, GaugeHistogramPoint, millis, plain_sample, bound_label};
ghost use Rattle.fm_labels.specs.Refusals.{Takes, NoFault};
ghost use Rattle.fm_encoder.specs.Takes.{TakesPoints};
ghost use Rattle.fm_encoder.specs.inside.Steps.{PushesSample};
ghost use Rattle.fm_encoder.specs.Buckets.{slots_of, MaySlotsFault};
ghost use Rattle.fm_encoder.specs.inside.BucketSteps.{HasBuckets, BeginsBuckets, PushesBucket, PushesBuckets};

use crate::exemplar::{EncodeExemplar, exemplar_given};
use crate::point::PointEncoder;
use crate::point::bound_label::label_of_bucket;
use crate::point::totals::count_value;
use fm_exposition::Exemplar;
use fm_grammar::{MetricType, SampleKind};
use fm_labels::collecting::gathering;
use fm_labels::keep;
use fm_raw::EncodeError;
use fm_raw::bucket::Bucket;
use fm_raw::fixed::FixedSum;
use fm_text::GrowingText;
use fm_writer::{NewSample, render_front};
use std::mem;
use std::time::Duration;

pub mod bare;

impl PointEncoder {
    /// Takes a histogram's point: its buckets, each with its own count; a slot for the exemplar of each bucket; how many values
    /// there are; their sum in millionths; and when it was created, which is written in whole milliseconds. The sample of a
    /// bucket has the bound as the label `le`, and shows how many values the bucket and those before it have together.
    ///
    /// Errors, in this order: the family has another type (`KindMismatch`); the buckets and the slots differ in number
    /// (`ExemplarCountMismatch`); the errors of the labels; then for each bucket in turn, the count to be shown exceeds the
    /// greatest `u64` (`BucketOverflow`), or an error of the exemplar. Fails with `Memory` if memory runs out.
    pub fn encode_histogram<E: EncodeExemplar>(
        &mut self,
        buckets: &[Bucket],
        exemplars: &[Option<&E>],
        count: u64,
        sum: FixedSum,
        created: Option<Duration>,
    ) -> Result<(), EncodeError>
        ensures { TakesPoints
            (λ ps. ps ≡ HistogramPoint buckets.now (slots_of E.exemplars exemplars.now) count sum
            (option_map millis created) ∷ [])
            (MaySlotsFault E.may_fault exemplars.now) self.old self.new result }
    {
        self.begin_buckets(MetricType::Histogram, buckets.len(), exemplars.len())?;
        self.push_buckets(buckets, exemplars)?;
        self.push_totals(count, sum, created)
    }

    /// Takes a gauge histogram's point: its buckets, how many values there are, and their sum in millionths. It fails as
    /// `encode_histogram` does.
    pub fn encode_gauge_histogram<E: EncodeExemplar>(
        &mut self,
        buckets: &[Bucket],
        exemplars: &[Option<&E>],
        count: u64,
        sum: FixedSum,
    ) -> Result<(), EncodeError>
        ensures { TakesPoints
            (λ ps. ps
            ≡ GaugeHistogramPoint buckets.now (slots_of E.exemplars exemplars.now) count sum ∷ [])
            (MaySlotsFault E.may_fault exemplars.now) self.old self.new result }
    {
        self.begin_buckets(MetricType::GaugeHistogram, buckets.len(), exemplars.len())?;
        self.push_buckets(buckets, exemplars)?;
        self.push_count_and_sum(SampleKind::GCount, count, SampleKind::GSum, sum)
    }

    // Tests a point's type, then that each bucket has a slot, and then whether the common labels were refused.
    fn begin_buckets(
        &mut self,
        metric_type: MetricType,
        buckets: usize,
        slots: usize,
    ) -> Result<(), EncodeError>
        ensures { Takes
            (BeginsBuckets metric_type buckets slots self.old self.new) self.new.refused result }
    {
        let is_of_type = metric_type == gathering::metric_type(&self.labels);
        if self.refused.error.is_none() && is_of_type && buckets != slots {
            return self.refused.refuse(EncodeError::ExemplarCountMismatch);
        }
        self.begin_point(metric_type)
    }

    // The front of the lines of buckets, under the family's name and the common labels. It takes the memory of the front before.
    fn bucket_front(&mut self) -> Result<GrowingText, EncodeError>
        ensures rendered { IfOk result
            (λ front. front ≡ line_front self.old.setting.name BucketKind self.old.common) }
        ensures same { OnOk result (self.new ≡ self.old) }
        ensures refused { IfErr result
            (λ e. (e ≡ EncodeError.Memory) × (self.new ≡ record self.old { refused = Some e })) }
    {
        let mut front = mem::replace(&mut self.front, GrowingText::new(self.alloc));
        match render_front(
            &mut front,
            self.name.as_str(),
            SampleKind::Bucket,
            gathering::text(&self.labels),
        ) {
            Ok(()) => Ok(front),
            Err(_) => self.refused.refuse(EncodeError::Memory),
        }
    }

    // Adds a sample for each bucket, in order.
    fn push_buckets<E: EncodeExemplar>(
        &mut self,
        buckets: &[Bucket],
        exemplars: &[Option<&E>],
    ) -> Result<(), EncodeError>
        requires accepting { self.old.refused ≡ None }
        requires buckets { HasBuckets self.old.setting.metric_type }
        requires slots { length exemplars.now ≡ length buckets.now }
        ensures { Takes (PushesBuckets buckets.now
            (slots_of E.exemplars exemplars.now)
            (MaySlotsFault E.may_fault exemplars.now)
            self.old self.new) self.new.refused result }
    {
        let front = self.bucket_front()?;
        let mut values = 0;
        for i in 0..buckets.len() {
            values = self.push_bucket(&front, values, i, &buckets[i], exemplars[i])?;
        }
        self.front = front;
        Ok(())
    }

    // Adds the sample of a bucket, given the count of values before it, and returns the count that includes the bucket's own.
    fn push_bucket<E: EncodeExemplar>(
        &mut self,
        front: &GrowingText,
        before: u64,
        index: usize,
        bucket: &Bucket,
        exemplar: Option<&E>,
    ) -> Result<u64, EncodeError>
        requires front { front.now ≡ line_front self.old.setting.name BucketKind self.old.common }
        requires accepting { self.old.refused ≡ None }
        requires buckets { HasBuckets self.old.setting.metric_type }
        ensures { PushesBucket before bucket.now
            (option_map_or (λ e. E.exemplars e.now) exemplar.entry [])
            (MatchOption exemplar.entry NoFault (λ e. E.may_fault e.now))
            self.old self.new result }
    {
        let Some(values) = before.checked_add(bucket.count()) else {
            return self.refused.refuse(EncodeError::BucketOverflow);
        };
        let exemplar = match exemplar {
            Some(exemplar) => match exemplar_given(self.alloc, exemplar) {
                Ok(exemplar) => exemplar,
                Err(error) => return self.refused.refuse(error),
            },
            None => None,
        };
        self.push_bound(front, index, bucket, values, exemplar)?;
        Ok(values)
    }

    // Adds a sample that shows this count of values up to the bound.
    fn push_bound(
        &mut self,
        front: &GrowingText,
        index: usize,
        bucket: &Bucket,
        values: u64,
        exemplar: Option<Exemplar>,
    ) -> Result<(), EncodeError>
        requires front { front.now ≡ line_front self.old.setting.name BucketKind self.old.common }
        requires accepting { self.old.refused ≡ None }
        requires buckets { HasBuckets self.old.setting.metric_type }
        requires exemplar { IfSome exemplar (λ x. IsExemplar (exemplar_of x)) }
        ensures { Takes (PushesSample
            (record (plain_sample self.old.setting self.old.common BucketKind
            (bound_label bucket.now.upper_bound ∷ []) (Whole (pos values)))
            { exemplar = option_map exemplar_of exemplar })
            self.old self.new) self.new.refused result }
    {
        let Ok(own) = label_of_bucket(self.alloc, &mut self.bounds, index, bucket) else {
            return self.refused.refuse(EncodeError::Memory);
        };
        let mut sample = NewSample {
            kind: SampleKind::Bucket,
            common: gathering::text(&self.labels),
            own,
            value: count_value(values),
            time: self.time,
            exemplar,
        };
        keep!(
            self.refused,
            self.sink.push(self.name.as_str(), &mut sample, Some(front))
        )
    }
}

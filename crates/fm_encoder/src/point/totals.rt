// How many values a point has, and their sum.
ghost use Rattle.std.specs.Prelude.{◌≡◌, ◌⊎◌, ◌++◌, pos, None};
ghost use Rattle.std.specs.Option.{option_map};
ghost use Rattle.fm_grammar.specs.declared.MetricType.{MetricType};
ghost use Rattle.fm_grammar.specs.declared.SampleKind.{SampleKind};
ghost use Rattle.fm_grammar.specs.WellFormed.{ValueFits};
ghost use Rattle.fm_grammar.specs.Exposition.{Whole, Fixed as Millionths};
ghost use Rattle.fm_exposition.specs.declared.exposition.Value.TheVariants.{Whole as WholeValue, Fixed as FixedValue};
ghost use Rattle.fm_encoder.specs.Points.{millis, total_samples, created_samples};
ghost use Rattle.fm_labels.specs.Refusals.{Takes};
ghost use Rattle.fm_encoder.specs.inside.Steps.{PushesSamples};
ghost use Rattle.fm_encoder.specs.inside.BucketSteps.{HasTotals};

use crate::point::PointEncoder;
use fm_exposition::Value;
use fm_grammar::SampleKind;
use fm_raw::EncodeError;
use fm_raw::fixed::FixedSum;
use std::time::Duration;

// The value of a count.
pub(crate) fn count_value(count: u64) -> Value
    ensures value { result ≡ WholeValue (pos count) }
    ensures fits { ValueFits (Whole (pos count)) }
{
    Value::Whole(i128::from(count))
}

// The value of a sum.
fn sum_value(sum: FixedSum) -> Value
    ensures value { result ≡ FixedValue sum }
    ensures fits { ValueFits (Millionths sum) }
{
    Value::Fixed(FixedSum::from_millionths(sum.millionths()))
}

impl PointEncoder {
    // Adds the samples of how many values there are, of their sum, and of a time of creation, if there is one.
    pub(crate) fn push_totals(
        &mut self,
        count: u64,
        sum: FixedSum,
        created: Option<Duration>,
    ) -> Result<(), EncodeError>
        requires accepting { self.old.refused ≡ None }
        requires has_created { (self.old.setting.metric_type ≡ MetricType.Histogram)
            ⊎ (self.old.setting.metric_type ≡ MetricType.Summary) }
        ensures { Takes (PushesSamples
            (total_samples self.old.setting self.old.common
            SampleKind.Count SampleKind.Sum count sum
            ++ created_samples self.old.setting self.old.common (option_map millis created))
            self.old self.new) self.new.refused result }
    {
        self.push_count_and_sum(SampleKind::Count, count, SampleKind::Sum, sum)?;
        match created {
            Some(created) => self.push_created(created),
            None => Ok(()),
        }
    }

    // Adds a sample of how many values there are, and one of their sum.
    pub(crate) fn push_count_and_sum(
        &mut self,
        of_count: SampleKind,
        count: u64,
        of_sum: SampleKind,
        sum: FixedSum,
    ) -> Result<(), EncodeError>
        requires accepting { self.old.refused ≡ None }
        requires kinds { HasTotals self.old.setting.metric_type of_count of_sum }
        ensures { Takes (PushesSamples
            (total_samples self.old.setting self.old.common of_count of_sum count sum)
            self.old self.new) self.new.refused result }
    {
        self.push_sample(of_count, &count_value(count), None)?;
        self.push_sample(of_sum, &sum_value(sum), None)
    }
}

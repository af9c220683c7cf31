//! The points of summaries.
ghost use Rattle.std.specs.Prelude.{◌≡◌, [], ◌∷◌, None, map};
ghost use Rattle.std.specs.Option.{option_map};
ghost use Rattle.fm_grammar.specs.declared.MetricType.{MetricType};
ghost use Rattle.fm_encoder.specs.Points.{SummaryPoint, millis};
ghost use Rattle.fm_encoder.specs.inside.Samples.{quantile_sample};
ghost use Rattle.fm_labels.specs.Refusals.{Takes, NoFault};
ghost use Rattle.fm_encoder.specs.Takes.{TakesPoints};
ghost use Rattle.fm_encoder.specs.inside.Steps.{PushesSample, PushesSamples};

use crate::point::PointEncoder;
use fm_exposition::Value;
use fm_grammar::{MetricType, SampleKind};
use fm_raw::EncodeError;
use fm_raw::fixed::{FixedBuffer, FixedSum};
use fm_raw::quantile::{QUANTILE_LABEL, Quantile};
use fm_text::LabelText;
use std::time::Duration;

impl PointEncoder {
    /// Takes a summary's point: its quantiles, the sum of the values in millionths, how many values there are, and when it was
    /// created, which is written in whole milliseconds. The sample of a quantile has it as the label `quantile`, and shows its
    /// value.
    ///
    /// Errors, in this order: the family has another type (`KindMismatch`); the errors of the labels. Fails with `Memory` if
    /// memory runs out.
    pub fn encode_summary(
        &mut self,
        quantiles: &[Quantile],
        sum: FixedSum,
        count: u64,
        created: Option<Duration>,
    ) -> Result<(), EncodeError>
        ensures { TakesPoints
            (λ ps. ps ≡ SummaryPoint quantiles.now sum count (option_map millis created) ∷ [])
            NoFault self.old self.new result }
    {
        self.begin_point(MetricType::Summary)?;
        let mut own = self.take_own();
        self.push_quantiles(&mut own, quantiles)?;
        self.keep_own(own);
        self.push_totals(count, sum, created)
    }

    // Adds a sample for each quantile, in order.
    fn push_quantiles(
        &mut self,
        own: &mut LabelText,
        quantiles: &[Quantile],
    ) -> Result<(), EncodeError>
        requires accepting { self.old.refused ≡ None }
        requires summary { self.old.setting.metric_type ≡ MetricType.Summary }
        ensures { Takes (PushesSamples
            (map (quantile_sample self.old.setting self.old.common) quantiles.now)
            self.old self.new) self.new.refused result }
    {
        for quantile in quantiles {
            self.push_quantile(own, quantile)?;
        }
        Ok(())
    }

    // Adds the sample of one quantile.
    fn push_quantile(&mut self, own: &mut LabelText, quantile: &Quantile) -> Result<(), EncodeError>
        requires accepting { self.old.refused ≡ None }
        requires summary { self.old.setting.metric_type ≡ MetricType.Summary }
        ensures { Takes (PushesSample
            (quantile_sample self.old.setting self.old.common quantile.now)
            self.old self.new) self.new.refused result }
    {
        let mut buffer = FixedBuffer::new();
        let text = buffer.format(FixedSum::from(quantile.quantile()));
        own.clear();
        if let Err(_) = own.push(QUANTILE_LABEL, text) {
            return self.refused.refuse(EncodeError::Memory);
        }
        let value = Value::Fixed(FixedSum::from(quantile.value()));
        self.push_labeled(SampleKind::Plain, own, &value, None)
    }
}

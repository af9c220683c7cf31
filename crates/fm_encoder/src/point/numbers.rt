//! The points of unknown metrics, gauges and counters.
ghost use Rattle.std.specs.Prelude.{◌≡◌, ◌⊎◌, [], ◌∷◌, MatchOption, None, Contains};
ghost use Rattle.std.specs.Option.{option_map, option_map_or};
ghost use Rattle.fm_grammar.specs.declared.MetricType.{MetricType};
ghost use Rattle.fm_grammar.specs.declared.SampleKind.TheVariants.{Created as CreatedKind};
ghost use Rattle.fm_grammar.specs.WellFormed.{kinds_of};
ghost use Rattle.fm_encoder.specs.Points.{UnknownPoint, GaugePoint, CounterPoint, created_samples, millis};
ghost use Rattle.fm_labels.specs.Refusals.{Takes, NoFault};
ghost use Rattle.fm_encoder.specs.Takes.{TakesPoints};
ghost use Rattle.fm_encoder.specs.inside.Steps.{PushesSamples};

use crate::exemplar::{EncodeExemplar, exemplar_given};
use crate::point::PointEncoder;
use crate::value::{
    CounterValueEncoder, EncodeCounterValue, EncodeGaugeValue, EncodeUnknownValue,
    GaugeValueEncoder, UnknownValueEncoder,
};
use fm_exposition::Value;
use fm_grammar::{MetricType, SampleKind};
use fm_raw::EncodeError;
use std::time::Duration;

impl PointEncoder {
    /// Takes an unknown metric's point. Errors, in this order: the family has another type (`KindMismatch`); the errors of the
    /// labels; the value emits no number (`MissingValue`) or several (`ValueTwice`). Fails with `Memory` if memory runs out.
    pub fn encode_unknown<V: EncodeUnknownValue>(&mut self, value: &V) -> Result<(), EncodeError>
        ensures { TakesPoints
            (λ ps. ps ≡ UnknownPoint (V.numbers value.now) ∷ [])
            (V.may_fault value.now) self.old self.new result }
    {
        self.begin_point(MetricType::Unknown)?;
        let mut encoder = UnknownValueEncoder::new();
        let visited = value.encode(&mut encoder);
        match encoder.end(visited) {
            Ok(number) => self.push_sample(SampleKind::Plain, &number, None),
            Err(error) => self.refused.refuse(error),
        }
    }

    /// Takes a gauge's point. It fails as `encode_unknown` does.
    pub fn encode_gauge<V: EncodeGaugeValue>(&mut self, value: &V) -> Result<(), EncodeError>
        ensures { TakesPoints
            (λ ps. ps ≡ GaugePoint (V.numbers value.now) ∷ [])
            (V.may_fault value.now) self.old self.new result }
    {
        self.begin_point(MetricType::Gauge)?;
        let mut encoder = GaugeValueEncoder::new();
        let visited = value.encode(&mut encoder);
        match encoder.end(visited) {
            Ok(number) => self.push_sample(SampleKind::Plain, &number, None),
            Err(error) => self.refused.refuse(error),
        }
    }

    /// Takes a counter's point: its total, an exemplar, and when it was created, since the Unix epoch, which is written in whole
    /// milliseconds. It fails as `encode_unknown` does, and with the errors of the exemplar.
    pub fn encode_counter<V: EncodeCounterValue, E: EncodeExemplar>(
        &mut self,
        total: &V,
        exemplar: Option<&E>,
        created: Option<Duration>,
    ) -> Result<(), EncodeError>
        ensures { TakesPoints
            (λ ps. ps ≡ CounterPoint (V.numbers total.now)
            (option_map_or (λ e. E.exemplars e.now) exemplar.entry [])
            (option_map millis created) ∷ [])
            (V.may_fault total.now ⊎ MatchOption exemplar.entry NoFault (λ e. E.may_fault e.now))
            self.old self.new result }
    {
        self.begin_point(MetricType::Counter)?;
        let mut encoder = CounterValueEncoder::new();
        let visited = total.encode(&mut encoder);
        let number = match encoder.end(visited) {
            Ok(number) => number,
            Err(error) => return self.refused.refuse(error),
        };
        let exemplar = match exemplar {
            Some(exemplar) => match exemplar_given(self.alloc, exemplar) {
                Ok(exemplar) => exemplar,
                Err(error) => return self.refused.refuse(error),
            },
            None => None,
        };
        self.push_sample(SampleKind::Total, &number, exemplar)?;
        match created {
            Some(created) => self.push_created(created),
            None => Ok(()),
        }
    }

    // Adds the sample of a time of creation.
    pub(crate) fn push_created(&mut self, created: Duration) -> Result<(), EncodeError>
        requires accepting { self.old.refused ≡ None }
        requires kind { Contains (kinds_of self.old.setting.metric_type) CreatedKind }
        ensures { Takes (PushesSamples
            (created_samples self.old.setting self.old.common (Some (millis created)))
            self.old self.new) self.new.refused result }
    {
        let created = Value::Millis(created.as_millis());
        self.push_sample(SampleKind::Created, &created, None)
    }
}

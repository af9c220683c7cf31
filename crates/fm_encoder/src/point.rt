//! Points: what emits them, and the encoder that takes them.
//!
//! <!-- cut: tests/unit/src/fastmetrics_memory_of_documents.rt.in -->
//! ```rust
//! impl EncodePoint for ThreeQuantiles {
//!     // ..
//!     fn encode(&self, encoder: &mut PointEncoder) -> Result<(), EncodeError> {
//!     // ..
//!         encoder.encode_summary(&quantiles, FixedSum::from(one), 3, None)
//! ```
ghost use Rattle.std.specs.Prelude.{◌≡◌, ◌++◌, List, [], None, Some, Err, OnOk, OnErr, IfOk, IfErr, IfSome, IsSome, string_bytes};
ghost use Rattle.std.specs.Option.{option_copied, option_map};
ghost use Rattle.fm_grammar.specs.Names.{IsSnakeCase};
ghost use Rattle.fm_grammar.specs.declared.MetricType.{MetricType};
ghost use Rattle.fm_grammar.specs.WellFormed.{AreLabels, AreMillis};
ghost use Rattle.fm_raw.specs.declared.encode_error.EncodeError.{EncodeError};
ghost use Rattle.fm_exposition.specs.Rows.{head_rows};
ghost use Rattle.fm_exposition.specs.Samples.{value_of, exemplar_of};
ghost use Rattle.fm_writer.specs.Heads.{headed};
ghost use Rattle.fm_writer.specs.Output.{AreShared, OutputSamples, OutputText, samples_in, text_in, with_lines};
ghost use Rattle.fm_encoder.specs.Points.{Point};
ghost use Rattle.fm_labels.specs.Labels.{emitted_again};
ghost use Rattle.fm_labels.specs.inside.FreeLabels.{AreFree};
ghost use Rattle.fm_labels.specs.Refusals.{IsOutcome, result_of, Takes};
ghost use Rattle.fm_encoder.specs.Emits.{EmitsPoints};
ghost use Rattle.fm_labels.specs.WrittenLabels.{AreWritten};
ghost use Rattle.fm_labels.specs.inside.Constants.{AreTested};
ghost use Rattle.fm_encoder.specs.inside.Steps.{FitsType, BeginsPoint, BeginsMember, PushesSample, EndsPoints};

use crate::point::bound_label::BoundLabel;
use fm_exposition::{Exemplar, SampleStore, Value};
use fm_grammar::{MetricType, SampleKind};
use fm_labels::collecting::constants::ConstantLabels;
use fm_labels::collecting::first_refusal::{FirstRefusal, own_refusal};
use fm_labels::collecting::gathering;
use fm_labels::collecting::written::WrittenLabels;
use fm_labels::keep;
use fm_labels::label::LabelSetEncoder;
use fm_labels::label_set::EncodeLabelSet;
use fm_raw::EncodeError;
use fm_text::{GrowingText, LabelText};
use fm_writer::{FamilyHead, NewSample, Sink, TextBlocks};
use std::alloc::{AllocError, Global};
use std::marker::Model;
use std::mem;

mod bound_label;
pub(crate) mod histogram;
mod numbers;
mod states;
mod summary;
mod totals;

/// What emits the points of a member: mostly one, such as the total of a counter.
///
/// <!-- cut: tests/scripts/src/metrics/live.rt.in -->
/// ```rust
/// impl<H: Wait + Drop> EncodePoint for Live<H> {
///     // ..
///     fn encode(&self, points: &mut PointEncoder) -> Result<(), EncodeError> {
///         match self {
///             Live::Number(metric) => EncodePoint::encode(metric, points),
///             Live::Histogram(metric) => EncodePoint::encode(metric, points),
///             Live::GaugeHistogram(metric) => EncodePoint::encode(metric, points),
///         }
///     }
/// }
/// ```
pub trait EncodePoint {
    /// The lists of points that `encode` may emit.
    ghost points: { Self → List Point → Type 0 };

    /// `encode` may return an error of its own other than `Memory`.
    ghost may_fault: { Self → Type 0 } = { λ _. ⊥ };

    /// Passes the point to the encoder. It may wait if its value is under a lock.
    fn encode(&self, encoder: &mut PointEncoder) -> Result<(), EncodeError>
        ensures { EmitsPoints (points self.now) (may_fault self.now)
            encoder.old encoder.new result };
}

/// What a source of points passes them to: it makes their samples, under the labels of one member.
///
/// <!-- cut: tests/scripts/src/own/point.rt.in -->
/// ```rust
/// Content::Gauge(value) => encoder.encode_gauge(value),
/// Content::Unknown(value) => encoder.encode_unknown(value),
/// Content::Counter(value, exemplar) => {
///     encoder.encode_counter(value, exemplar.as_ref(), self.created)
/// }
/// ```
pub struct PointEncoder {
    alloc: Global,
    name: String,
    time: Option<u128>,
    // The family's type, and the common labels of the next samples, if none of them was refused.
    labels: LabelSetEncoder,
    deferred: Option<EncodeError>,
    sink: Sink,
    refused: FirstRefusal,
    // The labels of the buckets of the histogram before.
    bounds: Vec<BoundLabel>,
    // The front of the lines of a histogram's buckets. Each histogram writes over it.
    front: GrowingText,
    // The labels of the own of states and quantiles, one after the other.
    own: LabelText,
    // The labels of a sample that has none of its own.
    none: LabelText,
}

impl Drop for PointEncoder {
    fn drop(self) {
        let PointEncoder {
            alloc: _,
            name: _,
            time: _,
            labels: _,
            deferred: _,
            sink: _,
            refused: _,
            bounds: _,
            front: _,
            own: _,
            none: _,
        } = self;
    }
}

impl Model for PointEncoder {
    ghost use Rattle.std.specs.Prelude.{string_bytes};
    ghost use Rattle.fm_encoder.specs.Gathered.{GatheredPoints};

    ghost Value = { GatheredPoints };

    ghost view = { λ e. record {
      setting = record {
        name = string_bytes e.name;
        metric_type = e.labels.metric_type;
        time = e.time;
      };
      common = e.labels.labels;
      deferred = e.deferred;
      output = e.sink.output;
      refused = e.refused.error;
    } };

    ghost use Rattle.fm_encoder.specs.inside.Gathering.{IsGathering};

    ghost invariant = { IsGathering };
}

impl PointEncoder {
    // An encoder of no family yet, which puts samples into this sink.
    pub(crate) fn new(alloc: Global, sink: Sink) -> PointEncoder
        requires shared { AreShared [] sink.shared }
        ensures output { result.output ≡ sink.output }
        ensures accepting { result.refused ≡ None }
    {
        PointEncoder {
            alloc,
            name: String::new(alloc),
            time: None,
            labels: gathering::new(alloc, MetricType::Unknown),
            deferred: None,
            sink,
            refused: FirstRefusal { error: None },
            bounds: Vec::new(alloc),
            front: GrowingText::new(alloc),
            own: LabelText::new(alloc),
            none: LabelText::new(alloc),
        }
    }

    // Goes on to a family of this name, head and timestamp, and appends the lines that come before its samples. If memory runs out, that is
    // refused, and the text may end in a part of these lines.
    pub(crate) fn begin_family(
        &mut self,
        name: &str,
        head: FamilyHead<'_>,
        time: Option<u128>,
    ) -> Result<(), EncodeError>
        requires accepting { self.old.refused ≡ None }
        requires name { IsSnakeCase name.now }
        requires time { IfSome time AreMillis }
        ensures setting { OnOk result (self.new.setting ≡ record {
          name = name.now;
          metric_type = head.entry.metric_type;
          time = time;
        }) }
        ensures output { OnOk result
            (self.new.output ≡ with_lines self.old.output (head_rows (headed name.now head.entry))) }
        ensures returned { result ≡ result_of self.new.refused }
        ensures memory { IfErr result (λ e. e ≡ EncodeError.Memory) }
    {
        gathering::begin(&mut self.labels, MetricType::Unknown);
        self.sink.unshare();
        self.deferred = None;
        self.time = time;
        self.name.clear();
        if let Err(_) = self.name.push_str(name) {
            return self.refused.refuse(EncodeError::Memory);
        }
        gathering::begin(&mut self.labels, head.metric_type);
        keep!(
            self.refused,
            self.sink.append_heads(self.name.as_str(), head)
        )
    }

    // Tests a point's type, and then whether the common labels were refused. The next sample begins the point.
    fn begin_point(&mut self, metric_type: MetricType) -> Result<(), EncodeError>
        ensures { Takes (BeginsPoint metric_type self.old self.new) self.new.refused result }
    {
        self.refused.check()?;
        if metric_type != gathering::metric_type(&self.labels) {
            return self.refused.refuse(EncodeError::KindMismatch);
        }
        if let Some(error) = self.deferred {
            return self.refused.refuse(error);
        }
        self.sink.end_point();
        Ok(())
    }

    // Adds a sample whose own labels come after the common ones.
    fn push_labeled(
        &mut self,
        kind: SampleKind,
        own: &LabelText,
        value: &Value,
        exemplar: Option<Exemplar>,
    ) -> Result<(), EncodeError>
        requires accepting { self.old.refused ≡ None }
        requires labels { AreLabels self.old.common
            → AreFree self.old.setting.metric_type self.old.common
            → AreLabels (self.old.common ++ own.now.labels) }
        requires fits { FitsType self.old.setting.metric_type kind
            (value_of value.now) (option_map exemplar_of exemplar) }
        ensures { Takes (PushesSample (record {
          kind = kind;
          labels = self.old.common ++ own.now.labels;
          value = value_of value.now;
          time = self.old.setting.time;
          exemplar = option_map exemplar_of exemplar;
        }) self.old self.new) self.new.refused result }
    {
        let mut sample = NewSample {
            kind,
            common: gathering::text(&self.labels),
            own,
            value: *value,
            time: self.time,
            exemplar,
        };
        keep!(
            self.refused,
            self.sink.push(self.name.as_str(), &mut sample, None)
        )
    }

    // Adds a sample under the common labels.
    fn push_sample(
        &mut self,
        kind: SampleKind,
        value: &Value,
        exemplar: Option<Exemplar>,
    ) -> Result<(), EncodeError>
        requires accepting { self.old.refused ≡ None }
        requires fits { FitsType self.old.setting.metric_type kind
            (value_of value.now) (option_map exemplar_of exemplar) }
        ensures { Takes (PushesSample (record {
          kind = kind;
          labels = self.old.common ++ [];
          value = value_of value.now;
          time = self.old.setting.time;
          exemplar = option_map exemplar_of exemplar;
        }) self.old self.new) self.new.refused result }
    {
        let mut sample = NewSample {
            kind,
            common: gathering::text(&self.labels),
            own: &self.none,
            value: *value,
            time: self.time,
            exemplar,
        };
        keep!(
            self.refused,
            self.sink.push(self.name.as_str(), &mut sample, None)
        )
    }

    // The memory of labels of a sample's own. It is given back by `keep_own`.
    fn take_own(&mut self) -> LabelText
        ensures { self.new ≡ self.old }
    {
        mem::replace(&mut self.own, LabelText::new(self.alloc))
    }

    // Keeps the memory for the next point.
    fn keep_own(&mut self, own: LabelText)
        ensures { self.new ≡ self.old }
    {
        self.own = own;
    }

    // The first refusal, if there is one.
    pub(crate) fn refusal(&self) -> Option<EncodeError>
        ensures { result ≡ self.now.refused }
    {
        self.refused.error
    }

    // The first refusal, after the visited source returned `visited`.
    pub(crate) fn outcome(&self, visited: Result<(), EncodeError>) -> Result<(), EncodeError>
        ensures { IsOutcome self.now.refused visited result }
    {
        self.refused.outcome(visited)
    }

    // The type of the family.
    pub(crate) fn metric_type(&self) -> MetricType
        ensures { result ≡ self.now.setting.metric_type }
    {
        gathering::metric_type(&self.labels)
    }

    pub(crate) fn time(&self) -> Option<u128>
        ensures { result ≡ self.now.setting.time }
    {
        self.time
    }

    // Reads the common labels of the next points, or keeps their refusal for the first of them. Labels that were kept are copied. An
    // encoder that has refused something stays as it is.
    pub(crate) fn begin_member<LS: EncodeLabelSet>(
        &mut self,
        constants: &ConstantLabels,
        written: Option<&WrittenLabels>,
        labels: &LS,
    ) -> Result<(), EncodeError>
        requires tested { AreTested self.old.setting.metric_type constants.now }
        requires written { IfSome written (λ k. AreWritten (LS.labels labels.now) k.now) }
        ensures { Takes (BeginsMember
            (emitted_again constants.now.labels ++ LS.labels labels.now)
            (LS.may_fault labels.now)
            self.old self.new) self.new.refused result }
    {
        self.refused.check()?;
        self.sink.unshare();
        match constants.followed_by(&mut self.labels, written, labels) {
            Ok(()) => self.deferred = None,
            Err(error) => {
                let metric_type = gathering::metric_type(&self.labels);
                gathering::begin(&mut self.labels, metric_type);
                self.deferred = Some(error);
            }
        }
        Ok(())
    }

    // Ends a member, after the point returned `visited`.
    pub(crate) fn end_points(&mut self, visited: Result<(), EncodeError>) -> Result<(), EncodeError>
        ensures { Takes (EndsPoints visited self.old self.new) self.new.refused result }
    {
        match (self.refused.error, visited) {
            (Some(error), _) => Err(error),
            (None, Ok(())) => Ok(()),
            (None, Err(error)) => self.refused.refuse(own_refusal(error)),
        }
    }

    // Takes the samples out of the sink, which keeps samples: none are left. If memory runs out, nothing changes.
    pub(crate) fn take_samples(&mut self) -> Result<SampleStore, AllocError>
        requires keeps { IsSome (samples_in self.old.output) }
        ensures taken { IfOk result (λ taken. self.old.output ≡ OutputSamples taken.samples) }
        ensures emptied { OnOk result (self.new ≡ record self.old { output = OutputSamples [] }) }
        ensures kept { OnErr result (self.new ≡ self.old) }
    {
        self.sink.take_samples()
    }

    // Begins another text, as if nothing had been refused.
    pub(crate) fn begin_text(&mut self)
        ensures { self.new ≡ record self.old { output = OutputText []; refused = None } }
    {
        self.refused.error = None;
        self.sink.begin_text();
    }

    // Ends the text with this line, unless the sink keeps samples. Fails if memory runs out.
    pub(crate) fn end_text(&mut self, last: &[u8]) -> Result<(), AllocError>
        ensures setting { self.new.setting ≡ self.old.setting }
        ensures ended { OnOk result
            (self.new ≡ record self.old { output = with_lines self.old.output last.now }) }
    {
        self.sink.end_text(last)
    }

    // The text so far, or `None` if the sink keeps samples.
    pub(crate) fn lines(&self) -> Option<&TextBlocks>
        ensures { option_copied result ≡ text_in self.now.output }
    {
        self.sink.lines()
    }
}

//! What the collector and families call, and no metric: encoders are made, told the next registry and family, and taken apart.
ghost use Rattle.std.specs.Prelude.{◌≡◌, [], ◌⊎◌, None, Some, IfSome, IsSome, OnOk, OnErr, IfOk, IfErr, Err, string_bytes, codes};
ghost use Rattle.std.specs.Option.{option_copied};
ghost use Rattle.fm_grammar.specs.Names.{IsSnakeCase};
ghost use Rattle.fm_grammar.specs.WellFormed.{AreLabels, AreMillis};
ghost use Rattle.fm_raw.specs.declared.encode_error.EncodeError.{EncodeError};
ghost use Rattle.fm_exposition.specs.Rows.{head_rows};
ghost use Rattle.fm_grammar.specs.LabelPairs.{labels_of};
ghost use Rattle.fm_writer.specs.Heads.{headed};
ghost use Rattle.fm_writer.specs.Output.{AreShared, OutputSamples, OutputText, samples_in, text_in, with_lines};
ghost use Rattle.fm_labels.specs.Refusals.{IsOutcome, result_of};
ghost use Rattle.fm_labels.specs.WrittenLabels.{AreWritten};
ghost use Rattle.fm_encoder.specs.Emits.{MembersOf};
ghost use Rattle.fm_encoder.specs.Takes.{TakesMembers};

use crate::metric::{EncodeMetric, MetricEncoder};
use crate::point::{EncodePoint, PointEncoder};
use fm_exposition::SampleStore;
use fm_labels::collecting::constants::ConstantLabels;
use fm_labels::collecting::written::WrittenLabels;
use fm_labels::label_set::EncodeLabelSet;
use fm_raw::{EncodeError, MetricType};
use fm_writer::{FamilyHead, Sink, TextBlocks};
use std::alloc::{AllocError, Global};

// An encoder that puts samples into this sink.
fn over(alloc: Global, sink: Sink) -> MetricEncoder
    requires shared { AreShared [] sink.shared }
    ensures constants { result.context.constants ≡ [] }
    ensures output { result.output ≡ sink.output }
    ensures accepting { result.refused ≡ None }
{
    MetricEncoder {
        constants: ConstantLabels::none(alloc),
        points: PointEncoder::new(alloc, sink),
    }
}

/// An encoder that keeps the samples of families, each of which begins with `begin_family` and ends with `take_samples`. Fails
/// if memory runs out.
pub fn for_samples(alloc: Global) -> Result<MetricEncoder, AllocError>
    ensures made { IfOk result
        (λ encoder. (encoder.context.constants ≡ [])
        × (encoder.output ≡ OutputSamples []) × (encoder.refused ≡ None)) }
{
    Ok(over(alloc, Sink::samples(alloc)?))
}

/// An encoder that appends the lines of families, each of which begins with `begin_family`.
pub fn for_lines(alloc: Global) -> MetricEncoder
    ensures constants { result.context.constants ≡ [] }
    ensures output { result.output ≡ OutputText [] }
    ensures accepting { result.refused ≡ None }
{
    over(alloc, Sink::text(alloc, TextBlocks::new(alloc)))
}

/// Goes on to a registry with these constant labels: the families that begin next have them. Fails if memory runs out; then nothing
/// changes.
pub fn enter(encoder: &mut MetricEncoder, constants: &[(String, String)]) -> Result<(), AllocError>
    requires labels { AreLabels (labels_of constants.now) }
    ensures entered { OnOk result (encoder.new ≡ record encoder.old {
      context = record {
        setting = encoder.old.context.setting;
        constants = labels_of constants.now;
      };
    }) }
    ensures kept { OnErr result (encoder.new ≡ encoder.old) }
{
    let metric_type = encoder.points.metric_type();
    encoder.constants.enter(metric_type, constants)
}

/// Goes on to the family with this printed name and this head, in the current registry, and appends the lines that come before
/// its samples, unless the encoder keeps samples. The timestamp, in milliseconds, is written on each sample. Fails with `Memory` if
/// memory runs out; then that is the encoder's refusal, and the text may end in a part of these lines. An encoder that has refused
/// something stays as it is, and returns that refusal.
pub fn begin_family(
    encoder: &mut MetricEncoder,
    name: &str,
    head: FamilyHead<'_>,
    time: Option<u128>,
) -> Result<(), EncodeError>
    requires name { IsSnakeCase name.now }
    requires time { IfSome time AreMillis }
    ensures begun { OnOk result (encoder.new ≡ record {
      context = record {
        setting = record {
          name = name.now;
          metric_type = head.entry.metric_type;
          time = time;
        };
        constants = encoder.old.context.constants;
      };
      output = with_lines encoder.old.output (head_rows (headed name.now head.entry));
      refused = None;
    }) }
    ensures constants { encoder.new.context.constants ≡ encoder.old.context.constants }
    ensures kept { (k : EncodeError) → encoder.old.refused ≡ Some k
        → (encoder.new ≡ encoder.old) × (result ≡ Err k) }
    ensures returned { result ≡ result_of encoder.new.refused }
    ensures memory { IfErr result
        (λ e. (e ≡ EncodeError.Memory) ⊎ (encoder.old.refused ≡ Some e)) }
{
    if let Some(error) = encoder.points.refusal() {
        return Err(error);
    }
    let begun = encoder.points.begin_family(name, head, time);
    encoder.constants.begin(encoder.points.metric_type());
    begun
}

/// Takes a member as `MetricEncoder::encode` does. If its labels were kept, and none has the name of a constant label, the
/// kept labels are copied in place of reading them.
pub fn encode_member<LS: EncodeLabelSet, P: EncodePoint>(
    encoder: &mut MetricEncoder,
    written: Option<&WrittenLabels>,
    labels: &LS,
    point: &P,
) -> Result<(), EncodeError>
    requires written { IfSome written (λ k. AreWritten (LS.labels labels.now) k.now) }
    ensures { TakesMembers
        (MembersOf (LS.labels labels.now) (P.points point.now))
        (LS.may_fault labels.now ⊎ P.may_fault point.now)
        encoder.old encoder.new result }
{
    encoder
        .points
        .begin_member(&encoder.constants, written, labels)?;
    let visited = point.encode(&mut encoder.points);
    encoder.points.end_points(visited)
}

/// The first refusal, after the metric returned `visited`.
pub fn outcome(encoder: &MetricEncoder, visited: Result<(), EncodeError>) -> Result<(), EncodeError>
    ensures { IsOutcome encoder.now.refused visited result }
{
    encoder.points.outcome(visited)
}

/// Takes the samples of a family out of an encoder that keeps samples: none are left. Fails if memory runs out; then nothing
/// changes.
pub fn take_samples(encoder: &mut MetricEncoder) -> Result<SampleStore, AllocError>
    requires keeps { IsSome (samples_in encoder.old.output) }
    ensures taken { IfOk result (λ taken. encoder.old.output ≡ OutputSamples taken.samples) }
    ensures emptied { OnOk result (encoder.new ≡ record encoder.old { output = OutputSamples [] }) }
    ensures kept { OnErr result (encoder.new ≡ encoder.old) }
{
    encoder.points.take_samples()
}

/// Begins another document, in the memory of the one before, which may have been refused: the encoder appends lines to a text, and has
/// none again.
pub fn begin_document(encoder: &mut MetricEncoder)
    ensures output { encoder.new.output ≡ OutputText [] }
    ensures accepting { encoder.new.refused ≡ None }
{
    encoder.points.begin_text();
}

/// Appends the last line of a document, unless the encoder keeps samples. Fails if memory runs out.
pub fn end_document(encoder: &mut MetricEncoder) -> Result<(), AllocError>
    ensures { OnOk result (encoder.new ≡ record encoder.old {
      output = with_lines encoder.old.output (codes "# EOF\n");
    }) }
{
    encoder.points.end_text(b"# EOF\n")
}

/// The text so far, or `None` if the encoder keeps samples.
pub fn lines(encoder: &MetricEncoder) -> Option<&TextBlocks>
    ensures { option_copied result ≡ text_in encoder.now.output }
{
    encoder.points.lines()
}

/// The type that a boxed metric declares.
pub fn type_of(metric: &Box<dyn EncodeMetric>) -> MetricType
    ensures { types metric.now result }
{
    metric.metric_type()
}

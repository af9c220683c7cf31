// The family of one metric, taken by an encoder: its samples are kept, or its lines are appended to a text.
ghost use Rattle.std.specs.Prelude.{◌≡◌, ◌⊎◌, ◌∷◌, [], None, MatchResult, IfOk, string_bytes};
ghost use Rattle.std.specs.Option.{option_map};
ghost use Rattle.fm_grammar.specs.Names.{IsSnakeCase};
ghost use Rattle.fm_raw.specs.Units.{seen_unit};
ghost use Rattle.fm_raw.specs.declared.encode_error.EncodeError.{EncodeError};
ghost use Rattle.fm_registry_rules.specs.Registration.{printed_unit};
ghost use Rattle.fm_writer.specs.Output.{with_lines};
ghost use Rattle.fm_encoder.specs.Offers.{MetricHasFault};
ghost use Rattle.fm_core.specs.inside.Collected.{collected_in, with_families, family_of};
ghost use Rattle.fm_core.specs.inside.Offered.{Offered, Formed, IsReady, rows_before};

use crate::scrape::name::text_of;
use fm_encoder::{EncodeMetric, MetricEncoder, collector, whole_millis};
use fm_exposition::{FamilySamples, make};
use fm_raw::{EncodeError, Metadata};
use fm_writer::FamilyHead;
use std::alloc::{AllocError, Global};

// Takes the family of a metric with this printed name and this metadata, in the encoder's registry, or returns the first refusal. A text
// gets the lines that come before its samples, too.
fn take_family<M: EncodeMetric>(
    encoder: &mut MetricEncoder,
    name: &str,
    metadata: &Metadata,
    metric: &M,
) -> Result<(), EncodeError>
    requires name { IsSnakeCase name.now }
    requires accepting { encoder.old.refused ≡ None }
    ensures constants { encoder.new.context.constants ≡ encoder.old.context.constants }
    ensures taken { MatchResult result
        (λ _. (encoder.new.refused ≡ None)
        × Offered (M.offers metric.now) (M.stamps metric.now)
        name.now metadata.now.metric_type encoder.old.context.constants
        (with_lines encoder.old.output (rows_before name.now metadata.now))
        encoder.new.output)
        (λ k. (k ≡ EncodeError.Memory)
        ⊎ MetricHasFault k (M.offers metric.now) (M.stamps metric.now) (M.may_fault metric.now)
        name.now metadata.now.metric_type encoder.old.context.constants) }
{
    let time = whole_millis(metric.timestamp());
    let head = FamilyHead {
        metric_type: metadata.metric_type(),
        help: metadata.help(),
        unit: text_of(metadata.unit()),
    };
    collector::begin_family(encoder, name, head, time)?;
    let visited = metric.encode(encoder);
    collector::outcome(encoder, visited)
}

// An owned copy of a unit's text, if there is one.
fn owned_unit(alloc: Global, metadata: &Metadata) -> Result<Option<String>, AllocError>
    ensures { IfOk result (λ unit. option_map string_bytes unit
        ≡ printed_unit (option_map seen_unit metadata.now.unit)) }
{
    match text_of(metadata.unit()) {
        Some(unit) => Ok(Some(String::from_str(alloc, unit)?)),
        None => Ok(None),
    }
}

// Takes the family of a metric as `take_family` does. If families are kept, the encoder keeps samples, and the family is added to those
// before.
pub(crate) fn add_family<M: EncodeMetric>(
    encoder: &mut MetricEncoder,
    alloc: Global,
    families: &mut Option<Vec<FamilySamples>>,
    name: &str,
    metadata: &Metadata,
    metric: &M,
) -> Result<(), EncodeError>
    requires name { IsSnakeCase name.now }
    requires ready { IsReady families.old encoder.old }
    ensures constants { encoder.new.context.constants ≡ encoder.old.context.constants }
    ensures added { MatchResult result
        (λ _. IsReady families.new encoder.new
        × ((samples : _) × Formed (M.offers metric.now) (M.stamps metric.now)
        name.now metadata.now.metric_type encoder.old.context.constants samples
        × (collected_in families.new encoder.new.output
        ≡ with_families (collected_in families.old encoder.old.output)
        (family_of name.now metadata.now samples ∷ []))))
        (λ k. (k ≡ EncodeError.Memory)
        ⊎ MetricHasFault k (M.offers metric.now) (M.stamps metric.now) (M.may_fault metric.now)
        name.now metadata.now.metric_type encoder.old.context.constants) }
{
    let Some(families) = families else {
        return take_family(encoder, name, metadata, metric);
    };
    let printed = String::from_str(alloc, name)?;
    let help = String::from_str(alloc, metadata.help())?;
    let unit = owned_unit(alloc, metadata)?;
    take_family(encoder, name, metadata, metric)?;
    let samples = collector::take_samples(encoder)?;
    let family = make::family(printed, metadata.metric_type(), help, unit, samples);
    Ok(families.push(family)?)
}

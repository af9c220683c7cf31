// The road of a scrape: a registry and all below it, metric by metric.
ghost use Rattle.std.specs.Prelude.{◌≡◌, None, OnOk, IfErr};
ghost use Rattle.std.specs.List.{AllByRecursion};
ghost use Rattle.fm_grammar.specs.Exposition.{Exposition};
ghost use Rattle.fm_grammar.specs.Reading.{IsExposition};
ghost use Rattle.fm_registry_rules.specs.Listing.{own_metrics, listed_tree, order, IsListable};
ghost use Rattle.fm_registry_rules.specs.Tree.{Shows};
ghost use Rattle.fm_core.specs.HasHistory.{HasHistory};
ghost use Rattle.fm_core.specs.Admits.{AdmittedBy, FaultNamed, HasFaultNamed};
ghost use Rattle.fm_core.specs.inside.Collected.{collected, with_families, Adds};
ghost use Rattle.fm_core.specs.inside.Stops.{StopsAt};

use crate::registry::{ListedMetric, Registry};
use crate::scrape::metric_family_encoder::MetricFamilyEncoder;
use fm_encoder::EncodeMetric;
use fm_raw::EncodeError;

// Why a scrape stopped, and at which metric, if it was at one.
#[derive(Drop)]
pub(crate) struct Stop<'a, M> {
    pub(crate) listed: Option<ListedMetric<'a, M>>,
    pub(crate) error: EncodeError,
}

// Takes a registry's own metrics.
fn encode_registry<'a, M: EncodeMetric>(
    encoder: &mut MetricFamilyEncoder<'a>,
    registry: &'a Registry<M>,
) -> Result<(), Stop<'a, M>>
    requires listable { AllByRecursion IsListable (own_metrics registry.now.facts) }
    requires accepting { encoder.old.refused ≡ None }
    ensures accepting { OnOk result (encoder.new.refused ≡ None) }
    ensures added { OnOk result
        (Adds M.EncodeMetric (own_metrics registry.now.facts)
        (collected encoder.old) (collected encoder.new)) }
    ensures stopped { IfErr result (StopsAt
        (λ name k. FaultNamed M.EncodeMetric name k (own_metrics registry.now.facts))) }
{
    if registry.metric_count() == 0 {
        return Ok(());
    }
    if let Err(error) = encoder.enter(registry) {
        return Err(Stop {
            listed: None,
            error,
        });
    }
    for index in 0..registry.metric_count() {
        if let Some(listed) = registry.metric_at(index) {
            if let Err(error) = encoder.encode_listed(&listed) {
                return Err(Stop {
                    listed: Some(listed),
                    error,
                });
            }
        }
    }
    Ok(())
}

// Takes the metrics of a registry and then those of its subsystems, depth first.
fn encode_tree<'a, M: EncodeMetric>(
    encoder: &mut MetricFamilyEncoder<'a>,
    registry: &'a Registry<M>,
) -> Result<(), Stop<'a, M>>
    requires listable { AllByRecursion IsListable (listed_tree registry.now) }
    requires accepting { encoder.old.refused ≡ None }
    ensures accepting { OnOk result (encoder.new.refused ≡ None) }
    ensures added { OnOk result
        (Adds M.EncodeMetric (listed_tree registry.now)
        (collected encoder.old) (collected encoder.new)) }
    ensures stopped { IfErr result (StopsAt
        (λ name k. FaultNamed M.EncodeMetric name k (listed_tree registry.now))) }
{
    encode_registry(encoder, registry)?;
    if let Some(subsystems) = &registry.subsystems {
        for subsystem in subsystems {
            encode_tree(encoder, &subsystem.registry)?;
        }
    }
    Ok(())
}

// Takes the metrics of a registry and all below it, which make an exposition.
pub(crate) fn gather<'a, M: EncodeMetric>(
    encoder: &mut MetricFamilyEncoder<'a>,
    registry: &'a Registry<M>,
) -> Result<(), Stop<'a, M>>
    requires history { HasHistory registry.now }
    requires accepting { encoder.old.refused ≡ None }
    ensures accepting { OnOk result (encoder.new.refused ≡ None) }
    ensures gathered { OnOk result ((e : Exposition)
        × AdmittedBy M.EncodeMetric registry.now e × IsExposition e
        × (collected encoder.new ≡ with_families (collected encoder.old) e)) }
    ensures stopped { IfErr result (StopsAt
        (λ name k. HasFaultNamed M.EncodeMetric name k registry.now)) }
{
    encode_tree(encoder, registry)
}

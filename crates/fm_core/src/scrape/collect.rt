//! Collecting a registry.
ghost use Rattle.std.specs.Prelude.{◌≡◌, ◌⊎◌, IfOk, IfErr};
ghost use Rattle.fm_raw.specs.declared.encode_error.EncodeError.{EncodeError};
ghost use Rattle.fm_exposition.specs.Written.{IsWritersFault};
ghost use Rattle.fm_registry_rules.specs.Listing.{order};
ghost use Rattle.fm_registry_rules.specs.Tree.{Shows};
ghost use Rattle.fm_core.specs.HasHistory.{HasHistory};
ghost use Rattle.fm_core.specs.Admits.{AdmittedBy, HasFault};

use crate::registry::Registry;
use crate::scrape::gather::gather;
use crate::scrape::metric_family_encoder::MetricFamilyEncoder;
use fm_encoder::EncodeMetric;
use fm_exposition::Exposition;
use fm_raw::EncodeError;
use std::alloc::Global;

/// The exposition of a registry and all below it: a family for each metric that isn't empty, a registry's metrics by
/// registration and then its subsystems by creation, depth first.
///
/// It stops at the first error: `Memory` if memory runs out, or a refusal of an encoder, even if the metric ignores it. It may
/// wait if a metric waits for a lock.
pub fn collect<M: EncodeMetric>(
    alloc: Global,
    registry: &Registry<M>,
) -> Result<Exposition, EncodeError>
    requires { HasHistory registry.now }
    // Every history that the registry reads admits the exposition.
    ensures admitted { IfOk result
        (AdmittedBy M.EncodeMetric registry.now) }
    // A refusal names a fault that the tree has.
    ensures fault { IfErr result
        (λ k. (k ≡ EncodeError.Memory) ⊎ HasFault M.EncodeMetric k registry.now) }
    ensures not_writing { IfErr result (λ k. ¬ (IsWritersFault k)) }
{
    let mut encoder = MetricFamilyEncoder::for_families(alloc)?;
    if let Err(stop) = gather(&mut encoder, registry) {
        return Err(stop.error);
    }
    Ok(encoder.into_exposition())
}

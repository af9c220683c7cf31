//! Which family of a registry is refused.
ghost use Rattle.std.specs.Prelude.{◌≡◌, None, IfSome, IfOk, string_bytes};
ghost use Rattle.fm_grammar.specs.Exposition.{Exposition};
ghost use Rattle.fm_registry_rules.specs.Listing.{listed_name, order};
ghost use Rattle.fm_registry_rules.specs.Tree.{Shows};
ghost use Rattle.fm_core.specs.Seen.{seen_listed};
ghost use Rattle.fm_core.specs.HasHistory.{HasHistory};
ghost use Rattle.fm_core.specs.Admits.{AdmittedBy, HasFaultNamed};

use crate::registry::{ListedMetric, Registry};
use crate::scrape::gather::gather;
use crate::scrape::metric_family_encoder::MetricFamilyEncoder;
use crate::scrape::name::print_name;
use fm_encoder::EncodeMetric;
use fm_raw::EncodeError;
use std::alloc::{AllocError, Global};
use thiserror::Error;

/// A family that a document can't show, by the name under which it would be printed, and why.
///
/// <!-- cut: crates/calling/src/errors.rt -->
/// ```rust
/// match root.fault()? {
///     Some(fault) => bail!("{fault}"),
///     None => bail!(error),
/// }
/// ```
#[derive(Debug, PartialEq, Eq, Drop, Error)]
#[error("family '{name}': {error}")]
pub struct FamilyFault {
    pub name: String,
    pub error: EncodeError,
}

// The printed name of a listed metric.
fn name_of<M>(alloc: Global, listed: &ListedMetric<'_, M>) -> Result<String, AllocError>
    ensures { IfOk result (λ name. string_bytes name ≡ listed_name (seen_listed listed.now)) }
{
    let mut name = String::new(alloc);
    print_name(&mut name, listed)?;
    Ok(name)
}

/// The first family of a registry that is refused at this moment, as `collect` would find it, or `None` if none is. Fails with
/// `AllocError` if memory runs out. It may wait if a metric waits for a lock.
pub fn fault<M: EncodeMetric>(
    alloc: Global,
    registry: &Registry<M>,
) -> Result<Option<FamilyFault>, AllocError>
    requires { HasHistory registry.now }
    // The metric that is printed under this name has this fault.
    ensures found { IfOk result (λ found. IfSome found
        (λ f. HasFaultNamed M.EncodeMetric (string_bytes f.name) f.error registry.now)) }
    // Where none is refused, the registry admits an exposition.
    ensures none { IfOk result (λ found. found ≡ None → (e : Exposition)
        × AdmittedBy M.EncodeMetric registry.now e) }
{
    let mut encoder = MetricFamilyEncoder::for_families(alloc)?;
    let Err(stop) = gather(&mut encoder, registry) else {
        return Ok(None);
    };
    let Some(listed) = stop.listed else {
        return Err(AllocError);
    };
    match stop.error {
        EncodeError::Memory => Err(AllocError),
        error => {
            let name = name_of(alloc, &listed)?;
            Ok(Some(FamilyFault { name, error }))
        }
    }
}

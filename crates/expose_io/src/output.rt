//! What the program prints, and its status.
ghost use Rattle.std.specs.Prelude.{◌≡◌, IfOk, IfErr, codes};
ghost use Rattle.fm_raw.specs.MetricErrors.{error_number as metric_number};
ghost use Rattle.fm_raw.specs.BucketErrors.{error_number as bucket_number};
ghost use Rattle.fm_tally.specs.TallyErrors.{error_number as tally_number};
ghost use Rattle.fm_registry_rules.specs.RegistryErrors.{error_number as registry_number};
ghost use Rattle.fm_raw.specs.EncodeErrors.{error_number as encode_number};
ghost use Rattle.fm_raw.specs.declared.encode_error.EncodeError.{EncodeError as AnEncodeError};
ghost use Rattle.fastmetrics.specs.HasHistory.{HasHistory};
ghost use Rattle.fastmetrics.specs.Admits.{AdmittedBy};
ghost use Rattle.expose_io.specs.Outcome.{IsRefusal, status_of, Finishes};
ghost use Rattle.expose_io.specs.inside.Printed.{PrintsDocument};

use fastmetrics::encoder::EncodeMetric;
use fastmetrics::format::text::{EncodeError, encode};
use fastmetrics::metrics::tally::TallyError;
use fastmetrics::raw::MetricError;
use fastmetrics::raw::bucket::BucketError;
use fastmetrics::registry::{Registry, RegistryError};
use std::alloc::{AllocFailed, Global};
use std::io::Write;

/// Why there is no document.
#[derive(Clone, Copy, Debug, PartialEq, Eq)]
pub enum Fault {
    /// The words name no scene.
    UnknownScene,
    /// A layer refused, with the number of its refusal.
    Refused { layer: &'static str, number: u8 },
}

/// A box or the list of words found no memory.
impl<T: Drop> From<AllocFailed<T>> for Fault {
    ghost from_gives = { λ _ fault. IsRefusal (codes "registry") 5 fault };

    fn from(_: AllocFailed<T>) -> Fault {
        Fault::from(RegistryError::Memory)
    }
}

/// A call that makes bounds refused.
impl From<BucketError> for Fault {
    ghost from_gives = { λ error fault. IsRefusal (codes "bucket") (bucket_number error) fault };

    fn from(error: BucketError) -> Fault {
        Fault::Refused {
            layer: "bucket",
            number: error.number(),
        }
    }
}

/// A metric refused.
impl From<MetricError> for Fault {
    ghost from_gives = { λ error fault. IsRefusal (codes "metric") (metric_number error) fault };

    fn from(error: MetricError) -> Fault {
        Fault::Refused {
            layer: "metric",
            number: error.number(),
        }
    }
}

/// A tally refused.
impl From<TallyError> for Fault {
    ghost from_gives = { λ error fault. IsRefusal (codes "tally") (tally_number error) fault };

    fn from(error: TallyError) -> Fault {
        Fault::Refused {
            layer: "tally",
            number: error.number(),
        }
    }
}

/// A registry refused.
impl From<RegistryError> for Fault {
    ghost from_gives = { λ error fault. IsRefusal (codes "registry") (registry_number error) fault };

    fn from(error: RegistryError) -> Fault {
        Fault::Refused {
            layer: "registry",
            number: error.number(),
        }
    }
}

/// Collecting or a writer refused.
impl From<EncodeError> for Fault {
    ghost from_gives = { λ error fault. IsRefusal (codes "encode") (encode_number error) fault };

    fn from(error: EncodeError) -> Fault {
        Fault::Refused {
            layer: "encode",
            number: error.number(),
        }
    }
}

// Says on a writer why there is no document, and returns the status.
fn report<E: Write>(errors: &mut E, fault: Fault) -> u8
    ensures { result ≡ status_of fault }
{
    match fault {
        Fault::UnknownScene => {
            let _ = errors.write_all(b"unknown scene\n");
            2
        }
        Fault::Refused { layer, number } => {
            let _ = write!(errors, "fault: {layer} {number}\n");
            1
        }
    }
}

// Prints the registry's document.
fn print_document<W: Write>(alloc: Global, out: &mut W, registry: &Registry) -> Result<(), Fault>
    requires { HasHistory registry.now }
    ensures printed { PrintsDocument
        (AdmittedBy ⟦<Box<dyn EncodeMetric> as EncodeMetric>⟧ registry.now)
        (W.contents out.old) (W.contents out.new) result }
    ensures refused { IfErr result (λ fault. (error : AnEncodeError)
        × IsRefusal (codes "encode") (encode_number error) fault) }
{
    Ok(encode(alloc, out, registry)?)
}

/// Prints the registry's document on the first writer, or the fault on the second, and returns the status: 0 for a whole
/// document, 1 for a refusal, 2 for an unknown scene. What a write to the second writer returns does not matter.
pub fn finish<W: Write, E: Write>(
    alloc: Global,
    made: Result<Registry, Fault>,
    out: &mut W,
    errors: &mut E,
) -> u8
    requires { IfOk made (λ registry. HasHistory registry) }
    ensures { Finishes
        (AdmittedBy ⟦<Box<dyn EncodeMetric> as EncodeMetric>⟧)
        (W.contents out.old) (W.contents out.new) made result }
{
    match made {
        Ok(registry) => match print_document(alloc, out, &registry) {
            Ok(()) => 0,
            Err(fault) => report(errors, fault),
        },
        Err(fault) => report(errors, fault),
    }
}

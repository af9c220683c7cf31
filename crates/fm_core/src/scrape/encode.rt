//! Writing the document of a registry, whose text is rendered while its metrics are visited.
ghost use Rattle.std.specs.Prelude.{◌≡◌, ◌⊎◌, OnOk, IfOk, IfErr};
ghost use Rattle.std.specs.Io.KnownBytes.{Keeps};
ghost use Rattle.fm_raw.specs.declared.encode_error.EncodeError.{EncodeError};
ghost use Rattle.fm_exposition.specs.Written.{AppendsDocument, AppendsBeginningOfDocument, IsWritersFault};
ghost use Rattle.fm_registry_rules.specs.Listing.{order};
ghost use Rattle.fm_registry_rules.specs.Tree.{Shows};
ghost use Rattle.fm_core.specs.HasHistory.{HasHistory};
ghost use Rattle.fm_core.specs.Admits.{AdmittedBy, HasFault};
ghost use Rattle.fm_core.specs.Encoded.{IsAdmittedText, Writes, BeginsToWrite};

use crate::registry::Registry;
use crate::scrape::buffer::DocumentBuffer;
use fm_encoder::EncodeMetric;
use fm_raw::EncodeError;
use std::alloc::Global;
use std::io::Write;

/// Writes the document of a registry: renders it in memory while it visits the metrics, and then writes it. No lock is held while
/// it writes.
///
/// Errors: a metric was refused or memory ran out, and nothing was written; the writer returned an error (`Write`) or took no
/// byte (`WriteZero`), and a beginning of the document was written. Wrap a file or a socket in a `BufWriter`, and flush it.
pub fn encode<W: Write, M: EncodeMetric>(
    alloc: Global,
    writer: &mut W,
    registry: &Registry<M>,
) -> Result<(), EncodeError>
    requires { HasHistory registry.now }
    // The document, and nothing else, of an exposition that every history of the registry admits, and of no other exposition.
    ensures document { OnOk result (Writes
        (IsAdmittedText (AdmittedBy M.EncodeMetric registry.now))
        (W.contents writer.old) (W.contents writer.new)) }
    // A refusal in collecting writes nothing, and names a fault that the tree has.
    ensures refused { IfErr result (λ k. ¬ (IsWritersFault k)
        → Keeps (W.contents writer.old) (W.contents writer.new)
        × ((k ≡ EncodeError.Memory) ⊎ HasFault M.EncodeMetric k registry.now)) }
    // After an error of the writer, a beginning of such a document was written.
    ensures stopped { IfErr result (λ k. IsWritersFault k → BeginsToWrite
        (IsAdmittedText (AdmittedBy M.EncodeMetric registry.now))
        (W.contents writer.old) (W.contents writer.new)) }
{
    DocumentBuffer::new(alloc).encode(writer, registry)
}

//! A document that is kept from one scrape to the next, so that its memory is.
ghost use Rattle.std.specs.Prelude.{◌≡◌, ◌⊎◌, [], Some, None, OnOk, IfOk, IfErr};
ghost use Rattle.std.specs.Io.KnownBytes.{Keeps};
ghost use Rattle.fm_grammar.specs.Exposition.{Exposition};
ghost use Rattle.fm_grammar.specs.Reading.{IsExposition};
ghost use Rattle.fm_raw.specs.declared.encode_error.EncodeError.{EncodeError};
ghost use Rattle.fm_exposition.specs.inside.DocumentRows.{document_rows};
ghost use Rattle.fm_exposition.specs.Written.{AppendsDocument, AppendsBeginningOfDocument, IsWritersFault};
ghost use Rattle.fm_registry_rules.specs.Listing.{order};
ghost use Rattle.fm_registry_rules.specs.Tree.{Shows};
ghost use Rattle.fm_core.specs.HasHistory.{HasHistory};
ghost use Rattle.fm_core.specs.Admits.{AdmittedBy, HasFault};
ghost use Rattle.fm_core.specs.Encoded.{IsAdmittedText, Writes, BeginsToWrite};

use crate::registry::Registry;
use crate::scrape::gather::gather;
use crate::scrape::metric_family_encoder::{MetricFamilyEncoder, Parts};
use fm_encoder::EncodeMetric;
use fm_raw::EncodeError;
use fm_writer::TextBlocks;
use std::alloc::Global;
use std::io::Write;

// Renders the document of a registry and all below it, or returns the first refusal. It may wait if a metric waits for a lock.
fn render<'a, M: EncodeMetric>(
    encoder: &mut MetricFamilyEncoder<'a>,
    registry: &'a Registry<M>,
) -> Result<(), EncodeError>
    requires history { HasHistory registry.now }
    requires empty { (encoder.old.families ≡ []) × (encoder.old.lines ≡ Some []) }
    requires accepting { encoder.old.refused ≡ None }
    ensures text { OnOk result ((e : Exposition)
        × AdmittedBy M.EncodeMetric registry.now e
        × IsExposition e × (encoder.new.lines ≡ Some (document_rows e))) }
    ensures fault { IfErr result
        (λ k. (k ≡ EncodeError.Memory) ⊎ HasFault M.EncodeMetric k registry.now) }
    ensures not_writing { IfErr result (λ k. ¬ (IsWritersFault k)) }
{
    if let Err(stop) = gather(encoder, registry) {
        return Err(stop.error);
    }
    encoder.end()
}

// Writes the lines of a document, all or a beginning of them.
fn write_lines<W: Write>(writer: &mut W, lines: &TextBlocks) -> Result<(), EncodeError>
    ensures document { (e : Exposition) → IsExposition e → lines.now ≡ document_rows e
        → OnOk result (AppendsDocument (W.contents writer.old) (W.contents writer.new) e) }
    ensures stopped { (e : Exposition) → IsExposition e → lines.now ≡ document_rows e
        → IfErr result (λ k. IsWritersFault k
        → AppendsBeginningOfDocument (W.contents writer.old) (W.contents writer.new) e) }
    ensures fault { IfErr result IsWritersFault }
{
    lines.write_to(writer)
}

/// The memory in which documents are rendered, one after the other, for a server that is scraped again and again. From the second
/// document of the same size on it asks for no memory, but for the labels of infos and exemplars.
///
/// It keeps the blocks of 64 KiB that the last document filled, and the labels of a few lines. The blocks that a document didn't take
/// are given back when the next one begins, and all of them when it is dropped. A document that was refused leaves none of its text.
///
/// Threads that scrape at the same time have one each, or one under a `Mutex`.
///
/// <!-- cut: crates/server/src/main.rt -->
/// ```rust
/// root.encode_into(buffer, &mut document)?;
/// // ..
/// let mut buffer = DocumentBuffer::new(root.alloc());
/// scrape(&root, &mut buffer)?;
/// let again = scrape(&root, &mut buffer)?;
/// ```
pub struct DocumentBuffer {
    alloc: Global,
    // What the encoder of the last document left.
    parts: Option<Parts>,
}

impl Drop for DocumentBuffer {
    fn drop(self) {
        let DocumentBuffer { alloc: _, parts: _ } = self;
    }
}

impl DocumentBuffer {
    /// A buffer that takes memory with the first document.
    pub fn new(alloc: Global) -> DocumentBuffer {
        DocumentBuffer { alloc, parts: None }
    }

    /// Writes the document of a registry, as the function `encode` does, with its errors, and renders it in the memory of the document
    /// before. After an error it takes the next one as ever.
    pub fn encode<W: Write, M: EncodeMetric>(
        &mut self,
        writer: &mut W,
        registry: &Registry<M>,
    ) -> Result<(), EncodeError>
        requires { HasHistory registry.now }
        // The document, and nothing else, of an exposition that every history of the registry admits, and of no other exposition.
        ensures document { OnOk result (Writes
            (IsAdmittedText (AdmittedBy M.EncodeMetric registry.now))
            (W.contents writer.old) (W.contents writer.new)) }
        // A refusal in collecting writes nothing, and names a fault that the tree has.
        ensures refused { IfErr result (λ k. ¬ (IsWritersFault k)
            → Keeps (W.contents writer.old) (W.contents writer.new)
            × ((k ≡ EncodeError.Memory) ⊎ HasFault M.EncodeMetric k registry.now)) }
        // After an error of the writer, a beginning of such a document was written.
        ensures stopped { IfErr result (λ k. IsWritersFault k → BeginsToWrite
            (IsAdmittedText (AdmittedBy M.EncodeMetric registry.now))
            (W.contents writer.old) (W.contents writer.new)) }
    {
        let mut encoder = MetricFamilyEncoder::for_lines(self.alloc, self.parts.take());
        let written = match render(&mut encoder, registry) {
            Ok(()) => write_lines(writer, encoder.lines()),
            Err(error) => Err(error),
        };
        self.parts = Some(encoder.into_parts());
        written
    }
}

// Writing an exposition as its document.
ghost use Rattle.std.specs.Prelude.{◌≡◌, List, IfOk, OnOk, IfErr};
ghost use Rattle.std.specs.List.{AllByRecursion};
ghost use Rattle.std.specs.Io.KnownBytes.{Keeps};
ghost use Rattle.fm_grammar.specs.Exposition.{Label};
ghost use Rattle.fm_grammar.specs.Spelling.{label_list_text};
ghost use Rattle.fm_exposition.specs.inside.Points.{HaveInCommon, AreInPoints};
ghost use Rattle.fm_exposition.specs.Rows.{sample_row, sample_rows};
ghost use Rattle.fm_exposition.specs.inside.DocumentRows.{family_rows, families_rows, document_rows};
ghost use Rattle.fm_exposition.specs.Samples.{common_labels, sample_of, samples_of};
ghost use Rattle.fm_exposition.specs.Written.{AppendsDocument, AppendsBeginningOfDocument, IsWritersFault, IsWritingRefusal};
ghost use Rattle.fm_writer.specs.Utf8.{AppendsUtf8};
ghost use Rattle.fm_text.specs.inside.Grown.{Grows, size_of};
ghost use Rattle.fm_writer.specs.inside.Utf8.{IsUtf8Family};

use crate::heads::{FamilyHead, append_heads};
use crate::rendering::{Reading, append_sample_row};
use fm_exposition::{Exposition, FamilySamples, Sample, parts, write_text};
use fm_raw::EncodeError;
use fm_text::GrowingText;
use fm_text::labels::{Rendered, render_label_list};
use fm_text::output::{Output, Size};
use std::alloc::{AllocError, Global};
use std::io::Write;

// Appends the line of a sample, given the text of its common labels.
fn append_sample<O: Output>(
    text: &mut O,
    common_text: &O,
    name: &str,
    sample: &Sample,
) -> Result<(), AllocError>
    requires { O.stands_for common_text.now (label_list_text (common_labels sample.now)) }
    ensures { OnOk result (Grows (O.stands_for text.old) (O.stands_for text.new)
        (sample_row name.now (sample_of sample.now))) }
{
    let common = Rendered {
        labels: parts::common(sample),
        text: common_text,
    };
    let value = sample.value();
    let reading = Reading {
        value: &value,
        time: sample.timestamp_millis(),
        exemplar: sample.exemplar(),
    };
    let own = parts::own(sample);
    append_sample_row(text, name, sample.kind(), &common, own, reading)
}

// Appends the lines of samples that share common labels, given the text of these.
fn append_samples<O: Output>(
    text: &mut O,
    common_text: &O,
    name: &str,
    samples: &[Sample],
) -> Result<(), AllocError>
    requires { (labels : List Label)
        × O.stands_for common_text.now (label_list_text labels)
        × HaveInCommon labels samples.now }
    ensures { OnOk result (Grows (O.stands_for text.old) (O.stands_for text.new)
        (sample_rows name.now (samples_of samples.now))) }
{
    for sample in samples {
        append_sample(text, common_text, name, sample)?;
    }
    Ok(())
}

// Appends the lines of a point's samples, whose common labels are rendered once.
#[tactic(auto, using(fm_text::proofs::GrownLemmas::grown, fm_exposition::proofs::PointLemmas::points))]
fn append_point<O: Output>(
    text: &mut O,
    common_text: &mut O,
    name: &str,
    samples: &[Sample],
) -> Result<(), AllocError>
    requires { (labels : List Label) × HaveInCommon labels samples.now }
    ensures { OnOk result (Grows (O.stands_for text.old) (O.stands_for text.new)
        (sample_rows name.now (samples_of samples.now))) }
{
    let Some(first) = samples.first() else {
        return Ok(());
    };
    render_label_list(common_text, parts::common(first))?;
    append_samples(text, common_text, name, samples)
}

// Appends the lines of samples point by point.
fn append_points<O: Output>(
    text: &mut O,
    common_text: &mut O,
    name: &str,
    points: &[usize],
    samples: &[Sample],
) -> Result<(), AllocError>
    requires { AreInPoints points.now samples.now }
    ensures { OnOk result (Grows (O.stands_for text.old) (O.stands_for text.new)
        (sample_rows name.now (samples_of samples.now))) }
{
    let mut rest = samples;
    for count in points {
        let (point, others) = rest.split_at(*count);
        append_point(text, common_text, name, point)?;
        rest = others;
    }
    Ok(())
}

// Appends the lines of a family.
#[tactic(auto, using(fm_text::proofs::GrownLemmas::grown))]
fn append_family<O: Output>(
    text: &mut O,
    common_text: &mut O,
    family: &FamilySamples,
) -> Result<(), AllocError>
    ensures rows { OnOk result (Grows (O.stands_for text.old) (O.stands_for text.new)
        (family_rows family.now)) }
    ensures utf8 { OnOk result (IsUtf8Family family.now) }
{
    let head = FamilyHead {
        metric_type: family.metric_type(),
        help: family.help(),
        unit: family.unit(),
    };
    append_heads(text, family.name(), head)?;
    let (points, samples) = parts::points(family);
    append_points(text, common_text, family.name(), points, samples)
}

// Appends the lines of families.
fn append_families<O: Output>(
    text: &mut O,
    common_text: &mut O,
    families: &[FamilySamples],
) -> Result<(), AllocError>
    ensures rows { OnOk result (Grows (O.stands_for text.old) (O.stands_for text.new)
        (families_rows families.now)) }
    ensures utf8 { OnOk result (AllByRecursion IsUtf8Family families.now) }
{
    for family in families {
        append_family(text, common_text, family)?;
    }
    Ok(())
}

// Renders the document of families to an output. The common labels of each point are rendered to the second output.
fn render_document<O: Output>(
    text: &mut O,
    common_text: &mut O,
    families: &[FamilySamples],
) -> Result<(), AllocError>
    ensures document { OnOk result (O.stands_for text.new (document_rows families.now)) }
    ensures utf8 { OnOk result (AllByRecursion IsUtf8Family families.now) }
{
    text.reset();
    append_families(text, common_text, families)?;
    text.put(b"# EOF\n")
}

// The size of a document, and that of the common labels of its points.
fn measured(families: &[FamilySamples]) -> Result<(Size, Size), AllocError>
    ensures { IfOk result (λ sizes. sizes.0.size ≡ size_of (document_rows families.now)) }
{
    let mut text = Size::new();
    let mut common_text = Size::new();
    render_document(&mut text, &mut common_text, families)?;
    Ok((text, common_text))
}

// The document's text. Its memory is taken before its first byte is rendered.
fn rendered(alloc: Global, families: &[FamilySamples]) -> Result<GrowingText, AllocError>
    ensures document { IfOk result (λ text. text ≡ document_rows families.now) }
    ensures utf8 { OnOk result (AllByRecursion IsUtf8Family families.now) }
{
    let (size, common_size) = measured(families)?;
    let mut text = GrowingText::with_room(alloc, size.size)?;
    let mut common_text = GrowingText::with_room(alloc, common_size.greatest)?;
    render_document(&mut text, &mut common_text, families)?;
    Ok(text)
}

/// Writes the document of an exposition to a writer, after what it already has.
///
/// It takes memory at most twice, for the document and for the common labels of a point, and before the first byte is written.
/// Errors: memory ran out, and nothing was written (`Memory`); the writer returned an error (`Write`) or took no byte
/// (`WriteZero`), and a beginning of the document was written. No call is repeated, and the writer is not flushed.
pub fn encode_exposition<W: Write>(
    alloc: Global,
    writer: &mut W,
    exposition: &Exposition,
) -> Result<(), EncodeError>
    // After `Ok`, exactly the document was appended.
    ensures document { OnOk result
        (AppendsDocument (W.contents writer.old) (W.contents writer.new) exposition.now) }
    // After `Ok`, the document that was appended is valid UTF-8.
    ensures utf8 { OnOk result
        (AppendsUtf8 (W.contents writer.old) (W.contents writer.new) exposition.now) }
    // If memory ran out, nothing was written.
    ensures memory { IfErr result (λ e. e ≡ EncodeError.Memory
        → Keeps (W.contents writer.old) (W.contents writer.new)) }
    // After an error of the writer, a beginning of the document was appended.
    ensures stopped { IfErr result (λ e. IsWritersFault e
        → AppendsBeginningOfDocument
        (W.contents writer.old) (W.contents writer.new) exposition.now) }
    ensures refusals { IfErr result IsWritingRefusal }
{
    let text = rendered(alloc, exposition.families())?;
    write_text(writer, text.as_slice())
}

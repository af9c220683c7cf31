// The labels of a sample's line, appended to an output.
ghost use Rattle.std.specs.Prelude.{◌≡◌, ◌++◌, ◌⊎◌, ◌<◌, List, [], length, codes, OnOk};
ghost use Rattle.fm_grammar.specs.Exposition.{Label};
ghost use Rattle.fm_grammar.specs.Spelling.{escaped, label_text, label_list_text, in_braces};
ghost use Rattle.fm_grammar.specs.LabelPairs.{labels_of};
ghost use Rattle.fm_text.specs.inside.Grown.{Grows};
ghost use Rattle.fm_text.specs.inside.LabelTexts.{labels_in, AreSpans};

use crate::escaping::append_escaped;
use crate::output::Output;
use crate::plain::is_plain;
use crate::spans::LabelsAt;
use fm_grammar::LabelList;
use std::alloc::AllocError;

/// Labels of samples, the common ones or their own.
pub trait LabelSource<O: Output> {
    // The labels.
    ghost labels: { Self → List Label };

    // Whether their text may be appended.
    ghost is_ready: { Self → Type 0 } = { λ _. Unit {0} };

    fn len(&self) -> usize
        ensures { result ≡ length (labels self.now) };

    // Appends the labels with commas between them, and the text that comes after them. Fails if memory runs out.
    fn append_before(&self, text: &mut O, after: &[u8]) -> Result<(), AllocError>
        requires { is_ready self.now }
        ensures { OnOk result (Grows (O.stands_for text.old) (O.stands_for text.new)
            (label_list_text (labels self.now) ++ after.now)) };
}

/// Labels, and their text as it was rendered before.
#[derive(Drop)]
pub struct Rendered<'a, O> {
    pub labels: &'a LabelList,
    pub text: &'a O,
}

impl<O: Output> LabelSource<O> for Rendered<'_, O> {
    ghost labels = { λ source. source.labels.now };

    ghost is_ready = { λ source.
        O.stands_for source.text.now (label_list_text source.labels.now) };

    #[tactic(auto, using(crate::proofs::GrownLemmas::two_blocks))]
    fn len(&self) -> usize {
        self.labels.len()
    }

    #[tactic(auto, using(crate::proofs::GrownLemmas::grown))]
    fn append_before(&self, text: &mut O, after: &[u8]) -> Result<(), AllocError> {
        text.put_output(self.text)?;
        text.put(after)
    }
}

impl<O: Output> LabelSource<O> for LabelList {
    ghost labels = { λ source. source };

    #[tactic(auto, using(crate::proofs::GrownLemmas::two_blocks))]
    fn len(&self) -> usize {
        self.len()
    }

    #[tactic(auto, using(crate::proofs::GrownLemmas::grown))]
    fn append_before(&self, text: &mut O, after: &[u8]) -> Result<(), AllocError> {
        append_list(text, self)?;
        text.put(after)
    }
}

// Appends the value of a label, and the quote after it.
#[tactic(auto, using(crate::proofs::GrownLemmas::grown))]
fn append_quoted<O: Output>(text: &mut O, value: &[u8]) -> Result<(), AllocError>
    ensures { OnOk result (Grows (O.stands_for text.old) (O.stands_for text.new)
        (escaped value.now ++ codes "\"")) }
{
    if is_plain(value) {
        return text.put_three(value, b"\"", b"");
    }
    append_escaped(text, value)?;
    text.put(b"\"")
}

// Appends a label after a separator.
#[tactic(auto, using(crate::proofs::GrownLemmas::line), unfolding(fm_grammar::specs::Spelling::label_text))]
#[inline(always)]
fn append_separated<O: Output>(
    text: &mut O,
    separator: &[u8],
    name: &[u8],
    value: &[u8],
) -> Result<(), AllocError>
    ensures { OnOk result (Grows (O.stands_for text.old) (O.stands_for text.new)
        (separator.now ++ label_text (record { name = name.now; value = value.now }))) }
{
    text.put_three(separator, name, b"=\"")?;
    append_quoted(text, value)
}

// What comes before the label at an index of a list.
fn separator(index: usize) -> &'static [u8]
    ensures { ((index ≡ 0) × (result.now ≡ [])) ⊎ ((0 < index) × (result.now ≡ codes ",")) }
{
    if index == 0 { b"" } else { b"," }
}

// Appends the labels of a list with commas between them.
fn append_list<O: Output>(text: &mut O, labels: &LabelList) -> Result<(), AllocError>
    ensures { OnOk result (Grows (O.stands_for text.old) (O.stands_for text.new)
        (label_list_text labels.now)) }
{
    for i in 0..labels.len() {
        let (name, value) = labels.at(i);
        append_separated(text, separator(i), name.as_bytes(), value.as_bytes())?;
    }
    Ok(())
}

// Appends labels with commas between them.
fn append_label_list<O: Output>(text: &mut O, labels: &[(String, String)]) -> Result<(), AllocError>
    ensures { OnOk result (Grows (O.stands_for text.old) (O.stands_for text.new)
        (label_list_text (labels_of labels.now))) }
{
    for i in 0..labels.len() {
        let label = &labels[i];
        append_separated(text, separator(i), label.0.as_bytes(), label.1.as_bytes())?;
    }
    Ok(())
}

/// Appends labels that are kept in another text, with commas between them.
pub fn append_labels_at<O: Output>(text: &mut O, labels: LabelsAt<'_>) -> Result<(), AllocError>
    requires { AreSpans labels }
    ensures { OnOk result (Grows (O.stands_for text.old) (O.stands_for text.new)
        (label_list_text (labels_in labels.entry.text.now labels.entry.spans.now))) }
{
    for i in 0..labels.spans.len() {
        let span = &labels.spans[i];
        let (name, value) = (labels.bytes(span.name), labels.bytes(span.value));
        append_separated(text, separator(i), name, value)?;
    }
    Ok(())
}

/// Replaces an output by the text of labels with commas between them.
pub fn render_label_list<O: Output>(text: &mut O, labels: &LabelList) -> Result<(), AllocError>
    ensures { OnOk result (O.stands_for text.new (label_list_text labels.now)) }
{
    text.reset();
    append_list(text, labels)
}

/// Appends labels in braces.
#[tactic(auto, using(crate::proofs::GrownLemmas::grown), unfolding(fm_grammar::specs::Spelling::in_braces))]
pub fn append_in_braces<O: Output>(
    text: &mut O,
    labels: &[(String, String)],
) -> Result<(), AllocError>
    ensures { OnOk result (Grows (O.stands_for text.old) (O.stands_for text.new)
        (in_braces (labels_of labels.now))) }
{
    text.put(b"{")?;
    append_label_list(text, labels)?;
    text.put(b"}")
}

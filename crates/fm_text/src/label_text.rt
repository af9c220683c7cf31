//! Labels that are kept in one text.
ghost use Rattle.std.specs.Prelude.{◌≡◌, ◌++◌, ◌∷◌, ◌≤◌, ◌<◌, ◌↔◌, IsTrue, [], length, drop, map, Contains, OnOk, OnErr, IfOk, Some, None, IsSome, true, is_some, codes, IfSome};
ghost use Rattle.std.specs.List.{Any};
ghost use Rattle.std.specs.Str.{IsUtf8};
ghost use Rattle.fm_grammar.specs.Spelling.{label_list_text, escaped};
ghost use Rattle.fm_grammar.specs.LabelPairs.{labels_of, shown_label};
ghost use Rattle.fm_text.specs.inside.Grown.{Grown};
ghost use Rattle.fm_text.specs.inside.LabelTexts.{part_in, labels_in, IsPart, AreSpans, IsLabelAdded, name_in_list, further_list, whole_label, whole_span};

use crate::growing::GrowingText;
use crate::labels::{LabelSource, append_labels_at};
use crate::output::Output;
use crate::plain::is_plain;
use crate::spans::{LabelSpan, LabelsAt, Part, push_after};
use fm_grammar::LabelList;
use std::alloc::{AllocError, Global};
use std::marker::Model;

// Appends a name or a value, and returns where it is.
fn append_part(text: &mut GrowingText, part: &[u8]) -> Result<Part, AllocError>
    requires { IsUtf8 part.now }
    ensures grown { OnOk result (Grown text.old text.new part.now) }
    ensures part { IfOk result (λ p. IsPart text.new p × (part_in text.new p ≡ part.now)) }
    ensures kept { OnErr result (text.new ≡ text.old) }
{
    let start = text.as_slice().len();
    text.append(part)?;
    Ok(Part {
        start,
        end: text.as_slice().len(),
    })
}

// Appends the name of a label, after the quote that ends the previous label and a comma, and then the start of the value.
fn append_listed_name(text: &mut GrowingText, is_first: bool, name: &str) -> Result<(), AllocError>
    ensures grown { OnOk result (Grown text.old text.new (name_in_list is_first name.now)) }
    ensures kept { OnErr result (text.new ≡ text.old) }
{
    if is_first {
        return text.put_three(b"", name.as_bytes(), b"=\"");
    }
    text.put_three(b"\",", name.as_bytes(), b"=\"")
}

// Appends the name of a label like this, and returns where it is.
fn append_name(text: &mut GrowingText, is_first: bool, name: &str) -> Result<Part, AllocError>
    ensures grown { OnOk result (Grown text.old text.new (name_in_list is_first name.now)) }
    ensures part { IfOk result (λ p. IsPart text.new p × (part_in text.new p ≡ name.now)) }
    ensures kept { OnErr result (text.new ≡ text.old) }
{
    append_listed_name(text, is_first, name)?;
    let end = text.as_slice().len() - 2;
    Ok(Part {
        start: end - name.as_bytes().len(),
        end,
    })
}

// Appends the name and the value of a label like this at once, and returns where they are.
#[inline(always)]
fn append_label(
    text: &mut GrowingText,
    is_first: bool,
    name: &str,
    value: &[u8],
) -> Result<LabelSpan, AllocError>
    requires { IsUtf8 value.now }
    ensures appended { IfOk result (IsLabelAdded is_first name.now value.now text.old text.new) }
    ensures kept { OnErr result (text.new ≡ text.old) }
{
    let name = name.as_bytes();
    text.put_label(is_first, name, value)?;
    let end = text.as_slice().len();
    let start = end - value.len();
    let name_end = start - 2;
    Ok(LabelSpan {
        name: Part {
            start: name_end - name.len(),
            end: name_end,
        },
        value: Part { start, end },
    })
}

// Appends the list of further labels, after the quote that ends the previous label and a comma, and returns where it begins.
fn append_further_list(
    text: &mut GrowingText,
    is_first: bool,
    list: &[u8],
) -> Result<usize, AllocError>
    ensures grown { OnOk result (Grown text.old text.new (further_list is_first list.now)) }
    ensures begin { IfOk result (λ at. (at ≤ length text.new) × (drop at text.new ≡ list.now)) }
    ensures kept { OnErr result (text.new ≡ text.old) }
{
    if is_first {
        text.append(list)?;
    } else {
        text.put_three(b"\"", b",", list)?;
    }
    Ok(text.as_slice().len() - list.len())
}

// Adds the span of a label that has a name and a value.
fn push_span(
    spans: &mut Vec<LabelSpan>,
    name: Option<Part>,
    value: Option<Part>,
) -> Result<(), AllocError>
    requires { IfSome value (λ part. part.start ≤ part.end) }
    ensures pushed { OnOk result (spans.new.items ≡ spans.old.items ++ whole_span name value) }
    ensures kept { OnErr result (spans.new.items ≡ spans.old.items) }
{
    match (name, value) {
        (Some(name), Some(value)) => {
            // A part ends where it starts, or later, so `max` changes nothing. It keeps the numbers from being copied as a pair: one load
            // of both would wait for the stores of each.
            let value = Part {
                start: value.start,
                end: value.end.max(value.start),
            };
            spans.push(LabelSpan { name, value })?;
            Ok(())
        }
        _ => Ok(()),
    }
}

// Whether a text that is the labels' list stays so after a further name: no part of the current label is there yet.
fn may_take_name(is_listed: bool, name: Option<Part>, value: Option<Part>) -> bool
    ensures { IsTrue result → (is_listed ≡ true) × (name ≡ None) × (value ≡ None) }
{
    is_listed && name.is_none() && value.is_none()
}

// The same after a further value.
fn may_take_value(is_listed: bool, name: Option<Part>, value: Option<Part>, further: &[u8]) -> bool
    ensures { IsTrue result
        → (is_listed ≡ true) × IsSome name × (value ≡ None) × (escaped further.now ≡ further.now) }
{
    is_listed && name.is_some() && value.is_none() && is_plain(further)
}

// The same after the end of the current label.
fn may_end(is_listed: bool, name: Option<Part>, value: Option<Part>) -> bool
    ensures { IsTrue result → (is_listed ≡ true) × (is_some name ≡ is_some value) }
{
    is_listed && name.is_some() == value.is_some()
}

/// Labels that are kept in one text, and the name and the value of the current label, which has not ended yet.
pub struct LabelText {
    // The names and values, each where it is in the labels' list.
    text: GrowingText,
    spans: Vec<LabelSpan>,
    // The name and the value of the current label.
    name: Option<Part>,
    value: Option<Part>,
    // Whether the text is the labels' list, except for the quote at its end.
    is_listed: bool,
}

impl Drop for LabelText {
    fn drop(self) {
        let LabelText {
            text: _,
            spans: _,
            name: _,
            value: _,
            is_listed: _,
        } = self;
    }
}

impl Model for LabelText {
    ghost use Rattle.std.specs.Option.{option_map};
    ghost use Rattle.fm_text.specs.inside.LabelTexts.{LabelsState, labels_in, part_in, AreWithin};

    ghost Value = { LabelsState };

    ghost view = { λ l. record {
      labels = labels_in l.text l.spans.items;
      name = option_map (part_in l.text) l.name;
      value = option_map (part_in l.text) l.value;
    } };

    ghost invariant = { λ l. AreWithin l.is_listed l.text l.spans.items l.name l.value };
}

impl LabelText {
    /// No labels. It takes no memory.
    pub fn new(alloc: Global) -> LabelText
        ensures { result ≡ record { labels = []; name = None; value = None } }
    {
        LabelText {
            text: GrowingText::new(alloc),
            spans: Vec::new(alloc),
            name: None,
            value: None,
            is_listed: true,
        }
    }

    // The labels from an index on.
    fn at(&self, from: usize) -> LabelsAt<'_>
        requires { from ≤ length self.now.labels }
        ensures spans { AreSpans result }
        ensures labels { labels_in result.text.now result.spans.now
            ≡ drop from self.now.labels }
    {
        LabelsAt {
            text: self.text.as_slice(),
            spans: &self.spans[from..],
        }
    }

    /// How many labels there are.
    pub fn len(&self) -> usize
        ensures { result ≡ length self.now.labels }
    {
        self.spans.len()
    }

    /// Whether the current label has a name.
    pub fn is_named(&self) -> bool
        ensures { result ≡ is_some self.now.name }
    {
        self.name.is_some()
    }

    /// Whether the current label has a value.
    pub fn is_valued(&self) -> bool
        ensures { result ≡ is_some self.now.value }
    {
        self.value.is_some()
    }

    /// Whether one of the labels has this name.
    pub fn has_name(&self, name: &str) -> bool
        ensures { IsTrue result ↔ Contains (map (λ label. label.name) self.now.labels) name.now }
    {
        self.at(0).has_name(name.as_bytes())
    }

    /// Whether one of its labels has the name of one of these.
    pub fn has_name_of(&self, labels: &LabelText) -> bool
        ensures { IsTrue result
            ↔ Any (Contains (map (λ label. label.name) self.now.labels)) (map (λ label. label.name) labels.now.labels) }
    {
        self.at(0).has_name_of(labels.at(0))
    }

    /// Whether its labels are these, in this order.
    pub fn are(&self, labels: &[(String, String)]) -> bool
        ensures { IsTrue result → self.now.labels ≡ labels_of labels.now }
    {
        self.at(0).are(labels)
    }

    /// Whether its labels are those of a list.
    pub fn are_of_list(&self, list: &LabelList) -> bool
        ensures { IsTrue result → self.now.labels ≡ list.now }
    {
        self.at(0).are_of_list(list)
    }

    /// Removes all labels, and keeps the memory for later ones.
    pub fn clear(&mut self)
        ensures { self.new ≡ record { labels = []; name = None; value = None } }
    {
        self.text.clear();
        self.spans.clear();
        self.name = None;
        self.value = None;
        self.is_listed = true;
    }

    /// Replaces its labels by copies of these. Fails if memory runs out; then nothing is known of its labels.
    pub fn assign(&mut self, labels: &LabelText) -> Result<(), AllocError>
        ensures assigned { OnOk result
            (self.new ≡ record { labels = labels.now.labels; name = None; value = None }) }
        ensures idle { (self.new.name ≡ None) × (self.new.value ≡ None) }
    {
        self.is_listed = false;
        self.name = None;
        self.value = None;
        let spans = &mut self.spans;
        spans.clear();
        self.text.assign(&labels.text)?;
        spans.extend_from_slice(&labels.spans)?;
        self.is_listed = labels.is_listed && labels.name.is_none() && labels.value.is_none();
        Ok(())
    }

    /// Adds copies of these labels after its own, and drops the current label. Fails if memory runs out; then nothing is known
    /// of its labels.
    pub fn append(&mut self, labels: &LabelText) -> Result<(), AllocError>
        ensures appended { OnOk result (self.new ≡ record {
          labels = self.old.labels ++ labels.now.labels;
          name = None;
          value = None;
        }) }
        ensures idle { (self.new.name ≡ None) × (self.new.value ≡ None) }
    {
        self.is_listed = may_take_name(self.is_listed, self.name, self.value);
        self.name = None;
        self.value = None;
        if labels.spans.as_slice().is_empty() {
            return Ok(());
        }
        let are_listed = self.is_listed
            && may_take_name(labels.is_listed, labels.name, labels.value);
        self.is_listed = false;
        let is_first = self.spans.as_slice().is_empty();
        let by = append_further_list(&mut self.text, is_first, labels.text.as_slice())?;
        push_after(&mut self.spans, self.text.as_slice(), by, &labels.spans)?;
        self.is_listed = are_listed;
        Ok(())
    }

    /// Begins a label with this name. Fails if memory runs out, and then changes nothing.
    pub fn set_name(&mut self, name: &str) -> Result<(), AllocError>
        ensures set { OnOk result (self.new ≡ record self.old { name = Some name.now }) }
        ensures kept { OnErr result (self.new ≡ self.old) }
    {
        let part = append_name(&mut self.text, self.spans.as_slice().is_empty(), name)?;
        self.is_listed = may_take_name(self.is_listed, self.name, self.value);
        self.name = Some(part);
        Ok(())
    }

    // Gives the current label this value. Fails if memory runs out, and then changes nothing.
    fn set_value_bytes(&mut self, value: &[u8]) -> Result<(), AllocError>
        requires text { IsUtf8 value.now }
        ensures set { OnOk result (self.new ≡ record self.old { value = Some value.now }) }
        ensures kept { OnErr result (self.new ≡ self.old) }
    {
        let part = append_part(&mut self.text, value)?;
        self.is_listed = may_take_value(self.is_listed, self.name, self.value, value);
        self.value = Some(part);
        Ok(())
    }

    /// Gives the current label this value. Fails if memory runs out, and then changes nothing.
    pub fn set_value(&mut self, value: &str) -> Result<(), AllocError>
        ensures set { OnOk result (self.new ≡ record self.old { value = Some value.now }) }
        ensures kept { OnErr result (self.new ≡ self.old) }
    {
        self.set_value_bytes(value.as_bytes())
    }

    /// Adds a label with this name and this value as the last, where there is no current label. Fails if memory runs out, and
    /// then changes nothing.
    pub fn add(&mut self, name: &str, value: &[u8]) -> Result<(), AllocError>
        requires idle { (self.old.name ≡ None) × (self.old.value ≡ None) }
        requires text { IsUtf8 value.now }
        ensures added { OnOk result (self.new ≡ record self.old {
          labels = self.old.labels ++ record { name = name.now; value = value.now } ∷ [];
        }) }
        ensures kept { OnErr result (self.new ≡ self.old) }
    {
        let is_listed = may_take_name(self.is_listed, self.name, self.value) && is_plain(value);
        self.is_listed = false;
        self.name = None;
        self.value = None;
        let is_first = self.spans.as_slice().is_empty();
        let span = append_label(&mut self.text, is_first, name, value)?;
        self.spans.push(span)?;
        self.is_listed = is_listed;
        Ok(())
    }

    /// Ends the current label: if it has a name and a value, it becomes the last of the labels, else it is dropped. Fails if
    /// memory runs out, and then changes nothing.
    pub fn end_label(&mut self) -> Result<(), AllocError>
        ensures ended { OnOk result (self.new ≡ record {
          labels = self.old.labels ++ whole_label self.old.name self.old.value;
          name = None;
          value = None;
        }) }
        ensures kept { OnErr result (self.new ≡ self.old) }
    {
        push_span(&mut self.spans, self.name, self.value)?;
        self.is_listed = may_end(self.is_listed, self.name, self.value);
        self.name = None;
        self.value = None;
        Ok(())
    }

    /// Appends a line: its front, the labels with commas between them, the end of their block, and a value. Fails if memory runs out.
    #[inline(always)]
    pub fn append_row(
        &self,
        text: &mut GrowingText,
        front: &[u8],
        value: &[u8],
    ) -> Result<(), AllocError>
        requires { 0 < length self.now.labels }
        ensures { OnOk result (Grown text.old text.new (front.now ++ (label_list_text self.now.labels
            ++ (codes "} " ++ (value.now ++ codes "\n"))))) }
    {
        if !self.is_listed || self.name.is_some() || self.value.is_some() {
            text.append(front)?;
            append_labels_at(text, self.at(0))?;
            return text.put_three(b"} ", value, b"\n");
        }
        text.put_row(front, self.text.as_slice(), value)
    }

    /// The same where the front is a name, a suffix and a brace.
    #[inline(always)]
    pub fn append_named_row(
        &self,
        text: &mut GrowingText,
        name: &[u8],
        suffix: &[u8],
        value: &[u8],
    ) -> Result<(), AllocError>
        requires { 0 < length self.now.labels }
        ensures { OnOk result (Grown text.old text.new (name.now ++ (suffix.now ++ (codes "{"
            ++ (label_list_text self.now.labels ++ (codes "} " ++ (value.now ++ codes "\n"))))))) }
    {
        if !self.is_listed || self.name.is_some() || self.value.is_some() {
            text.put_three(name, suffix, b"{")?;
            append_labels_at(text, self.at(0))?;
            return text.put_three(b"} ", value, b"\n");
        }
        text.put_named_row(name, suffix, self.text.as_slice(), value)
    }

    /// A list of the labels. Fails if memory runs out.
    pub fn to_list(&self, alloc: Global) -> Result<LabelList, AllocError>
        ensures { IfOk result (λ list. list ≡ self.now.labels) }
    {
        self.at(0).list(alloc)
    }

    /// The labels from an index on, as borrowed pairs. Fails if memory runs out.
    pub fn pairs(&self, alloc: Global, from: usize) -> Result<Vec<(&str, &str)>, AllocError>
        requires { from ≤ length self.now.labels }
        ensures { IfOk result (λ pairs. map shown_label pairs.items ≡ drop from self.now.labels) }
    {
        self.at(from).pairs(alloc)
    }
}

impl<O: Output> LabelSource<O> for LabelText {
    ghost labels = { λ source. source.labels };

    fn len(&self) -> usize {
        self.len()
    }

    #[tactic(auto, using(crate::proofs::GrownLemmas::grown))]
    fn append_before(&self, text: &mut O, after: &[u8]) -> Result<(), AllocError> {
        if !self.is_listed || self.name.is_some() || self.value.is_some() {
            append_labels_at(text, self.at(0))?;
            return text.put(after);
        }
        if self.spans.as_slice().is_empty() {
            text.put_three(self.text.as_slice(), b"", after)
        } else {
            text.put_three(self.text.as_slice(), b"\"", after)
        }
    }
}

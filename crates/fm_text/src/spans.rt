// Where names and values are in a text.
ghost use Rattle.std.specs.Prelude.{◌≡◌, ◌++◌, ◌+◌, ◌≤◌, ◌↔◌, IsTrue, Contains, OnOk, IfOk, drop, length, map};
ghost use Rattle.std.specs.List.{AllByRecursion, Any};
ghost use Rattle.fm_grammar.specs.LabelPairs.{labels_of, shown_label};
ghost use Rattle.fm_text.specs.inside.LabelTexts.{part_in, label_in, labels_in, IsPart, IsSpan, AreSpans, names_in};

use fm_grammar::LabelList;
use std::alloc::{AllocError, Global};

/// Where a name or a value is in a text.
#[derive(Clone, Copy, Debug)]
pub struct Part {
    pub start: usize,
    pub end: usize,
}

/// Where the name and the value of a label are in a text.
#[derive(Clone, Copy, Debug)]
pub struct LabelSpan {
    pub name: Part,
    pub value: Part,
}

/// Labels in a text: the text, and where they are.
#[derive(Clone, Copy, Debug)]
pub struct LabelsAt<'a> {
    pub text: &'a [u8],
    pub spans: &'a [LabelSpan],
}

impl<'a> LabelsAt<'a> {
    /// The bytes of a name or a value.
    pub fn bytes(self, part: Part) -> &'a [u8]
        requires { IsPart self.text.now part }
        ensures { result.now ≡ part_in self.entry.text.now part }
    {
        &self.text[part.start..part.end]
    }

    // The text of a name or a value.
    fn text(self, part: Part) -> &'a str
        requires { IsPart self.text.now part }
        ensures { result.now ≡ part_in self.entry.text.now part }
    {
        match str::from_utf8(self.bytes(part)) {
            Ok(found) => found,
            Err(_) => unreachable!(),
        }
    }

    // Whether the label at this span has this name.
    fn is_named(self, span: &LabelSpan, name: &[u8]) -> bool
        requires { IsSpan self.text.now span.now }
        ensures { IsTrue result ↔ ((label_in self.entry.text.now span.now).name ≡ name.now) }
    {
        self.bytes(span.name) == name
    }

    /// Whether one of the labels has this name.
    pub fn has_name(self, name: &[u8]) -> bool
        requires { AreSpans self }
        ensures { IsTrue result ↔ Contains (names_in self.entry.text.now self.entry.spans.now) name.now }
    {
        for span in self.spans {
            if self.is_named(span, name) {
                return true;
            }
        }
        false
    }

    /// Whether one of the labels has the name of one of the other labels.
    pub fn has_name_of(self, others: LabelsAt<'_>) -> bool
        requires spans { AreSpans self }
        requires others { AreSpans others }
        ensures { IsTrue result
            ↔ Any (Contains (names_in self.entry.text.now self.entry.spans.now))
            (names_in others.entry.text.now others.entry.spans.now) }
    {
        for span in others.spans {
            if self.has_name(others.bytes(span.name)) {
                return true;
            }
        }
        false
    }

    // Whether the label at this span has this name and this value.
    fn is_pair(self, span: &LabelSpan, name: &str, value: &str) -> bool
        requires { IsSpan self.text.now span.now }
        ensures { IsTrue result → label_in self.entry.text.now span.now ≡ record { name = name.now; value = value.now } }
    {
        self.bytes(span.name) == name.as_bytes() && self.bytes(span.value) == value.as_bytes()
    }

    /// Whether the labels are these, in this order.
    pub fn are(self, labels: &[(String, String)]) -> bool
        requires { AreSpans self }
        ensures { IsTrue result → labels_in self.entry.text.now self.entry.spans.now ≡ labels_of labels.now }
    {
        if self.spans.len() != labels.len() {
            return false;
        }
        for i in 0..self.spans.len() {
            let label = &labels[i];
            if !self.is_pair(&self.spans[i], label.0.as_str(), label.1.as_str()) {
                return false;
            }
        }
        true
    }

    /// Whether the labels are those of a list.
    pub fn are_of_list(self, list: &LabelList) -> bool
        requires { AreSpans self }
        ensures { IsTrue result → labels_in self.entry.text.now self.entry.spans.now ≡ list.now }
    {
        if self.spans.len() != list.len() {
            return false;
        }
        for i in 0..self.spans.len() {
            let (name, value) = list.at(i);
            if !self.is_pair(&self.spans[i], name, value) {
                return false;
            }
        }
        true
    }

    /// The names and values of the labels.
    pub fn pairs(self, alloc: Global) -> Result<Vec<(&'a str, &'a str)>, AllocError>
        requires { AreSpans self }
        ensures { IfOk result (λ pairs. map shown_label pairs.items
            ≡ labels_in self.entry.text.now self.entry.spans.now) }
    {
        let mut pairs = Vec::new(alloc);
        for span in self.spans {
            pairs.push((self.text(span.name), self.text(span.value)))?;
        }
        Ok(pairs)
    }

    /// A list of the labels.
    pub fn list(self, alloc: Global) -> Result<LabelList, AllocError>
        requires { AreSpans self }
        ensures { IfOk result (λ list. list ≡ labels_in self.entry.text.now self.entry.spans.now) }
    {
        let mut list = LabelList::with_room(alloc, self.text.len())?;
        for span in self.spans {
            list.push(self.text(span.name), self.text(span.value))?;
        }
        Ok(list)
    }
}

// Where a part of what a text has after its first `by` bytes is in the whole text.
fn part_after(whole: &[u8], by: usize, part: Part) -> Part
    requires within { by ≤ length whole.now }
    requires part { IsPart (drop by whole.now) part }
    ensures is_part { IsPart whole.now result }
    ensures same { part_in whole.now result ≡ part_in (drop by whole.now) part }
{
    Part {
        start: part.start + by,
        end: part.end + by,
    }
}

// Where a label of what a text has after its first `by` bytes is in the whole text.
fn span_after(whole: &[u8], by: usize, span: &LabelSpan) -> LabelSpan
    requires within { by ≤ length whole.now }
    requires span { IsSpan (drop by whole.now) span.now }
    ensures is_span { IsSpan whole.now result }
    ensures same { label_in whole.now result ≡ label_in (drop by whole.now) span.now }
{
    LabelSpan {
        name: part_after(whole, by, span.name),
        value: part_after(whole, by, span.value),
    }
}

/// Adds the spans of labels of what a text has after its first `by` bytes.
pub fn push_after(
    spans: &mut Vec<LabelSpan>,
    whole: &[u8],
    by: usize,
    others: &[LabelSpan],
) -> Result<(), AllocError>
    requires within { by ≤ length whole.now }
    requires spans { AllByRecursion (IsSpan whole.now) spans.old.items }
    requires others { AllByRecursion (IsSpan (drop by whole.now)) others.now }
    ensures spans { AllByRecursion (IsSpan whole.now) spans.new.items }
    ensures pushed { OnOk result (labels_in whole.now spans.new.items
        ≡ labels_in whole.now spans.old.items ++ labels_in (drop by whole.now) others.now) }
{
    for span in others {
        spans.push(span_after(whole, by, span))?;
    }
    Ok(())
}

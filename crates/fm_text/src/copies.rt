// Copies of label lists.
ghost use Rattle.std.specs.Prelude.{◌≡◌, ◌≤◌, ◌++◌, [], ◌∷◌, None, OnOk, IfOk, length, drop, map};
ghost use Rattle.fm_grammar.specs.LabelPairs.{labels_of, shown_label};

use crate::label_text::LabelText;
use std::alloc::{AllocError, Global};

/// Owned copies of borrowed labels. Fails if memory runs out.
pub fn owned_labels(
    alloc: Global,
    labels: &[(&str, &str)],
) -> Result<Vec<(String, String)>, AllocError>
    ensures { IfOk result (λ owned. labels_of owned.items ≡ map shown_label labels.now) }
{
    let mut owned = Vec::new(alloc);
    for label in labels {
        owned.push((
            String::from_str(alloc, label.0)?,
            String::from_str(alloc, label.1)?,
        ))?;
    }
    Ok(owned)
}

// Copies of borrowed labels, without a test.
fn copied_labels(alloc: Global, labels: &[(&str, &str)]) -> Result<LabelText, AllocError>
    ensures { IfOk result (λ text. text.labels ≡ map shown_label labels.now) }
{
    let mut text = LabelText::new(alloc);
    for label in labels {
        text.push(label.0, label.1)?;
    }
    Ok(text)
}

impl LabelText {
    /// Adds a label. Fails if memory runs out.
    pub fn push(&mut self, name: &str, value: &str) -> Result<(), AllocError>
        ensures { OnOk result (self.new ≡ record {
          labels = self.old.labels ++ record { name = name.now; value = value.now } ∷ [];
          name = None;
          value = None;
        }) }
    {
        self.set_name(name)?;
        self.set_value(value)?;
        self.end_label()
    }

    /// Copies of the labels from an index on. Fails if memory runs out.
    pub fn suffix(&self, alloc: Global, from: usize) -> Result<LabelText, AllocError>
        requires { from ≤ length self.now.labels }
        ensures { IfOk result (λ text. text.labels ≡ drop from self.now.labels) }
    {
        let pairs = self.pairs(alloc, from)?;
        copied_labels(alloc, &pairs)
    }

    /// Owned copies of the labels. Fails if memory runs out.
    pub fn to_owned(&self, alloc: Global) -> Result<Vec<(String, String)>, AllocError>
        ensures { IfOk result (λ owned. labels_of owned.items ≡ self.now.labels) }
    {
        let pairs = self.pairs(alloc, 0)?;
        owned_labels(alloc, &pairs)
    }
}

// The labels of buckets, kept from one histogram to the next.
ghost use Rattle.std.specs.Prelude.{◌≡◌, [], ◌∷◌, None, Some, IfOk, OnOk, IfSome, IsTrue};
ghost use Rattle.fm_encoder.specs.Points.{bound_label};

use fm_raw::bucket::{BUCKET_LABEL, Bound, Bucket};
use fm_raw::fixed::FixedBuffer;
use fm_text::LabelText;
use std::alloc::{AllocError, Global};
use std::marker::Model;

// A bucket's bound, if there is one, and its label. Contracts see it as the bound.
pub(crate) struct BoundLabel {
    bound: Option<Bound>,
    text: LabelText,
}

impl Drop for BoundLabel {
    fn drop(self) {
        let BoundLabel { bound: _, text: _ } = self;
    }
}

impl Model for BoundLabel {
    ghost use Rattle.std.specs.Prelude.{◌≡◌, [], ◌∷◌, Option, IfSome};
    ghost use Rattle.fm_raw.specs.declared.bucket.bound.Bound.{Bound};
    ghost use Rattle.fm_encoder.specs.Points.{bound_label};

    ghost Value = { Option Bound };

    ghost view = { λ l. l.bound };

    ghost invariant = { λ l. IfSome l.bound (λ b. l.text.labels ≡ bound_label b ∷ []) };
}

// Replaces a text by the label of a bound. Fails if memory runs out.
fn render_label(text: &mut LabelText, bound: Bound) -> Result<(), AllocError>
    ensures { OnOk result (text.new.labels ≡ bound_label bound ∷ []) }
{
    let mut buffer = FixedBuffer::new();
    text.clear();
    text.push(BUCKET_LABEL, bound.format(&mut buffer))
}

impl BoundLabel {
    // No label of a bound yet. It takes no memory.
    fn new(alloc: Global) -> BoundLabel
        ensures { result ≡ None }
    {
        BoundLabel {
            bound: None,
            text: LabelText::new(alloc),
        }
    }

    // Takes the bound of a bucket, and writes its label over the one before. Fails if memory runs out.
    fn set(&mut self, bucket: &Bucket) -> Result<(), AllocError>
        ensures { OnOk result (self.new ≡ Some bucket.now.upper_bound) }
    {
        self.bound = None;
        render_label(&mut self.text, bucket.upper_bound())?;
        self.bound = Some(bucket.upper_bound());
        Ok(())
    }

    fn is_of(&self, bucket: &Bucket) -> bool
        ensures { IsTrue result → self.now ≡ Some bucket.now.upper_bound }
    {
        match self.bound {
            Some(bound) => bound == bucket.upper_bound(),
            None => false,
        }
    }

    fn text(&self) -> &LabelText
        ensures { IfSome self.now (λ bound. result.now.labels ≡ bound_label bound ∷ []) }
    {
        &self.text
    }
}

// The label of a point's bucket at this index. If the label that is kept there has another bound, the new one is written over it. Fails if
// memory runs out.
pub(crate) fn label_of_bucket<'a>(
    alloc: Global,
    labels: &'a mut Vec<BoundLabel>,
    index: usize,
    bucket: &Bucket,
) -> Result<&'a LabelText, AllocError>
    ensures { IfOk result (λ text. text.now.labels ≡ bound_label bucket.now.upper_bound ∷ []) }
{
    let at = index.min(labels.len());
    if at < labels.len() && labels[at].is_of(bucket) {
        return Ok(labels[at].text());
    }
    if at == labels.len() {
        labels.push(BoundLabel::new(alloc))?;
    }
    labels[at].set(bucket)?;
    Ok(labels[at].text())
}

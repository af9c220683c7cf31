//! The samples of a family that is read, and the labels that samples share.
ghost use Rattle.std.specs.Prelude.{◌≡◌, ◌↔◌, ◌++◌, [], ◌∷◌, IsTrue, OnOk, IfOk};
ghost use Rattle.fm_reader.specs.inside.Parts.{IsListText};
ghost use Rattle.fm_reader.specs.inside.Samples.{read_sample_of};
ghost use Rattle.fm_reader.specs.inside.Shared.{common_after};

use crate::lines::sample::ReadSample;
use crate::lines::shared::ReadLabels;
use fm_exposition::{CommonLabels, SampleStore};
use fm_grammar::LabelList;
use std::alloc::{AllocError, Global};
use std::marker::Model;
use std::sync::Arc;

/// The labels that samples of one point share.
#[derive(Drop)]
pub(crate) struct Common<'a> {
    labels: CommonLabels,
    // Their text in the document, without a comma after it. It is empty if there are none.
    text: &'a str,
}

impl<'a> Model for Common<'a> {
    ghost use Rattle.std.specs.Prelude.{List};
    ghost use Rattle.fm_grammar.specs.Exposition.{Label};
    ghost use Rattle.fm_exposition.specs.Samples.{shared_labels};
    ghost use Rattle.fm_reader.specs.inside.Parts.{IsListText};

    ghost Value = { List Label };

    ghost view = { λ c. shared_labels c.labels };

    ghost invariant = { λ c. IsListText c.text.now (shared_labels c.labels) };
}

impl<'a> Common<'a> {
    /// Common labels that have this text in the document. Fails if memory runs out.
    pub(crate) fn new(
        alloc: Global,
        labels: LabelList,
        text: &'a str,
    ) -> Result<Common<'a>, AllocError>
        requires { IsListText text.now labels }
        ensures { IfOk result (λ common. common ≡ labels) }
    {
        Ok(Common {
            labels: Arc::new(alloc, labels)?,
            text,
        })
    }

    /// The labels.
    pub(crate) fn labels(&self) -> &LabelList
        ensures { result.now ≡ self.now }
    {
        &self.labels
    }

    /// No labels. Fails if memory runs out.
    pub(crate) fn none(alloc: Global) -> Result<Common<'a>, AllocError>
        ensures { IfOk result (λ common. common ≡ []) }
    {
        Common::new(alloc, LabelList::new(alloc), "")
    }
}

/// The samples of a family so far.
pub(crate) struct ReadSamples<'a> {
    store: SampleStore,
    // The text of the store's common labels in the document.
    text: &'a str,
}

impl Drop for ReadSamples<'_> {
    fn drop(self) {
        let ReadSamples { store: _, text: _ } = self;
    }
}

impl<'a> Model for ReadSamples<'a> {
    ghost use Rattle.fm_exposition.specs.inside.Points.{Stored};
    ghost use Rattle.fm_reader.specs.inside.Parts.{IsListText};

    ghost Value = { Stored };

    ghost view = { λ s. s.store };

    ghost invariant = { λ s. IsListText s.text.now s.store.common };
}

impl<'a> ReadSamples<'a> {
    /// No samples. Fails if memory runs out.
    pub(crate) fn new(alloc: Global) -> Result<ReadSamples<'a>, AllocError>
        ensures { IfOk result (λ samples. samples ≡ record { common = []; samples = [] }) }
    {
        let common = Common::none(alloc)?;
        Ok(ReadSamples {
            store: SampleStore::new(alloc, common.labels),
            text: common.text,
        })
    }

    /// Whether there are no samples.
    pub(crate) fn is_empty(&self) -> bool
        ensures { IsTrue result ↔ (self.now.samples ≡ []) }
    {
        self.store.as_slice().is_empty()
    }

    /// The common labels of the last sample, which the next one may share.
    pub(crate) fn common(&self) -> &LabelList
        ensures { result.now ≡ self.now.common }
    {
        self.store.common()
    }

    /// The text of these labels in the document.
    pub(crate) fn common_text(&self) -> &'a str
        ensures { IsListText result.now self.now.common }
    {
        self.text
    }

    // Begins a point whose samples share these labels, or goes on with the labels of the last one if there are none.
    fn share(&mut self, common: Option<Common<'a>>)
        ensures common { self.new.common ≡ common_after self.old.common common.entry }
        ensures samples { self.new.samples ≡ self.old.samples }
    {
        let Some(common) = common else {
            return;
        };
        self.store.share(common.labels);
        self.text = common.text;
    }

    /// Adds a sample at the end. Fails if memory runs out.
    pub(crate) fn push(&mut self, sample: ReadSample<'a>) -> Result<(), AllocError>
        ensures { OnOk result
            (self.new.samples
            ≡ self.old.samples ++ read_sample_of self.old.common sample.entry ∷ []) }
    {
        let ReadLabels { common, own } = sample.labels;
        self.share(common);
        self.store.push(sample.kind, own, sample.value, sample.time, sample.exemplar)
    }

    /// The samples as a family keeps them.
    pub(crate) fn into_store(self) -> SampleStore
        ensures { result ≡ self.entry }
    {
        let ReadSamples { store, text: _ } = self;
        store
    }
}

//! Where encoders put the samples of a family.
ghost use Rattle.std.specs.Prelude.{◌≡◌, ◌++◌, None, Some, [], ◌∷◌, map, OnOk, OnErr, IfOk, IfSome, IsSome};
ghost use Rattle.std.specs.Option.{option_copied};
ghost use Rattle.fm_exposition.specs.Rows.{head_rows};
ghost use Rattle.fm_grammar.specs.LabelPairs.{labels_of, shown_label};
ghost use Rattle.fm_exposition.specs.Samples.{shared_labels};
ghost use Rattle.fm_text.specs.inside.Grown.{Grown};
ghost use Rattle.fm_writer.specs.Heads.{headed};
ghost use Rattle.fm_writer.specs.NewSamples.{new_sample, IsFrontOf};
ghost use Rattle.fm_writer.specs.Output.{OutputSamples, OutputText, AreShared, shared_by, appended, with_lines, samples_in, text_in};

use crate::blocks::TextBlocks;
use crate::heads::{FamilyHead, append_heads};
use crate::new_sample::NewSample;
use crate::rendering::{Reading, append_sample_row, whole_number};
use fm_exposition::{CommonLabels, SampleStore};
use fm_grammar::LabelList;
use fm_text::{GrowingText, LabelText};
use itoa::Buffer;
use std::alloc::{AllocError, Global};
use std::marker::Model;
use std::sync::Arc;

#[derive(Drop)]
enum Form {
    // The samples, and whether the next ones share the store's common labels.
    Samples(SampleStore, bool),
    Text(TextBlocks),
}

// The labels, for samples to share.
fn shared(alloc: Global, labels: &LabelText) -> Result<CommonLabels, AllocError>
    ensures { IfOk result (λ shared. shared_labels shared ≡ labels.now.labels) }
{
    let shared = Arc::new(alloc, labels.to_list(alloc)?)?;
    Ok(shared)
}

// Adds a sample to a store, whose next samples have its common labels.
fn keep(
    alloc: Global,
    store: &mut SampleStore,
    sample: &mut NewSample<'_>,
) -> Result<(), AllocError>
    requires { store.old.common ≡ sample.old.common.now.labels }
    ensures common { store.new.common ≡ store.old.common }
    ensures samples { OnOk result
        (store.new.samples ≡ store.old.samples ++ new_sample sample.old ∷ []) }
{
    let own = sample.own.to_list(alloc)?;
    let exemplar = sample.exemplar.take();
    store.push(sample.kind, own, sample.value, sample.time, exemplar)
}

// Appends the lines of a family that come before its samples, to a text in blocks.
fn append_heads_in_blocks(
    blocks: &mut TextBlocks,
    name: &str,
    head: FamilyHead<'_>,
) -> Result<(), AllocError>
    ensures { OnOk result (Grown blocks.old blocks.new (head_rows (headed name.now head.entry))) }
{
    blocks.begin()?;
    append_heads(&mut blocks.last, name, head)?;
    blocks.settle()
}

// Appends the line of a sample to a text in blocks.
fn append_row_in_blocks(
    blocks: &mut TextBlocks,
    name: &str,
    sample: &NewSample<'_>,
    front: Option<&GrowingText>,
) -> Result<(), AllocError>
    requires { IfSome front (λ f. IsFrontOf sample.now name.now f.now) }
    ensures { OnOk result
        (OutputText blocks.new ≡ appended name.now (OutputText blocks.old) (new_sample sample.now ∷ [])) }
{
    append_row(&mut blocks.last, name, sample, front)?;
    blocks.settle()
}

// Appends the line of a sample. Most have one list of labels and a whole number, and these take the fewest steps.
fn append_row(
    text: &mut GrowingText,
    name: &str,
    sample: &NewSample<'_>,
    front: Option<&GrowingText>,
) -> Result<(), AllocError>
    requires { IfSome front (λ f. IsFrontOf sample.now name.now f.now) }
    ensures { OnOk result
        (OutputText text.new ≡ appended name.now (OutputText text.old) (new_sample sample.now ∷ [])) }
{
    let (kind, common, own) = (sample.kind, sample.common, sample.own);
    let reading = Reading {
        value: &sample.value,
        time: sample.time,
        exemplar: sample.exemplar.as_ref(),
    };
    if let Some(number) = whole_number(reading) {
        let mut digits = Buffer::new();
        let value = digits.format(number).as_bytes();
        if let Some(front) = front {
            return own.append_row(text, front.as_slice(), value);
        }
        if own.len() == 0 && common.len() > 0 {
            let suffix = kind.suffix().as_bytes();
            return common.append_named_row(text, name.as_bytes(), suffix, value);
        }
    }
    append_sample_row(text, name, kind, common, own, reading)
}

/// Keeps samples, or appends their lines to a text.
pub struct Sink {
    alloc: Global,
    form: Form,
}

impl Drop for Sink {
    fn drop(self) {
        let Sink { alloc: _, form: _ } = self;
    }
}

impl Model for Sink {
    ghost use Rattle.fm_writer.specs.Output.{SinkState};
    ghost use Rattle.fm_writer.specs.inside.Forms.{sink_state};

    ghost Value = { SinkState };

    ghost view = { λ s. sink_state s.form };
}

impl Sink {
    /// A sink that keeps samples. The next ones share no labels. Fails if memory runs out.
    pub fn samples(alloc: Global) -> Result<Sink, AllocError>
        ensures { IfOk result
            (λ sink. sink ≡ record { shared = Some []; output = OutputSamples [] }) }
    {
        let common = Arc::new(alloc, LabelList::new(alloc))?;
        Ok(Sink {
            alloc,
            form: Form::Samples(SampleStore::new(alloc, common), true),
        })
    }

    /// A sink that appends lines to this text.
    pub fn text(alloc: Global, text: TextBlocks) -> Sink
        ensures { result ≡ record { shared = None; output = OutputText text } }
    {
        Sink {
            alloc,
            form: Form::Text(text),
        }
    }

    /// Appends the lines of a family that come before its samples. A sink that keeps samples ignores them. Fails if memory runs out.
    pub fn append_heads(&mut self, name: &str, head: FamilyHead<'_>) -> Result<(), AllocError>
        ensures shared { self.new.shared ≡ self.old.shared }
        ensures grown { OnOk result
            (self.new.output
            ≡ with_lines self.old.output (head_rows (headed name.now head.entry))) }
    {
        match &mut self.form {
            Form::Samples(_, _) => Ok(()),
            Form::Text(text) => append_heads_in_blocks(text, name, head),
        }
    }

    /// Ends the sharing of common labels: the next sample may have others.
    pub fn unshare(&mut self)
        ensures { self.new ≡ record self.old { shared = None } }
    {
        if let Form::Samples(_, are_shared) = &mut self.form {
            *are_shared = false;
        }
    }

    /// Ends the point: the next sample begins another one, under the same common labels.
    pub fn end_point(&mut self)
        ensures { self.new ≡ self.old }
    {
        if let Form::Samples(store, _) = &mut self.form {
            store.end_point();
        }
    }

    /// Takes a sample of the family with this printed name. One that is kept loses its exemplar to the sink. Samples that are kept share
    /// one copy of their common labels, until others come after `unshare`. The front of the sample's line may have been rendered before:
    /// samples of one kind with the same common labels share it. A sink that keeps samples ignores it.
    ///
    /// Fails if memory runs out; then the text may end in a part of a line.
    pub fn push(
        &mut self,
        name: &str,
        sample: &mut NewSample<'_>,
        front: Option<&GrowingText>,
    ) -> Result<(), AllocError>
        requires shared { AreShared sample.old.common.now.labels self.old.shared }
        requires front { IfSome front (λ f. IsFrontOf sample.old name.now f.now) }
        ensures shared { AreShared sample.old.common.now.labels self.new.shared }
        ensures one_copy { OnOk result
            (self.new.shared ≡ shared_by self.old.output sample.old.common.now.labels) }
        ensures pushed { OnOk result
            (self.new.output ≡ appended name.now self.old.output (new_sample sample.old ∷ [])) }
    {
        match &mut self.form {
            Form::Samples(store, true) => keep(self.alloc, store, sample),
            Form::Samples(store, are_shared) => {
                if !sample.common.are_of_list(store.common()) {
                    store.share(shared(self.alloc, sample.common)?);
                }
                *are_shared = true;
                keep(self.alloc, store, sample)
            }
            Form::Text(text) => append_row_in_blocks(text, name, sample, front),
        }
    }

    /// Takes the samples out of a sink that keeps samples: none are left. Fails if memory runs out; then nothing changes.
    pub fn take_samples(&mut self) -> Result<SampleStore, AllocError>
        requires { IsSome (samples_in self.old.output) }
        ensures taken { IfOk result (λ taken. self.old.output ≡ OutputSamples taken.samples) }
        ensures emptied { OnOk result (self.new ≡ record self.old { output = OutputSamples [] }) }
        ensures kept { OnErr result (self.new ≡ self.old) }
    {
        match &mut self.form {
            Form::Samples(store, _) => store.take(self.alloc),
            Form::Text(_) => unreachable!(),
        }
    }

    /// Begins another text, in the blocks of the one before.
    pub fn begin_text(&mut self)
        ensures { self.new ≡ record { shared = None; output = OutputText [] } }
    {
        match &mut self.form {
            Form::Samples(_, _) => self.form = Form::Text(TextBlocks::new(self.alloc)),
            Form::Text(text) => text.clear(),
        }
    }

    /// Ends the text with this line. A sink that keeps samples ignores it. Fails if memory runs out.
    pub fn end_text(&mut self, last: &[u8]) -> Result<(), AllocError>
        ensures shared { self.new.shared ≡ self.old.shared }
        ensures ended { OnOk result (self.new.output ≡ with_lines self.old.output last.now) }
    {
        match &mut self.form {
            Form::Samples(_, _) => Ok(()),
            Form::Text(text) => text.append(last),
        }
    }

    /// The text so far, or `None` if the sink keeps samples.
    pub fn lines(&self) -> Option<&TextBlocks>
        ensures { option_copied result ≡ text_in self.now.output }
    {
        match &self.form {
            Form::Samples(_, _) => None,
            Form::Text(text) => Some(text),
        }
    }
}

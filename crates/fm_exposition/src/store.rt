//! The samples of a family while they are collected point by point.
ghost use Rattle.std.specs.Prelude.{◌≡◌, ◌+◌, ◌^◌, ◌<◌, ℕ, List, [], ◌∷◌, ◌++◌, length, OnOk, OnErr, IfOk};
ghost use Rattle.std.specs.Option.{option_map};
ghost use Rattle.fm_exposition.specs.inside.Points.{AreInPoints, HaveUtf8Labels};
ghost use Rattle.fm_exposition.specs.Samples.{shared_labels, value_of, exemplar_of, boxed_exemplar, samples_of};

use crate::exposition::{CommonLabels, Exemplar, Sample, Value};
use fm_grammar::{LabelList, SampleKind};
use std::alloc::{AllocError, Global};
use std::marker::Model;
use std::mem;

/// The samples of points, in order. Those of one point share one list of common labels.
#[derive(Debug)]
pub struct SampleStore {
    alloc: Global,
    samples: Vec<Sample>,
    // The number of samples of each point.
    counts: Vec<usize>,
    common: CommonLabels,
    // Whether the next sample belongs to the last point.
    is_under_way: bool,
}

impl Drop for SampleStore {
    fn drop(self) {
        let SampleStore {
            alloc: _,
            samples: _,
            counts: _,
            common: _,
            is_under_way: _,
        } = self;
    }
}

impl Model for SampleStore {
    ghost use Rattle.fm_exposition.specs.Samples.{shared_labels, samples_of};
    ghost use Rattle.fm_exposition.specs.inside.Points.{Stored, AreStored};

    ghost Value = { Stored };

    ghost view = { λ s.
        record { common = shared_labels s.common; samples = samples_of s.samples.items } };

    ghost invariant = { λ s.
        AreStored (shared_labels s.common) s.is_under_way s.counts.items s.samples.items };
}

impl SampleStore {
    /// No samples yet. The samples of the first point share these labels.
    pub fn new(alloc: Global, common: CommonLabels) -> SampleStore
        ensures { result ≡ record { common = shared_labels common; samples = [] } }
    {
        common.hold_utf8();
        SampleStore {
            alloc,
            samples: Vec::new(alloc),
            counts: Vec::new(alloc),
            common,
            is_under_way: false,
        }
    }

    /// The common labels of the samples that are pushed next.
    pub fn common(&self) -> &LabelList
        ensures { result.now ≡ self.now.common }
    {
        &self.common
    }

    /// The samples in order.
    pub fn as_slice(&self) -> &[Sample]
        ensures { samples_of result.now ≡ self.now.samples }
    {
        self.samples.as_slice()
    }

    /// Ends the current point. The samples of the next points share these labels.
    pub fn share(&mut self, common: CommonLabels)
        ensures common { self.new.common ≡ shared_labels common }
        ensures samples { self.new.samples ≡ self.old.samples }
    {
        common.hold_utf8();
        self.is_under_way = false;
        self.common = common;
    }

    /// Ends the current point: the next sample begins another one, with the same common labels.
    pub fn end_point(&mut self)
        ensures { self.new ≡ self.old }
    {
        self.is_under_way = false;
    }

    /// Adds a sample to the current point. Its labels here come after the common ones. The time is in milliseconds.
    ///
    /// Fails if memory runs out; then the samples stay as they were.
    pub fn push(
        &mut self,
        kind: SampleKind,
        own: LabelList,
        value: Value,
        time: Option<u128>,
        exemplar: Option<Exemplar>,
    ) -> Result<(), AllocError>
        ensures common { self.new.common ≡ self.old.common }
        ensures pushed { OnOk result (self.new.samples ≡ self.old.samples ++ record {
          kind = kind;
          labels = self.old.common ++ own;
          value = value_of value;
          time = time;
          exemplar = option_map exemplar_of exemplar;
        } ∷ []) }
        ensures kept { OnErr result (self.new.samples ≡ self.old.samples) }
    {
        own.hold_utf8();
        let exemplar = boxed(self.alloc, exemplar)?;
        if !self.is_under_way {
            self.counts.push(0)?;
            self.is_under_way = true;
        }
        let common = self.common.clone()?;
        let sample = Sample {
            kind,
            common,
            own,
            value,
            time,
            exemplar,
        };
        push_sample(&mut self.samples, sample)?;
        count_one(&mut self.counts);
        Ok(())
    }

    /// Takes the samples out: none are left, and the next ones have the same common labels. Fails if memory runs out; then nothing
    /// changes.
    pub fn take(&mut self, alloc: Global) -> Result<SampleStore, AllocError>
        ensures taken { IfOk result (λ taken. taken ≡ self.old) }
        ensures emptied { OnOk result (self.new ≡ record self.old { samples = [] }) }
        ensures kept { OnErr result (self.new ≡ self.old) }
    {
        let next = SampleStore::new(alloc, self.common.clone()?);
        Ok(mem::replace(self, next))
    }

    // The number of samples of each point, and all samples.
    pub(crate) fn points(&self) -> (&[usize], &[Sample])
        ensures points { AreInPoints result.0.now result.1.now }
        ensures utf8 { HaveUtf8Labels result.1.now }
        ensures samples { samples_of result.1.now ≡ self.now.samples }
    {
        (self.counts.as_slice(), self.samples.as_slice())
    }
}

// The exemplar in a box, if there is one.
fn boxed(alloc: Global, exemplar: Option<Exemplar>) -> Result<Option<Box<Exemplar>>, AllocError>
    ensures { IfOk result (λ boxed. option_map boxed_exemplar boxed ≡ option_map exemplar_of exemplar) }
{
    match exemplar {
        Some(exemplar) => Ok(Some(Box::new(alloc, exemplar)?)),
        None => Ok(None),
    }
}

// Adds a sample at the end. The first one gets room for itself alone, since many families have no more.
fn push_sample(samples: &mut Vec<Sample>, sample: Sample) -> Result<(), AllocError>
    ensures pushed { OnOk result (samples.new.items ≡ samples.old.items ++ sample ∷ []) }
    ensures kept { OnErr result (samples.new.items ≡ samples.old.items) }
    ensures bound { length samples.new.items < 2 ^ 63 }
{
    if samples.as_slice().is_empty() {
        samples.reserve_exact(1)?;
    }
    samples.push(sample)?;
    Ok(())
}

// Counts one more sample of the last point.
fn count_one(counts: &mut Vec<usize>)
    requires { (front : List ℕ) × (count : ℕ)
        × (counts.old.items ≡ front ++ count ∷ []) × (count + 1 < 2 ^ 64) }
    ensures { (front : List ℕ) (count : ℕ) → counts.old.items ≡ front ++ count ∷ []
        → counts.new.items ≡ front ++ (count + 1) ∷ [] }
{
    let last = counts.len() - 1;
    counts[last] += 1;
}

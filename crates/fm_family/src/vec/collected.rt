//! Families whose members are given anew at each scrape.
ghost use Rattle.std.specs.Prelude.{◌≡◌, ◌⊎◌, Err, IfOk, ⊤, length};
ghost use Rattle.std.specs.Arc.{arc_value};
ghost use Rattle.fm_raw.specs.declared.error.MetricError.TheVariants.{WrongValueCount};
ghost use Rattle.fm_registry_rules.specs.Answer.{refusal_of};
ghost use Rattle.fm_registry_rules.specs.LabelNames.{shown_texts, IsOrMemory};
ghost use Rattle.fm_labels.specs.ReservedNames.{family_names_refusal};
ghost use Rattle.fm_family.specs.VecMembers.{OffersNamed, HasOtherCount, AddsNew};

use crate::vec::hashing::LabelHashing;
use crate::vec::members::VecMembers;
use crate::vec::names::tested_label_names;
use fm_encoder::{EncodeMetric, EncodePoint, MetricEncoder};
use fm_raw::{EncodeError, MetricError, MetricType, TypedMetric};
use fm_registry_rules::RegistryError;
use fm_registry_rules::label_names::LabelNames;
use std::alloc::Global;
use std::marker::PhantomData;
use std::sync::Arc;
use std::time::Duration;

/// The members that a collector gives of a family at one scrape.
///
/// <!-- cut: crates/server/src/main.rt -->
/// ```rust
/// if family == 0 {
///     members.add(&["mail"], ConstGauge::new(mail))?;
///     members.add(&["pages"], ConstGauge::new(pages))?;
/// } else {
///     members.add(&[], ConstGauge::new(mail.saturating_add(pages)))?;
/// }
/// ```
#[derive(Drop)]
pub struct CollectedMembers<M> {
    alloc: Global,
    core: VecMembers<M>,
}

impl<M: Drop> CollectedMembers<M> {
    /// Adds a member with this metric under these values of the family's labels, in the order of their names, and returns whether it
    /// did: a member of these values that was added before stays as it is.
    ///
    /// Fails with `WrongValueCount` unless there are as many values as names, or with `Memory` if memory runs out; then the members
    /// stay as they were.
    pub fn add(&mut self, values: &[&str], metric: M) -> Result<bool, MetricError>
        ensures wrong { ¬ (length values.now ≡ self.old.core.count)
            → (result ≡ Err WrongValueCount) × (self.new.core ≡ self.old.core) }
        ensures adds { length values.now ≡ self.old.core.count
            → AddsNew self.old.core.limit (shown_texts values.now) metric self.old.core.entries self.new.core.entries result }
    {
        if values.len() != self.core.count() {
            return Err(MetricError::WrongValueCount);
        }
        self.core.add_new(self.alloc, values, metric)
    }
}

/// Gives the members of families, which all are of the type `M`, at each scrape.
///
/// <!-- cut: crates/server/src/main.rt -->
/// ```rust
/// impl Collector<ConstGauge<i64>> for Queues {
///     fn collect(&self, family: usize, members: &mut Members) -> Result<(), MetricError> {
///         let (mail, pages) = (self.mail.load(SeqCst), self.pages.load(SeqCst));
///         // ..
///         Ok(())
///     }
/// }
/// ```
pub trait Collector<M> {
    /// Adds the members of one family to `members`, which has none yet. `family` is the place of the family, from 0 on, in the
    /// list with which the collector was registered. At an error the scrape fails: with `Memory`, or else with `MetricFault`.
    fn collect(&self, family: usize, members: &mut CollectedMembers<M>) -> Result<(), MetricError>;
}

/// A collector that is shared gives what the collector does.
impl<M, C: Collector<M>> Collector<M> for Arc<C, Global> {
    fn collect(&self, family: usize, members: &mut CollectedMembers<M>) -> Result<(), MetricError> {
        (**self).collect(family, members)
    }
}

/// A family of the type `M` by label names, whose members a collector gives at each scrape.
///
/// <!-- cut: crates/server/src/main.rt -->
/// ```rust
/// type Own = Collected<ConstGauge<i64>, Arc<Queues>>;
/// // ..
/// let queue = Description::new("queue", "Jobs that wait").labels(&["name"]);
/// let all = Description::new("queues", "Jobs that wait in all queues");
/// root.collector(&[queue, all], queues.clone()?)?;
/// ```
#[derive(Drop)]
pub struct Collected<M, C> {
    names: LabelNames,
    alloc: Global,
    hashing: LabelHashing,
    collector: C,
    // Its place among the families of the collector.
    family: usize,
    of: PhantomData<M>,
}

impl<M: TypedMetric, C: Drop> Collected<M, C> {
    /// The family at this place among those of a collector, with these label names. It has the errors of `MetricVec::new`.
    pub fn new(
        alloc: Global,
        names: &[&str],
        hashing: LabelHashing,
        collector: C,
        family: usize,
    ) -> Result<Self, RegistryError>
        ensures answer { IsOrMemory (refusal_of result)
            (family_names_refusal M.TYPE (shown_texts names.now)) }
        ensures names { IfOk result (λ f. f.names ≡ shown_texts names.now) }
        ensures collector { IfOk result (λ f. (f.collector ≡ collector) × (f.family ≡ family)) }
    {
        let names = tested_label_names(alloc, M::TYPE, names)?;
        Ok(Collected {
            names,
            alloc,
            hashing,
            collector,
            family,
            of: PhantomData,
        })
    }

    /// The label names, in order.
    pub fn names(&self) -> &LabelNames
        ensures { result.now ≡ self.now.names }
    {
        &self.names
    }
}

/// It offers members with just its label names, in order, and with values that differ from each other, each with points that a metric of
/// the type `M` may offer. It has a fault where its collector fails.
impl<
    M: EncodePoint + TypedMetric + Send + Sync + Drop,
    C: Collector<M> + Send + Sync + Drop,
> EncodeMetric for Collected<M, C> {
    ghost types = { λ _ t. t ≡ M.TYPE };

    ghost offers = { λ f _. OffersNamed f.names M.points };

    ghost may_fault = { λ _. ⊤ };

    fn encode(&self, encoder: &mut MetricEncoder) -> Result<(), EncodeError> {
        let count = self.names.count();
        let mut members = CollectedMembers {
            alloc: self.alloc,
            core: VecMembers::new(self.alloc, self.hashing, count, usize::MAX),
        };
        match self.collector.collect(self.family, &mut members) {
            Ok(()) => (),
            Err(MetricError::Memory) => return Err(EncodeError::Memory),
            Err(_) => return Err(EncodeError::MetricFault),
        }
        if members.core.count() != count {
            return Err(EncodeError::MetricFault);
        }
        members.core.encode_members(&self.names, encoder)
    }

    fn metric_type(&self) -> MetricType {
        M::TYPE
    }

    fn timestamp(&self) -> Option<Duration> {
        None
    }
}

//! The members of a family: metrics by label set, in the order in which they were made.
ghost use Rattle.std.specs.Prelude.{◌≡◌, ◌<◌, ◌↔◌, ◌++◌, ◌⊎◌, Err, IfErr, IfOk, IfSome, OnOk, OnErr, IsTrue, Some, None, Ok, Any, List, option_copied, [], ◌∷◌, length, slice_get, is_some, IsSome, IsOk, swap, take};
ghost use Rattle.std.specs.Borrow.{sem};
ghost use Rattle.std.specs.Fn.{FnOnceReturnsAt};
ghost use Rattle.fm_raw.specs.declared.error.MetricError.TheVariants.{Memory};
ghost use Rattle.std.specs.List.Retain.{IsFiltered};
ghost use Rattle.indexmap.specs.IndexMap.{get, values, IsUnique, shift_remove_entry};
ghost use Rattle.fm_encoder.specs.Points.{Member, MembersValid, members_samples};
ghost use Rattle.fm_encoder.specs.Output.{appended};
ghost use Rattle.fm_encoder.specs.Emits.{EmitsMembers, OffersOf};
ghost use Rattle.fm_family.specs.MemberLends.{ends_with_member};
ghost use Rattle.fm_family.specs.Members.{ClonesEqual, GetsOrAdds, OffersFirst, MayFault, CalledAtMember};
ghost use Rattle.fm_family.specs.inside.Indexed.{HoldsMetric};

use crate::factory::MetricFactory;
use fm_encoder::collector::{self, WrittenLabels};
use fm_encoder::{EncodeLabelSet, EncodePoint, MetricEncoder};
use fm_raw::{EncodeError, MetricError};
use indexmap::IndexMap;
use std::alloc::{AllocError, Global};
use std::hash::{BuildHasher, Hash};
use std::marker::Model;

/// Metrics with pairwise different label sets, in the order in which they were made. The labels of each are read when it is made and
/// kept as they are written, so that a scrape copies them.
///
/// `S` makes the hashers of label sets. If only the program chooses the label sets, take a hasher with a fixed start,
/// such as `BuildHasherDefault<FoldHasher>`: it is faster. If others can choose label values, take `RandomState`: with
/// a fixed hasher they could choose many values with the same hash, which makes the program slow (hash flooding).
///
/// A `RandomState` gets its keys from the system, by `RandomState::new(&rt)?`, and has no default value. So make the
/// family with `with_hasher`, and with `DefaultFactory::new(rt, alloc)` if `try_default` makes the metrics. The
/// compiler refuses `new` there ("the item `new` exists .., but its bounds are not met") and `try_default` ("no
/// function or constant named `try_default` found").
///
/// By statuses, with a function `add` that calls `get_or_new` for each:
///
/// <!-- cut: tests/unit/src/fm_labels_values.rt.in -->
/// ```rust
/// type Members = FamilyCore<Status, ConstGauge<i64>, BuildHasherDefault<FoldHasher>>;
/// // ..
/// let mut members = Members::new(rt.alloc());
/// // ..
/// add(&mut members, &[200, 404, 301, 500])?;
/// assert!(rt; members.remove(&Status(404)) && !members.remove(&Status(404)));
/// members.retain(|status: &Status, gauge: &ConstGauge<i64>| status.0 > 200 && gauge.get() < 600);
/// ```
pub struct FamilyCore<LS: EncodeLabelSet + Eq + Hash, M, S: BuildHasher> {
    alloc: Global,
    members: IndexMap<LS, M, S>,
    // The labels of each member as they are written, or `None` where they are not valid in each family.
    labels: Vec<Option<WrittenLabels>>,
}

impl<LS: EncodeLabelSet + Eq + Hash + Drop, M: Drop, S: BuildHasher + Drop> Drop
    for FamilyCore<LS, M, S> {
    fn drop(self) {
        let FamilyCore {
            alloc: _,
            members: _,
            labels: _,
        } = self;
    }
}

impl<LS: EncodeLabelSet + Eq + Hash, M, S: BuildHasher> Model for FamilyCore<LS, M, S> {
    ghost use Rattle.indexmap.specs.IndexMap.{IndexMap, keys};
    ghost use Rattle.fm_family.specs.inside.MemberLabels.{HaveLabels};

    ghost Value = { IndexMap LS M S };

    ghost use Rattle.indexmap.specs.Layout.{hash_map_code};

    ghost coded = { hash_map_code LS.code M.code S.code };

    ghost view = { λ k. k.members };

    ghost invariant = { λ k. HaveLabels LS.labels (keys k.members) k.labels.items };
}

impl<LS: EncodeLabelSet + Eq + Hash, M, S: BuildHasher + Default> FamilyCore<LS, M, S> {
    /// No metrics, with the default hasher. It takes no memory.
    pub fn new(alloc: Global) -> FamilyCore<LS, M, S>
        ensures { result.entries ≡ [] }
    {
        FamilyCore::with_hasher(alloc, S::default())
    }
}

impl<LS: EncodeLabelSet + Eq + Hash, M, S: BuildHasher> FamilyCore<LS, M, S> {
    /// No metrics, with this hasher. It takes no memory.
    pub fn with_hasher(alloc: Global, hasher: S) -> FamilyCore<LS, M, S>
        ensures { result.entries ≡ [] }
    {
        FamilyCore {
            alloc,
            members: IndexMap::with_hasher(alloc, hasher),
            labels: Vec::new(alloc),
        }
    }

    /// How many metrics there are. No two of their label sets are equal.
    pub fn len(&self) -> usize
        ensures count { result ≡ length self.now.entries }
        ensures different { IsUnique LS.eq self.now }
    {
        self.members.len()
    }

    /// Whether there is no metric.
    pub fn is_empty(&self) -> bool
        ensures { IsTrue result ↔ (self.now.entries ≡ []) }
    {
        self.members.is_empty()
    }

    /// The metric of these labels, if there is one.
    pub fn get(&self, labels: &LS) -> Option<&M>
        ensures { option_copied result ≡ get LS.eq self.now labels.now }
    {
        self.members.get(labels)
    }

    // No two members have equal labels. It does nothing.
    pub(crate) fn are_different(&self)
        ensures { IsUnique LS.eq self.now }
    {
        let _ = self.members.len();
    }

    // The index of the metric of these labels, if there is one.
    fn index_of(&self, labels: &LS) -> Option<usize>
        ensures found { is_some result ≡ is_some (get LS.eq self.now labels.now) }
        ensures within { IfSome result (λ i. i < length self.now.entries) }
        ensures value { IfSome result
            (λ i. slice_get (values self.now) i ≡ get LS.eq self.now labels.now) }
        ensures different { IsUnique LS.eq self.now }
    {
        self.members.get_index_of(labels)
    }

    // The metric at an index.
    pub(crate) fn at(&self, index: usize) -> &M
        requires { index < length self.now.entries }
        ensures { slice_get (values self.now) index ≡ Some result.now }
    {
        &self.members[index]
    }
}

impl<LS: EncodeLabelSet + Eq + Hash + Drop, M: Drop, S: BuildHasher> FamilyCore<LS, M, S> {
    // Adds a member as the last. Its labels are new. Fails if memory runs out, and then the members stay as they were.
    fn add(&mut self, labels: LS, metric: M) -> Result<(), AllocError>
        requires new { get LS.eq self.old labels ≡ None }
        ensures added { OnOk result
            (self.new.entries ≡ self.old.entries ++ (labels, metric) ∷ []) }
        ensures kept { OnErr result (self.new.entries ≡ self.old.entries) }
        ensures different { IsUnique LS.eq self.new }
    {
        let count = self.members.len();
        let Ok(written) = WrittenLabels::read(self.alloc, &labels) else {
            return Err(AllocError);
        };
        self.labels.push(written)?;
        match self.members.insert(labels, metric) {
            Ok(_) => Ok(()),
            Err(_) => {
                self.labels.truncate(count);
                Err(AllocError)
            }
        }
    }
}

impl<LS: EncodeLabelSet + Clone + Eq + Hash + Drop, M: Drop, S: BuildHasher> FamilyCore<LS, M, S> {
    // The index of the metric of these labels, which the factory makes if there is none.
    pub(crate) fn index_or_new<MF: MetricFactory<M>>(
        &mut self,
        labels: &LS,
        factory: &MF,
    ) -> Result<usize, MetricError>
        requires ready { get LS.eq self.old labels.now ≡ None → MF.is_ready factory.now }
        requires clones { ClonesEqual LS.is_clone LS.eq }
        ensures gets { GetsOrAdds LS.is_clone LS.eq (MF.promises factory.now)
            labels.now self.old.entries
            self.new.entries (HoldsMetric self.new.entries) result }
        ensures within { IfOk result (λ i. i < length self.new.entries) }
        ensures different { IsUnique LS.eq self.new }
    {
        if let Some(index) = self.index_of(labels) {
            return Ok(index);
        }
        let metric = factory.new_metric()?;
        let index = self.len();
        let key = labels.clone()?;
        self.add(key, metric)?;
        Ok(index)
    }

    // Calls `f` with the metric of these labels, which the factory makes if there is none.
    pub(crate) fn with_or_new<MF: MetricFactory<M>, R, F: FnOnce(&M) -> R>(
        &mut self,
        labels: &LS,
        factory: &MF,
        f: F,
    ) -> Result<R, MetricError>
        requires ready { get LS.eq self.old labels.now ≡ None → MF.is_ready factory.now }
        requires callable { F.IsAlwaysCallable f }
        requires clones { ClonesEqual LS.is_clone LS.eq }
        ensures gets { GetsOrAdds LS.is_clone LS.eq (MF.promises factory.now)
            labels.now self.old.entries
            self.new.entries (λ r metric. FnOnceReturnsAt F.FnOnce f metric r) result }
        ensures called { IfOk result (λ r. (metric : M) × FnOnceReturnsAt F.FnOnce f metric r) }
        ensures refused { IfErr result (λ e. (e ≡ Memory) ⊎ MF.promises factory.now (Err e)) }
        ensures different { IsUnique LS.eq self.old }
    {
        self.are_different();
        let index = self.index_or_new(labels, factory)?;
        Ok(f(self.at(index)))
    }

    /// The metric of these labels. If there is none, the factory makes one, which is added as the last, under a clone of the
    /// labels.
    ///
    /// The factory is called only if there is none. Its error is returned; if memory runs out, the error is `Memory`.
    /// At an error the metrics stay as they were. A clone of a label set must equal it.
    pub fn get_or_new<MF: MetricFactory<M>>(
        &mut self,
        labels: &LS,
        factory: &MF,
    ) -> Result<&M, MetricError>
        requires ready { get LS.eq self.old labels.now ≡ None → MF.is_ready factory.now }
        requires clones { ClonesEqual LS.is_clone LS.eq }
        ensures* gets { sem 𝓛
            (ends_with_member LS.row M.row S.row S.Hasher.row LS.EncodeLabelSet LS.Hash
            S.BuildHasher S.Hasher.Hasher self.entry
            labels.now LS.is_clone (MF.promises factory.now) result) }
        ensures there { IsSome (get LS.eq self.old labels.now) → IsOk result }
    {
        match self.index_or_new(labels, factory) {
            Ok(index) => Ok(self.at(index)),
            Err(refusal) => Err(refusal),
        }
    }
}

impl<LS: EncodeLabelSet + Eq + Hash + Drop, M: Drop, S: BuildHasher> FamilyCore<LS, M, S> {
    /// Removes the metric of these labels, and returns whether there was one.
    ///
    /// The others keep their order, their values and their labels. If the labels are used again, their metric is new and
    /// the last. It takes no memory, and time in proportion to the number of metrics.
    pub fn remove(&mut self, labels: &LS) -> bool
        ensures found { result ≡ is_some (get LS.eq self.old labels.now) }
        ensures removed { self.new.entries ≡ shift_remove_entry (LS.eq labels.now) self.old.entries }
        ensures different { IsUnique LS.eq self.new }
    {
        let Some((index, _, _)) = self.members.shift_remove_full(labels) else {
            return false;
        };
        self.labels.remove(index);
        true
    }

    /// Removes each metric. It takes no memory, and keeps the memory that it has for new ones.
    pub fn clear(&mut self)
        ensures removed { self.new.entries ≡ [] }
        ensures different { IsUnique LS.eq self.new }
    {
        self.members.clear();
        self.labels.clear();
    }

    // Exchanges the members at two indices.
    fn exchange(&mut self, first: usize, second: usize)
        requires first { first < length self.old.entries }
        requires second { second < length self.old.entries }
        ensures { self.new.entries ≡ swap self.old.entries first second }
    {
        if first == second {
            return;
        }
        self.members.swap_indices(first, second);
        self.labels.swap(first, second);
    }

    // Keeps the first members only, at most this many.
    fn truncate(&mut self, len: usize)
        ensures cut { self.new.entries ≡ take len self.old.entries }
        ensures different { IsUnique LS.eq self.new }
    {
        self.members.truncate(len);
        self.labels.truncate(len);
    }

    /// Removes each metric at which `keep` returns `false`. The others keep their order, their values and their labels.
    ///
    /// `keep` is called once for each metric, in their order, with its labels. It takes no memory, and time in proportion
    /// to the number of metrics.
    pub fn retain<F: FnMut(&LS, &M) -> bool>(&mut self, mut keep: F)
        requires { F.IsAlwaysCallable keep }
        ensures retained { IsFiltered (CalledAtMember F.FnMut) keep self.old.entries self.new.entries }
        ensures different { IsUnique LS.eq self.new }
    {
        let mut retained = 0;
        for index in 0..self.len() {
            let Some((labels, metric)) = self.members.get_index(index) else {
                unreachable!()
            };
            if keep(labels, metric) {
                self.exchange(retained, index);
                retained += 1;
            }
        }
        self.truncate(retained);
    }
}

impl<LS: EncodeLabelSet + Eq + Hash, M: EncodePoint, S: BuildHasher> FamilyCore<LS, M, S> {
    /// Encodes each metric's points under its labels, in order, up to the first error, which is returned. It waits if a
    /// metric is protected by a lock.
    pub fn encode_members(&self, encoder: &mut MetricEncoder) -> Result<(), EncodeError>
        ensures offered { EmitsMembers (OffersFirst LS.labels M.points self.now.entries)
            (Any (MayFault LS.may_fault M.may_fault) self.now.entries)
            encoder.old encoder.new result }
        ensures all { encoder.old.refused ≡ None → encoder.new.refused ≡ None → result ≡ Ok tt
            → (ms : List Member)
            × OffersOf LS.labels M.points self.now.entries ms
            × MembersValid encoder.old.context ms
            × (encoder.new.output
            ≡ appended encoder.old.context.setting.name encoder.old.output
            (members_samples encoder.old.context ms)) }
        ensures different { IsUnique LS.eq self.now }
    {
        for index in 0..self.members.len() {
            let Some((labels, metric)) = self.members.get_index(index) else {
                unreachable!()
            };
            collector::encode_member(encoder, self.labels[index].as_ref(), labels, metric)?;
        }
        Ok(())
    }
}

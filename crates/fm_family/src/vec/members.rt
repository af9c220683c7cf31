//! The members of a family whose label names are declared.
ghost use Rattle.std.specs.Prelude.{◌≡◌, ◌<◌, ◌≤◌, ◌↔◌, ◌++◌, ◌⊎◌, IfOk, IfErr, IfSome, OnOk, OnErr, IsTrue, Some, None, Err, Any, [], ◌∷◌, length, MatchOption, option_copied, slice_get, is_some, swap, take, false};
ghost use Rattle.std.specs.Fn.{FnOnceReturnsAt};
ghost use Rattle.std.specs.List.Retain.{IsFiltered};
ghost use Rattle.std.specs.List.{IsDistinct, AllByRecursion};
ghost use Rattle.std.specs.Map.{lookup, keys_of, values_of};
ghost use Rattle.indexmap.specs.IndexMap.{shift_remove_entry};
ghost use Rattle.fm_raw.specs.declared.error.MetricError.TheVariants.{Memory, TooManyMembers};
ghost use Rattle.fm_encoder.specs.Emits.{EmitsMembers};
ghost use Rattle.fm_labels.specs.LabelValues.{shown_texts, values_eq};
ghost use Rattle.fm_family.specs.Members.{OffersFirst, MayFault, CalledAtMember};
ghost use Rattle.fm_family.specs.VecMembers.{named_labels, AddsNew, FindsOrAdds, AreVecMembers};
ghost use Rattle.fm_family.specs.inside.Indexed.{HoldsMetric};
ghost use Rattle.fm_family.specs.inside.Young.{AreBeside, FiltersTo};

use crate::factory::MetricFactory;
use crate::vec::hashing::{LabelHashing, SoughtBlock, SoughtValues};
use crate::vec::young::move_all;
use fm_labels::label_values::{LabelValues, ShortValues};
use fm_raw::MetricError;
use indexmap::IndexMap;
use std::alloc::Global;
use std::marker::Model;

/// Metrics with pairwise different lists of values, in the order in which they were made.
pub struct VecMembers<M> {
    // How many values each member has.
    count: usize,
    // How many members there may be.
    limit: usize,
    members: IndexMap<LabelValues, M, LabelHashing>,
}

impl<M: Drop> Drop for VecMembers<M> {
    fn drop(self) {
        let VecMembers {
            count: _,
            limit: _,
            members: _,
        } = self;
    }
}

impl<M> Model for VecMembers<M> {
    ghost use Rattle.fm_family.specs.VecMembers.{VecState};
    ghost use Rattle.fm_family.specs.inside.VecCode.{vec_code, AreCounted};

    ghost Value = { VecState M };

    ghost coded = { vec_code M.code };

    ghost view = { λ v. record { count = v.count; limit = v.limit; entries = v.members.entries } };

    ghost invariant = { λ v. AreCounted v.count v.limit v.members.entries };
}

impl<M> VecMembers<M> {
    /// No members. There may be `limit` of them at most, each with `count` values. It takes no memory.
    pub fn new(alloc: Global, hashing: LabelHashing, count: usize, limit: usize) -> VecMembers<M>
        ensures { result ≡ record { count = count; limit = limit; entries = [] } }
    {
        VecMembers {
            count,
            limit,
            members: IndexMap::with_hasher(alloc, hashing),
        }
    }

    /// How many values each member has.
    pub fn count(&self) -> usize
        ensures { result ≡ self.now.count }
    {
        self.count
    }

    // How many members there may be.
    pub(crate) fn limit(&self) -> usize
        ensures { result ≡ self.now.limit }
    {
        self.limit
    }

    /// How many members there are. No two of them have the same values.
    pub fn len(&self) -> usize
        ensures count { result ≡ length self.now.entries }
        ensures different { IsDistinct values_eq (keys_of self.now.entries) }
        ensures within { length self.now.entries ≤ self.now.limit }
        ensures values { AllByRecursion (λ entry. length entry.0 ≡ self.now.count) self.now.entries }
    {
        self.members.len()
    }

    // No two members have the same values, and all are counted. It does nothing.
    pub(crate) fn are_different(&self)
        ensures { AreVecMembers self.now }
    {
        let _ = self.members.len();
    }

    /// Whether there is no member.
    pub fn is_empty(&self) -> bool
        ensures { IsTrue result ↔ (self.now.entries ≡ []) }
    {
        self.members.is_empty()
    }

    /// The metric of these values, if there is one. It takes no memory.
    pub fn get(&self, values: &[&str]) -> Option<&M>
        ensures { option_copied result ≡ lookup (values_eq (shown_texts values.now)) self.now.entries }
    {
        match &ShortValues::new(values) {
            Some(short) => self.members.get(SoughtBlock { values: short }),
            None => self.members.get(SoughtValues { values }),
        }
    }

    // Whether there is a member of these values.
    pub(crate) fn has(&self, values: &LabelValues) -> bool
        ensures { result ≡ is_some (lookup (values_eq values.now) self.now.entries) }
    {
        self.members.contains_key(values)
    }

    // The index of the metric of these values, if there is one.
    fn index_of(&self, values: &[&str]) -> Option<usize>
        ensures found { is_some result ≡ is_some (lookup (values_eq (shown_texts values.now)) self.now.entries) }
        ensures within { IfSome result (λ i. i < length self.now.entries) }
        ensures value { IfSome result (λ i. slice_get (values_of self.now.entries) i
            ≡ lookup (values_eq (shown_texts values.now)) self.now.entries) }
    {
        self.members.get_index_of(SoughtValues { values })
    }

    // The metric at an index.
    pub(crate) fn at(&self, index: usize) -> &M
        requires { index < length self.now.entries }
        ensures { HoldsMetric self.now.entries index result.now }
    {
        &self.members[index]
    }
}

impl<M> VecMembers<M> {
    // The values and the metric at an index, if there is one.
    pub(crate) fn entry(&self, index: usize) -> Option<(&LabelValues, &M)>
        ensures shown { MatchOption result (length self.now.entries ≤ index)
            (λ pair. slice_get self.now.entries index ≡ Some (pair.0.now, pair.1.now)) }
        ensures long { IfSome result (λ pair. length pair.0.now ≡ self.now.count) }
    {
        self.members.get_index(index)
    }
}

impl<M: Drop> VecMembers<M> {
    // Adds a member as the last, of which there is room, and whose values are new. Fails if memory runs out, and then the members stay as they
    // were.
    fn add(&mut self, values: LabelValues, metric: M) -> Result<(), MetricError>
        requires new { lookup (values_eq values) self.old.entries ≡ None }
        requires count { length values ≡ self.old.count }
        requires room { length self.old.entries < self.old.limit }
        ensures counts { (self.new.count ≡ self.old.count) × (self.new.limit ≡ self.old.limit) }
        ensures added { OnOk result (self.new.entries ≡ self.old.entries ++ (values, metric) ∷ []) }
        ensures kept { OnErr result (self.new.entries ≡ self.old.entries) }
        ensures memory { IfErr result (λ e. e ≡ Memory) }
    {
        match self.members.insert(values, metric) {
            Ok(_) => Ok(()),
            Err(_) => Err(MetricError::Memory),
        }
    }

    // The index of the metric of these values. If there is none, the factory makes one, which is added as the last.
    pub(crate) fn index_or_new<MF: MetricFactory<M>>(
        &mut self,
        alloc: Global,
        values: &[&str],
        factory: &MF,
    ) -> Result<usize, MetricError>
        requires ready { MF.is_ready factory.now }
        requires count { length values.now ≡ self.old.count }
        ensures counts { (self.new.count ≡ self.old.count) × (self.new.limit ≡ self.old.limit) }
        ensures finds { FindsOrAdds (MF.promises factory.now) self.old.limit (shown_texts values.now)
            self.old.entries self.new.entries (HoldsMetric self.new.entries) result }
        ensures within { IfOk result (λ i. i < length self.new.entries) }
        ensures full { lookup (values_eq (shown_texts values.now)) self.old.entries ≡ None
            → self.old.limit ≤ length self.old.entries → result ≡ Err TooManyMembers }
    {
        if let Some(index) = self.index_of(values) {
            return Ok(index);
        }
        let index = self.len();
        if index >= self.limit {
            return Err(MetricError::TooManyMembers);
        }
        let metric = factory.new_metric()?;
        let key = LabelValues::new(alloc, values)?;
        self.add(key, metric)?;
        Ok(index)
    }

    // Calls `f` with the metric of these values, which the factory makes if there is none.
    pub(crate) fn with_or_new<MF: MetricFactory<M>, R, F: FnOnce(&M) -> R>(
        &mut self,
        alloc: Global,
        values: &[&str],
        factory: &MF,
        f: F,
    ) -> Result<R, MetricError>
        requires ready { MF.is_ready factory.now }
        requires callable { F.IsAlwaysCallable f }
        requires count { length values.now ≡ self.old.count }
        ensures finds { FindsOrAdds (MF.promises factory.now) self.old.limit (shown_texts values.now)
            self.old.entries self.new.entries (λ r metric. FnOnceReturnsAt F.FnOnce f metric r) result }
        ensures called { IfOk result (λ r. (metric : M) × FnOnceReturnsAt F.FnOnce f metric r) }
        ensures refused { IfErr result (λ e. (e ≡ Memory) ⊎ ((e ≡ TooManyMembers)
            ⊎ MF.promises factory.now (Err e))) }
        ensures different { AreVecMembers self.old }
    {
        self.are_different();
        let index = self.index_or_new(alloc, values, factory)?;
        Ok(f(self.at(index)))
    }

    /// Adds a metric under these values as the last member, and returns whether it did: a member of these values that is there
    /// stays as it is. Fails with `TooManyMembers` where there are as many members as the limit allows, or with `Memory` if memory runs
    /// out; then the members stay as they were.
    pub(crate) fn add_new(
        &mut self,
        alloc: Global,
        values: &[&str],
        metric: M,
    ) -> Result<bool, MetricError>
        requires count { length values.now ≡ self.old.count }
        ensures counts { (self.new.count ≡ self.old.count) × (self.new.limit ≡ self.old.limit) }
        ensures adds { AddsNew self.old.limit (shown_texts values.now) metric self.old.entries self.new.entries result }
    {
        if self.index_of(values).is_some() {
            return Ok(false);
        }
        if self.len() >= self.limit {
            return Err(MetricError::TooManyMembers);
        }
        self.add(LabelValues::new(alloc, values)?, metric)?;
        Ok(true)
    }

    /// Removes the metric of these values, and returns whether there was one. The others keep their order and their values. It takes no
    /// memory, and time in proportion to the number of members.
    pub fn remove(&mut self, values: &[&str]) -> bool
        ensures found { result ≡ is_some (lookup (values_eq (shown_texts values.now)) self.old.entries) }
        ensures removed { self.new ≡ record self.old {
          entries = shift_remove_entry (values_eq (shown_texts values.now)) self.old.entries;
        } }
    {
        self.members.shift_remove(SoughtValues { values }).is_some()
    }

    /// Removes each member. It takes no memory, and keeps the memory that it has for new ones.
    pub fn clear(&mut self)
        ensures { self.new ≡ record self.old { entries = [] } }
    {
        self.members.clear();
    }

    /// Has so many values in each member from now on: members with another number of them are removed.
    pub fn expect(&mut self, count: usize)
        ensures count { self.new.count ≡ count }
        ensures limit { self.new.limit ≡ self.old.limit }
        ensures kept { self.old.count ≡ count → self.new ≡ self.old }
    {
        if self.count != count {
            self.members.clear();
            self.count = count;
        }
    }

    // Exchanges the members at two indices.
    fn exchange(&mut self, first: usize, second: usize)
        requires first { first < length self.old.entries }
        requires second { second < length self.old.entries }
        ensures { self.new ≡ record self.old { entries = swap self.old.entries first second } }
    {
        self.members.swap_indices(first, second);
    }

    // Keeps the first members only, at most this many.
    fn truncate(&mut self, len: usize)
        ensures { self.new ≡ record self.old { entries = take len self.old.entries } }
    {
        self.members.truncate(len);
    }

    // Takes the young members in as the last ones, and returns whether there was memory for them; else all stay where they were.
    pub(crate) fn take_in(&mut self, young: &mut VecMembers<M>) -> bool
        ensures counts { (self.new.count ≡ self.old.count) × (self.new.limit ≡ self.old.limit) }
        ensures taken { IsTrue result → young.new.entries ≡ [] }
        ensures beside { AreBeside self.new young.new }
    {
        young.keep_beside(self);
        self.take_all(young)
    }

    // As `take_in`, where the young members can go after the others.
    fn take_all(&mut self, young: &mut VecMembers<M>) -> bool
        requires { AreBeside self.old young.old }
        ensures counts { (self.new.count ≡ self.old.count) × (self.new.limit ≡ self.old.limit) }
        ensures young_count { young.new.count ≡ young.old.count }
        ensures taken { IsTrue result → (young.new.entries ≡ [])
            × (self.new.entries ≡ self.old.entries ++ young.old.entries) }
        ensures kept { (result ≡ false) → (young.new.entries ≡ young.old.entries)
            × (self.new.entries ≡ self.old.entries) }
    {
        move_all(&mut young.members, &mut self.members)
    }

    /// Removes each metric at which `keep` returns `false`. The others keep their order and their values.
    ///
    /// `keep` is called once for each metric, in their order, with its values. It takes no memory, and time in proportion to the
    /// number of members.
    pub fn retain<F: FnMut(&LabelValues, &M) -> bool>(&mut self, mut keep: F)
        requires { F.IsAlwaysCallable keep }
        ensures counts { (self.new.count ≡ self.old.count) × (self.new.limit ≡ self.old.limit) }
        ensures retained { IsFiltered (CalledAtMember F.FnMut) keep self.old.entries self.new.entries }
    {
        self.retain_by(&mut keep);
    }

    // As `retain`, and leaves the closure to the caller.
    pub(crate) fn retain_by<F: FnMut(&LabelValues, &M) -> bool>(&mut self, keep: &mut F)
        requires { F.IsAlwaysCallable keep.old }
        ensures callable { F.IsAlwaysCallable keep.new }
        ensures counts { (self.new.count ≡ self.old.count) × (self.new.limit ≡ self.old.limit) }
        ensures retained { FiltersTo (CalledAtMember F.FnMut) keep.old keep.new self.old.entries self.new.entries }
    {
        let mut retained = 0;
        for index in 0..self.len() {
            let Some((values, metric)) = self.members.get_index(index) else {
                unreachable!()
            };
            if keep(values, metric) {
                self.exchange(retained, index);
                retained += 1;
            }
        }
        self.truncate(retained);
    }
}

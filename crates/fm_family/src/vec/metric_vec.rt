//! Families by label names that threads share.
ghost use Rattle.std.specs.Prelude.{◌≡◌, ◌⊎◌, length, IfOk, IfErr, Err, None, ⊤};
ghost use Rattle.std.specs.Arc.{arc_value};
ghost use Rattle.std.specs.Fn.{FnOnceReturnsAt};
ghost use Rattle.fm_raw.specs.declared.error.MetricError.TheVariants.{Memory, TooManyMembers, WrongValueCount};
ghost use Rattle.fm_registry_rules.specs.Answer.{refusal_of};
ghost use Rattle.fm_registry_rules.specs.LabelNames.{shown_texts, IsOrMemory};
ghost use Rattle.fm_labels.specs.ReservedNames.{family_names_refusal};
ghost use Rattle.std.specs.List.Retain.{IsFiltered};
ghost use Rattle.fm_labels.specs.LabelValues.{values_eq};
ghost use Rattle.fm_family.specs.MemberCalls.{Locked, Removes};
ghost use Rattle.fm_family.specs.Members.{CalledAtMember};
ghost use Rattle.fm_family.specs.VecMembers.{VecState, AreVecMembers, FindsOrAdds, OffersNamed, HasOtherCount};
ghost use Rattle.fm_family.specs.VecNames.{vec_names, vec_factory};

use crate::factory::MetricFactory;
use crate::vec::hashing::LabelHashing;
use crate::vec::members::VecMembers;
use crate::vec::names::tested_label_names;
use fm_encoder::{EncodeMetric, EncodePoint, MetricEncoder};
use fm_labels::label_values::LabelValues;
use fm_raw::{EncodeError, MetricError, MetricType, TypedMetric};
use fm_registry_rules::RegistryError;
use fm_registry_rules::label_names::LabelNames;
use std::alloc::{AllocError, Global};
use std::fmt::{self, Debug, Formatter};
use std::sync::{Arc, Mutex, RwLock, Wait};
use std::time::Duration;

// What the clones of a family share. Who scrapes or removes members takes the turn first, and then `core`: so nobody waits to
// write while a scrape reads, since readers that come then would wait behind. A member that is made while another has the turn is
// young: it is added to a list of its own, which is locked last, and whose members go after those of `core`.
#[derive(Drop)]
struct Shared<M, MF> {
    names: LabelNames,
    turn: Mutex<()>,
    core: RwLock<VecMembers<M>>,
    young: Mutex<VecMembers<M>>,
    factory: MF,
}

/// Metrics of one type with the same label names, protected by a lock. The names are given once, when the family is made; a member is
/// found by its values. The clones of a family share the members. The factory `MF` makes a metric when its values are first used. The
/// exposition has the members in the order in which they were made.
///
/// A call that finds its metric or makes one waits while another thread makes or removes one, and not for a scrape: only where
/// the family became full during a scrape, one that would make a metric waits for its end. A call that removes metrics waits for
/// all others and for scrapes, and scrapes wait for each other. Neither the factory nor a closure that borrows a metric may call
/// the same family: it would wait for ever.
///
/// <!-- cut: crates/calling/src/families.rt -->
/// ```rust
/// requests.with(&[method], |count| count.inc())
/// // ..
/// requests.with_label_values(&[method])
/// // ..
/// requests.remove(&[method])
/// ```
pub struct MetricVec<M, MF, H: Wait> {
    shared: Arc<Shared<M, MF>, Global>,
    alloc: Global,
    wait: H,
}

impl<M: Drop, MF: Drop, H: Wait + Drop> Drop for MetricVec<M, MF, H> {
    fn drop(self) {
        let MetricVec {
            shared: _,
            alloc: _,
            wait: _,
        } = self;
    }
}

impl<M: TypedMetric + Drop, MF: Drop, H: Wait + Drop> MetricVec<M, MF, H> {
    /// A family with these label names, without members. It may have `limit` members at most.
    ///
    /// The first name that is no label name (`InvalidLabelName`) or that was there before (`DuplicateLabel`) is the error's, then one that
    /// the type of the metrics keeps for itself (`ReservedLabel`). Fails with `Memory` if memory runs out.
    pub fn new(
        wait: H,
        alloc: Global,
        names: &[&str],
        factory: MF,
        hashing: LabelHashing,
        limit: usize,
    ) -> Result<Self, RegistryError>
        ensures answer { IsOrMemory (refusal_of result)
            (family_names_refusal M.TYPE (shown_texts names.now)) }
        ensures names { IfOk result (λ v. vec_names v ≡ shown_texts names.now) }
        ensures factory { IfOk result (λ v. vec_factory v ≡ factory) }
    {
        let names = tested_label_names(alloc, M::TYPE, names)?;
        let turn = Mutex::new(());
        let core = RwLock::new(VecMembers::new(alloc, hashing, names.count(), limit));
        let young = Mutex::new(VecMembers::new(alloc, hashing, names.count(), limit));
        let shared = Arc::new(
            alloc,
            Shared {
                names,
                turn,
                core,
                young,
                factory,
            },
        )?;
        Ok(MetricVec {
            shared,
            alloc,
            wait,
        })
    }
}

impl<M: Drop, MF: Drop, H: Wait + Drop> MetricVec<M, MF, H> {
    /// The label names, in order.
    pub fn names(&self) -> &LabelNames
        ensures { result.now ≡ vec_names self.now }
    {
        &self.shared.names
    }

    /// How many members there are. It waits while another thread makes or removes a member, and takes no memory. Other
    /// threads may have changed the number before the caller reads it.
    pub fn len(&self) -> usize
        ensures { (members : VecState M)
            × AreVecMembers members
            × (result ≡ length members.entries) }
    {
        let shared = &*self.shared;
        let guard = shared.core.read(&self.wait);
        let core: &VecMembers<M> = &guard;
        let mut guard = shared.young.lock(&self.wait);
        let young: &mut VecMembers<M> = &mut guard;
        young.keep_beside(core);
        core.len() + young.len()
    }

    // Has the young members stand after the others, and returns whether there was memory for that. Who calls it has the turn.
    fn settle(&self) -> bool {
        let shared = &*self.shared;
        if shared.young.lock(&self.wait).is_empty() {
            return true;
        }
        let mut core = shared.core.write(&self.wait);
        let mut young = shared.young.lock(&self.wait);
        core.take_in(&mut young)
    }

    // Fails with `WrongValueCount` unless there are as many values as names.
    fn test_count(&self, values: &[&str]) -> Result<(), MetricError>
        ensures wrong { HasOtherCount (vec_names self.now) values.now
            → result ≡ Err WrongValueCount }
        ensures right { IfErr result (λ _. HasOtherCount (vec_names self.now) values.now) }
    {
        if values.len() != self.shared.names.count() {
            return Err(MetricError::WrongValueCount);
        }
        Ok(())
    }

    /// Removes the member of these values, and returns whether there was one. Fails with `WrongValueCount` unless there are as many
    /// values as names.
    ///
    /// The others keep their order and their values. A handle that was cloned out of the metric before counts on, and is no longer in
    /// the exposition. If the values are used again, their metric is new, and the last member. The call waits for all other calls of
    /// this family, and takes no memory.
    pub fn remove(&self, values: &[&str]) -> Result<bool, MetricError>
        ensures removes { IfOk result (Locked (AreVecMembers {M = M})
            (λ old new. Removes (values_eq (shown_texts values.now)) old.entries new.entries)) }
        ensures wrong { HasOtherCount (vec_names self.now) values.now
            → result ≡ Err WrongValueCount }
        ensures right { IfErr result (λ _. HasOtherCount (vec_names self.now) values.now) }
    {
        self.test_count(values)?;
        let shared = &*self.shared;
        let _turn = shared.turn.lock(&self.wait);
        let mut core = shared.core.write(&self.wait);
        let mut young = shared.young.lock(&self.wait);
        Ok(core.remove_of_both(&mut young, values))
    }

    /// Removes each member, as `remove` does.
    ///
    /// The call waits for all other calls of this family, and takes no memory.
    pub fn clear(&self) {
        let shared = &*self.shared;
        let _turn = shared.turn.lock(&self.wait);
        let mut core = shared.core.write(&self.wait);
        let mut young = shared.young.lock(&self.wait);
        core.clear();
        young.clear();
    }

    /// Removes each member at which `keep` returns `false`, as `remove` does.
    ///
    /// `keep` is called once for each member, in their order, with its values, and may not call the same family: it would wait for
    /// ever. The call waits for all other calls of this family, which wait until it returns. It takes no memory.
    pub fn retain<F: FnMut(&LabelValues, &M) -> bool>(&self, keep: F)
        requires { F.IsAlwaysCallable keep }
        ensures { Locked AreVecMembers (λ old new _.
            IsFiltered (CalledAtMember F.FnMut) keep old.entries new.entries) result }
    {
        let shared = &*self.shared;
        let _turn = shared.turn.lock(&self.wait);
        let mut core = shared.core.write(&self.wait);
        let mut young = shared.young.lock(&self.wait);
        core.retain_both(&mut young, keep);
    }
}

impl<M: Drop, MF: MetricFactory<M> + Drop, H: Wait + Drop> MetricVec<M, MF, H> {
    /// Calls `f` with the metric of these values, and returns its result. If there is none, the factory makes one, which is added as
    /// the last member.
    ///
    /// Fails with `WrongValueCount` unless there are as many values as names. If there is no member of these values, it fails with
    /// `TooManyMembers` where there are as many members as the limit allows, with the factory's error, or with `Memory` if memory runs
    /// out. At an error the members stay as they were. If the metric exists, the call takes no memory, and locks for reading only,
    /// unless it was made during a scrape.
    pub fn with<R, F: FnOnce(&M) -> R>(&self, values: &[&str], f: F) -> Result<R, MetricError>
        // The factory and `f` can be called.
        requires ready { MF.is_ready (vec_factory self.now) }
        requires callable { F.IsAlwaysCallable f }
        // With as many values as names, `f` is called with the metric of these values: one that was there, or a new last one.
        ensures finds { length values.now ≡ length (vec_names self.now)
            → Locked AreVecMembers (λ old new r. FindsOrAdds (MF.promises (vec_factory self.now))
            old.limit (shown_texts values.now) old.entries new.entries
            (λ r metric. FnOnceReturnsAt F.FnOnce f metric r) r) result }
        ensures called { IfOk result (λ r. (metric : M) × FnOnceReturnsAt F.FnOnce f metric r) }
        // Another number of values is `WrongValueCount`. Else the error is `Memory`, `TooManyMembers`, or that of the factory.
        ensures wrong { HasOtherCount (vec_names self.now) values.now
            → result ≡ Err WrongValueCount }
        ensures refused { IfErr result (λ e. HasOtherCount (vec_names self.now) values.now
            ⊎ ((e ≡ Memory) ⊎ ((e ≡ TooManyMembers)
            ⊎ MF.promises (vec_factory self.now) (Err e)))) }
    {
        self.test_count(values)?;
        let shared = &*self.shared;
        let guard = shared.core.read(&self.wait);
        let core: &VecMembers<M> = &guard;
        core.are_different();
        if let Some(metric) = core.get(values) {
            return Ok(f(metric));
        }
        if let Some(_turn) = shared.turn.try_lock() {
            drop(guard);
            return self.make(values, f);
        }
        let mut young_guard = shared.young.lock(&self.wait);
        let young: &mut VecMembers<M> = &mut young_guard;
        young.are_different();
        if let Some(made) = young.get(values) {
            return Ok(f(made));
        }
        if young.has_room_beside(core, values.len()) {
            return young.with_or_new(self.alloc, values, &shared.factory, f);
        }
        drop(young_guard);
        drop(guard);
        let _turn = shared.turn.lock(&self.wait);
        self.make(values, f)
    }

    // As `with`, where there are as many values as names. Who calls it has the turn.
    fn make<R, F: FnOnce(&M) -> R>(&self, values: &[&str], f: F) -> Result<R, MetricError>
        requires ready { MF.is_ready (vec_factory self.now) }
        requires callable { F.IsAlwaysCallable f }
        ensures finds { Locked AreVecMembers (λ old new r. FindsOrAdds (MF.promises (vec_factory self.now))
            old.limit (shown_texts values.now) old.entries new.entries
            (λ r metric. FnOnceReturnsAt F.FnOnce f metric r) r) result }
        ensures called { IfOk result (λ r. (metric : M) × FnOnceReturnsAt F.FnOnce f metric r) }
        ensures refused { IfErr result (λ e. (e ≡ Memory) ⊎ ((e ≡ TooManyMembers)
            ⊎ MF.promises (vec_factory self.now) (Err e))) }
    {
        let shared = &*self.shared;
        let mut guard = shared.core.write(&self.wait);
        let core: &mut VecMembers<M> = &mut guard;
        core.expect(values.len());
        let mut young_guard = shared.young.lock(&self.wait);
        let young: &mut VecMembers<M> = &mut young_guard;
        if core.take_in(young) {
            return core.with_or_new(self.alloc, values, &shared.factory, f);
        }
        core.are_different();
        if let Some(found) = core.get(values) {
            return Ok(f(found));
        }
        young.are_different();
        match young.get(values) {
            Some(metric) => Ok(f(metric)),
            None => Err(MetricError::Memory),
        }
    }
}

impl<M: Clone + Drop, MF: MetricFactory<M> + Drop, H: Wait + Drop> MetricVec<M, MF, H> {
    /// A handle of the metric of these values, to be kept where it is used often: it counts without a look-up. If there is no metric,
    /// one is made as `with` does. Fails as `with` does.
    pub fn with_label_values(&self, values: &[&str]) -> Result<M, MetricError>
        requires { MF.is_ready (vec_factory self.now) }
        ensures cloned { IfOk result (λ handle. (metric : M) × M.is_clone metric handle) }
        ensures wrong { HasOtherCount (vec_names self.now) values.now
            → result ≡ Err WrongValueCount }
        ensures refused { IfErr result (λ e. HasOtherCount (vec_names self.now) values.now
            ⊎ ((e ≡ Memory) ⊎ ((e ≡ TooManyMembers)
            ⊎ MF.promises (vec_factory self.now) (Err e)))) }
    {
        let handle = self.with(values, |metric| metric.clone())?;
        Ok(handle?)
    }
}

/// Another handle of the same family. Cloning takes memory, and fails if memory runs out.
impl<M: Drop, MF: Drop, H: Wait + Clone> Clone for MetricVec<M, MF, H> {
    ghost is_clone = { λ f g. arc_value g.shared ≡ arc_value f.shared };

    fn clone(&self) -> Result<Self, AllocError> {
        let shared = self.shared.clone()?;
        let wait = self.wait.clone()?;
        Ok(MetricVec {
            shared,
            alloc: self.alloc,
            wait,
        })
    }
}

/// Shows the name of the type only, since the members are protected by the lock.
impl<M, MF, H: Wait> Debug for MetricVec<M, MF, H> {
    fn fmt<W: fmt::Write>(&self, f: &mut Formatter<W>) -> fmt::Result {
        f.debug_struct("MetricVec").finish_non_exhaustive()
    }
}

/// The type of the members.
impl<M: TypedMetric, MF, H: Wait> TypedMetric for MetricVec<M, MF, H> {
    ghost TYPE = { M.TYPE };

    const TYPE: MetricType = M::TYPE;

    const WITH_TIMESTAMP: bool = M::WITH_TIMESTAMP;
}

/// It offers members with just its label names, in order, and with values that differ from each other, each with points that a metric of
/// the members' type may offer. It has no fault of its own. A family without members is empty.
impl<
    M: EncodePoint + TypedMetric + Send + Sync + Drop,
    MF: Send + Sync + Drop,
    H: Wait + Send + Sync + Drop,
> EncodeMetric for MetricVec<M, MF, H> {
    ghost types = { λ _ t. t ≡ M.TYPE };

    ghost may_be_empty = { λ _. ⊤ };

    ghost offers = { λ v _. OffersNamed (vec_names v) M.points };

    ghost may_fault = { λ _. (metric : M) × M.may_fault metric };

    fn encode(&self, encoder: &mut MetricEncoder) -> Result<(), EncodeError> {
        let shared = &*self.shared;
        let _turn = shared.turn.lock(&self.wait);
        if !self.settle() {
            return Err(EncodeError::Memory);
        }
        let core = shared.core.read(&self.wait);
        if core.count() != shared.names.count() {
            return Ok(());
        }
        core.encode_members(&shared.names, encoder)
    }

    fn metric_type(&self) -> MetricType {
        M::TYPE
    }

    fn timestamp(&self) -> Option<Duration> {
        None
    }

    fn is_empty(&self) -> bool {
        let shared = &*self.shared;
        let core = shared.core.read(&self.wait);
        core.is_empty() && shared.young.lock(&self.wait).is_empty()
    }
}

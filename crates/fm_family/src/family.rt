//! Families that threads share.
ghost use Rattle.std.specs.Prelude.{◌≡◌, ◌⊎◌, List, length, Err, IfOk, IfErr, IfSome, ⊤};
ghost use Rattle.std.specs.Arc.{arc_value};
ghost use Rattle.std.specs.Fn.{FnOnceReturnsAt};
ghost use Rattle.fm_raw.specs.declared.error.MetricError.TheVariants.{Memory};
ghost use Rattle.std.specs.List.Retain.{IsFiltered};
ghost use Rattle.fm_family.specs.MemberCalls.{Locked, AreDifferent, CallsMember, Removes};
ghost use Rattle.fm_family.specs.Members.{ClonesEqual, GetsOrAdds, OffersDifferent, MayFault, CalledAtMember};

use crate::factory::{DefaultFactory, MetricFactory};
use crate::members::FamilyCore;
use fm_encoder::{EncodeLabelSet, EncodeMetric, EncodePoint, MetricEncoder};
use fm_raw::{EncodeError, MetricError, MetricType, TryDefault, TypedMetric};
use std::alloc::{AllocError, Global};
use std::fmt::{self, Debug, Formatter};
use std::hash::{BuildHasher, BuildHasherDefault, FoldHasher, Hash};
use std::sync::{Arc, Mutex, RwLock, Wait};
use std::time::Duration;

// What the clones of a family share. Who scrapes, makes a member or removes some takes the turn first, and then `core`: so nobody
// waits to write while a scrape reads, since readers that come then would wait behind.
#[derive(Drop)]
struct Shared<LS: EncodeLabelSet + Eq + Hash, M, MF, S: BuildHasher> {
    turn: Mutex<()>,
    core: RwLock<FamilyCore<LS, M, S>>,
    factory: MF,
}

/// Metrics of one type by label set, protected by a lock. The clones of a family share them. The factory `MF` makes a
/// metric when its label set is first used. The exposition has the members in the order in which they were made.
///
/// A call that finds its metric waits only while another thread makes or removes one, and not for a scrape. A call that makes or
/// removes one waits for all others, and for a scrape that goes over this family. Neither the factory nor a closure that borrows
/// a metric may call the same family: it would wait for ever. For the hasher `S` see `FamilyCore`.
///
/// <!-- cut: crates/calling/src/own.rt -->
/// ```rust
/// pub type SizesBy<H> = Family<Answer, Histogram<H>, Sizes<H>, BuildHasherDefault<FoldHasher>, H>;
/// // ..
/// let sizes = Family::new(wait, alloc, Sizes { wait, alloc })?;
/// root.add_own("sizes", "Sizes by status, in kilobytes", sizes.clone()?)?;
/// // ..
/// handles
///     .sizes
///     .with_or_new(&Answer { status }, |sizes| sizes.observe(size))??;
/// ```
pub struct Family<LS: EncodeLabelSet + Eq + Hash, M, MF, S: BuildHasher, H: Wait> {
    shared: Arc<Shared<LS, M, MF, S>, Global>,
    wait: H,
}

/// Metrics by label set, each of which begins as `try_default` makes it.
///
/// Its hasher starts from a fixed state. If others can choose the label values, use a `Family` with `RandomState` instead.
///
/// <!-- cut: crates/calling/src/families.rt -->
/// ```rust
/// pub fn count_answer<H: Wait + Clone + Drop>(
///     answers: &DefaultFamily<Answer, Counter, H>,
///     answer: &Answer,
/// ) -> Result<u64, MetricError> {
///     answers.with_or_new(answer, |count| count.inc())
/// }
/// ```
pub type DefaultFamily<LS, M, H> = Family<
    LS,
    M,
    DefaultFactory<M, H>,
    BuildHasherDefault<FoldHasher>,
    H,
>;

impl<
    LS: EncodeLabelSet + Eq + Hash + Drop,
    M: Drop,
    MF: Drop,
    S: BuildHasher + Drop,
    H: Wait + Drop,
> Drop for Family<LS, M, MF, S, H> {
    fn drop(self) {
        let Family { shared: _, wait: _ } = self;
    }
}

impl<
    LS: EncodeLabelSet + Eq + Hash + Drop,
    M: Drop,
    MF: Drop,
    S: BuildHasher + Default + Drop,
    H: Wait + Drop,
> Family<LS, M, MF, S, H> {
    /// A family without members, with this factory and the default hasher. Fails with `Memory` if memory runs out.
    pub fn new(wait: H, alloc: Global, factory: MF) -> Result<Self, MetricError>
        ensures factory { IfOk result (λ f. (arc_value f.shared).factory ≡ factory) }
        ensures memory { IfErr result (λ e. e ≡ Memory) }
    {
        Family::with_hasher(wait, alloc, factory, S::default())
    }
}

impl<
    LS: EncodeLabelSet + Eq + Hash + Drop,
    M: Drop,
    MF: Drop,
    S: BuildHasher + Drop,
    H: Wait + Drop,
> Family<LS, M, MF, S, H> {
    /// A family without members, with this factory and this hasher. Fails with `Memory` if memory runs out.
    pub fn with_hasher(wait: H, alloc: Global, factory: MF, hasher: S) -> Result<Self, MetricError>
        ensures factory { IfOk result (λ f. (arc_value f.shared).factory ≡ factory) }
        ensures memory { IfErr result (λ e. e ≡ Memory) }
    {
        let turn = Mutex::new(());
        let core = RwLock::new(FamilyCore::with_hasher(alloc, hasher));
        let shared = Arc::new(
            alloc,
            Shared {
                turn,
                core,
                factory,
            },
        )?;
        Ok(Family { shared, wait })
    }

    /// Calls `f` with the metric of these labels, if there is one, and returns its result. It takes no memory.
    pub fn with<R, F: FnOnce(&M) -> R>(&self, labels: &LS, f: F) -> Option<R>
        requires { F.IsAlwaysCallable f }
        ensures looks_up { (members : List (LS × M))
            × AreDifferent LS.eq members
            × CallsMember F.FnOnce f (LS.eq labels.now) members result }
        ensures called { IfSome result (λ r. (metric : M) × FnOnceReturnsAt F.FnOnce f metric r) }
    {
        let guard = self.shared.core.read(&self.wait);
        let core: &FamilyCore<LS, M, S> = &guard;
        core.are_different();
        match core.get(labels) {
            Some(metric) => Some(f(metric)),
            None => None,
        }
    }

    /// How many members there are. It waits while another thread makes or removes a member, and takes no memory. Other
    /// threads may have changed the number before the caller reads it.
    pub fn len(&self) -> usize
        ensures { (members : List (LS × M))
            × AreDifferent LS.eq members
            × (result ≡ length members) }
    {
        let core = self.shared.core.read(&self.wait);
        core.len()
    }

    /// Removes the member of these labels, and returns whether there was one.
    ///
    /// The others keep their order, their values and their labels. A handle that was cloned out of the metric before
    /// counts on, and is no longer in the exposition. If the labels are used again, their metric is new, and the last
    /// member. The call waits for all other calls of this family, and takes no memory.
    pub fn remove(&self, labels: &LS) -> bool
        ensures { Locked (AreDifferent {M = M} LS.eq) (Removes (LS.eq labels.now)) result }
    {
        let _turn = self.shared.turn.lock(&self.wait);
        let mut guard = self.shared.core.write(&self.wait);
        let core: &mut FamilyCore<LS, M, S> = &mut guard;
        core.are_different();
        core.remove(labels)
    }

    /// Removes each member, as `remove` does. The factory and the hasher stay.
    ///
    /// The call waits for all other calls of this family, and takes no memory.
    pub fn clear(&self) {
        let _turn = self.shared.turn.lock(&self.wait);
        let mut core = self.shared.core.write(&self.wait);
        core.clear();
    }

    /// Removes each member at which `keep` returns `false`, as `remove` does.
    ///
    /// `keep` is called once for each member, in their order, and may not call the same family: it would wait for ever. The
    /// call waits for all other calls of this family, which wait until it returns. It takes no memory.
    pub fn retain<F: FnMut(&LS, &M) -> bool>(&self, keep: F)
        requires { F.IsAlwaysCallable keep }
        ensures { Locked (AreDifferent LS.eq)
            (λ old new _. IsFiltered (CalledAtMember F.FnMut) keep old new) result }
    {
        let _turn = self.shared.turn.lock(&self.wait);
        let mut guard = self.shared.core.write(&self.wait);
        let core: &mut FamilyCore<LS, M, S> = &mut guard;
        core.are_different();
        core.retain(keep);
    }
}

impl<
    LS: EncodeLabelSet + Clone + Eq + Hash + Drop,
    M: Drop,
    MF: MetricFactory<M> + Drop,
    S: BuildHasher + Drop,
    H: Wait + Drop,
> Family<LS, M, MF, S, H> {
    /// Calls `f` with the metric of these labels, and returns its result. If there is none, the factory makes one,
    /// which is added as the last member.
    ///
    /// The factory is called only if there is none. Its error is returned; if memory runs out, the error is `Memory`.
    /// At an error the members stay as they were. A clone of a label set must equal it. If the metric exists, the call
    /// takes no memory, and locks for reading only.
    pub fn with_or_new<R, F: FnOnce(&M) -> R>(&self, labels: &LS, f: F) -> Result<R, MetricError>
        // The factory and `f` can be called, and a clone of a label set equals it.
        requires ready { MF.is_ready (arc_value self.now.shared).factory }
        requires callable { F.IsAlwaysCallable f }
        requires clones { ClonesEqual LS.is_clone LS.eq }
        // `f` is called with the metric of these labels: one that was there, or a new last one.
        ensures gets { Locked (AreDifferent LS.eq)
            (λ old new r. GetsOrAdds LS.is_clone LS.eq
            (MF.promises (arc_value self.now.shared).factory)
            labels.now old new (λ r metric. FnOnceReturnsAt F.FnOnce f metric r) r) result }
        ensures called { IfOk result (λ r. (metric : M) × FnOnceReturnsAt F.FnOnce f metric r) }
        // The error is `Memory`, or that of the factory.
        ensures refused { IfErr result
            (λ e. (e ≡ Memory) ⊎ MF.promises (arc_value self.now.shared).factory (Err e)) }
    {
        let shared = &*self.shared;
        let guard = shared.core.read(&self.wait);
        let core: &FamilyCore<LS, M, S> = &guard;
        core.are_different();
        if let Some(metric) = core.get(labels) {
            return Ok(f(metric));
        }
        drop(guard);
        let _turn = shared.turn.lock(&self.wait);
        let mut core = shared.core.write(&self.wait);
        core.with_or_new(labels, &shared.factory, f)
    }
}

/// A family without members whose metrics are made by `try_default`.
impl<
    LS: EncodeLabelSet + Eq + Hash + Drop,
    M: TryDefault<H> + Drop,
    S: BuildHasher + Default + Drop,
    H: Wait + Clone + Drop,
> TryDefault<H> for Family<LS, M, DefaultFactory<M, H>, S, H> {
    fn try_default(wait: H, alloc: Global) -> Result<Self, MetricError> {
        let factory = DefaultFactory::new(wait.clone()?, alloc);
        Family::with_hasher(wait, alloc, factory, S::default())
    }
}

/// Another handle of the same family. Cloning takes memory, and fails if memory runs out.
impl<
    LS: EncodeLabelSet + Eq + Hash + Drop,
    M: Drop,
    MF: Drop,
    S: BuildHasher + Drop,
    H: Wait + Clone,
> Clone for Family<LS, M, MF, S, H> {
    ghost is_clone = { λ f g. arc_value g.shared ≡ arc_value f.shared };

    fn clone(&self) -> Result<Self, AllocError> {
        let shared = self.shared.clone()?;
        let wait = self.wait.clone()?;
        Ok(Family { shared, wait })
    }
}

/// Shows the name of the type only, since the members are protected by the lock.
impl<LS: EncodeLabelSet + Eq + Hash, M, MF, S: BuildHasher, H: Wait> Debug
    for Family<LS, M, MF, S, H> {
    fn fmt<W: fmt::Write>(&self, f: &mut Formatter<W>) -> fmt::Result {
        f.debug_struct("Family").finish_non_exhaustive()
    }
}

/// The type of the family's members.
impl<LS: EncodeLabelSet + Eq + Hash, M: TypedMetric, MF, S: BuildHasher, H: Wait> TypedMetric
    for Family<LS, M, MF, S, H> {
    ghost TYPE = { M.TYPE };

    const TYPE: MetricType = M::TYPE;

    const WITH_TIMESTAMP: bool = M::WITH_TIMESTAMP;
}

/// It offers label sets that differ from each other, each with points that a metric of the members' type may offer. A
/// family without members is empty.
impl<
    LS: EncodeLabelSet + Eq + Hash + Send + Sync + Drop,
    M: EncodePoint + TypedMetric + Send + Sync + Drop,
    MF: Send + Sync + Drop,
    S: BuildHasher + Send + Sync + Drop,
    H: Wait + Send + Sync + Drop,
> EncodeMetric for Family<LS, M, MF, S, H> {
    ghost types = { λ _ t. t ≡ M.TYPE };

    ghost may_be_empty = { λ _. ⊤ };

    ghost offers = { λ _ _. OffersDifferent LS.eq LS.labels M.points };

    ghost may_fault = { λ _. (pair : LS × M) × MayFault LS.may_fault M.may_fault pair };

    fn encode(&self, encoder: &mut MetricEncoder) -> Result<(), EncodeError> {
        let _turn = self.shared.turn.lock(&self.wait);
        let core = self.shared.core.read(&self.wait);
        core.encode_members(encoder)
    }

    fn metric_type(&self) -> MetricType {
        M::TYPE
    }

    fn timestamp(&self) -> Option<Duration> {
        None
    }

    fn is_empty(&self) -> bool {
        let core = self.shared.core.read(&self.wait);
        core.is_empty()
    }
}

//! Metrics that are in one of several named states.
ghost use Rattle.std.specs.Prelude.{◌≡◌, ◌≤◌, ℕ, true, List, [], ◌∷◌, map, length, MatchResult, MatchOption, IfOk, IfErr, count_by};
ghost use Rattle.std.specs.Arc.{arc_value};
ghost use Rattle.fm_grammar.specs.declared.MetricType.TheVariants.{StateSet as StateSetType};
ghost use Rattle.fm_raw.specs.declared.error.MetricError.TheVariants.{UnknownState, Memory};
ghost use Rattle.fm_encoder.specs.Points.{StateSetPoint};
ghost use Rattle.fm_encoder.specs.States.{state_of};
ghost use Rattle.fm_metrics.specs.StateSets.{IsState, IsNoState, IsStateIndex, IsVariant, IsRefusedAs, AreDifferent, states_at};

use fm_encoder::{EncodeMetric, EncodePoint, MetricEncoder, PointEncoder};
use fm_raw::{EncodeError, MetricError, MetricType, TryDefault, TypedMetric};
use std::alloc::{AllocError, Global};
use std::fmt::{self, Debug, Formatter};
use std::marker::PhantomData;
use std::sync::atomic::Ordering::SeqCst;
use std::sync::atomic::{AtomicIn, Rule};
use std::sync::{Arc, Wait};
use std::time::Duration;

/// The greatest number of states of a state set.
pub const MAX_STATES: usize = 256;

/// A type whose values are the states of a state set.
///
/// <!-- cut: crates/own_metric/src/states.rt -->
/// ```rust
/// impl StateSetValue for Job {
///     ghost all = { Waiting ∷ Running ∷ [] };
///     // ..
///     fn variants() -> &'static [Job] {
///         &JOBS
///     }
///     // ..
/// }
/// ```
pub trait StateSetValue: PartialEq + Sized + Send + Sync + Drop {
    /// The states, in order.
    ghost all: { List Self };

    /// The bytes of a state's text.
    ghost text: { Self → List ℕ };

    /// The states, in order. Each call returns the same.
    fn variants() -> &'static [Self]
        ensures { result.now ≡ all };

    /// The state's text.
    fn as_str(&self) -> &str
        ensures { result.now ≡ text self.now };
}

// The index of the first of `all` that equals `state`.
fn find_state<T: PartialEq>(all: &[T], state: &T) -> Option<usize>
    ensures index { MatchOption result
        (IsNoState T.eq all.now state.now) (IsStateIndex T.eq all.now) }
    ensures found { MatchOption result
        (IsNoState T.eq all.now state.now) (λ _. IsState T.eq all.now state.now) }
{
    for (i, x) in all.iter().enumerate() {
        if *x == *state {
            return Some(i);
        }
    }
    None
}

// If `state` equals `other` and one of a list of states, then `other` equals one of them too.
fn equal_is_known<T: PartialEq>(state: &T, other: &T)
    ensures { (all : List T) → T.eq state.now other.now ≡ true → ∥ IsState T.eq all state.now ∥₁
        → ∥ IsState T.eq all other.now ∥₁ }
{
    let _state = state;
    let _other = other;
}

// Lists each state's text, and whether it is this state. It is a trait so that methods of other traits can call it.
trait TellStates: StateSetValue + 'static {
    fn tell_states(&self, alloc: Global) -> Result<Vec<(&str, bool)>, MetricError>;
}

impl<T: StateSetValue + 'static> TellStates for T {
    fn tell_states(&self, alloc: Global) -> Result<Vec<(&str, bool)>, MetricError>
        ensures told { IfOk result
            (λ told. map state_of told.items ≡ states_at T.eq T.all T.text self.now) }
        ensures one { AreDifferent T.eq T.all → ∥ IsState T.eq T.all self.now ∥₁
            → IfOk result (λ told. count_by (λ p. p.1) told.items ≡ 1) }
        ensures memory { IfErr result (λ e. e ≡ Memory) }
    {
        let mut told = Vec::new(alloc);
        for x in T::variants() {
            told.push((x.as_str(), *x == *self))?;
        }
        Ok(told)
    }
}

// The rule of an atomic that contains the index of a state.
struct IndexOf<T> {
    states: PhantomData<T>,
}

impl<T: StateSetValue> Rule for IndexOf<T> {
    ghost invariant = { IsStateIndex T.eq T.all };
}

/// A state that its clones share. An atomic contains its index: a change is one store, a reading one load.
///
/// <!-- cut: crates/own_metric/src/states.rt -->
/// ```rust
/// let job = StateSet::new(alloc, Job::Waiting)?;
/// job.set(Job::Running)?;
/// Ok(job)
/// ```
pub struct StateSet<T: StateSetValue> {
    index: Arc<AtomicIn<IndexOf<T>>, Global>,
    alloc: Global,
}

impl<T: StateSetValue> Drop for StateSet<T> {
    fn drop(self) {
        let StateSet { index: _, alloc: _ } = self;
    }
}

// Reads the current state. It is a trait so that methods of other traits can call it.
trait CurrentState<T> {
    fn current(&self) -> &T;
}

impl<T: StateSetValue + 'static> CurrentState<T> for StateSet<T> {
    fn current(&self) -> &T
        ensures { IsVariant T.eq T.all result.now }
    {
        let index = self.index.load(SeqCst);
        &T::variants()[index as usize]
    }
}

impl<T: StateSetValue + 'static> StateSet<T> {
    /// A state set whose current state is `state`. Errors, in this order: there are more than 256 states
    /// (`TooManyStates`), no state equals `state` (`UnknownState`), memory runs out (`Memory`).
    pub fn new(alloc: Global, state: T) -> Result<StateSet<T>, MetricError>
        ensures { MatchResult result
            (λ _. (length T.all ≤ MAX_STATES) × IsState T.eq T.all state)
            (IsRefusedAs T.eq T.all state) }
    {
        if T::variants().len() > MAX_STATES {
            return Err(MetricError::TooManyStates);
        }
        let index = find_state(T::variants(), &state).ok_or(MetricError::UnknownState)?;
        let index = Arc::new(alloc, AtomicIn::new(index as u64))?;
        Ok(StateSet { index, alloc })
    }

    /// Makes `state` the current state. Fails with `UnknownState` if no state equals it, and then changes nothing.
    pub fn set(&self, state: T) -> Result<(), MetricError>
        ensures { MatchResult result
            (λ _. IsState T.eq T.all state)
            (λ e. (e ≡ UnknownState) × IsNoState T.eq T.all state) }
    {
        let index = find_state(T::variants(), &state).ok_or(MetricError::UnknownState)?;
        self.index.store(index as u64, SeqCst);
        Ok(())
    }

    /// The current state at this moment.
    pub fn get(&self) -> &T
        ensures { IsVariant T.eq T.all result.now }
    {
        self.current()
    }

    /// Each state's text, in order, and whether the state equals the current one. Fails with `Memory` if memory runs
    /// out.
    pub fn states(&self) -> Result<Vec<(&str, bool)>, MetricError>
        ensures told { IfOk result (λ told. (current : T)
            × IsVariant T.eq T.all current
            × (map state_of told.items ≡ states_at T.eq T.all T.text current)) }
        ensures one { IfOk result
            (λ told. AreDifferent T.eq T.all → count_by (λ p. p.1) told.items ≡ 1) }
        ensures memory { IfErr result (λ e. e ≡ Memory) }
    {
        self.current().tell_states(self.alloc)
    }
}

/// A state set whose current state is the type's default. It fails as `new` does with that state.
impl<T: StateSetValue + Default + 'static, H: Wait + Drop> TryDefault<H> for StateSet<T> {
    ghost may_refuse = { λ e. (state : T) × T.is_default state × IsRefusedAs T.eq T.all state e };

    fn try_default(_wait: H, alloc: Global) -> Result<StateSet<T>, MetricError> {
        let state = T::default();
        if T::variants().len() > MAX_STATES {
            return Err(MetricError::TooManyStates);
        }
        let index = find_state(T::variants(), &state).ok_or(MetricError::UnknownState)?;
        let index = Arc::new(alloc, AtomicIn::new(index as u64))?;
        Ok(StateSet { index, alloc })
    }
}

/// Another handle of the same state set. Cloning takes memory, and fails if memory runs out.
impl<T: StateSetValue> Clone for StateSet<T> {
    ghost is_clone = { λ s t. arc_value t.index ≡ arc_value s.index };

    fn clone(&self) -> Result<StateSet<T>, AllocError> {
        Ok(StateSet {
            index: self.index.clone()?,
            alloc: self.alloc,
        })
    }
}

/// Shows the text of the current state.
impl<T: StateSetValue + 'static> Debug for StateSet<T> {
    fn fmt<W: fmt::Write>(&self, f: &mut Formatter<W>) -> fmt::Result {
        f.debug_struct("StateSet")
            .field("state", &self.current().as_str())
            .finish()
    }
}

impl<T: StateSetValue + 'static> TypedMetric for StateSet<T> {
    ghost TYPE = { StateSetType };

    const TYPE: MetricType = MetricType::StateSet;
}

impl<T: StateSetValue + 'static> EncodePoint for StateSet<T> {
    ghost points = { λ _ ps. (current : T)
        × IsVariant T.eq T.all current
        × (ps ≡ StateSetPoint (states_at T.eq T.all T.text current) ∷ []) };

    fn encode(&self, points: &mut PointEncoder) -> Result<(), EncodeError> {
        let Ok(states) = self.current().tell_states(self.alloc) else {
            return Err(EncodeError::Memory);
        };
        points.encode_stateset(states)
    }
}

impl<T: StateSetValue + 'static> EncodeMetric for StateSet<T> {
    ghost types = { λ _ t. t ≡ StateSetType };

    ghost offers = { λ _ _ ms. (current : T) × IsVariant T.eq T.all current × (ms ≡ record {
      labels = [];
      point = StateSetPoint (states_at T.eq T.all T.text current);
    } ∷ []) };

    fn encode(&self, encoder: &mut MetricEncoder) -> Result<(), EncodeError> {
        encoder.encode(&(), self)
    }

    fn metric_type(&self) -> MetricType {
        MetricType::StateSet
    }

    fn timestamp(&self) -> Option<Duration> {
        None
    }
}

/// A state set that keeps the state it was made with.
///
/// <!-- cut: tests/scripts/src/metrics/const_states.rt.in -->
/// ```rust
/// fn states<T: StateSetValue + Named + 'static>(
///     alloc: Global,
///     state: &str,
/// ) -> Result<ConstStateSet<T>, MetricError> {
///     ConstStateSet::new(alloc, T::named(state))
/// }
/// ```
#[derive(Drop)]
pub struct ConstStateSet<T: StateSetValue> {
    state: T,
    alloc: Global,
    ghost known: { ∥ IsState T.eq T.all state ∥₁ },
}

impl<T: StateSetValue + 'static> ConstStateSet<T> {
    ghost use Rattle.fm_metrics.specs.CurrentState.{current_state};

    /// A state set whose state is `state`. Errors, in this order: there are more than 256 states (`TooManyStates`), no
    /// state equals `state` (`UnknownState`). It takes no memory. It keeps the allocator for `states`.
    pub fn new(alloc: Global, state: T) -> Result<ConstStateSet<T>, MetricError>
        ensures made { IfOk result (λ s. current_state s ≡ state) }
        ensures refused { MatchResult result
            (λ _. (length T.all ≤ MAX_STATES) × IsState T.eq T.all state)
            (λ e. IsRefusedAs T.eq T.all state e × ¬ (e ≡ Memory)) }
    {
        if T::variants().len() > MAX_STATES {
            return Err(MetricError::TooManyStates);
        }
        match find_state(T::variants(), &state) {
            Some(_) => Ok(ConstStateSet { state, alloc }),
            None => Err(MetricError::UnknownState),
        }
    }

    /// The state.
    pub fn get(&self) -> &T
        ensures { result.now ≡ current_state self.now }
    {
        &self.state
    }

    /// Each state's text, in order, and whether the state equals this one. Fails with `Memory` if memory runs out.
    pub fn states(&self) -> Result<Vec<(&str, bool)>, MetricError>
        ensures told { IfOk result
            (λ told. map state_of told.items ≡ states_at T.eq T.all T.text (current_state self.now)) }
        ensures one { IfOk result
            (λ told. AreDifferent T.eq T.all → count_by (λ p. p.1) told.items ≡ 1) }
        ensures memory { IfErr result (λ e. e ≡ Memory) }
    {
        self.state.tell_states(self.alloc)
    }
}

impl<T: StateSetValue + Clone + 'static> ConstStateSet<T> {
    ghost use Rattle.fm_metrics.specs.CurrentState.{current_state};

    /// A state set with a clone of the state, which must equal the state. Cloning fails if memory runs out.
    pub fn clone(&self) -> Result<ConstStateSet<T>, AllocError>
        requires { (state : T)
            → T.is_clone (current_state self.now) state → T.eq (current_state self.now) state ≡ true }
        ensures { IfOk result (λ s. T.is_clone (current_state self.now) (current_state s)) }
    {
        let state = self.state.clone()?;
        equal_is_known(&self.state, &state);
        Ok(ConstStateSet {
            state,
            alloc: self.alloc,
        })
    }
}

/// Shows the text of the state.
impl<T: StateSetValue> Debug for ConstStateSet<T> {
    fn fmt<W: fmt::Write>(&self, f: &mut Formatter<W>) -> fmt::Result {
        f.debug_struct("ConstStateSet")
            .field("state", &self.state.as_str())
            .finish()
    }
}

impl<T: StateSetValue + 'static> TypedMetric for ConstStateSet<T> {
    ghost TYPE = { StateSetType };

    const TYPE: MetricType = MetricType::StateSet;
}

impl<T: StateSetValue + 'static> EncodePoint for ConstStateSet<T> {
    ghost points = { λ s ps. ps ≡ StateSetPoint (states_at T.eq T.all T.text s.state) ∷ [] };

    fn encode(&self, points: &mut PointEncoder) -> Result<(), EncodeError> {
        let Ok(states) = self.state.tell_states(self.alloc) else {
            return Err(EncodeError::Memory);
        };
        points.encode_stateset(states)
    }
}

impl<T: StateSetValue + 'static> EncodeMetric for ConstStateSet<T> {
    ghost types = { λ _ t. t ≡ StateSetType };

    ghost offers = { λ s _ ms. ms ≡ record {
      labels = [];
      point = StateSetPoint (states_at T.eq T.all T.text s.state);
    } ∷ [] };

    fn encode(&self, encoder: &mut MetricEncoder) -> Result<(), EncodeError> {
        encoder.encode(&(), self)
    }

    fn metric_type(&self) -> MetricType {
        MetricType::StateSet
    }

    fn timestamp(&self) -> Option<Duration> {
        None
    }
}

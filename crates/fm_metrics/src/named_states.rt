//! State sets whose states are texts that are given when the set is made.
ghost use Rattle.std.specs.Prelude.{◌≡◌, ◌≤◌, ◌<◌, Bool, true, false, List, [], ◌∷◌, map, length, MatchOption, MatchResult, IfOk, IfErr, OnOk, Contains, string_bytes, vec_len};
ghost use Rattle.std.specs.List.{list_any, IsDistinct, IsDistinct-prop};
ghost use Rattle.std.specs.Str.{bytes_eq};
ghost use Rattle.std.specs.Arc.{arc_value};
ghost use Rattle.fm_grammar.specs.Exposition.{Text};
ghost use Rattle.fm_grammar.specs.declared.MetricType.TheVariants.{StateSet as StateSetType};
ghost use Rattle.fm_raw.specs.declared.error.MetricError.TheVariants.{UnknownState, TooManyStates, Memory};
ghost use Rattle.fm_encoder.specs.Points.{StateSetPoint};
ghost use Rattle.fm_encoder.specs.States.{state_of};
ghost use Rattle.fm_metrics.specs.NamedStates.{CanName, IsNotNamedAs, ShowsOne, add_once, each_once, named_states};

use crate::state_set::MAX_STATES;
use fm_encoder::{EncodeMetric, EncodePoint, MetricEncoder, PointEncoder};
use fm_raw::{EncodeError, MetricError, MetricType, TypedMetric};
use std::alloc::{AllocError, Global};
use std::fmt::{self, Debug, Formatter};
use std::sync::Arc;
use std::sync::atomic::AtomicU64;
use std::sync::atomic::Ordering::SeqCst;
use std::time::Duration;

// The index of the first of these names that equals `name`.
fn index_of_name(names: &[String], name: &str) -> Option<usize>
    ensures { MatchOption result
        (list_any (bytes_eq name.now) (map string_bytes names.now) ≡ false)
        (λ _. list_any (bytes_eq name.now) (map string_bytes names.now) ≡ true) }
{
    for (i, x) in names.iter().enumerate() {
        if name == x.as_str() {
            return Some(i);
        }
    }
    None
}

// Whether the name is among these.
fn is_among(names: &[&str], name: &str) -> bool
    ensures { result ≡ list_any (λ x. bytes_eq name.now x.now) names.now }
{
    names.iter().any(|x| name == *x)
}

// How many names there are, each of them counted once.
fn count_once(names: &[&str]) -> usize
    ensures { result ≡ length (each_once (map (λ name. name.now) names.now)) }
{
    let mut count = 0;
    for (i, name) in names.iter().enumerate() {
        if !is_among(&names[..i], *name) {
            count += 1;
        }
    }
    count
}

// Adds a copy of the name at the end, unless it is there.
fn add_copy(alloc: Global, copies: &mut Vec<String>, name: &str) -> Result<(), MetricError>
    requires { IsDistinct bytes_eq (map string_bytes copies.old.items) }
    ensures names { OnOk result (map string_bytes copies.new.items
        ≡ add_once (map string_bytes copies.old.items) name.now) }
    ensures different { OnOk result (IsDistinct bytes_eq (map string_bytes copies.new.items)) }
    ensures memory { IfErr result (λ e. e ≡ Memory) }
{
    if let Some(_) = index_of_name(copies.as_slice(), name) {
        return Ok(());
    }
    copies.push(String::from_str(alloc, name)?)?;
    Ok(())
}

// Copies the names, each of them once.
fn copied_once(alloc: Global, names: &[&str]) -> Result<Vec<String>, MetricError>
    ensures names { IfOk result
        (λ copies. map string_bytes copies.items ≡ each_once (map (λ name. name.now) names.now)) }
    ensures different { IfOk result
        (λ copies. IsDistinct bytes_eq (map string_bytes copies.items)) }
    ensures memory { IfErr result (λ e. e ≡ Memory) }
{
    let mut copies = Vec::new(alloc);
    for name in names {
        add_copy(alloc, &mut copies, *name)?;
    }
    Ok(copies)
}

// Each of these names, in order, and whether it is the current one.
fn told<'a>(
    alloc: Global,
    names: &'a [String],
    current: &str,
) -> Result<Vec<(&'a str, bool)>, MetricError>
    ensures told { IfOk result
        (λ told. map state_of told.items ≡ named_states (map string_bytes names.now) current.now) }
    ensures memory { IfErr result (λ e. e ≡ Memory) }
{
    let mut told = Vec::new(alloc);
    for name in names {
        told.push((name.as_str(), name.as_str() == current))?;
    }
    Ok(told)
}

// What the clones of a state set share: its names, and the index of the current one.
#[derive(Drop)]
struct Named {
    names: Vec<String>,
    index: AtomicU64,
    ghost some: { 0 < vec_len names },
    ghost different: { IsDistinct bytes_eq (map string_bytes names.items) } by { IsDistinct-prop bytes_eq (map string_bytes names.items) },
}

/// A state that its clones share. The states are texts, which are given when the state set is made. An atomic contains the index of
/// the current one: a change is one store, a reading one load.
///
/// <!-- cut: crates/calling/src/infos.rt -->
/// ```rust
/// let job = NamedStates::new(alloc, &["waiting", "running", "done"])?;
/// job.set("running")?;
/// Ok(job)
/// ```
#[derive(Drop)]
pub struct NamedStates {
    named: Arc<Named, Global>,
    alloc: Global,
}

impl NamedStates {
    ghost use Rattle.fm_metrics.specs.StateNames.{state_names};

    /// A state set with these states, whose current state is the first. A name that is given again counts once.
    ///
    /// Errors, in this order: there are no names (`UnknownState`), there are more than 256 different ones (`TooManyStates`), memory
    /// runs out (`Memory`).
    pub fn new(alloc: Global, names: &[&str]) -> Result<NamedStates, MetricError>
        ensures names { IfOk result
            (λ s. state_names s ≡ each_once (map (λ name. name.now) names.now)) }
        ensures refused { MatchResult result
            (λ _. CanName (map (λ name. name.now) names.now))
            (IsNotNamedAs (map (λ name. name.now) names.now)) }
    {
        if names.is_empty() {
            return Err(MetricError::UnknownState);
        }
        if count_once(names) > MAX_STATES {
            return Err(MetricError::TooManyStates);
        }
        let names = copied_once(alloc, names)?;
        let index = AtomicU64::new(0);
        let named = Arc::new(alloc, Named { names, index })?;
        Ok(NamedStates { named, alloc })
    }

    /// Makes the state with this name the current state. Fails with `UnknownState` if there is none, and then changes nothing.
    pub fn set(&self, name: &str) -> Result<(), MetricError>
        ensures { MatchResult result
            (λ _. Contains (state_names self.now) name.now)
            (λ e. (e ≡ UnknownState) × ¬ (Contains (state_names self.now) name.now)) }
    {
        match index_of_name(self.named.names.as_slice(), name) {
            Some(index) => {
                self.named.index.store(index as u64, SeqCst);
                Ok(())
            }
            None => Err(MetricError::UnknownState),
        }
    }

    /// The name of the current state at this moment.
    pub fn get(&self) -> &str
        ensures { Contains (state_names self.now) result.now }
    {
        let names = self.named.names.as_slice();
        let index = self.named.index.load(SeqCst) as usize;
        names[index.min(names.len() - 1)].as_str()
    }

    /// Each state's name, in order, and whether the state is the current one. Fails with `Memory` if memory runs out.
    pub fn states(&self) -> Result<Vec<(&str, bool)>, MetricError>
        ensures told { IfOk result (λ told. ShowsOne (state_names self.now) (map state_of told.items)) }
        ensures memory { IfErr result (λ e. e ≡ Memory) }
    {
        told(self.alloc, self.named.names.as_slice(), self.get())
    }
}

/// Another handle of the same state set. Cloning takes memory, and fails if memory runs out.
impl Clone for NamedStates {
    ghost is_clone = { λ s t. arc_value t.named ≡ arc_value s.named };

    fn clone(&self) -> Result<NamedStates, AllocError> {
        Ok(NamedStates {
            named: self.named.clone()?,
            alloc: self.alloc,
        })
    }
}

/// Shows the name of the current state.
impl Debug for NamedStates {
    fn fmt<W: fmt::Write>(&self, f: &mut Formatter<W>) -> fmt::Result {
        f.debug_struct("NamedStates")
            .field("state", &self.get())
            .finish()
    }
}

impl TypedMetric for NamedStates {
    ghost TYPE = { StateSetType };

    const TYPE: MetricType = MetricType::StateSet;
}

impl EncodePoint for NamedStates {
    ghost use Rattle.fm_metrics.specs.StateNames.{state_names};

    ghost points = { λ s ps. (states : List (Text × Bool))
        × ShowsOne (state_names s) states × (ps ≡ StateSetPoint states ∷ []) };

    fn encode(&self, points: &mut PointEncoder) -> Result<(), EncodeError> {
        let Ok(states) = self.states() else {
            return Err(EncodeError::Memory);
        };
        points.encode_stateset(states)
    }
}

impl EncodeMetric for NamedStates {
    ghost use Rattle.fm_metrics.specs.StateNames.{state_names};

    ghost types = { λ _ t. t ≡ StateSetType };

    ghost offers = { λ s _ ms. (states : List (Text × Bool))
        × ShowsOne (state_names s) states
        × (ms ≡ record { labels = []; point = StateSetPoint states } ∷ []) };

    fn encode(&self, encoder: &mut MetricEncoder) -> Result<(), EncodeError> {
        encoder.encode(&(), self)
    }

    fn metric_type(&self) -> MetricType {
        MetricType::StateSet
    }

    fn timestamp(&self) -> Option<Duration> {
        None
    }
}

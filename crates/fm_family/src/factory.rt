//! Factories, which make the members of a family.
ghost use Rattle.std.specs.Prelude.{◌≡◌, ◌⊎◌, Result, MatchResult, ⊤};
ghost use Rattle.fm_raw.specs.declared.error.MetricError.{MetricError as Refusal};
ghost use Rattle.fm_raw.specs.declared.error.MetricError.TheVariants.{Memory};

use fm_raw::{MetricError, TryDefault};
use std::alloc::Global;
use std::marker::PhantomData;
use std::sync::Wait;

/// Makes the metric of a label set when a family first needs it.
///
/// Each closure without arguments that returns `Result<M, MetricError>` is a factory. A boxed family needs a closure: a
/// function pointer is refused there.
///
/// <!-- cut: crates/calling/src/own.rt -->
/// ```rust
/// impl<H: Wait + Copy + Drop> MetricFactory<Histogram<H>> for Sizes<H> {
///     fn new_metric(&self) -> Result<Histogram<H>, MetricError> {
///         let bounds = [1_000_000, 16_000_000, 256_000_000].map(Fixed::from_millionths);
///         Histogram::new(self.wait, self.alloc, bounds.into_iter())
///     }
/// }
/// ```
pub trait MetricFactory<M> {
    /// Holds of a factory that can be called. If nothing is said, any can.
    ghost is_ready: { Self → Type 0 } = { λ _. ⊤ };

    /// Holds of each result that the factory may return. If nothing is said, it may return any.
    ghost promises: { Self → Result M Refusal → Type 0 } = { λ _ _. ⊤ };

    /// A new metric, or the factory's error.
    fn new_metric(&self) -> Result<M, MetricError>
        requires { is_ready self.now }
        ensures { promises self.now result };
}

/// It promises what the closure's contract says of its results.
impl<M, F: Fn() -> Result<M, MetricError>> MetricFactory<M> for F {
    ghost is_ready = { λ f. F.pre f };

    ghost promises = { λ f r. F.post f r };

    fn new_metric(&self) -> Result<M, MetricError> {
        self()
    }
}

/// Makes metrics by `try_default`. It keeps the arguments of that: a `Wait` handle and the allocator.
///
/// <!-- cut: tests/unit/src/fm_family_label_sets.rt.in -->
/// ```rust
/// type Counters<S> = Family<Path, Counter, DefaultFactory<Counter, HostRuntime>, S, HostRuntime>;
/// // ..
/// let factory = DefaultFactory::new(rt, alloc);
/// let random = RandomState::new(&rt)?;
/// let pages = Counters::<RandomState>::with_hasher(rt, alloc, factory, random)?;
/// ```
#[derive(Drop)]
pub struct DefaultFactory<M, H: Wait> {
    wait: H,
    alloc: Global,
    metrics: PhantomData<M>,
}

impl<M: TryDefault<H>, H: Wait + Clone> DefaultFactory<M, H> {
    /// A factory that makes metrics by `try_default`. It takes no memory.
    pub fn new(wait: H, alloc: Global) -> DefaultFactory<M, H> {
        DefaultFactory {
            wait,
            alloc,
            metrics: PhantomData,
        }
    }
}

/// It promises a default metric, or an error of `try_default`, or `Memory` if the `Wait` handle can't be cloned.
impl<M: TryDefault<H>, H: Wait + Clone> MetricFactory<M> for DefaultFactory<M, H> {
    ghost is_ready = { λ _. ⊤ };

    ghost promises = { λ _ r. MatchResult r M.is_default (λ e. (e ≡ Memory) ⊎ M.may_refuse e) };

    fn new_metric(&self) -> Result<M, MetricError> {
        let wait = self.wait.clone()?;
        M::try_default(wait, self.alloc)
    }
}

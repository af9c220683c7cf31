//! The types of a program's own metrics: none, one of two, and where one is among them.
ghost use Rattle.std.specs.Prelude.{◌≡◌, [], ⊤};
ghost use Rattle.fm_grammar.specs.declared.MetricType.TheVariants.{Unknown};
ghost use Rattle.fastmetrics.specs.declared.registry.kinds.own.OneOf.TheVariants.{First, Second};

use fm_encoder::{EncodeMetric, MetricEncoder};
use fm_raw::{EncodeError, MetricType};
use std::marker::PhantomData;
use std::time::Duration;

/// Stands for a program's own metrics where it has none: a metric without samples, which no document shows.
///
/// <!-- cut: tests/unit/src/fastmetrics_own_types.rt.in -->
/// ```rust
/// let mut root = Root::new(rt)?;
/// root.add_own("nothing", "H", NoOwn)?;
/// ```
#[derive(Clone, Copy)]
pub struct NoOwn;

impl EncodeMetric for NoOwn {
    ghost types = { λ _ t. t ≡ Unknown };

    ghost may_be_empty = { λ _. ⊤ };

    ghost offers = { λ _ _ ms. ms ≡ [] };

    fn encode(&self, _encoder: &mut MetricEncoder) -> Result<(), EncodeError> {
        Ok(())
    }

    fn metric_type(&self) -> MetricType {
        MetricType::Unknown
    }

    fn timestamp(&self) -> Option<Duration> {
        None
    }

    fn is_empty(&self) -> bool {
        true
    }
}

/// A metric of one of two types. A program with more own types than two has a `OneOf` in a `OneOf`.
///
/// It declares and offers what the metric in it does.
///
/// <!-- cut: crates/calling/src/own.rt -->
/// ```rust
/// pub type Own<H> = OneOf<
///     SourceGauge<i64, Arc<Queue>>,
///     OneOf<
///         Collected<ConstGauge<i64>, Arc<Pools>>,
///         OneOf<PairFamily<u64, Counter, H, 1>, SizesBy<H>>,
///     >,
/// >;
/// // ..
/// let mut root: Root<H, Own<H>> = Root::built(Registry::builder(), rt)?;
/// ```
pub enum OneOf<A, B> {
    /// The first type.
    First(A),
    /// The second type.
    Second(B),
}

impl<A: Drop, B: Drop> Drop for OneOf<A, B> {
    fn drop(self) {
        match self {
            OneOf::First(_) => (),
            OneOf::Second(_) => (),
        }
    }
}

impl<A: EncodeMetric, B: EncodeMetric> EncodeMetric for OneOf<A, B> {
    ghost types = { λ m t. elim m [ First x ↦ A.types x t | Second x ↦ B.types x t ] };

    ghost may_be_empty = { λ m. elim m [ First x ↦ A.may_be_empty x | Second x ↦ B.may_be_empty x ] };

    ghost stamps = { λ m s. elim m [ First x ↦ A.stamps x s | Second x ↦ B.stamps x s ] };

    ghost offers = { λ m s ms. elim m [ First x ↦ A.offers x s ms | Second x ↦ B.offers x s ms ] };

    ghost may_fault = { λ m. elim m [ First x ↦ A.may_fault x | Second x ↦ B.may_fault x ] };

    fn encode(&self, encoder: &mut MetricEncoder) -> Result<(), EncodeError> {
        match self {
            OneOf::First(metric) => metric.encode(encoder),
            OneOf::Second(metric) => metric.encode(encoder),
        }
    }

    fn metric_type(&self) -> MetricType {
        match self {
            OneOf::First(metric) => metric.metric_type(),
            OneOf::Second(metric) => metric.metric_type(),
        }
    }

    fn timestamp(&self) -> Option<Duration> {
        match self {
            OneOf::First(metric) => metric.timestamp(),
            OneOf::Second(metric) => metric.timestamp(),
        }
    }

    fn is_empty(&self) -> bool {
        match self {
            OneOf::First(metric) => metric.is_empty(),
            OneOf::Second(metric) => metric.is_empty(),
        }
    }
}

/// Where a type is among those that another holds: it is the first of two.
///
/// <!-- cut: tests/unit/src/fastmetrics_own_types.rt.in -->
/// ```rust
/// type Own = OneOf<ExemplarCounter<HostRuntime>, OneOf<ExemplarHistogram<HostRuntime>, Unknown<i64>>>;
/// // ..
/// let routes: ExemplarCounter<HostRuntime> = root.own("routes", "H")?;
/// ```
pub struct Here;

/// Where a type is among those that another holds: in the second of two, at `I` there.
///
/// <!-- cut: tests/unit/src/fastmetrics_own_types.rt.in -->
/// ```rust
/// type Own = OneOf<ExemplarCounter<HostRuntime>, OneOf<ExemplarHistogram<HostRuntime>, Unknown<i64>>>;
/// // ..
/// let _lengths: ExemplarHistogram<HostRuntime> = root.own("lengths", "H")?;
/// ```
pub struct In<I> {
    at: PhantomData<I>,
}

/// Where a type is among those that another holds: it is that type itself.
///
/// <!-- cut: tests/unit/src/fastmetrics_own_types.rt.in -->
/// ```rust
/// let mut root = Root::<_, ExemplarCounter<_>>::built(Registry::builder(), rt)?;
/// let routes: ExemplarCounter<HostRuntime> = root.own("routes", "H")?;
/// ```
pub struct Itself;

/// A type that holds metrics of the type `T`: that type itself, or a `OneOf` in which it is the first, or held by the second. `I` says
/// where, which the compiler finds out: nobody writes it.
///
/// <!-- cut: tests/unit/src/fastmetrics_own_types.rt.in -->
/// ```rust
/// type Own = OneOf<ExemplarCounter<HostRuntime>, OneOf<ExemplarHistogram<HostRuntime>, Unknown<i64>>>;
/// // ..
/// let mut root = Root::<_, Own>::built(Registry::builder(), rt)?;
/// // ..
/// root.add_own("ways", "H", Unknown::<i64>::new(-4))?;
/// ```
pub trait Holds<T, I>: Sized {
    /// It is this metric, held.
    ghost holds: { T → Self → Type 0 };

    /// The metric, held.
    fn hold(metric: T) -> Self
        ensures { holds metric result };
}

impl<T> Holds<T, Itself> for T {
    ghost holds = { λ metric held. held ≡ metric };

    fn hold(metric: T) -> T {
        metric
    }
}

impl<A, B> Holds<A, Here> for OneOf<A, B> {
    ghost holds = { λ metric held. held ≡ First metric };

    fn hold(metric: A) -> OneOf<A, B> {
        OneOf::First(metric)
    }
}

impl<T, I, A, B: Holds<T, I>> Holds<T, In<I>> for OneOf<A, B> {
    ghost holds = { λ metric held. (second : B) × B.holds metric second × (held ≡ Second second) };

    fn hold(metric: T) -> OneOf<A, B> {
        OneOf::Second(B::hold(metric))
    }
}

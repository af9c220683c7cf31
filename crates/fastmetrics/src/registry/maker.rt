//! How a root makes metrics of each kind, and the handle that they wait by.
ghost use Rattle.std.specs.Prelude.{◌≡◌, IfOk, IfErr, MatchResult, Option, ⊤};
ghost use Rattle.std.specs.Iterator.{IsFinite};
ghost use Rattle.std.specs.declared.time.Duration.{Duration as Time};
ghost use Rattle.fm_raw.specs.declared.error.MetricError.TheVariants.{Memory};
ghost use Rattle.fm_metrics.specs.Counters.{counter_created};
ghost use Rattle.fm_histogram.specs.Shared.{histogram_created};

use fm_family::MetricFactory;
use fm_histogram::{GaugeHistogram, Histogram};
use fm_metrics::counter::Counter;
use fm_metrics::gauge::Gauge;
use fm_raw::bucket::DEFAULT_BUCKETS;
use fm_raw::{Fixed, MetricError, TryDefault};
use std::alloc::{AllocError, Global};
use std::sync::Wait;
use std::time::Duration;

/// A handle that a root's metrics wait by at a lock. It is copied, and sent to other threads. Each type with these traits is
/// one, such as `HostRuntime`.
///
/// <!-- cut: crates/calling/src/roots.rt -->
/// ```rust
/// pub fn register_later<H: Waiter>(
///     wait: &H,
///     root: &Mutex<Root<H>>,
/// ) -> Result<Counter, RegistryError> {
///     let mut root = root.lock(wait);
///     root.counter("late", "Registered while the program runs")
/// }
/// ```
pub trait Waiter: Wait + Copy + Send + Sync + Drop {}

impl<T: Wait + Copy + Send + Sync + Drop> Waiter for T {}

/// What a root makes metrics with: the handle that they wait by, and the bounds of histograms and the time of creation, if
/// these were given.
///
/// <!-- cut: crates/server/src/main.rt -->
/// ```rust
/// let waits = Description::new("waits", "Waits by queue and place").labels(&["queue", "place"]);
/// // ..
/// waits: root.histograms_with(waits.bounds(&bounds()).limit(100))?,
/// ```
pub struct Maker<H: Wait> {
    wait: H,
    alloc: Global,
    // Those of histograms, or None for the usual ones.
    bounds: Option<Vec<Fixed>>,
    created: Option<Duration>,
}

impl<H: Wait + Drop> Drop for Maker<H> {
    fn drop(self) {
        let Maker {
            wait: _,
            alloc: _,
            bounds: _,
            created: _,
        } = self;
    }
}

impl<H: Wait + Copy + Drop> Maker<H> {
    /// It keeps a copy of the bounds. Fails if memory runs out.
    pub(crate) fn new(
        wait: H,
        alloc: Global,
        bounds: Option<&[Fixed]>,
        created: Option<Duration>,
    ) -> Result<Maker<H>, AllocError>
        ensures { IfOk result (λ maker. maker.created ≡ created) }
    {
        let bounds = match bounds {
            Some(bounds) => Some(bounds.to_vec(alloc)?),
            None => None,
        };
        Ok(Maker {
            wait,
            alloc,
            bounds,
            created,
        })
    }
}

// A histogram of these bounds.
fn histogram_of<H: Wait + Copy + Drop, I: Iterator<Item = Fixed> + Drop>(
    maker: &Maker<H>,
    bounds: I,
) -> Result<Histogram<H>, MetricError>
    requires can { I.can_next bounds }
    requires ends { IsFinite (I.remaining bounds) }
    ensures created { IfOk result (λ h. histogram_created h ≡ maker.now.created) }
    ensures memory { IfErr result (λ e. e ≡ Memory) }
{
    match maker.created {
        Some(created) => Histogram::with_created(maker.wait, maker.alloc, bounds, created),
        None => Histogram::new(maker.wait, maker.alloc, bounds),
    }
}

/// A metric that a root makes.
///
/// <!-- cut: tests/scripts/src/by_names.rt.in -->
/// ```rust
/// fn handle_in<M: Made<H> + Clone + Drop, H: Waiter>(
///     // ..
///     Ok(family.with_label_values(values.as_slice())?)
/// ```
pub trait Made<H: Wait>: Sized {
    /// It is what is made for this time of creation.
    ghost is_made: { Option Time → Self → Type 0 } = { λ _ _. ⊤ };

    /// A new one. Fails with `Memory` if memory runs out.
    fn made(maker: &Maker<H>) -> Result<Self, MetricError>
        ensures made { IfOk result (is_made maker.now.created) }
        ensures memory { IfErr result (λ e. e ≡ Memory) };
}

impl<H: Wait + Copy + Drop> Made<H> for Counter<u64> {
    ghost is_made = { λ created c. counter_created c ≡ created };

    fn made(maker: &Maker<H>) -> Result<Counter<u64>, MetricError> {
        match maker.created {
            Some(created) => Counter::with_created(maker.alloc, created),
            None => Counter::try_default(maker.wait, maker.alloc),
        }
    }
}

impl<H: Wait + Copy + Drop> Made<H> for Counter<Fixed> {
    ghost is_made = { λ created c. counter_created c ≡ created };

    fn made(maker: &Maker<H>) -> Result<Counter<Fixed>, MetricError> {
        match maker.created {
            Some(created) => Counter::with_created(maker.alloc, created),
            None => Counter::try_default(maker.wait, maker.alloc),
        }
    }
}

impl<H: Wait + Copy + Drop> Made<H> for Gauge<i64> {
    fn made(maker: &Maker<H>) -> Result<Gauge<i64>, MetricError> {
        Gauge::try_default(maker.wait, maker.alloc)
    }
}

impl<H: Wait + Copy + Drop> Made<H> for Gauge<Fixed> {
    fn made(maker: &Maker<H>) -> Result<Gauge<Fixed>, MetricError> {
        Gauge::try_default(maker.wait, maker.alloc)
    }
}

impl<H: Wait + Copy + Drop> Made<H> for Histogram<H> {
    ghost is_made = { λ created h. histogram_created h ≡ created };

    fn made(maker: &Maker<H>) -> Result<Histogram<H>, MetricError> {
        match &maker.bounds {
            Some(bounds) => histogram_of(maker, bounds.iter().copied()),
            None => histogram_of(maker, DEFAULT_BUCKETS.into_iter()),
        }
    }
}

impl<H: Wait + Copy + Drop> Made<H> for GaugeHistogram<H> {
    fn made(maker: &Maker<H>) -> Result<GaugeHistogram<H>, MetricError> {
        match &maker.bounds {
            Some(bounds) => GaugeHistogram::new(maker.wait, maker.alloc, bounds.iter().copied()),
            None => GaugeHistogram::try_default(maker.wait, maker.alloc),
        }
    }
}

/// It promises a metric of its time of creation, or `Memory`.
impl<H: Wait + Copy + Drop, T: Made<H>> MetricFactory<T> for Maker<H> {
    ghost is_ready = { λ _. ⊤ };

    ghost promises = { λ maker r. MatchResult r (T.is_made maker.created) (λ e. e ≡ Memory) };

    fn new_metric(&self) -> Result<T, MetricError> {
        T::made(self)
    }
}

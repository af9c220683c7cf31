//! fastmetrics, an OpenMetrics client library: metrics that instrumented programs count and observe with, registries
//! that hold them, and the text that a scraper such as Prometheus reads.
//!
//! - [`metrics`]: counters, gauges, histograms, gauge histograms, quantiles of summaries, unknowns, infos, state sets,
//!   families of them, tallies.
//! - [`registry`]: registries of metrics, with their subsystems.
//! - [`format`]: `format::text::encode` writes a registry's document, and `format::text::read` reads one back.
//! - [`lint`]: what a linter advises of metrics' names, units and helps.
//! - [`encoder`]: what metrics, points and labels of your own implement.
//! - [`raw`]: numbers, units and metadata.
//! - [`process`]: processor time, memory, open files and start of the process, from the files of `/proc`.
//! - [`laws`]: theorems that a program has where it calls them.
//!
//! <!-- cut: crates/first_use/src/main.rt -->
//! ```rust
//! use fastmetrics::registry::Root;
//!
//! let mut root = Root::new(rt)?;
//! let connections = root.counter("connections", "Connections opened")?;
//! // ..
//! connections.inc();
//! // ..
//! root.encode(&mut rt.stdout())?;
//! ```
#![tactic(auto)]

pub mod process;
pub mod registry;

pub use fm_core::{encoder, format, lint};
pub use fm_laws as laws;

pub mod raw {
    //! Numbers, texts of names, units and metadata, buckets and quantiles.
    //!
    //! <!-- cut: crates/server/src/main.rt -->
    //! ```rust
    //! use fastmetrics::raw::{Fixed, MetricError, Unit};
    //! // ..
    //! [10_000, 100_000, 250_000].map(Fixed::from_millionths)
    //! // ..
    //! let time = Description::new("time", "Time of all jobs").unit(Unit::Seconds);
    //! ```
    pub use fm_raw::{
        Atomic, CounterValue, Fixed, FixedBuffer, FixedSum, GaugeValue, Metadata, MetricError,
        MetricType, Number, TryDefault, TypedMetric, Unit, UnknownValue, atomic, bucket, error,
        fixed, is_label_name, is_snake_case, is_unit_text, metadata, name, number, quantile,
        try_default, types, value,
    };
}

pub mod metrics {
    //! The types of metrics: those whose value is fixed or asked for, and those that threads count with.
    //!
    //! <!-- cut: crates/server/src/main.rt -->
    //! ```rust
    //! let time = Description::new("time", "Time of all jobs").unit(Unit::Seconds);
    //! let waits = Description::new("waits", "Waits by queue and place").labels(&["queue", "place"]);
    //! Ok(Pool {
    //!     jobs: root.counter("jobs", "Jobs that were done")?,
    //!     busy: root.gauge("busy", "Workers that have a job")?,
    //!     time: root.fixed_counter_with(time)?,
    //!     waits: root.histograms_with(waits.bounds(&bounds()).limit(100))?,
    //! })
    //! ```
    pub use fm_metrics::{info, labeled, source, unknown};

    pub mod counter {
        //! Counters: numbers that never fall.
        //!
        //! <!-- cut: crates/server/src/main.rt -->
        //! ```rust
        //! jobs: root.counter("jobs", "Jobs that were done")?,
        //! // ..
        //! pool.jobs.inc();
        //! ```
        pub use fm_metrics::{ConstCounter, Counter, ExemplarCounter};
        pub use fm_raw::CounterValue;
    }

    pub mod gauge {
        //! Gauges: numbers that rise and fall.
        //!
        //! <!-- cut: crates/server/src/main.rt -->
        //! ```rust
        //! let load = root.fixed_gauge("load", "How busy the machine is")?;
        //! // ..
        //! load.set(Fixed::from_millionths(500_000));
        //! ```
        pub use fm_metrics::{ConstGauge, Gauge, InProgress};
        pub use fm_raw::GaugeValue;
    }

    pub mod state_set {
        //! State sets: one of a list of states, which are the values of a type, or texts.
        //!
        //! <!-- cut: crates/calling/src/roots.rt -->
        //! ```rust
        //! pub fn add_phase<H: Waiter>(root: &mut Root<H>) -> anyhow::Result<NamedStates> {
        //!     let phase = NamedStates::new(root.alloc(), &["starting", "serving", "closing"])?;
        //!     Ok(root.keep("phase", "What the server does", phase)?)
        //! }
        //! ```
        pub use fm_metrics::NamedStates;
        pub use fm_metrics::state_set::{ConstStateSet, MAX_STATES, StateSet, StateSetValue};
    }

    pub mod family {
        //! Families: metrics of one type by label set.
        //!
        //! <!-- cut: crates/first_use/src/main.rt -->
        //! ```rust
        //! let requests = root.counters(
        //!     "requests",
        //!     "Requests by method and status",
        //!     &["method", "status"],
        //! )?;
        //! // ..
        //! requests.with(&["GET", "200"], |count| count.inc())?;
        //! ```
        pub use crate::registry::{
            CounterVec, FixedCounterVec, FixedGaugeVec, GaugeHistogramVec, GaugeVec, HistogramVec,
        };
        pub use fm_family::{
            Collected, CollectedMembers, Collector, DefaultFactory, DefaultFamily, Family,
            FamilyCore, LabelHashing, MetricFactory, MetricVec, PairFamily, with_pairs,
        };
        pub use fm_labels::label_values::LabelValues;
    }

    pub mod tally {
        //! Tallies: sums that many workers count together. Also histograms of values that are cut into pieces, each with a
        //! worker.
        //!
        //! <!-- cut: crates/expose_io/src/tally.rt -->
        //! ```rust
        //! let (tally, mut shares) = Tally::<K>::new(alloc, blank, 2)?;
        //! let (Some(two), Some(one)) = (shares.pop(), shares.pop()) else {
        //!     return Err(TallyError::MissingShares);
        //! };
        //! let (one, two) = count_at_once(rt, &tally, one, two)?;
        //! shares.push(one)?;
        //! shares.push(two)?;
        //! tally.close(shares)
        //! ```
        pub use fm_tally::{
            Book, Event, Gate, OpenGate, Reply, Share, Tally, TallyError, TallyKey, observe_all,
            observe_all_gauge,
        };
    }

    pub mod histogram {
        //! Histograms: counts of observed values by bounds.
        //!
        //! <!-- cut: crates/expose_io/src/histogram.rt -->
        //! ```rust
        //! let histogram = Histogram::new(wait, alloc, exponential_buckets(Fixed::ONE, 2, 5)?)?;
        //! for whole in 1..101u8 {
        //!     histogram.observe(Fixed::from_millionths(i64::from(whole) * 1_000_000))?;
        //! }
        //! ```
        pub use fm_histogram::{
            ExemplarHistogram, Histogram, HistogramSnapshot, Timer, TimerError,
        };
        pub use fm_raw::bucket::{
            BUCKET_LABEL, Bound, Bucket, BucketError, DEFAULT_BUCKETS, ExponentialBuckets,
            LinearBuckets, Probe, default_buckets, exponential_buckets, exponential_buckets_range,
            find_bucket, linear_buckets,
        };
    }

    pub mod gauge_histogram {
        //! Gauge histograms: counts of current values by bounds.
        //!
        //! <!-- cut: crates/server/src/main.rt -->
        //! ```rust
        //! sizes: root.gauge_histogram("sizes", "Sizes of what waits")?,
        //! // ..
        //! http.sizes.observe(Fixed::from_millionths(3_000_000))?;
        //! ```
        pub use fm_histogram::{GaugeHistogram, GaugeHistogramSnapshot};
        pub use fm_raw::bucket::{
            BUCKET_LABEL, Bound, Bucket, BucketError, DEFAULT_BUCKETS, ExponentialBuckets,
            LinearBuckets, Probe, default_buckets, exponential_buckets, exponential_buckets_range,
            find_bucket, linear_buckets,
        };
    }

    pub mod summary {
        //! Quantiles of summaries. A summary is a metric of a user's own, which emits its point by `encode_summary`.
        //!
        //! <!-- cut: crates/own_metric/src/summaries.rt -->
        //! ```rust
        //! fn encode(&self, encoder: &mut MetricEncoder) -> Result<(), EncodeError> {
        //!     encoder.encode_summary(self.quantiles.as_slice(), self.seconds, self.requests, None)
        //! }
        //! ```
        pub use fm_raw::quantile::{QUANTILE_LABEL, Quantile};
    }
}

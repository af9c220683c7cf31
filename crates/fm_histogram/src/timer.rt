//! Timers, which measure a duration for a histogram.
ghost use Rattle.std.specs.Prelude.{IfOk, IfErr, Ok};
ghost use Rattle.fm_histogram.specs.Histogram.{is_taken};
ghost use Rattle.fm_histogram.specs.Observing.{ObservesLocked, seconds_of};
ghost use Rattle.fm_histogram.specs.Timers.{IsTimerFault};

use crate::histogram::Histogram;
use fm_raw::MetricError;
use std::io;
use std::sync::Wait;
use std::time::{Clock, Duration, Instant};
use thiserror::Error;

/// Why a timer counted nothing.
///
/// By a clock that tells two times and then fails:
///
/// <!-- cut: tests/unit/src/fm_histogram_timers.rt.in -->
/// ```rust
/// let clock = Told::new([1, 2]);
/// let first = histogram.start_timer(&clock)?;
/// let second = histogram.start_timer(&clock)?;
/// assert!(rt; matches!(second.stop(), Err(TimerError::Clock(_))));
/// ```
#[derive(Debug, Drop, Error)]
pub enum TimerError {
    /// The clock couldn't be read.
    #[error("{0}")]
    Clock(io::Error),
    /// The histogram counted as many values as it can.
    #[error("{0}")]
    Metric(MetricError),
}

/// A duration that is measured for a histogram, from the start until `stop`, or until the timer is dropped: at every way out of a
/// scope, an early return by `?` too. It is counted once, as `Histogram::observe_duration` does; `discard` counts nothing.
///
/// A timer that is dropped counts nothing where `stop` would fail. To count, it waits while another thread has the histogram's
/// lock. It takes no memory.
///
/// By a clock that tells a quarter of a second more each time:
///
/// <!-- cut: tests/unit/src/fm_histogram_timers.rt.in -->
/// ```rust
/// let clock = Quarters::new();
/// let timer = histogram.start_timer(&clock)?;
/// assert_eq!(rt; timer.stop()?, Duration::from_millis(250));
/// assert!(rt; has_one(&histogram, 250));
/// ```
#[must_use = "the time is counted as soon as this is dropped"]
pub struct Timer<'a, H: Wait, C: Clock> {
    histogram: &'a Histogram<H>,
    clock: &'a C,
    started: Instant,
}

impl<H: Wait, C: Clock> Drop for Timer<'_, H, C> {
    fn drop(self) {
        let Timer {
            histogram,
            clock,
            started,
        } = self;
        let _counted = count_since(histogram, clock, started);
    }
}

impl<H: Wait> Histogram<H> {
    /// Starts a timer by this clock. It fails as reading the clock does.
    pub fn start_timer<'a, C: Clock>(&'a self, clock: &'a C) -> io::Result<Timer<'a, H, C>> {
        let started = Instant::now(clock)?;
        Ok(Timer {
            histogram: self,
            clock,
            started,
        })
    }

    /// Calls `f` once, and returns what it returned, with the time that it took by this clock, which is counted as a timer's is.
    /// Where the time can't be counted, the second result says why, as `Timer::stop` does, and nothing was counted: `Clock` also
    /// where the clock can't be read before `f` is called.
    ///
    /// After `f` it waits while another thread has the histogram's lock, so `f` may use the same histogram. It takes no memory.
    pub fn time<R, C: Clock, F: FnOnce() -> R>(
        &self,
        clock: &C,
        f: F,
    ) -> (R, Result<Duration, TimerError>)
        requires { F.IsAlwaysCallable f }
        ensures returned { F.post f result.0 }
        ensures observes { IfOk result.1
            (λ elapsed. ObservesLocked is_taken (seconds_of elapsed) (Ok tt)) }
        ensures fault { IfErr result.1 IsTimerFault }
    {
        let timer = self.start_timer(clock);
        let returned = f();
        match timer {
            Ok(timer) => (returned, timer.stop()),
            Err(fault) => (returned, Err(TimerError::Clock(fault))),
        }
    }
}

impl<H: Wait, C: Clock> Timer<'_, H, C> {
    /// Counts the time since the start, as `Histogram::observe_duration` does, and returns it: no time, where the clock went back. It
    /// fails with `Clock` as reading the clock does, and with `CountFull`, and then counts nothing.
    pub fn stop(self) -> Result<Duration, TimerError>
        ensures observes { IfOk result
            (λ elapsed. ObservesLocked is_taken (seconds_of elapsed) (Ok tt)) }
        ensures fault { IfErr result IsTimerFault }
    {
        let Timer {
            histogram,
            clock,
            started,
        } = self;
        count_since(histogram, clock, started)
    }

    /// Ends the timer, and counts nothing.
    pub fn discard(self) {
        let Timer {
            histogram: _,
            clock: _,
            started: _,
        } = self;
    }
}

// Counts the time since the start, and returns it.
fn count_since<H: Wait, C: Clock>(
    histogram: &Histogram<H>,
    clock: &C,
    started: Instant,
) -> Result<Duration, TimerError>
    ensures observes { IfOk result
        (λ elapsed. ObservesLocked is_taken (seconds_of elapsed) (Ok tt)) }
    ensures fault { IfErr result IsTimerFault }
{
    let elapsed = match started.elapsed(clock) {
        Ok(elapsed) => elapsed,
        Err(fault) => return Err(TimerError::Clock(fault)),
    };
    match histogram.observe_duration(elapsed) {
        Ok(()) => Ok(elapsed),
        Err(fault) => Err(TimerError::Metric(fault)),
    }
}

//! Metrics of the process, their registration, and the numbers that they are set to.

use crate::metrics::counter::Counter;
use crate::metrics::gauge::Gauge;
use crate::process::files::{open_files, process_start, process_stat};
use crate::process::stat::ProcessStat;
use crate::raw::{Fixed, Unit};
use crate::registry::{Description, RegistryError, Root, Waiter};
use fm_encoder::EncodeMetric;
use std::io::{self, ErrorKind};
use std::rt::Files;

/// Handles of the metrics of the process. A clone shares each number with them, as the root does; cloning takes memory. A number that
/// couldn't be read when the metrics were registered has no metric, so that none is shown as a false zero.
///
/// <!-- cut: crates/calling/src/process.rt -->
/// ```rust
/// let _unread = process.read(rt);
/// let mut body = Vec::new(rt.alloc());
/// root.encode(&mut body)?;
/// ```
#[derive(Clone, Drop)]
pub struct ProcessMetrics {
    /// The seconds of processor time, its own and the system's for it.
    pub cpu_seconds: Option<Counter<Fixed>>,
    /// The bytes of its memory that are present.
    pub resident_bytes: Option<Gauge>,
    /// The bytes of memory that it can address.
    pub virtual_bytes: Option<Gauge>,
    /// How many files it has open, with the folder in which `read` counts them.
    pub open_files: Option<Gauge>,
    /// The seconds from 1970 to its start, which stay as they are.
    pub start_seconds: Option<Gauge<Fixed>>,
}

// Sets a gauge, if there is one.
fn set(gauge: &Option<Gauge>, value: i64) {
    if let Some(gauge) = gauge {
        gauge.set(value);
    }
}

impl ProcessMetrics {
    // Sets what `/proc/self/stat` tells. A total that another thread has set to a later one stays.
    fn set_stat(&self, stat: ProcessStat) {
        if let Some(counter) = &self.cpu_seconds {
            let _later = counter.set(stat.cpu_seconds);
        }
        set(&self.resident_bytes, stat.resident_bytes);
        set(&self.virtual_bytes, stat.virtual_bytes);
    }

    /// Sets the numbers to what `/proc` tells now. A program calls it before each document.
    ///
    /// It opens `/proc/self/stat` and the folder `/proc/self/fd`, takes memory for what is in them, and waits for no lock. If one of
    /// them can't be read, or has another form (`InvalidData`), or memory runs out (`OutOfMemory`), its numbers stay as they were, those
    /// of the other are set all the same, and the error is returned: that of the file if both fail.
    pub fn read<R: Files + AllocGlobal + Clone + Drop>(&self, rt: &R) -> io::Result<()> {
        let stat = process_stat(rt).map(|stat| self.set_stat(stat));
        let files = open_files(rt).map(|count| set(&self.open_files, count));
        stat?;
        files
    }
}

// What the files told first, where they could be read.
#[derive(Drop)]
struct FirstNumbers {
    stat: Option<ProcessStat>,
    open_files: Option<i64>,
    start: Option<Fixed>,
}

// A number that was read, or None if it can't be. Only want of memory is refused.
fn known<T: Drop>(read: io::Result<T>) -> Result<Option<T>, RegistryError> {
    match read {
        Ok(number) => Ok(Some(number)),
        Err(error) if error.kind() == ErrorKind::OutOfMemory => Err(RegistryError::Memory),
        Err(_) => Ok(None),
    }
}

// Reads the numbers for the first time.
fn read_first<R: Files + AllocGlobal + Clone + Drop>(
    rt: &R,
) -> Result<FirstNumbers, RegistryError> {
    let stat = known(process_stat(rt))?;
    let open_files = known(open_files(rt))?;
    let start = match &stat {
        Some(stat) => known(process_start(rt, stat))?,
        None => None,
    };
    Ok(FirstNumbers {
        stat,
        open_files,
        start,
    })
}

fn in_seconds<'a>(name: &'a str, help: &'a str) -> Description<'a> {
    Description::new(name, help).unit(Unit::Seconds)
}

fn in_bytes<'a>(name: &'a str, help: &'a str) -> Description<'a> {
    Description::new(name, help).unit(Unit::Bytes)
}

// Registers a metric for each of these numbers, and sets it.
fn register_numbers<H: Waiter, X: EncodeMetric>(
    root: &mut Root<H, X>,
    first: &FirstNumbers,
) -> Result<ProcessMetrics, RegistryError> {
    let mut metrics = ProcessMetrics {
        cpu_seconds: None,
        resident_bytes: None,
        virtual_bytes: None,
        open_files: None,
        start_seconds: None,
    };
    if let Some(stat) = first.stat {
        let cpu = root.fixed_counter_with(in_seconds("process_cpu", "Processor time"))?;
        metrics.cpu_seconds = Some(cpu);
        let name = "process_resident_memory";
        let resident = root.gauge_with(in_bytes(name, "Memory that is present"))?;
        metrics.resident_bytes = Some(resident);
        let name = "process_virtual_memory";
        let addressed = root.gauge_with(in_bytes(name, "Memory that can be addressed"))?;
        metrics.virtual_bytes = Some(addressed);
        metrics.set_stat(stat);
    }
    if let Some(count) = first.open_files {
        metrics.open_files = Some(root.gauge("process_open_fds", "Open files")?);
        set(&metrics.open_files, count);
    }
    if let Some(seconds) = first.start {
        let name = "process_start_time";
        let start = root.fixed_gauge_with(in_seconds(name, "Start since 1970"))?;
        start.set(seconds);
        metrics.start_seconds = Some(start);
    }
    Ok(metrics)
}

/// Registers the processor time, the memory, the open files and the start of the process in the root itself, also where a namespace
/// or a subsystem was entered, under the names that other libraries give them: `process_cpu_seconds_total`,
/// `process_resident_memory_bytes`, `process_virtual_memory_bytes`, `process_open_fds`, `process_start_time_seconds`. Only a namespace
/// of the root's builder stands before them.
///
/// It reads the files of `/proc` first, and leaves out what they don't tell. It fails with `Memory` if memory runs out while it reads,
/// and then nothing is registered; else it has the errors of `Root::register`, and what was registered before an error stays.
pub fn register_process<R: Files + AllocGlobal + Clone + Drop, H: Waiter, X: EncodeMetric>(
    root: &mut Root<H, X>,
    rt: &R,
) -> Result<ProcessMetrics, RegistryError> {
    let first = read_first(rt)?;
    let path = root.go_to_top();
    let registered = register_numbers(root, &first);
    root.go_to(path);
    registered
}

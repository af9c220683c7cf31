//! The files of `/proc` of the process that runs, and of the machine (Linux, proc(5)).

use crate::process::stat::{ProcessStat, boot_seconds, start_seconds};
use crate::raw::Fixed;
use std::fs;
use std::io::{self, ErrorKind};
use std::rt::Files;

// What a file tells, or `InvalidData` if it doesn't tell it.
fn told<T>(number: Option<T>) -> io::Result<T> {
    number.ok_or(io::Error::from(ErrorKind::InvalidData))
}

// The text of a file. Linux cuts a program's name after fifteen bytes, maybe within a character: what is no text becomes U+FFFD.
fn text_of<R: Files + AllocGlobal>(rt: &R, path: &str) -> io::Result<String> {
    let bytes = fs::read(rt, path)?;
    Ok(String::from_utf8_lossy(rt.alloc(), bytes.as_slice())?)
}

/// What `/proc/self/stat` tells now.
pub(crate) fn process_stat<R: Files + AllocGlobal>(rt: &R) -> io::Result<ProcessStat> {
    told(ProcessStat::parse(text_of(rt, "/proc/self/stat")?.as_str()))
}

/// The seconds from 1970 to the start of the process, by what `/proc/stat` tells of the machine.
pub(crate) fn process_start<R: Files + AllocGlobal>(
    rt: &R,
    stat: &ProcessStat,
) -> io::Result<Fixed> {
    let boot = told(boot_seconds(text_of(rt, "/proc/stat")?.as_str()))?;
    told(start_seconds(boot, stat.start_ticks))
}

/// How many files the process has open, with the folder that is read here.
pub(crate) fn open_files<R: Files + AllocGlobal + Clone + Drop>(rt: &R) -> io::Result<i64> {
    let mut count = 0i64;
    for entry in fs::read_dir(rt, "/proc/self/fd")? {
        let _open = entry?;
        count = count.saturating_add(1);
    }
    Ok(count)
}

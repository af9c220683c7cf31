//! What the files of `/proc` tell of a process, from their texts (Linux, proc(5)).
ghost use Rattle.std.specs.Prelude.{◌≡◌, ℕ, ◌+◌, ◌*◌, pos, IfSome};
ghost use Rattle.fastmetrics.specs.inside.ProcessTexts.{IsAfterName, IsDecimal, IsNumberAt, IsBootTime};

use crate::raw::Fixed;

// On x86-64 Linux counts time in hundredths of a second, and memory in pages of this many bytes.
const TICKS_A_SECOND: u64 = 100;

const MILLIONTHS_A_TICK: u64 = 10_000;

const BYTES_A_PAGE: u64 = 4096;

/// What `/proc/self/stat` tells of the process.
#[derive(Clone, Copy)]
pub(crate) struct ProcessStat {
    /// The seconds of processor time that it took, its own and the system's for it.
    pub(crate) cpu_seconds: Fixed,
    /// Its start after that of the machine, in hundredths of a second.
    pub(crate) start_ticks: u64,
    /// The bytes of memory that it can address.
    pub(crate) virtual_bytes: i64,
    /// The bytes of it that are present.
    pub(crate) resident_bytes: i64,
}

// A number that may have a sign, if it is in range.
fn signed(number: u64) -> Option<i64>
    ensures { IfSome result (λ same. same ≡ pos number) }
{
    match i64::try_from(number) {
        Ok(same) => Some(same),
        Err(_) => None,
    }
}

// So many hundredths of a second, in seconds, if they are in range.
fn seconds_of(ticks: u64) -> Option<Fixed>
    ensures { IfSome result (λ seconds. seconds ≡ pos (ticks * 10000)) }
{
    let millionths = signed(ticks.checked_mul(MILLIONTHS_A_TICK)?)?;
    Some(Fixed::from_millionths(millionths))
}

// The number that these digits are.
fn number_of(digits: &str) -> Option<u64>
    ensures { IfSome result (IsDecimal digits.now) }
{
    digits.parse::<u64>().ok()
}

// The number that is the piece with this index, of those between blanks.
fn number_at(text: &str, index: usize) -> Option<u64>
    ensures { IfSome result (IsNumberAt text.now index) }
{
    number_of(text.split(' ').nth(index)?)
}

// So many times the number that is the piece with this index, if it is in range.
fn times_at(text: &str, index: usize, times: u64) -> Option<i64>
    ensures { IfSome result (λ product. (number : ℕ)
        × IsNumberAt text.now index number × (product ≡ pos (number * times))) }
{
    signed(number_at(text, index)?.checked_mul(times)?)
}

// The sum of the times that are the pieces with these indices, in seconds, if it is in range.
fn seconds_at(text: &str, index: usize, other: usize) -> Option<Fixed>
    ensures { IfSome result (λ seconds. (ticks more : ℕ)
        × IsNumberAt text.now index ticks
        × IsNumberAt text.now other more
        × (seconds ≡ pos ((ticks + more) * 10000))) }
{
    seconds_of(number_at(text, index)?.checked_add(number_at(text, other)?)?)
}

// What comes after the program's name, which may have blanks and parentheses.
fn after_name(stat: &str) -> Option<&str>
    ensures { IfSome result (λ after. IsAfterName stat.now after.now) }
{
    let (_, after) = stat.rsplit_once(')')?;
    Some(after)
}

impl ProcessStat {
    ghost use Rattle.fastmetrics.specs.inside.ProcessStats.{TellsStat};

    /// What this text tells, or None if it has another form or a number is out of range.
    pub(crate) fn parse(stat: &str) -> Option<ProcessStat>
        ensures { IfSome result (TellsStat stat.now) }
    {
        let after = after_name(stat)?;
        Some(ProcessStat {
            cpu_seconds: seconds_at(after, 12, 13)?,
            start_ticks: number_at(after, 20)?,
            virtual_bytes: times_at(after, 21, 1)?,
            resident_bytes: times_at(after, 22, BYTES_A_PAGE)?,
        })
    }
}

/// The seconds from 1970 to the start of the machine, as the text of `/proc/stat` tells them, or None if it doesn't.
pub(crate) fn boot_seconds(text: &str) -> Option<u64>
    ensures { IfSome result (IsBootTime text.now) }
{
    let (_, rest) = text.split_once("\nbtime ")?;
    let (digits, _) = rest.split_once('\n')?;
    number_of(digits)
}

/// The seconds from 1970 to the start of the process, by those to the start of the machine, if they are in range.
pub(crate) fn start_seconds(boot_seconds: u64, start_ticks: u64) -> Option<Fixed>
    ensures { IfSome result
        (λ seconds. seconds ≡ pos ((boot_seconds * 100 + start_ticks) * 10000)) }
{
    let boot_ticks = boot_seconds.checked_mul(TICKS_A_SECOND)?;
    seconds_of(boot_ticks.checked_add(start_ticks)?)
}

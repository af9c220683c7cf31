//! The metric of the scene of a sum that two workers count.
ghost use Rattle.std.specs.Prelude.{◌≡◌};

use crate::output::Fault;
use fastmetrics::metrics::counter::ConstCounter;
use fastmetrics::metrics::tally::{Share, Tally, TallyError, TallyKey};
use std::alloc::Global;
use std::marker::Brand;
use std::sync::Wait;
use std::sync::ledger::Blank;
use std::thread;
use std::thread::Threads;

// One worker counts its jobs, from 1 to 100.
fn count_to_hundred<K: TallyKey, W: Wait>(
    wait: &W,
    tally: &Tally<K>,
    mut share: Share<K>,
) -> Result<Share<K>, TallyError> {
    for jobs in 1..101 {
        tally.add(wait, &mut share, jobs)?;
    }
    Ok(share)
}

// Two workers count at once, each through its share, and give their shares back.
fn count_at_once<K: TallyKey + Send + Sync, R: Threads + Wait + Sync>(
    rt: &R,
    tally: &Tally<K>,
    one: Share<K>,
    two: Share<K>,
) -> Result<(Share<K>, Share<K>), TallyError> {
    thread::scope(
        thread::scope_env(),
        rt,
        move |scope| -> Result<(Share<K>, Share<K>), TallyError> {
            let Ok(first) = scope.spawn(move || count_to_hundred(rt, tally, one)) else {
                return Err(TallyError::SpawnFailed);
            };
            let Ok(second) = scope.spawn(move || count_to_hundred(rt, tally, two)) else {
                return Err(TallyError::SpawnFailed);
            };
            let one = first.join(rt)?;
            let two = second.join(rt)?;
            Ok((one, two))
        },
    )
}

// The sum of what two workers count.
fn counted_jobs<K: TallyKey + Send + Sync, R: Threads + Wait + Sync>(
    rt: &R,
    alloc: Global,
    blank: Blank,
) -> Result<u64, TallyError>
    requires name { blank.name ≡ K.name }
    requires parts { blank.parts ≡ K.parts }
    requires two_and_one { blank.parts ≡ 3 }
{
    let (tally, mut shares) = Tally::<K>::new(alloc, blank, 2)?;
    let (Some(two), Some(one)) = (shares.pop(), shares.pop()) else {
        return Err(TallyError::MissingShares);
    };
    let (one, two) = count_at_once(rt, &tally, one, two)?;
    shares.push(one)?;
    shares.push(two)?;
    tally.close(shares)
}

/// The counter of jobs. It waits for two workers, which count under one lock.
pub fn jobs<R: Threads + Wait + Sync>(rt: &R, alloc: Global) -> Result<Box<ConstCounter>, Fault> {
    let total = counted_jobs::<Brand, R>(rt, alloc, Blank::new(3))?;
    Ok(Box::new(alloc, ConstCounter::new(total))?)
}

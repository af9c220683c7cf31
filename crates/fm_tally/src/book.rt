//! The sum of a tally, as plain data.
ghost use Rattle.std.specs.Prelude.{◌≡◌, ◌≢◌, ℕ, ◌+◌, ◌^◌, ◌<◌, ◌≤◌, ◌↔◌, List, All, IfOk, OnOk, OnErr, IfErr, Err, length, take, sum_by, slice_index_or};
ghost use Rattle.fm_tally.specs.Events.{Accepted, accept, accepted, reply, replies, sum_of, amount, event_value};
ghost use Rattle.fm_tally.specs.declared.book.Event.{Event};
ghost use Rattle.fm_tally.specs.declared.book.Reply.{Reply};

use crate::error::TallyError;
use std::alloc::Global;
use std::marker::Model;

/// What a caller of a tally does.
///
/// <!-- cut: tests/scripts/src/tallies.rt.in -->
/// ```rust
/// Some(("read", who)) => Ok(Event::Read { who: whole(who)? }),
/// Some((who, number)) => Ok(Event::Add {
///     who: whole(who)?,
///     v: whole(number)?,
/// }),
/// ```
#[derive(Clone, Copy, Debug, PartialEq, Eq)]
pub enum Event {
    /// The caller `who` adds the value `v`.
    Add { who: usize, v: u64 },
    /// The caller `who` reads the sum.
    Read { who: usize },
}

/// What a tally replies to an event.
///
/// <!-- cut: tests/scripts/src/tallies.rt.in -->
/// ```rust
/// let told = match reply {
///     Reply::Added => String::from_str(alloc, "added ")?,
///     Reply::Full => String::from_str(alloc, "full ")?,
///     Reply::Sum(sum) => format!(in alloc; "sum {sum} ")?,
/// };
/// ```
#[derive(Clone, Copy, Debug, PartialEq, Eq)]
pub enum Reply {
    /// The value was added.
    Added,
    /// The sum would have passed 2^64 - 1, and the value was not added.
    Full,
    /// The sum of the values that were added.
    Sum(u64),
}

/// The sum of the values that were added so far. It never passes 2^64 - 1.
///
/// <!-- cut: tests/unit/src/fm_tally_book.rt.in -->
/// ```rust
/// let events = vec![in alloc; Event::Add { who: 0, v: 1 }; 70_000]?;
/// let mut book = Book::new();
/// let replies = book.run(alloc, events.as_slice())?;
/// assert!(rt; replies.iter().all(|reply| *reply == Reply::Added));
/// assert!(rt; replies.len() == 70_000 && book.read() == 70_000);
/// ```
#[derive(Debug, Drop)]
pub struct Book {
    sum: u64,
}

impl Model for Book {
    ghost use Rattle.std.specs.Prelude.{ℕ};

    ghost Value = { ℕ };

    ghost view = { λ b. b.sum };
}

impl Book {
    /// A book with the sum 0.
    pub fn new() -> Book
        ensures { result ≡ 0 }
    {
        Book { sum: 0 }
    }

    /// Adds a value. Fails with `Full` if the sum would pass 2^64 - 1, and then the sum is as before. The book doesn't
    /// keep who added it. It takes no memory.
    pub fn add(&mut self, _who: usize, v: u64) -> Result<(), TallyError>
        ensures added { OnOk result (self.new ≡ self.old + v) }
        ensures full { (result ≡ Err TallyError.Full) ↔ (2 ^ 64 ≤ self.old + v) }
        ensures only_full { IfErr result (λ e. e ≡ TallyError.Full) }
        ensures kept { OnErr result (self.new ≡ self.old) }
    {
        match self.sum.checked_add(v) {
            Some(sum) => {
                self.sum = sum;
                Ok(())
            }
            None => Err(TallyError::Full),
        }
    }

    /// The sum of the values that were added.
    pub fn read(&self) -> u64
        ensures { result ≡ self.now }
    {
        self.sum
    }

    /// Carries out all events in order, and returns the reply to each. The memory for the replies is allocated first:
    /// if that fails, it returns `Memory` and changes nothing.
    pub fn run(&mut self, alloc: Global, events: &[Event]) -> Result<Vec<Reply>, TallyError>
        // The replies are those to the events in turn, and the sum grows by the values that were accepted.
        ensures replies { IfOk result (λ r. r.items ≡ replies self.old events.now) }
        ensures sum { OnOk result (self.new ≡ self.old + sum_of (accepted self.old events.now)) }
        // A caller who reads is told at least what that caller added before.
        ensures own { IfOk result (λ r. (k who : ℕ) (d : Reply) (e : Event)
            → k < length events.now
            → slice_index_or events.now k e ≡ Event.Read who
            → (s : ℕ) × (slice_index_or r.items k d ≡ Reply.Sum s)
            × (amount who (accepted self.old (take k events.now)) ≤ s)) }
        // Where all values fit, none is refused, and the sum grows by all.
        ensures none_refused { IfOk result (λ r. self.old + sum_by event_value events.now < 2 ^ 64
            → All (λ x. x ≢ Reply.Full) r.items) }
        ensures whole_sum { OnOk result
            (self.old + sum_by event_value events.now < 2 ^ 64
            → self.new ≡ self.old + sum_by event_value events.now) }
        // It fails with `Memory` alone, and then nothing changes.
        ensures only_memory { IfErr result (λ e. e ≡ TallyError.Memory) }
        ensures kept { OnErr result (self.new ≡ self.old) }
    {
        let mut replies = Vec::with_capacity(alloc, events.len())?;
        for event in events {
            let reply = self.make(*event);
            replies.push_reserved(reply);
        }
        Ok(replies)
    }

    // Carries out one event, whatever was accepted before it.
    fn make(&mut self, event: Event) -> Reply
        ensures reply { (start : ℕ) (before : List Accepted) → self.old ≡ start + sum_of before
            → result ≡ reply start before event }
        ensures sum { (start : ℕ) (before : List Accepted) → self.old ≡ start + sum_of before
            → self.new ≡ start + sum_of (accept start before event) }
    {
        match event {
            Event::Add { who, v } => match self.add(who, v) {
                Ok(()) => Reply::Added,
                Err(_) => Reply::Full,
            },
            Event::Read { who: _ } => Reply::Sum(self.read()),
        }
    }
}

/// A book with the sum 0.
impl Default for Book {
    ghost is_default = { λ b. b ≡ 0 };

    fn default() -> Book {
        Book::new()
    }
}

//! A tally with its lock, and the shares through which workers add to it.
ghost use Rattle.std.specs.Prelude.{◌≡◌, ◌≢◌, ℕ, ◌+◌, ◌^◌, ◌≤◌, ◌↔◌, Err, IfOk, IfErr, OnOk, OnErr, All, vec_len, ◌⊎◌};
ghost use Rattle.fm_tally.specs.Shares.{Counted, total_of, unused};

use crate::book::Book;
use crate::error::TallyError;
use std::alloc::Global;
use std::marker::{Brand, Model};
use std::sync::ledger::{Blank, Ledger};
use std::sync::{Mutex, Wait, ledger};

/// Which tally a share is of. A function that makes a tally has it as a type parameter, and is called with `Brand`.
///
/// <!-- cut: crates/calling/src/pool.rt -->
/// ```rust
/// let (tally, mut shares) = Tally::<K>::new(alloc, blank, batches.len() + 1)?;
/// // ..
/// count_all::<Brand, _>(rt, alloc, Blank::new(6), &batches)
/// ```
pub trait TallyKey: Ledger {}

impl TallyKey for Brand {}

// What the lock protects. Its type says that whenever the lock is free, the book's sum is the sum of the amounts of
// all shares of this tally: a ledger's total is the sum of its tokens, each share has one, and the one kept here is 0.
#[derive(Drop)]
struct Protected<K: TallyKey> {
    book: Book,
    account: ledger::Book<K>,
    own: ledger::Share<K>,
    ghost agrees: { book ≡ account.total },
    ghost own_part: { own.parts ≡ 1 },
    ghost own_nothing: { own.amount ≡ 0 },
}

/// One worker's share of a tally: the amount that was added through it, and the last total that it was told.
///
/// It can't be cloned. A share that is dropped is missing when the tally is closed.
///
/// <!-- cut: crates/expose_io/src/tally.rt -->
/// ```rust
/// for jobs in 1..101 {
///     tally.add(wait, &mut share, jobs)?;
/// }
/// ```
#[derive(Drop)]
pub struct Share<K: TallyKey> {
    amount: u64,
    seen: u64,
    token: ledger::Share<K>,
}

impl<K: TallyKey> Model for Share<K> {
    ghost Value = { Counted };

    ghost view = { λ s. record { amount = s.amount; seen = s.seen } };

    ghost invariant = { λ s. (s.token.parts ≡ 1) × (s.token.amount ≡ s.amount) };
}

impl<K: TallyKey> Share<K> {
    /// The sum of the values that were added through this share.
    pub fn amount(&self) -> u64
        ensures { result ≡ self.now.amount }
    {
        self.amount
    }

    /// The last total that this share was told, and 0 before the first one.
    pub fn seen(&self) -> u64
        ensures { result ≡ self.now.seen }
    {
        self.seen
    }
}

impl<K: TallyKey> Protected<K> {
    fn add(&mut self, share: &mut Share<K>, v: u64) -> Result<(), TallyError>
        ensures added { OnOk result (self.new.book ≡ self.old.book + v) }
        ensures amount { OnOk result (share.new.amount ≡ share.old.amount + v) }
        ensures seen { share.new.seen ≡ share.old.seen }
        ensures kept { OnErr result ((share.new ≡ share.old) × (self.new.book ≡ self.old.book)) }
        ensures full { OnErr result (2 ^ 64 ≤ self.old.book + v) }
        ensures only_full { IfErr result (λ e. e ≡ TallyError.Full) }
    {
        let Protected { book, account, .. } = self;
        book.add(0, v)?;
        account.add(&mut share.token, v);
        account.audit(&mut share.token);
        share.amount += v;
        Ok(())
    }

    fn total(&mut self, share: &mut Share<K>) -> u64
        ensures own { share.old.amount ≤ result }
        ensures before { share.old.seen ≤ result }
        ensures book { self.old.book ≤ result }
        ensures greater { (result ≡ self.old.book) ⊎ (result ≡ share.old.seen) }
        ensures seen { share.new.seen ≡ result }
        ensures amount { share.new.amount ≡ share.old.amount }
        ensures same_book { self.new.book ≡ self.old.book }
    {
        self.account.audit(&mut share.token);
        let total = self.book.read().max(share.seen);
        share.seen = total;
        total
    }
}

/// A sum that several workers add to, each through a share. It never passes 2^64 - 1.
///
/// Any number of threads may borrow it. Contracts see it as the number of its shares.
///
/// <!-- cut: crates/calling/src/pool.rt -->
/// ```rust
/// let (tally, mut shares) = Tally::<K>::new(alloc, blank, batches.len() + 1)?;
/// let Some(watch) = shares.pop() else {
///     return Err(TallyError::MissingShares);
/// };
/// let (done, watch) = run_all(rt, &tally, shares, watch, batches)?;
/// let so_far = watch.seen();
/// let mut shares = gather(alloc, done)?;
/// shares.push(watch)?;
/// let total = tally.close(shares)?;
/// ```
#[derive(Drop)]
pub struct Tally<K: TallyKey> {
    shares: usize,
    protected: Mutex<Protected<K>>,
}

impl<K: TallyKey> Model for Tally<K> {
    ghost Value = { ℕ };

    ghost view = { λ t. t.shares };

    ghost invariant = { λ t. K.parts ≡ t.shares + 1 };
}

impl<K: TallyKey> Tally<K> {
    /// A tally with the sum 0, and its `n` shares, which have the amount 0 and were told no total. The blank has one
    /// part for each share and one for the tally. Fails with `Memory` if memory runs out.
    pub fn new(
        alloc: Global,
        blank: Blank,
        n: usize,
    ) -> Result<(Tally<K>, Vec<Share<K>>), TallyError>
        // The blank is that of this tally, and has one part for each share and one for the tally.
        requires name { blank.name ≡ K.name }
        requires parts { blank.parts ≡ K.parts }
        requires one_more { blank.parts ≡ n + 1 }
        // There are `n` shares, and none of them was used.
        ensures shares { IfOk result (λ r. r.0 ≡ n) }
        ensures count { IfOk result (λ r. vec_len r.1 ≡ n) }
        ensures unused { IfOk result (λ r. All (λ s. s ≡ unused) r.1.items) }
        // Its only error is `Memory`.
        ensures only_memory { IfErr result (λ e. e ≡ TallyError.Memory) }
    {
        let mut shares = Vec::with_capacity(alloc, n)?;
        let (account, mut own) = blank.open::<K>();
        for _i in 0..n {
            let token = own.split_off(1, 0);
            shares.push_reserved(Share {
                amount: 0,
                seen: 0,
                token,
            });
        }
        let protected = Mutex::new(Protected {
            book: Book::new(),
            account,
            own,
        });
        Ok((
            Tally {
                shares: n,
                protected,
            },
            shares,
        ))
    }

    /// Adds a value to the tally through this share. Fails with `Full` if the tally's sum would pass 2^64 - 1; then
    /// neither the sum nor the share changes. It waits while another thread has the lock, and takes no memory.
    pub fn add<R: Wait>(&self, rt: &R, share: &mut Share<K>, v: u64) -> Result<(), TallyError>
        ensures amount { OnOk result (share.new.amount ≡ share.old.amount + v) }
        ensures seen { share.new.seen ≡ share.old.seen }
        ensures full { OnErr result (share.new ≡ share.old) }
        ensures only_full { IfErr result (λ e. e ≡ TallyError.Full) }
    {
        self.protected.lock(rt).add(share, v)
    }

    /// Returns the sum of what all workers have added so far: at least this share's amount, and at least each total
    /// that this share was told before. The share keeps it as `seen`. It waits while another thread has the lock, and
    /// takes no memory.
    pub fn total<R: Wait>(&self, rt: &R, share: &mut Share<K>) -> u64
        ensures own { share.old.amount ≤ result }
        ensures before { share.old.seen ≤ result }
        ensures seen { share.new.seen ≡ result }
        ensures amount { share.new.amount ≡ share.old.amount }
    {
        self.protected.lock(rt).total(share)
    }

    /// Returns the sum of the amounts of all shares, once all workers have returned theirs. No share was told a greater
    /// total.
    ///
    /// Fails with `MissingShares` if not all shares of the tally are given, and otherwise with `Overrun` if a share was
    /// told a total greater than the sum. The tally and the shares are dropped in every case. It takes no memory and
    /// does not wait.
    pub fn close(self, shares: Vec<Share<K>>) -> Result<u64, TallyError>
        ensures missing { (result ≡ Err TallyError.MissingShares) ↔ (vec_len shares ≢ self) }
        ensures overrun { (result ≡ Err TallyError.Overrun)
            ↔ ((vec_len shares ≡ self)
            × ¬ (All (λ s. s.seen ≤ total_of shares.items) shares.items)) }
        ensures sum { IfOk result
            (λ sum. (sum ≡ total_of shares.items) × All (λ s. s.seen ≤ sum) shares.items) }
        ensures only { IfErr result
            (λ e. (e ≡ TallyError.MissingShares) ⊎ (e ≡ TallyError.Overrun)) }
    {
        let Tally {
            shares: wanted,
            protected,
        } = self;
        if shares.len() != wanted {
            return Err(TallyError::MissingShares);
        }
        let Protected {
            book,
            mut account,
            mut own,
        } = protected.into_inner();
        let most = gather(&mut own, shares);
        account.audit(&mut own);
        let sum = book.read();
        if most > sum {
            Err(TallyError::Overrun)
        } else {
            Ok(sum)
        }
    }
}

// Joins the parts and amounts of all shares in one token, and returns the greatest total that a share was told.
fn gather<K: TallyKey>(own: &mut ledger::Share<K>, shares: Vec<Share<K>>) -> u64
    ensures parts { own.new.parts ≡ own.old.parts + vec_len shares }
    ensures amount { own.new.amount ≡ own.old.amount + total_of shares.items }
    ensures most { All (λ s. s.seen ≤ result) shares.items }
    ensures least { (bound : ℕ) → All (λ s. s.seen ≤ bound) shares.items → result ≤ bound }
{
    let mut most = 0;
    for share in shares {
        let Share {
            amount: _,
            seen,
            token,
        } = share;
        own.merge(token);
        most = most.max(seen);
    }
    most
}

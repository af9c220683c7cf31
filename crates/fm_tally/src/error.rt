//! Why a call on a tally fails.
ghost use Rattle.std.specs.Prelude.{◌≡◌};
ghost use Rattle.fm_tally.specs.TallyErrors.{error_number};
ghost use Rattle.fm_tally.specs.declared.error.TallyError.TheVariants.{Memory};

use std::alloc::{AllocError, AllocFailed};
use thiserror::Error;

/// Why a call on a tally failed.
///
/// <!-- cut: crates/expose_io/src/tally.rt -->
/// ```rust
/// let Ok(first) = scope.spawn(move || count_to_hundred(rt, tally, one)) else {
///     return Err(TallyError::SpawnFailed);
/// };
/// ```
#[derive(Clone, Copy, Debug, PartialEq, Eq, Drop, Error)]
pub enum TallyError {
    /// Memory could not be allocated.
    #[error("Memory")]
    Memory,
    /// The sum would pass 2^64 - 1; the value was not added.
    #[error("Full")]
    Full,
    /// `close` was not given all shares of the tally.
    #[error("MissingShares")]
    MissingShares,
    /// The gate refused the piece with this index, counted from 0.
    #[error("GateRefused")]
    GateRefused { piece: usize },
    /// The pieces together have more values than a `u64` counts.
    #[error("CountFull")]
    CountFull,
    /// The system could not start a thread for a worker.
    #[error("SpawnFailed")]
    SpawnFailed,
    /// A share was told a total that is greater than the sum at the end.
    #[error("Overrun")]
    Overrun,
}

impl TallyError {
    /// The error's number, from 1 to 7.
    pub fn number(self) -> u8
        ensures { result ≡ error_number self }
    {
        match self {
            TallyError::Memory => 1,
            TallyError::Full => 2,
            TallyError::MissingShares => 3,
            TallyError::GateRefused { .. } => 4,
            TallyError::CountFull => 5,
            TallyError::SpawnFailed => 6,
            TallyError::Overrun => 7,
        }
    }
}

/// A failed allocation becomes `Memory`.
impl From<AllocError> for TallyError {
    ghost from_gives = { λ _ e. e ≡ Memory };

    fn from(_: AllocError) -> TallyError {
        TallyError::Memory
    }
}

/// A failed allocation becomes `Memory`. The value that could not be stored is dropped.
impl<T: Drop> From<AllocFailed<T>> for TallyError {
    ghost from_gives = { λ _ e. e ≡ Memory };

    fn from(_: AllocFailed<T>) -> TallyError {
        TallyError::Memory
    }
}

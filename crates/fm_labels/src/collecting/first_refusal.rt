//! The first refusal of an encoder.
ghost use Rattle.std.specs.Prelude.{◌≡◌, None, Some, Err, MatchResult};
ghost use Rattle.fm_labels.specs.Refusals.{own_refusal, IsOutcome};

use fm_raw::EncodeError;

/// The first error that an encoder returned, if it returned one. From then on the encoder stays as it is, and each of its calls
/// returns this error.
#[derive(Drop)]
pub struct FirstRefusal {
    /// The error.
    pub error: Option<EncodeError>,
}

impl FirstRefusal {
    /// Keeps the error, and returns it.
    pub fn refuse<T>(&mut self, error: EncodeError) -> Result<T, EncodeError>
        ensures error { self.new.error ≡ Some error }
        ensures returned { result ≡ Err error }
    {
        self.error = Some(error);
        Err(error)
    }

    /// Fails with the first refusal, if there is one.
    pub fn check(&self) -> Result<(), EncodeError>
        ensures { MatchResult result
            (λ _. self.now.error ≡ None)
            (λ error. self.now.error ≡ Some error) }
    {
        match self.error {
            Some(error) => Err(error),
            None => Ok(()),
        }
    }

    /// The first refusal, after the visited source returned `visited`.
    pub fn outcome(&self, visited: Result<(), EncodeError>) -> Result<(), EncodeError>
        ensures { IsOutcome self.now.error visited result }
    {
        if let Some(error) = self.error {
            return Err(error);
        }
        match visited {
            Ok(()) => Ok(()),
            Err(error) => Err(own_refusal(error)),
        }
    }
}

/// What an encoder makes of an error of the source that it visited.
pub fn own_refusal(error: EncodeError) -> EncodeError
    ensures { result ≡ own_refusal error }
{
    match error {
        EncodeError::Memory => EncodeError::Memory,
        _ => EncodeError::MetricFault,
    }
}

/// What a call returned that can only fail for want of memory: if it failed, an encoder refuses with `Memory`.
#[macro_export]
macro_rules! keep {
    ($refused:expr, $returned:expr) => {
        match $returned {
            Ok(value) => Ok(value),
            Err(std::alloc::AllocError) => $refused.refuse(EncodeError::Memory),
        }
    };
}

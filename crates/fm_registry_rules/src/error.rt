//! Why a registry refuses a call.
ghost use Rattle.std.specs.Prelude.{◌≡◌};
ghost use Rattle.std.specs.Option.{option_map};
ghost use Rattle.fm_registry_rules.specs.RegistryErrors.{error_number, error_text};
ghost use Rattle.fm_registry_rules.specs.declared.error.RegistryError.TheVariants.{Memory};

use std::alloc::{AllocError, AllocFailed};
use thiserror::Error;

/// Why a registry refuses a call. Each kind except `Memory` and `NoRandomKeys` has the text that caused it.
///
/// <!-- cut: crates/calling/src/errors.rt -->
/// ```rust
/// fn make_jobs<H: Waiter>(root: &mut Root<H>) -> Result<Counter, RegistryError> {
/// // ..
/// let made = make_jobs(&mut root).map_err(|error| anyhow!("{error:?}"));
/// ```
#[derive(Clone, Debug, PartialEq, Eq, Drop, Error)]
pub enum RegistryError {
    /// The name of a metric is not in snake case.
    #[error("The name of metric '{name}' should be snake_case")]
    InvalidNameFormat { name: String },
    /// A metric whose type can't have a unit was given one.
    #[error("The type of metric '{name}' must have an empty unit string")]
    MustHaveAnEmptyUnitString { name: String },
    /// The text of a unit is not one word of lowercase letters and digits.
    #[error("The format of unit '{unit}' must be lowercase")]
    OtherUnitFormatMustBeLowercase { unit: String },
    /// The registry already has a metric with this name, type and unit.
    #[error("The metric '{name}' to be registered already exists in the registry")]
    AlreadyExists { name: String },
    /// Memory could not be allocated.
    #[error("Memory")]
    Memory,
    /// The namespace of a root is not in snake case.
    #[error("InvalidNamespace")]
    InvalidNamespace { namespace: String },
    /// The name of a subsystem is not in snake case.
    #[error("InvalidSubsystemName")]
    InvalidSubsystemName { name: String },
    /// The name of a label is not a letter or an underscore, followed by letters, digits and underscores.
    #[error("InvalidLabelName")]
    InvalidLabelName { name: String },
    /// A label of a root has the name of an earlier one.
    #[error("DuplicateLabel")]
    DuplicateLabel { name: String },
    /// A name on the path of a call is not that of a subsystem.
    #[error("NoSuchSubsystem")]
    NoSuchSubsystem { name: String },
    /// The subsystem would be more than 64 registries below the root.
    #[error("TooDeep")]
    TooDeep { name: String },
    /// The name is that of another metric here, where a unit is part of the name (`name_unit`); or a metric's or
    /// another subsystem's name would begin with a subsystem's name and an underscore.
    #[error("NameTaken")]
    NameTaken { name: String },
    /// A label has a name that the metric's type reserves: `le` in both kinds of histogram, `quantile` in a summary.
    #[error("ReservedLabel")]
    ReservedLabel { name: String },
    /// The system gave no random keys for the hashes of label values.
    #[error("NoRandomKeys")]
    NoRandomKeys,
}

impl RegistryError {
    /// The error's number, from 1 to 14.
    pub fn number(&self) -> u8
        ensures { result ≡ error_number self.now }
    {
        match self {
            RegistryError::InvalidNameFormat { .. } => 1,
            RegistryError::MustHaveAnEmptyUnitString { .. } => 2,
            RegistryError::OtherUnitFormatMustBeLowercase { .. } => 3,
            RegistryError::AlreadyExists { .. } => 4,
            RegistryError::Memory => 5,
            RegistryError::InvalidNamespace { .. } => 6,
            RegistryError::InvalidSubsystemName { .. } => 7,
            RegistryError::InvalidLabelName { .. } => 8,
            RegistryError::DuplicateLabel { .. } => 9,
            RegistryError::NoSuchSubsystem { .. } => 10,
            RegistryError::TooDeep { .. } => 11,
            RegistryError::NameTaken { .. } => 12,
            RegistryError::ReservedLabel { .. } => 13,
            RegistryError::NoRandomKeys => 14,
        }
    }

    /// The name, or the unit, that was refused, which most kinds don't display; of a label the label's own name. `None` for `Memory` and
    /// `NoRandomKeys`.
    pub fn refused_text(&self) -> Option<&str>
        ensures { option_map (λ text. text.now) result ≡ error_text self.now }
    {
        match self {
            RegistryError::InvalidNameFormat { name }
            | RegistryError::MustHaveAnEmptyUnitString { name }
            | RegistryError::OtherUnitFormatMustBeLowercase { unit: name }
            | RegistryError::AlreadyExists { name }
            | RegistryError::InvalidNamespace { namespace: name }
            | RegistryError::InvalidSubsystemName { name }
            | RegistryError::InvalidLabelName { name }
            | RegistryError::DuplicateLabel { name }
            | RegistryError::NoSuchSubsystem { name }
            | RegistryError::TooDeep { name }
            | RegistryError::NameTaken { name }
            | RegistryError::ReservedLabel { name } => Some(name.as_str()),
            RegistryError::Memory | RegistryError::NoRandomKeys => None,
        }
    }
}

impl From<AllocError> for RegistryError {
    ghost from_gives = { λ _ e. e ≡ Memory };

    fn from(_: AllocError) -> RegistryError {
        RegistryError::Memory
    }
}

impl<T: Drop> From<AllocFailed<T>> for RegistryError {
    ghost from_gives = { λ _ e. e ≡ Memory };

    fn from(_: AllocFailed<T>) -> RegistryError {
        RegistryError::Memory
    }
}

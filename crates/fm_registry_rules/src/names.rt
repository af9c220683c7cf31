//! The names in one registry: which metric has which tail, and which names begin with a subsystem's.
ghost use Rattle.std.specs.Prelude.{◌≡◌, IfOk, false};
ghost use Rattle.std.specs.String.{string_bytes};
ghost use Rattle.fm_registry_rules.specs.Taken.{is_below as below_test};
ghost use Rattle.fm_registry_rules.specs.inside.Names.{metadata_tail};

use fm_raw::Metadata;
use std::alloc::{AllocError, Global};

/// Whether the text begins with the name and an underscore.
pub fn is_below(name: &str, text: &str) -> bool
    ensures { result ≡ below_test name.now text.now }
{
    match text.strip_prefix(name) {
        Some(rest) => rest.starts_with("_"),
        None => false,
    }
}

/// A metric's metadata with its tail, which alone is compared and hashed. The tail is the name, or the name, an
/// underscore and the unit.
#[derive_where(PartialEq, Eq, Hash)]
pub struct Tailed {
    tail: String,
    #[derive_where(skip(EqHashOrd))]
    metadata: Metadata,
    pub ghost fits: { string_bytes tail ≡ metadata_tail metadata },
}

impl Drop for Tailed {
    fn drop(self) {
        let Tailed {
            tail: _,
            metadata: _,
        } = self;
    }
}

impl Tailed {
    /// Computes the tail of the metadata. Fails if memory runs out.
    pub fn new(alloc: Global, metadata: Metadata) -> Result<Tailed, AllocError>
        ensures { IfOk result (λ key. key.metadata ≡ metadata) }
    {
        let mut tail = String::from_str(alloc, metadata.name())?;
        if let Some(unit) = metadata.unit() {
            tail.push_str("_")?;
            tail.push_str(unit.as_str())?;
        }
        Ok(Tailed { tail, metadata })
    }

    /// The tail.
    pub fn tail(&self) -> &str
        ensures { result.now ≡ string_bytes self.now.tail }
    {
        self.tail.as_str()
    }

    /// The metadata.
    pub fn metadata(&self) -> &Metadata
        ensures { result.now ≡ self.now.metadata }
    {
        &self.metadata
    }

    /// Drops the other metadata and returns the metric's name.
    pub fn into_name(self) -> String
        ensures { result ≡ self.metadata.name }
    {
        let Tailed { tail: _, metadata } = self;
        metadata.into_name()
    }
}

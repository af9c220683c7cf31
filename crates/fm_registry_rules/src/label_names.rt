//! The names of the labels of a family.
ghost use Rattle.std.specs.Prelude.{◌≡◌, IfOk, length, map};
ghost use Rattle.std.specs.String.{string_bytes};
ghost use Rattle.fm_registry_rules.specs.Texts.{has_text};
ghost use Rattle.fm_registry_rules.specs.Answer.{refusal_of, label_refusal_after};
ghost use Rattle.fm_registry_rules.specs.LabelNames.{shown_texts, AreLabelNames, names_refusal, IsOrMemory};

use crate::RegistryError;
use fm_raw::is_label_name;
use std::alloc::Global;
use std::marker::Model;

// Whether one of the names is this one.
fn has_name(names: &[String], name: &str) -> bool
    ensures { result ≡ has_text (map string_bytes names.now) name.now }
{
    for other in names {
        if other.as_str() == name {
            return true;
        }
    }
    false
}

// Tests a name that comes after these: it is a label name, and none of them is equal to it.
fn test_name(alloc: Global, before: &[String], name: &str) -> Result<(), RegistryError>
    ensures { IsOrMemory (refusal_of result) (label_refusal_after (map string_bytes before.now) name.now) }
{
    if !is_label_name(name) {
        let name = String::from_str(alloc, name)?;
        return Err(RegistryError::InvalidLabelName { name });
    }
    if has_name(before, name) {
        let name = String::from_str(alloc, name)?;
        return Err(RegistryError::DuplicateLabel { name });
    }
    Ok(())
}

// Copies of the names, if none of them is refused.
fn tested_names(alloc: Global, names: &[&str]) -> Result<Vec<String>, RegistryError>
    ensures answer { IsOrMemory (refusal_of result) (names_refusal (shown_texts names.now)) }
    ensures copied { IfOk result (λ copies. map string_bytes copies.items ≡ shown_texts names.now) }
    ensures names { IfOk result (λ _. AreLabelNames (shown_texts names.now)) }
{
    let mut tested = Vec::new(alloc);
    for name in names {
        test_name(alloc, &tested, name)?;
        tested.push(String::from_str(alloc, name)?)?;
    }
    Ok(tested)
}

/// The names of a family's labels, in order: each is a label name, and no two are equal.
pub struct LabelNames {
    names: Vec<String>,
}

impl Drop for LabelNames {
    fn drop(self) {
        let LabelNames { names: _ } = self;
    }
}

impl Model for LabelNames {
    ghost use Rattle.std.specs.Prelude.{List, map};
    ghost use Rattle.std.specs.String.{string_bytes};
    ghost use Rattle.fm_registry_rules.specs.Texts.{Text};
    ghost use Rattle.fm_registry_rules.specs.LabelNames.{AreLabelNames};

    ghost Value = { List Text };

    ghost view = { λ n. map string_bytes n.names.items };

    ghost invariant = { λ n. AreLabelNames (map string_bytes n.names.items) };
}

impl LabelNames {
    /// Copies of these names. The first that is no label name (`InvalidLabelName`) or that was there before (`DuplicateLabel`) is
    /// the error's. Fails with `Memory` if memory runs out.
    pub fn new(alloc: Global, names: &[&str]) -> Result<LabelNames, RegistryError>
        ensures answer { IsOrMemory (refusal_of result) (names_refusal (shown_texts names.now)) }
        ensures copied { IfOk result (λ copies. copies ≡ shown_texts names.now) }
    {
        let names = tested_names(alloc, names)?;
        Ok(LabelNames { names })
    }

    /// The names.
    pub fn as_slice(&self) -> &[String]
        ensures names { map string_bytes result.now ≡ self.now }
        ensures valid { AreLabelNames self.now }
    {
        self.names.as_slice()
    }

    /// How many there are.
    pub fn count(&self) -> usize
        ensures { result ≡ length self.now }
    {
        self.names.len()
    }

    /// Whether one of them is this name.
    pub fn has(&self, name: &str) -> bool
        ensures { result ≡ has_text self.now name.now }
    {
        has_name(self.as_slice(), name)
    }
}

//! The values of a member's labels, by which a family finds the member.
ghost use Rattle.std.specs.Prelude.{◌≡◌, ◌++◌, ◌∷◌, ◌≤◌, ◌+◌, ◌-◌, ◌*◌, ◌/◌, [], drop, length, replicate, IfOk, IfSome, IfNone, MatchOption, IsTrue, ◌↔◌, option_copied, slice_get, None, ◌⊎◌};
ghost use Rattle.std.proofs.Common.{ap};
ghost use Rattle.std.specs.List.{AllByRecursion};
ghost use Rattle.std.specs.Str.{IsUtf8};
ghost use Rattle.std.specs.Cmp.{on_equiv, partial_equiv_from_equiv};
ghost use Rattle.std.specs.Cmp.Lexicographic.{nat_list_eq_equiv};
ghost use Rattle.fm_grammar.specs.Exposition.{Text};
ghost use Rattle.fm_labels.specs.LabelValues.{shown_texts, ended, joined, values_eq, values_in, writes_of, rounded};
ghost use Rattle.fm_labels.specs.inside.JoinedValues.{IsBlock, IsOnlyValue};

mod hashing;
mod short;

pub use hashing::hash_values;
pub use short::ShortValues;
use std::alloc::{AllocError, Global};
use std::marker::Model;

// The byte after each value: no text has it.
const END: u8 = 255;

/// How many bytes of values, each with a byte after it, a hasher is fed at once.
pub const BLOCK: usize = 64;

// How many bytes the joined values take, or the greatest number if they are more.
fn joined_size(values: &[&str]) -> usize {
    let mut size = 0usize;
    for value in values {
        size = size.saturating_add(value.len()).saturating_add(1);
    }
    size
}

// The values one after the other, each with the byte 255 after it.
fn joined_values(alloc: Global, values: &[&str]) -> Result<Vec<u8>, AllocError>
    ensures joined { IfOk result (λ bytes. bytes.items ≡ joined (shown_texts values.now)) }
    ensures texts { IfOk result (λ _. AllByRecursion IsUtf8 (shown_texts values.now)) }
{
    let mut bytes = Vec::with_capacity(alloc, joined_size(values))?;
    for value in values {
        bytes.extend_from_slice(value.as_bytes())?;
        bytes.push(END)?;
    }
    Ok(bytes)
}

/// The first of joined values and the rest, if there is one.
pub fn split_value(bytes: &[u8]) -> Option<(&[u8], &[u8])>
    ensures { MatchOption result (values_in bytes.now ≡ [])
        (λ p. (bytes.now ≡ ended p.0.now ++ p.1.now) × (values_in bytes.now ≡ p.0.now ∷ values_in p.1.now)) }
{
    for (i, byte) in bytes.iter().enumerate() {
        if *byte == END {
            return Some((&bytes[..i], &bytes[i + 1..]));
        }
    }
    None
}

/// The same, for which the last value needs no search: its end is that of the bytes.
#[inline(always)]
pub fn next_value(bytes: &[u8], is_last: bool) -> Option<(&[u8], &[u8])>
    requires { IsTrue is_last → IsOnlyValue bytes.now }
    ensures { MatchOption result (values_in bytes.now ≡ [])
        (λ p. (bytes.now ≡ ended p.0.now ++ p.1.now) × (values_in bytes.now ≡ p.0.now ∷ values_in p.1.now)) }
{
    if is_last {
        let end = bytes.len() - 1;
        return Some((&bytes[..end], &bytes[end + 1..]));
    }
    split_value(bytes)
}

// The text of a value.
fn text_of(value: &[u8]) -> &str
    requires { IsUtf8 value.now }
    ensures { result.now ≡ value.now }
{
    match str::from_utf8(value) {
        Ok(text) => text,
        Err(_) => unreachable!(),
    }
}

/// Values of labels, in the order of their names.
///
/// <!-- cut: tests/unit/src/fm_family_by_label_names.rt.in -->
/// ```rust
/// let load = root.gauges("load", "H", &["host", "core"])?;
/// // ..
/// load.retain(|values: &LabelValues, gauge| {
///     // ..
///     values.get(0) == Some("b") && gauge.get() != 5
/// });
/// ```
pub struct LabelValues {
    bytes: Vec<u8>,
}

impl Drop for LabelValues {
    fn drop(self) {
        let LabelValues { bytes: _ } = self;
    }
}

impl Model for LabelValues {
    ghost use Rattle.std.specs.Prelude.{List};
    ghost use Rattle.fm_grammar.specs.Exposition.{Text};
    ghost use Rattle.fm_labels.specs.LabelValues.{values_in};
    ghost use Rattle.fm_labels.specs.inside.JoinedValues.{AreJoined};

    ghost Value = { List Text };

    ghost view = { λ v. values_in v.bytes.items };

    ghost invariant = { λ v. AreJoined v.bytes.items };
}

// What is left of joined values after this one, if they begin with it.
fn after_value<'a>(bytes: &'a [u8], value: &[u8]) -> Option<&'a [u8]>
    ensures { MatchOption result ((rest : Text) → bytes.now ≡ ended value.now ++ rest → ⊥)
        (λ rest. bytes.now ≡ ended value.now ++ rest.now) }
{
    let end = value.len();
    if bytes.len() <= end {
        return None;
    }
    if bytes[end] != END {
        return None;
    }
    if &bytes[..end] != value {
        return None;
    }
    Some(&bytes[end + 1..])
}

// Whether these values, joined, are the bytes.
fn are_joined(bytes: &[u8], values: &[&str]) -> bool
    ensures { IsTrue result ↔ (joined (shown_texts values.now) ≡ bytes.now) }
{
    let mut rest = bytes;
    for value in values {
        match after_value(rest, value.as_bytes()) {
            Some(after) => rest = after,
            None => return false,
        }
    }
    rest.is_empty()
}

impl LabelValues {
    /// Copies of these values. Fails if memory runs out.
    pub fn new(alloc: Global, values: &[&str]) -> Result<LabelValues, AllocError>
        ensures { IfOk result (λ kept. kept ≡ shown_texts values.now) }
    {
        let bytes = joined_values(alloc, values)?;
        Ok(LabelValues { bytes })
    }

    /// Whether they are these.
    pub fn are(&self, values: &[&str]) -> bool
        ensures { result ≡ values_eq (shown_texts values.now) self.now }
    {
        are_joined(self.as_bytes(), values)
    }

    /// The values, joined.
    pub fn as_bytes(&self) -> &[u8]
        ensures joined { result.now ≡ joined self.now }
        ensures values { values_in result.now ≡ self.now }
        ensures texts { AllByRecursion IsUtf8 self.now }
    {
        self.bytes.as_slice()
    }

    /// The value at an index, or `None` if there are fewer.
    pub fn get(&self, index: usize) -> Option<&str>
        ensures { option_copied result ≡ slice_get self.now index }
    {
        let mut rest = self.as_bytes();
        for _ in 0..index {
            match split_value(rest) {
                Some((_, after)) => rest = after,
                None => return None,
            }
        }
        match split_value(rest) {
            Some((value, _)) => Some(text_of(value)),
            None => None,
        }
    }
}

impl PartialEq for LabelValues {
    ghost eq = { values_eq };

    ghost laws = { partial_equiv_from_equiv (on_equiv joined nat_list_eq_equiv) };

    fn eq(&self, other: &LabelValues) -> bool {
        self.as_bytes() == other.as_bytes()
    }
}

impl Eq for LabelValues {
    ghost laws = { on_equiv joined nat_list_eq_equiv };
}

//! How the values of labels are hashed.
ghost use Rattle.std.proofs.Common.{ap};
ghost use Rattle.std.specs.Str.{bytes_eq};
ghost use Rattle.std.specs.Cmp.Lexicographic.{bytes_decides, nat_list_eq_equiv};
ghost use Rattle.std.specs.Hash.FoldHasher.{initial};
ghost use Rattle.fm_labels.specs.LabelValues.{shown_texts, shown_same, joined, values_eq, writes_of};
ghost use Rattle.fm_family.specs.declared.vec.hashing.LabelHashing.TheVariants.{Keyed, Fixed};
ghost use Rattle.fm_family.specs.declared.vec.hashing.LabelHasher.TheVariants as hasher;

use fm_labels::label_values::{LabelValues, ShortValues, hash_values};
use indexmap::Equivalent;
use std::hash::{BuildHasher, DefaultHasher, FoldHasher, Hash, Hasher, RandomState};

/// How a family hashes the values of labels.
///
/// <!-- cut: tests/unit/src/fm_family_by_label_names.rt.in -->
/// ```rust
/// let description = Description::new("pages", "H").labels(&labels);
/// let pages = root.counters_with(if is_fixed {
///     description.fixed_hasher()
/// } else {
///     description
/// })?;
/// ```
#[derive(Clone, Copy)]
pub enum LabelHashing {
    /// With keys that the system gave at random: nobody outside can choose many values with the same hash, which would make look-ups
    /// slow (hash flooding).
    Keyed(RandomState),
    /// From a fixed state, which is faster: only where the program alone chooses the values.
    Fixed,
}

/// Hashes the values of labels.
#[derive(Clone, Copy)]
pub enum LabelHasher {
    /// With random keys.
    Keyed(DefaultHasher),
    /// From a fixed state.
    Fixed(FoldHasher),
}

impl Hasher for LabelHasher {
    ghost write = { λ h bytes. elim h [
      | hasher.Keyed x ↦ hasher.Keyed (⟦<DefaultHasher as Hasher>⟧.write x bytes)
      | hasher.Fixed x ↦ hasher.Fixed (⟦<FoldHasher as Hasher>⟧.write x bytes)
    ] };

    ghost finish = { λ h. elim h [
      | hasher.Keyed x ↦ ⟦<DefaultHasher as Hasher>⟧.finish x
      | hasher.Fixed x ↦ ⟦<FoldHasher as Hasher>⟧.finish x
    ] };

    fn write(&mut self, bytes: &[u8]) {
        match self {
            LabelHasher::Keyed(hasher) => hasher.write(bytes),
            LabelHasher::Fixed(hasher) => hasher.write(bytes),
        }
    }

    fn finish(&self) -> u64 {
        match self {
            LabelHasher::Keyed(hasher) => hasher.finish(),
            LabelHasher::Fixed(hasher) => hasher.finish(),
        }
    }
}

impl BuildHasher for LabelHashing {
    type Hasher = LabelHasher;

    ghost build_hasher = { λ h. elim h [
      | Keyed state ↦ hasher.Keyed (⟦<RandomState as BuildHasher>⟧.build_hasher state)
      | Fixed ↦ hasher.Fixed initial
    ] };

    fn build_hasher(&self) -> LabelHasher {
        match self {
            LabelHashing::Keyed(state) => LabelHasher::Keyed(state.build_hasher()),
            LabelHashing::Fixed => LabelHasher::Fixed(FoldHasher::default()),
        }
    }
}

/// Values by which `LabelValues` are looked up.
#[derive(Clone, Copy, PartialEq, Eq)]
pub struct SoughtValues<'a> {
    /// The values.
    pub values: &'a [&'a str],
}

impl Hash for SoughtValues<'_> {
    ghost hash_input = { λ s. writes_of (joined (shown_texts s.values.now)) };

    ghost respects_eq = { λ x y same. ap (λ t. writes_of (joined t)) (shown_same x.values.now y.values.now same) };

    fn hash<H: Hasher>(&self, state: &mut H) {
        hash_values(self.values, state);
    }
}

impl Equivalent<LabelValues> for SoughtValues<'_> {
    ghost equivalent = { λ s. values_eq (shown_texts s.values.now) };

    ghost respects_hash = { λ s k same. ap writes_of ((bytes_decides (joined (shown_texts s.values.now)) (joined k)).0 same) };

    ghost respects_eq = { λ s x y. nat_list_eq_equiv.congr (joined (shown_texts s.values.now)) (joined x) (joined y) };

    fn equivalent(&self, key: &LabelValues) -> bool {
        key.are(self.values)
    }
}

/// Short values by which `LabelValues` are looked up.
#[derive(Clone, Copy, PartialEq, Eq)]
pub struct SoughtBlock<'a> {
    /// The values.
    pub values: &'a ShortValues,
}

impl Hash for SoughtBlock<'_> {
    ghost hash_input = { λ s. writes_of s.values.now };

    ghost respects_eq = { λ x y same. ap writes_of ((bytes_decides x.values.now y.values.now).0 same) };

    fn hash<H: Hasher>(&self, state: &mut H) {
        self.values.hash(state);
    }
}

impl Equivalent<LabelValues> for SoughtBlock<'_> {
    ghost equivalent = { λ s k. bytes_eq s.values.now (joined k) };

    ghost respects_hash = { λ s k same. ap writes_of ((bytes_decides s.values.now (joined k)).0 same) };

    ghost respects_eq = { λ s x y. nat_list_eq_equiv.congr s.values.now (joined x) (joined y) };

    fn equivalent(&self, key: &LabelValues) -> bool {
        self.values.are(key)
    }
}

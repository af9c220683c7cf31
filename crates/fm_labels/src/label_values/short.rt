// Short values of labels, in one block: they are hashed and compared as one piece.
ghost use Rattle.std.specs.Prelude.{◌≡◌, ◌<◌, [], length, MatchOption};
ghost use Rattle.std.specs.Str.{bytes_eq};
ghost use Rattle.std.proofs.Common.{ap};
ghost use Rattle.std.specs.Cmp.{partial_equiv_from_equiv};
ghost use Rattle.std.specs.Cmp.Lexicographic.{bytes_decides, nat_list_eq_equiv};
ghost use Rattle.fm_labels.specs.LabelValues.{shown_texts, joined, writes_of};

use super::LabelValues;
use super::hashing::{feed_block, fill};
use std::hash::{Hash, Hasher};
use std::marker::Model;

/// Values of labels that take at most 64 bytes, each with a byte after it.
pub struct ShortValues {
    block: [u8; 64],
    // How many bytes of the block they take. The others are zeros.
    used: usize,
}

impl Drop for ShortValues {
    fn drop(self) {
        let ShortValues { block: _, used: _ } = self;
    }
}

impl Model for ShortValues {
    ghost use Rattle.std.specs.Prelude.{take};
    ghost use Rattle.fm_grammar.specs.Exposition.{Text};
    ghost use Rattle.fm_labels.specs.inside.JoinedValues.{AreInBlock};

    ghost Value = { Text };

    ghost view = { λ v. take v.used v.block };

    ghost invariant = { λ v. AreInBlock v.used v.block };
}

impl ShortValues {
    /// These values, or `None` if they take more bytes. It takes no memory.
    pub fn new(values: &[&str]) -> Option<ShortValues>
        ensures { MatchOption result (64 < length (joined (shown_texts values.now)))
            (λ short. short ≡ joined (shown_texts values.now)) }
    {
        let mut block = [0; 64];
        match fill(&mut block, values) {
            Some(used) => Some(ShortValues { block, used }),
            None => None,
        }
    }

    // The values, joined.
    fn as_bytes(&self) -> &[u8]
        ensures { result.now ≡ self.now }
    {
        &self.block[..self.used]
    }

    /// Whether they are those.
    pub fn are(&self, values: &LabelValues) -> bool
        ensures { result ≡ bytes_eq self.now (joined values.now) }
    {
        self.as_bytes() == values.as_bytes()
    }
}

impl PartialEq for ShortValues {
    ghost eq = { bytes_eq };

    ghost laws = { partial_equiv_from_equiv nat_list_eq_equiv };

    fn eq(&self, other: &ShortValues) -> bool {
        self.as_bytes() == other.as_bytes()
    }
}

impl Eq for ShortValues {
    ghost laws = { nat_list_eq_equiv };
}

impl Hash for ShortValues {
    ghost hash_input = { writes_of };

    ghost respects_eq = { λ x y same. ap writes_of ((bytes_decides x y).0 same) };

    fn hash<H: Hasher>(&self, state: &mut H) {
        feed_block(&self.block, self.used, state);
    }
}

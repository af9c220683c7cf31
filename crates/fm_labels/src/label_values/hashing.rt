// What a hasher is fed for the values of labels: short ones in one block, since most hashers take a block faster than its parts.
ghost use Rattle.std.specs.Prelude.{◌≡◌, ◌++◌, ◌<◌, ◌≤◌, ◌+◌, [], length, take, fold, IfSome, IfNone};
ghost use Rattle.std.specs.List.{AllByRecursion, flat_map};
ghost use Rattle.std.specs.Hash as hash;
ghost use Rattle.std.specs.Str.{IsUtf8};
ghost use Rattle.std.proofs.Common.{ap};
ghost use Rattle.std.specs.Cmp.Lexicographic.{bytes_decides};
ghost use Rattle.fm_grammar.specs.Exposition.{Text};
ghost use Rattle.fm_labels.specs.LabelValues.{shown_texts, ended, joined, in_block, values_in, writes_of, rounded};
ghost use Rattle.fm_labels.specs.inside.JoinedValues.{IsBlock};

use super::{BLOCK, END, LabelValues, split_value};
use std::hash::{Hash, Hasher};

// Puts a value with its end into a block, of which this many bytes are used, and returns how many are used then; or `None` if the
// block has no room.
fn put_value(block: &mut [u8; 64], used: usize, value: &[u8]) -> Option<usize>
    requires { used ≤ 64 }
    ensures put { IfSome result (λ end. (text : Text) → length text ≡ used → IsBlock text block.old
        → (end ≡ length (text ++ ended value.now)) × IsBlock (text ++ ended value.now) block.new) }
    ensures full { IfNone result (64 < used + (length value.now + 1)) }
{
    let len = value.len();
    if len >= BLOCK - used {
        return None;
    }
    block[used..used + len].copy_from_slice(value);
    block[used + len] = END;
    Some(used + len + 1)
}

// Puts values into an empty block, and returns how many bytes are used then; or `None` if the block has no room for them.
pub(super) fn fill(block: &mut [u8; 64], values: &[&str]) -> Option<usize>
    requires { IsBlock [] block.old }
    ensures filled { IfSome result (λ used. (used ≡ length (joined (shown_texts values.now)))
        × IsBlock (joined (shown_texts values.now)) block.new) }
    ensures full { IfNone result (64 < length (joined (shown_texts values.now))) }
{
    let mut used = 0;
    for value in values {
        match put_value(block, used, value.as_bytes()) {
            Some(end) => used = end,
            None => return None,
        }
    }
    Some(used)
}

// A block that begins with these bytes.
fn block_of(bytes: &[u8]) -> [u8; 64]
    requires { length bytes.now ≤ 64 }
    ensures { result ≡ in_block bytes.now }
{
    let mut block = [0; 64];
    block[..bytes.len()].copy_from_slice(bytes);
    block
}

// Feeds the used bytes of a block, with zeros up to a multiple of eight.
pub(super) fn feed_block<H: Hasher>(block: &[u8; 64], used: usize, state: &mut H)
    requires { used ≤ 64 }
    ensures { state.new ≡ H.write state.old (take (rounded used) block.now) }
{
    state.write(&block[..8 * ((used + 7) / 8)]);
}

// Feeds a value and its end.
fn feed_value<H: Hasher>(value: &[u8], state: &mut H)
    ensures { state.new ≡ fold H.write state.old (hash.str value.now) }
{
    state.write(value);
    state.write_u8(END);
}

// Feeds values one by one.
fn feed_each<H: Hasher>(values: &[&str], state: &mut H)
    ensures fed { state.new ≡ fold H.write state.old (flat_map hash.str (shown_texts values.now)) }
    ensures texts { AllByRecursion IsUtf8 (shown_texts values.now) }
{
    for value in values {
        feed_value(value.as_bytes(), state);
    }
}

// Feeds joined values one by one.
fn feed_parts<H: Hasher>(bytes: &[u8], state: &mut H)
    ensures { state.new ≡ fold H.write state.old (flat_map hash.str (values_in bytes.now)) }
{
    let mut rest = bytes;
    while let Some((value, after)) = split_value(rest) {
        feed_value(value, state);
        rest = after;
    }
}

impl Hash for LabelValues {
    ghost hash_input = { λ v. writes_of (joined v) };

    ghost respects_eq = { λ x y same. ap writes_of ((bytes_decides (joined x) (joined y)).0 same) };

    fn hash<H: Hasher>(&self, state: &mut H) {
        let bytes = self.as_bytes();
        if bytes.len() > BLOCK {
            return feed_parts(bytes, state);
        }
        feed_block(&block_of(bytes), bytes.len(), state);
    }
}

/// Feeds a hasher what `LabelValues` of these values feed it.
pub fn hash_values<H: Hasher>(values: &[&str], state: &mut H)
    ensures { state.new ≡ fold H.write state.old (writes_of (joined (shown_texts values.now))) }
{
    let mut block = [0; 64];
    match fill(&mut block, values) {
        Some(used) => feed_block(&block, used, state),
        None => feed_each(values, state),
    }
}

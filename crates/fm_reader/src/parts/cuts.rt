//! Cuts a text after its first line.
ghost use Rattle.std.specs.Prelude.{◌≡◌, ◌+◌, ◌≤◌, not, length, drop, map};
ghost use Rattle.std.specs.List.{prefix_len};
ghost use Rattle.std.specs.Simd.Lanes.{mask_l};
ghost use Rattle.fm_reader.specs.inside.Cuts.{is_feed, IsLineCut};

use std::simd::prelude::*;

// A bit for each byte that is a line feed.
#[inline(always)]
fn feeds(bytes: u8x16) -> u64
    ensures { result ≡ mask_l (map is_feed bytes) }
{
    bytes.simd_eq(u8x16::splat(b'\n')).to_bitmask()
}

// The first line feed from an index on, or the length. It looks at one byte after another.
#[inline(always)]
fn line_end_slowly(text: &[u8], from: usize) -> usize
    requires { from ≤ length text.now }
    ensures { result ≡ from + prefix_len (λ x. not (is_feed x)) (drop from text.now) }
{
    let mut at = from;
    while at < text.len() && text[at] != b'\n' {
        at += 1;
    }
    at
}

// The index of the first line feed, or the length.
#[inline(always)]
fn line_end(text: &[u8]) -> usize
    ensures value { result ≡ prefix_len (λ x. not (is_feed x)) text.now }
    ensures bound { result ≤ length text.now }
{
    let mut at = 0;
    while text.len() - at >= 16 {
        let found = feeds(u8x16::from_slice(&text[at..]));
        if found != 0 {
            return at + found.trailing_zeros() as usize;
        }
        at += 16;
    }
    line_end_slowly(text, at)
}

/// The first line and the text after its line feed, or None if there is no line feed.
#[inline(always)]
pub(crate) fn split_line(text: &str) -> Option<(&str, &str)>
    ensures { IsLineCut text.now result }
{
    let bytes = text.as_bytes();
    let end = line_end(bytes);
    if end == bytes.len() {
        return None;
    }
    let (front, _) = text.split_at(end);
    let (_, after) = text.split_at(end + 1);
    Some((front, after))
}

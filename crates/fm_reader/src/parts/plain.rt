//! How far a text is written without an escape.
ghost use Rattle.std.specs.Prelude.{◌≡◌, ◌+◌, ◌≤◌, length, drop, map};
ghost use Rattle.std.specs.List.{prefix_len};
ghost use Rattle.std.specs.Simd.Lanes.{mask_l};
ghost use Rattle.fm_text.specs.inside.Plain.{is_special};
ghost use Rattle.fm_reader.specs.inside.Plain.{is_plain};

use std::simd::prelude::*;

// A bit for each byte that is a line feed, a quote or a backslash.
#[inline(always)]
fn specials(bytes: u8x16) -> u64
    ensures { result ≡ mask_l (map is_special bytes) }
{
    (bytes.simd_eq(u8x16::splat(b'\n'))
        | bytes.simd_eq(u8x16::splat(b'"'))
        | bytes.simd_eq(u8x16::splat(b'\\'))).to_bitmask()
}

// The first such byte from an index on, or the length. It looks at one byte after another.
#[inline(always)]
fn plain_end_slowly(text: &[u8], from: usize) -> usize
    requires { from ≤ length text.now }
    ensures { result ≡ from + prefix_len is_plain (drop from text.now) }
{
    let mut at = from;
    while at < text.len() && text[at] != b'\n' && text[at] != b'"' && text[at] != b'\\' {
        at += 1;
    }
    at
}

/// The index of the first line feed, quote or backslash, or the length.
#[inline(always)]
pub(crate) fn plain_end(text: &[u8]) -> usize
    ensures value { result ≡ prefix_len is_plain text.now }
    ensures bound { result ≤ length text.now }
{
    let mut at = 0;
    while text.len() - at >= 16 {
        let found = specials(u8x16::from_slice(&text[at..]));
        if found != 0 {
            return at + found.trailing_zeros() as usize;
        }
        at += 16;
    }
    plain_end_slowly(text, at)
}

// Whether a text is written without an escape. Two loads that overlap test a short text.
ghost use Rattle.std.specs.Prelude.{◌≡◌, ◌⊎◌, ◌+◌, ◌≤◌, [], ◌∷◌, length, IsTrue};
ghost use Rattle.std.specs.Bool.{OnTrue};
ghost use Rattle.fm_grammar.specs.Spelling.{escape, escaped};
ghost use Rattle.fm_text.specs.inside.Plain.{IsPlainBetween};

use std::simd::prelude::*;

/// Whether a byte is written with an escape.
#[tactic(auto, unfolding(fm_grammar::specs::Spelling::escape))]
#[inline(always)]
pub fn has_escape(byte: u8) -> bool
    ensures { IsTrue result ⊎ (escape byte ≡ byte ∷ []) }
{
    (byte == b'\n') | (byte == b'"') | (byte == b'\\')
}

// Whether four bytes are written as they are.
#[inline(always)]
fn plain_4(raw: &[u8], at: usize) -> bool
    requires { at + 4 ≤ length raw.now }
    ensures { OnTrue result (IsPlainBetween raw.now at (at + 4)) }
{
    let bytes = u8x4::from_slice(&raw[at..]);
    (bytes.simd_eq(u8x4::splat(b'\n'))
        | bytes.simd_eq(u8x4::splat(b'"'))
        | bytes.simd_eq(u8x4::splat(b'\\'))).to_bitmask()
        == 0
}

// Whether eight bytes are written as they are.
#[inline(always)]
fn plain_8(raw: &[u8], at: usize) -> bool
    requires { at + 8 ≤ length raw.now }
    ensures { OnTrue result (IsPlainBetween raw.now at (at + 8)) }
{
    let bytes = u8x8::from_slice(&raw[at..]);
    (bytes.simd_eq(u8x8::splat(b'\n'))
        | bytes.simd_eq(u8x8::splat(b'"'))
        | bytes.simd_eq(u8x8::splat(b'\\'))).to_bitmask()
        == 0
}

// Whether sixteen bytes are written as they are.
#[inline(always)]
fn plain_16(raw: &[u8], at: usize) -> bool
    requires { at + 16 ≤ length raw.now }
    ensures { OnTrue result (IsPlainBetween raw.now at (at + 16)) }
{
    let bytes = u8x16::from_slice(&raw[at..]);
    (bytes.simd_eq(u8x16::splat(b'\n'))
        | bytes.simd_eq(u8x16::splat(b'"'))
        | bytes.simd_eq(u8x16::splat(b'\\'))).to_bitmask()
        == 0
}

// Whether each of a few bytes is written as it is.
#[inline(always)]
fn plain_few(raw: &[u8]) -> bool
    ensures { OnTrue result (IsPlainBetween raw.now 0 (length raw.now)) }
{
    for &byte in raw {
        if has_escape(byte) {
            return false;
        }
    }
    true
}

// Whether each byte of a text of at most 32 bytes is written as it is.
#[inline(always)]
fn plain_short(raw: &[u8]) -> bool
    requires { length raw.now ≤ 32 }
    ensures { OnTrue result (IsPlainBetween raw.now 0 (length raw.now)) }
{
    let len = raw.len();
    if len >= 16 {
        plain_16(raw, 0) && plain_16(raw, len - 16)
    } else if len >= 8 {
        plain_8(raw, 0) && plain_8(raw, len - 8)
    } else if len >= 4 {
        plain_4(raw, 0) && plain_4(raw, len - 4)
    } else {
        plain_few(raw)
    }
}

// Whether each byte of a text of at least 16 bytes is written as it is. The last block overlaps the one before it.
fn plain_long(raw: &[u8]) -> bool
    requires { 16 ≤ length raw.now }
    ensures { OnTrue result (IsPlainBetween raw.now 0 (length raw.now)) }
{
    let mut at = 0;
    while raw.len() - at > 16 {
        if !plain_16(raw, at) {
            return false;
        }
        at += 16;
    }
    plain_16(raw, raw.len() - 16)
}

/// Whether each byte of a text is written as it is.
#[inline(always)]
pub fn is_plain(raw: &[u8]) -> bool
    ensures { IsTrue result → escaped raw.now ≡ raw.now }
{
    if raw.len() <= 32 {
        plain_short(raw)
    } else {
        plain_long(raw)
    }
}

//! Reads the texts of numbers.
ghost use Rattle.std.specs.Prelude.{◌≡◌, ℕ, ℤ, ◌+◌, ◌*◌, ◌-◌, ◌^◌, ◌≤◌, get_or, Some, IfSome};
ghost use Rattle.std.specs.Fmt.{decimal, signed_decimal};
ghost use Rattle.fm_grammar.specs.Numbers.{millionths_text, fixed_text, millis_text};
ghost use Rattle.fm_grammar.specs.WellFormed.{IsBetween, AreMillis};
ghost use Rattle.fm_reader.specs.inside.Numbers.{FoundWhole, FoundMillis, FoundFixed, places_3, places_6};

use fm_raw::{FixedBuffer, FixedSum};

// The longest duration, in milliseconds.
const MAX_MILLIS: u128 = 18_446_744_073_709_551_615_999;

/// The whole number from -2^63 to 2^64 - 1 that has this text.
pub(crate) fn read_whole(text: &str) -> Option<i128>
    ensures { FoundWhole text.now result }
{
    if let Some(number) = unsigned_in(text) {
        return Some(i128::from(number));
    }
    let Some(number) = whole_in(text) else {
        return None;
    };
    if number < -9_223_372_036_854_775_808 || number > 18_446_744_073_709_551_615 {
        return None;
    }
    let mut buffer = itoa::Buffer::new();
    if buffer.format(number) != text {
        return None;
    }
    Some(number)
}

/// The milliseconds that have this text, in seconds.
pub(crate) fn read_millis(text: &str) -> Option<u128>
    ensures { FoundMillis text.now result }
{
    let Some(millis) = millis_in(text) else {
        return None;
    };
    if millis > MAX_MILLIS {
        return None;
    }
    let mut buffer = FixedBuffer::new();
    if buffer.format_millis(millis) != text {
        return None;
    }
    Some(millis)
}

/// The millionths that have this text.
pub(crate) fn read_fixed(text: &str) -> Option<i128>
    ensures { FoundFixed text.now result }
{
    let Some(number) = fixed_in(text) else {
        return None;
    };
    let mut buffer = FixedBuffer::new();
    if buffer.format(FixedSum::from_millionths(number)) != text {
        return None;
    }
    Some(number)
}

// The number below 2^64 that has this text, if there is one.
fn unsigned_in(text: &str) -> Option<u64>
    ensures { IfSome result (λ n. text.now ≡ decimal n) }
{
    let Some(first) = text.as_bytes().first() else {
        return None;
    };
    if *first < b'0' || *first == b'0' && text.len() > 1 {
        return None;
    }
    let Ok(number) = text.parse::<u64>() else {
        return None;
    };
    Some(number)
}

// The only whole number that may have this text.
fn whole_in(text: &str) -> Option<i128>
    ensures { (z : ℤ) → IsBetween (2 ^ 63) (2 ^ 64) z
        → text.now ≡ signed_decimal z → result ≡ Some z }
{
    let Ok(number) = text.parse::<i128>() else {
        return None;
    };
    Some(number)
}

// The only milliseconds that may have this text.
fn millis_in(text: &str) -> Option<u128>
    ensures { (t : ℕ) → AreMillis t → text.now ≡ millis_text t → result ≡ Some t }
{
    let Some((whole, decimals)) = text.split_once('.') else {
        return None;
    };
    let Ok(seconds) = whole.parse::<u64>() else {
        return None;
    };
    Some(u128::from(seconds) * 1000 + u128::from(three_places(decimals.as_bytes())))
}

// The only number that may have this text.
fn fixed_in(text: &str) -> Option<i128>
    ensures { (z : ℤ) → IsBetween (2 ^ 127) (2 ^ 127) z
        → text.now ≡ fixed_text z → result ≡ Some z }
{
    let Some(magnitude) = text.strip_prefix('-') else {
        let Some(millionths) = magnitude_in(text) else {
            return None;
        };
        return 0_i128.checked_add_unsigned(millionths);
    };
    let Some(millionths) = magnitude_in(magnitude) else {
        return None;
    };
    0_i128.checked_sub_unsigned(millionths)
}

// The only number without a sign that may have this text.
fn magnitude_in(text: &str) -> Option<u128>
    ensures { (n : ℕ) → n ≤ 2 ^ 127 → text.now ≡ millionths_text n → result ≡ Some n }
{
    let Some((whole, decimals)) = text.split_once('.') else {
        return None;
    };
    let Ok(whole) = whole.parse::<u128>() else {
        return None;
    };
    let Some(scaled) = whole.checked_mul(1_000_000) else {
        return None;
    };
    scaled.checked_add(u128::from(six_places(decimals.as_bytes())))
}

// The digit at an index after the point, and zero if it is missing.
fn digit_at(decimals: &[u8], index: usize) -> u32
    ensures digit { result ≡ get_or decimals.now index 48 - 48 }
    ensures small { result ≤ 207 }
{
    match decimals.get(index) {
        Some(byte) => u32::from(byte.saturating_sub(b'0')),
        None => 0,
    }
}

// The number of the first three digits after the point.
fn three_places(decimals: &[u8]) -> u32
    ensures value { result ≡ places_3 decimals.now }
    ensures small { result ≤ 22977 }
{
    digit_at(decimals, 0) * 100 + digit_at(decimals, 1) * 10 + digit_at(decimals, 2)
}

// The number of the first six digits after the point.
fn six_places(decimals: &[u8]) -> u32
    ensures value { result ≡ places_6 decimals.now }
    ensures small { result ≤ 22999977 }
{
    digit_at(decimals, 0) * 100_000
        + digit_at(decimals, 1) * 10_000
        + digit_at(decimals, 2) * 1000
        + digit_at(decimals, 3) * 100
        + digit_at(decimals, 4) * 10
        + digit_at(decimals, 5)
}

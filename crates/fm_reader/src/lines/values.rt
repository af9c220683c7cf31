//! Reads what comes after a sample's labels: its value, its timestamp and its exemplar.
ghost use Rattle.std.specs.Prelude.{IfOk};
ghost use Rattle.std.specs.Option.{option_map};
ghost use Rattle.fm_exposition.specs.Samples.{value_of};
ghost use Rattle.fm_reader.specs.inside.Parts.{tail_text, IsToken, FoundValue, FoundNumber, IsTimeFront, FoundShown};
ghost use Rattle.fm_reader.specs.inside.Samples.{shown_of};

use crate::lines::exemplar::read_exemplar;
use crate::parts::number::{read_fixed, read_millis, read_whole};
use fm_exposition::{Exemplar, Value};
use fm_grammar::SampleKind;
use fm_raw::FixedSum;
use std::alloc::{AllocError, Global};

/// The value, timestamp and exemplar of a sample.
#[derive(Drop)]
pub(crate) struct ReadValues {
    /// Its value.
    pub value: Value,
    /// Its timestamp in milliseconds, if it has one.
    pub time: Option<u128>,
    /// Its exemplar, if it has one.
    pub exemplar: Option<Exemplar>,
}

/// The value, the timestamp and the exemplar of a sample of this kind; None if the text is something else.
pub(crate) fn read_values(
    alloc: Global,
    kind: SampleKind,
    text: &str,
) -> Result<Option<ReadValues>, AllocError>
    ensures { IfOk result (λ found. FoundShown kind text.now (option_map shown_of found)) }
{
    let (token, tail) = split_token(text);
    let Some(value) = read_value(kind, token) else {
        return Ok(None);
    };
    let Some((time, tail)) = read_time(tail) else {
        return Ok(None);
    };
    let Some(exemplar) = read_exemplar(alloc, kind, tail)? else {
        return Ok(None);
    };
    Ok(Some(ReadValues {
        value,
        time,
        exemplar,
    }))
}

/// The text up to the first space, and the text after the space.
pub(crate) fn split_token(text: &str) -> (&str, Option<&str>)
    ensures { IsToken text.now result.0.now (tail_text result.1) }
{
    match text.split_once(' ') {
        Some((token, rest)) => (token, Some(rest)),
        None => (text, None),
    }
}

// The value of a sample of this kind.
fn read_value(kind: SampleKind, text: &str) -> Option<Value>
    ensures { FoundValue kind text.now (option_map value_of result) }
{
    match kind {
        SampleKind::Created => {
            let Some(millis) = read_millis(text) else {
                return None;
            };
            Some(Value::Millis(millis))
        }
        _ => read_number(text),
    }
}

// A whole number, or a number of millionths.
fn read_number(text: &str) -> Option<Value>
    ensures { FoundNumber text.now (option_map value_of result) }
{
    if let Some(whole) = read_whole(text) {
        return Some(Value::Whole(whole));
    }
    let Some(millionths) = read_fixed(text) else {
        return None;
    };
    Some(Value::Fixed(FixedSum::from_millionths(millionths)))
}

/// The timestamp in milliseconds, if there is one, and the text after it; None if the text begins with something else.
pub(crate) fn read_time(tail: Option<&str>) -> Option<(Option<u128>, Option<&str>)>
    ensures { IsTimeFront (tail_text tail.entry) result }
{
    let Some(rest) = tail else {
        return Some((None, None));
    };
    if rest.starts_with('#') {
        return Some((None, Some(rest)));
    }
    let (token, after) = split_token(rest);
    let Some(millis) = read_millis(token) else {
        return None;
    };
    Some((Some(millis), after))
}

//! Reads exemplars.
ghost use Rattle.std.specs.Prelude.{◌≡◌, IfOk};
ghost use Rattle.std.specs.Option.{option_map};
ghost use Rattle.fm_grammar.specs.LabelPairs.{labels_of};
ghost use Rattle.fm_exposition.specs.Samples.{exemplar_of};
ghost use Rattle.fm_reader.specs.inside.Parts.{tail_text, FoundSmall, FoundBody, FoundExemplar};

use crate::lines::labels::read_braces;
use crate::lines::values::{read_time, split_token};
use crate::parts::number::read_fixed;
use fm_exposition::exemplar_limit::are_short;
use fm_exposition::{Exemplar, make};
use fm_grammar::{LabelList, SampleKind};
use fm_raw::Fixed;
use std::alloc::{AllocError, Global};

/// The exemplar of a sample of this kind, or `Some(None)` if `tail` is None; None if the text is not such an exemplar.
pub(crate) fn read_exemplar(
    alloc: Global,
    kind: SampleKind,
    tail: Option<&str>,
) -> Result<Option<Option<Exemplar>>, AllocError>
    ensures { IfOk result (λ found. FoundExemplar kind (tail_text tail.entry)
        (option_map (λ exemplar. option_map exemplar_of exemplar) found)) }
{
    let Some(text) = tail else {
        return Ok(Some(None));
    };
    let Some(body) = text.strip_prefix("# {") else {
        return Ok(None);
    };
    if !kind.takes_exemplar() {
        return Ok(None);
    }
    let Some(exemplar) = read_body(alloc, body)? else {
        return Ok(None);
    };
    Ok(Some(Some(exemplar)))
}

// The exemplar after its opening brace.
fn read_body(alloc: Global, text: &str) -> Result<Option<Exemplar>, AllocError>
    ensures { IfOk result (λ found. FoundBody text.now (option_map exemplar_of found)) }
{
    let Some((list, rest)) = read_braces(alloc, text)? else {
        return Ok(None);
    };
    let labels = owned_pairs(alloc, &list)?;
    if !are_short(&labels) {
        return Ok(None);
    }
    let (token, tail) = split_token(rest);
    let Some(value) = read_small(token) else {
        return Ok(None);
    };
    let Some((time, after)) = read_time(tail) else {
        return Ok(None);
    };
    if after.is_some() {
        return Ok(None);
    }
    Ok(Some(make::exemplar(labels, value, time)))
}

// The labels of a list, each as two strings. Fails if memory runs out.
fn owned_pairs(alloc: Global, list: &LabelList) -> Result<Vec<(String, String)>, AllocError>
    ensures { IfOk result (λ pairs. labels_of pairs.items ≡ list.now) }
{
    let mut pairs = Vec::new(alloc);
    for index in 0..list.len() {
        let (name, value) = list.at(index);
        pairs.push((
            String::from_str(alloc, name)?,
            String::from_str(alloc, value)?,
        ))?;
    }
    Ok(pairs)
}

// The value of an exemplar.
fn read_small(text: &str) -> Option<Fixed>
    ensures { FoundSmall text.now result }
{
    let Some(number) = read_fixed(text) else {
        return None;
    };
    let Ok(millionths) = i64::try_from(number) else {
        return None;
    };
    Some(Fixed::from_millionths(millionths))
}

//! Reads labels and their values.
ghost use Rattle.std.specs.Prelude.{IfOk};
ghost use Rattle.fm_reader.specs.inside.Fronts.{IsEscapedFront, IsPlainCut, IsLabelRead, IsLabelsFront, seen, front_labels};

use crate::parts::names::split_name;
use crate::parts::plain::plain_end;
use fm_grammar::LabelList;
use std::alloc::{AllocError, Global};

/// Reads an escaped text at the start, up to a quote, a line feed or the end, and returns it with the text after it;
/// None if the text does not begin with an escaped text.
pub(crate) fn read_escaped(alloc: Global, text: &str) -> Result<Option<(String, &str)>, AllocError>
    ensures { IfOk result (λ found. IsEscapedFront text.now (seen found)) }
{
    let (plain, after) = text.split_at(plain_end(text.as_bytes()));
    let mut value = String::from_str(alloc, plain)?;
    let mut rest = after;
    loop {
        let mut chars = rest.chars();
        let Some(c) = chars.next() else {
            return Ok(Some((value, rest)));
        };
        if c == '"' || c == '\n' {
            return Ok(Some((value, rest)));
        }
        if c == '\\' {
            let Some(escape) = chars.next() else {
                return Ok(None);
            };
            if escape == 'n' {
                value.push('\n')?;
            } else if escape == '"' || escape == '\\' {
                value.push(escape)?;
            } else {
                return Ok(None);
            }
        } else {
            value.push(c)?;
        }
        rest = chars.as_str();
    }
}

// The text up to a quote, which has no escape, and the text after the quote; None if the text does not begin so.
#[inline(always)]
fn split_plain(text: &str) -> Option<(&str, &str)>
    ensures { IsPlainCut text.now result }
{
    let (value, after) = text.split_at(plain_end(text.as_bytes()));
    let Some(rest) = after.strip_prefix('"') else {
        return None;
    };
    Some((value, rest))
}

/// Reads a label at the start and adds it to a list. Returns the text after it; None if the text does not begin with a label.
#[inline(always)]
pub(crate) fn read_label<'a>(
    alloc: Global,
    labels: &mut LabelList,
    text: &'a str,
) -> Result<Option<&'a str>, AllocError>
    ensures { IfOk result (λ found. IsLabelRead labels.old labels.new text.now found) }
{
    let Some((name, after)) = split_name(text) else {
        return Ok(None);
    };
    let Some(quoted) = after.strip_prefix('"') else {
        return Ok(None);
    };
    if let Some((value, rest)) = split_plain(quoted) {
        labels.push(name, value)?;
        return Ok(Some(rest));
    }
    let Some((value, closing)) = read_escaped(alloc, quoted)? else {
        return Ok(None);
    };
    let Some(rest) = closing.strip_prefix('"') else {
        return Ok(None);
    };
    labels.push(name, value.as_str())?;
    Ok(Some(rest))
}

/// Reads labels after an opening brace, up to the closing brace, and returns them with the text after that.
pub(crate) fn read_labels(
    alloc: Global,
    text: &str,
) -> Result<Option<(LabelList, &str)>, AllocError>
    ensures { IfOk result (λ found. IsLabelsFront text.now (front_labels found)) }
{
    if let Some(rest) = text.strip_prefix('}') {
        return Ok(Some((LabelList::new(alloc), rest)));
    }
    let mut labels = LabelList::with_room(alloc, text.len())?;
    let mut rest = text;
    loop {
        let Some(after) = read_label(alloc, &mut labels, rest)? else {
            return Ok(None);
        };
        if let Some(last) = after.strip_prefix('}') {
            return Ok(Some((labels, last)));
        }
        let Some(more) = after.strip_prefix(',') else {
            return Ok(None);
        };
        rest = more;
    }
}

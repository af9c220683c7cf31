//! Reads label lists with different names.
ghost use Rattle.std.specs.Prelude.{◌≢◌, ◌≤◌, ◌↔◌, IsTrue, IfOk, length, map, take};
ghost use Rattle.std.specs.List.{AllByRecursion};
ghost use Rattle.fm_grammar.specs.Names.{AllDifferent};
ghost use Rattle.fm_reader.specs.inside.Fronts.{front_labels};
ghost use Rattle.fm_reader.specs.inside.Parts.{IsBracesFront, IsBlockFront};

use crate::parts::labels::read_labels;
use fm_grammar::LabelList;
use std::alloc::{AllocError, Global};
use std::collections::BTreeSet;

// So many labels are compared without a set.
const FEW: usize = 8;

/// A sample's labels up to the space before its value, and the text after it; None if the text does not begin so.
pub(crate) fn read_block(alloc: Global, text: &str) -> Result<Option<(LabelList, &str)>, AllocError>
    ensures { IfOk result (λ found. IsBlockFront text.now (front_labels found)) }
{
    if let Some(rest) = text.strip_prefix(' ') {
        return Ok(Some((LabelList::new(alloc), rest)));
    }
    let Some(inner) = text.strip_prefix('{') else {
        return Ok(None);
    };
    let Some((labels, rest)) = read_braces(alloc, inner)? else {
        return Ok(None);
    };
    if labels.len() == 0 {
        return Ok(None);
    }
    Ok(Some((labels, rest)))
}

/// The labels after an opening brace, up to the closing brace and a space, and the text after them; None if the text
/// does not begin so.
pub(crate) fn read_braces(
    alloc: Global,
    text: &str,
) -> Result<Option<(LabelList, &str)>, AllocError>
    ensures { IfOk result (λ found. IsBracesFront text.now (front_labels found)) }
{
    let Some((labels, after)) = read_labels(alloc, text)? else {
        return Ok(None);
    };
    if !are_different(alloc, &labels)? {
        return Ok(None);
    }
    let Some(rest) = after.strip_prefix(' ') else {
        return Ok(None);
    };
    Ok(Some((labels, rest)))
}

/// Whether no name comes twice. Few names are compared with each other.
#[inline(always)]
pub(crate) fn are_different(alloc: Global, labels: &LabelList) -> Result<bool, AllocError>
    ensures { IfOk result
        (λ different. IsTrue different
        ↔ AllDifferent (map (λ label. label.name) labels.now)) }
{
    if labels.len() <= FEW {
        return Ok(few_are_different(labels));
    }
    many_are_different(alloc, labels)
}

// Whether no name comes twice, where a set has those before each.
#[inline(never)]
fn many_are_different(alloc: Global, labels: &LabelList) -> Result<bool, AllocError>
    ensures { IfOk result
        (λ different. IsTrue different
        ↔ AllDifferent (map (λ label. label.name) labels.now)) }
{
    let mut names = BTreeSet::new(alloc);
    for index in 0..labels.len() {
        if !names.insert(labels.at(index).0)? {
            return Ok(false);
        }
    }
    Ok(true)
}

// Whether no name comes twice, where each is compared with those before it.
#[inline(always)]
fn few_are_different(labels: &LabelList) -> bool
    ensures { IsTrue result ↔ AllDifferent (map (λ label. label.name) labels.now) }
{
    for index in 0..labels.len() {
        if !is_new(labels, index, labels.at(index).0) {
            return false;
        }
    }
    true
}

/// Whether none of the labels before an index has this name.
#[inline(always)]
pub(crate) fn is_new(labels: &LabelList, before: usize, name: &str) -> bool
    requires { before ≤ length labels.now }
    ensures { IsTrue result
        ↔ AllByRecursion (λ other. other ≢ name.now)
        (take before (map (λ label. label.name) labels.now)) }
{
    for index in 0..before {
        if labels.at(index).0 == name {
            return false;
        }
    }
    true
}

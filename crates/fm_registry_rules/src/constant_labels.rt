//! The constant labels of a registry.
ghost use Rattle.std.specs.Prelude.{◌≡◌, Some, None, IfOk, OnOk, MatchBool, MatchOption, map, not};
ghost use Rattle.std.specs.List.{position_from};
ghost use Rattle.std.specs.Str.{bytes_eq};
ghost use Rattle.fm_grammar.specs.NameTests.{is_label_name as label_name_test};
ghost use Rattle.fm_grammar.specs.LabelPairs.{label_of, labels_of};
ghost use Rattle.fm_registry_rules.specs.Texts.{has_text, merge_labels, set_label as label_set};
ghost use Rattle.fm_registry_rules.specs.Answer.{refusal_of, first_bad_label, label_refusal_after, root_labels_refusal};
ghost use Rattle.fm_registry_rules.specs.inside.RootLabels.{IsRefusedAt, label_fault};
ghost use Rattle.fm_registry_rules.specs.Lists.{seen_labels};

use crate::RegistryError;
use fm_raw::is_label_name;
use std::alloc::{AllocError, Global};

/// The labels that a registry keeps; a registry without a list has none.
pub fn labels_of_option<'a>(labels: &'a Option<Vec<(String, String)>>) -> &'a [(String, String)]
    ensures { labels_of result.now ≡ seen_labels labels.now }
{
    match labels {
        Some(labels) => labels.as_slice(),
        None => &[],
    }
}

// The index of the first label whose name is not a valid label name.
fn bad_index(labels: &[(String, String)]) -> Option<usize>
    ensures { result ≡ position_from (λ l. not (label_name_test (label_of l).name)) 0 labels.now }
{
    labels.iter().position(|l| !is_label_name(l.0.as_str()))
}

// The index of the label with this name.
fn index_of_label(labels: &[(String, String)], name: &str) -> Option<usize>
    ensures { result ≡ position_from (λ l. bytes_eq (label_of l).name name.now) 0 labels.now }
{
    labels.iter().position(|l| l.0.as_str() == name)
}

// Replaces the label that has the same name, or adds the label at the end.
fn set_label(labels: &mut Vec<(String, String)>, label: (String, String)) -> Result<(), AllocError>
    ensures { OnOk result
        (labels_of labels.new.items ≡ label_set (labels_of labels.old.items) (label_of label)) }
{
    match index_of_label(labels, label.0.as_str()) {
        Some(index) => {
            labels[index] = label;
            Ok(())
        }
        None => match labels.push(label) {
            Ok(()) => Ok(()),
            Err(_) => Err(AllocError),
        },
    }
}

/// Returns the labels unchanged if each name is a valid label name; else the first that isn't is the error's.
pub fn tested_labels(labels: Vec<(String, String)>) -> Result<Vec<(String, String)>, RegistryError>
    ensures ok { IfOk result (λ tested. tested ≡ labels) }
    ensures answer { refusal_of result ≡ first_bad_label (labels_of labels.items) }
{
    let mut labels = labels;
    match bad_index(&labels) {
        None => Ok(labels),
        Some(index) => {
            let (name, _) = labels.swap_remove(index);
            Err(RegistryError::InvalidLabelName { name })
        }
    }
}

/// The parent's labels, with each of `labels` set in turn. Fails if memory runs out.
pub fn merged_labels(
    alloc: Global,
    parent: &Option<Vec<(String, String)>>,
    labels: Vec<(String, String)>,
) -> Result<Option<Vec<(String, String)>>, AllocError>
    ensures { IfOk result
        (λ merged. seen_labels merged
        ≡ merge_labels (seen_labels parent.now) (labels_of labels.items)) }
{
    if parent.is_none() && labels.is_empty() {
        return Ok(None);
    }
    let mut merged = cloned_labels(alloc, parent)?;
    for label in labels {
        set_label(&mut merged, label)?;
    }
    Ok(Some(merged))
}

// A copy of a label.
fn cloned_label(label: &(String, String), alloc: Global) -> Result<(String, String), AllocError>
    ensures { IfOk result (λ copy. label_of copy ≡ label_of label.now) }
{
    let name = String::from_str(alloc, label.0.as_str())?;
    let value = String::from_str(alloc, label.1.as_str())?;
    Ok((name, value))
}

// A copy of the labels.
fn cloned_labels(
    alloc: Global,
    labels: &Option<Vec<(String, String)>>,
) -> Result<Vec<(String, String)>, AllocError>
    ensures { IfOk result (λ copies. labels_of copies.items ≡ seen_labels labels.now) }
{
    let mut copies = Vec::new(alloc);
    if let Some(labels) = labels {
        for label in labels {
            copies.push(cloned_label(label, alloc)?)?;
        }
    }
    Ok(copies)
}

// Whether one of the labels has this name.
fn is_among(labels: &[(String, String)], name: &str) -> bool
    ensures { result ≡ has_text (map (λ l. l.name) (labels_of labels.now)) name.now }
{
    index_of_label(labels, name).is_some()
}

// Whether a root refuses a label with this name after the labels `before`: the name is not valid, or one of them has
// it.
fn is_refused_after(before: &[(String, String)], name: &str) -> bool
    ensures { MatchBool result
        (label_refusal_after (map (λ l. l.name) (labels_of before.now)) name.now
        ≡ Some (label_fault name.now))
        (label_refusal_after (map (λ l. l.name) (labels_of before.now)) name.now ≡ None) }
{
    if !is_label_name(name) {
        return true;
    }
    is_among(before, name)
}

// The index of the first label that a root refuses.
fn refused_index(labels: &[(String, String)]) -> Option<usize>
    ensures { MatchOption result
        (root_labels_refusal (labels_of labels.now) ≡ None)
        (λ index. IsRefusedAt labels.now index) }
{
    for index in 0..labels.len() {
        if is_refused_after(&labels[..index], labels[index].0.as_str()) {
            return Some(index);
        }
    }
    None
}

/// Returns a root's labels unchanged if each name is a valid label name and no name comes twice; else the first name that is
/// refused is the error's.
pub fn tested_root_labels(
    labels: Vec<(String, String)>,
) -> Result<Vec<(String, String)>, RegistryError>
    ensures ok { IfOk result (λ tested. tested ≡ labels) }
    ensures answer { refusal_of result ≡ root_labels_refusal (labels_of labels.items) }
{
    let mut labels = labels;
    match refused_index(&labels) {
        None => Ok(labels),
        Some(index) => {
            let (name, _) = labels.swap_remove(index);
            if is_label_name(name.as_str()) {
                Err(RegistryError::DuplicateLabel { name })
            } else {
                Err(RegistryError::InvalidLabelName { name })
            }
        }
    }
}

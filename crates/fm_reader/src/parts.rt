//! Reads the parts of a line of a document: numbers, escaped texts and labels.

pub(crate) mod cuts;
pub(crate) mod labels;
pub(crate) mod names;
pub(crate) mod number;
mod plain;

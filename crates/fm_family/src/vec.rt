//! Families whose label names are declared when they are made.

pub mod collected;
pub mod encoding;
pub mod hashing;
pub mod members;
pub mod metric_vec;
pub mod names;
mod young;

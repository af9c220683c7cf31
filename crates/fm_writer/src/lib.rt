//! Rendering: a sink keeps samples or appends their lines to a text, and `encode_exposition` writes an exposition.
#![tactic(auto)]

pub mod blocks;
mod front;
mod heads;
mod new_sample;
mod rendering;
pub mod sink;
mod writing;

pub use blocks::TextBlocks;
pub use front::render_front;
pub use heads::FamilyHead;
pub use new_sample::NewSample;
pub use sink::Sink;
pub use writing::encode_exposition;

//! The front of a sample's line, which comes before the labels of its own.
ghost use Rattle.std.specs.Prelude.{◌≡◌, OnOk};
ghost use Rattle.fm_writer.specs.Front.{line_front};

use fm_grammar::SampleKind;
use fm_text::labels::LabelSource;
use fm_text::{GrowingText, LabelText, Output};
use std::alloc::AllocError;

/// Replaces a text by the front of the lines of samples of this kind, which have these labels in common. Fails if memory runs out; then
/// nothing is known of the text.
pub fn render_front(
    front: &mut GrowingText,
    name: &str,
    kind: SampleKind,
    common: &LabelText,
) -> Result<(), AllocError>
    ensures { OnOk result (front.new ≡ line_front name.now kind common.now.labels) }
{
    front.clear();
    front.put_three(name.as_bytes(), kind.suffix().as_bytes(), b"{")?;
    if common.len() == 0 {
        return Ok(());
    }
    common.append_before(front, b",")
}

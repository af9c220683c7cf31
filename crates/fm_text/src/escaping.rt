// Texts with their escapes, appended to an output.
ghost use Rattle.std.specs.Prelude.{◌≡◌, ◌≤◌, length, take, OnOk};
ghost use Rattle.fm_grammar.specs.Spelling.{escape, escaped};
ghost use Rattle.fm_text.specs.inside.Grown.{Grows};

use crate::output::Output;
use crate::plain::has_escape;
use std::alloc::AllocError;

// Appends a byte with its escape.
#[tactic(auto, unfolding(fm_grammar::specs::Spelling::escape))]
fn append_escape<O: Output>(text: &mut O, byte: u8) -> Result<(), AllocError>
    ensures { OnOk result (Grows (O.stands_for text.old) (O.stands_for text.new) (escape byte)) }
{
    match byte {
        b'\n' => text.put(b"\\n"),
        b'"' => text.put(b"\\\""),
        b'\\' => text.put(b"\\\\"),
        other => text.put(&[other]),
    }
}

// How many bytes come before the first one that is written with an escape.
fn plain_len(raw: &[u8]) -> usize
    ensures within { result ≤ length raw.now }
    ensures plain { escaped (take result raw.now) ≡ take result raw.now }
{
    for i in 0..raw.len() {
        if has_escape(raw[i]) {
            return i;
        }
    }
    raw.len()
}

/// Appends a text with its escapes. What is between two of them is appended at once.
pub fn append_escaped<O: Output>(text: &mut O, raw: &[u8]) -> Result<(), AllocError>
    ensures { OnOk result (Grows (O.stands_for text.old) (O.stands_for text.new)
        (escaped raw.now)) }
{
    let mut rest = raw;
    loop {
        let (plain, others) = rest.split_at(plain_len(rest));
        text.put(plain)?;
        let Some((first, after)) = others.split_first() else {
            return Ok(());
        };
        append_escape(text, *first)?;
        rest = after;
    }
}

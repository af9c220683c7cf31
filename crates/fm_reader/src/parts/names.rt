//! Cuts a label's name from the front of a text.
ghost use Rattle.std.specs.Prelude.{◌≡◌, ◌≤◌, length};
ghost use Rattle.std.specs.List.{prefix_len};
ghost use Rattle.fm_grammar.specs.NameTests.{is_label_byte};
ghost use Rattle.fm_reader.specs.inside.Cuts.{IsNameCut};

// Whether a byte may be in a label name.
fn is_in_label_name(byte: u8) -> bool
    ensures { result ≡ is_label_byte byte }
{
    b'a' <= byte && byte <= b'z'
        || b'A' <= byte && byte <= b'Z'
        || byte == b'_'
        || b'0' <= byte && byte <= b'9'
}

// The number of such bytes at the front.
fn name_end(text: &[u8]) -> usize
    ensures value { result ≡ prefix_len is_label_byte text.now }
    ensures bound { result ≤ length text.now }
{
    let mut at = 0;
    while at < text.len() && is_in_label_name(text[at]) {
        at += 1;
    }
    at
}

/// A label's name at the front, and the text after its equals sign; None if the text does not begin with a label.
pub(crate) fn split_name(text: &str) -> Option<(&str, &str)>
    ensures { IsNameCut text.now result }
{
    let bytes = text.as_bytes();
    let end = name_end(bytes);
    if end == bytes.len() || bytes[end] != b'=' {
        return None;
    }
    // What comes before a letter or an underscore is a digit.
    if end == 0 || bytes[0] <= b'9' {
        return None;
    }
    let (name, _) = text.split_at(end);
    let (_, after) = text.split_at(end + 1);
    Some((name, after))
}

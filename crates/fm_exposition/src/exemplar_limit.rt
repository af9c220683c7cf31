//! The limit on the code points in an exemplar's labels, and its test.
ghost use Rattle.std.specs.Prelude.{◌≡◌, ◌≤◌, ◌↔◌, IsTrue};
ghost use Rattle.fm_grammar.specs.WellFormed.{code_points as text_code_points, label_code_points};
ghost use Rattle.fm_grammar.specs.inside.Words.{begins_character as byte_begins_character};
ghost use Rattle.fm_grammar.specs.LabelPairs.{labels_of};

// The greatest number of code points in the labels of an exemplar.
const MAX_CODE_POINTS: usize = 128;

/// Whether the names and values have at most 128 code points together, which is OpenMetrics' limit for an exemplar.
pub fn are_short(labels: &[(String, String)]) -> bool
    ensures { IsTrue result ↔ (label_code_points (labels_of labels.now) ≤ 128) }
{
    let mut left = MAX_CODE_POINTS;
    for (name, value) in labels {
        let Some(after_name) = left.checked_sub(code_points(name)) else {
            return false;
        };
        let Some(after_value) = after_name.checked_sub(code_points(value)) else {
            return false;
        };
        left = after_value;
    }
    true
}

// The number of code points of a text.
fn code_points(text: &str) -> usize
    ensures { result ≡ text_code_points text.now }
{
    let mut count = 0;
    for byte in text.as_bytes() {
        if begins_character(*byte) {
            count += 1;
        }
    }
    count
}

// Whether a byte begins a character: it is not a UTF-8 continuation byte.
fn begins_character(byte: u8) -> bool
    ensures { result ≡ byte_begins_character byte }
{
    byte < 128 || 192 <= byte
}

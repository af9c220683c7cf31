// The texts of the parts of a sample's line, appended to an output.
ghost use Rattle.std.specs.Prelude.{◌≡◌, ◌≤◌, ◌++◌, length, take, codes, OnOk, IfSome, None};
ghost use Rattle.std.specs.Option.{option_map};
ghost use Rattle.fm_grammar.specs.Exposition.{Whole};
ghost use Rattle.fm_grammar.specs.Spelling.{escape, escaped, value_text, time_text, exemplar_text};
ghost use Rattle.fm_exposition.specs.Rows.{sample_row};
ghost use Rattle.fm_exposition.specs.Samples.{value_of, exemplar_at};
ghost use Rattle.fm_text.specs.inside.Grown.{Grows};
ghost use Rattle.fm_writer.specs.inside.Readings.{reading_text};

use fm_exposition::{Exemplar, Value};
use fm_grammar::SampleKind;
use fm_raw::fixed::{FixedBuffer, FixedSum};
use fm_text::Output;
use fm_text::labels::{LabelSource, append_in_braces};
use fm_text::plain::has_escape;
use itoa::Buffer;
use std::alloc::AllocError;

// Appends a space and a timestamp, and nothing for none.
#[tactic(auto, using(fm_text::proofs::GrownLemmas::grown))]
fn append_time<O: Output>(text: &mut O, time: Option<u128>) -> Result<(), AllocError>
    ensures { OnOk result (Grows (O.stands_for text.old) (O.stands_for text.new) (time_text time)) }
{
    match time {
        Some(millis) => {
            let mut buffer = FixedBuffer::new();
            text.put(b" ")?;
            text.put(buffer.format_millis(millis).as_bytes())
        }
        None => Ok(()),
    }
}

// Appends an exemplar, and nothing for none.
#[tactic(auto, using(fm_text::proofs::GrownLemmas::grown))]
fn append_exemplar<O: Output>(text: &mut O, exemplar: Option<&Exemplar>) -> Result<(), AllocError>
    ensures { OnOk result (Grows (O.stands_for text.old) (O.stands_for text.new)
        (exemplar_text (option_map exemplar_at exemplar.entry))) }
{
    match exemplar {
        Some(exemplar) => {
            let mut buffer = FixedBuffer::new();
            text.put(b" # ")?;
            append_in_braces(text, exemplar.labels())?;
            text.put(b" ")?;
            text.put(buffer.format(FixedSum::from(exemplar.value())).as_bytes())?;
            append_time(text, exemplar.timestamp_millis())
        }
        None => Ok(()),
    }
}

// What comes after the labels on a sample's line: a value, and maybe a timestamp and an exemplar.
#[derive(Clone, Copy)]
pub(crate) struct Reading<'a> {
    pub(crate) value: &'a Value,
    pub(crate) time: Option<u128>,
    pub(crate) exemplar: Option<&'a Exemplar>,
}

// The number of a line that ends with it alone, if it fits. Most lines end so, and its digits take the fewest steps.
pub(crate) fn whole_number(reading: Reading<'_>) -> Option<i64>
    ensures { IfSome result (λ number.
        reading_text reading.entry ≡ value_text (Whole number) ++ codes "\n") }
{
    match (reading.value, reading.time, reading.exemplar) {
        (Value::Whole(number), None, None) => i64::try_from(*number).ok(),
        _ => None,
    }
}

// Appends a value, a timestamp, an exemplar and a line feed.
#[tactic(auto, using(fm_text::proofs::GrownLemmas::grown))]
pub(crate) fn append_reading<O: Output>(
    text: &mut O,
    reading: Reading<'_>,
) -> Result<(), AllocError>
    ensures { OnOk result
        (Grows (O.stands_for text.old) (O.stands_for text.new) (reading_text reading.entry)) }
{
    let Reading {
        value,
        time,
        exemplar,
    } = reading;
    if let Some(number) = whole_number(reading) {
        let mut digits = Buffer::new();
        return text.put_three(digits.format(number).as_bytes(), b"\n", b"");
    }
    let (mut whole, mut fixed) = (Buffer::new(), FixedBuffer::new());
    let value = match value {
        Value::Whole(number) => whole.format(*number),
        Value::Fixed(sum) => fixed.format(*sum),
        Value::Millis(millis) => fixed.format_millis(*millis),
    };
    if let (None, None) = (time, exemplar) {
        return text.put_three(value.as_bytes(), b"\n", b"");
    }
    text.put(value.as_bytes())?;
    append_time(text, time)?;
    append_exemplar(text, exemplar)?;
    text.put(b"\n")
}

// Appends a sample's line.
pub(crate) fn append_sample_row<O: Output, F: LabelSource<O>, G: LabelSource<O>>(
    text: &mut O,
    name: &str,
    kind: SampleKind,
    common: &F,
    own: &G,
    reading: Reading<'_>,
) -> Result<(), AllocError>
    requires common { F.is_ready common.now }
    requires own { G.is_ready own.now }
    ensures { OnOk result (Grows (O.stands_for text.old) (O.stands_for text.new)
        (sample_row name.now (record {
          kind = kind;
          labels = F.labels common.now ++ G.labels own.now;
          value = value_of reading.entry.value.now;
          time = reading.entry.time;
          exemplar = option_map exemplar_at reading.entry.exemplar;
        }))) }
{
    let (name, suffix) = (name.as_bytes(), kind.suffix().as_bytes());
    if own.len() == 0 {
        if common.len() == 0 {
            text.put_three(name, suffix, b" ")?;
        } else {
            text.put_three(name, suffix, b"{")?;
            common.append_before(text, b"} ")?;
        }
    } else {
        text.put_three(name, suffix, b"{")?;
        if common.len() > 0 {
            common.append_before(text, b",")?;
        }
        own.append_before(text, b"} ")?;
    }
    append_reading(text, reading)
}

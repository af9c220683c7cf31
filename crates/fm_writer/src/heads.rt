// The lines of a family that come before its samples, appended to an output.
ghost use Rattle.std.specs.Prelude.{◌≡◌, ◌++◌, codes, OnOk};
ghost use Rattle.std.specs.Option.{option_copied};
ghost use Rattle.fm_grammar.specs.Kinds.{type_word};
ghost use Rattle.fm_grammar.specs.Spelling.{escaped};
ghost use Rattle.fm_exposition.specs.Rows.{unit_row, head_rows};
ghost use Rattle.fm_writer.specs.Heads.{headed};
ghost use Rattle.fm_text.specs.inside.Grown.{Grows};

use fm_grammar::MetricType;
use fm_text::Output;
use fm_text::escaping::append_escaped;
use fm_text::plain::is_plain;
use std::alloc::AllocError;

/// What the lines of a family that come before its samples say of it besides its name.
#[derive(Clone, Copy)]
pub struct FamilyHead<'a> {
    /// Its type.
    pub metric_type: MetricType,
    /// Its help text.
    pub help: &'a str,
    /// The text of its unit.
    pub unit: Option<&'a str>,
}

// What follows the name on a type line of this type, up to the name on the help line.
fn after_type_name(metric_type: MetricType) -> &'static str
    ensures { result.now ≡ codes " " ++ (type_word metric_type ++ codes "\n# HELP ") }
{
    match metric_type {
        MetricType::Unknown => " unknown\n# HELP ",
        MetricType::Gauge => " gauge\n# HELP ",
        MetricType::Counter => " counter\n# HELP ",
        MetricType::StateSet => " stateset\n# HELP ",
        MetricType::Info => " info\n# HELP ",
        MetricType::Histogram => " histogram\n# HELP ",
        MetricType::GaugeHistogram => " gaugehistogram\n# HELP ",
        MetricType::Summary => " summary\n# HELP ",
    }
}

// Appends a name, a space and a help text.
#[tactic(auto, using(fm_text::proofs::GrownLemmas::grown))]
fn append_help<O: Output>(text: &mut O, name: &[u8], help: &[u8]) -> Result<(), AllocError>
    ensures { OnOk result (Grows (O.stands_for text.old) (O.stands_for text.new)
        (name.now ++ (codes " " ++ escaped help.now))) }
{
    if is_plain(help) {
        return text.put_three(name, b" ", help);
    }
    text.put_three(name, b" ", b"")?;
    append_escaped(text, help)
}

// Appends the line feed of a help line, and after it the unit line if there is a unit.
#[tactic(auto, using(fm_text::proofs::GrownLemmas::line), unfolding(fm_grammar::specs::Spelling::unit_line))]
fn end_heads<O: Output>(text: &mut O, name: &[u8], unit: Option<&str>) -> Result<(), AllocError>
    ensures { OnOk result (Grows (O.stands_for text.old) (O.stands_for text.new)
        (codes "\n" ++ unit_row name.now (option_copied unit.entry))) }
{
    match unit {
        Some(unit) => {
            text.put_three(b"\n# UNIT ", name, b" ")?;
            text.put_three(unit.as_bytes(), b"\n", b"")
        }
        None => text.put(b"\n"),
    }
}

// Appends the lines of a family that come before its samples.
pub(crate) fn append_heads<O: Output>(
    text: &mut O,
    name: &str,
    head: FamilyHead<'_>,
) -> Result<(), AllocError>
    ensures { OnOk result (Grows (O.stands_for text.old) (O.stands_for text.new)
        (head_rows (headed name.now head.entry))) }
{
    let (name, word) = (name.as_bytes(), after_type_name(head.metric_type));
    text.put_three(b"# TYPE ", name, word.as_bytes())?;
    append_help(text, name, head.help.as_bytes())?;
    end_heads(text, name, head.unit)
}

//! Where two texts first differ, line by line.
ghost use Rattle.std.specs.Prelude.{◌≡◌, ◌↔◌, IsNone, IfSome, IsTrue};
ghost use Rattle.std.specs.Option.{option_copied};
ghost use Rattle.fm_reader.specs.Differences.{IsFirstDifference};
ghost use Rattle.fm_reader.specs.inside.Remaining.{IsLineTaken};

use crate::parts::cuts::split_line;
use std::fmt::{self, Display, Formatter};

/// The first line at which two texts differ. It is displayed as ``line 3: `a_total 1` on the left, and `a_total 2` on the right``.
///
/// <!-- cut: tests/unit/src/fm_reader_first_difference.rt.in -->
/// ```rust
/// let Some(difference) = first_difference(left, right) else {
///     return Err(Fail::new("they are said to be the same"));
/// };
/// // ..
/// let said = format!(in alloc; "{difference}")?;
/// ```
#[derive(Clone, Copy, Debug, PartialEq, Eq)]
pub struct Difference<'a> {
    /// The number of the line, from 1.
    pub line: usize,
    /// This line of the text on the left, or None if that text has fewer lines.
    pub left: Option<&'a str>,
    /// The same of the text on the right.
    pub right: Option<&'a str>,
}

impl Display for Difference<'_> {
    fn fmt<W: fmt::Write>(&self, f: &mut Formatter<W>) -> fmt::Result {
        write!(f, "line {}: ", self.line)?;
        write_line(f, self.left)?;
        f.write_str(" on the left, and ")?;
        write_line(f, self.right)?;
        f.write_str(" on the right")
    }
}

// Writes a line between backquotes, or that there is none.
fn write_line<W: fmt::Write>(f: &mut Formatter<W>, line: Option<&str>) -> fmt::Result {
    match line {
        Some(line) => write!(f, "`{line}`"),
        None => f.write_str("nothing"),
    }
}

/// The first line at which two texts differ, or None if they are the same. It takes no memory.
///
/// The lines of a text are its parts between line feeds, so after a line feed at its end comes an empty last line. A line is shown
/// without its line feed.
pub fn first_difference<'a>(left: &'a str, right: &'a str) -> Option<Difference<'a>>
    ensures same { IsNone result ↔ (left.now ≡ right.now) }
    ensures first { IfSome result (IsFirstDifference left.now right.now) }
{
    let mut left_rest = Some(left);
    let mut right_rest = Some(right);
    let mut same_lines: usize = 0;
    loop {
        let (left, left_after) = take_line(left_rest);
        let (right, right_after) = take_line(right_rest);
        if !is_same_line(left, right) {
            let line = same_lines + 1;
            return Some(Difference { line, left, right });
        }
        if left.is_none() {
            return None;
        }
        left_rest = left_after;
        right_rest = right_after;
        same_lines += 1;
    }
}

// The first line of what is left of a text, and what is left after it.
fn take_line(rest: Option<&str>) -> (Option<&str>, Option<&str>)
    ensures { IsLineTaken rest.entry result }
{
    let Some(text) = rest else {
        return (None, None);
    };
    match split_line(text) {
        Some((line, after)) => (Some(line), Some(after)),
        None => (Some(text), None),
    }
}

// Whether two lines are the same, or both texts have ended.
fn is_same_line(left: Option<&str>, right: Option<&str>) -> bool
    ensures { IsTrue result ↔ (option_copied left.entry ≡ option_copied right.entry) }
{
    match (left, right) {
        (Some(left), Some(right)) => left == right,
        (None, None) => true,
        _ => false,
    }
}

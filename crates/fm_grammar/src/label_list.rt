//! Lists of labels that take memory only twice: for one text of all names and values, and for where they are in it.
ghost use Rattle.std.specs.Prelude.{◌≡◌, ◌++◌, ◌<◌, ◌^◌, [], ◌∷◌, length, slice_get, Some, OnOk, OnErr, IfOk};
ghost use Rattle.std.specs.Option.{option_map};
ghost use Rattle.fm_grammar.specs.LabelPairs.{shown_label};
ghost use Rattle.fm_grammar.specs.inside.LabelLists.{label_in, IsWithin, AreUtf8Labels};

use std::alloc::{AllocError, Global};
use std::marker::Model;

// Where a label is in a text. Its value comes right after its name.
#[derive(Clone, Copy, Debug)]
struct LabelBounds {
    start: usize,
    name_end: usize,
    end: usize,
}

/// Labels in order, each with its name and its value.
#[derive(Debug)]
pub struct LabelList {
    // The names and values, one after the other.
    text: String,
    bounds: Vec<LabelBounds>,
}

impl Drop for LabelList {
    fn drop(self) {
        let LabelList { text: _, bounds: _ } = self;
    }
}

impl Model for LabelList {
    ghost use Rattle.std.specs.Prelude.{List};
    ghost use Rattle.std.specs.List.{AllByRecursion};
    ghost use Rattle.std.specs.String.{string_bytes};
    ghost use Rattle.fm_grammar.specs.Exposition.{Label};
    ghost use Rattle.fm_grammar.specs.inside.LabelLists.{labels_in, IsWithin};

    ghost Value = { List Label };

    ghost view = { λ l. labels_in (string_bytes l.text) l.bounds.items };

    ghost invariant = { λ l. AllByRecursion (IsWithin (string_bytes l.text)) l.bounds.items };
}

// The name and the value of the label that is here in a text.
fn parts_at(text: &str, bounds: LabelBounds) -> (&str, &str)
    requires { IsWithin text.now bounds }
    ensures { shown_label result ≡ label_in text.now bounds }
{
    let name = &text[bounds.start..bounds.name_end];
    let value = &text[bounds.name_end..bounds.end];
    (name, value)
}

impl LabelList {
    /// No labels. It takes no memory.
    pub fn new(alloc: Global) -> LabelList
        ensures { result ≡ [] }
    {
        LabelList {
            text: String::new(alloc),
            bounds: Vec::new(alloc),
        }
    }

    /// No labels, with room for names and values of so many bytes. Fails if memory runs out.
    pub fn with_room(alloc: Global, size: usize) -> Result<LabelList, AllocError>
        ensures { IfOk result (λ labels. labels ≡ []) }
    {
        let text = String::with_capacity(alloc, size)?;
        Ok(LabelList {
            text,
            bounds: Vec::new(alloc),
        })
    }

    /// How many labels there are.
    pub fn len(&self) -> usize
        ensures value { result ≡ length self.now }
        ensures bound { result < 2 ^ 63 }
    {
        self.bounds.len()
    }

    /// The name and the value of the label at an index, or None if there is none.
    pub fn label(&self, index: usize) -> Option<(&str, &str)>
        ensures { option_map shown_label result ≡ slice_get self.now index }
    {
        let bounds = self.bounds.get(index)?;
        Some(parts_at(self.text.as_str(), *bounds))
    }

    /// The name and the value of the label at an index below their number.
    pub fn at(&self, index: usize) -> (&str, &str)
        requires { index < length self.now }
        ensures { slice_get self.now index ≡ Some (shown_label result) }
    {
        parts_at(self.text.as_str(), self.bounds[index])
    }

    /// All values are valid UTF-8, since the text is. The call only tells a proof so.
    pub fn hold_utf8(&self)
        ensures { AreUtf8Labels self.now }
    {
        let _text = self.text.as_str();
    }

    /// Adds a label. Fails if memory runs out, and then changes nothing.
    pub fn push(&mut self, name: &str, value: &str) -> Result<(), AllocError>
        ensures pushed { OnOk result
            (self.new ≡ self.old ++ record { name = name.now; value = value.now } ∷ []) }
        ensures kept { OnErr result (self.new ≡ self.old) }
    {
        let start = self.text.len();
        self.text.push_str(name)?;
        let name_end = self.text.len();
        self.text.push_str(value)?;
        let end = self.text.len();
        self.bounds.push(LabelBounds {
            start,
            name_end,
            end,
        })?;
        Ok(())
    }
}

// A text that grows.
ghost use Rattle.std.specs.Prelude.{◌≡◌, ◌+◌, ◌≤◌, ◌++◌, [], length, take, codes, IfOk, OnOk, OnErr};
ghost use Rattle.fm_text.specs.inside.Grown.{Grown};
ghost use Rattle.fm_text.specs.inside.LabelTexts.{name_in_list};

use crate::output::Output;
use fm_grammar::write_at;
use std::alloc::{AllocError, Global};
use std::marker::Model;

// How many bytes a text has room for at first.
const FIRST_ROOM: usize = 64;

// How many bytes a text is filled up with at most. What was filled is then still in the processor's cache when it is written to.
const MOST_ROOM: usize = 4096;

// Lengthens a list of bytes to this length or, if that is greater, to twice its length or by the most room. If it has memory for the former,
// it takes no more.
#[cold]
fn lengthen(bytes: &mut Vec<u8>, at_least: usize) -> Result<(), AllocError>
    requires { length bytes.old.items ≤ at_least }
    ensures beginning { take (length bytes.old.items) bytes.new.items ≡ bytes.old.items }
    ensures longer { length bytes.old.items ≤ length bytes.new.items }
    ensures enough { OnOk result (at_least ≤ length bytes.new.items) }
{
    let room = bytes.len().max(FIRST_ROOM).min(MOST_ROOM);
    let (wanted, capacity) = (
        bytes.len().saturating_add(room).max(at_least),
        bytes.capacity(),
    );
    let most = if at_least > capacity {
        wanted
    } else {
        capacity
    };
    bytes.resize(wanted.min(most), 0)
}

/// A text that grows at its end.
pub struct GrowingText {
    // The text, followed by room for more.
    bytes: Vec<u8>,
    // The length of the text in bytes.
    end: usize,
}

impl Drop for GrowingText {
    fn drop(self) {
        let GrowingText { bytes: _, end: _ } = self;
    }
}

impl Model for GrowingText {
    ghost use Rattle.std.specs.Prelude.{◌≤◌, length, take};
    ghost use Rattle.fm_grammar.specs.Exposition.{Text};

    ghost Value = { Text };

    ghost view = { λ t. take t.end t.bytes.items };

    ghost invariant = { λ t. t.end ≤ length t.bytes.items };
}

impl GrowingText {
    /// An empty text. It takes no memory.
    pub fn new(alloc: Global) -> GrowingText
        ensures { result ≡ [] }
    {
        GrowingText {
            bytes: Vec::new(alloc),
            end: 0,
        }
    }

    /// An empty text with room for this number of bytes. Fails if memory runs out.
    pub fn with_room(alloc: Global, room: usize) -> Result<GrowingText, AllocError>
        ensures { IfOk result (λ text. text ≡ []) }
    {
        let mut bytes = Vec::new(alloc);
        bytes.resize(room, 0)?;
        Ok(GrowingText { bytes, end: 0 })
    }

    /// An empty text that can grow to this number of bytes without being moved. Fails if memory runs out.
    pub fn with_capacity(alloc: Global, capacity: usize) -> Result<GrowingText, AllocError>
        ensures { IfOk result (λ text. text ≡ []) }
    {
        Ok(GrowingText {
            bytes: Vec::with_capacity(alloc, capacity)?,
            end: 0,
        })
    }

    /// The bytes so far.
    pub fn as_slice(&self) -> &[u8]
        ensures { result.now ≡ self.now }
    {
        &self.bytes[..self.end]
    }

    /// Removes all bytes, and keeps the memory for later ones.
    pub fn clear(&mut self)
        ensures { self.new ≡ [] }
    {
        self.end = 0;
    }

    /// Replaces its bytes by those of another text. Fails if memory runs out, and then changes nothing.
    pub fn assign(&mut self, other: &GrowingText) -> Result<(), AllocError>
        ensures replaced { OnOk result (self.new ≡ other.now) }
        ensures kept { OnErr result (self.new ≡ self.old) }
    {
        if other.end > self.bytes.len() {
            lengthen(&mut self.bytes, other.end)?;
        }
        self.bytes[0..other.end].copy_from_slice(&other.bytes[..other.end]);
        self.end = other.end;
        Ok(())
    }

    /// Appends bytes. Fails if memory runs out, and then changes nothing.
    pub fn append(&mut self, bytes: &[u8]) -> Result<(), AllocError>
        ensures grown { OnOk result (Grown self.old self.new bytes.now) }
        ensures kept { OnErr result (self.new ≡ self.old) }
    {
        let Some(end) = self.end.checked_add(bytes.len()) else {
            return Err(AllocError);
        };
        if end > self.bytes.len() {
            lengthen(&mut self.bytes, end)?;
        }
        self.bytes[self.end..end].copy_from_slice(bytes);
        self.end = end;
        Ok(())
    }

    // Appends the name and the value of a label, after the quote that ends the label before and a comma, if there is one. It takes room
    // once. Fails if memory runs out, and then changes nothing.
    #[inline(always)]
    pub(crate) fn put_label(
        &mut self,
        is_first: bool,
        name: &[u8],
        value: &[u8],
    ) -> Result<(), AllocError>
        ensures grown { OnOk result
            (Grown self.old self.new (name_in_list is_first name.now ++ value.now)) }
        ensures kept { OnErr result (self.new ≡ self.old) }
    {
        let end = self
            .end
            .saturating_add(name.len())
            .saturating_add(value.len())
            .saturating_add(4);
        if end > self.bytes.len() {
            lengthen(&mut self.bytes, end)?;
        }
        let at = if is_first {
            self.end
        } else {
            write_at(&mut self.bytes, self.end, b"\",")
        };
        let at = write_at(&mut self.bytes, at, name);
        let at = write_at(&mut self.bytes, at, b"=\"");
        self.end = write_at(&mut self.bytes, at, value);
        Ok(())
    }

    // Appends the line of a sample: its front, a list of labels without the quote at its end, and a value. It takes room once. Fails if
    // memory runs out.
    #[inline(always)]
    pub(crate) fn put_row(
        &mut self,
        front: &[u8],
        list: &[u8],
        value: &[u8],
    ) -> Result<(), AllocError>
        ensures { OnOk result (Grown self.old self.new
            (front.now ++ (list.now ++ (codes "\"} " ++ (value.now ++ codes "\n"))))) }
    {
        let end = self
            .end
            .saturating_add(front.len())
            .saturating_add(list.len())
            .saturating_add(value.len())
            .saturating_add(4);
        if end > self.bytes.len() {
            lengthen(&mut self.bytes, end)?;
        }
        let at = write_at(&mut self.bytes, self.end, front);
        let at = write_at(&mut self.bytes, at, list);
        let at = write_at(&mut self.bytes, at, b"\"} ");
        let at = write_at(&mut self.bytes, at, value);
        self.end = write_at(&mut self.bytes, at, b"\n");
        Ok(())
    }

    // The same where the front is a name, a suffix and a brace.
    #[inline(always)]
    pub(crate) fn put_named_row(
        &mut self,
        name: &[u8],
        suffix: &[u8],
        list: &[u8],
        value: &[u8],
    ) -> Result<(), AllocError>
        ensures { OnOk result (Grown self.old self.new (name.now ++ (suffix.now ++ (codes "{"
            ++ (list.now ++ (codes "\"} " ++ (value.now ++ codes "\n"))))))) }
    {
        let end = self
            .end
            .saturating_add(name.len())
            .saturating_add(suffix.len())
            .saturating_add(list.len())
            .saturating_add(value.len())
            .saturating_add(5);
        if end > self.bytes.len() {
            lengthen(&mut self.bytes, end)?;
        }
        let at = write_at(&mut self.bytes, self.end, name);
        let at = write_at(&mut self.bytes, at, suffix);
        let at = write_at(&mut self.bytes, at, b"{");
        let at = write_at(&mut self.bytes, at, list);
        let at = write_at(&mut self.bytes, at, b"\"} ");
        let at = write_at(&mut self.bytes, at, value);
        self.end = write_at(&mut self.bytes, at, b"\n");
        Ok(())
    }
}

impl Output for GrowingText {
    ghost stands_for = { λ output text. output ≡ text };

    fn put(&mut self, bytes: &[u8]) -> Result<(), AllocError> {
        self.append(bytes)
    }

    // If memory runs out, nothing changes.
    #[inline(always)]
    fn put_three(&mut self, first: &[u8], second: &[u8], third: &[u8]) -> Result<(), AllocError>
        ensures grown { OnOk result
            (Grown self.old self.new (first.now ++ (second.now ++ third.now))) }
        ensures kept { OnErr result (self.new ≡ self.old) }
    {
        let end = self
            .end
            .saturating_add(first.len())
            .saturating_add(second.len())
            .saturating_add(third.len());
        if end > self.bytes.len() {
            lengthen(&mut self.bytes, end)?;
        }
        let at = write_at(&mut self.bytes, self.end, first);
        let at = write_at(&mut self.bytes, at, second);
        self.end = write_at(&mut self.bytes, at, third);
        Ok(())
    }

    fn put_output(&mut self, other: &GrowingText) -> Result<(), AllocError> {
        self.append(other.as_slice())
    }

    fn reset(&mut self) {
        self.clear();
    }
}

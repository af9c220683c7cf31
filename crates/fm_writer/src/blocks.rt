//! A text in blocks, so that a long one isn't moved while it grows.
ghost use Rattle.std.specs.Prelude.{◌≡◌, ◌++◌, [], OnOk, OnErr, IfErr};
ghost use Rattle.std.specs.Io.KnownBytes.{Appends};
ghost use Rattle.fm_exposition.specs.Written.{AppendsBeginning, IsWritersFault};
ghost use Rattle.fm_text.specs.inside.Grown.{Grown};

use fm_exposition::write_text;
use fm_raw::EncodeError;
use fm_text::GrowingText;
use std::alloc::{AllocError, Global};
use std::io::Write;
use std::marker::Model;
use std::mem;

// How many bytes a block has room for, but for the first one, which grows up to this.
const BLOCK: usize = 65_536;

// How many bytes the first block has room for at first.
const FIRST_ROOM: usize = 4_096;

// From how many bytes on a block is full. The line that is appended last mostly fits into what is left.
const FULL: usize = 64_512;

/// A text in blocks: full ones, and the last one, to whose end a text is appended. Another text may come in their place, and takes the
/// same blocks in the same order.
pub struct TextBlocks {
    alloc: Global,
    // The full ones, and behind them those that the text before left, which are taken next.
    blocks: Vec<GrowingText>,
    // How many are full.
    full: usize,
    pub(crate) last: GrowingText,
    // Whether the first block was given its room.
    has_room: bool,
}

impl Drop for TextBlocks {
    fn drop(self) {
        let TextBlocks {
            alloc: _,
            blocks: _,
            full: _,
            last: _,
            has_room: _,
        } = self;
    }
}

impl Model for TextBlocks {
    ghost use Rattle.std.specs.Prelude.{◌++◌, ◌≤◌, length, take};
    ghost use Rattle.std.specs.List.{concat};
    ghost use Rattle.fm_grammar.specs.Exposition.{Text};

    ghost Value = { Text };

    ghost view = { λ b. concat (take b.full b.blocks.items) ++ b.last };

    ghost invariant = { λ b. b.full ≤ length b.blocks.items };
}

impl TextBlocks {
    /// An empty text. It takes no memory.
    pub fn new(alloc: Global) -> TextBlocks
        ensures { result ≡ [] }
    {
        TextBlocks {
            alloc,
            blocks: Vec::new(alloc),
            full: 0,
            last: GrowingText::new(alloc),
            has_room: false,
        }
    }

    /// Removes the text, and keeps its blocks for the next one. Those that it left of the text before are given back.
    pub fn clear(&mut self)
        ensures { self.new ≡ [] }
    {
        self.blocks.truncate(self.full);
        self.full = 0;
        if let Some(first) = self.blocks.first_mut() {
            mem::swap(first, &mut self.last);
            self.blocks.rotate_left(1);
        }
        self.last.clear();
    }

    /// Appends bytes. Fails if memory runs out.
    pub fn append(&mut self, bytes: &[u8]) -> Result<(), AllocError>
        ensures { OnOk result (Grown self.old self.new bytes.now) }
    {
        self.last.append(bytes)
    }

    /// Writes the text, block by block. Fails with `Write` if the writer returns an error, and with `WriteZero` if it returns 0; then only
    /// a beginning of the text was written. No call is tried again, and the writer is not flushed.
    pub fn write_to<W: Write>(&self, writer: &mut W) -> Result<(), EncodeError>
        ensures ok { OnOk result (Appends (W.contents writer.old) (W.contents writer.new) self.now) }
        ensures stopped { OnErr result
            (AppendsBeginning (W.contents writer.old) (W.contents writer.new) self.now) }
        ensures fault { IfErr result IsWritersFault }
    {
        for block in &self.blocks[..self.full] {
            write_text(writer, block.as_slice())?;
        }
        write_text(writer, self.last.as_slice())
    }

    // Takes room for the first lines of a text at once. Fails if memory runs out. The text stays as it is.
    pub(crate) fn begin(&mut self) -> Result<(), AllocError>
        ensures { self.new ≡ self.old }
    {
        if !self.has_room && self.last.as_slice().is_empty() {
            self.last = GrowingText::with_capacity(self.alloc, FIRST_ROOM)?;
            self.has_room = true;
        }
        Ok(())
    }

    // Begins another block if the last one is full. Fails if memory runs out. The text stays as it is.
    #[inline(always)]
    pub(crate) fn settle(&mut self) -> Result<(), AllocError>
        ensures { self.new ≡ self.old }
    {
        if self.last.as_slice().len() < FULL {
            return Ok(());
        }
        self.begin_block()
    }

    #[cold]
    fn begin_block(&mut self) -> Result<(), AllocError>
        ensures { self.new ≡ self.old }
    {
        if self.full < self.blocks.len() {
            mem::swap(&mut self.blocks[self.full], &mut self.last);
            self.last.clear();
        } else {
            let next = GrowingText::with_capacity(self.alloc, BLOCK)?;
            self.blocks.reserve(1)?;
            self.blocks
                .push_reserved(mem::replace(&mut self.last, next));
        }
        self.full += 1;
        Ok(())
    }
}

// What a text is rendered to: a text that grows, or only the size of the text.
ghost use Rattle.std.specs.Prelude.{◌≡◌, ◌+◌, ◌-◌, ◌^◌, ◌++◌, [], min, OnOk};
ghost use Rattle.fm_grammar.specs.Exposition.{Text};
ghost use Rattle.fm_text.specs.inside.Grown.{Grows, size_of};

use std::alloc::AllocError;

/// What a text is rendered to.
pub trait Output {
    // The texts that it may represent.
    ghost stands_for: { Self → Text → Type 0 };

    // Appends bytes. Fails if memory runs out.
    fn put(&mut self, bytes: &[u8]) -> Result<(), AllocError>
        ensures { OnOk result (Grows (stands_for self.old) (stands_for self.new) bytes.now) };

    // Appends three pieces. Fails if memory runs out.
    fn put_three(&mut self, first: &[u8], second: &[u8], third: &[u8]) -> Result<(), AllocError>
        ensures { OnOk result (Grows (stands_for self.old) (stands_for self.new)
            (first.now ++ (second.now ++ third.now))) };

    // Appends what another output represents. Fails if memory runs out.
    fn put_output(&mut self, other: &Self) -> Result<(), AllocError>
        ensures { (text : Text) → stands_for other.now text
            → OnOk result (Grows (stands_for self.old) (stands_for self.new) text) };

    // Removes everything.
    fn reset(&mut self)
        ensures { stands_for self.new [] };
}

/// The size of a text in bytes. A size above the greatest `usize` counts as the greatest `usize`.
#[derive(Drop)]
pub struct Size {
    /// The size of the text so far.
    pub size: usize,
    /// The greatest size so far, before removals too.
    pub greatest: usize,
}

impl Size {
    /// The size of an empty text.
    pub fn new() -> Size {
        Size {
            size: 0,
            greatest: 0,
        }
    }

    fn add(&mut self, count: usize)
        ensures { self.new.size ≡ min (self.old.size + count) (2 ^ 64 - 1) }
    {
        self.size = self.size.saturating_add(count);
        self.greatest = self.greatest.max(self.size);
    }
}

impl Output for Size {
    ghost stands_for = { λ output text. output.size ≡ size_of text };

    fn put(&mut self, bytes: &[u8]) -> Result<(), AllocError> {
        self.add(bytes.len());
        Ok(())
    }

    #[tactic(auto, using(crate::proofs::GrownLemmas::grown))]
    fn put_three(&mut self, first: &[u8], second: &[u8], third: &[u8]) -> Result<(), AllocError> {
        self.put(first)?;
        self.put(second)?;
        self.put(third)
    }

    fn put_output(&mut self, other: &Size) -> Result<(), AllocError> {
        self.add(other.size);
        Ok(())
    }

    fn reset(&mut self) {
        self.size = 0;
    }
}

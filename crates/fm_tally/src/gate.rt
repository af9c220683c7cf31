//! Gates, which decide whether a worker may observe its piece.
ghost use Rattle.std.specs.Prelude.{◌≡◌, ℕ, false};

/// Lets pieces through or refuses them. Each worker calls it before it observes its piece.
///
/// A gate that refuses all pieces from one on:
///
/// <!-- cut: tests/unit/src/fm_tally_observe_all.rt.in -->
/// ```rust
/// impl Gate for RefusesFrom {
///     // ..
///     fn pass(&self, piece: usize) -> bool {
///         piece < self.0
///     }
/// }
/// ```
pub trait Gate: Sync {
    /// Whether the gate may refuse a piece.
    ghost may_refuse: { Self → ℕ → Type 0 };

    /// Whether this piece, counted from 0, may be observed. It may wait until it is called for other pieces: all
    /// workers run at the same time.
    fn pass(&self, piece: usize) -> bool
        ensures { result ≡ false → may_refuse self.now piece };
}

/// A gate that lets every piece through.
///
/// <!-- cut: tests/scripts/src/tallies.rt.in -->
/// ```rust
/// let bounds = bounds_of(alloc, line.word(1))?;
/// let pieces = pieces_of(alloc, line.word(2))?;
/// // ..
/// let all = observe_all(rt, alloc, bounds.as_slice(), pieces.as_slice(), &OpenGate)?;
/// ```
#[derive(Clone, Copy, Debug)]
pub struct OpenGate;

impl Gate for OpenGate {
    ghost may_refuse = { λ _ _. ⊥ };

    fn pass(&self, _piece: usize) -> bool {
        true
    }
}

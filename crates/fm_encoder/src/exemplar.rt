//! Exemplars: what emits them, and the encoder that takes one of them.
//!
//! <!-- cut: crates/own_metric/src/histograms.rt -->
//! ```rust
//! fn encode(&self, encoder: &mut MetricEncoder) -> Result<(), EncodeError> {
//!     let exemplars = [Some(&self.trace), None];
//!     encoder.encode_histogram(&self.buckets, &exemplars, self.requests, self.seconds, None)
//! }
//! ```
ghost use Rattle.std.specs.Prelude.{◌≡◌, ◌^◌, ◌⊎◌, List, [], ◌∷◌, MatchResult, Option, IfSome, None, Some, Err};
ghost use Rattle.std.specs.Option.{option_map};
ghost use Rattle.fm_grammar.specs.declared.MetricType.TheVariants.{Unknown};
ghost use Rattle.fm_grammar.specs.WellFormed.{IsBetween, IsExemplar};
ghost use Rattle.fm_grammar.specs.LabelPairs.{labels_of};
ghost use Rattle.fm_exposition.specs.Samples.{exemplar_of};
ghost use Rattle.fm_labels.specs.Labels.{LabelsValid, LabelsFault, all_written};
ghost use Rattle.fm_encoder.specs.Points.{EmittedExemplar, ExemplarPartsValid, ExemplarPartsFault, ExemplarValid, ExemplarFault, written_as, written_exemplar, millis};
ghost use Rattle.fm_labels.specs.Refusals.{OwnRefusal};
ghost use Rattle.fm_encoder.specs.Emits.{EmitsExemplars};
ghost use Rattle.fm_encoder.specs.Takes.{TakesExemplars};

use crate::time::whole_millis;
use fm_exposition::exemplar_limit::are_short;
use fm_exposition::{Exemplar, make};
use fm_grammar::MetricType;
use fm_labels::collecting::first_refusal::FirstRefusal;
use fm_labels::collecting::gathering;
use fm_labels::label_set::EncodeLabelSet;
use fm_raw::EncodeError;
use fm_raw::fixed::Fixed;
use std::alloc::Global;
use std::marker::Model;
use std::time::Duration;

mod exemplar_labels;
mod labeled;

pub use exemplar_labels::ExemplarLabels;
pub use labeled::LabeledExemplar;

/// A source of an exemplar, or of none.
///
/// <!-- cut: tests/scripts/src/own/exemplar.rt.in -->
/// ```rust
/// impl EncodeExemplar for OwnExemplar {
///     // ..
///     fn encode(&self, encoder: &mut ExemplarEncoder) -> Result<(), EncodeError> {
/// ```
pub trait EncodeExemplar {
    /// The exemplars that `encode` emits. A point whose source emits more than one is refused.
    ghost exemplars: { Self → List EmittedExemplar };

    /// `encode` may return an error of its own other than `Memory`.
    ghost may_fault: { Self → Type 0 } = { λ _. ⊥ };

    /// Passes the exemplar to the encoder.
    fn encode(&self, encoder: &mut ExemplarEncoder) -> Result<(), EncodeError>
        ensures { EmitsExemplars (exemplars self.now) (may_fault self.now)
            encoder.old encoder.new result };
}

/// No exemplar.
impl EncodeExemplar for () {
    ghost exemplars = { λ _. [] };

    fn encode(&self, encoder: &mut ExemplarEncoder) -> Result<(), EncodeError> {
        let _ = &encoder;
        Ok(())
    }
}

/// Takes the exemplar of a sample.
///
/// <!-- cut: tests/scripts/src/own/exemplar.rt.in -->
/// ```rust
/// for (labels, value) in &self.all {
///     encoder.encode(labels, *value, self.time)?;
/// }
/// ```
#[derive(Drop)]
pub struct ExemplarEncoder {
    alloc: Global,
    exemplar: Option<Exemplar>,
    refused: FirstRefusal,
}

impl Model for ExemplarEncoder {
    ghost use Rattle.std.specs.Prelude.{IfSome};
    ghost use Rattle.std.specs.Option.{option_to_list, option_map};
    ghost use Rattle.fm_grammar.specs.WellFormed.{IsExemplar};
    ghost use Rattle.fm_exposition.specs.Samples.{exemplar_of};
    ghost use Rattle.fm_encoder.specs.Gathered.{GatheredExemplars};

    ghost Value = { GatheredExemplars };

    ghost view = { λ e. record {
      exemplars = option_to_list (option_map exemplar_of e.exemplar);
      refused = e.refused.error;
    } };

    ghost invariant = { λ e. IfSome e.exemplar (λ x. IsExemplar (exemplar_of x)) };
}

impl ExemplarEncoder {
    /// Takes the exemplar: its labels, the observed value, and when it was observed, since the Unix epoch. The time is written in
    /// whole milliseconds. The labels are read even if their `is_empty` returns true.
    ///
    /// Errors, in this order: the encoder already has an exemplar (`ExemplarTwice`); the errors of its labels, of which no name
    /// is reserved; their names and values together have more than 128 code points (`ExemplarTooLong`). Fails with `Memory` if
    /// memory runs out.
    pub fn encode<LS: EncodeLabelSet>(
        &mut self,
        labels: &LS,
        value: Fixed,
        time: Option<Duration>,
    ) -> Result<(), EncodeError>
        ensures { TakesExemplars
            (record { labels = LS.labels labels.now; value = value; time = option_map millis time }
            ∷ [])
            (LS.may_fault labels.now) self.old self.new result }
    {
        self.refused.check()?;
        if self.exemplar.is_some() {
            return self.refused.refuse(EncodeError::ExemplarTwice);
        }
        match exemplar_from(self.alloc, labels, value, time) {
            Ok(exemplar) => {
                self.exemplar = Some(exemplar);
                Ok(())
            }
            Err(error) => self.refused.refuse(error),
        }
    }
}

// The exemplar of these parts.
fn exemplar_from<LS: EncodeLabelSet>(
    alloc: Global,
    labels: &LS,
    value: Fixed,
    time: Option<Duration>,
) -> Result<Exemplar, EncodeError>
    ensures { let emitted : EmittedExemplar =
        record { labels = LS.labels labels.now; value = value; time = option_map millis time } in
        MatchResult result
        (λ x. ExemplarPartsValid emitted
        × (exemplar_of x ≡ written_as emitted)
        × IsExemplar (exemplar_of x))
        (λ k. OwnRefusal (LS.may_fault labels.now) k ⊎ ExemplarPartsFault k emitted) }
{
    let written = written_labels(alloc, labels)?;
    if !are_short(&written) {
        return Err(EncodeError::ExemplarTooLong);
    }
    Ok(make::exemplar(written, in_range(value), whole_millis(time)))
}

// The same value, whose range is known.
#[tactic(auto, using(crate::proofs::ExemplarLemmas::between_of_signed))]
fn in_range(value: Fixed) -> Fixed
    ensures same { result ≡ value }
    ensures fits { IsBetween (2 ^ 63) (2 ^ 63) value }
{
    Fixed::from_millionths(value.millionths())
}

// The labels that a label set emits, for an exemplar.
fn written_labels<LS: EncodeLabelSet>(
    alloc: Global,
    labels: &LS,
) -> Result<Vec<(String, String)>, EncodeError>
    ensures { MatchResult result
        (λ ls. LabelsValid Unknown [] (LS.labels labels.now)
        × (labels_of ls.items ≡ all_written (LS.labels labels.now)))
        (λ k. OwnRefusal (LS.may_fault labels.now) k
        ⊎ LabelsFault k Unknown [] (LS.labels labels.now)) }
{
    let mut encoder = gathering::new(alloc, MetricType::Unknown);
    let visited = labels.encode(&mut encoder);
    gathering::outcome(&encoder, visited)?;
    Ok(gathering::text(&encoder).to_owned(alloc)?)
}

// The exemplar that a source emits, if it emits one.
pub(crate) fn exemplar_given<E: EncodeExemplar>(
    alloc: Global,
    exemplar: &E,
) -> Result<Option<Exemplar>, EncodeError>
    ensures { MatchResult result
        (λ found. ExemplarValid (E.exemplars exemplar.now)
        × (option_map exemplar_of found ≡ written_exemplar (E.exemplars exemplar.now))
        × IfSome found (λ x. IsExemplar (exemplar_of x)))
        (λ k. OwnRefusal (E.may_fault exemplar.now) k
        ⊎ ExemplarFault k (E.exemplars exemplar.now)) }
{
    let mut encoder = ExemplarEncoder {
        alloc,
        exemplar: None,
        refused: FirstRefusal { error: None },
    };
    let visited = exemplar.encode(&mut encoder);
    let ExemplarEncoder {
        exemplar,
        refused,
        ..
    } = encoder;
    refused.outcome(visited)?;
    Ok(exemplar)
}

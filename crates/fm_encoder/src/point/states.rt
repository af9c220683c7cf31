//! The points of state sets and infos.
ghost use Rattle.std.specs.Prelude.{◌≡◌, ◌⊎◌, [], ◌∷◌, None, Contains, map};
ghost use Rattle.fm_grammar.specs.declared.MetricType.{MetricType};
ghost use Rattle.fm_encoder.specs.Points.{StateSetPoint, InfoPoint};
ghost use Rattle.fm_encoder.specs.inside.Samples.{state_sample};
ghost use Rattle.fm_labels.specs.Labels.{label_names};
ghost use Rattle.fm_encoder.specs.States.{state_of};
ghost use Rattle.fm_labels.specs.Refusals.{Takes, NoFault};
ghost use Rattle.fm_encoder.specs.Takes.{TakesPoints};
ghost use Rattle.fm_encoder.specs.inside.Steps.{PushesSample, PushesSamples, TestsStates};

use crate::point::PointEncoder;
use fm_exposition::Value;
use fm_grammar::{MetricType, SampleKind};
use fm_labels::collecting::after::gather_labels_after;
use fm_labels::collecting::gathering;
use fm_labels::label_set::EncodeLabelSet;
use fm_raw::EncodeError;
use fm_text::LabelText;

impl PointEncoder {
    /// Takes a state set's point: each state's text, and whether the state is on. The label of a state has the family's name.
    ///
    /// Errors, in this order: the family has another type (`KindMismatch`); the errors of the labels; there are states and a
    /// common label has the family's name (`DuplicateLabel`). Fails with `Memory` if memory runs out.
    pub fn encode_stateset(&mut self, states: Vec<(&str, bool)>) -> Result<(), EncodeError>
        ensures { TakesPoints
            (λ ps. ps ≡ StateSetPoint (map state_of states.entry.items) ∷ [])
            NoFault self.old self.new result }
    {
        self.encode_states(states.as_slice())
    }

    fn encode_states(&mut self, states: &[(&str, bool)]) -> Result<(), EncodeError>
        ensures { TakesPoints
            (λ ps. ps ≡ StateSetPoint (map state_of states.now) ∷ [])
            NoFault self.old self.new result }
    {
        self.begin_point(MetricType::StateSet)?;
        self.test_states(states.is_empty())?;
        let mut own = self.take_own();
        let pushed = self.push_states(&mut own, states);
        self.keep_own(own);
        pushed
    }

    // Refuses the states if there are any and a common label has the family's name.
    fn test_states(&mut self, is_empty: bool) -> Result<(), EncodeError>
        requires accepting { self.old.refused ≡ None }
        ensures { Takes (TestsStates is_empty self.old self.new) self.new.refused result }
    {
        if !is_empty && gathering::text(&self.labels).has_name(self.name.as_str()) {
            return self.refused.refuse(EncodeError::DuplicateLabel);
        }
        Ok(())
    }

    // Adds a sample for each state, in order.
    fn push_states(
        &mut self,
        own: &mut LabelText,
        states: &[(&str, bool)],
    ) -> Result<(), EncodeError>
        requires accepting { self.old.refused ≡ None }
        requires state_set { self.old.setting.metric_type ≡ MetricType.StateSet }
        requires fresh { (states.now ≡ [])
            ⊎ (¬ (Contains (label_names self.old.common) self.old.setting.name)) }
        ensures { Takes (PushesSamples
            (map (state_sample self.old.setting self.old.common) (map state_of states.now))
            self.old self.new) self.new.refused result }
    {
        for state in states {
            self.push_state(own, state)?;
        }
        Ok(())
    }

    // Adds the sample of one state, under an own label of the family's name.
    fn push_state(&mut self, own: &mut LabelText, state: &(&str, bool)) -> Result<(), EncodeError>
        requires accepting { self.old.refused ≡ None }
        requires state_set { self.old.setting.metric_type ≡ MetricType.StateSet }
        requires fresh { ¬ (Contains (label_names self.old.common) self.old.setting.name) }
        ensures { Takes (PushesSample
            (state_sample self.old.setting self.old.common (state_of state.now))
            self.old self.new) self.new.refused result }
    {
        own.clear();
        if let Err(_) = own.push(self.name.as_str(), state.0) {
            return self.refused.refuse(EncodeError::Memory);
        }
        let value = Value::Whole(if state.1 { 1 } else { 0 });
        self.push_labeled(SampleKind::Plain, own, &value, None)
    }

    /// Takes an info's point: its labels, which come after the common ones. Errors, in this order: the family has another type
    /// (`KindMismatch`); the errors of the common labels; the errors of its own labels. Fails with `Memory` if memory runs out.
    pub fn encode_info<LS: EncodeLabelSet>(&mut self, labels: &LS) -> Result<(), EncodeError>
        ensures { TakesPoints
            (λ ps. ps ≡ InfoPoint (LS.labels labels.now) ∷ [])
            (LS.may_fault labels.now) self.old self.new result }
    {
        self.begin_point(MetricType::Info)?;
        match gather_labels_after(
            self.alloc,
            gathering::metric_type(&self.labels),
            gathering::text(&self.labels),
            labels,
        ) {
            Ok(own) => self.push_labeled(SampleKind::Info, &own, &Value::Whole(1), None),
            Err(error) => self.refused.refuse(error),
        }
    }
}

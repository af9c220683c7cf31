//! A sample that a sink takes.
use fm_exposition::{Exemplar, Value};
use fm_grammar::SampleKind;
use fm_text::LabelText;

/// A sample of a family, on its way to a sink.
pub struct NewSample<'a> {
    /// Its kind, which decides the suffix of its name.
    pub kind: SampleKind,
    /// The labels that it shares with the other samples of its member.
    pub common: &'a LabelText,
    /// The labels of its own, which come after the common ones.
    pub own: &'a LabelText,
    /// Its value.
    pub value: Value,
    /// Its time in milliseconds.
    pub time: Option<u128>,
    /// Its exemplar.
    pub exemplar: Option<Exemplar>,
}

impl Drop for NewSample<'_> {
    fn drop(self) {
        let NewSample {
            kind: _,
            common: _,
            own: _,
            value: _,
            time: _,
            exemplar: _,
        } = self;
    }
}

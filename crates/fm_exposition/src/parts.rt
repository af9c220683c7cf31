//! What the accessors of families and samples don't show: which samples form a point, and which labels they share. It
//! is for renderers of expositions.
ghost use Rattle.std.specs.Prelude.{◌≡◌};
ghost use Rattle.fm_exposition.specs.inside.Points.{AreInPoints, HaveUtf8Labels};
ghost use Rattle.fm_exposition.specs.Samples.{samples_of, common_labels, own_labels};

use crate::exposition::{FamilySamples, Sample};
use fm_grammar::LabelList;

/// The number of samples of each point of a family, and all its samples. Those of one point share their common labels.
pub fn points(family: &FamilySamples) -> (&[usize], &[Sample])
    ensures points { AreInPoints result.0.now result.1.now }
    ensures utf8 { HaveUtf8Labels result.1.now }
    ensures samples { samples_of result.1.now ≡ family.now.samples }
{
    family.points()
}

/// The labels that a sample shares with its point's other samples.
pub fn common(sample: &Sample) -> &LabelList
    ensures { result.now ≡ common_labels sample.now }
{
    &sample.common
}

/// The labels that only this sample has, which come after the common ones.
pub fn own(sample: &Sample) -> &LabelList
    ensures { result.now ≡ own_labels sample.now }
{
    &sample.own
}

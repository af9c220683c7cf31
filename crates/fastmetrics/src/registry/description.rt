//! What a metric of a root is to be.
ghost use Rattle.std.specs.Prelude.{◌≡◌, [], true, None, Some};

use fm_raw::{Fixed, Unit};
use std::time::Duration;

/// What a metric, or a family of metrics, is to be: its name and its help, and what else differs from the usual.
///
/// <!-- cut: crates/server/src/main.rt -->
/// ```rust
/// let latency = Description::new("latency", "Time to serve").unit(Unit::Seconds);
/// Ok(Http {
///     sent: root.counter_with(Description::new("sent", "What was sent").unit(Unit::Bytes))?,
///     // ..
///     latency: root.histogram_with(latency.bounds(&bounds()))?,
///     // ..
/// })
/// ```
#[derive(Drop)]
pub struct Description<'a> {
    pub(crate) name: &'a str,
    pub(crate) help: &'a str,
    pub(crate) unit: Option<Unit>,
    pub(crate) bounds: Option<&'a [Fixed]>,
    pub(crate) created: Option<Duration>,
    pub(crate) labels: &'a [&'a str],
    pub(crate) limit: usize,
    pub(crate) fixed_hasher: bool,
}

impl<'a> Description<'a> {
    /// A metric of this name, with this help: without a unit and a time of creation, with the usual bounds if it is a histogram, and,
    /// if it is a family, without labels, and with any number of members.
    pub fn new(name: &'a str, help: &'a str) -> Description<'a>
        // It has the name and the help.
        ensures name { result.name.now ≡ name.now }
        ensures help { result.help.now ≡ help.now }
        // It has no unit, no time of creation and no labels.
        ensures unit { result.unit ≡ None }
        ensures created { result.created ≡ None }
        ensures labels { result.labels.now ≡ [] }
    {
        Description {
            name,
            help,
            unit: None,
            bounds: None,
            created: None,
            labels: &[],
            limit: usize::MAX,
            fixed_hasher: false,
        }
    }

    /// The same with this unit, which the name gets at its end.
    pub fn unit(self, unit: Unit) -> Description<'a>
        ensures { result ≡ record self.entry { unit = Some unit } }
    {
        Description {
            unit: Some(unit),
            ..self
        }
    }

    /// The same with these bounds of a histogram, in millionths, each once and in order, and with `Inf`. A histogram ignores negative
    /// ones; a gauge histogram takes all. Other kinds have no bounds.
    pub fn bounds(self, bounds: &'a [Fixed]) -> Description<'a>
        ensures { result ≡ record self.entry { bounds = Some bounds.entry } }
    {
        Description {
            bounds: Some(bounds),
            ..self
        }
    }

    /// The same with this time of creation since the Unix epoch, which is written in whole milliseconds. It is that of each member of a
    /// family. Gauges and gauge histograms have none.
    pub fn created(self, created: Duration) -> Description<'a>
        ensures { result ≡ record self.entry { created = Some created } }
    {
        Description {
            created: Some(created),
            ..self
        }
    }

    /// The same with these label names of a family, in order. A metric that is no family has none.
    pub fn labels(self, labels: &'a [&'a str]) -> Description<'a>
        ensures { result ≡ record self.entry { labels = labels.entry } }
    {
        Description { labels, ..self }
    }

    /// The same with so many members of a family at most.
    pub fn limit(self, limit: usize) -> Description<'a>
        ensures { result ≡ record self.entry { limit = limit } }
    {
        Description { limit, ..self }
    }

    /// The same with a hasher from a fixed state, by which a family finds a member sooner. Only where the program alone chooses the
    /// values of labels: others could choose many values with the same hash, which would make look-ups slow (hash flooding).
    pub fn fixed_hasher(self) -> Description<'a>
        ensures { result ≡ record self.entry { fixed_hasher = true } }
    {
        Description {
            fixed_hasher: true,
            ..self
        }
    }
}

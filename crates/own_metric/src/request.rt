//! The labels of a request.
ghost use Rattle.std.specs.Prelude.{◌≡◌, [], ◌∷◌, codes, decimal, if◌then◌else◌};
ghost use Rattle.fastmetrics.specs.OwnLabels.{label};
ghost use Rattle.own_metric.specs.declared.request.Method.TheVariants.{Get, Put};

use fastmetrics::encoder::{
    EncodeError, EncodeLabelSet, LabelSetEncoder, LabelValue, encode_labels,
};

/// How a request was made.
#[derive(Clone, Copy, PartialEq, Eq, Hash)]
pub enum Method {
    /// It reads.
    Get,
    /// It writes.
    Put,
}

impl Method {
    /// Its name in the protocol.
    pub fn as_str(self) -> &'static str
        ensures { result.now ≡ elim self [ Get ↦ codes "GET" | Put ↦ codes "PUT" ] }
    {
        match self {
            Method::Get => "GET",
            Method::Put => "PUT",
        }
    }
}

/// The method of a request and the status of its response.
#[derive(Clone, Copy, PartialEq, Eq, Hash)]
pub struct Request {
    /// How it was made.
    pub method: Method,
    /// The status number of the response.
    pub status: u16,
    /// Whether it failed.
    pub failed: bool,
}

impl EncodeLabelSet for Request {
    ghost labels = { λ r.
        label (codes "method") (elim r.method [ Get ↦ codes "GET" | Put ↦ codes "PUT" ])
        ∷ label (codes "status") (decimal r.status)
        ∷ label (codes "failed") (if r.failed then codes "true" else codes "false") ∷ [] };

    fn encode(&self, encoder: &mut LabelSetEncoder) -> Result<(), EncodeError> {
        encode_labels(
            encoder,
            &[
                ("method", LabelValue::Text(self.method.as_str())),
                ("status", LabelValue::Whole(u64::from(self.status))),
                ("failed", LabelValue::Truth(self.failed)),
            ],
        )
    }
}

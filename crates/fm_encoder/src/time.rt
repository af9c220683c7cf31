//! Times as documents write them.
ghost use Rattle.std.specs.Prelude.{◌≡◌, IfSome};
ghost use Rattle.std.specs.Option.{option_map};
ghost use Rattle.fm_grammar.specs.WellFormed.{AreMillis};
ghost use Rattle.fm_encoder.specs.Points.{millis};

use std::time::Duration;

/// The whole milliseconds of a time, if there is one.
pub fn whole_millis(time: Option<Duration>) -> Option<u128>
    ensures value { result ≡ option_map millis time }
    ensures range { IfSome result AreMillis }
{
    match time {
        Some(time) => Some(time.as_millis()),
        None => None,
    }
}

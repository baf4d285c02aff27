//! Why bytes are no input.

use hops_base::NoMemory;
use script_text::ScriptFault;
use thiserror::Error;

/// The first rule that bytes break, as they are tested. The rules and their order are this project's own.
#[derive(Clone, Copy, Debug, PartialEq, Eq, Error)]
pub enum InputFault {
    /// They are no text of a JSON object with exactly the keys `script` and `events`. The JSON is in UTF-8, with arrays
    /// and objects nested to 127; of a key that stands twice the last value counts.
    #[error("bad input")]
    Form,
    /// The script breaks a rule of scripts.
    #[error("bad script, rule {}, at {}, call {}", .0.rule, .0.at, .0.call)]
    OfScript(ScriptFault),
    /// The events are no array of at most 1,000,000.
    #[error("bad events")]
    Events,
    /// The event at this place, from 0, is the first that has none of the forms of events.
    #[error("bad event {0}")]
    Event(u64),
}

/// Why bytes gave no input.
#[derive(Clone, Copy, Debug, PartialEq, Eq, Error)]
pub enum InputError {
    /// They are no input.
    #[error("{0}")]
    Bad(InputFault),
    /// Memory ran out.
    #[error("out of memory")]
    NoMemory,
}

impl From<NoMemory> for InputError {
    ghost use Rattle.std.specs.Prelude.{◌≡◌};
    ghost use Rattle.core_replay.specs.declared.fault.InputError.TheVariants as told;

    ghost from_gives = { λ _ error. error ≡ told.NoMemory };

    fn from(_error: NoMemory) -> InputError {
        InputError::NoMemory
    }
}

//! Why bytes are no script.

ghost use Rattle.std.specs.Prelude.{◌≡◌};
ghost use Rattle.script_text.specs.Faults.{fault};

use hops_base::{NoMemory, PathFault};
use thiserror::Error;

/// The first rule that bytes break, as scripts are tested. The rules are this project's own:
///
/// 1. The bytes are JSON in UTF-8 with arrays and objects nested to 127; else `at` is the count of the
///    bytes.
/// 2. The value is an object.
/// 3. Each key is one of `clients`, `grace`, `namenodes`, `persist`, `stops`, `tries` and `version`.
/// 4. `version` is 1.
/// 5. `namenodes` is 1 to 16.
/// 6. `tries` is 1 to 1,000,000, where it is there.
/// 7. `grace` is 1 to 1,000,000, where it is there.
/// 8. `persist` is a truth value, where it is there.
/// 9. `stops` is an array of stops, where it is there: each an array of a namenode and the number, 1 to
///    1,000,000, of a commit, and no two of one namenode. Else `at` is the place of the first bad one, and
///    0 where there is no array.
/// 10. `clients` is an array of at most 64.
/// 11. Client `at` is an object with the keys `calls` and `user` and no other.
/// 12. Its user is a user.
/// 13. Its calls are an array of at most 65,536.
/// 14. Its call number `call` has a known name and behind it the values that such a call has, in count and
///     in type.
/// 15. Each path of the call can be read; else `path` has the first refusal.
/// 16. The numbers of the call are in their ranges.
///
/// Rules 1 to 10 are tested first, and then the clients in their order: of each rules 11, 12 and 13, and
/// then its calls in their order, of each rules 14, 15 and 16. `at` and `call` are 0 where nothing is said.
#[derive(Clone, Copy, Debug, PartialEq, Eq)]
pub struct ScriptFault {
    /// The number of the rule.
    pub rule: u8,
    /// The count of bytes, the place of a stop, or the client, from 0.
    pub at: u64,
    /// The call of the client, from 1.
    pub call: u32,
    /// Why the path was refused.
    pub path: Option<PathFault>,
}

impl ScriptFault {
    // The fault by a rule at a place and a call, where no path is refused.
    pub(crate) fn new(rule: u8, at: u64, call: u32) -> ScriptFault
        ensures { result ≡ fault rule at call }
    {
        ScriptFault {
            rule,
            at,
            call,
            path: None,
        }
    }
}

/// Why bytes gave no script.
#[derive(Clone, Copy, Debug, PartialEq, Eq, Error)]
pub enum ScriptError {
    /// They are no script.
    #[error("bad script, rule {}, at {}, call {}", .0.rule, .0.at, .0.call)]
    Bad(ScriptFault),
    /// Memory ran out.
    #[error("out of memory")]
    NoMemory,
}

impl From<NoMemory> for ScriptError {
    ghost use Rattle.script_text.specs.declared.fault.ScriptError.TheVariants as told;

    ghost from_gives = { λ _ error. error ≡ told.NoMemory };

    fn from(_error: NoMemory) -> ScriptError {
        ScriptError::NoMemory
    }
}

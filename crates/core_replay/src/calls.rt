//! The calls of a script, by number.

ghost use Rattle.std.specs.Prelude.{◌≡◌, option_copied};
ghost use Rattle.name_space.specs.Script.{call_of};

use hops_base::ClientNo;
use name_space::Call;
use script_text::Script;

/// A client's call of a number, from 1. None exactly where there is no such client or call.
pub fn call_of(script: &Script, client: ClientNo, number: u32) -> Option<&Call>
    ensures { option_copied result ≡ call_of script.now client number }
{
    let one = script.clients().get(client.0 as usize)?;
    if number == 0 {
        return None;
    }
    one.calls().get(number as usize - 1)
}

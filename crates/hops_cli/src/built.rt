//! What is built.

ghost use Rattle.std.specs.Prelude.{◌≡◌, ◌≤◌, ◌<◌, length, not, IfSome};
ghost use Rattle.std.specs.List.{position_from};
ghost use Rattle.name_space.specs.Script.{most_calls};
ghost use Rattle.hops_core.specs.Built.{is_built};
ghost use Rattle.hops_cli.specs.Built.{unbuilt_in, unbuilt};

use hops_core::is_built;
use name_space::Call;
use script_text::Script;

/// What a script needs first that isn't built: client 0 and call 0 where its counts of namenodes or clients
/// or its stops aren't, and else the client and the number, from 1, of its first call of a kind that isn't.
pub fn unbuilt(script: &Script) -> Option<(u32, u32)>
    ensures { result ≡ unbuilt script.now }
{
    if script.namenodes() != 1 || script.stops().len() != 0 {
        return Some((0, 0));
    }
    match script.clients() {
        [] => None,
        [client] => {
            let number = unbuilt_in(client.calls())?;
            Some((0, number))
        }
        _ => Some((0, 0)),
    }
}

// The number of the first call of a kind that isn't built.
fn unbuilt_in(calls: &[Call]) -> Option<u32>
    requires { length calls.now ≤ most_calls }
    ensures { result ≡ unbuilt_in calls.now }
{
    let place = unbuilt_place(calls)?;
    Some(place as u32 + 1)
}

// Its place, from 0.
fn unbuilt_place(calls: &[Call]) -> Option<usize>
    ensures place { result ≡ position_from (λ (call : Call). not (is_built call)) 0 calls.now }
    ensures within { IfSome result (λ place. place < length calls.now) }
{
    calls.iter().position(|call| !is_built(call))
}

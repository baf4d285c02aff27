//! What isn't built.

ghost use Rattle.std.specs.Prelude.{◌≡◌, not};
ghost use Rattle.std.specs.List.{position_from};
ghost use Rattle.core_replay.specs.declared.listed.Listed.{Listed};
ghost use Rattle.core_replay.specs.Built.{is_built_event, first_unbuilt};

use crate::calls::call_of;
use crate::listed::Listed;
use hops_core::is_built;
use script_text::Script;

/// What an input needs that isn't built yet.
#[derive(Clone, Copy, Debug, PartialEq, Eq)]
pub enum Unbuilt {
    /// Its script has stops.
    Script,
    /// The event at this place, from 0: it stops a namenode, beats or sweeps, or begins a call of a kind that isn't built.
    Event(u64),
}

/// What an input needs first that isn't built: what its script does, and else its first event that isn't.
pub fn first_unbuilt(script: &Script, events: &[Listed]) -> Option<Unbuilt>
    ensures { result ≡ first_unbuilt script.now events.now }
{
    if script.stops().len() != 0 {
        return Some(Unbuilt::Script);
    }
    let place = unbuilt_place(script, events)?;
    Some(Unbuilt::Event(place as u64))
}

// The place of the first event that isn't built.
fn unbuilt_place(script: &Script, events: &[Listed]) -> Option<usize>
    ensures { result ≡ position_from (λ (event : Listed). not (is_built_event script.now event)) 0 events.now }
{
    events
        .iter()
        .position(|event| !is_built_event(script, event))
}

fn is_built_event(script: &Script, event: &Listed) -> bool
    ensures { result ≡ is_built_event script.now event.now }
{
    match event {
        Listed::Begin(client, number, _) => match call_of(script, *client, *number) {
            Some(call) => is_built(call),
            None => true,
        },
        Listed::Advance(..) | Listed::Quit(_) => true,
        Listed::Stop(_) | Listed::Beat(_) | Listed::Sweep => false,
    }
}

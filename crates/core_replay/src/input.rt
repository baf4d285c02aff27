//! A script and events, read from bytes.

ghost use Rattle.std.specs.Prelude.{◌≡◌, map, option_map};
ghost use Rattle.std.specs.List.{AllZip};
ghost use Rattle.serde_json.specs.View.{view, members_view};
ghost use Rattle.core_replay.specs.declared.fault.InputFault.TheVariants.{Event};
ghost use Rattle.core_replay.specs.Input.{has_both_keys, script_fault_in, events_fault_in, bad_event, members_fault, value_fault, SaysEvent, HasScript, HasEvents, HasInput, SaysInput, IsReadAs, IsInputRead};

use crate::event::event_in;
use crate::fault::{InputError, InputFault};
use crate::listed::Listed;
use hops_base::ItemList;
use script_text::{
    Members, Script, ScriptError, array_at, key_count, read_value, script_in, value_at,
};
use serde_json::Value;
use std::alloc::Global;

// The most events of an input.
const MOST_EVENTS: usize = 1_000_000;

/// A script, and the events that are to be made of its calls.
#[derive(Debug, Drop)]
pub struct Input {
    /// The script.
    pub script: Script,
    /// The events in their order.
    pub events: ItemList<Listed>,
}

/// The script and the events that bytes say. Else it says which rule they break first, and where.
pub fn read_input(alloc: Global, bytes: &[u8]) -> Result<Input, InputError>
    ensures { IsInputRead bytes.now result }
{
    match read_value(alloc, bytes)? {
        Some(value) => input_in(alloc, &value),
        None => Err(InputError::Bad(InputFault::Form)),
    }
}

// The input that a value says.
fn input_in(alloc: Global, value: &Value) -> Result<Input, InputError>
    ensures { IsReadAs (value_fault (view value.now)) (SaysInput (view value.now)) result }
{
    match value.as_object() {
        Some(members) => input_of(alloc, members),
        None => Err(InputError::Bad(InputFault::Form)),
    }
}

// The input that the members of an object say.
fn input_of(alloc: Global, members: &Members) -> Result<Input, InputError>
    ensures { IsReadAs (members_fault (members_view members.now.entries)) (HasInput (members_view members.now.entries)) result }
{
    if !has_both_keys(members) {
        return Err(InputError::Bad(InputFault::Form));
    }
    let script = script_at(alloc, members)?;
    let events = events_at(alloc, members)?;
    Ok(Input { script, events })
}

// Whether there are a script and events, and nothing else.
fn has_both_keys(members: &Members) -> bool
    ensures { result ≡ has_both_keys (members_view members.now.entries) }
{
    value_at(members, "script").is_some()
        && value_at(members, "events").is_some()
        && key_count(members) == 2
}

// The script at its key.
fn script_at(alloc: Global, members: &Members) -> Result<Script, InputError>
    ensures { IsReadAs (script_fault_in (members_view members.now.entries)) (HasScript (members_view members.now.entries)) result }
{
    let Some(value) = value_at(members, "script") else {
        return Err(InputError::Bad(InputFault::Form));
    };
    match script_in(alloc, value) {
        Ok(script) => Ok(script),
        Err(ScriptError::Bad(fault)) => Err(InputError::Bad(InputFault::OfScript(fault))),
        Err(ScriptError::NoMemory) => Err(InputError::NoMemory),
    }
}

// The events at their key.
fn events_at(alloc: Global, members: &Members) -> Result<ItemList<Listed>, InputError>
    ensures { IsReadAs (events_fault_in (members_view members.now.entries)) (λ events. HasEvents (members_view members.now.entries) events.items) result }
{
    match array_at(members, "events") {
        Some(values) if values.len() <= MOST_EVENTS => events_of(alloc, values),
        _ => Err(InputError::Bad(InputFault::Events)),
    }
}

// The events that values say.
fn events_of(alloc: Global, values: &[Value]) -> Result<ItemList<Listed>, InputError>
    ensures { IsReadAs (option_map Event (bad_event (map view values.now))) (λ events. AllZip SaysEvent (map view values.now) events.items) result }
{
    let mut events = ItemList::new(alloc);
    events.reserve(values.len() as u64)?;
    for (at, value) in values.iter().enumerate() {
        match event_in(alloc, value)? {
            Some(event) => events.push(event),
            None => return Err(InputError::Bad(InputFault::Event(at as u64))),
        }
    }
    Ok(events)
}

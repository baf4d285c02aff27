//! Events, read from what a file has of them.

ghost use Rattle.std.specs.Prelude.{◌≡◌, ◌^◌, map, option_map, [], ◌∷◌, IfOk};
ghost use Rattle.serde_json.specs.View.{view};
ghost use Rattle.core_replay.specs.declared.listed.Listed.TheVariants.{Quit, Stop, Beat};
ghost use Rattle.core_replay.specs.Events.{as_listed, number_in, inode_in, session_in, node_in, name_in, hint_of, hints_from, begin_from, advance_from, from_one, sweep_from, event_named, event_of};

use crate::listed::Listed;
use hops_base::{ClientNo, Hint, InodeId, ItemList, Name, NameFault, NoMemory, NodeNo, SessionId};
use script_text::{array_of, behind_name, name_of, values_in};
use serde_json::Value;
use std::alloc::Global;

/// The event that a value says. None exactly where it has none of the forms of events.
pub fn event_in(alloc: Global, value: &Value) -> Result<Option<Listed>, NoMemory>
    ensures { IfOk result (λ event. option_map as_listed event ≡ event_of (view value.now)) }
{
    match name_of(value) {
        Some(name) => named(alloc, name, behind_name(value)),
        None => Ok(None),
    }
}

// The event of this name with these values behind it.
fn named(alloc: Global, name: &str, rest: &[Value]) -> Result<Option<Listed>, NoMemory>
    ensures { IfOk result (λ event. option_map as_listed event ≡ event_named name.now (map view rest.now)) }
{
    match name {
        "begin" => Ok(begin_in(rest)),
        "advance" => advance_in(alloc, rest),
        "quit" => Ok(quit_in(rest)),
        "stop" => Ok(stop_in(rest)),
        "beat" => Ok(beat_in(rest)),
        "sweep" => Ok(sweep_in(rest)),
        _ => Ok(None),
    }
}

fn begin_in(rest: &[Value]) -> Option<Listed>
    ensures { option_map as_listed result ≡ begin_from (map view rest.now) }
{
    let [client, number, node] = rest else {
        return None;
    };
    let client = short_in(client)?;
    let number = short_in(number)?;
    Some(Listed::Begin(ClientNo(client), number, node_in(node)?))
}

fn advance_in(alloc: Global, rest: &[Value]) -> Result<Option<Listed>, NoMemory>
    ensures { IfOk result (λ event. option_map as_listed event ≡ advance_from (map view rest.now)) }
{
    match rest {
        [session] => Ok(advance_alone(alloc, session)),
        [session, hints] => advance_by(alloc, session, hints),
        _ => Ok(None),
    }
}

// A step without hints.
fn advance_alone(alloc: Global, session: &Value) -> Option<Listed>
    ensures { option_map as_listed result ≡ advance_from (view session.now ∷ []) }
{
    Some(Listed::Advance(session_in(session)?, ItemList::new(alloc)))
}

// A step with hints.
fn advance_by(alloc: Global, session: &Value, hints: &Value) -> Result<Option<Listed>, NoMemory>
    ensures { IfOk result (λ event. option_map as_listed event ≡ advance_from (view session.now ∷ view hints.now ∷ [])) }
{
    let Some(session) = session_in(session) else {
        return Ok(None);
    };
    let Some(values) = array_of(hints) else {
        return Ok(None);
    };
    match hints_of(alloc, values)? {
        Some(hints) => Ok(Some(Listed::Advance(session, hints))),
        None => Ok(None),
    }
}

fn quit_in(rest: &[Value]) -> Option<Listed>
    ensures { option_map as_listed result ≡ from_one session_in Quit (map view rest.now) }
{
    match rest {
        [session] => Some(Listed::Quit(session_in(session)?)),
        _ => None,
    }
}

fn stop_in(rest: &[Value]) -> Option<Listed>
    ensures { option_map as_listed result ≡ from_one node_in Stop (map view rest.now) }
{
    match rest {
        [node] => Some(Listed::Stop(node_in(node)?)),
        _ => None,
    }
}

fn beat_in(rest: &[Value]) -> Option<Listed>
    ensures { option_map as_listed result ≡ from_one node_in Beat (map view rest.now) }
{
    match rest {
        [node] => Some(Listed::Beat(node_in(node)?)),
        _ => None,
    }
}

fn sweep_in(rest: &[Value]) -> Option<Listed>
    ensures { option_map as_listed result ≡ sweep_from (map view rest.now) }
{
    match rest {
        [] => Some(Listed::Sweep),
        _ => None,
    }
}

// The hints that values are. None exactly where one of them is no hint.
fn hints_of(alloc: Global, values: &[Value]) -> Result<Option<ItemList<Hint>>, NoMemory>
    ensures { IfOk result (λ hints. option_map (λ list. list.items) hints ≡ hints_from (map view values.now)) }
{
    let mut hints = ItemList::new(alloc);
    hints.reserve(values.len() as u64)?;
    for value in values {
        match hint_in(alloc, value)? {
            Some(hint) => hints.push(hint),
            None => return Ok(None),
        }
    }
    Ok(Some(hints))
}

// The hint that a value is.
fn hint_in(alloc: Global, value: &Value) -> Result<Option<Hint>, NoMemory>
    ensures { IfOk result (λ hint. hint ≡ hint_of (view value.now)) }
{
    let [parent, name, id] = values_in(value) else {
        return Ok(None);
    };
    let (Some(parent), Some(id)) = (inode_in(parent), inode_in(id)) else {
        return Ok(None);
    };
    match read_name(alloc, name)? {
        Some(name) => Ok(Some(Hint { parent, name, id })),
        None => Ok(None),
    }
}

// The name that a value is.
fn read_name(alloc: Global, value: &Value) -> Result<Option<Name>, NoMemory>
    ensures { IfOk result (λ name. name ≡ name_in (view value.now)) }
{
    let Some(text) = value.as_str() else {
        return Ok(None);
    };
    match Name::read(alloc, text) {
        Ok(name) => Ok(Some(name)),
        Err(NameFault::Bad) => Ok(None),
        Err(NameFault::NoMemory) => Err(NoMemory),
    }
}

// The inode that a value is.
fn inode_in(value: &Value) -> Option<InodeId>
    ensures { result ≡ inode_in (view value.now) }
{
    value.as_u64().map(InodeId)
}

// The session that a value is.
fn session_in(value: &Value) -> Option<SessionId>
    ensures { result ≡ session_in (view value.now) }
{
    value.as_u64().map(SessionId)
}

// The namenode that a value is.
fn node_in(value: &Value) -> Option<NodeNo>
    ensures { result ≡ node_in (view value.now) }
{
    short_in(value).map(NodeNo)
}

// The whole number of 32 bits that a value is.
fn short_in(value: &Value) -> Option<u32>
    ensures { result ≡ number_in (2 ^ 32) (view value.now) }
{
    u32::try_from(value.as_u64()?).ok()
}

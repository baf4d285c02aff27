//! Scripts, read from bytes.

ghost use Rattle.std.specs.Prelude.{◌≡◌, ◌≤◌, ◌<◌, [], map, length, option_map, option_and_then, unwrap_or, true, IfOk};
ghost use Rattle.std.specs.List.{AllZip, enumerate_from};
ghost use Rattle.hops_base.specs.First.{first_some};
ghost use Rattle.name_space.specs.Script.{most_calls};
ghost use Rattle.serde_json.specs.Data.{boolean};
ghost use Rattle.serde_json.specs.Find.{get_member};
ghost use Rattle.serde_json.specs.View.{view, members_view};
ghost use Rattle.script_text.specs.Json.{row, at_key, as_whole, is_from_to};
ghost use Rattle.script_text.specs.Form.{stop_data};
ghost use Rattle.script_text.specs.Faults.{fault, value_of, data_fault, members_fault, settings_fault, clients_fault, calls_fault, has_known_keys, may_count, may_persist, stops_fault, client_fault, client_members_fault, call_fault, has_both_keys, has_in, may_have_in, is_count_data};
ghost use Rattle.script_text.specs.Grammar.{SaysCall, HasCalls, HasClient, SaysClient, HasClients, Says, IsScriptRead};
ghost use Rattle.script_text.specs.Reading.{IsReadOf, SaysScript, user_in};

use crate::fault::{ScriptError, ScriptFault};
use crate::members::{Members, array_at, has_only, key_count, text_at, value_at, whole_at};
use crate::read_call::read_call;
use crate::read_stops::read_stops;
use crate::script::{
    CallList, ClientCalls, ClientList, DEFAULT_GRACE, DEFAULT_TRIES, MOST_CALLS, MOST_CLIENTS,
    MOST_COUNT, MOST_NAMENODES, Script,
};
use hops_base::{NoMemory, StopList, User, UserFault};
use serde_json::Value;
use std::alloc::Global;

/// The script of which these bytes are a text. Else it says which rule they break first, and where.
pub fn read_script(alloc: Global, bytes: &[u8]) -> Result<Script, ScriptError>
    ensures { IsScriptRead bytes.now result }
{
    match read_value(alloc, bytes)? {
        Some(value) => script_in(alloc, &value),
        None => Err(ScriptError::Bad(ScriptFault::new(1, bytes.len() as u64, 0))),
    }
}

/// The value of JSON that bytes are: UTF-8, with arrays and objects nested to 127. None exactly where they are none.
pub fn read_value(alloc: Global, bytes: &[u8]) -> Result<Option<Value>, NoMemory>
    ensures { IfOk result (λ value. option_map view value ≡ value_of bytes.now) }
{
    match Value::from_slice(alloc, bytes) {
        Ok(value) => Ok(Some(value)),
        Err(error) if error.is_memory() => Err(NoMemory),
        Err(_) => Ok(None),
    }
}

/// The script that a value says. Else which rule it breaks first, and where.
pub fn script_in(alloc: Global, value: &Value) -> Result<Script, ScriptError>
    ensures { IsReadOf (data_fault (view value.now)) (SaysScript (view value.now)) result }
{
    match value.as_object() {
        Some(members) => script_of(alloc, members),
        None => Err(ScriptError::Bad(ScriptFault::new(2, 0, 0))),
    }
}

// The script that the members of an object say.
fn script_of(alloc: Global, members: &Members) -> Result<Script, ScriptError>
    ensures { IsReadOf (members_fault (members_view members.now.entries)) (Says (members_view members.now.entries)) result }
{
    if let Some(fault) = settings_fault(members) {
        return Err(ScriptError::Bad(fault));
    }
    let namenodes = count_at(members, "namenodes", 0);
    let stops = stops_at(alloc, members, namenodes)?;
    let clients = clients_at(alloc, members)?;
    Ok(Script::new(
        namenodes,
        clients,
        stops,
        count_at(members, "tries", DEFAULT_TRIES),
        count_at(members, "grace", DEFAULT_GRACE),
        persist_at(members),
    ))
}

// What is wrong with the settings: the first of rules 3 to 8.
fn settings_fault(members: &Members) -> Option<ScriptFault>
    ensures { result ≡ settings_fault (members_view members.now.entries) }
{
    if !has_known_keys(members) {
        return Some(ScriptFault::new(3, 0, 0));
    }
    if !has_within(members, "version", 1) {
        return Some(ScriptFault::new(4, 0, 0));
    }
    if !has_within(members, "namenodes", MOST_NAMENODES) {
        return Some(ScriptFault::new(5, 0, 0));
    }
    if !may_count(members, "tries") {
        return Some(ScriptFault::new(6, 0, 0));
    }
    if !may_count(members, "grace") {
        return Some(ScriptFault::new(7, 0, 0));
    }
    if !may_persist(members) {
        return Some(ScriptFault::new(8, 0, 0));
    }
    None
}

fn has_known_keys(members: &Members) -> bool
    ensures { result ≡ has_known_keys (members_view members.now.entries) }
{
    has_only(
        members,
        &[
            "clients",
            "grace",
            "namenodes",
            "persist",
            "stops",
            "tries",
            "version",
        ],
    )
}

// Whether the whole number at the key is 1 to this one.
fn has_within(members: &Members, key: &str, most: u64) -> bool
    ensures { result ≡ has_in (is_from_to 1 most) (get_member key.now (members_view members.now.entries)) }
{
    match whole_at(members, key) {
        Some(number) => 1 <= number && number <= most,
        None => false,
    }
}

// Whether the value at the key is a count, where it is there.
fn may_count(members: &Members, key: &str) -> bool
    ensures { result ≡ may_have_in is_count_data (get_member key.now (members_view members.now.entries)) }
{
    match value_at(members, key) {
        Some(value) => is_count(value),
        None => true,
    }
}

// Whether a value is a whole number from 1 to 1,000,000.
fn is_count(value: &Value) -> bool
    ensures { result ≡ is_count_data (view value.now) }
{
    match value.as_u64() {
        Some(number) => 1 <= number && number <= MOST_COUNT,
        None => false,
    }
}

// Whether it is said by a truth value whether calls persist, where it is said.
fn may_persist(members: &Members) -> bool
    ensures { result ≡ may_persist (members_view members.now.entries) }
{
    match value_at(members, "persist") {
        Some(value) => value.is_boolean(),
        None => true,
    }
}

// The number at a key, where it is one of 32 bits, or else this default.
fn count_at(members: &Members, key: &str, default: u32) -> u32
    requires { unwrap_or (option_and_then as_whole (get_member key.now (members_view members.now.entries))) default ≤ 1000000 }
    ensures { result ≡ unwrap_or (option_and_then as_whole (get_member key.now (members_view members.now.entries))) default }
{
    match whole_at(members, key) {
        Some(number) => number as u32,
        None => default,
    }
}

// Whether calls persist.
fn persist_at(members: &Members) -> bool
    ensures { may_persist (members_view members.now.entries) ≡ true
        → unwrap_or (at_key "persist" (members_view members.now.entries)) (boolean true) ≡ boolean result }
{
    match value_at(members, "persist") {
        Some(value) => value.as_bool() == Some(true),
        None => true,
    }
}

// The stops that the members say.
fn stops_at(alloc: Global, members: &Members, namenodes: u32) -> Result<StopList, ScriptError>
    ensures { IsReadOf (option_and_then (stops_fault namenodes) (at_key "stops" (members_view members.now.entries)))
        (λ stops. unwrap_or (at_key "stops" (members_view members.now.entries)) (row []) ≡ row (map stop_data stops.items)) result }
{
    match value_at(members, "stops") {
        Some(value) => read_stops(alloc, namenodes, value),
        None => Ok(StopList::new(alloc)),
    }
}

// The clients that the members say.
fn clients_at(alloc: Global, members: &Members) -> Result<ClientList, ScriptError>
    ensures { IsReadOf (clients_fault (members_view members.now.entries)) (λ clients. HasClients (members_view members.now.entries) clients.items) result }
{
    match array_at(members, "clients") {
        Some(values) if values.len() <= MOST_CLIENTS => clients_of(alloc, values),
        _ => Err(ScriptError::Bad(ScriptFault::new(10, 0, 0))),
    }
}

// The clients that values say, which are at most 64.
fn clients_of(alloc: Global, values: &[Value]) -> Result<ClientList, ScriptError>
    ensures { IsReadOf (first_some (map client_fault (enumerate_from 0 (map view values.now)))) (λ clients. AllZip SaysClient (map view values.now) clients.items) result }
{
    let mut clients = ClientList::new(alloc);
    clients.reserve(values.len() as u64)?;
    for (at, value) in values.iter().enumerate() {
        clients.push(client_in(alloc, at as u64, value)?);
    }
    Ok(clients)
}

// The client that a value at this place says.
fn client_in(alloc: Global, at: u64, value: &Value) -> Result<ClientCalls, ScriptError>
    ensures { IsReadOf (client_fault (at, view value.now)) (SaysClient (view value.now)) result }
{
    match value.as_object() {
        Some(members) => client_of(alloc, at, members),
        None => Err(ScriptError::Bad(ScriptFault::new(11, at, 0))),
    }
}

// The client that the members of an object at this place say.
fn client_of(alloc: Global, at: u64, members: &Members) -> Result<ClientCalls, ScriptError>
    ensures { IsReadOf (client_members_fault at (members_view members.now.entries)) (HasClient (members_view members.now.entries)) result }
{
    if !has_both_keys(members) {
        return Err(ScriptError::Bad(ScriptFault::new(11, at, 0)));
    }
    let Some(user) = user_at(alloc, members)? else {
        return Err(ScriptError::Bad(ScriptFault::new(12, at, 0)));
    };
    let calls = calls_at(alloc, at, members)?;
    Ok(ClientCalls::new(user, calls))
}

// Whether there are a user and calls, and nothing else.
fn has_both_keys(members: &Members) -> bool
    ensures { result ≡ has_both_keys (members_view members.now.entries) }
{
    value_at(members, "user").is_some()
        && value_at(members, "calls").is_some()
        && key_count(members) == 2
}

// The user at its key. None exactly where there is no user.
fn user_at(alloc: Global, members: &Members) -> Result<Option<User>, NoMemory>
    ensures { IfOk result (λ user. user ≡ user_in (members_view members.now.entries)) }
{
    let Some(text) = text_at(members, "user") else {
        return Ok(None);
    };
    match User::read(alloc, text) {
        Ok(user) => Ok(Some(user)),
        Err(UserFault::Bad) => Ok(None),
        Err(UserFault::NoMemory) => Err(NoMemory),
    }
}

// The calls at their key, of the client at this place.
fn calls_at(alloc: Global, at: u64, members: &Members) -> Result<CallList, ScriptError>
    ensures { IsReadOf (calls_fault at (members_view members.now.entries)) (λ calls. HasCalls (members_view members.now.entries) calls.items) result }
{
    match array_at(members, "calls") {
        Some(values) if values.len() <= MOST_CALLS => calls_of(alloc, at, values),
        _ => Err(ScriptError::Bad(ScriptFault::new(13, at, 0))),
    }
}

// The calls that values say, which are at most 65,536.
fn calls_of(alloc: Global, at: u64, values: &[Value]) -> Result<CallList, ScriptError>
    requires { length values.now ≤ most_calls }
    ensures { IsReadOf (first_some (map (call_fault at) (enumerate_from 1 (map view values.now)))) (λ calls. AllZip SaysCall (map view values.now) calls.items) result }
{
    let mut calls = CallList::new(alloc);
    calls.reserve(values.len() as u64)?;
    for (i, value) in values.iter().enumerate() {
        calls.push(read_call(alloc, at, i as u32 + 1, value)?);
    }
    Ok(calls)
}

#[cfg(test)]
mod tests;

//! Calls, read from what scripts have of them.

ghost use Rattle.std.specs.Prelude.{◌≡◌, map, IfOk};
ghost use Rattle.hops_base.specs.Path.{names_in};
ghost use Rattle.serde_json.specs.View.{view};
ghost use Rattle.script_text.specs.Json.{as_whole, text_in, truth_in, number_in};
ghost use Rattle.script_text.specs.CallForms.{value_at};
ghost use Rattle.script_text.specs.Faults.{call_fault};
ghost use Rattle.script_text.specs.Grammar.{SaysCall};
ghost use Rattle.script_text.specs.Reading.{IsReadOf, IsCallMade};

use crate::call_forms::{behind_name, has_form, name_of, refused_path};
use crate::fault::{ScriptError, ScriptFault};
use hops_base::{NoMemory, Path};
use name_space::{Call, MOST_MODE};
use serde_json::Value;
use std::alloc::Global;

/// The call that a value says: the call of this number, from 1, of the client at this place.
pub fn read_call(alloc: Global, at: u64, number: u32, value: &Value) -> Result<Call, ScriptError>
    ensures { IsReadOf (call_fault at (number, view value.now)) (SaysCall (view value.now)) result }
{
    let rest = behind_name(value);
    let Some(name) = name_of(value) else {
        return Err(ScriptError::Bad(ScriptFault::new(14, at, number)));
    };
    if !has_form(name, rest) {
        return Err(ScriptError::Bad(ScriptFault::new(14, at, number)));
    }
    if let Some(why) = refused_path(alloc, rest)? {
        return Err(ScriptError::Bad(ScriptFault {
            rule: 15,
            at,
            call: number,
            path: Some(why),
        }));
    }
    let Some(call) = made(alloc, name, rest)? else {
        return Err(ScriptError::Bad(ScriptFault::new(16, at, number)));
    };
    if !call.is_valid() {
        return Err(ScriptError::Bad(ScriptFault::new(16, at, number)));
    }
    Ok(call)
}

// The call of this name with these values behind it. None where no call is named so, and where the number
// is no mode.
fn made(alloc: Global, name: &str, rest: &[Value]) -> Result<Option<Call>, NoMemory>
    ensures { IfOk result (λ made. IsCallMade name.now (map view rest.now) made) }
{
    Ok(Some(match name {
        "mkdirs" => Call::Mkdirs(path_at(alloc, rest, 0)?),
        "create" => Call::Create(path_at(alloc, rest, 0)?, truth_at(rest, 1)),
        "append" => Call::Append(path_at(alloc, rest, 0)?),
        "grow" => Call::Grow(path_at(alloc, rest, 0)?, number_at(rest, 1)),
        "close" => Call::Close(path_at(alloc, rest, 0)?),
        "stat" => Call::Stat(path_at(alloc, rest, 0)?),
        "list" => Call::List(path_at(alloc, rest, 0)?),
        "delete" => Call::Delete(path_at(alloc, rest, 0)?, truth_at(rest, 1)),
        "rename" => Call::Rename(path_at(alloc, rest, 0)?, path_at(alloc, rest, 1)?),
        "chmod" => {
            let mode = number_at(rest, 1);
            if mode > u64::from(MOST_MODE) {
                return Ok(None);
            }
            Call::Chmod(path_at(alloc, rest, 0)?, mode as u16)
        }
        "set_quota" => Call::SetQuota(
            path_at(alloc, rest, 0)?,
            quota_at(rest, 1),
            quota_at(rest, 2),
        ),
        "usage" => Call::Usage(path_at(alloc, rest, 0)?),
        _ => return Ok(None),
    }))
}

// The path at a place.
fn path_at(alloc: Global, rest: &[Value], i: usize) -> Result<Path, NoMemory>
    ensures { IfOk result (λ path. path ≡ names_in (text_in (value_at i (map view rest.now)))) }
{
    match Path::read(alloc, text_at(rest, i)) {
        Ok(path) => Ok(path),
        Err(_) => Err(NoMemory),
    }
}

// The text at a place, which is empty where there is none.
fn text_at(rest: &[Value], i: usize) -> &str
    ensures { result.now ≡ text_in (value_at i (map view rest.now)) }
{
    match rest.get(i).and_then(Value::as_str) {
        Some(text) => text,
        None => "",
    }
}

// The truth value at a place.
fn truth_at(rest: &[Value], i: usize) -> bool
    ensures { result ≡ truth_in (value_at i (map view rest.now)) }
{
    match rest.get(i).and_then(Value::as_bool) {
        Some(truth) => truth,
        None => false,
    }
}

// The number at a place.
fn number_at(rest: &[Value], i: usize) -> u64
    ensures { result ≡ number_in (value_at i (map view rest.now)) }
{
    match quota_at(rest, i) {
        Some(number) => number,
        None => 0,
    }
}

// The number at a place, where there is one.
fn quota_at(rest: &[Value], i: usize) -> Option<u64>
    ensures { result ≡ as_whole (value_at i (map view rest.now)) }
{
    rest.get(i).and_then(Value::as_u64)
}

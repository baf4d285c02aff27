//! Stops, read from what scripts have of them.

ghost use Rattle.std.specs.Prelude.{◌≡◌, map, option_map};
ghost use Rattle.std.specs.List.{list_any};
ghost use Rattle.serde_json.specs.View.{view};
ghost use Rattle.script_text.specs.Json.{row};
ghost use Rattle.script_text.specs.Form.{stop_data};
ghost use Rattle.script_text.specs.Faults.{fault, stops_fault, bad_stop, stops_node, stop_within, stop_after};
ghost use Rattle.script_text.specs.Reading.{IsReadOf};

use crate::call_forms::values_in;
use crate::fault::{ScriptError, ScriptFault};
use crate::members::array_of;
use crate::script::MOST_COUNT;
use hops_base::{NodeNo, StopList};
use serde_json::Value;
use std::alloc::Global;

/// The stops of namenodes below this one that a value says.
pub fn read_stops(alloc: Global, namenodes: u32, value: &Value) -> Result<StopList, ScriptError>
    ensures { IsReadOf (stops_fault namenodes (view value.now)) (λ stops. view value.now ≡ row (map stop_data stops.items)) result }
{
    match array_of(value) {
        Some(values) => stops_of(alloc, namenodes, values),
        None => Err(ScriptError::Bad(ScriptFault::new(9, 0, 0))),
    }
}

// The stops that values say.
fn stops_of(alloc: Global, namenodes: u32, values: &[Value]) -> Result<StopList, ScriptError>
    ensures { IsReadOf (option_map (λ at. fault 9 at 0) (bad_stop namenodes (map view values.now))) (λ stops. map view values.now ≡ map stop_data stops.items) result }
{
    let mut stops = StopList::new(alloc);
    stops.reserve(values.len() as u64)?;
    for (at, value) in values.iter().enumerate() {
        match next_stop(namenodes, stops.as_slice(), value) {
            Some(stop) => stops.push(stop),
            None => return Err(ScriptError::Bad(ScriptFault::new(9, at as u64, 0))),
        }
    }
    Ok(stops)
}

// The stop that a value is, where it is in its ranges and none of these is of its namenode.
fn next_stop(namenodes: u32, before: &[(NodeNo, u32)], value: &Value) -> Option<(NodeNo, u32)>
    ensures { result ≡ stop_after namenodes (map stop_data before.now) (view value.now) }
{
    let (node, commit) = stop_within(namenodes, value)?;
    if stops_node(before, node) {
        return None;
    }
    Some((node, commit))
}

// The stop that a value is, where it is in its ranges.
fn stop_within(namenodes: u32, value: &Value) -> Option<(NodeNo, u32)>
    ensures { result ≡ stop_within namenodes (view value.now) }
{
    let [node, commit] = values_in(value) else {
        return None;
    };
    let node = node.as_u64()?;
    let commit = commit.as_u64()?;
    if node >= u64::from(namenodes) || commit < 1 || commit > MOST_COUNT {
        return None;
    }
    Some((NodeNo(node as u32), commit as u32))
}

// Whether one of these stops is of the namenode.
fn stops_node(stops: &[(NodeNo, u32)], node: NodeNo) -> bool
    ensures { result ≡ list_any (stops_node node) (map stop_data stops.now) }
{
    for (other, _) in stops {
        if other.0 == node.0 {
            return true;
        }
    }
    false
}

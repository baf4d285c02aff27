//! The text of a script.

ghost use Rattle.std.specs.Prelude.{◌≡◌, IfOk, map};
ghost use Rattle.serde_json.specs.View.{view};
ghost use Rattle.script_text.specs.Json.{row};
ghost use Rattle.script_text.specs.Grammar.{IsScriptText};
ghost use Rattle.script_text.specs.Form.{call_data, client_data, stop_data, script_data, script_text};

use crate::build::{Fields, Row};
use crate::call_form::call_value;
use crate::script::{ClientCalls, Script};
use hops_base::{NoMemory, NodeNo};
use name_space::Call;
use serde_json::Value;
use std::alloc::Global;

/// The text of a script: compact JSON with all seven keys in byte order. It is read as the script.
pub fn write_script(alloc: Global, script: &Script) -> Result<Vec<u8>, NoMemory>
    ensures text { IfOk result (λ bytes. bytes.items ≡ script_text script.now) }
    ensures read_back { IfOk result (λ bytes. IsScriptText bytes.items script.now) }
{
    let _in_range = script.namenodes();
    Ok(script_value(alloc, script)?.to_vec(alloc)?)
}

/// The value of a script.
pub fn script_value(alloc: Global, script: &Script) -> Result<Value, NoMemory>
    ensures { IfOk result (λ value. view value ≡ script_data script.now) }
{
    let clients = clients_value(alloc, script.clients())?;
    let stops = stops_value(alloc, script.stops().as_slice())?;
    let fields = Fields::new(alloc)
        .with("clients", clients)?
        .number("grace", u64::from(script.grace()))?
        .number("namenodes", u64::from(script.namenodes()))?
        .truth("persist", script.persist())?
        .with("stops", stops)?
        .number("tries", u64::from(script.tries()))?
        .number("version", 1)?;
    Ok(fields.value())
}

fn clients_value(alloc: Global, clients: &[ClientCalls]) -> Result<Value, NoMemory>
    ensures { IfOk result (λ value. view value ≡ row (map client_data clients.now)) }
{
    let mut row = Row::new(alloc);
    for client in clients {
        row = row.with(client_value(alloc, client)?)?;
    }
    Ok(row.value())
}

fn client_value(alloc: Global, client: &ClientCalls) -> Result<Value, NoMemory>
    ensures { IfOk result (λ value. view value ≡ client_data client.now) }
{
    let calls = calls_value(alloc, client.calls())?;
    let fields = Fields::new(alloc)
        .with("calls", calls)?
        .text("user", client.user().text())?;
    Ok(fields.value())
}

fn calls_value(alloc: Global, calls: &[Call]) -> Result<Value, NoMemory>
    ensures { IfOk result (λ value. view value ≡ row (map call_data calls.now)) }
{
    let mut row = Row::new(alloc);
    for call in calls {
        row = row.with(call_value(alloc, call)?)?;
    }
    Ok(row.value())
}

fn stops_value(alloc: Global, stops: &[(NodeNo, u32)]) -> Result<Value, NoMemory>
    ensures { IfOk result (λ value. view value ≡ row (map stop_data stops.now)) }
{
    let mut row = Row::new(alloc);
    for (node, commit) in stops {
        row = row.with(stop_value(alloc, *node, *commit)?)?;
    }
    Ok(row.value())
}

fn stop_value(alloc: Global, node: NodeNo, commit: u32) -> Result<Value, NoMemory>
    ensures { IfOk result (λ value. view value ≡ stop_data (node, commit)) }
{
    let row = Row::new(alloc)
        .number(u64::from(node.0))?
        .number(u64::from(commit))?;
    Ok(row.value())
}

//! Texts that were written by hand, with ample memory.

ghost use Rattle.std.specs.Prelude.{◌≡◌, ◌≤◌, true, length, IfOk};
ghost use Rattle.std.specs.List.{list_all};
ghost use Rattle.name_space.specs.Call.{is_valid};
ghost use Rattle.name_space.specs.Script.{is_client};

use crate::{CallList, ClientCalls, ClientList, Fields, Row, Script, call_value, write_script};
use hops_base::{NoMemory, NodeNo, Path, StopList, User};
use name_space::Call;
use serde_json::Value;
use std::alloc::Global;
use std::process::Abort;
use std::test::Fail;

// A script of these clients, at one namenode and with nothing else said.
fn plain(alloc: Global, clients: ClientList) -> Script
    requires number { length clients.items ≤ 64 }
    requires clients { list_all is_client clients.items ≡ true }
{
    Script::new(1, clients, StopList::new(alloc), 10_000, 64, true)
}

// A client of this user with one call, which is valid.
fn one_call(alloc: Global, user: &str, call: Call) -> Result<ClientList, Fail>
    requires { is_valid call ≡ true }
    ensures { IfOk result (λ clients. (length clients.items ≤ 64) × (list_all is_client clients.items ≡ true)) }
{
    let mut calls = CallList::new(alloc);
    calls.reserve(1)?;
    calls.push(call);
    let user = User::read(alloc, user)?;
    let _good = user.text();
    let mut clients = ClientList::new(alloc);
    clients.reserve(1)?;
    clients.push(ClientCalls::new(user, calls));
    Ok(clients)
}

// A script of no clients that says everything else.
fn all_said(alloc: Global) -> Result<Script, Fail> {
    let mut stops = StopList::new(alloc);
    stops.reserve(2)?;
    stops.push((NodeNo(15), 1_000_000));
    stops.push((NodeNo(0), 1));
    let script = Script::new(16, ClientList::new(alloc), stops, 1, 1_000_000, false);
    Ok(script)
}

// Asserts that this is the text of a script.
fn assert_script(rt: &impl Abort, alloc: Global, script: &Script, expected: &str) {
    let text = write_script(alloc, script).expect(rt, "a text");
    assert_eq!(rt; text.as_slice(), expected.as_bytes());
}

// Asserts that this is the text of a value.
fn assert_text(rt: &impl Abort, alloc: Global, value: Value, expected: &str) {
    let text = text_of(alloc, value).expect(rt, "a text");
    assert_eq!(rt; text.as_str(), expected);
}

fn text_of(alloc: Global, value: Value) -> Result<String, NoMemory> {
    Ok(value.to_string(alloc)?)
}

#[test]
fn a_script_without_clients(rt: HostRuntime) {
    let alloc = rt.alloc();
    let script = plain(alloc, ClientList::new(alloc));
    assert_script(
        &rt,
        alloc,
        &script,
        "{\"clients\":[],\"grace\":64,\"namenodes\":1,\"persist\":true,\"stops\":[],\"tries\":10000,\"version\":1}",
    );
}

#[test]
fn a_script_with_one_call(rt: HostRuntime) -> Result<(), Fail> {
    let alloc = rt.alloc();
    let path = Path::read(alloc, "/n2")?;
    let script = plain(alloc, one_call(alloc, "u0", Call::Stat(path))?);
    assert_script(
        &rt,
        alloc,
        &script,
        "{\"clients\":[{\"calls\":[[\"stat\",\"/n2\"]],\"user\":\"u0\"}],\"grace\":64,\"namenodes\":1,\"persist\":true,\"stops\":[],\"tries\":10000,\"version\":1}",
    );
    Ok(())
}

#[test]
fn a_script_with_everything_said(rt: HostRuntime) -> Result<(), Fail> {
    let alloc = rt.alloc();
    assert_script(
        &rt,
        alloc,
        &all_said(alloc)?,
        "{\"clients\":[],\"grace\":1000000,\"namenodes\":16,\"persist\":false,\"stops\":[[15,1000000],[0,1]],\"tries\":1,\"version\":1}",
    );
    Ok(())
}

// The value of the call `stat` of this path.
fn stat_value(rt: &impl Abort, alloc: Global, path: &str) -> Value {
    let path = Path::read(alloc, path).expect(rt, "a path");
    call_value(alloc, &Call::Stat(path)).expect(rt, "a value")
}

#[test]
fn names_are_escaped(rt: HostRuntime) {
    let alloc = rt.alloc();
    for (text, expected) in [
        ("/\"q\"\\", "[\"stat\",\"/\\\"q\\\"\\\\\"]"),
        ("/\u{8}\t\n\u{c}\r", "[\"stat\",\"/\\b\\t\\n\\f\\r\"]"),
        ("/\u{1}\u{1f}\u{7f}", "[\"stat\",\"/\\u0001\\u001f\u{7f}\"]"),
        ("/é€\u{1f980}", "[\"stat\",\"/é€\u{1f980}\"]"),
    ] {
        let value = stat_value(&rt, alloc, text);
        assert_text(&rt, alloc, value, expected);
    }
}

#[test]
fn a_row_keeps_its_order(rt: HostRuntime) -> Result<(), Fail> {
    let alloc = rt.alloc();
    let row = Row::of(alloc, "b")?
        .optional(None)?
        .number(1)?
        .truth(false)?;
    assert_text(&rt, alloc, row.value(), "[\"b\",null,1,false]");
    Ok(())
}

#[test]
fn members_stand_in_the_order_of_their_keys(rt: HostRuntime) -> Result<(), Fail> {
    let alloc = rt.alloc();
    let fields = Fields::new(alloc).text("b", "x")?.optional("a", None)?;
    assert_text(&rt, alloc, fields.value(), "{\"a\":null,\"b\":\"x\"}");
    Ok(())
}

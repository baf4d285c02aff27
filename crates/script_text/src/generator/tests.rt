ghost use Rattle.std.specs.Prelude.{◌≤◌};

use super::*;
use crate::write_script;
use std::process::Abort;

#[test]
fn one_client_without_calls(rt: HostRuntime) {
    let script = generate(rt.alloc(), 0, 1, 0).expect(&rt, "a script");
    let bare = matches!(script.clients(), [client] if client.calls().is_empty());
    assert!(rt; script.namenodes() == 1 && bare);
}

// The text of the script of seed 7 with one client and one call.
fn first_text(rt: &impl Abort, alloc: Global) -> Vec<u8> {
    let script = generate(alloc, 7, 1, 1).expect(rt, "a script");
    write_script(alloc, &script).expect(rt, "a text")
}

#[test]
fn first_call_of_seed_7(rt: HostRuntime) {
    let text = first_text(&rt, rt.alloc());
    assert_eq!(rt;
        text.as_slice(),
        "{\"clients\":[{\"calls\":[[\"stat\",\"/n2\"]],\"user\":\"u0\"}],\"grace\":64,\"namenodes\":1,\"persist\":true,\"stops\":[],\"tries\":10000,\"version\":1}".as_bytes()
    );
}

// How many clients and namenodes a generated script has.
fn counts(rt: &impl Abort, alloc: Global, clients: u32) -> (usize, u32)
    requires some { 1 ≤ clients }
    requires few { clients ≤ 64 }
{
    let script = generate(alloc, 4_294_967_295, clients, 3).expect(rt, "a script");
    (script.clients().len(), script.namenodes())
}

#[test]
fn namenodes_are_at_most_four(rt: HostRuntime) {
    assert!(rt; counts(&rt, rt.alloc(), 3) == (3, 3));
    assert!(rt; counts(&rt, rt.alloc(), 4) == (4, 4));
    assert!(rt; counts(&rt, rt.alloc(), 64) == (64, 4));
}

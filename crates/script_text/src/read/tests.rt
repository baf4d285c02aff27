use super::*;
use crate::{generate, write_script};
use hops_base::PathFault;
use std::process::Abort;

// The rule, the place and the call that are told of bytes which are no script.
fn told(alloc: Global, bytes: &[u8]) -> Option<(u8, u64, u32)> {
    match read_script(alloc, bytes) {
        Err(ScriptError::Bad(fault)) => Some((fault.rule, fault.at, fault.call)),
        _ => None,
    }
}

// Asserts what is told of a text that is no script: the rule, the place and the call.
fn assert_told(rt: &impl Abort, alloc: Global, text: &str, expected: (u8, u64, u32)) {
    assert_eq!(rt; told(alloc, text.as_bytes()), Some(expected), "{text}");
}

// The text of the script that bytes are.
fn written(rt: &impl Abort, alloc: Global, bytes: &[u8]) -> Vec<u8> {
    let script = read_script(alloc, bytes).expect(rt, "a script");
    write_script(alloc, &script).expect(rt, "a text")
}

// Asserts that a text is a script, of this canonical text.
fn assert_written(rt: &impl Abort, alloc: Global, text: &str, canonical: &str) {
    let got = written(rt, alloc, text.as_bytes());
    assert_eq!(rt; got.as_slice(), canonical.as_bytes());
}

#[test]
fn the_first_script(rt: HostRuntime) {
    let text =
        r#"{"version": 1, "namenodes": 1, "clients": [{"user": "ann", "calls": [["mkdirs", "/a/b"], ["stat", "/a/b"]]}]}"#;
    let canonical =
        r#"{"clients":[{"calls":[["mkdirs","/a/b"],["stat","/a/b"]],"user":"ann"}],"grace":64,"namenodes":1,"persist":true,"stops":[],"tries":10000,"version":1}"#;
    assert_written(&rt, rt.alloc(), text, canonical);
}

#[test]
fn a_script_with_all_keys(rt: HostRuntime) {
    let text =
        r#"{"version":1,"tries":3,"stops":[[1,1000000],[0,1]],"persist":false,"namenodes":2,"grace":1000000,"clients":[]}"#;
    let canonical =
        r#"{"clients":[],"grace":1000000,"namenodes":2,"persist":false,"stops":[[1,1000000],[0,1]],"tries":3,"version":1}"#;
    assert_written(&rt, rt.alloc(), text, canonical);
}

#[test]
fn every_call_is_read(rt: HostRuntime) {
    let text =
        r#"{"clients":[{"calls":[["mkdirs","/a"],["create","/a/f",true],["append","/a/f"],["grow","/a/f",4294967296],["close","/a/f"],["stat","/"],["list","/a"],["delete","/a/f",false],["rename","/a","/b"],["chmod","/b",511],["delete","/a",true],["create","/b",false],["set_quota","/b",1000000000000000,null],["set_quota","/b",null,1],["usage","/b"]],"user":"b-2_c"}],"grace":64,"namenodes":16,"persist":true,"stops":[],"tries":10000,"version":1}"#;
    assert_written(&rt, rt.alloc(), text, text);
}

#[test]
fn generated_scripts_are_read_back(rt: HostRuntime) {
    let alloc = rt.alloc();
    let script = generate(alloc, 4_000_000_000, 5, 40).expect(&rt, "a script");
    let text = write_script(alloc, &script).expect(&rt, "a text");
    let again = written(&rt, alloc, &text);
    assert_eq!(rt; again.as_slice(), text.as_slice());
}

#[test]
fn names_with_escapes_are_read_back(rt: HostRuntime) {
    let text =
        r#"{"clients":[{"calls":[["stat","/\"q\"\\/\t\u0001/é€🦀"]],"user":"u"}],"grace":64,"namenodes":1,"persist":true,"stops":[],"tries":10000,"version":1}"#;
    assert_written(&rt, rt.alloc(), text, text);
}

#[test]
fn values_that_are_absent(rt: HostRuntime) {
    let text = r#"{"version":9,"version":1,"namenodes":16,"clients":[]}"#;
    let plain = read_script(rt.alloc(), text.as_bytes()).expect(&rt, "a script");
    let counts = (plain.namenodes(), plain.tries(), plain.grace());
    assert_eq!(rt; counts, (16, 10_000, 64));
    assert!(rt; plain.persist() && plain.stops().len() == 0);
}

// Arrays that are nested so deep.
fn nested(alloc: Global, depth: u32) -> Result<String, NoMemory> {
    let mut text = String::new(alloc);
    for _ in 0..depth {
        text.push('[')?;
    }
    for _ in 0..depth {
        text.push(']')?;
    }
    Ok(text)
}

#[test]
fn rule_1_bytes_are_json(rt: HostRuntime) {
    let alloc = rt.alloc();
    let cut = r#"{"version":1,"namenodes":1,"clients":[{"user":"an"#;
    assert_told(&rt, alloc, cut, (1, 49, 0));
    assert_told(&rt, alloc, "", (1, 0, 0));
    let deep = nested(alloc, 128).expect(&rt, "a text");
    assert_told(&rt, alloc, &deep, (1, 256, 0));
}

#[test]
fn rule_1_bytes_are_text(rt: HostRuntime) {
    assert_eq!(rt; told(rt.alloc(), b"[\"\xff\"]"), Some((1, 5, 0)));
}

#[test]
fn rule_2_it_is_an_object(rt: HostRuntime) {
    let alloc = rt.alloc();
    assert_told(&rt, alloc, "[]", (2, 0, 0));
    assert_told(&rt, alloc, "null", (2, 0, 0));
    let deep = nested(alloc, 127).expect(&rt, "a text");
    assert_told(&rt, alloc, &deep, (2, 0, 0));
}

// Asserts what is told of a script with these members and bad clients.
fn assert_members(rt: &impl Abort, alloc: Global, members: &str, expected: (u8, u64, u32)) {
    let text = format!(in alloc; "{{{members},\"clients\":1}}").expect(rt, "a text");
    assert_told(rt, alloc, &text, expected);
}

#[test]
fn rules_3_to_5_of_keys_version_and_namenodes(rt: HostRuntime) {
    for (members, rule) in [
        (r#""version":9,"namenodes":1,"speed":1"#, 3),
        (r#""version":1,"namenodes":1,"Tries":1"#, 3),
        (r#""version":9,"namenodes":17"#, 4),
        (r#""namenodes":1"#, 4),
        (r#""version":1.0,"namenodes":1"#, 4),
        (r#""version":1,"namenodes":17,"tries":0"#, 5),
        (r#""version":1,"namenodes":0"#, 5),
        (r#""version":1"#, 5),
    ] {
        assert_members(&rt, rt.alloc(), members, (rule, 0, 0));
    }
}

#[test]
fn rules_6_to_8_of_what_may_be_absent(rt: HostRuntime) {
    for (members, rule) in [
        (r#""version":1,"namenodes":1,"tries":0,"grace":0"#, 6),
        (r#""version":1,"namenodes":1,"tries":1000001"#, 6),
        (r#""version":1,"namenodes":1,"tries":null"#, 6),
        (r#""version":1,"namenodes":1,"grace":1.0,"persist":1"#, 7),
        (r#""version":1,"namenodes":1,"grace":-0"#, 7),
        (r#""version":1,"namenodes":1,"grace":1000001"#, 7),
        (r#""version":1,"namenodes":1,"persist":null,"stops":1"#, 8),
        (r#""version":1,"namenodes":1,"persist":1"#, 8),
    ] {
        assert_members(&rt, rt.alloc(), members, (rule, 0, 0));
    }
}

#[test]
fn rule_9_of_stops(rt: HostRuntime) {
    for (members, at) in [
        (r#""version":1,"namenodes":2,"stops":null"#, 0),
        (r#""version":1,"namenodes":2,"stops":{}"#, 0),
        (r#""version":1,"namenodes":2,"stops":[[2,1]]"#, 0),
        (r#""version":1,"namenodes":2,"stops":[[0,5],[0,6]]"#, 1),
        (r#""version":1,"namenodes":2,"stops":[[1,1],[0,0]]"#, 1),
        (
            r#""version":1,"namenodes":2,"stops":[[1,1],[0,1000001]]"#,
            1,
        ),
        (
            r#""version":1,"namenodes":2,"stops":[[1,1000000],[0,1],[0]]"#,
            2,
        ),
        (r#""version":1,"namenodes":2,"stops":[[1,1],[0,1,1]]"#, 1),
    ] {
        assert_members(&rt, rt.alloc(), members, (9, at, 0));
    }
}

// So many times the text, with commas between.
fn repeated(alloc: Global, text: &str, times: u32) -> Result<String, NoMemory> {
    let mut all = String::new(alloc);
    for i in 0..times {
        if i > 0 {
            all.push(',')?;
        }
        all.push_str(text)?;
    }
    Ok(all)
}

// Asserts what is told of a script with these clients.
fn assert_clients(rt: &impl Abort, alloc: Global, clients: &str, expected: (u8, u64, u32)) {
    let text = format!(in alloc; "{{\"version\":1,\"namenodes\":1,\"clients\":{clients}}}").expect(
        rt, "a text",
    );
    assert_told(rt, alloc, &text, expected);
}

// Asserts what is told of a script with so many clients that are none.
fn assert_client_count(rt: &impl Abort, alloc: Global, times: u32, expected: (u8, u64, u32)) {
    let ones = repeated(alloc, "1", times).expect(rt, "a text");
    let clients = format!(in alloc; "[{ones}]").expect(rt, "a text");
    assert_clients(rt, alloc, &clients, expected);
}

#[test]
fn rule_10_clients_are_at_most_64(rt: HostRuntime) {
    let alloc = rt.alloc();
    assert_client_count(&rt, alloc, 64, (11, 0, 0));
    assert_client_count(&rt, alloc, 65, (10, 0, 0));
    assert_told(&rt, alloc, r#"{"version":1,"namenodes":1}"#, (10, 0, 0));
}

#[test]
fn rules_10_to_13_of_clients(rt: HostRuntime) {
    for (clients, rule, at) in [
        ("{}", 10, 0),
        (r#"[{"user":"Ann","calls":1,"uid":1}]"#, 11, 0),
        (r#"[{"user":"ann","calls":[]},{"user":"ann"}]"#, 11, 1),
        (r#"[{"user":"Ann","calls":1}]"#, 12, 0),
        (
            r#"[{"user":"ann","calls":[]},{"user":"","calls":[]}]"#,
            12,
            1,
        ),
        (r#"[{"user":1,"calls":[]}]"#, 12, 0),
        (r#"[{"user":"ann","calls":1}]"#, 13, 0),
        (
            r#"[{"user":"ann","calls":[]},{"user":"bob","calls":{}}]"#,
            13,
            1,
        ),
    ] {
        assert_clients(&rt, rt.alloc(), clients, (rule, at, 0));
    }
}

// Asserts what is told of a script whose client has so many calls that are none.
fn assert_call_count(rt: &impl Abort, alloc: Global, times: u32, expected: (u8, u64, u32)) {
    let ones = repeated(alloc, "1", times).expect(rt, "a text");
    let clients = format!(in alloc; "[{{\"user\":\"a\",\"calls\":[{ones}]}}]").expect(rt, "a text");
    assert_clients(rt, alloc, &clients, expected);
}

#[test]
fn rule_13_calls_are_at_most_65536(rt: HostRuntime) {
    assert_call_count(&rt, rt.alloc(), 65_536, (14, 0, 1));
    assert_call_count(&rt, rt.alloc(), 65_537, (13, 0, 0));
}

// The first script with this in the place of its second call.
fn with_second_call(rt: &impl Abort, alloc: Global, call: &str) -> String {
    format!(in alloc;
        "{{\"version\":1,\"namenodes\":1,\"clients\":[{{\"user\":\"ann\",\"calls\":[[\"mkdirs\",\"/a/b\"],{call}]}}]}}"
    ).expect(rt, "a text")
}

// Asserts that the second call is refused by this rule.
fn assert_bad_call(rt: &impl Abort, alloc: Global, call: &str, rule: u8) {
    let text = with_second_call(rt, alloc, call);
    assert_told(rt, alloc, &text, (rule, 0, 2));
}

#[test]
fn rule_14_of_the_form_of_a_call(rt: HostRuntime) {
    for call in [
        r#"["move","/a"]"#,
        r#"["stat","/a","/b"]"#,
        r#"["stat",1]"#,
        "[]",
        r#"["create","a",1]"#,
        r#"["grow","/a",-0]"#,
        r#"["grow","/a",18446744073709551616]"#,
        r#"["set_quota","/a",true,null]"#,
    ] {
        assert_bad_call(&rt, rt.alloc(), call, 14);
    }
}

// Whether the second call is refused for its path, and why.
fn is_bad_path(rt: &impl Abort, alloc: Global, call: &str, why: PathFault) -> bool {
    let text = with_second_call(rt, alloc, call);
    let expected = ScriptFault {
        rule: 15,
        at: 0,
        call: 2,
        path: Some(why),
    };
    read_script(alloc, text.as_bytes()).err() == Some(ScriptError::Bad(expected))
}

#[test]
fn rule_15_of_paths(rt: HostRuntime) {
    for (call, why) in [
        (r#"["stat","a"]"#, PathFault::Relative),
        (r#"["grow","/a/../b",0]"#, PathFault::Dot(1)),
        (r#"["rename","/a\u0000","b"]"#, PathFault::Nul(0)),
        (r#"["rename","/a","/b//c"]"#, PathFault::EmptyName(1)),
    ] {
        assert!(rt; is_bad_path(&rt, rt.alloc(), call, why), "{call}");
    }
}

// The call `stat` of a path of so many names.
fn deep_stat(alloc: Global, names: u32) -> Result<String, NoMemory> {
    let mut path = String::new(alloc);
    for _ in 0..names {
        path.push_str("/a")?;
    }
    Ok(format!(in alloc; "[\"stat\",\"{path}\"]")?)
}

#[test]
fn rule_15_of_a_path_with_1001_names(rt: HostRuntime) {
    let call = deep_stat(rt.alloc(), 1001).expect(&rt, "a text");
    assert!(rt; is_bad_path(&rt, rt.alloc(), &call, PathFault::TooDeep(1001)));
}

#[test]
fn rule_16_of_numbers(rt: HostRuntime) {
    for call in [
        r#"["grow","/a",0]"#,
        r#"["grow","/a",4294967297]"#,
        r#"["chmod","/a",512]"#,
        r#"["set_quota","/a",0,null]"#,
        r#"["set_quota","/a",null,1000000000000001]"#,
    ] {
        assert_bad_call(&rt, rt.alloc(), call, 16);
    }
}

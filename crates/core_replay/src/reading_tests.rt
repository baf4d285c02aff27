use crate::fault::{InputError, InputFault};
use crate::input::{Input, read_input};
use crate::listed::Listed;
use hops_base::NoMemory;
use script_text::ScriptFault;
use std::alloc::Global;
use std::process::Abort;

// A script without clients.
const SCRIPT: &str = r#"{"version":1,"namenodes":2,"clients":[]}"#;

// The text of an input with the script and these events.
fn with_events(rt: &impl Abort, alloc: Global, events: &str) -> String {
    format!(in alloc; "{{\"script\":{SCRIPT},\"events\":{events}}}").expect(rt, "a text")
}

// What an event is, in words.
fn words_of(alloc: Global, event: &Listed) -> Result<String, NoMemory> {
    Ok(match event {
        Listed::Begin(client, number, node) => {
            format!(in alloc; "client {} begins {number} at {}", client.0, node.0)?
        }
        Listed::Advance(session, hints) => {
            let mut words = format!(in alloc; "{} advances", session.0)?;
            for hint in hints.as_slice() {
                let name = hint.name.text();
                let one = format!(in alloc; " {}/{name}={}", hint.parent.0, hint.id.0)?;
                words.push_str(&one)?;
            }
            words
        }
        Listed::Quit(session) => format!(in alloc; "{} quits", session.0)?,
        Listed::Stop(node) => format!(in alloc; "{} stops", node.0)?,
        Listed::Beat(node) => format!(in alloc; "{} beats", node.0)?,
        Listed::Sweep => format!(in alloc; "a sweep")?,
    })
}

// The input that a text is.
fn input_of(rt: &impl Abort, alloc: Global, text: &str) -> Input {
    read_input(alloc, text.as_bytes()).expect(rt, "an input")
}

// Asserts that these events are read as this one.
fn assert_one(rt: &impl Abort, alloc: Global, event: &str, words: &str) {
    let events = format!(in alloc; "[{event}]").expect(rt, "a text");
    let input = input_of(rt, alloc, &with_events(rt, alloc, &events));
    assert_eq!(rt; input.events.len(), 1);
    let read = input.events.get(0).expect(rt, "an event");
    let got = words_of(alloc, read).expect(rt, "words");
    assert_eq!(rt; got.as_str(), words);
}

// Asserts what is told of a text that is no input.
fn assert_fault(rt: &impl Abort, alloc: Global, text: &str, fault: InputFault) {
    let told = match read_input(alloc, text.as_bytes()) {
        Err(InputError::Bad(fault)) => Some(fault),
        _ => None,
    };
    assert_eq!(rt; told, Some(fault), "{text}");
}

// Asserts that this is no event.
fn assert_bad(rt: &impl Abort, alloc: Global, event: &str) {
    let events = format!(in alloc; "[[\"sweep\"],{event}]").expect(rt, "a text");
    assert_fault(
        rt,
        alloc,
        &with_events(rt, alloc, &events),
        InputFault::Event(1),
    );
}

#[test]
fn each_form_is_read(rt: HostRuntime) {
    for (event, words) in [
        (r#"["begin",0,1,1]"#, "client 0 begins 1 at 1"),
        (
            r#"["begin",4294967295,4294967295,4294967295]"#,
            "client 4294967295 begins 4294967295 at 4294967295",
        ),
        (r#"["advance",1]"#, "1 advances"),
        (
            r#"["advance",18446744073709551615,[]]"#,
            "18446744073709551615 advances",
        ),
        (
            r#"["advance",2,[[1,"a",2],[18446744073709551615,"é:",0]]]"#,
            "2 advances 1/a=2 18446744073709551615/é:=0",
        ),
        (r#"["quit",3]"#, "3 quits"),
        (r#"["stop",1]"#, "1 stops"),
        (r#"["beat",0]"#, "0 beats"),
        (r#"["sweep"]"#, "a sweep"),
    ] {
        assert_one(&rt, rt.alloc(), event, words);
    }
}

#[test]
fn events_stand_in_their_order(rt: HostRuntime) {
    let alloc = rt.alloc();
    let text = with_events(&rt, alloc, r#"[["quit",1],["beat",2],["quit",3]]"#);
    let input = input_of(&rt, alloc, &text);
    let mut lines = String::new(alloc);
    for event in input.events.as_slice() {
        let words = words_of(alloc, event).expect(&rt, "words");
        lines.push_str(&words).expect(&rt, "memory");
        lines.push('\n').expect(&rt, "memory");
    }
    assert_eq!(rt; lines.as_str(), "1 quits\n2 beats\n3 quits\n");
    assert_eq!(rt; input.script.namenodes(), 2);
}

#[test]
fn names_and_counts_of_values_are_tested(rt: HostRuntime) {
    for event in [
        "null",
        "7",
        "{}",
        "[]",
        r#""sweep""#,
        "[1]",
        r#"["Sweep"]"#,
        r#"["close",1]"#,
        r#"["sweep",0]"#,
        r#"["begin",0,1]"#,
        r#"["begin",0,1,1,0]"#,
        r#"["advance"]"#,
        r#"["advance",1,[],0]"#,
        r#"["quit"]"#,
        r#"["quit",1,1]"#,
        r#"["stop"]"#,
        r#"["stop",1,1]"#,
        r#"["beat"]"#,
        r#"["beat",1,1]"#,
    ] {
        assert_bad(&rt, rt.alloc(), event);
    }
}

#[test]
fn numbers_are_whole_and_in_range(rt: HostRuntime) {
    for event in [
        r#"["begin",4294967296,1,1]"#,
        r#"["begin",0,4294967296,1]"#,
        r#"["begin",0,1,4294967296]"#,
        r#"["stop",4294967296]"#,
        r#"["beat",4294967296]"#,
        r#"["quit",18446744073709551616]"#,
        r#"["advance",18446744073709551616]"#,
        r#"["quit",-1]"#,
        r#"["quit",-0]"#,
        r#"["quit",1.0]"#,
        r#"["quit",1e2]"#,
        r#"["quit","1"]"#,
        r#"["quit",[1]]"#,
        r#"["quit",null]"#,
        r#"["begin",0.5,1,1]"#,
        r#"["begin",0,-1,1]"#,
        r#"["begin",0,1,"1"]"#,
    ] {
        assert_bad(&rt, rt.alloc(), event);
    }
}

#[test]
fn hints_are_tested(rt: HostRuntime) {
    for hints in [
        "null",
        "{}",
        r#""a""#,
        r#"[1,"a",2]"#,
        "[[]]",
        r#"[[1,"a"]]"#,
        r#"[[1,"a",2,3]]"#,
        "[[1,2,3]]",
        r#"[[-1,"a",2]]"#,
        r#"[[1,"a",2.0]]"#,
        r#"[["1","a",2]]"#,
        r#"[[1,"",2]]"#,
        r#"[[1,".",2]]"#,
        r#"[[1,"..",2]]"#,
        r#"[[1,"a/b",2]]"#,
        r#"[[1,"a\u0000",2]]"#,
        r#"[[18446744073709551616,"a",2]]"#,
        r#"[[1,"a",2],[1,"b"]]"#,
    ] {
        let alloc = rt.alloc();
        let event = format!(in alloc; "[\"advance\",1,{hints}]").expect(&rt, "a text");
        assert_bad(&rt, alloc, &event);
    }
}

#[test]
fn other_texts_have_another_form(rt: HostRuntime) {
    for text in [
        "",
        "[]",
        "null",
        "{}",
        r#"{"script":1}"#,
        r#"{"events":[]}"#,
        r#"{"script":1,"events":1,"more":1}"#,
        r#"{"script":1,"Events":1}"#,
        r#"{"script":1,"events":1"#,
        r#"{"script":1,"events":1} 2"#,
    ] {
        assert_fault(&rt, rt.alloc(), text, InputFault::Form);
    }
}

#[test]
fn the_script_is_tested_before_the_events(rt: HostRuntime) {
    let alloc = rt.alloc();
    for (text, rule) in [
        (r#"{"script":[],"events":1}"#, 2),
        (r#"{"events":[["sleep"]],"script":{"version":2}}"#, 4),
    ] {
        let fault = ScriptFault {
            rule,
            at: 0,
            call: 0,
            path: None,
        };
        assert_fault(&rt, alloc, text, InputFault::OfScript(fault));
    }
}

#[test]
fn events_are_an_array(rt: HostRuntime) {
    let alloc = rt.alloc();
    for events in ["null", "1", "{}", r#""sweep""#] {
        let text = with_events(&rt, alloc, events);
        assert_fault(&rt, alloc, &text, InputFault::Events);
    }
}

// An array of this many zeros.
fn zeros(alloc: Global, count: u32) -> Result<String, NoMemory> {
    let mut text = String::new(alloc);
    text.push('[')?;
    for i in 0..count {
        if i > 0 {
            text.push(',')?;
        }
        text.push('0')?;
    }
    text.push(']')?;
    Ok(text)
}

#[test]
fn events_are_at_most_a_million(rt: HostRuntime) {
    let alloc = rt.alloc();
    for (count, fault) in [
        (1_000_000, InputFault::Event(0)),
        (1_000_001, InputFault::Events),
    ] {
        let events = zeros(alloc, count).expect(&rt, "a text");
        let text = with_events(&rt, alloc, &events);
        let told = match read_input(alloc, text.as_bytes()) {
            Err(InputError::Bad(fault)) => Some(fault),
            _ => None,
        };
        assert_eq!(rt; told, Some(fault));
    }
}

#[test]
fn the_first_bad_event_is_told(rt: HostRuntime) {
    let alloc = rt.alloc();
    let text = with_events(&rt, alloc, r#"[["quit",1],["sweep"],["quit"],["sweep"],0]"#);
    assert_fault(&rt, alloc, &text, InputFault::Event(2));
}

#[test]
fn the_last_value_of_a_key_counts(rt: HostRuntime) {
    let alloc = rt.alloc();
    let text = format!(in alloc;
        "{{\"events\":0,\"script\":0,\"script\":{SCRIPT},\"events\":[[\"sweep\"]]}}"
    ).expect(&rt, "a text");
    let input = input_of(&rt, alloc, &text);
    assert_eq!(rt; input.events.len(), 1);
}

// Asserts the words of an error.
fn assert_words(rt: &impl Abort, alloc: Global, error: InputError, words: &str) {
    let text = error.to_string(alloc).expect(rt, "words");
    assert_eq!(rt; text.as_str(), words);
}

#[test]
fn errors_have_words(rt: HostRuntime) {
    let alloc = rt.alloc();
    let script = ScriptFault {
        rule: 11,
        at: 2,
        call: 3,
        path: None,
    };
    assert_words(&rt, alloc, InputError::NoMemory, "out of memory");
    for (fault, words) in [
        (InputFault::Form, "bad input"),
        (
            InputFault::OfScript(script),
            "bad script, rule 11, at 2, call 3",
        ),
        (InputFault::Events, "bad events"),
        (InputFault::Event(7), "bad event 7"),
    ] {
        assert_words(&rt, alloc, InputError::Bad(fault), words);
    }
}

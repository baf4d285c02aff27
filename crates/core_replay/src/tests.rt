ghost use Rattle.std.specs.Prelude.{◌≤◌};

use super::*;
use crate::fault::InputFault;
use crate::told::{event_value, has_memory};
use crate::unbuilt::Unbuilt;
use crate::vectors::{
    DELETE_MEETS_CREATE_LOCK, NAME_APPEARS_BEFORE_LOCK, RANDOM_0, RANDOM_1, RANDOM_2, RANDOM_3,
    RANDOM_4, RANDOM_5, RANDOM_7, SHARED_LOCKS, STAT_SEES_CHANGE, Vector,
};
use hops_base::{MemSink, MemSource, SteadySink, SteadySource};
use hops_core::{BeginFault, EventAnswer, Progress};
use script_text::ScriptFault;
use std::process::Abort;

const ROOT: &str =
    "[\"path\",\"/\",{\"kind\":\"dir\",\"max_bytes\":null,\"max_names\":null,\"mode\":493,\"owner\":\"hdfs\"}]\n";

// What is answered to these bytes, and what is written.
fn replayed(rt: &impl Abort, alloc: Global, bytes: &[u8]) -> (Status, SteadySink) {
    let bytes = Vec::from_slice(alloc, bytes).expect(rt, "memory");
    let mut source = SteadySource::new(bytes);
    let mut sink = SteadySink::new(alloc);
    let status = replay_input(alloc, &mut source, &mut sink);
    (status, sink)
}

// Asserts that an input is replayed so.
fn assert_replay(rt: &impl Abort, alloc: Global, input: &str, lines: &str) {
    let (status, sink) = replayed(rt, alloc, input.as_bytes());
    assert!(rt; status == Status::Done, "{status:?} of {input}");
    let written = str::from_utf8(sink.written()).expect(rt, "a text");
    assert!(rt; written == lines, "{written} of {input}");
}

fn assert_vector(rt: &impl Abort, alloc: Global, vector: &Vector) {
    assert_replay(rt, alloc, vector.input, vector.lines);
}

// Asserts that this is answered to an input, and that nothing is written.
fn assert_refused(rt: &impl Abort, alloc: Global, input: &str, expected: Status) {
    let (status, sink) = replayed(rt, alloc, input.as_bytes());
    assert!(rt;
        status == expected && sink.written().is_empty(),
        "{status:?} of {input}"
    );
}

// The input of a script of one namenode with these clients, and of events.
fn input_of(rt: &impl Abort, alloc: Global, clients: &str, events: &str) -> String {
    format!(in alloc;
        "{{\"script\":{{\"version\":1,\"namenodes\":1,\"clients\":{clients}}},\"events\":{events}}}"
    ).expect(rt, "memory")
}

#[test]
fn delete_meets_create_lock(rt: HostRuntime) {
    assert_vector(&rt, rt.alloc(), &DELETE_MEETS_CREATE_LOCK);
}

#[test]
fn name_appears_before_lock(rt: HostRuntime) {
    assert_vector(&rt, rt.alloc(), &NAME_APPEARS_BEFORE_LOCK);
}

#[test]
fn shared_locks(rt: HostRuntime) {
    assert_vector(&rt, rt.alloc(), &SHARED_LOCKS);
}

#[test]
fn stat_sees_change(rt: HostRuntime) {
    assert_vector(&rt, rt.alloc(), &STAT_SEES_CHANGE);
}

#[test]
fn random_events(rt: HostRuntime) {
    for vector in [
        &RANDOM_0, &RANDOM_1, &RANDOM_2, &RANDOM_3, &RANDOM_4, &RANDOM_5, &RANDOM_7,
    ] {
        assert_vector(&rt, rt.alloc(), vector);
    }
}

#[test]
fn no_events(rt: HostRuntime) {
    let alloc = rt.alloc();
    let input = input_of(&rt, alloc, "[]", "[]");
    let lines = format!(in alloc; "{ROOT}[\"end\",0,0,1]\n").expect(&rt, "memory");
    assert_replay(&rt, alloc, &input, &lines);
}

// Asserts that each of these events is skipped, and that none writes a note.
fn assert_skipped(rt: &impl Abort, alloc: Global, events: &str, count: u32) {
    let clients = "[{\"user\":\"ann\",\"calls\":[[\"stat\",\"/\"],[\"stat\",\"/\"]]}]";
    let input = input_of(rt, alloc, clients, events);
    let mut lines = String::new(alloc);
    for place in 0..count {
        let line = format!(in alloc; "[\"event\",{place},[\"skipped\"]]\n").expect(rt, "memory");
        lines.push_str(&line).expect(rt, "memory");
    }
    let end = format!(in alloc; "{ROOT}[\"end\",0,{count},1]\n").expect(rt, "memory");
    lines.push_str(&end).expect(rt, "memory");
    assert_replay(rt, alloc, &input, &lines);
}

#[test]
fn what_cannot_be_made_is_skipped(rt: HostRuntime) {
    for (events, count) in [
        ("[[\"begin\",1,1,0]]", 1),
        ("[[\"begin\",0,1,1]]", 1),
        ("[[\"begin\",0,3,0]]", 1),
        ("[[\"begin\",0,0,0]]", 1),
        ("[[\"begin\",0,2,0]]", 1),
        ("[[\"advance\",1]]", 1),
        ("[[\"quit\",1],[\"quit\",0]]", 2),
        ("[[\"advance\",1,[[1,\"a\",2]]]]", 1),
    ] {
        assert_skipped(&rt, rt.alloc(), events, count);
    }
}

#[test]
fn one_open_session_a_client(rt: HostRuntime) {
    let alloc = rt.alloc();
    let clients = "[{\"user\":\"ann\",\"calls\":[[\"stat\",\"/\"],[\"stat\",\"/\"]]}]";
    let events = "[[\"begin\",0,1,0],[\"begin\",0,2,0],[\"quit\",1],[\"begin\",0,2,0]]";
    let lines = format!(in alloc;
        "[0,\"open\",1,0,1,0]\n[\"event\",0,[\"session\",1]]\n[\"event\",1,[\"skipped\"]]\n[\"event\",2,[\"ok\"]]\n[1,\"open\",2,0,2,0]\n[\"event\",3,[\"session\",2]]\n{ROOT}[\"end\",2,4,1]\n"
    ).expect(&rt, "memory");
    assert_replay(&rt, alloc, &input_of(&rt, alloc, clients, events), &lines);
}

#[test]
fn no_call_is_begun_again(rt: HostRuntime) {
    let alloc = rt.alloc();
    let clients = "[{\"user\":\"ann\",\"calls\":[[\"stat\",\"/\"]]}]";
    let events = "[[\"begin\",0,1,0],[\"quit\",1],[\"begin\",0,1,0]]";
    let lines = format!(in alloc;
        "[0,\"open\",1,0,1,0]\n[\"event\",0,[\"session\",1]]\n[\"event\",1,[\"ok\"]]\n[\"event\",2,[\"skipped\"]]\n{ROOT}[\"end\",1,3,1]\n"
    ).expect(&rt, "memory");
    assert_replay(&rt, alloc, &input_of(&rt, alloc, clients, events), &lines);
}

#[test]
fn namenodes_are_those_of_the_script(rt: HostRuntime) {
    let alloc = rt.alloc();
    let input =
        "{\"script\":{\"version\":1,\"namenodes\":2,\"clients\":[{\"user\":\"ann\",\"calls\":[[\"stat\",\"/\"]]}]},\"events\":[[\"begin\",0,1,2],[\"begin\",0,1,1]]}";
    let lines = format!(in alloc;
        "[\"event\",0,[\"skipped\"]]\n[0,\"open\",1,0,1,1]\n[\"event\",1,[\"session\",1]]\n{ROOT}[\"end\",1,2,1]\n"
    ).expect(&rt, "memory");
    assert_replay(&rt, alloc, input, &lines);
}

// Asserts how the answer of event 0 is told.
fn assert_told(rt: &impl Abort, alloc: Global, answer: &EventAnswer, line: &str) {
    if !has_memory(answer) {
        panic!(rt; "{line}");
    }
    let value = event_value(alloc, 0, answer).expect(rt, "memory");
    let told = value.to_vec(alloc).expect(rt, "memory");
    assert_eq!(rt; told.as_slice(), line.as_bytes());
}

#[test]
fn answers_that_no_event_has_yet(rt: HostRuntime) {
    let gone = EventAnswer::Refused(BeginFault::NodeGone(5));
    assert_told(&rt, rt.alloc(), &gone, "[\"event\",0,[\"nodegone\",5]]");
    let fenced = EventAnswer::Advanced(Progress::Fenced(6));
    assert_told(&rt, rt.alloc(), &fenced, "[\"event\",0,[\"fenced\",6]]");
}

#[test]
fn want_of_memory_is_seen(rt: HostRuntime) {
    assert!(&rt; !has_memory(&EventAnswer::Refused(BeginFault::NoMemory)));
    assert!(&rt; !has_memory(&EventAnswer::Advanced(Progress::NoMemory)));
    assert!(&rt; has_memory(&EventAnswer::Skipped));
}

#[test]
fn what_is_not_built(rt: HostRuntime) {
    let clients =
        "[{\"user\":\"ann\",\"calls\":[[\"stat\",\"/\"],[\"append\",\"/a\"],[\"delete\",\"/\",true]]}]";
    for (events, place) in [
        ("[[\"sweep\"]]", 0),
        ("[[\"begin\",0,1,0],[\"stop\",0]]", 1),
        (
            "[[\"begin\",0,1,0],[\"advance\",1],[\"beat\",0],[\"sweep\"]]",
            2,
        ),
        ("[[\"begin\",0,2,0]]", 0),
        ("[[\"begin\",9,2,0],[\"begin\",0,3,0]]", 1),
    ] {
        let input = input_of(&rt, rt.alloc(), clients, events);
        let expected = Status::NotBuilt(Unbuilt::Event(place));
        assert_refused(&rt, rt.alloc(), &input, expected);
    }
}

#[test]
fn stops_are_not_built(rt: HostRuntime) {
    let input =
        "{\"script\":{\"version\":1,\"namenodes\":1,\"stops\":[[0,5]],\"clients\":[]},\"events\":[[\"sweep\"]]}";
    assert_refused(&rt, rt.alloc(), input, Status::NotBuilt(Unbuilt::Script));
}

#[test]
fn bad_input(rt: HostRuntime) {
    let bad = Status::BadInput(InputFault::Form);
    assert_refused(&rt, rt.alloc(), "", bad);
    let input = input_of(
        &rt,
        rt.alloc(),
        "[]",
        "[[\"sweep\"],[\"sweep\",1],[\"go\"]]",
    );
    let bad = Status::BadInput(InputFault::Event(1));
    assert_refused(&rt, rt.alloc(), &input, bad);
}

#[test]
fn words_are_refused(rt: HostRuntime) {
    let alloc = rt.alloc();
    let mut words = Vec::new(alloc);
    let word = String::from_str(alloc, "run").expect(&rt, "memory");
    words.push(word).expect(&rt, "memory");
    let mut source = SteadySource::new(Vec::new(alloc));
    let mut sink = SteadySink::new(alloc);
    let status = top(alloc, &words, &mut source, &mut sink);
    assert_eq!(&rt; status, Status::Usage(0));
    let status = top(alloc, &[], &mut source, &mut sink);
    assert_eq!(&rt; status, Status::BadInput(InputFault::Form));
}

const NO_EVENTS: &str = "{\"script\":{\"version\":1,\"namenodes\":1,\"clients\":[]},\"events\":[]}";

const NO_EVENTS_LINES: &str =
    "[\"path\",\"/\",{\"kind\":\"dir\",\"max_bytes\":null,\"max_names\":null,\"mode\":493,\"owner\":\"hdfs\"}]
[\"end\",0,0,1]
";

// Asserts that an input is read and its replay is written in pieces of this size.
fn assert_in_pieces(rt: &impl Abort, alloc: Global, piece: usize)
    requires { 1 ≤ piece }
{
    let bytes = Vec::from_slice(alloc, NO_EVENTS.as_bytes()).expect(rt, "memory");
    let mut source = MemSource::new(bytes, piece, Vec::new(alloc));
    let mut sink = MemSink::new(alloc, piece, Vec::new(alloc));
    let status = replay_input(alloc, &mut source, &mut sink);
    assert!(rt; status == Status::Done, "in pieces of {piece}");
    assert_eq!(rt; sink.written(), NO_EVENTS_LINES.as_bytes());
}

#[test]
fn pieces_of_any_size(rt: HostRuntime) {
    assert_in_pieces(&rt, rt.alloc(), 1);
    assert_in_pieces(&rt, rt.alloc(), 7);
    assert_in_pieces(&rt, rt.alloc(), 100);
}

#[test]
fn failing_source(rt: HostRuntime) {
    let alloc = rt.alloc();
    let bytes = Vec::from_slice(alloc, NO_EVENTS.as_bytes()).expect(&rt, "memory");
    let fails = vec![in alloc; 2].expect(&rt, "memory");
    let mut source = MemSource::new(bytes, 5, fails);
    let mut sink = SteadySink::new(alloc);
    let status = replay_input(alloc, &mut source, &mut sink);
    assert!(&rt; status == Status::ReadFault && sink.written().is_empty());
}

#[test]
fn failing_sink(rt: HostRuntime) {
    let alloc = rt.alloc();
    let front = NO_EVENTS_LINES.as_bytes().get(..50).expect(&rt, "a line");
    let bytes = Vec::from_slice(alloc, NO_EVENTS.as_bytes()).expect(&rt, "memory");
    let fails = vec![in alloc; 2].expect(&rt, "memory");
    let mut source = SteadySource::new(bytes);
    let mut sink = MemSink::new(alloc, 50, fails);
    let status = replay_input(alloc, &mut source, &mut sink);
    assert!(&rt; status == Status::WriteFault);
    assert_eq!(&rt; sink.written(), front);
}

#[test]
fn too_many_bytes(rt: HostRuntime) {
    let alloc = rt.alloc();
    let spaces = vec![in alloc; b' '; 67_108_865].expect(&rt, "memory");
    let mut source = SteadySource::new(spaces);
    let mut sink = SteadySink::new(alloc);
    let status = replay_input(alloc, &mut source, &mut sink);
    assert!(&rt; status == Status::TooLarge && sink.written().is_empty());
}

#[test]
fn most_bytes(rt: HostRuntime) {
    let alloc = rt.alloc();
    let spaces = vec![in alloc; b' '; 67_108_864].expect(&rt, "memory");
    let mut source = SteadySource::new(spaces);
    let mut sink = SteadySink::new(alloc);
    let status = replay_input(alloc, &mut source, &mut sink);
    assert!(&rt; status == Status::BadInput(InputFault::Form));
}

// Asserts the number of a status, and the line that tells it.
fn assert_said(rt: &impl Abort, alloc: Global, status: Status, number: u8, line: &str) {
    let said = format!(in alloc; "{status}").expect(rt, "memory");
    assert!(rt; status.number() == number, "{line}");
    assert_eq!(rt; said.as_str(), line);
}

#[test]
fn statuses(rt: HostRuntime) {
    let fault = ScriptFault {
        rule: 8,
        at: 1,
        call: 2,
        path: None,
    };
    let bad_script = Status::BadInput(InputFault::OfScript(fault));
    for (status, number, line) in [
        (Status::Done, 0, "replay: done"),
        (Status::Usage(0), 2, "replay: usage: no words; word 0"),
        (Status::BadInput(InputFault::Form), 3, "replay: bad input"),
        (bad_script, 3, "replay: bad script, rule 8, at 1, call 2"),
        (
            Status::BadInput(InputFault::Events),
            3,
            "replay: bad events",
        ),
        (
            Status::BadInput(InputFault::Event(7)),
            3,
            "replay: bad event 7",
        ),
        (Status::ReadFault, 4, "replay: read fault"),
        (Status::WriteFault, 5, "replay: write fault"),
        (Status::TooLarge, 6, "replay: input too large"),
        (Status::NoMemory, 7, "replay: out of memory"),
        (
            Status::NotBuilt(Unbuilt::Script),
            8,
            "replay: not built yet, script",
        ),
        (
            Status::NotBuilt(Unbuilt::Event(3)),
            8,
            "replay: not built yet, event 3",
        ),
    ] {
        assert_said(&rt, rt.alloc(), status, number, line);
    }
}

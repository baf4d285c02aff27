ghost use Rattle.std.specs.Prelude.{◌≤◌};

use super::*;
use crate::vectors::{
    ESCAPES, ESCAPES_REPORT, FILES_AND_REFUSALS, FILES_AND_REFUSALS_REPORT, FIRST_SCRIPT,
    FIRST_SCRIPT_REPORT, ROOT_AND_MISSING, ROOT_AND_MISSING_REPORT, SIBLINGS, SIBLINGS_REPORT,
};
use hops_base::{MemSink, MemSource, SteadySink, SteadySource};
use script_text::ScriptFault;
use std::process::Abort;

const STATUS_OF_ANN: &str = "{\"kind\":\"dir\",\"mode\":493,\"owner\":\"ann\"}";

const ROOT: &str =
    "{\"kind\":\"dir\",\"max_bytes\":null,\"max_names\":null,\"mode\":493,\"owner\":\"hdfs\"}";

const DIR_OF_ANN: &str =
    "{\"kind\":\"dir\",\"max_bytes\":null,\"max_names\":null,\"mode\":493,\"owner\":\"ann\"}";

const NO_CLIENTS: &str = "{\"version\":1,\"namenodes\":1,\"clients\":[]}";

const NO_CLIENTS_REPORT: &str =
    "{\"report\":1,\"script\":{\"clients\":[],\"grace\":64,\"namenodes\":1,\"persist\":true,\"stops\":[],\"tries\":10000,\"version\":1}}
[\"path\",\"/\",{\"kind\":\"dir\",\"max_bytes\":null,\"max_names\":null,\"mode\":493,\"owner\":\"hdfs\"}]
[\"end\",0,0,1]
";

const NO_CALLS: &str =
    "{\"version\": 1, \"namenodes\": 1, \"clients\": [{\"user\": \"ann\", \"calls\": []}]}";

const NO_CALLS_REPORT: &str =
    "{\"report\":1,\"script\":{\"clients\":[{\"calls\":[],\"user\":\"ann\"}],\"grace\":64,\"namenodes\":1,\"persist\":true,\"stops\":[],\"tries\":10000,\"version\":1}}
[\"path\",\"/\",{\"kind\":\"dir\",\"max_bytes\":null,\"max_names\":null,\"mode\":493,\"owner\":\"hdfs\"}]
[\"end\",0,0,1]
";

const GENERATED: &str =
    "{\"clients\":[{\"calls\":[[\"stat\",\"/n2\"]],\"user\":\"u0\"}],\"grace\":64,\"namenodes\":1,\"persist\":true,\"stops\":[],\"tries\":10000,\"version\":1}\n";

// What `run` answers to these bytes, and what it writes.
fn ran(rt: &impl Abort, alloc: Global, bytes: &[u8]) -> (Status, SteadySink) {
    let bytes = Vec::from_slice(alloc, bytes).expect(rt, "memory");
    let mut source = SteadySource::new(bytes);
    let mut sink = SteadySink::new(alloc);
    let status = run_script(alloc, &mut source, &mut sink);
    (status, sink)
}

// Asserts that a script is run, and that this is its report.
fn assert_report(rt: &impl Abort, alloc: Global, script: &str, report: &str) {
    let (status, sink) = ran(rt, alloc, script.as_bytes());
    assert!(rt; status == Status::Done, "{status:?} of {script}");
    assert_eq!(rt; sink.written(), report.as_bytes(), "of {script}");
}

// Asserts that `run` answers this to these bytes, and writes nothing.
fn assert_refused(rt: &impl Abort, alloc: Global, bytes: &[u8], expected: Status) {
    let (status, sink) = ran(rt, alloc, bytes);
    assert_eq!(rt; status, expected);
    assert!(rt; sink.written().is_empty());
}

// The fault of so many bytes that have no reading as JSON.
fn unreadable(bytes: u64) -> ScriptFault {
    ScriptFault {
        rule: 1,
        at: bytes,
        call: 0,
        path: None,
    }
}

// What `top` answers to the words of this line, over an empty source.
fn status_of(rt: &impl Abort, alloc: Global, line: &str) -> Status {
    let words = words_of(rt, alloc, line);
    let mut source = SteadySource::new(Vec::new(alloc));
    let mut sink = SteadySink::new(alloc);
    top(alloc, &words, &mut source, &mut sink)
}

fn words_of(rt: &impl Abort, alloc: Global, line: &str) -> Vec<String> {
    let mut words = Vec::new(alloc);
    for word in line.split_ascii_whitespace() {
        let word = String::from_str(alloc, word).expect(rt, "memory");
        words.push(word).expect(rt, "memory");
    }
    words
}

// Asserts what `top` answers to the words of this line.
fn assert_status(rt: &impl Abort, alloc: Global, line: &str, expected: Status) {
    assert_eq!(rt; status_of(rt, alloc, line), expected, "of {line}");
}

#[test]
fn no_clients(rt: HostRuntime) {
    assert_report(&rt, rt.alloc(), NO_CLIENTS, NO_CLIENTS_REPORT);
}

#[test]
fn no_calls(rt: HostRuntime) {
    assert_report(&rt, rt.alloc(), NO_CALLS, NO_CALLS_REPORT);
}

#[test]
fn bad_words(rt: HostRuntime) {
    for (line, place) in [("run now", 1), ("run run run", 1), ("", 0), ("Run", 0)] {
        assert_status(&rt, rt.alloc(), line, Status::Usage(place));
    }
}

#[test]
fn no_bytes(rt: HostRuntime) {
    let bad = Status::BadScript(unreadable(0));
    assert_status(&rt, rt.alloc(), "run", bad);
}

#[test]
fn bad_numbers(rt: HostRuntime) {
    for (line, place) in [
        ("gen", 1),
        ("gen 7 1", 3),
        ("gen 4294967296 1 1", 1),
        ("gen +7 1 1", 1),
        ("gen 00000000007 1 1", 1),
        ("gen 7 0 1", 2),
        ("gen 7 65 1", 2),
        ("gen 7 1 5001", 3),
        ("gen 7 1 1 1", 4),
    ] {
        assert_status(&rt, rt.alloc(), line, Status::Usage(place));
    }
}

#[test]
fn generated_script(rt: HostRuntime) {
    let mut sink = SteadySink::new(rt.alloc());
    let status = make_script(rt.alloc(), 7, 1, 1, &mut sink);
    assert!(rt; status == Status::Done);
    assert_eq!(rt; sink.written(), GENERATED.as_bytes());
}

#[test]
fn largest_numbers(rt: HostRuntime) {
    assert_status(&rt, rt.alloc(), "gen 4294967295 64 0", Status::Done);
}

#[test]
fn bad_bytes(rt: HostRuntime) {
    let cut = FIRST_SCRIPT
        .as_bytes()
        .get(..49)
        .expect(&rt, "a long script");
    assert_refused(&rt, rt.alloc(), cut, Status::BadScript(unreadable(49)));
}

#[test]
fn what_is_not_built(rt: HostRuntime) {
    for (script, call) in [
        (
            "{\"version\":1,\"namenodes\":1,\"clients\":[{\"user\":\"ann\",\"calls\":[[\"delete\",\"/no\",true]]}]}",
            1,
        ),
        (
            "{\"version\":1,\"namenodes\":1,\"clients\":[{\"user\":\"ann\",\"calls\":[[\"mkdirs\",\"/a/b\"],[\"append\",\"/a\"]]}]}",
            2,
        ),
        (
            "{\"version\":1,\"namenodes\":2,\"clients\":[{\"user\":\"ann\",\"calls\":[[\"append\",\"/a\"]]}]}",
            0,
        ),
        (
            "{\"version\":1,\"namenodes\":1,\"stops\":[[0,5]],\"clients\":[]}",
            0,
        ),
        (
            "{\"version\":1,\"namenodes\":1,\"clients\":[{\"user\":\"ann\",\"calls\":[]},{\"user\":\"bob\",\"calls\":[]}]}",
            0,
        ),
    ] {
        let unbuilt = Status::Unbuilt { client: 0, call };
        assert_refused(&rt, rt.alloc(), script.as_bytes(), unbuilt);
    }
}

// Asserts that `run` answers this to so many spaces, and writes nothing.
fn assert_spaces(rt: &impl Abort, alloc: Global, times: usize, expected: Status) {
    let spaces = vec![in alloc; b' '; times].expect(rt, "memory");
    assert_refused(rt, alloc, &spaces, expected);
}

#[test]
fn too_many_bytes(rt: HostRuntime) {
    let alloc = rt.alloc();
    assert_spaces(&rt, alloc, 16_777_217, Status::TooLarge);
    let bad = Status::BadScript(unreadable(16_777_216));
    assert_spaces(&rt, alloc, 16_777_216, bad);
}

// Asserts that a script is read and its report is written in pieces of this size.
fn assert_in_pieces(rt: &impl Abort, alloc: Global, piece: usize)
    requires { 1 ≤ piece }
{
    let bytes = Vec::from_slice(alloc, NO_CLIENTS.as_bytes()).expect(rt, "memory");
    let mut source = MemSource::new(bytes, piece, Vec::new(alloc));
    let mut sink = MemSink::new(alloc, piece, Vec::new(alloc));
    let status = run_script(alloc, &mut source, &mut sink);
    assert!(rt; status == Status::Done, "in pieces of {piece}");
    assert_eq!(rt; sink.written(), NO_CLIENTS_REPORT.as_bytes());
}

#[test]
fn pieces_of_any_size(rt: HostRuntime) {
    assert_in_pieces(&rt, rt.alloc(), 1);
    assert_in_pieces(&rt, rt.alloc(), 7);
    assert_in_pieces(&rt, rt.alloc(), 100);
}

// Asserts that nothing is written of a script whose source fails at this call, in pieces of this size.
fn assert_read_fault(rt: &impl Abort, alloc: Global, script: &str, piece: usize, call: u64)
    requires { 1 ≤ piece }
{
    let bytes = Vec::from_slice(alloc, script.as_bytes()).expect(rt, "memory");
    let fails = vec![in alloc; call].expect(rt, "memory");
    let mut source = MemSource::new(bytes, piece, fails);
    let mut sink = SteadySink::new(alloc);
    let status = run_script(alloc, &mut source, &mut sink);
    assert!(rt; status == Status::ReadFault, "at call {call}");
    assert!(rt; sink.written().is_empty(), "at call {call}");
}

#[test]
fn failing_source(rt: HostRuntime) {
    for call in [1, 2, 9] {
        assert_read_fault(&rt, rt.alloc(), NO_CLIENTS, 5, call);
    }
}

// Asserts that the front of a report is written by a sink that takes 100 bytes and fails at this call.
fn assert_write_fault(rt: &impl Abort, alloc: Global, script: &str, front: &[u8], call: u64) {
    let bytes = Vec::from_slice(alloc, script.as_bytes()).expect(rt, "memory");
    let fails = vec![in alloc; call].expect(rt, "memory");
    let mut source = SteadySource::new(bytes);
    let mut sink = MemSink::new(alloc, 100, fails);
    let status = run_script(alloc, &mut source, &mut sink);
    assert!(rt; status == Status::WriteFault, "at call {call}");
    assert_eq!(rt; sink.written(), front, "at call {call}");
}

#[test]
fn failing_sink(rt: HostRuntime) {
    for (call, kept) in [(1, 0), (2, 100), (3, 200)] {
        let report = NO_CLIENTS_REPORT.as_bytes();
        let front = report.get(..kept).expect(&rt, "a long report");
        assert_write_fault(&rt, rt.alloc(), NO_CLIENTS, front, call);
    }
}

// Asserts the number of a status, and the line that tells it.
fn assert_said(rt: &impl Abort, alloc: Global, status: Status, number: u8, line: &str) {
    let said = format!(in alloc; "{status}").expect(rt, "memory");
    assert!(rt; status.number() == number, "{line}");
    assert_eq!(rt; said.as_str(), line);
}

#[test]
fn statuses(rt: HostRuntime) {
    for (status, number, line) in [
        (
            Status::Usage(3),
            2,
            "hops: usage: run, gen SEED CLIENTS CALLS; word 3",
        ),
        (
            Status::BadScript(unreadable(49)),
            3,
            "hops: bad script, rule 1, at 49, call 0",
        ),
        (Status::ReadFault, 4, "hops: read fault"),
        (Status::WriteFault, 5, "hops: write fault"),
        (Status::TooLarge, 6, "hops: input too large"),
        (Status::NoMemory, 7, "hops: out of memory"),
        (
            Status::Unbuilt { client: 0, call: 2 },
            8,
            "hops: not built yet, client 0, call 2",
        ),
    ] {
        assert_said(&rt, rt.alloc(), status, number, line);
    }
    assert!(rt; Status::Done.number() == 0);
}

#[test]
fn first_script(rt: HostRuntime) {
    assert_report(&rt, rt.alloc(), FIRST_SCRIPT, FIRST_SCRIPT_REPORT);
}

#[test]
fn root_and_missing(rt: HostRuntime) {
    assert_report(&rt, rt.alloc(), ROOT_AND_MISSING, ROOT_AND_MISSING_REPORT);
}

#[test]
fn siblings(rt: HostRuntime) {
    assert_report(&rt, rt.alloc(), SIBLINGS, SIBLINGS_REPORT);
}

#[test]
fn escapes(rt: HostRuntime) {
    assert_report(&rt, rt.alloc(), ESCAPES, ESCAPES_REPORT);
}

#[test]
fn files_and_refusals(rt: HostRuntime) {
    assert_report(
        &rt,
        rt.alloc(),
        FILES_AND_REFUSALS,
        FILES_AND_REFUSALS_REPORT,
    );
}

// A script of the client `ann` with these calls.
fn script_of(rt: &impl Abort, alloc: Global, calls: &str) -> String {
    format!(in alloc;
        "{{\"version\":1,\"namenodes\":1,\"clients\":[{{\"user\":\"ann\",\"calls\":{calls}}}]}}"
    ).expect(rt, "memory")
}

// Asserts that the last of two calls of one client is answered this, by the note of this number. A call's notes are its
// opening, one for each key that it locks, and its answer.
fn assert_second(rt: &impl Abort, alloc: Global, calls: &str, note: u32, reply: &str) {
    let script = script_of(rt, alloc, calls);
    let line = format!(in alloc; "[\"answer\",0,2,\"done\",{note},{reply}]\n").expect(rt, "memory");
    let (status, sink) = ran(rt, alloc, script.as_bytes());
    let report = str::from_utf8(sink.written()).expect(rt, "a text");
    let answered = report.contains(line.as_str());
    assert!(rt; status == Status::Done && answered, "{calls}");
}

#[test]
fn refusals_of_create_and_list(rt: HostRuntime) {
    for (calls, note, reply) in [
        (
            "[[\"mkdirs\",\"/d\"],[\"create\",\"/d\",true]]",
            8,
            "{\"refused\":\"FileAlreadyExists\"}",
        ),
        (
            "[[\"create\",\"/f\",false],[\"create\",\"/f\",false]]",
            9,
            "{\"refused\":\"FileAlreadyExists\"}",
        ),
        (
            "[[\"create\",\"/f\",false],[\"create\",\"/f/x\",true]]",
            8,
            "{\"refused\":\"ParentNotDirectory\"}",
        ),
        (
            "[[\"create\",\"/f\",false],[\"create\",\"/f\",true]]",
            9,
            "true",
        ),
        (
            "[[\"create\",\"/f\",false],[\"list\",\"/f/x\"]]",
            8,
            "{\"refused\":\"FileNotFound\"}",
        ),
        (
            "[[\"mkdirs\",\"/d\"],[\"list\",\"/d\"]]",
            8,
            "{\"entries\":[]}",
        ),
    ] {
        assert_second(&rt, rt.alloc(), calls, note, reply);
    }
}

#[test]
fn refusals_of_delete_and_chmod(rt: HostRuntime) {
    for (calls, note, reply) in [
        ("[[\"mkdirs\",\"/d\"],[\"delete\",\"/\",false]]", 8, "false"),
        (
            "[[\"mkdirs\",\"/d/e\"],[\"delete\",\"/d\",false]]",
            9,
            "{\"refused\":\"PathIsNotEmptyDirectory\"}",
        ),
        (
            "[[\"mkdirs\",\"/d/e\"],[\"delete\",\"/d/e/f\",false]]",
            8,
            "false",
        ),
        (
            "[[\"create\",\"/d/f\",false],[\"delete\",\"/d/f\",false]]",
            10,
            "true",
        ),
        (
            "[[\"mkdirs\",\"/d\"],[\"chmod\",\"/\",511]]",
            8,
            "{\"refused\":\"IO\",\"why\":\"RootFixed\"}",
        ),
        (
            "[[\"create\",\"/f\",false],[\"chmod\",\"/f/x\",1]]",
            8,
            "{\"refused\":\"FileNotFound\"}",
        ),
    ] {
        assert_second(&rt, rt.alloc(), calls, note, reply);
    }
}

// Adds the name of a number to a path.
fn add_name(rt: &impl Abort, alloc: Global, path: &mut String, number: u32) {
    let name = format!(in alloc; "/d{number}").expect(rt, "memory");
    path.push_str(name.as_str()).expect(rt, "memory");
}

// Adds the line of a directory.
fn add_line(rt: &impl Abort, alloc: Global, lines: &mut String, path: &str) {
    let line = format!(in alloc; "[\"path\",\"{path}\",{DIR_OF_ANN}]\n").expect(rt, "memory");
    lines.push_str(line.as_str()).expect(rt, "memory");
}

// The path of the names d0 to d39, and the lines of its directories but the first two.
fn deep_path(rt: &impl Abort, alloc: Global) -> (String, String) {
    let mut path = String::new(alloc);
    let mut lines = String::new(alloc);
    for i in 0..40u32 {
        add_name(rt, alloc, &mut path, i);
        if i > 1 {
            add_line(rt, alloc, &mut lines, path.as_str());
        }
    }
    (path, lines)
}

// The path `/d0/d1/other` and below it a name of 255 letters.
fn wide_path(rt: &impl Abort, alloc: Global) -> String {
    let mut path = String::from_str(alloc, "/d0/d1/other/").expect(rt, "memory");
    for _ in 0..255u32 {
        path.push('x').expect(rt, "memory");
    }
    path
}

// The three calls: two that make a deep and a wide path, and a look between them.
fn deep_calls(rt: &impl Abort, alloc: Global, path: &str, wide: &str) -> String {
    format!(in alloc;
        "[[\"mkdirs\",\"{path}\"],[\"stat\",\"/d0/d1\"],[\"mkdirs\",\"{wide}\"]]"
    ).expect(rt, "memory")
}

// The first line of the report.
fn deep_head(rt: &impl Abort, alloc: Global, calls: &str) -> String {
    format!(in alloc;
        "{{\"report\":1,\"script\":{{\"clients\":[{{\"calls\":{calls},\"user\":\"ann\"}}],\"grace\":64,\"namenodes\":1,\"persist\":true,\"stops\":[],\"tries\":10000,\"version\":1}}}}\n"
    ).expect(rt, "memory")
}

// The notes and the answers of the three calls.
fn deep_notes(rt: &impl Abort, alloc: Global, path: &str, wide: &str) -> String {
    format!(in alloc;
        "[0,\"open\",1,0,1,0]\n[1,\"took\",1,[\"inode\",0,\"root\"],\"X\"]\n[2,\"took\",1,[\"inode\",1,\"d0\"],\"X\"]\n[3,\"took\",1,[\"reply\",0],\"X\"]\n[4,\"did\",1,0,1,[\"mkdirs\",\"{path}\"],1,true]\n[5,\"open\",2,0,2,0]\n[6,\"took\",2,[\"inode\",2,\"d1\"],\"S\"]\n[7,\"took\",2,[\"reply\",0],\"X\"]\n[8,\"did\",2,0,2,[\"stat\",\"/d0/d1\"],2,{STATUS_OF_ANN}]\n[9,\"open\",3,0,3,0]\n[10,\"took\",3,[\"inode\",2,\"d1\"],\"X\"]\n[11,\"took\",3,[\"inode\",3,\"other\"],\"X\"]\n[12,\"took\",3,[\"reply\",0],\"X\"]\n[13,\"did\",3,0,3,[\"mkdirs\",\"{wide}\"],3,true]\n[\"answer\",0,1,\"done\",4,true]\n[\"answer\",0,2,\"done\",8,{STATUS_OF_ANN}]\n[\"answer\",0,3,\"done\",13,true]\n"
    ).expect(rt, "memory")
}

// The lines of the last namespace, and the end.
fn deep_tree(rt: &impl Abort, alloc: Global, lines: &str, wide: &str) -> String {
    format!(in alloc;
        "[\"path\",\"/\",{ROOT}]\n[\"path\",\"/d0\",{DIR_OF_ANN}]\n[\"path\",\"/d0/d1\",{DIR_OF_ANN}]\n{lines}[\"path\",\"/d0/d1/other\",{DIR_OF_ANN}]\n[\"path\",\"{wide}\",{DIR_OF_ANN}]\n[\"end\",14,3,43]\n"
    ).expect(rt, "memory")
}

#[test]
fn deep_paths(rt: HostRuntime) {
    let alloc = rt.alloc();
    let (path, lines) = deep_path(&rt, alloc);
    let wide = wide_path(&rt, alloc);
    let calls = deep_calls(&rt, alloc, &path, &wide);
    let head = deep_head(&rt, alloc, &calls);
    let notes = deep_notes(&rt, alloc, &path, &wide);
    let tree = deep_tree(&rt, alloc, &lines, &wide);
    let report = format!(in alloc; "{head}{notes}{tree}").expect(&rt, "memory");
    assert_report(&rt, alloc, &script_of(&rt, alloc, &calls), &report);
}

#[test]
fn failing_devices(rt: HostRuntime) {
    let report = FIRST_SCRIPT_REPORT.as_bytes();
    let front = report.get(..100).expect(&rt, "a long report");
    assert_write_fault(&rt, rt.alloc(), FIRST_SCRIPT, front, 2);
    assert_read_fault(&rt, rt.alloc(), FIRST_SCRIPT, 50, 2);
}

//! That nothing wants memory where there is enough: each line here is one that an independent implementation of
//! the same form wrote.

use crate::answer_form::answer_value;
use crate::note_form::note_value;
use crate::reply_form::reply_value;
use crate::report::{AnswerList, Report, TreeList, write_report};
use commit_log::{AnswerLine, Book, CallEnd, Cause, Note, Work};
use hops_base::{
    ClientNo, InodeId, Key, Mode, Name, NoMemory, OpId, Path, PathList, SessionId, StopList, User,
};
use name_space::{Entry, Exception, OpKind, Reply};
use script_text::{ClientList, Script};
use serde_json::Value;
use std::alloc::Global;
use std::process::Abort;

const WITHOUT_CLIENTS: &str =
    "{\"report\":1,\"script\":{\"clients\":[],\"grace\":64,\"namenodes\":1,\"persist\":true,\"stops\":[],\"tries\":10000,\"version\":1}}
[\"path\",\"/\",{\"kind\":\"dir\",\"max_bytes\":null,\"max_names\":null,\"mode\":493,\"owner\":\"hdfs\"}]
[\"end\",0,0,1]
";

// Asserts that this is the text of a value.
fn assert_text(rt: &impl Abort, alloc: Global, value: Result<Value, NoMemory>, expected: &str) {
    let text = text_of(alloc, value.expect(rt, "a value")).expect(rt, "a text");
    assert_eq!(rt; text.as_str(), expected);
}

fn text_of(alloc: Global, value: Value) -> Result<String, NoMemory> {
    Ok(value.to_string(alloc)?)
}

// Asserts that this is the line of the note of this number.
fn assert_note(rt: &impl Abort, alloc: Global, number: u64, note: Note, expected: &str) {
    assert_text(rt, alloc, note_value(alloc, number, &note), expected);
    // A call of its drop is proved sooner than a match over its kinds.
    drop(note);
}

fn assert_reply(rt: &impl Abort, alloc: Global, reply: Reply, expected: &str) {
    assert_text(rt, alloc, reply_value(alloc, &reply), expected);
    drop(reply);
}

fn path(rt: &impl Abort, alloc: Global, text: &str) -> Path {
    Path::read(alloc, text).expect(rt, "a path")
}

fn user(rt: &impl Abort, alloc: Global, text: &str) -> User {
    User::read(alloc, text).expect(rt, "a user")
}

fn name(rt: &impl Abort, alloc: Global, text: &str) -> Name {
    Name::read(alloc, text).expect(rt, "a name")
}

// The report without clients, of a namespace that has this root alone.
fn empty_report(rt: &impl Abort, alloc: Global, root: Entry) -> Report {
    let mut tree = TreeList::new(alloc);
    tree.reserve(1).expect(rt, "room");
    tree.push((Path::root(alloc), root));
    let clients = ClientList::new(alloc);
    let script = Script::new(1, clients, StopList::new(alloc), 10_000, 64, true);
    Report::new(script, Book::new(alloc), AnswerList::new(alloc), tree)
}

#[test]
fn a_report_without_clients(rt: HostRuntime) {
    let alloc = rt.alloc();
    let root = Entry::Dir {
        mode: 493,
        owner: user(&rt, alloc, "hdfs"),
        max_names: None,
        max_bytes: None,
    };
    let bytes = write_report(alloc, &empty_report(&rt, alloc, root)).expect(&rt, "a report");
    assert_eq!(rt; bytes.as_slice(), WITHOUT_CLIENTS.as_bytes());
}

#[test]
fn a_flag_is_set(rt: HostRuntime) {
    let alloc = rt.alloc();
    let flag = Work::Flag(OpId(1), OpKind::Rename, path(&rt, alloc, "/a"));
    let note = Note::Wrote(SessionId(17), flag);
    let expected = "[103,\"wrote\",17,[\"flag\",1,\"rename\",\"/a\"]]";
    assert_note(&rt, alloc, 103, note, expected);
}

#[test]
fn a_lock_is_in_the_way(rt: HostRuntime) {
    let alloc = rt.alloc();
    let key = Key::Inode(InodeId(0), name(&rt, alloc, "root"));
    let locked = Cause::Locked(key, Mode::Shared, SessionId(1));
    let note = Note::Met(SessionId(2), locked);
    let expected = "[10,\"met\",2,[\"locked\",[\"inode\",0,\"root\"],\"S\",1]]";
    assert_note(&rt, alloc, 10, note, expected);
}

#[test]
fn a_cut(rt: HostRuntime) {
    let alloc = rt.alloc();
    let mut gone = PathList::new(alloc);
    gone.reserve(1).expect(&rt, "room");
    gone.push(path(&rt, alloc, "/c/a"));
    let note = Note::Cut(OpId(1), path(&rt, alloc, "/c"), gone);
    assert_note(&rt, alloc, 136, note, "[136,\"cut\",1,\"/c\",[\"/c/a\"]]");
}

#[test]
fn no_namenode_was_left(rt: HostRuntime) {
    let answer = AnswerLine {
        client: ClientNo(0),
        call: 2,
        end: CallEnd::NoNamenode(17),
    };
    let value = answer_value(rt.alloc(), &answer);
    assert_text(&rt, rt.alloc(), value, "[\"answer\",0,2,\"nonamenode\",17]");
}

#[test]
fn a_quota_is_passed(rt: HostRuntime) {
    let at = path(&rt, rt.alloc(), "/b");
    let (used, limit) = (2, 2);
    let exception = Exception::NSQuotaExceeded { at, used, limit };
    let expected = "{\"at\":\"/b\",\"limit\":2,\"refused\":\"NSQuotaExceeded\",\"used\":2}";
    assert_reply(&rt, rt.alloc(), Reply::Refused(exception), expected);
}

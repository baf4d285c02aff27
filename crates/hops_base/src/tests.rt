//! Worked values, and each call that may want memory, with ample memory.

use crate::{
    ClientNo, Given, IdList, InodeId, ItemList, Key, MemSink, MemSource, Mode, Name, NameFault,
    OpId, Path, PathFault, Sink, Source, SteadySink, SteadySource, Taken, User, UserFault,
};
use std::alloc::Global;
use std::process::Abort;
use std::test::Fail;

// The text so many times over.
fn repeated(rt: &impl Abort, alloc: Global, text: &str, count: usize) -> String {
    text.repeat(alloc, count).expect(rt, "memory")
}

fn path(rt: &impl Abort, alloc: Global, text: &str) -> Path {
    Path::read(alloc, text).expect(rt, "a path")
}

fn name(rt: &impl Abort, alloc: Global, text: &str) -> Name {
    Name::read(alloc, text).expect(rt, "a name")
}

// Asserts that both readers refuse the text, and why.
fn assert_fault(rt: &impl Abort, alloc: Global, text: &str, fault: PathFault) {
    assert!(rt; Path::read(alloc, text) == Err(fault), "at {text}");
    assert!(rt; Path::read_free(alloc, text) == Err(fault), "at {text}");
}

#[test]
fn faults_of_paths(rt: HostRuntime) {
    for (text, fault) in [
        ("a", PathFault::Relative),
        ("", PathFault::Relative),
        ("/a//b", PathFault::EmptyName(1)),
        ("/a/", PathFault::EmptyName(1)),
        ("//", PathFault::EmptyName(0)),
        ("/./x", PathFault::Dot(0)),
        ("/x/y/..", PathFault::Dot(2)),
        ("/x/\0", PathFault::Nul(1)),
    ] {
        assert_fault(&rt, rt.alloc(), text, fault);
    }
}

#[test]
fn deep_paths(rt: HostRuntime) {
    let deep = repeated(&rt, rt.alloc(), "/a", 1000);
    assert!(rt; path(&rt, rt.alloc(), &deep).len() == 1000);
}

#[test]
fn too_deep_paths(rt: HostRuntime) {
    let deep = repeated(&rt, rt.alloc(), "/a", 1001);
    assert!(rt; Path::read(rt.alloc(), &deep) == Err(PathFault::TooDeep(1001)));
    assert!(rt; Path::read_free(rt.alloc(), &deep).is_ok());
}

#[test]
fn too_long_paths(rt: HostRuntime) {
    let long = repeated(&rt, rt.alloc(), "n", 8001);
    assert!(rt; Path::read(rt.alloc(), &long) == Err(PathFault::PathTooLong(8001)));
}

#[test]
fn lengths_of_names(rt: HostRuntime) {
    let longest = repeated(&rt, rt.alloc(), "n", 255);
    assert!(rt; Name::read(rt.alloc(), &longest).is_ok());
    let longer = repeated(&rt, rt.alloc(), "n", 256);
    assert!(rt; Name::read(rt.alloc(), &longer) == Err(NameFault::Bad));
}

// Asserts that the text of the path that is read is the text given.
fn assert_read(rt: &impl Abort, alloc: Global, text: &str) {
    let copy = path(rt, alloc, text).copy().expect(rt, "memory");
    let told = copy.text().expect(rt, "memory");
    assert!(rt; told.as_str() == text, "at {text}");
}

#[test]
fn paths_give_their_texts_back(rt: HostRuntime) {
    for text in ["/", "/a", "/a/b", "/...", "/a:b/ \u{e9}"] {
        assert_read(&rt, rt.alloc(), text);
    }
}

// The path with its last name taken away and put back.
fn rebuilt(rt: &impl Abort, alloc: Global, text: &str) -> Path {
    let path = path(rt, alloc, text);
    let last = path.last().expect(rt, "a name");
    let above = path.parent().expect(rt, "memory").expect(rt, "a parent");
    above.with(last).expect(rt, "memory")
}

#[test]
fn parents_and_children(rt: HostRuntime) {
    let rebuilt = rebuilt(&rt, rt.alloc(), "/a/b/c");
    assert!(rt; rebuilt == path(&rt, rt.alloc(), "/a/b/c"));
    assert!(rt; rebuilt.is_below(&path(&rt, rt.alloc(), "/a")));
}

#[test]
fn names_that_are_bad(rt: HostRuntime) {
    for text in ["", ".", "..", "a/b", "a\0"] {
        assert!(rt;
            Name::read(rt.alloc(), text) == Err(NameFault::Bad),
            "at {text}"
        );
    }
}

fn user(rt: &impl Abort, alloc: Global, text: &str) -> User {
    User::read(alloc, text).expect(rt, "a user")
}

#[test]
fn users_that_are_good(rt: HostRuntime) {
    for text in ["u-9_x", "abcdefghijklmnopqrstuvwxyz012345"] {
        let copy = user(&rt, rt.alloc(), text).copy().expect(&rt, "memory");
        assert!(rt; copy.text() == text);
    }
}

#[test]
fn users_that_are_bad(rt: HostRuntime) {
    for text in [
        "",
        "Ann",
        "a b",
        "\u{e9}",
        "abcdefghijklmnopqrstuvwxyz0123456",
    ] {
        assert!(rt;
            User::read(rt.alloc(), text) == Err(UserFault::Bad),
            "at {text}"
        );
    }
}

fn inode(rt: &impl Abort, alloc: Global, parent: u64, text: &str) -> Key {
    Key::Inode(InodeId(parent), name(rt, alloc, text))
}

// Asserts that the keys are as they were after a copy, and that the first is below the second.
fn assert_rises(rt: &impl Abort, low: &Key, high: &Key) {
    let copy = low.copy().expect(rt, "memory");
    assert!(rt; copy == *low && copy < *high, "at {low:?}");
}

#[test]
fn inode_keys_rise_by_parent_and_name(rt: HostRuntime) {
    let upper = inode(&rt, rt.alloc(), 2, "B");
    let lower = inode(&rt, rt.alloc(), 2, "a");
    assert_rises(&rt, &upper, &lower);
    let next = inode(&rt, rt.alloc(), 10, "B");
    assert_rises(&rt, &lower, &next);
    assert_rises(&rt, &next, &Key::Quota(InodeId(1)));
}

#[test]
fn keys_rise_by_table(rt: HostRuntime) {
    let rising = [
        Key::Quota(InodeId(1)),
        Key::Lease(ClientNo(0), InodeId(9)),
        Key::Lease(ClientNo(1), InodeId(2)),
        Key::Lease(ClientNo(1), InodeId(3)),
        Key::Reply(ClientNo(0)),
        Key::Ongoing(OpId(1)),
        Key::Gate,
    ];
    for i in 1..rising.len() {
        assert_rises(&rt, &rising[i - 1], &rising[i]);
    }
}

fn two_ids(rt: &impl Abort, alloc: Global) -> IdList {
    let mut ids: IdList = ItemList::new(alloc);
    ids.reserve(2).expect(rt, "memory");
    ids.push(InodeId(7));
    ids.push(InodeId(5));
    ids
}

#[test]
fn lists_grow_where_they_have_room(rt: HostRuntime) {
    let ids = two_ids(&rt, rt.alloc());
    assert!(rt; ids.len() == 2 && ids.get(1) == Some(&InodeId(5)));
    assert!(rt; ids.empty_like().expect(&rt, "memory").len() == 0);
}

// Asserts what each call for nine bytes is answered, in turn.
fn assert_taken<S: Source>(
    rt: &impl Abort,
    alloc: Global,
    source: &mut S,
    told: &[Taken],
    bytes: &[u8],
) {
    let mut into = Vec::new(alloc);
    for answer in told {
        assert!(rt; source.take(&mut into, 9) == *answer);
    }
    assert!(rt; into.as_slice() == bytes);
}

#[test]
fn sources_hand_over_pieces(rt: HostRuntime) -> Result<(), Fail> {
    let alloc = rt.alloc();
    let fails = vec![in alloc; 2u64]?;
    let mut source = MemSource::new(b"hello".to_vec(alloc)?, 3, fails);
    let told = [Taken::Got(3), Taken::Failed, Taken::Got(2), Taken::End];
    assert_taken(&rt, alloc, &mut source, told.as_slice(), b"hello");
    Ok(())
}

#[test]
fn steady_sources_hand_over_all(rt: HostRuntime) -> Result<(), Fail> {
    let alloc = rt.alloc();
    let mut source = SteadySource::new(b"all".to_vec(alloc)?);
    let told = [Taken::Got(3), Taken::End];
    assert_taken(&rt, alloc, &mut source, told.as_slice(), b"all");
    Ok(())
}

#[test]
fn sinks_take_pieces(rt: HostRuntime) -> Result<(), Fail> {
    let fails = vec![in rt.alloc(); 2u64]?;
    let mut sink = MemSink::new(rt.alloc(), 3, fails);
    assert!(rt; sink.give(b"hello") == Given::Took(3));
    assert!(rt; sink.give(b"lo") == Given::Failed);
    assert!(rt; sink.give(b"lo") == Given::Took(2));
    assert!(rt; sink.written() == b"hello".as_slice());
    Ok(())
}

#[test]
fn steady_sinks_take_all(rt: HostRuntime) {
    let mut sink = SteadySink::new(rt.alloc());
    assert!(rt; sink.give(b"hello") == Given::Took(5));
    assert!(rt; sink.written() == b"hello".as_slice());
}

#[test]
fn shared_locks_alone_go_together(rt: HostRuntime) {
    assert!(rt; !Mode::Shared.conflicts(Mode::Shared));
    assert!(rt; Mode::Shared.conflicts(Mode::Exclusive));
    assert!(rt; Mode::Exclusive.conflicts(Mode::Shared));
    assert!(rt; Mode::Exclusive.conflicts(Mode::Exclusive));
}

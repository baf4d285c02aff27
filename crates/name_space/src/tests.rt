//! A range at its ends, and each call that may want memory, with ample memory.

use crate::{Call, Entry, Exception, FileStatus, Listed, Listing, Reply, Why, copy_listing};
use hops_base::{ClientNo, Name, Path, User};
use std::alloc::Global;
use std::process::Abort;
use std::test::Fail;

fn path(rt: &impl Abort, alloc: Global) -> Path {
    Path::read(alloc, "/a").expect(rt, "a path")
}

fn user(rt: &impl Abort, alloc: Global) -> User {
    User::read(alloc, "ann").expect(rt, "a user")
}

#[test]
fn bytes_of_grow_are_in_their_range(rt: HostRuntime) {
    for (bytes, valid) in [
        (0, false),
        (1, true),
        (4_294_967_296, true),
        (4_294_967_297, false),
    ] {
        let grow = Call::Grow(path(&rt, rt.alloc()), bytes);
        assert_eq!(rt; grow.is_valid(), valid, "at {bytes}");
    }
}

// Asserts whether a copy of a call changes something.
fn assert_changes(rt: &impl Abort, call: Call, changes: bool) {
    assert_eq!(rt; copy_changes(rt, &call), changes, "at {call:?}");
}

fn copy_changes(rt: &impl Abort, call: &Call) -> bool {
    call.copy().expect(rt, "a copy").changes()
}

#[test]
fn three_calls_only_look(rt: HostRuntime) {
    let alloc = rt.alloc();
    assert_changes(&rt, Call::Stat(path(&rt, alloc)), false);
    assert_changes(&rt, Call::List(path(&rt, alloc)), false);
    assert_changes(&rt, Call::Usage(path(&rt, alloc)), false);
}

#[test]
fn calls_that_write_change(rt: HostRuntime) {
    let alloc = rt.alloc();
    assert_changes(&rt, Call::Mkdirs(path(&rt, alloc)), true);
    assert_changes(&rt, Call::Create(path(&rt, alloc), true), true);
    assert_changes(&rt, Call::Append(path(&rt, alloc)), true);
    assert_changes(&rt, Call::Grow(path(&rt, alloc), 1), true);
    assert_changes(&rt, Call::Close(path(&rt, alloc)), true);
}

#[test]
fn calls_that_move_and_set_change(rt: HostRuntime) {
    let alloc = rt.alloc();
    assert_changes(&rt, Call::Delete(path(&rt, alloc), true), true);
    let renamed = Call::Rename(path(&rt, alloc), path(&rt, alloc));
    assert_changes(&rt, renamed, true);
    assert_changes(&rt, Call::Chmod(path(&rt, alloc), 0), true);
    let no_quota = Call::SetQuota(path(&rt, alloc), None, None);
    assert_changes(&rt, no_quota, true);
}

// The listing of the file `f`.
fn listing(rt: &impl Abort, alloc: Global) -> Result<Listing, Fail> {
    let status = FileStatus::File {
        len: 5,
        mode: 420,
        owner: user(rt, alloc),
    };
    let name = Name::read(alloc, "f").expect(rt, "a name");
    let mut listing = Listing::new(alloc);
    listing.reserve(1)?;
    listing.push(Listed { name, status });
    Ok(listing)
}

#[test]
fn listings_are_copied(rt: HostRuntime) -> Result<(), Fail> {
    let copy = copy_listing(&listing(&rt, rt.alloc())?)?;
    let first = copy.get(0).ok_or("gone")?;
    assert_eq!(rt; first.name.text(), "f");
    Ok(())
}

fn copy_of(rt: &impl Abort, reply: Reply) -> Reply {
    reply.copy().expect(rt, "a copy")
}

#[test]
fn replies_are_copied(rt: HostRuntime) -> Result<(), Fail> {
    let copy = copy_of(&rt, Reply::Entries(listing(&rt, rt.alloc())?));
    assert!(rt; matches!(&copy, Reply::Entries(entries) if entries.len() == 1));
    Ok(())
}

#[test]
fn refusals_are_copied(rt: HostRuntime) {
    let at = path(&rt, rt.alloc());
    let (used, limit) = (1, 2);
    let refused = Exception::NSQuotaExceeded { at, used, limit };
    assert!(rt;
        matches!(
            copy_of(&rt, Reply::Refused(refused)),
            Reply::Refused(Exception::NSQuotaExceeded {
                used: 1,
                limit: 2,
                ..
            })
        )
    );
}

#[test]
fn exceptions_are_copied(rt: HostRuntime) {
    let copy = Exception::IO(Why::BadParent).copy().expect(&rt, "a copy");
    assert!(rt; matches!(copy, Exception::IO(Why::BadParent)));
}

#[test]
fn entries_are_copied(rt: HostRuntime) {
    let entry = Entry::File {
        len: 0,
        writer: Some(ClientNo(3)),
        mode: 420,
        owner: user(&rt, rt.alloc()),
    };
    let copy = entry.copy().expect(&rt, "a copy");
    assert!(rt;
        matches!(
            copy,
            Entry::File {
                writer: Some(ClientNo(3)),
                ..
            }
        )
    );
}

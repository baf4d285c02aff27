//! Each call that may want memory, with ample memory, on a small book.

use crate::{Book, Ended, Note, Work};
use hops_base::{ClientNo, Key, Mode, NodeNo, OpId, Path, PathList, SessionId};
use name_space::OpKind;
use std::alloc::Global;
use std::process::Abort;

fn push(rt: &impl Abort, book: &mut Book, note: Note) {
    book.reserve(1).expect(rt, "memory");
    book.push(note);
}

fn path(rt: &impl Abort, alloc: Global) -> Path {
    Path::read(alloc, "/d").expect(rt, "a path")
}

fn flags(rt: &impl Abort, alloc: Global) -> Note {
    let flag = Work::Flag(OpId(1), OpKind::Delete, path(rt, alloc));
    Note::Wrote(SessionId(1), flag)
}

fn cuts(rt: &impl Abort, alloc: Global) -> Note {
    Note::Cut(OpId(1), path(rt, alloc), PathList::new(alloc))
}

// A session takes a key and sets a flag; its namenode stops, and what it removed is cut.
fn cut_off(rt: &impl Abort, alloc: Global) -> Book {
    let mut book = Book::new(alloc);
    let opening = Note::Open(SessionId(1), ClientNo(0), 1, NodeNo(0));
    push(rt, &mut book, opening);
    let taken = Note::Took(SessionId(1), Key::Gate, Mode::Exclusive);
    push(rt, &mut book, taken);
    push(rt, &mut book, flags(rt, alloc));
    push(rt, &mut book, Note::Gone(NodeNo(0), Ended::Stopped));
    push(rt, &mut book, cuts(rt, alloc));
    book
}

#[test]
fn a_book_has_its_notes_in_order(rt: HostRuntime) {
    let book = cut_off(&rt, rt.alloc());
    assert!(rt; book.len() == 5 && book.notes().len() == 5);
    assert!(rt; matches!(book.note(3), Some(Note::Gone(NodeNo(0), Ended::Stopped))));
    assert!(rt; book.note(5).is_none());
}

// Asserts how many locks are held, and how many flags are set, before the note of this number.
fn assert_told(rt: &impl Abort, book: &Book, i: u64, locks: usize, flags: usize) {
    assert!(rt;
        book.held_at(i).expect(rt, "memory").len() == locks,
        "at {i}"
    );
    assert!(rt;
        book.flags_at(i).expect(rt, "memory").len() == flags,
        "at {i}"
    );
}

#[test]
fn locks_and_flags_are_told_at_every_place(rt: HostRuntime) {
    let book = cut_off(&rt, rt.alloc());
    for (i, locks, flags) in [
        (0, 0, 0),
        (1, 0, 0),
        (2, 1, 0),
        (3, 1, 1),
        (4, 0, 1),
        (5, 0, 1),
        (u64::MAX, 0, 1),
    ] {
        assert_told(&rt, &book, i, locks, flags);
    }
}

#[test]
fn the_journal_numbers_its_answers_and_cuts(rt: HostRuntime) {
    let book = cut_off(&rt, rt.alloc());
    let numbers = book.journal().expect(&rt, "memory");
    assert!(rt; numbers.as_slice() == [4].as_slice());
}

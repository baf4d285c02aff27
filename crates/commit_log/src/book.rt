//! The book.

ghost use Rattle.std.specs.Prelude.{◌≡◌, ◌+◌, ◌<◌, [], ◌∷◌, ◌++◌, length, max, take, IfOk, OnOk, OnErr, option_copied, slice_get};
ghost use Rattle.commit_log.specs.Reads.{journal, FlagsExactly, HoldsExactly};

use crate::flagged::flagged_ops;
use crate::held::held_locks;
use crate::journal::history_of;
use crate::note::Note;
use hops_base::{ItemList, Key, Mode, NoMemory, OpId, SessionId};
use std::alloc::Global;
use std::marker::Model;

/// All notes in the order in which they were written, with room for more.
#[derive(Debug, Drop)]
pub struct Book {
    alloc: Global,
    notes: ItemList<Note>,
}

impl Model for Book {
    ghost use Rattle.commit_log.specs.Shelf.{Shelf};

    ghost Value = { Shelf };

    ghost view = { λ b. record { notes = b.notes.items; room = b.notes.room } };
}

impl Book {
    /// The empty book. It takes no memory.
    pub fn new(alloc: Global) -> Book
        ensures { result ≡ record { notes = []; room = 0 } }
    {
        Book {
            alloc,
            notes: ItemList::new(alloc),
        }
    }

    /// Makes room for `n` notes more than there are. Want of memory changes nothing.
    pub fn reserve(&mut self, n: u64) -> Result<(), NoMemory>
        ensures ok { OnOk result (self.new ≡ record self.old { room = max self.old.room (length self.old.notes + n) }) }
        ensures err { OnErr result (self.new ≡ self.old) }
    {
        self.notes.reserve(n)
    }

    /// Writes a note at the end. It takes no memory.
    pub fn push(&mut self, note: Note)
        requires { length self.old.notes < self.old.room }
        ensures { self.new ≡ record self.old { notes = self.old.notes ++ note ∷ [] } }
    {
        self.notes.push(note);
    }

    /// How many notes it has.
    pub fn len(&self) -> u64
        ensures { result ≡ length self.now.notes }
    {
        self.notes.len()
    }

    /// Note `i`, counted from 0. None exactly where `i` is at least the length.
    pub fn note(&self, i: u64) -> Option<&Note>
        ensures { option_copied result ≡ slice_get self.now.notes i }
    {
        self.notes.get(i)
    }

    /// All notes.
    pub fn notes(&self) -> &[Note]
        ensures { result.now ≡ self.now.notes }
    {
        self.notes.as_slice()
    }

    /// The numbers of the Did and Cut notes, rising: the notes that tell the history. NoMemory comes only
    /// where memory ran out. It goes over the book once.
    pub fn journal(&self) -> Result<Vec<u64>, NoMemory>
        ensures { IfOk result (λ numbers. numbers.items ≡ journal self.now.notes) }
    {
        history_of(self.alloc, self.notes.as_slice())
    }

    /// The locks that are held just before note `i`, or at the book's end where `i` is at least its length:
    /// each with its session, its key and its mode, by key and then by session. A session that has taken a
    /// key twice has it twice, in the order in which it took it. NoMemory comes only where memory ran out.
    /// It goes over the notes once, gathers every lock that was taken and what gives locks back, and then
    /// sifts and sorts what it gathered.
    pub fn held_at(&self, i: u64) -> Result<Vec<(SessionId, Key, Mode)>, NoMemory>
        ensures { IfOk result (λ locks. HoldsExactly (take i self.now.notes) locks.items) }
    {
        held_locks(self.alloc, self.before(i))
    }

    /// The operations whose flags are set just before note `i`, or at the book's end where `i` is at least
    /// its length, rising and each once. NoMemory comes only where memory ran out. It goes over the notes
    /// once, gathers every flag and what ends flags, and then sifts what it gathered.
    pub fn flags_at(&self, i: u64) -> Result<Vec<OpId>, NoMemory>
        ensures { IfOk result (λ ops. FlagsExactly (take i self.now.notes) ops.items) }
    {
        flagged_ops(self.alloc, self.before(i))
    }

    // The notes before note `i`, or all where there are no more.
    fn before(&self, i: u64) -> &[Note]
        ensures { result.now ≡ take i self.now.notes }
    {
        let notes = self.notes.as_slice();
        match notes.get(..i as usize) {
            Some(front) => front,
            None => notes,
        }
    }
}

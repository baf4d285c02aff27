//! All that the core keeps, and the kinds of change that it knows.

ghost use Rattle.std.specs.Prelude.{◌≡◌, true, false, ◌⊎◌, ◌+◌, ◌≤◌, ◌<◌, ◌^◌, ◌++◌, ℕ, List, Some, IfOk, IsSome, OnOk, OnErr, length, map as list_map, option_copied, slice_get, slice_set};
ghost use Rattle.std.specs.FinMap as map;
ghost use Rattle.row_locks.specs.Locks.{mode_of, IsGivenBack};
ghost use Rattle.row_store.specs.Children.{child_count, IsChildren};
ghost use Rattle.db_state.specs.Core.{IsCore};
ghost use Rattle.db_state.specs.Current.{listed_under};
ghost use Rattle.db_state.specs.Stands.{quota_of};
ghost use Rattle.db_state.specs.Stored.{root_key};
ghost use Rattle.db_state.specs.Inside.{gave_by, one_if};
ghost use Rattle.db_state.specs.Stages.{position_of, with_position};
ghost use Rattle.db_state.specs.State.{empty_seat, opening_state};
ghost use Rattle.db_state.specs.Callers.{asked_key, IsAnswer, IsBehind, IsKeptAway, IsOpen, Takes};
ghost use Rattle.db_state.specs.Steps.{begun_by, opened_by, next_session, met_by, moved_by, new_session, start, without_last, CanMove, CanOpen, Changes, Completes, Gives, IsRunning};
ghost use Rattle.db_state.specs.declared.session.Stage.TheVariants.{Answered};
ghost use Rattle.hops_base.specs.declared.key.Key.{Key};
ghost use Rattle.hops_base.specs.declared.ids.Mode.{Mode};

use crate::listing::listing_of;
use crate::rows::{next_id, reserve_rows, write_rows};
use crate::session::{Position, Seat, Session, Stage};
use crate::sessions::SessionTable;
use crate::settings::Settings;
use crate::tables::Tables;
use crate::writes::Writes;
use commit_log::{Book, Cause, Note};
use hops_base::{ClientNo, InodeId, ItemList, Key, Mode, Name, NoMemory, NodeNo, SessionId, User};
use inode_table::Inode;
use name_space::{Call, Listing, Reply};
use quota_table::QuotaRow;
use row_locks::{Ask, LockTable};
use std::alloc::Global;
use std::marker::Model;

/// The tables and the book, the locks, and the clients' seats and sessions. What always holds of them is kept by every
/// call: there is one for each kind of change, and each asks for what its kind must show.
#[derive(Drop)]
pub struct Db {
    alloc: Global,
    tables: Tables,
    top: Key,
    settings: Settings,
    book: Book,
    next: u64,
    locks: LockTable,
    seats: Vec<Seat>,
    sessions: SessionTable,
    // how many sessions were opened
    opened: u64,
    // how many sessions hold keys; for each of them the book has room for the note that gives them back
    holding: u64,
}

impl Model for Db {
    ghost use Rattle.std.specs.Coded.{codes};
    ghost use Rattle.row_locks.specs.Locks.{coded_locks};
    ghost use Rattle.db_state.specs.Codes.{coded_rows, coded_sessions};
    ghost use Rattle.db_state.specs.Inside.{whole_state, IsInside};
    ghost use Rattle.db_state.specs.State.{State};
    ghost use Rattle.db_state.specs.declared.session.Session.{Session};
    ghost use Rattle.inode_table.specs.declared.inode.Inode.{Inode};
    ghost use Rattle.quota_table.specs.declared.quota.QuotaRow.{QuotaRow};

    ghost Value = { State };

    ghost coded = { Prim.hlevel (codes, coded_rows {R = Inode}, coded_rows {R = QuotaRow}, coded_locks, coded_sessions {S = Session}) };

    ghost view = { λ d. whole_state d.tables d.settings d.book.notes d.next d.locks d.seats.items d.sessions };

    ghost invariant = { λ d. IsInside (whole_state d.tables d.settings d.book.notes d.next d.locks d.seats.items d.sessions)
        d.top d.book.room d.opened d.holding };
}

impl Db {
    /// The opening namespace, `/` alone, with these settings: an empty book, no locks, and no sessions.
    pub fn start(alloc: Global, settings: &Settings) -> Result<Db, NoMemory>
        ensures { IfOk result (λ db. db ≡ opening_state settings.now) }
    {
        let (tables, top) = Tables::opening(alloc)?;
        let settings = settings.copy()?;
        let locks = LockTable::new(alloc)?;
        let seats = empty_seats(alloc, settings.users())?;
        Ok(Db {
            alloc,
            tables,
            top,
            settings,
            book: Book::new(alloc),
            next: 2,
            locks,
            seats,
            sessions: SessionTable::new(alloc),
            opened: 0,
            holding: 0,
        })
    }

    /// That all is as it always is. It does nothing.
    pub fn core(&self)
        ensures { IsCore self.now }
    {
        let _ = &self.tables;
    }

    /// The session of a number: a client's open one, or the last that it had. None where there is no such session.
    pub fn session(&self, s: SessionId) -> Option<&Session>
        ensures { option_copied result ≡ map.get self.now.sessions s.0 }
    {
        self.sessions.get(s)
    }

    /// What is kept of a client. None exactly where there is no such client.
    pub fn seat(&self, client: ClientNo) -> Option<&Seat>
        ensures { option_copied result ≡ slice_get self.now.seats client.0 }
    {
        self.seats.get(client.0 as usize)
    }

    /// The inode row of a key. None exactly where no row is there. It takes no memory.
    pub fn inode(&self, key: &Key) -> Option<&Inode>
        ensures { option_copied result ≡ map.get self.now.stored.inodes key.now }
    {
        self.tables.inodes.row(key)
    }

    /// The quota row of a directory. None exactly where it has none. It takes no memory.
    pub fn quota(&self, id: InodeId) -> Option<&QuotaRow>
        ensures { option_copied result ≡ quota_of self.now.stored.quotas id }
    {
        self.tables.quotas.row(&Key::Quota(id))
    }

    /// How many inode rows stand below a parent. It takes no memory.
    pub fn child_count(&self, parent: InodeId) -> u64
        ensures { result ≡ child_count self.now.stored.inodes parent }
    {
        self.tables.inodes.child_count(parent)
    }

    /// The names of the inode rows below a parent, rising.
    pub fn children(&self, parent: InodeId) -> Result<Vec<Name>, NoMemory>
        ensures { IfOk result (λ names. IsChildren self.now.stored.inodes parent names.items) }
    {
        self.tables.inodes.children(parent)
    }

    /// What is told of each inode row below a parent, in the order of their names. It is empty exactly where there is
    /// none, as below a file.
    pub fn listing(&self, parent: InodeId) -> Result<Listing, NoMemory>
        ensures { IfOk result (λ listing. listing.items ≡ listed_under self.now.stored.inodes parent) }
    {
        listing_of(self.alloc, &self.tables.inodes, parent)
    }

    /// How a session holds a key. None exactly where it doesn't hold it. It takes no memory.
    pub fn holds(&self, s: SessionId, key: &Key) -> Option<Mode>
        ensures { result ≡ mode_of self.now.locks s key.now }
    {
        self.locks.holds(s, key)
    }

    /// The next free inode id.
    pub fn next(&self) -> InodeId
        ensures { result.0 ≡ self.now.stored.next }
    {
        InodeId(self.next)
    }

    /// What the run is set up with.
    pub fn settings(&self) -> &Settings
        ensures { result.now ≡ self.now.stored.settings }
    {
        &self.settings
    }

    /// The key of the root's row, which is always there and never changes.
    pub fn root_key(&self) -> &Key
        ensures { result.now ≡ root_key }
    {
        &self.top
    }

    /// The book.
    pub fn book(&self) -> &Book
        ensures { result.now.notes ≡ self.now.stored.notes }
    {
        &self.book
    }

    /// The book alone. It takes no memory.
    pub fn into_book(self) -> Book
        ensures { result.notes ≡ self.stored.notes }
    {
        self.book
    }

    /// Takes the next key of a session's plan, and notes it. Busy where another session keeps it away, the least that
    /// does. NoMemory says nothing of who holds the key. After Busy and NoMemory all is as before.
    pub fn take(&mut self, s: SessionId) -> Ask
        requires { IsSome (asked_key self.old s) }
        ensures { Takes self.old s result self.new }
    {
        let Some(doing) = self.sessions.get(s) else {
            unreachable!()
        };
        let held = doing.stage.holds_any();
        let Some((key, mode)) = doing.stage.next_key() else {
            unreachable!()
        };
        let Ok(key) = key.copy() else {
            return Ask::NoMemory;
        };
        let Ok(()) = make_room(&mut self.book, self.holding, 2) else {
            return Ask::NoMemory;
        };
        match self.locks.ask(s, &key, mode) {
            Ask::Held => {}
            other => return other,
        }
        self.book.push(Note::Took(s, key, mode));
        self.sessions.count(s);
        self.holding += one_if(!held);
        Ask::Held
    }

    /// Notes that another session, the least that does, keeps this one from its next key. Want of memory changes
    /// nothing.
    pub fn meet(&mut self, s: SessionId, other: SessionId) -> Result<(), NoMemory>
        requires { IsKeptAway self.old s other }
        ensures ok { OnOk result ((k : Key × Mode) → asked_key self.old s ≡ Some k → self.new ≡ met_by self.old s k other) }
        ensures err { OnErr result (self.new ≡ self.old) }
    {
        let Some(doing) = self.sessions.get(s) else {
            unreachable!()
        };
        let Some((key, mode)) = doing.stage.next_key() else {
            unreachable!()
        };
        let key = key.copy()?;
        make_room(&mut self.book, self.holding, 1)?;
        self.book
            .push(Note::Met(s, Cause::Locked(key, mode, other)));
        Ok(())
    }

    /// Goes on with a running session without a note. `go` is told how far it is, and says how far it then is: as far as
    /// it was, or further. Beside what `go` takes it takes no memory.
    pub fn go_on<R, F: FnOnce(Position) -> (Position, R)>(&mut self, s: SessionId, go: F) -> R
        requires running { IsOpen self.old s }
        requires may { (doing : Session) → IsRunning self.old s doing → F.pre go (position_of doing) }
        requires goes { (doing : Session) (new : Position) (answer : R) → IsRunning self.old s doing → F.post go (position_of doing) (new, answer)
            → (with_position doing new ≡ doing) ⊎ CanMove self.old s doing (with_position doing new) }
        ensures { (doing : Session) → IsRunning self.old s doing
            → (new : Position) × F.post go (position_of doing) (new, result) × (self.new ≡ moved_by self.old s (with_position doing new)) }
    {
        self.sessions.change(self.alloc, s, go)
    }

    /// Gives back all that a session holds, with a note where that is anything, and begins a new attempt: where what it
    /// reads next isn't as it was found, and its attempt has used hints. It takes no memory.
    pub fn give(&mut self, s: SessionId)
        requires { IsBehind self.old s true }
        ensures { (doing : Session) → IsRunning self.old s doing → Gives self.old self.new s doing start }
    {
        let stage = start_of_attempt(self.alloc);
        self.give_back(s, stage);
    }

    /// Gives back all that a running session holds, with a note where that is anything, and ends it. It takes no
    /// memory.
    pub fn end(&mut self, s: SessionId)
        requires { IsOpen self.old s }
        ensures { (doing : Session) → IsRunning self.old s doing → Gives self.old self.new s doing Answered }
    {
        self.give_back(s, Stage::Answered);
    }

    /// Gives back all that a session holds, notes that what it had found was changed since its attempt began to read,
    /// and begins a new attempt: where what it reads next isn't as it was found, and its attempt has used no hints. Want
    /// of memory changes nothing.
    pub fn change(&mut self, s: SessionId) -> Result<(), NoMemory>
        requires { IsBehind self.old s false }
        ensures ok { OnOk result ((doing : Session) → IsRunning self.old s doing → Changes self.old self.new s doing) }
        ensures err { OnErr result (self.new ≡ self.old) }
    {
        let Some(doing) = self.sessions.get(s) else {
            unreachable!()
        };
        let since = doing.since;
        let held = doing.stage.holds_any();
        make_room(&mut self.book, self.holding, 1)?;
        give_up(&mut self.book, &mut self.locks, s, held);
        self.book.push(Note::Met(s, Cause::Changed(since)));
        self.holding -= one_if(held);
        self.sessions
            .begin_at(s, self.book.len(), start_of_attempt(self.alloc));
        Ok(())
    }

    // Gives back all that a running session holds, and brings it to a stage at which it holds nothing.
    fn give_back(&mut self, s: SessionId, stage: Stage)
        requires open { IsOpen self.old s }
        requires bare { (stage ≡ start) ⊎ (stage ≡ Answered) }
        ensures { (doing : Session) → IsRunning self.old s doing → Gives self.old self.new s doing stage }
    {
        let Some(doing) = self.sessions.get(s) else {
            unreachable!()
        };
        let held = doing.stage.holds_any();
        give_up(&mut self.book, &mut self.locks, s, held);
        self.holding -= one_if(held);
        self.sessions.begin_at(s, self.book.len(), stage);
    }

    /// Opens a session for a client's next call at a namenode. Want of memory counts the call, and changes nothing else.
    pub fn open(
        &mut self,
        client: ClientNo,
        number: u32,
        call: &Call,
        node: NodeNo,
    ) -> Result<SessionId, NoMemory>
        requires { CanOpen self.old client number call.now node }
        ensures session { IfOk result (λ s. s ≡ next_session self.old) }
        ensures ok { OnOk result (self.new ≡ opened_by self.old client number call.now node) }
        ensures err { OnErr result (self.new ≡ begun_by self.old client number) }
    {
        let seat = seat_at(&self.seats, client);
        set_seat(
            &mut self.seats,
            client,
            Seat {
                begun: number,
                ..seat
            },
        );
        let call = call.copy()?;
        make_room(&mut self.book, self.holding, 1)?;
        let s = SessionId(self.opened + 1);
        let opened = self.book.len();
        self.sessions.put(
            s,
            new_session(self.alloc, client, number, call, node, opened),
        )?;
        remove_last(&mut self.sessions, seat.last);
        let seat = Seat {
            begun: number,
            last: Some(s),
            ..seat
        };
        set_seat(&mut self.seats, client, seat);
        self.book.push(Note::Open(s, client, number, node));
        self.opened += 1;
        Ok(s)
    }

    /// Answers a session's call with these rows written: it gives back what the session holds and ends it. All memory is
    /// taken before the first write: want of it changes nothing.
    pub fn answer(&mut self, s: SessionId, writes: Writes, reply: Reply) -> Result<(), NoMemory>
        requires { IsAnswer self.old s writes.items reply }
        ensures ok { OnOk result ((doing : Session) → map.get self.old.sessions s.0 ≡ Some doing
            → Completes self.old self.new s doing writes.items reply) }
        ensures err { OnErr result (self.new ≡ self.old) }
    {
        let Some(doing) = self.sessions.get(s) else {
            unreachable!()
        };
        let (client, number) = (doing.client, doing.number);
        let held = doing.stage.holds_any();
        let note = Note::Did(s, client, number, doing.call.copy()?, doing.reads, reply);
        make_room(&mut self.book, self.holding, 1)?;
        reserve_rows(&mut self.tables, writes.as_slice())?;
        self.next = next_id(self.next, writes.as_slice());
        write_rows(&mut self.tables, writes.into_vec());
        self.book.push(note);
        self.holding -= one_if(held);
        self.locks.give_all(s);
        let seat = seat_at(&self.seats, client);
        set_seat(
            &mut self.seats,
            client,
            Seat {
                answered: number,
                ..seat
            },
        );
        self.sessions.bring(s, Stage::Answered);
        Ok(())
    }
}

// A seat for each client, none of which has called yet.
fn empty_seats(alloc: Global, users: &[User]) -> Result<Vec<Seat>, NoMemory>
    ensures { IfOk result (λ seats. seats.items ≡ list_map (λ (user : List ℕ). empty_seat) users.now) }
{
    let mut seats = Vec::new(alloc);
    for _ in users {
        seats.push(Seat {
            begun: 0,
            answered: 0,
            last: None,
        })?;
    }
    Ok(seats)
}

// The seat of a client.
fn seat_at(seats: &[Seat], client: ClientNo) -> Seat
    requires { client.0 < length seats.now }
    ensures { slice_get seats.now client.0 ≡ Some result }
{
    seats[client.0 as usize]
}

// Sets the seat of a client.
fn set_seat(seats: &mut Vec<Seat>, client: ClientNo, seat: Seat)
    requires { client.0 < length seats.old.items }
    ensures { seats.new.items ≡ slice_set seats.old.items client.0 seat }
{
    seats[client.0 as usize] = seat;
}

// Takes away the last session that a client had.
fn remove_last(sessions: &mut SessionTable, last: Option<SessionId>)
    ensures { sessions.new ≡ without_last sessions.old last }
{
    if let Some(last) = last {
        sessions.remove(last);
    }
}

// Gives back what a session holds, with a note where that is anything.
fn give_up(book: &mut Book, table: &mut LockTable, s: SessionId, held: bool)
    requires { length book.old.notes + one_if held ≤ book.old.room }
    ensures book { book.new ≡ record book.old { notes = book.old.notes ++ gave_by s held } }
    ensures locks { IsGivenBack s table.old table.new }
{
    if held {
        book.push(Note::Gave(s));
    }
    table.give_all(s);
}

// 1 where it is so, else 0.
fn one_if(so: bool) -> u64
    ensures { result ≡ one_if so }
{
    u64::from(so)
}

// Makes room in the book for so many notes more, beside those that give back what is held.
fn make_room(book: &mut Book, holding: u64, more: u64) -> Result<(), NoMemory>
    ensures notes { book.new.notes ≡ book.old.notes }
    ensures room { book.old.room ≤ book.new.room }
    ensures ok { OnOk result (length book.old.notes + holding + more ≤ book.new.room) }
    ensures bounds { OnOk result ((holding + more < 2 ^ 64) × (length book.old.notes + more < 2 ^ 64)) }
{
    let wanted = holding.checked_add(more).ok_or(NoMemory)?;
    let _ = book.len().checked_add(more).ok_or(NoMemory)?;
    book.reserve(wanted)
}

// A session as the note of this number opens it.
fn new_session(
    alloc: Global,
    client: ClientNo,
    number: u32,
    call: Call,
    node: NodeNo,
    opened: u64,
) -> Session
    requires { opened + 1 < 2 ^ 64 }
    ensures { result ≡ new_session client number call node opened }
{
    Session {
        client,
        number,
        call,
        node,
        opened,
        since: opened + 1,
        reads: 0,
        is_first: true,
        used_hints: false,
        trail: ItemList::new(alloc),
        stage: start_of_attempt(alloc),
    }
}

// The stage at which an attempt begins.
fn start_of_attempt(alloc: Global) -> Stage
    ensures { result ≡ start }
{
    Stage::Resolve(ItemList::new(alloc), ItemList::new(alloc))
}

//! What a session's call is answered from.

ghost use Rattle.std.specs.Prelude.{◌≡◌, [], ◌∷◌, IfOk, option_copied, option_to_list};
ghost use Rattle.db_state.specs.Current.{children_told, IsLastsChild};
ghost use Rattle.db_state.specs.Plan.{own_dir};
ghost use Rattle.hops_core.specs.Views.{with_child, CanOutcome, IsAskedIn, IsCommitting, IsEnough, IsOutcomeAt, IsOutcomeOf};

use db_state::{Db, Outcome, Place, PlaceList, Position, Reads, Stage, View};
use hops_base::{ClientNo, InodeId, NoMemory, SessionId, User};
use inode_ops::outcome;
use inode_table::{Inode, Kind};
use name_space::{Call, Listing};
use std::alloc::Global;

/// A session's call, and what is looked up for it as it answers.
#[derive(Drop)]
pub(crate) struct Asked {
    pub client: ClientNo,
    pub user: User,
    pub call: Call,
    // whether the last row found has a child
    pub has_child: bool,
    pub children: Listing,
    pub next: InodeId,
}

/// What a session's call needs beside what the session has read.
pub(crate) fn asked_of(alloc: Global, db: &Db, s: SessionId) -> Result<Asked, NoMemory>
    requires { IsCommitting db.now s }
    ensures { IfOk result (IsAskedIn db.now s) }
{
    let Some(doing) = db.session(s) else {
        unreachable!()
    };
    let Stage::Commit(reads, _) = &doing.stage else {
        unreachable!()
    };
    let Some(place) = reads.places.get(0) else {
        unreachable!()
    };
    let Some(user) = db.settings().users().get(doing.client.0 as usize) else {
        unreachable!()
    };
    Ok(Asked {
        client: doing.client,
        user: user.copy()?,
        call: doing.call.copy()?,
        has_child: has_child(db, place),
        children: children_of(alloc, db, &doing.call, place)?,
        next: db.next(),
    })
}

// Whether the last row found has a child.
fn has_child(db: &Db, place: &Place) -> bool
    ensures { IsLastsChild db.now.stored.inodes place.now.found.items result }
{
    match place.found.as_slice().last() {
        Some((_, row)) => db.child_count(row.id) > 0,
        None => false,
    }
}

// The children that a `list` tells, where its path was found whole and is a directory.
fn children_of(alloc: Global, db: &Db, call: &Call, place: &Place) -> Result<Listing, NoMemory>
    ensures { IfOk result (λ children. children.items ≡ children_told db.now.stored.inodes call.now (place.now ∷ [])) }
{
    let Call::List(_) = call else {
        return Ok(Listing::new(alloc));
    };
    match own_dir(place) {
        Some(row) => db.listing(row.id),
        None => Ok(Listing::new(alloc)),
    }
}

// The path's own row, where it is a directory's.
fn own_dir(place: &Place) -> Option<&Inode>
    ensures { option_to_list (option_copied result) ≡ own_dir place.now }
{
    if place.found.len() <= place.path.len() {
        return None;
    }
    match place.found.as_slice().last() {
        Some((_, row)) if row.kind == Kind::Dir => Some(row),
        _ => None,
    }
}

/// What comes of the call, from what the session has read. How far the session is stays the same.
pub(crate) fn outcome_at(
    alloc: Global,
    position: Position,
    asked: Asked,
) -> (Position, Result<Outcome, NoMemory>)
    requires { CanOutcome position.stage asked }
    ensures same { result.0 ≡ position }
    ensures outcome { IfOk result.1 (IsOutcomeAt position.stage asked) }
{
    let Position {
        since,
        reads: steps,
        trail,
        stage,
    } = position;
    let Stage::Commit(reads, plan) = stage else {
        unreachable!()
    };
    let (reads, outcome) = outcome_from(alloc, reads, asked);
    let position = Position {
        since,
        reads: steps,
        trail,
        stage: Stage::Commit(reads, plan),
    };
    (position, outcome)
}

// What comes of the call, from these reads, which stay the same.
fn outcome_from(alloc: Global, reads: Reads, asked: Asked) -> (Reads, Result<Outcome, NoMemory>)
    requires { IsEnough reads asked }
    ensures same { result.0 ≡ reads }
    ensures outcome { IfOk result.1 (IsOutcomeOf reads asked) }
{
    let mut places = reads.places.into_vec();
    let said = tell_child(&mut places, asked.has_child);
    let view = View {
        places: PlaceList::from_vec(places),
        quotas: reads.quotas,
        children: asked.children,
        next: asked.next,
    };
    let outcome = outcome(alloc, &view, asked.client, &asked.user, &asked.call);
    let mut places = view.places.into_vec();
    tell_child(&mut places, said);
    let reads = Reads {
        places: PlaceList::from_vec(places),
        marks: reads.marks,
        quotas: view.quotas,
    };
    (reads, outcome)
}

// Says of the first place whether its last row has a child. Tells what it said before.
fn tell_child(places: &mut Vec<Place>, has_child: bool) -> bool
    ensures new { places.new.items ≡ with_child has_child places.old.items }
    ensures back { with_child result places.new.items ≡ places.old.items }
{
    match places.first_mut() {
        Some(place) => {
            let said = place.has_child;
            place.has_child = has_child;
            said
        }
        None => has_child,
    }
}

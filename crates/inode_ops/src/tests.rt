//! Outcomes worked out by hand. The next free id is 9 in each, the user is bob, and the client is 4.

ghost use Rattle.std.specs.Prelude.{◌≡◌, ◌<◌, ◌≤◌, length, IfOk, IfSome, Some};
ghost use Rattle.db_state.specs.Current.{SpellsPlace};
ghost use Rattle.db_state.specs.Plan.{deepest};
ghost use Rattle.inode_ops.specs.Outcomes.{CanRaise, path_of};

use crate::outcome;
use db_state::{Outcome, Place, PlaceList, QuotaList, View};
use hops_base::{ClientNo, InodeId, NoMemory, User};
use name_space::{Call, Listing};
use quota_table::QuotaRow;
use std::alloc::Global;
use text::line_of;

mod outcomes;
mod places;
mod text;

// The quota row of the directory 5, of which two names and 70 bytes are used, if it has one.
fn quotas(alloc: Global, max_names: Option<u64>) -> Result<QuotaList, NoMemory>
    ensures { IfOk result (λ quotas. CanRaise 2 quotas.items) }
{
    let mut quotas = QuotaList::new(alloc);
    if max_names.is_none() {
        return Ok(quotas);
    }
    let quota = QuotaRow {
        max_names,
        max_bytes: None,
        used_names: 2,
        used_bytes: 70,
    };
    quotas.reserve(1)?;
    quotas.push((InodeId(5), quota));
    Ok(quotas)
}

// What comes of a call of the place's path, in one line.
fn answer(
    alloc: Global,
    place: Place,
    max_names: Option<u64>,
    children: Listing,
    call: &Call,
) -> Result<String, NoMemory>
    requires spells { SpellsPlace place }
    requires long { length place.path ≤ 2 }
    requires below { IfSome (deepest place) (λ last. last.id.0 < 9) }
    requires path { path_of call.now ≡ Some place.path }
{
    let mut places = PlaceList::new(alloc);
    places.reserve(1)?;
    places.push(place);
    let view = View {
        places,
        quotas: quotas(alloc, max_names)?,
        children,
        next: InodeId(9),
    };
    let Ok(user) = User::read(alloc, "bob") else {
        return Err(NoMemory);
    };
    match outcome(alloc, &view, ClientNo(4), &user, call)? {
        Outcome::Answer(reply, writes) => line_of(alloc, &reply, writes.as_slice()),
        Outcome::Subtree(_) => Err(NoMemory),
    }
}

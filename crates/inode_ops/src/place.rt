//! What a place tells of its path.

ghost use Rattle.std.specs.Prelude.{◌≡◌, ◌≤◌, length, Some, slice_get};
ghost use Rattle.db_state.specs.Plan.{deepest, is_whole, last_found};

use db_state::{Place, View};
use hops_base::Key;
use inode_table::Inode;

/// The place of the one path of a call.
pub fn only_place(view: &View) -> &Place
    requires { 1 ≤ length view.now.places.items }
    ensures { slice_get view.now.places.items 0 ≡ Some result.now }
{
    match view.places.get(0) {
        Some(place) => place,
        None => unreachable!(),
    }
}

/// Whether the path was found whole.
pub fn is_whole(place: &Place) -> bool
    ensures { result ≡ is_whole place.now }
{
    place.path.len() < place.found.len()
}

/// The last row found, with its key.
pub fn last_found(place: &Place) -> &(Key, Inode)
    requires { 1 ≤ length place.now.found.items }
    ensures { last_found place.now ≡ Some result.now }
{
    match place.found.as_slice().last() {
        Some(found) => found,
        None => unreachable!(),
    }
}

/// The last row found.
pub fn deepest(place: &Place) -> &Inode
    requires { 1 ≤ length place.now.found.items }
    ensures { deepest place.now ≡ Some result.now }
{
    match place.found.as_slice().last() {
        Some(found) => &found.1,
        None => unreachable!(),
    }
}

//! `list`.

ghost use Rattle.std.specs.Prelude.{◌≡◌, ◌∷◌, [], IfOk};
ghost use Rattle.name_space.specs.declared.call.Call.TheVariants as call;
ghost use Rattle.db_state.specs.Current.{listed_row};
ghost use Rattle.inode_ops.specs.Outcomes.{IsViewOf, IsTableOf, IsOwnOf, IsKeptOf};

use crate::place::{deepest, is_whole, only_place};
use crate::told::{refused, told};
use db_state::{Outcome, View, status_of};
use hops_base::{Name, NoMemory, Path};
use inode_table::{Inode, Kind};
use name_space::{Exception, Listed, Listing, Reply, copy_listing};
use std::alloc::Global;

/// Tells the children of a directory in the order of their names, or a file alone, or that the path is
/// missing.
pub fn list(alloc: Global, view: &View, path: &Path) -> Result<Outcome, NoMemory>
    requires { IsViewOf view.now (call.List path.now) }
    ensures table { IfOk result (IsTableOf view.now (call.List path.now)) }
    ensures own { IfOk result (IsOwnOf view.now (call.List path.now)) }
    ensures keeps { IfOk result (IsKeptOf view.now (call.List path.now)) }
{
    let place = only_place(view);
    if !is_whole(place) {
        return refused(alloc, Exception::FileNotFound);
    }
    let last = deepest(place);
    match (last.kind, path.last()) {
        (Kind::File, Some(name)) => told(alloc, Reply::Entries(alone(alloc, name, last)?)),
        // The root, which alone has no name, is a directory.
        _ => told(alloc, Reply::Entries(copy_listing(&view.children)?)),
    }
}

// The listing of a file.
fn alone(alloc: Global, name: &Name, inode: &Inode) -> Result<Listing, NoMemory>
    ensures { IfOk result (λ listing. listing.items ≡ listed_row name.now inode.now ∷ []) }
{
    let mut listing = Listing::new(alloc);
    listing.reserve(1)?;
    listing.push(Listed {
        name: name.copy()?,
        status: status_of(inode)?,
    });
    Ok(listing)
}

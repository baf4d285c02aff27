//! What a resolution tells of the rows that it found.

ghost use Rattle.std.specs.Prelude.{◌≡◌, ◌++◌, [], ◌∷◌, IfOk, OnOk, option_to_list};
ghost use Rattle.std.specs.List.{filter_map};
ghost use Rattle.db_state.specs.Moves.{hint_of, hints_of};
ghost use Rattle.path_resolver.specs.Ways.{place_of};

use crate::way::Way;
use db_state::Trail;
use hops_base::{Hint, ItemList, Key, NoMemory};
use inode_table::Inode;
use std::alloc::Global;

/// The trail of what was found for a path: a hint for each row but the root's.
pub fn trail_of(alloc: Global, way: &Way) -> Result<Trail, NoMemory>
    ensures { IfOk result (λ trail. trail.items ≡ hints_of (place_of way.now ∷ [])) }
{
    let mut hints = Vec::new(alloc);
    let [_, below @ ..] = way.above else {
        return Ok(ItemList::from_vec(hints));
    };
    add_hints(&mut hints, below)?;
    add_hint(&mut hints, way.last)?;
    Ok(ItemList::from_vec(hints))
}

// Adds what the keys of rows tell of them.
fn add_hints(hints: &mut Vec<Hint>, rows: &[(Key, Inode)]) -> Result<(), NoMemory>
    ensures { OnOk result (hints.new.items ≡ hints.old.items ++ filter_map hint_of rows.now) }
{
    for row in rows {
        add_hint(hints, row)?;
    }
    Ok(())
}

// Adds what the key of a row tells of it.
fn add_hint(hints: &mut Vec<Hint>, row: &(Key, Inode)) -> Result<(), NoMemory>
    ensures { OnOk result (hints.new.items ≡ hints.old.items ++ option_to_list (hint_of row.now)) }
{
    if let Key::Inode(parent, name) = &row.0 {
        hints.push(Hint {
            parent: *parent,
            name: name.copy()?,
            id: row.1.id,
        })?;
    }
    Ok(())
}

//! The row of a new directory.

ghost use Rattle.std.specs.Prelude.{◌≡◌};
ghost use Rattle.db_state.specs.Stored.{dir_row};

use hops_base::{InodeId, User};
use inode_table::{Inode, Kind};
use name_space::DIR_MODE;

/// The row of a new directory of this id and owner. It takes no memory.
pub fn new_dir(id: InodeId, owner: User) -> Inode
    ensures { result ≡ dir_row id.0 owner }
{
    Inode {
        id,
        kind: Kind::Dir,
        len: 0,
        writer: None,
        mode: DIR_MODE,
        owner,
        has_quota: false,
        flag: None,
    }
}

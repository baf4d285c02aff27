//! What a namenode believes of a path.

use crate::ids::InodeId;
use crate::name::Name;

/// A belief that the row under `parent` with this `name` has the inode `id`. It may be wrong.
#[derive(Debug, Drop)]
pub struct Hint {
    pub parent: InodeId,
    pub name: Name,
    pub id: InodeId,
}

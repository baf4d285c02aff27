//! What a session has read.

use hops_base::{InodeId, ItemList, Key, Path};
use inode_table::Inode;
use name_space::Listing;
use quota_table::QuotaRow;

/// What was read for one path of a call.
#[derive(Debug, Drop)]
pub struct Place {
    pub path: Path,
    /// The rows from the root's on, each under the one before, up to the end of the path, its first
    /// missing name or a file.
    pub found: FoundList,
    /// The key of the first missing name. None where the path was found whole, or a file stands in its way.
    pub missing: Option<Key>,
    /// Whether the last row found has a child.
    pub has_child: bool,
}

/// Rows with their keys.
pub type FoundList = ItemList<(Key, Inode)>;

/// One place for each path of a call.
pub type PlaceList = ItemList<Place>;

/// Quota rows with the ids of their directories.
pub type QuotaList = ItemList<(InodeId, QuotaRow)>;

/// What a session has read for its call, from which alone the call is answered.
#[derive(Debug, Drop)]
pub struct View {
    pub places: PlaceList,
    /// The quota rows at the quota keys that the call locks, each once.
    pub quotas: QuotaList,
    /// What is told of the rows under the directory that a `list` names, by their names. Empty for every other
    /// call.
    pub children: Listing,
    /// The next free inode id.
    pub next: InodeId,
}

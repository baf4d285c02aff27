//! What a namespace holds, and what is told of it.

ghost use Rattle.std.specs.Prelude.{◌≡◌, IfOk};
ghost use Rattle.name_space.specs.Namespace.{bytes_of};

use hops_base::{ClientNo, ItemList, Name, NoMemory, User};

/// The mode of a new directory.
pub const DIR_MODE: u16 = 493;

/// The mode of a new file.
pub const FILE_MODE: u16 = 420;

/// What stands at a path.
#[derive(Debug, Drop)]
pub enum Entry {
    /// A directory. Its quotas, on names and on bytes, may be absent.
    Dir {
        mode: u16,
        owner: User,
        max_names: Option<u64>,
        max_bytes: Option<u64>,
    },
    /// A file of `len` bytes. It has a writer while a client writes it.
    File {
        len: u64,
        writer: Option<ClientNo>,
        mode: u16,
        owner: User,
    },
}

/// What `stat` tells.
#[derive(Debug, Drop)]
pub enum FileStatus {
    Dir { mode: u16, owner: User },
    File { len: u64, mode: u16, owner: User },
}

/// One line of a listing.
#[derive(Debug, Drop)]
pub struct Listed {
    pub name: Name,
    pub status: FileStatus,
}

/// What `list` tells: the children of a directory in the byte order of their names, or a file alone.
pub type Listing = ItemList<Listed>;

impl Entry {
    /// The same entry again.
    pub fn copy(&self) -> Result<Entry, NoMemory>
        ensures { IfOk result (λ entry. entry ≡ self.now) }
    {
        Ok(match self {
            Entry::Dir {
                mode,
                owner,
                max_names,
                max_bytes,
            } => Entry::Dir {
                mode: *mode,
                owner: owner.copy()?,
                max_names: *max_names,
                max_bytes: *max_bytes,
            },
            Entry::File {
                len,
                writer,
                mode,
                owner,
            } => Entry::File {
                len: *len,
                writer: *writer,
                mode: *mode,
                owner: owner.copy()?,
            },
        })
    }
}

impl Entry {
    /// The bytes that it counts towards what is used: a file its length, a directory none.
    pub fn bytes(&self) -> u64
        ensures { result ≡ bytes_of self.now }
    {
        match self {
            Entry::Dir { .. } => 0,
            Entry::File { len, .. } => *len,
        }
    }
}

impl FileStatus {
    /// The same status again.
    pub fn copy(&self) -> Result<FileStatus, NoMemory>
        ensures { IfOk result (λ status. status ≡ self.now) }
    {
        Ok(match self {
            FileStatus::Dir { mode, owner } => FileStatus::Dir {
                mode: *mode,
                owner: owner.copy()?,
            },
            FileStatus::File { len, mode, owner } => FileStatus::File {
                len: *len,
                mode: *mode,
                owner: owner.copy()?,
            },
        })
    }
}

impl Listed {
    /// The same child again.
    pub fn copy(&self) -> Result<Listed, NoMemory>
        ensures { IfOk result (λ listed. listed ≡ self.now) }
    {
        Ok(Listed {
            name: self.name.copy()?,
            status: self.status.copy()?,
        })
    }
}

/// The same children again, with as much room.
pub fn copy_listing(listing: &Listing) -> Result<Listing, NoMemory>
    ensures { IfOk result (λ copy. copy ≡ listing.now) }
{
    let mut copy = listing.empty_like()?;
    for listed in listing.as_slice() {
        copy.push(listed.copy()?);
    }
    Ok(copy)
}

//! An inode.

ghost use Rattle.std.specs.Prelude.{◌≡◌, IfOk};
ghost use Rattle.inode_table.specs.Inode.{counted_bytes};

use hops_base::{ClientNo, InodeId, NoMemory, OpId, User};
use row_store::Table;

/// What an inode is.
#[derive(Clone, Copy, Debug, PartialEq, Eq)]
pub enum Kind {
    /// A directory.
    Dir,
    /// A file.
    File,
}

/// The row of an inode. Its parent and its name stand in its key. This project's own.
#[derive(Debug, Drop, PartialEq, Eq)]
pub struct Inode {
    /// Its number.
    pub id: InodeId,
    /// Whether it is a directory or a file.
    pub kind: Kind,
    /// How many bytes a file has.
    pub len: u64,
    /// The client that writes the file, if one does.
    pub writer: Option<ClientNo>,
    /// Its permission bits.
    pub mode: u16,
    /// Who owns it.
    pub owner: User,
    /// Whether the directory has a quota row.
    pub has_quota: bool,
    /// The running subtree operation that it is flagged for, if one is.
    pub flag: Option<OpId>,
}

impl Inode {
    /// The same inode again.
    pub fn copy(&self) -> Result<Inode, NoMemory>
        ensures { IfOk result (λ inode. inode ≡ self.now) }
    {
        Ok(Inode {
            id: self.id,
            kind: self.kind,
            len: self.len,
            writer: self.writer,
            mode: self.mode,
            owner: self.owner.copy()?,
            has_quota: self.has_quota,
            flag: self.flag,
        })
    }

    /// The bytes that it counts towards what is used: a file its length, a directory none.
    pub fn bytes(&self) -> u64
        ensures { result ≡ counted_bytes self.now.kind self.now }
    {
        match self.kind {
            Kind::Dir => 0,
            Kind::File => self.len,
        }
    }
}

/// The inodes by key, and the keys that are ready for one.
pub type InodeTable = Table<Inode>;

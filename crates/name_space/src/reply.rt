//! What is answered to calls.

ghost use Rattle.std.specs.Prelude.{◌≡◌, IfOk};

use crate::entry::{FileStatus, Listing, copy_listing};
use hops_base::{ClientNo, NoMemory, Path};

/// What a call is answered.
#[derive(Debug, Drop)]
pub enum Reply {
    /// A truth value.
    Truth(bool),
    /// What `stat` tells.
    Status(FileStatus),
    /// What `list` tells.
    Entries(Listing),
    /// What `usage` tells: names and bytes in use, and the two quotas.
    Used {
        names: u64,
        bytes: u64,
        max_names: Option<u64>,
        max_bytes: Option<u64>,
    },
    /// The call was refused and changed nothing.
    Refused(Exception),
}

/// Why a call was refused, named after the exceptions of the Hadoop file system.
#[derive(Debug, Drop)]
pub enum Exception {
    FileNotFound,
    FileAlreadyExists,
    ParentNotDirectory,
    PathIsNotEmptyDirectory,
    /// The file has this writer.
    AlreadyBeingCreated(ClientNo),
    /// The client isn't the file's writer.
    LeaseExpired,
    /// The quota on names of the directory at this path would be passed.
    NSQuotaExceeded { at: Path, used: u64, limit: u64 },
    /// The quota on bytes of the directory at this path would be passed.
    DSQuotaExceeded { at: Path, used: u64, limit: u64 },
    /// Another cause.
    IO(Why),
}

/// The causes that have no exception of their own. This project's own.
#[derive(Clone, Copy, Debug, PartialEq, Eq)]
pub enum Why {
    /// A path can't move below itself, nor can `/` move.
    Descendant,
    /// There is no directory to move into.
    BadParent,
    /// `/` keeps its mode and its quotas.
    RootFixed,
    /// The path is no directory.
    NotDirectory,
    /// The directory has no quota.
    NoQuota,
}

impl Reply {
    /// The same reply again.
    pub fn copy(&self) -> Result<Reply, NoMemory>
        ensures { IfOk result (λ reply. reply ≡ self.now) }
    {
        Ok(match self {
            Reply::Truth(truth) => Reply::Truth(*truth),
            Reply::Status(status) => Reply::Status(status.copy()?),
            Reply::Entries(listing) => Reply::Entries(copy_listing(listing)?),
            Reply::Used {
                names,
                bytes,
                max_names,
                max_bytes,
            } => Reply::Used {
                names: *names,
                bytes: *bytes,
                max_names: *max_names,
                max_bytes: *max_bytes,
            },
            Reply::Refused(exception) => Reply::Refused(exception.copy()?),
        })
    }
}

impl Exception {
    /// The same exception again.
    pub fn copy(&self) -> Result<Exception, NoMemory>
        ensures { IfOk result (λ exception. exception ≡ self.now) }
    {
        Ok(match self {
            Exception::FileNotFound => Exception::FileNotFound,
            Exception::FileAlreadyExists => Exception::FileAlreadyExists,
            Exception::ParentNotDirectory => Exception::ParentNotDirectory,
            Exception::PathIsNotEmptyDirectory => Exception::PathIsNotEmptyDirectory,
            Exception::AlreadyBeingCreated(writer) => Exception::AlreadyBeingCreated(*writer),
            Exception::LeaseExpired => Exception::LeaseExpired,
            Exception::NSQuotaExceeded { at, used, limit } => Exception::NSQuotaExceeded {
                at: at.copy()?,
                used: *used,
                limit: *limit,
            },
            Exception::DSQuotaExceeded { at, used, limit } => Exception::DSQuotaExceeded {
                at: at.copy()?,
                used: *used,
                limit: *limit,
            },
            Exception::IO(why) => Exception::IO(*why),
        })
    }
}

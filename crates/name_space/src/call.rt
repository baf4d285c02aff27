//! What clients ask for.

ghost use Rattle.std.specs.Prelude.{◌≡◌, IfOk, codes};
ghost use Rattle.name_space.specs.Call.{a_path, form_of, is_in_range, is_valid, is_quota, changes};

use hops_base::{NoMemory, Path};

/// The most bytes that one call adds to a file.
pub const MOST_GROWN: u64 = 4_294_967_296;

/// The greatest mode.
pub const MOST_MODE: u16 = 511;

/// The greatest quota, on names or on bytes.
pub const MOST_QUOTA: u64 = 1_000_000_000_000_000;

/// A call of a client, named after those of the Hadoop file system; `Grow`, `Close` and `Usage` are this
/// project's own in this form.
#[derive(Debug, Drop)]
pub enum Call {
    /// Makes a directory and those above it that are missing.
    Mkdirs(Path),
    /// Makes a file, whose writer is the client. The truth value allows it to stand in an old file's place.
    Create(Path, bool),
    /// Makes the client the writer of a file that has none.
    Append(Path),
    /// Adds so many bytes to a file of which the client is the writer.
    Grow(Path, u64),
    /// Ends the client's writing of a file.
    Close(Path),
    /// Asks for the status of a file or directory.
    Stat(Path),
    /// Asks for the children of a directory, or for a file alone.
    List(Path),
    /// Removes a file or a directory. The truth value allows children to go with it.
    Delete(Path, bool),
    /// Moves the first path to the second, or into it where that is a directory.
    Rename(Path, Path),
    /// Sets a mode.
    Chmod(Path, u16),
    /// Sets the quotas of a directory, on names and on bytes; an absent one is no quota.
    SetQuota(Path, Option<u64>, Option<u64>),
    /// Asks what a directory with a quota uses.
    Usage(Path),
}

/// What kind of subtree operation a call needs.
#[derive(Clone, Copy, Debug, PartialEq, Eq)]
pub enum OpKind {
    Delete,
    Rename,
    Quota,
}

impl Call {
    /// Its word in scripts and reports.
    pub fn word(&self) -> &'static str
        ensures { result.now ≡ codes (form_of self.now).word }
    {
        match self {
            Call::Mkdirs(_) => "mkdirs",
            Call::Create(..) => "create",
            Call::Append(_) => "append",
            Call::Grow(..) => "grow",
            Call::Close(_) => "close",
            Call::Stat(_) => "stat",
            Call::List(_) => "list",
            Call::Delete(..) => "delete",
            Call::Rename(..) => "rename",
            Call::Chmod(..) => "chmod",
            Call::SetQuota(..) => "set_quota",
            Call::Usage(_) => "usage",
        }
    }

    /// Whether its numbers and paths are in their ranges: paths of at most 8,000 bytes and 1,000 names, 1
    /// to 4,294,967,296 bytes of one `Grow`, modes to 511, quotas of 1 to 1,000,000,000,000,000.
    pub fn is_valid(&self) -> bool
        ensures { result ≡ is_valid self.now }
    {
        match self {
            Call::Mkdirs(path)
            | Call::Create(path, _)
            | Call::Append(path)
            | Call::Close(path)
            | Call::Stat(path)
            | Call::List(path)
            | Call::Delete(path, _)
            | Call::Usage(path) => is_nameable(path),
            Call::Grow(path, bytes) => is_nameable(path) && 1 <= *bytes && *bytes <= MOST_GROWN,
            Call::Rename(source, target) => is_nameable(source) && is_nameable(target),
            Call::Chmod(path, mode) => is_nameable(path) && *mode <= MOST_MODE,
            Call::SetQuota(path, names, bytes) => {
                is_nameable(path) && is_quota(*names) && is_quota(*bytes)
            }
        }
    }

    /// Whether it may change the namespace: false exactly for `Stat`, `List` and `Usage`.
    pub fn changes(&self) -> bool
        ensures { result ≡ changes self.now }
    {
        !matches!(self, Call::Stat(_) | Call::List(_) | Call::Usage(_))
    }

    /// The same call again.
    pub fn copy(&self) -> Result<Call, NoMemory>
        ensures { IfOk result (λ call. call ≡ self.now) }
    {
        Ok(match self {
            Call::Mkdirs(path) => Call::Mkdirs(path.copy()?),
            Call::Create(path, overwrite) => Call::Create(path.copy()?, *overwrite),
            Call::Append(path) => Call::Append(path.copy()?),
            Call::Grow(path, bytes) => Call::Grow(path.copy()?, *bytes),
            Call::Close(path) => Call::Close(path.copy()?),
            Call::Stat(path) => Call::Stat(path.copy()?),
            Call::List(path) => Call::List(path.copy()?),
            Call::Delete(path, recursive) => Call::Delete(path.copy()?, *recursive),
            Call::Rename(source, target) => Call::Rename(source.copy()?, target.copy()?),
            Call::Chmod(path, mode) => Call::Chmod(path.copy()?, *mode),
            Call::SetQuota(path, names, bytes) => Call::SetQuota(path.copy()?, *names, *bytes),
            Call::Usage(path) => Call::Usage(path.copy()?),
        })
    }
}

// Whether a call may name the path, which consists of names by its type.
fn is_nameable(path: &Path) -> bool
    ensures { result ≡ is_in_range (a_path path.now) }
{
    path.is_short()
}

fn is_quota(quota: Option<u64>) -> bool
    ensures { result ≡ is_quota quota }
{
    match quota {
        None => true,
        Some(limit) => 1 <= limit && limit <= MOST_QUOTA,
    }
}

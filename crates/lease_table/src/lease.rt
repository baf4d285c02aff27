//! The lease of a writer on its file.

/// The row of a lease. The client that writes and the file's id stand in its key. After the leases of
/// HDFS; what the row holds is this project's own.
#[derive(Clone, Copy, Debug, PartialEq, Eq)]
pub struct LeaseRow {
    /// When the lease was last renewed. It is 0 as long as leases don't expire.
    pub renewed: u64,
}

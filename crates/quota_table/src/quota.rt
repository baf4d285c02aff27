//! The quotas of one directory.

ghost use Rattle.std.specs.Prelude.{◌≡◌, ◌+◌, ◌-◌, ◌<◌, ◌≤◌, ◌^◌};
ghost use Rattle.name_space.specs.Quota.{exceeds};
ghost use Rattle.quota_table.specs.Quota.{IsFit};

use row_store::Table;

/// The row of a directory's quotas: the limits, which may be absent, and what is used of them. The directory
/// counts itself among the names. After the HDFS quotas guide.
#[derive(Clone, Copy, Debug, PartialEq, Eq)]
pub struct QuotaRow {
    /// How many names may be at and below the directory.
    pub max_names: Option<u64>,
    /// How many bytes the files below it may have.
    pub max_bytes: Option<u64>,
    /// How many names are there.
    pub used_names: u64,
    /// How many bytes they have.
    pub used_bytes: u64,
}

/// Whether something fits under a directory's quotas. This project's own.
#[derive(Clone, Copy, Debug, PartialEq, Eq)]
pub enum Fit {
    /// Neither quota would be passed.
    Fits,
    /// The quota on names would be passed: what is used, and the limit.
    Names(u64, u64),
    /// The quota on bytes would be passed, and that on names would not: what is used, and the limit.
    Bytes(u64, u64),
}

impl QuotaRow {
    /// Whether so many names and bytes more would fit. A quota is passed only by what adds to it, and names
    /// are tested first.
    pub fn fits(&self, names: u64, bytes: u64) -> Fit
        ensures { IsFit self.now names bytes result }
    {
        if let Some(limit) = self.max_names
            && is_over(self.used_names, names, limit)
        {
            return Fit::Names(self.used_names, limit);
        }
        if let Some(limit) = self.max_bytes
            && is_over(self.used_bytes, bytes, limit)
        {
            return Fit::Bytes(self.used_bytes, limit);
        }
        Fit::Fits
    }

    /// Counts so many names and bytes more.
    pub fn add(&mut self, names: u64, bytes: u64)
        requires names { self.old.used_names + names < 2 ^ 64 }
        requires bytes { self.old.used_bytes + bytes < 2 ^ 64 }
        ensures { self.new ≡ record self.old { used_names = self.old.used_names + names; used_bytes = self.old.used_bytes + bytes } }
    {
        self.used_names += names;
        self.used_bytes += bytes;
    }

    /// Counts so many names and bytes less.
    pub fn sub(&mut self, names: u64, bytes: u64)
        requires names { names ≤ self.old.used_names }
        requires bytes { bytes ≤ self.old.used_bytes }
        ensures { self.new ≡ record self.old { used_names = self.old.used_names - names; used_bytes = self.old.used_bytes - bytes } }
    {
        self.used_names -= names;
        self.used_bytes -= bytes;
    }
}

/// The quota rows by key, and the keys that are ready for one.
pub type QuotaTable = Table<QuotaRow>;

// So much more passes the limit.
fn is_over(used: u64, more: u64, limit: u64) -> bool
    ensures { result ≡ exceeds used more limit }
{
    more > 0 && (used > limit || more > limit - used)
}

//! The quotas of the directories found for a path.

ghost use Rattle.std.specs.Prelude.{◌≡◌, ◌<◌, ◌≤◌, ◌++◌, length, take, slice_get, Some, IfOk, OnOk};
ghost use Rattle.hops_base.specs.declared.key.Key.{Key};
ghost use Rattle.hops_base.specs.declared.key.Key.TheVariants as key;
ghost use Rattle.inode_table.specs.declared.inode.Inode.{Inode};
ghost use Rattle.name_space.specs.Namespace.{Path};
ghost use Rattle.db_state.specs.QuotaWrites.{quota_writes};
ghost use Rattle.inode_ops.specs.QuotaSteps.{quota_in, full_at, first_full, refusal, counted, is_key_written, quota_left, CanCountIn, CanCount, GoesOnCounted};

use db_state::{Place, Row, Writes};
use hops_base::{InodeId, Key, Name, NoMemory, Path};
use inode_table::Inode;
use name_space::Exception;
use quota_table::{Fit, QuotaRow};
use std::alloc::Global;

// The quota row of a directory, among those that were read.
fn quota_in(quotas: &[(InodeId, QuotaRow)], id: InodeId) -> Option<QuotaRow>
    ensures { result ≡ quota_in quotas.now id }
{
    let found = quotas.iter().find(|quota| quota.0 == id)?;
    Some(found.1)
}

/// Why the first directory found, from the root on, has no room for so many names more. None where all
/// have.
pub fn first_full(
    alloc: Global,
    place: &Place,
    quotas: &[(InodeId, QuotaRow)],
    names: u64,
) -> Result<Option<Exception>, NoMemory>
    requires { length place.now.found.items ≤ length place.now.path }
    ensures { IfOk result (λ refusal. refusal ≡ first_full place.now.path place.now.found.items quotas.now names) }
{
    for i in 0..place.found.len() {
        if let Some(exception) = refusal_at(alloc, place, i, quotas, names)? {
            return Ok(Some(exception));
        }
    }
    Ok(None)
}

// Why the directory found at this depth has no room.
fn refusal_at(
    alloc: Global,
    place: &Place,
    depth: u64,
    quotas: &[(InodeId, QuotaRow)],
    names: u64,
) -> Result<Option<Exception>, NoMemory>
    requires found { depth < length place.now.found.items }
    requires above { depth ≤ length place.now.path }
    ensures { IfOk result (λ told. (found : Key × Inode) → slice_get place.now.found.items depth ≡ Some found →
        told ≡ full_at (take depth place.now.path) names (quota_in quotas.now found.1.id)) }
{
    let Some((_, row)) = place.found.get(depth) else {
        unreachable!()
    };
    let fit = fit_of(quotas, row.id, names);
    refusal(alloc, &place.path.names()[..depth as usize], fit)
}

// Whether so many names more fit under the quotas of a directory.
fn fit_of(quotas: &[(InodeId, QuotaRow)], id: InodeId, names: u64) -> Fit
    ensures { (at : Path) → refusal at result ≡ full_at at names (quota_in quotas.now id) }
{
    match quota_in(quotas, id) {
        Some(quota) => quota.fits(names, 0),
        None => Fit::Fits,
    }
}

// The refusal where something doesn't fit below the path of these names.
fn refusal(alloc: Global, names: &[Name], fit: Fit) -> Result<Option<Exception>, NoMemory>
    ensures { IfOk result (λ told. told ≡ refusal names.now fit) }
{
    Ok(match fit {
        Fit::Fits => None,
        Fit::Names(used, limit) => Some(Exception::NSQuotaExceeded {
            at: path_of(alloc, names)?,
            used,
            limit,
        }),
        Fit::Bytes(used, limit) => Some(Exception::DSQuotaExceeded {
            at: path_of(alloc, names)?,
            used,
            limit,
        }),
    })
}

fn path_of(alloc: Global, names: &[Name]) -> Result<Path, NoMemory>
    ensures { IfOk result (λ path. path ≡ names.now) }
{
    let mut path = Path::root(alloc);
    for name in names {
        path = path.with(name)?;
    }
    Ok(path)
}

/// What comes or goes below a directory: so many names, and so many bytes.
#[derive(Clone, Copy)]
pub enum Change {
    /// So much more is in use.
    More(u64, u64),
    /// So much less.
    Less(u64, u64),
}

impl Change {
    // The quota row with the change counted.
    fn counted(self, quota: QuotaRow) -> QuotaRow
        requires { CanCountIn self quota }
        ensures { result ≡ counted self quota }
    {
        let mut quota = quota;
        match self {
            Change::More(names, bytes) => quota.add(names, bytes),
            Change::Less(names, bytes) => {
                quota.used_names = quota.used_names.saturating_sub(names);
                quota.used_bytes = quota.used_bytes.saturating_sub(bytes);
            }
        }
        quota
    }
}

/// Adds to the writes the quota row of each directory found that has one, unless it is written already, with
/// the change counted.
pub fn recount(
    writes: &mut Writes,
    found: &[(Key, Inode)],
    quotas: &[(InodeId, QuotaRow)],
    change: Change,
) -> Result<(), NoMemory>
    requires { CanCount change quotas.now }
    ensures { OnOk result (GoesOnCounted writes.old.items found.now quotas.now (counted change) writes.new.items) }
{
    writes.reserve(found.len() as u64)?;
    for (_, row) in found {
        recount_row(writes, quotas, row.id, change);
    }
    Ok(())
}

// Adds the quota row of this directory with the change counted, unless it has none or was written.
fn recount_row(writes: &mut Writes, quotas: &[(InodeId, QuotaRow)], id: InodeId, change: Change)
    requires room { length writes.old.items < writes.old.room }
    requires count { CanCount change quotas.now }
    ensures { writes.new ≡ record writes.old {
      items = writes.old.items ++
          quota_writes (counted change) (quota_left id (quota_in quotas.now id) (is_key_written writes.old.items (key.Quota id)));
    } }
{
    let Some(quota) = quota_in(quotas, id) else {
        return;
    };
    let key = Key::Quota(id);
    if !is_written(writes.as_slice(), &key) {
        writes.push((key, Some(Row::Quota(change.counted(quota)))));
    }
}

// Whether one of the writes is of this key.
fn is_written(writes: &[(Key, Option<Row>)], key: &Key) -> bool
    ensures { result ≡ is_key_written writes.now key.now }
{
    writes.iter().any(|write| *key == write.0)
}

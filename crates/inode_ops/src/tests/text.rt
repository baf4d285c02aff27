//! A reply and the rows to write, in one line.

use db_state::Row;
use hops_base::{Key, NoMemory};
use inode_table::{Inode, Kind};
use name_space::{Exception, FileStatus, Listing, Reply};
use std::alloc::Global;

/// The reply, and after it each key with its new row.
pub fn line_of(
    alloc: Global,
    reply: &Reply,
    writes: &[(Key, Option<Row>)],
) -> Result<String, NoMemory> {
    let mut line = reply_text(alloc, reply)?;
    for (key, row) in writes {
        line.push_str("; ")?;
        line.push_str(&key_text(alloc, key)?)?;
        line.push_str(&row_text(alloc, row)?)?;
    }
    Ok(line)
}

fn reply_text(alloc: Global, reply: &Reply) -> Result<String, NoMemory> {
    match reply {
        Reply::Truth(truth) => Ok(format!(in alloc; "{truth}")?),
        Reply::Status(status) => status_text(alloc, status),
        Reply::Entries(entries) => entries_text(alloc, entries),
        Reply::Refused(cause) => refusal_text(alloc, cause),
        Reply::Used { .. } => Err(NoMemory),
    }
}

fn refusal_text(alloc: Global, cause: &Exception) -> Result<String, NoMemory> {
    match cause {
        Exception::NSQuotaExceeded { at, used, limit } => {
            let at = at.text()?;
            Ok(format!(in alloc; "NSQuotaExceeded at {at}: {used} of {limit}")?)
        }
        cause => Ok(format!(in alloc; "{cause:?}")?),
    }
}

fn entries_text(alloc: Global, entries: &Listing) -> Result<String, NoMemory> {
    let mut text = String::new(alloc);
    for entry in entries.as_slice() {
        text.push_str(entry.name.text())?;
        text.push_str(": ")?;
        text.push_str(&status_text(alloc, &entry.status)?)?;
    }
    Ok(text)
}

fn status_text(alloc: Global, status: &FileStatus) -> Result<String, NoMemory> {
    match status {
        FileStatus::Dir { mode, owner } => dir_text(alloc, *mode, owner.text()),
        FileStatus::File { len, mode, owner } => file_text(alloc, *len, *mode, owner.text()),
    }
}

fn key_text(alloc: Global, key: &Key) -> Result<String, NoMemory> {
    match key {
        Key::Inode(parent, name) => {
            let (parent, name) = (parent.0, name.text());
            Ok(format!(in alloc; "{parent}/{name} ")?)
        }
        Key::Quota(id) => {
            let id = id.0;
            Ok(format!(in alloc; "quota {id} ")?)
        }
        _ => Err(NoMemory),
    }
}

fn row_text(alloc: Global, row: &Option<Row>) -> Result<String, NoMemory> {
    match row {
        None => Ok(String::from_str(alloc, "removed")?),
        Some(Row::Inode(row)) => inode_text(alloc, row),
        Some(Row::Quota(row)) => {
            let (names, bytes) = (row.used_names, row.used_bytes);
            Ok(format!(in alloc; "{names} names, {bytes} bytes")?)
        }
    }
}

fn inode_text(alloc: Global, row: &Inode) -> Result<String, NoMemory> {
    let id = row.id.0;
    let status = match row.kind {
        Kind::Dir => dir_text(alloc, row.mode, row.owner.text())?,
        Kind::File => file_text(alloc, row.len, row.mode, row.owner.text())?,
    };
    match row.writer {
        None => Ok(format!(in alloc; "{id} {status}")?),
        Some(client) => {
            let client = client.0;
            Ok(format!(in alloc; "{id} {status} written by {client}")?)
        }
    }
}

fn dir_text(alloc: Global, mode: u16, owner: &str) -> Result<String, NoMemory> {
    Ok(format!(in alloc; "directory {mode:o} of {owner}")?)
}

fn file_text(alloc: Global, len: u64, mode: u16, owner: &str) -> Result<String, NoMemory> {
    Ok(format!(in alloc; "file {mode:o} of {owner} with {len} bytes")?)
}

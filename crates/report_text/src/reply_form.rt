//! Replies and refusals.

ghost use Rattle.std.specs.Prelude.{◌≡◌, IfOk, map, codes};
ghost use Rattle.serde_json.specs.Data.{string, member, no_members};
ghost use Rattle.serde_json.specs.View.{view};
ghost use Rattle.script_text.specs.Json.{whole, row};
ghost use Rattle.script_text.specs.Form.{path_data};
ghost use Rattle.script_text.specs.Built.{members_in};
ghost use Rattle.report_text.specs.Replies.{status_data, listed_data, why_data, exception_data, reply_data};

use hops_base::{NoMemory, Path};
use name_space::{Exception, FileStatus, Listed, Reply, Why};
use script_text::{Fields, Row};
use serde_json::Value;
use std::alloc::Global;

/// The value of a reply.
pub fn reply_value(alloc: Global, reply: &Reply) -> Result<Value, NoMemory>
    ensures { IfOk result (λ value. view value ≡ reply_data reply.now) }
{
    match reply {
        Reply::Truth(truth) => Ok(Value::from(*truth)),
        Reply::Status(status) => status_value(alloc, status),
        Reply::Entries(listing) => {
            let entries = listing_value(alloc, listing.as_slice())?;
            Ok(Fields::new(alloc).with("entries", entries)?.value())
        }
        Reply::Used {
            names,
            bytes,
            max_names,
            max_bytes,
        } => Ok(
            Fields::new(alloc)
                .number("bytes", *bytes)?
                .optional("max_bytes", *max_bytes)?
                .optional("max_names", *max_names)?
                .number("names", *names)?
                .value(),
        ),
        Reply::Refused(exception) => exception_value(alloc, exception),
    }
}

/// The value of a status.
pub fn status_value(alloc: Global, status: &FileStatus) -> Result<Value, NoMemory>
    ensures { IfOk result (λ value. view value ≡ status_data status.now) }
{
    let fields = match status {
        FileStatus::Dir { mode, owner } => Fields::new(alloc)
            .text("kind", "dir")?
            .number("mode", u64::from(*mode))?
            .text("owner", owner.text()),
        FileStatus::File { len, mode, owner } => Fields::new(alloc)
            .text("kind", "file")?
            .number("len", *len)?
            .number("mode", u64::from(*mode))?
            .text("owner", owner.text()),
    }?;
    Ok(fields.value())
}

fn listing_value(alloc: Global, listing: &[Listed]) -> Result<Value, NoMemory>
    ensures { IfOk result (λ value. view value ≡ row (map listed_data listing.now)) }
{
    let mut row = Row::new(alloc);
    for listed in listing {
        row = row.with(listed_value(alloc, listed)?)?;
    }
    Ok(row.value())
}

/// The value of a child in a listing: its status, and its name too.
pub fn listed_value(alloc: Global, listed: &Listed) -> Result<Value, NoMemory>
    ensures { IfOk result (λ value. view value ≡ listed_data listed.now) }
{
    let name = listed.name.text();
    let fields = match &listed.status {
        FileStatus::Dir { mode, owner } => Fields::new(alloc)
            .text("kind", "dir")?
            .number("mode", u64::from(*mode))?
            .text("name", name)?
            .text("owner", owner.text()),
        FileStatus::File { len, mode, owner } => Fields::new(alloc)
            .text("kind", "file")?
            .number("len", *len)?
            .number("mode", u64::from(*mode))?
            .text("name", name)?
            .text("owner", owner.text()),
    }?;
    Ok(fields.value())
}

/// The value of a refusal.
pub fn exception_value(alloc: Global, exception: &Exception) -> Result<Value, NoMemory>
    ensures { IfOk result (λ value. view value ≡ exception_data exception.now) }
{
    let fields = match exception {
        Exception::FileNotFound => refused(alloc, "FileNotFound"),
        Exception::FileAlreadyExists => refused(alloc, "FileAlreadyExists"),
        Exception::ParentNotDirectory => refused(alloc, "ParentNotDirectory"),
        Exception::PathIsNotEmptyDirectory => refused(alloc, "PathIsNotEmptyDirectory"),
        Exception::AlreadyBeingCreated(writer) => {
            refused(alloc, "AlreadyBeingCreated")?.number("writer", u64::from(writer.0))
        }
        Exception::LeaseExpired => refused(alloc, "LeaseExpired"),
        Exception::NSQuotaExceeded { at, used, limit } => {
            exceeded(alloc, "NSQuotaExceeded", at, *used, *limit)
        }
        Exception::DSQuotaExceeded { at, used, limit } => {
            exceeded(alloc, "DSQuotaExceeded", at, *used, *limit)
        }
        Exception::IO(why) => refused(alloc, "IO")?.text("why", why_word(*why)),
    }?;
    Ok(fields.value())
}

// A refusal of this name.
fn refused(alloc: Global, name: &str) -> Result<Fields, NoMemory>
    ensures { IfOk result (λ fields. members_in fields ≡ member (codes "refused") (string name.now) no_members) }
{
    Fields::new(alloc).text("refused", name)
}

// A refusal of this name by the quota of the directory at the path.
fn exceeded(alloc: Global, name: &str, at: &Path, used: u64, limit: u64) -> Result<Fields, NoMemory>
    ensures { IfOk result (λ fields. members_in fields
        ≡ member (codes "at") (path_data at.now) (member (codes "limit") (whole limit) (member (codes "refused") (string name.now) (member (codes "used") (whole used) no_members)))) }
{
    Fields::new(alloc)
        .path("at", at)?
        .number("limit", limit)?
        .text("refused", name)?
        .number("used", used)
}

fn why_word(why: Why) -> &'static str
    ensures { string result.now ≡ why_data why }
{
    match why {
        Why::Descendant => "Descendant",
        Why::BadParent => "BadParent",
        Why::RootFixed => "RootFixed",
        Why::NotDirectory => "NotDirectory",
        Why::NoQuota => "NoQuota",
    }
}

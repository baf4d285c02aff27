//! The tables, and how each of their rows is reserved, put and removed.

ghost use Rattle.std.specs.Prelude.{◌≡◌, true, IfOk, OnOk};
ghost use Rattle.std.specs.FinMap as map;
ghost use Rattle.row_store.specs.Table.{has_place};
ghost use Rattle.db_state.specs.Stored.{opening_rows, root_key, root_row};
ghost use Rattle.db_state.specs.Written.{with_row};
ghost use Rattle.db_state.specs.Places.{rows_of, is_placed, SamePlaces, SameOfTable, KeepsPlaces};

use crate::directory::new_dir;
use crate::writes::Row;
use hops_base::{InodeId, Key, Name, NoMemory, User};
use inode_table::{Inode, InodeTable};
use quota_table::{QuotaRow, QuotaTable};
use std::alloc::Global;
use std::slice;

/// All tables.
#[derive(Drop)]
pub struct Tables {
    pub inodes: InodeTable,
    pub quotas: QuotaTable,
}

impl Tables {
    /// No rows.
    pub fn new(alloc: Global) -> Result<Tables, NoMemory>
        ensures inodes { IfOk result (λ tables. tables.inodes.rows ≡ map.empty) }
        ensures quotas { IfOk result (λ tables. tables.quotas.rows ≡ map.empty) }
    {
        Ok(Tables {
            inodes: InodeTable::new(alloc)?,
            quotas: QuotaTable::new(alloc)?,
        })
    }

    /// The rows before anything happened, the root's alone, and its key.
    pub fn opening(alloc: Global) -> Result<(Tables, Key), NoMemory>
        ensures inodes { IfOk result (λ opening. opening.0.inodes.rows ≡ opening_rows) }
        ensures quotas { IfOk result (λ opening. opening.0.quotas.rows ≡ map.empty) }
        ensures top { IfOk result (λ opening. opening.1 ≡ root_key) }
    {
        let top = root_key(alloc)?;
        let key = top.copy()?;
        let row = root_row(alloc)?;
        let mut tables = Tables::new(alloc)?;
        tables.inodes.reserve(slice::from_ref(&key))?;
        tables.inodes.insert(key, row);
        Ok((tables, top))
    }
}

// The key of the root's row.
fn root_key(alloc: Global) -> Result<Key, NoMemory>
    ensures { IfOk result (λ key. key ≡ root_key) }
{
    match Name::read(alloc, "root") {
        Ok(name) => Ok(Key::Inode(InodeId(0), name)),
        Err(_) => Err(NoMemory),
    }
}

// The root's row.
fn root_row(alloc: Global) -> Result<Inode, NoMemory>
    ensures { IfOk result (λ row. row ≡ root_row) }
{
    match User::read(alloc, "hdfs") {
        Ok(owner) => Ok(new_dir(InodeId(1), owner)),
        Err(_) => Err(NoMemory),
    }
}

/// Makes a place for a row that is to be put.
pub fn reserve_row(tables: &mut Tables, write: &(Key, Option<Row>)) -> Result<(), NoMemory>
    ensures rows { rows_of tables.new ≡ rows_of tables.old }
    ensures here { OnOk result (is_placed tables.new write.now ≡ true) }
    ensures others { OnOk result (KeepsPlaces tables.old tables.new) }
{
    match &write.1 {
        None => Ok(()),
        Some(Row::Inode(_)) => tables.inodes.reserve(slice::from_ref(&write.0)),
        Some(Row::Quota(_)) => tables.quotas.reserve(slice::from_ref(&write.0)),
    }
}

/// Puts or removes a row. It takes no memory.
pub fn write_row(tables: &mut Tables, write: (Key, Option<Row>))
    requires { is_placed tables.old write ≡ true }
    ensures rows { rows_of tables.new ≡ with_row (rows_of tables.old) write.0 write.1 }
    ensures places { SamePlaces write.0 tables.old tables.new }
{
    match write {
        (key, Some(Row::Inode(inode))) => put_inode(&mut tables.inodes, key, inode),
        (key, Some(Row::Quota(quota))) => put_quota(&mut tables.quotas, key, quota),
        (key, None) => remove(tables, key),
    }
}

fn put_inode(inodes: &mut InodeTable, key: Key, inode: Inode)
    requires { has_place inodes.old key ≡ true }
    ensures rows { inodes.new.rows ≡ map.insert inodes.old.rows key inode }
    ensures places { SameOfTable key inodes.old inodes.new }
{
    if inodes.row(&key).is_some() {
        let _ = inodes.set(&key, inode);
    } else {
        inodes.insert(key, inode);
    }
}

fn put_quota(quotas: &mut QuotaTable, key: Key, quota: QuotaRow)
    requires { has_place quotas.old key ≡ true }
    ensures rows { quotas.new.rows ≡ map.insert quotas.old.rows key quota }
    ensures places { SameOfTable key quotas.old quotas.new }
{
    if quotas.row(&key).is_some() {
        let _ = quotas.set(&key, quota);
    } else {
        quotas.insert(key, quota);
    }
}

fn remove(tables: &mut Tables, key: Key)
    ensures inodes { tables.new.inodes.rows ≡ map.remove tables.old.inodes.rows key }
    ensures quotas { tables.new.quotas.rows ≡ map.remove tables.old.quotas.rows key }
    ensures places { SamePlaces key tables.old tables.new }
{
    let _ = tables.inodes.remove(&key);
    let _ = tables.quotas.remove(&key);
}

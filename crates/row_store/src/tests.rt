//! Calls with ample memory, and answers worked out by hand.

ghost use Rattle.std.specs.Prelude.{◌≡◌, OnOk};
ghost use Rattle.std.specs.FinMap as map;

use crate::Table;
use hops_base::{InodeId, Key, Name, NoMemory};
use std::alloc::Global;
use std::test::Fail;

// Makes the key ready, and puts the row under it, where it has none.
fn add(table: &mut Table<u64>, key: Key, row: u64) -> Result<(), NoMemory>
    ensures { OnOk result (table.new.rows ≡ map.insert table.old.rows key row) }
{
    let None = table.row(&key) else {
        return Err(NoMemory);
    };
    table.reserve(&[key.copy()?])?;
    table.insert(key, row);
    Ok(())
}

// A table with a row under each of these names.
fn named(alloc: Global, keys: &[(u64, &str)]) -> Result<Table<u64>, Fail> {
    let mut table = Table::new(alloc)?;
    for (parent, name) in keys {
        let key = Key::Inode(InodeId(*parent), Name::read(alloc, name)?);
        add(&mut table, key, 0)?;
    }
    Ok(table)
}

#[test]
fn names_come_back_rising(rt: HostRuntime) -> Result<(), Fail> {
    let table = named(rt.alloc(), &[(7, "b"), (7, "ab"), (8, "aa"), (7, "B")])?;
    assert_eq!(rt; table.child_count(InodeId(7)), 3);
    for (name, text) in table.children(InodeId(7))?.iter().zip(["B", "ab", "b"]) {
        assert_eq!(rt; name.text(), text);
    }
    Ok(())
}

#[test]
fn a_row_is_set_and_removed(rt: HostRuntime) -> Result<(), Fail> {
    let mut table = Table::new(rt.alloc())?;
    add(&mut table, Key::Gate, 10)?;
    assert_eq!(rt; table.row(&Key::Gate), Some(&10));
    assert_eq!(rt; table.set(&Key::Gate, 11), 10);
    assert_eq!(rt; table.remove(&Key::Gate), Some(11));
    Ok(())
}

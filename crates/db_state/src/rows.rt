//! How a commit reaches the tables: it reserves all memory, and then writes.

ghost use Rattle.std.specs.Prelude.{◌≡◌, ◌+◌, ◌<◌, ◌^◌, true, OnOk};
ghost use Rattle.std.specs.List.{list_all, IsDistinct};
ghost use Rattle.std.specs.Map.{keys_of};
ghost use Rattle.hops_base.specs.Key.{same_key};
ghost use Rattle.db_state.specs.Written.{written, next_after};
ghost use Rattle.db_state.specs.Places.{rows_of, is_placed};

use crate::tables::{Tables, reserve_row, write_row};
use crate::writes::Row;
use hops_base::{Key, NoMemory};

/// Makes a place for each row.
pub fn reserve_rows(tables: &mut Tables, writes: &[(Key, Option<Row>)]) -> Result<(), NoMemory>
    ensures rows { rows_of tables.new ≡ rows_of tables.old }
    ensures ok { OnOk result (list_all (is_placed tables.new) writes.now ≡ true) }
{
    for write in writes {
        reserve_row(tables, write)?;
    }
    Ok(())
}

/// Writes the rows, each of which has its place.
pub fn write_rows(tables: &mut Tables, writes: Vec<(Key, Option<Row>)>)
    requires placed { list_all (is_placed tables.old) writes.items ≡ true }
    requires distinct { IsDistinct same_key (keys_of writes.items) }
    ensures { rows_of tables.new ≡ written (rows_of tables.old) writes.items }
{
    for write in writes {
        write_row(tables, write);
    }
}

/// The next free id once these rows are there.
pub fn next_id(next: u64, writes: &[(Key, Option<Row>)]) -> u64
    requires { next_after next writes.now < 2 ^ 64 }
    ensures { result ≡ next_after next writes.now }
{
    let mut next = next;
    for (_, row) in writes {
        if let Some(Row::Inode(inode)) = row {
            next = next.max(inode.id.0 + 1);
        }
    }
    next
}

//! What was found for a path so far, by reference.

ghost use Rattle.std.specs.Prelude.{◌≡◌, IfOk, option_copied, option_map, option_to_list};
ghost use Rattle.db_state.specs.Plan.{is_whole, own_dir, own_file};
ghost use Rattle.path_resolver.specs.Resolving.{next_read};
ghost use Rattle.path_resolver.specs.Ways.{key_below, place_of, rows_of};

use hops_base::{Key, Name, NoMemory, Path};
use inode_table::{Inode, Kind};

/// The rows found for a path, the last of them apart from those above it, and its first missing key.
#[derive(Clone, Copy, Debug)]
pub struct Way<'a> {
    pub path: &'a Path,
    pub above: &'a [(Key, Inode)],
    pub last: &'a (Key, Inode),
    pub missing: Option<&'a Key>,
}

impl Way<'_> {
    /// Whether each name of the path has a row.
    pub fn is_whole(&self) -> bool
        ensures { result ≡ is_whole (place_of self.now) }
    {
        self.above.len() as u64 >= self.path.len()
    }

    /// The path's own row, where it is a directory's.
    pub fn own_dir(&self) -> Option<&Inode>
        ensures { option_to_list (option_copied result) ≡ own_dir (place_of self.now) }
    {
        if self.is_whole() && self.last.1.kind == Kind::Dir {
            return Some(&self.last.1);
        }
        None
    }

    /// The path's own row, where it is a file's.
    pub fn own_file(&self) -> Option<&Inode>
        ensures { option_to_list (option_copied result) ≡ own_file (place_of self.now) }
    {
        if self.is_whole() && self.last.1.kind == Kind::File {
            return Some(&self.last.1);
        }
        None
    }

    /// The next name to be looked for below the last row. None where the path ends there, and at a file.
    pub fn next_name(&self) -> Option<&Name>
        ensures { option_map (key_below self.now.last.now) (option_copied result) ≡ next_read self.now.path.now (rows_of self.now) }
    {
        if self.last.1.kind == Kind::File {
            return None;
        }
        self.path.get(self.above.len() as u64)
    }

    /// The key of that name.
    pub fn next_key(&self) -> Result<Option<Key>, NoMemory>
        ensures { IfOk result (λ next. next ≡ next_read self.now.path.now (rows_of self.now)) }
    {
        let Some(name) = self.next_name() else {
            return Ok(None);
        };
        Ok(Some(Key::Inode(self.last.1.id, name.copy()?)))
    }
}

//! What is read for the paths of the calls.

ghost use Rattle.std.specs.Prelude.{◌≡◌, ◌<◌, ◌≤◌, [], ◌∷◌, length, IfOk, IfSome};
ghost use Rattle.hops_base.specs.declared.key.Key.TheVariants as key;
ghost use Rattle.db_state.specs.Stored.{root_key};
ghost use Rattle.db_state.specs.Current.{SpellsPlace};
ghost use Rattle.db_state.specs.Plan.{deepest};
ghost use Rattle.inode_table.specs.declared.inode.Kind.TheVariants.{Dir};

use db_state::{FoundList, Place};
use hops_base::{InodeId, Key, Name, NoMemory, Path, User};
use inode_table::{Inode, Kind};
use std::alloc::Global;

/// What a call finds at its path: `/`, `/a` or `/a/b`.
#[derive(Clone, Copy)]
pub enum Spot {
    Root,
    /// `/a/b`, where the root alone is found.
    NothingFound,
    /// `/a`, a file.
    File,
    /// `/a`, a directory.
    EmptyDir,
    DirWithChild,
    /// `/a/b`, where `/a` is a directory.
    NothingBelow,
    /// `/a/b`, a file in the directory `/a`.
    FileBelow,
}

/// A row that ann owns: a directory with a quota, or a file of 70 bytes.
fn inode(alloc: Global, id: u64, kind: Kind) -> Result<Inode, NoMemory>
    ensures id { IfOk result (λ inode. inode.id.0 ≡ id) }
    ensures kind { IfOk result (λ inode. inode.kind ≡ kind) }
{
    let Ok(owner) = User::read(alloc, "ann") else {
        return Err(NoMemory);
    };
    Ok(Inode {
        id: InodeId(id),
        kind,
        len: 70,
        writer: None,
        mode: 0o640,
        owner,
        has_quota: kind == Kind::Dir,
        flag: None,
    })
}

pub fn name(alloc: Global, text: &str) -> Result<Name, NoMemory>
    ensures { IfOk result (λ name. name ≡ text.now) }
{
    match Name::read(alloc, text) {
        Ok(name) => Ok(name),
        Err(_) => Err(NoMemory),
    }
}

// The row of this inode with its key.
fn row(
    alloc: Global,
    parent: InodeId,
    name: &Name,
    id: u64,
    kind: Kind,
) -> Result<(Key, Inode), NoMemory>
    ensures key { IfOk result (λ row. row.0 ≡ key.Inode parent name.now) }
    ensures id { IfOk result (λ row. row.1.id.0 ≡ id) }
    ensures kind { IfOk result (λ row. row.1.kind ≡ kind) }
{
    let key = Key::Inode(parent, name.copy()?);
    Ok((key, inode(alloc, id, kind)?))
}

// The root's row with its key.
fn root(alloc: Global) -> Result<(Key, Inode), NoMemory>
    ensures key { IfOk result (λ row. row.0 ≡ root_key) }
    ensures id { IfOk result (λ row. row.1.id.0 ≡ 1) }
    ensures kind { IfOk result (λ row. row.1.kind ≡ Dir) }
{
    row(alloc, InodeId(0), &name(alloc, "root")?, 1, Kind::Dir)
}

fn one_row(alloc: Global, root: (Key, Inode)) -> Result<FoundList, NoMemory>
    ensures { IfOk result (λ found. found.items ≡ root ∷ []) }
{
    let mut found = FoundList::new(alloc);
    found.reserve(1)?;
    found.push(root);
    Ok(found)
}

fn two_rows(alloc: Global, root: (Key, Inode), child: (Key, Inode)) -> Result<FoundList, NoMemory>
    ensures { IfOk result (λ found. found.items ≡ root ∷ child ∷ []) }
{
    let mut found = one_row(alloc, root)?;
    found.reserve(1)?;
    found.push(child);
    Ok(found)
}

fn three_rows(
    alloc: Global,
    root: (Key, Inode),
    child: (Key, Inode),
    last: (Key, Inode),
) -> Result<FoundList, NoMemory>
    ensures { IfOk result (λ found. found.items ≡ root ∷ child ∷ last ∷ []) }
{
    let mut found = two_rows(alloc, root, child)?;
    found.reserve(1)?;
    found.push(last);
    Ok(found)
}

fn path_to(alloc: Global, name: &Name) -> Result<Path, NoMemory>
    ensures { IfOk result (λ path. path ≡ name.now ∷ []) }
{
    Path::root(alloc).with(name)
}

fn path_below(alloc: Global, above: &Name, name: &Name) -> Result<Path, NoMemory>
    ensures { IfOk result (λ path. path ≡ above.now ∷ name.now ∷ []) }
{
    path_to(alloc, above)?.with(name)
}

fn at_root(alloc: Global) -> Result<Place, NoMemory>
    ensures spells { IfOk result SpellsPlace }
    ensures long { IfOk result (λ place. length place.path ≤ 2) }
    ensures below { IfOk result (λ place. IfSome (deepest place) (λ last. last.id.0 < 9)) }
{
    Ok(Place {
        path: Path::root(alloc),
        found: one_row(alloc, root(alloc)?)?,
        missing: None,
        has_child: true,
    })
}

fn below_root(alloc: Global) -> Result<Place, NoMemory>
    ensures spells { IfOk result SpellsPlace }
    ensures long { IfOk result (λ place. length place.path ≤ 2) }
    ensures below { IfOk result (λ place. IfSome (deepest place) (λ last. last.id.0 < 9)) }
{
    let (a, b) = (name(alloc, "a")?, name(alloc, "b")?);
    let root = root(alloc)?;
    let missing = Some(Key::Inode(root.1.id, a.copy()?));
    Ok(Place {
        path: path_below(alloc, &a, &b)?,
        found: one_row(alloc, root)?,
        missing,
        has_child: false,
    })
}

fn at_a(alloc: Global, kind: Kind, has_child: bool) -> Result<Place, NoMemory>
    ensures spells { IfOk result SpellsPlace }
    ensures long { IfOk result (λ place. length place.path ≤ 2) }
    ensures below { IfOk result (λ place. IfSome (deepest place) (λ last. last.id.0 < 9)) }
{
    let a = name(alloc, "a")?;
    let root = root(alloc)?;
    let child = row(alloc, root.1.id, &a, 5, kind)?;
    Ok(Place {
        path: path_to(alloc, &a)?,
        found: two_rows(alloc, root, child)?,
        missing: None,
        has_child,
    })
}

fn below_a(alloc: Global) -> Result<Place, NoMemory>
    ensures spells { IfOk result SpellsPlace }
    ensures long { IfOk result (λ place. length place.path ≤ 2) }
    ensures below { IfOk result (λ place. IfSome (deepest place) (λ last. last.id.0 < 9)) }
{
    let (a, b) = (name(alloc, "a")?, name(alloc, "b")?);
    let root = root(alloc)?;
    let dir = row(alloc, root.1.id, &a, 5, Kind::Dir)?;
    let missing = Some(Key::Inode(dir.1.id, b.copy()?));
    Ok(Place {
        path: path_below(alloc, &a, &b)?,
        found: two_rows(alloc, root, dir)?,
        missing,
        has_child: false,
    })
}

fn at_b(alloc: Global) -> Result<Place, NoMemory>
    ensures spells { IfOk result SpellsPlace }
    ensures long { IfOk result (λ place. length place.path ≤ 2) }
    ensures below { IfOk result (λ place. IfSome (deepest place) (λ last. last.id.0 < 9)) }
{
    let (a, b) = (name(alloc, "a")?, name(alloc, "b")?);
    let root = root(alloc)?;
    let dir = row(alloc, root.1.id, &a, 5, Kind::Dir)?;
    let file = row(alloc, dir.1.id, &b, 7, Kind::File)?;
    Ok(Place {
        path: path_below(alloc, &a, &b)?,
        found: three_rows(alloc, root, dir, file)?,
        missing: None,
        has_child: false,
    })
}

/// What is read for a call of that path. `/a` has the id 5, and `/a/b` the id 7.
pub fn place_at(alloc: Global, spot: Spot) -> Result<Place, NoMemory>
    ensures spells { IfOk result SpellsPlace }
    ensures long { IfOk result (λ place. length place.path ≤ 2) }
    ensures below { IfOk result (λ place. IfSome (deepest place) (λ last. last.id.0 < 9)) }
{
    match spot {
        Spot::Root => at_root(alloc),
        Spot::NothingFound => below_root(alloc),
        Spot::File => at_a(alloc, Kind::File, false),
        Spot::EmptyDir => at_a(alloc, Kind::Dir, false),
        Spot::DirWithChild => at_a(alloc, Kind::Dir, true),
        Spot::NothingBelow => below_a(alloc),
        Spot::FileBelow => at_b(alloc),
    }
}

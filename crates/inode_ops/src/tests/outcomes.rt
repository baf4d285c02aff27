//! What comes of calls, by what stands at their path.

ghost use Rattle.std.specs.Prelude.{◌≡◌, Some};
ghost use Rattle.inode_ops.specs.Outcomes.{path_of};

use super::answer;
use super::places::{Spot, name, place_at};
use hops_base::{NoMemory, Path, User};
use name_space::{Call, FileStatus, Listed, Listing};
use std::alloc::Global;
use std::test::Fail;

// A call of a path: `Overwrite` is a `create` that may, and `Chmod` asks for the mode 600.
#[derive(Clone, Copy)]
enum Asked {
    Mkdirs,
    Create,
    Overwrite,
    Stat,
    List,
    Delete,
    Chmod,
}

fn call_of(asked: Asked, path: Path) -> Call
    ensures { path_of result ≡ Some path }
{
    match asked {
        Asked::Mkdirs => Call::Mkdirs(path),
        Asked::Create => Call::Create(path, false),
        Asked::Overwrite => Call::Create(path, true),
        Asked::Stat => Call::Stat(path),
        Asked::List => Call::List(path),
        Asked::Delete => Call::Delete(path, false),
        Asked::Chmod => Call::Chmod(path, 0o600),
    }
}

// What comes of it in one line, where the directory `/a` may have so many names, and these children were read.
fn line_with(
    alloc: Global,
    asked: Asked,
    spot: Spot,
    max_names: Option<u64>,
    children: Listing,
) -> Result<String, NoMemory> {
    let place = place_at(alloc, spot)?;
    let call = call_of(asked, place.path.copy()?);
    answer(alloc, place, max_names, children, &call)
}

fn line(
    alloc: Global,
    asked: Asked,
    spot: Spot,
    max_names: Option<u64>,
) -> Result<String, NoMemory> {
    line_with(alloc, asked, spot, max_names, Listing::new(alloc))
}

// The children of `/`: the directory `/a`.
fn one_child(alloc: Global) -> Result<Listing, NoMemory> {
    let Ok(owner) = User::read(alloc, "ann") else {
        return Err(NoMemory);
    };
    let mut children = Listing::new(alloc);
    children.reserve(1)?;
    children.push(Listed {
        name: name(alloc, "a")?,
        status: FileStatus::Dir { mode: 0o755, owner },
    });
    Ok(children)
}

#[test]
fn what_is_made_is_counted_unless_refused(rt: HostRuntime) -> Result<(), Fail> {
    for (asked, spot, max_names, told) in [
        (
            Asked::Mkdirs,
            Spot::NothingFound,
            Some(2),
            "true; 1/a 9 directory 755 of bob; 9/b 10 directory 755 of bob",
        ),
        (
            Asked::Mkdirs,
            Spot::NothingBelow,
            Some(2),
            "NSQuotaExceeded at /a: 2 of 2",
        ),
        (Asked::Mkdirs, Spot::File, None, "FileAlreadyExists"),
        (
            Asked::Create,
            Spot::NothingBelow,
            Some(3),
            "true; 5/b 9 file 644 of bob with 0 bytes written by 4; quota 5 3 names, 70 bytes",
        ),
        (Asked::Create, Spot::File, None, "FileAlreadyExists"),
    ] {
        let line = line(rt.alloc(), asked, spot, max_names)?;
        assert_eq!(rt; line.as_str(), told);
    }
    Ok(())
}

#[test]
fn what_changes_or_goes_is_counted(rt: HostRuntime) -> Result<(), Fail> {
    for (asked, spot, told) in [
        (
            Asked::Overwrite,
            Spot::FileBelow,
            "true; 5/b 7 file 644 of bob with 0 bytes written by 4; quota 5 2 names, 0 bytes",
        ),
        (
            Asked::Delete,
            Spot::FileBelow,
            "true; 5/b removed; quota 5 1 names, 0 bytes",
        ),
        (
            Asked::Delete,
            Spot::EmptyDir,
            "true; 1/a removed; quota 5 removed",
        ),
        (Asked::Delete, Spot::DirWithChild, "PathIsNotEmptyDirectory"),
        (
            Asked::Chmod,
            Spot::FileBelow,
            "true; 5/b 7 file 600 of ann with 70 bytes",
        ),
        (Asked::Chmod, Spot::Root, "IO(RootFixed)"),
    ] {
        let line = line(rt.alloc(), asked, spot, Some(3))?;
        assert_eq!(rt; line.as_str(), told);
    }
    Ok(())
}

#[test]
fn what_stands_there_is_told(rt: HostRuntime) -> Result<(), Fail> {
    for (asked, spot, told) in [
        (
            Asked::Stat,
            Spot::FileBelow,
            "file 640 of ann with 70 bytes",
        ),
        (Asked::Stat, Spot::NothingBelow, "FileNotFound"),
        (
            Asked::List,
            Spot::FileBelow,
            "b: file 640 of ann with 70 bytes",
        ),
    ] {
        let line = line(rt.alloc(), asked, spot, None)?;
        assert_eq!(rt; line.as_str(), told);
    }
    Ok(())
}

#[test]
fn a_directory_is_listed_by_its_children(rt: HostRuntime) -> Result<(), Fail> {
    let alloc = rt.alloc();
    let line = line_with(alloc, Asked::List, Spot::Root, None, one_child(alloc)?)?;
    assert_eq!(rt; line.as_str(), "a: directory 755 of ann");
    Ok(())
}

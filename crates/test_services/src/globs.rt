//! Examples of the results of names, paths and globs, and checks that each call succeeds if memory is available. For the
//! definitions, proofs/ states which texts match, which are rejected, and how they are ordered.

use crate::texts::is_printed;
use std::alloc::{AllocError, Global};
use std::cmp::Ordering;
use std::test::Fail;
use uvm_glob::{ChildRoom, Direction, Glob, Name, Path, PathFault};

#[test]
fn globs_match_whole_paths(rt: HostRuntime) -> Result<(), Fail> {
    // The results of the glob, of its copy, and of the glob for what is below the path.
    assert!(rt; matches(rt.alloc(), b"*b", b"a.b")? == [true, true, false]);
    Ok(())
}

fn matches(alloc: Global, glob: &[u8], path: &[u8]) -> Result<[bool; 3], PathFault> {
    let path = Path::parse(alloc, path)?;
    matches_at(alloc, glob, &path)
}

fn matches_at(alloc: Global, glob: &[u8], path: &Path) -> Result<[bool; 3], PathFault> {
    let glob = Glob::new(alloc, glob)?;
    Ok([
        glob.matches(path),
        copy_matches(&glob, path)?,
        matches_under(alloc, &glob, path)?,
    ])
}

fn copy_matches(glob: &Glob, path: &Path) -> Result<bool, AllocError> {
    Ok(glob.copy()?.matches(path))
}

fn matches_under(alloc: Global, glob: &Glob, path: &Path) -> Result<bool, AllocError> {
    Ok(Glob::under(alloc, path, glob)?.matches(path))
}

#[test]
fn globs_show_their_bytes_and_are_printed(rt: HostRuntime) -> Result<(), Fail> {
    assert!(rt; shows_glob(rt.alloc(), "")?);
    assert!(rt; shows_glob(rt.alloc(), "a[0].?+*")?);
    Ok(())
}

fn shows_glob(alloc: Global, text: &str) -> Result<bool, Fail> {
    let glob = Glob::new(alloc, text.as_bytes())?;
    let shows = glob.as_bytes() == text.as_bytes();
    Ok(is_printed(alloc, &glob, text)? && shows)
}

#[test]
fn names_are_equal_and_printed_by_their_bytes(rt: HostRuntime) -> Result<(), Fail> {
    let name = Name::new(b"x[0]")?;
    assert!(rt; is_name(name, b"x[0]") && !is_name(name, b"x[1]"));
    assert!(rt; is_printed(rt.alloc(), &name, "x[0]")?);
    Ok(())
}

// Returns whether the name equals the name with these bytes, and has these bytes.
fn is_name(name: Name, bytes: &[u8]) -> bool {
    match Name::new(bytes) {
        Ok(other) => name == other && name.as_bytes() == bytes,
        Err(_) => false,
    }
}

// Returns the path with this text; an empty text is the path of the root.
fn path_at(alloc: Global, text: &str) -> Result<Path, PathFault> {
    if text.is_empty() {
        Ok(Path::top(alloc))
    } else {
        Path::parse(alloc, text.as_bytes())
    }
}

#[test]
fn paths_go_on_with_names_and_paths(rt: HostRuntime) -> Result<(), Fail> {
    let name = Name::new(b"c")?;
    assert!(rt; goes_on(rt.alloc(), "", name, "c")?);
    assert!(rt; goes_on(rt.alloc(), "a.b", name, "a.b.c")?);
    Ok(())
}

// Returns whether each call that extends the path by the name results in `text`.
fn goes_on(alloc: Global, path: &str, name: Name, text: &str) -> Result<bool, PathFault> {
    let path = path_at(alloc, path)?;
    Ok(
        path.child_fault(&name) == None
            && has_text(path.child(&name), text)
            && has_text(joined(alloc, &path, name), text)
            && has_text(child_in_room(&path, name), text),
    )
}

fn joined(alloc: Global, path: &Path, name: Name) -> Result<Path, PathFault> {
    path.join(&Path::parse(alloc, name.as_bytes())?)
}

fn child_in_room(path: &Path, name: Name) -> Result<Path, PathFault> {
    ChildRoom::new(path)?.child(&name)
}

fn has_text(path: Result<Path, PathFault>, text: &str) -> bool {
    match path {
        Ok(path) => path.as_bytes() == text.as_bytes(),
        Err(_) => false,
    }
}

#[test]
fn paths_have_a_depth_and_copies_and_are_written(rt: HostRuntime) -> Result<(), Fail> {
    assert!(rt; shows_path(rt.alloc(), "a.b[0].c", 3)?);
    Ok(())
}

fn shows_path(alloc: Global, text: &str, depth: usize) -> Result<bool, Fail> {
    let path = path_at(alloc, text)?;
    let shows = path.depth() == depth && has_text(copy_of(&path), text);
    Ok(shows && is_written(alloc, &path, text)? && is_printed(alloc, &path, text)?)
}

fn copy_of(path: &Path) -> Result<Path, PathFault> {
    Ok(path.copy()?)
}

// Returns whether the path appends its text to what the vector already has.
fn is_written(alloc: Global, path: &Path, text: &str) -> Result<bool, AllocError> {
    let mut out = b"> ".to_vec(alloc)?;
    path.write(&mut out)?;
    Ok(out.strip_prefix(b"> ") == Some(text.as_bytes()))
}

#[test]
fn names_stand_in_byte_order(rt: HostRuntime) -> Result<(), Fail> {
    let (name, other) = (Name::new(b"a10")?, Name::new(b"a9")?);
    assert!(rt; name.cmp(&other) == Ordering::Less);
    assert!(rt; other.partial_cmp(&name) == Some(Ordering::Greater));
    assert!(rt; name < other);
    Ok(())
}

#[test]
fn parents_stand_first_in_down_and_last_in_up(rt: HostRuntime) -> Result<(), Fail> {
    for (parent, child) in [("", "t"), ("t", "t.a")] {
        assert!(rt;
            stand_in_order(rt.alloc(), parent, child)?,
            "'{parent}' and '{child}'"
        );
    }
    Ok(())
}

fn stand_in_order(alloc: Global, parent: &str, child: &str) -> Result<bool, PathFault> {
    let parent = path_at(alloc, parent)?;
    stands_over(alloc, &parent, child)
}

fn stands_over(alloc: Global, parent: &Path, child: &str) -> Result<bool, PathFault> {
    let child = path_at(alloc, child)?;
    Ok(stands_above(parent, &child) && equals_its_copy(&child)?)
}

// Returns whether each comparison has the parent first in `Down` and last in `Up`.
fn stands_above(parent: &Path, child: &Path) -> bool {
    parent.cmp(child) == Ordering::Less
        && parent.partial_cmp(child) == Some(Ordering::Less)
        && parent.cmp_in(Direction::Down, child) == Ordering::Less
        && child.cmp_in(Direction::Up, parent) == Ordering::Less
        && parent.cmp_in(Direction::Up, child) == Ordering::Greater
        && parent < child
        && parent != child
}

fn equals_its_copy(path: &Path) -> Result<bool, AllocError> {
    let copy = path.copy()?;
    Ok(
        path.cmp(&copy) == Ordering::Equal
            && path.cmp_in(Direction::Up, &copy) == Ordering::Equal
            && *path == copy,
    )
}

#[test]
fn faults_are_printed(rt: HostRuntime) -> Result<(), Fail> {
    assert!(rt; is_printed(rt.alloc(), &PathFault::Empty, "an empty name")?);
    Ok(())
}

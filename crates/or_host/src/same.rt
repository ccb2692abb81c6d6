// Which names of real files lead to one file.
use std::alloc::AllocError;
use std::fs;
use std::fs::{Files, Metadata};
use std::os::unix::fs::MetadataExt;
use std::path::{Path, PathBuf};

// As many links as Linux follows in a name.
const MOST_LINKS: usize = 40;

/// Whether two names lead to one file or directory: by device and inode where both are there; where neither is, by their
/// directories and last parts.
pub(crate) fn same_file(rt: &HostRuntime, one: &str, other: &str) -> bool {
    match (fs::metadata(rt, one), fs::metadata(rt, other)) {
        (Ok(one), Ok(other)) => is_one_file(&one, &other),
        (Err(_), Err(_)) => is_one_place(rt, one, other),
        _ => false,
    }
}

// A device, a pipe and a socket keep nothing that could be overwritten.
fn is_one_file(one: &Metadata, other: &Metadata) -> bool {
    (one.is_file() || one.is_dir()) && one.dev() == other.dev() && one.ino() == other.ino()
}

// Whether two files that are not there would be created in one place.
fn is_one_place(rt: &HostRuntime, one: &str, other: &str) -> bool {
    let (Ok(one), Ok(other)) = (behind_links(rt, one), behind_links(rt, other)) else {
        return false;
    };
    let (one, other) = (one.as_path(), other.as_path());
    one.file_name() == other.file_name() && is_one_directory(rt, one, other)
}

// A link may lead to a file that is not there: a create makes that one.
fn behind_links(rt: &HostRuntime, name: &str) -> Result<PathBuf, AllocError> {
    let mut path = PathBuf::from_str(rt.alloc(), name)?;
    for _ in 0..MOST_LINKS {
        let Ok(target) = rt.read_link(rt.alloc(), path.as_str()) else {
            return Ok(path);
        };
        path.pop();
        path.push(target.as_str())?;
    }
    Ok(path)
}

fn is_one_directory(rt: &HostRuntime, one: Path<'_>, other: Path<'_>) -> bool {
    match (
        fs::metadata(rt, directory(one)),
        fs::metadata(rt, directory(other)),
    ) {
        (Ok(one), Ok(other)) => is_one_file(&one, &other),
        _ => false,
    }
}

fn directory(path: Path<'_>) -> &str {
    match path.parent() {
        Some(parent) if !parent.as_str().is_empty() => parent.as_str(),
        _ => ".",
    }
}

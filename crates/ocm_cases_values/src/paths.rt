ghost use Rattle.std.specs.Prelude.{◌≤◌, length};
ghost use Rattle.ocm_limits.specs.Limits.{most_asked_path_bytes};
ghost use Rattle.ocm_path.specs.Paths.{path_text};

use crate::texts::shown;
use ocm_base::{NoMemory, Text};
use ocm_path::Path;
use std::alloc::Global;

/// The path's text and its escaped text, or the fault.
pub fn path_told(alloc: Global, text: &str) -> Option<String> {
    match Path::read(alloc, text) {
        Ok(path) => both_told(alloc, &path),
        Err(fault) => format!(in alloc; "{fault:?}").ok(),
    }
}

fn both_told(alloc: Global, path: &Path) -> Option<String> {
    match path.text() {
        Ok(text) => with_escaped(alloc, text, path.escaped()),
        Err(NoMemory) => None,
    }
}

fn with_escaped(alloc: Global, text: Text, escaped: Result<Text, NoMemory>) -> Option<String> {
    match escaped {
        Ok(escaped) => format!(in alloc; "{} {}", text.as_str(), escaped.as_str()).ok(),
        Err(NoMemory) => None,
    }
}

/// The text of the second path below the first.
pub fn join_told(alloc: Global, text: &str) -> Option<String> {
    let (above, below) = text.split_once(' ')?;
    match Path::read(alloc, above) {
        Ok(above) => joined_told(alloc, above, below),
        Err(_) => None,
    }
}

fn joined_told(alloc: Global, above: Path, below: &str) -> Option<String>
    requires { length (path_text above) ≤ most_asked_path_bytes }
{
    let joined = match Path::read(alloc, below) {
        Ok(below) => above.join(&below),
        Err(_) => Err(NoMemory),
    };
    drop(above);
    made_told(alloc, joined)
}

fn made_told(alloc: Global, path: Result<Path, NoMemory>) -> Option<String> {
    match path {
        Ok(path) => shown(alloc, path.text()),
        Err(NoMemory) => None,
    }
}

/// The text of the path above.
pub fn parent_told(alloc: Global, text: &str) -> Option<String> {
    match Path::read(alloc, text) {
        Ok(path) => made_told(alloc, path.parent()),
        Err(_) => None,
    }
}

/// Whether the first path is the second or stands above it.
pub fn above_told(alloc: Global, text: &str) -> Option<String> {
    let (above, below) = text.split_once(' ')?;
    match Path::read(alloc, above) {
        Ok(above) => stands_above(alloc, above, below),
        Err(_) => None,
    }
}

fn stands_above(alloc: Global, above: Path, below: &str) -> Option<String> {
    let is = match Path::read(alloc, below) {
        Ok(below) => Some(below.starts_with(&above)),
        Err(_) => None,
    };
    drop(above);
    yes_or_no(alloc, is?)
}

/// Whether a copy of the path is the same path.
pub fn copy_told(alloc: Global, text: &str) -> Option<String> {
    match Path::read(alloc, text) {
        Ok(path) => same_told(alloc, path),
        Err(_) => None,
    }
}

fn same_told(alloc: Global, path: Path) -> Option<String> {
    let is = match path.copy() {
        Ok(copy) => Some(copy == path),
        Err(NoMemory) => None,
    };
    drop(path);
    yes_or_no(alloc, is?)
}

fn yes_or_no(alloc: Global, is: bool) -> Option<String> {
    String::from_str(alloc, if is { "yes" } else { "no" }).ok()
}

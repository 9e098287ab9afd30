//! The asks that steps name.
ghost use Rattle.std.specs.Prelude.{IfSome, IsTrue};
ghost use Rattle.ocm_entry.specs.Proper.{is_body_of, is_proper, is_short};

use ocm_base::{Bytes, and};
use ocm_entry::{Ask, Cmd, Method};
use ocm_path::Path;
use ocm_types::{Address, Fresh, Name, Perms, Secret};
use std::alloc::Global;

/// The digits that a word stands for.
fn digits_of(word: &str) -> &str {
    match word {
        "A" => "aaaaaaaaaaaaaaaaaaaaaaaaaaaaaaaa",
        "C" => "cccccccccccccccccccccccccccccccc",
        "E" => "eeeeeeeeeeeeeeeeeeeeeeeeeeeeeeee",
        "W" => "55555555555555555555555555555555",
        "S1" => "000102030405060708090a0b0c0d0e0f",
        "S2" => "101112131415161718191a1b1c1d1e1f",
        _ => word,
    }
}

/// The ask of a step.
pub fn ask_of(alloc: Global, kind: &str, row: &str) -> Option<Ask>
    ensures { IfSome result (λ ask. IsTrue (is_proper ask)) }
{
    match kind {
        "user" => user(alloc, row),
        "put" => put(alloc, row),
        "mkcol" => request(alloc, Method::Mkcol, row, Bytes::new(alloc)),
        "delete" => request(alloc, Method::Delete, row, Bytes::new(alloc)),
        "get" => request(alloc, Method::Get, row, Bytes::new(alloc)),
        "share" => share(alloc, row),
        "unshare" => unshare(alloc, row),
        "list" => list(alloc, row),
        "tick" => tick(row),
        _ => None,
    }
}

fn tick(row: &str) -> Option<Ask>
    ensures { IfSome result (λ ask. IsTrue (is_proper ask)) }
{
    Some(Ask::Tick {
        clock: row.parse().ok()?,
    })
}

fn user(alloc: Global, row: &str) -> Option<Ask>
    ensures { IfSome result (λ ask. IsTrue (is_proper ask)) }
{
    let (name, fresh) = row.split_once(' ')?;
    let fresh = Fresh::read(digits_of(fresh))?;
    match Name::read(alloc, name) {
        Ok(name) => Some(Ask::AddUser { name, fresh }),
        Err(_) => None,
    }
}

/// A key and a path, `KEY PATH`.
fn key_and_path(alloc: Global, row: &str) -> Option<(Secret, Path)>
    ensures { IfSome result (λ both. IsTrue (is_short both.1)) }
{
    let (key, path) = row.split_once(' ')?;
    let key = Secret::read(alloc, digits_of(key)).ok()?;
    and(key, Path::read(alloc, path)).ok()
}

/// A request for files, `KEY PATH`.
fn request(alloc: Global, method: Method, row: &str, body: Bytes) -> Option<Ask>
    requires { IsTrue (is_body_of method body) }
    ensures { IfSome result (λ ask. IsTrue (is_proper ask)) }
{
    match key_and_path(alloc, row) {
        Some((secret, path)) => Some(Ask::Dav {
            secret,
            method,
            path,
            body,
        }),
        None => {
            drop(body);
            None
        }
    }
}

/// PUT of a text so often, `KEY PATH COUNT TEXT`.
fn put(alloc: Global, row: &str) -> Option<Ask>
    ensures { IfSome result (λ ask. IsTrue (is_proper ask)) }
{
    let (row, text) = row.rsplit_once(' ')?;
    let (row, count) = row.rsplit_once(' ')?;
    let whole = text.repeat(alloc, count.parse().ok()?).ok()?;
    let body = Bytes::of(alloc, whole.as_bytes());
    drop(whole);
    match body {
        Ok(body) => request(alloc, Method::Put, row, body),
        Err(_) => None,
    }
}

/// A share of what stands at a path, `KEY PATH WITH PERMS F`.
fn share(alloc: Global, row: &str) -> Option<Ask>
    ensures { IfSome result (λ ask. IsTrue (is_proper ask)) }
{
    let (row, fresh) = row.rsplit_once(' ')?;
    let (row, perms) = row.rsplit_once(' ')?;
    let (row, with) = row.rsplit_once(' ')?;
    let fresh = Fresh::read(digits_of(fresh))?;
    let perms = Perms::read_list(perms)?;
    match and(key_and_path(alloc, row)?, Address::read(alloc, with)) {
        Ok(((key, path), with)) => Some(Ask::Local {
            key,
            cmd: Cmd::Share {
                path,
                with,
                perms,
                fresh,
            },
        }),
        Err(_) => None,
    }
}

/// The end of a share, `KEY NUMBER`.
fn unshare(alloc: Global, row: &str) -> Option<Ask>
    ensures { IfSome result (λ ask. IsTrue (is_proper ask)) }
{
    let (key, id) = row.split_once(' ')?;
    let id = id.parse().ok()?;
    match Secret::read(alloc, digits_of(key)) {
        Ok(key) => Some(Ask::Local {
            key,
            cmd: Cmd::Unshare { id },
        }),
        Err(_) => None,
    }
}

/// What a user has, `KEY`.
fn list(alloc: Global, row: &str) -> Option<Ask>
    ensures { IfSome result (λ ask. IsTrue (is_proper ask)) }
{
    match Secret::read(alloc, digits_of(row)) {
        Ok(key) => Some(Ask::Local {
            key,
            cmd: Cmd::List,
        }),
        Err(_) => None,
    }
}

//! Asks as words.
use ocm_entry::{Ask, Cmd, Method};
use ocm_path::Path;
use ocm_types::{Name, Offer, Secret};
use std::alloc::Global;

/// What is asked. Of an offer its name and its secret are told, and of a notification nothing.
pub fn ask_told(alloc: Global, ask: &Ask) -> Option<String> {
    match ask {
        Ask::AddUser { name, fresh: _ } => user_told(alloc, name),
        Ask::Local { key, cmd } => local_told(alloc, key, cmd),
        Ask::Offer { offer } => offer_told(alloc, offer),
        Ask::Notice {
            notice: _,
            fresh: _,
        } => String::from_str(alloc, "Notice").ok(),
        Ask::Dav {
            secret,
            method,
            path,
            body,
        } => dav_told(alloc, secret, *method, path, body.len()),
        _ => carry_told(alloc, ask),
    }
}

fn user_told(alloc: Global, name: &Name) -> Option<String> {
    format!(in alloc; "AddUser {}", name.as_str()).ok()
}

fn local_told(alloc: Global, key: &Secret, cmd: &Cmd) -> Option<String> {
    format!(in alloc; "Local {cmd:?} {}", key.as_str()).ok()
}

fn offer_told(alloc: Global, offer: &Offer) -> Option<String> {
    format!(in alloc; "Offer {} {}", offer.name.as_str(), offer.secret.as_str()).ok()
}

/// A request for files: its method, how many bytes its body has, its path and its secret.
fn dav_told(
    alloc: Global,
    secret: &Secret,
    method: Method,
    path: &Path,
    size: usize,
) -> Option<String> {
    match path.text() {
        Ok(path) => {
            format!(in alloc; "{method:?} {size} {} {}", path.as_str(), secret.as_str()).ok()
        }
        Err(_) => None,
    }
}

/// A copy or a move: whether it moves, whether it may overwrite, and both paths.
fn carry_told(alloc: Global, ask: &Ask) -> Option<String> {
    match ask {
        Ask::Carry {
            secret,
            from,
            to,
            moving,
            overwrite,
        } => carried_told(
            alloc,
            *moving,
            *overwrite,
            paths_told(alloc, from, to),
            secret,
        ),
        _ => None,
    }
}

fn carried_told(
    alloc: Global,
    moving: bool,
    overwrite: bool,
    paths: Option<String>,
    secret: &Secret,
) -> Option<String> {
    match paths {
        Some(paths) => {
            let secret = secret.as_str();
            format!(in alloc; "Carry {moving} {overwrite} {} {secret}", paths.as_str()).ok()
        }
        None => None,
    }
}

fn paths_told(alloc: Global, from: &Path, to: &Path) -> Option<String> {
    match from.text() {
        Ok(from) => with_path(alloc, from.as_str(), to),
        Err(_) => None,
    }
}

fn with_path(alloc: Global, front: &str, path: &Path) -> Option<String> {
    match path.text() {
        Ok(path) => format!(in alloc; "{front} {}", path.as_str()).ok(),
        Err(_) => None,
    }
}

use ocm_serve_options::{AdminKey, Orders, Peers, PlanFault, complaint_of, read_plan};
use std::alloc::Global;

/// The words between blanks.
fn words_of(alloc: Global, text: &str) -> Option<Vec<String>> {
    let mut words = Vec::new(alloc);
    for word in text.split(' ') {
        let word = String::from_str(alloc, word).ok()?;
        words.push(word).ok()?;
    }
    Some(words)
}

/// The orders of these words, told.
pub fn plan_told(alloc: Global, text: &str) -> Option<String> {
    let words = words_of(alloc, text)?;
    let orders = read_plan(alloc, &words);
    drop(words);
    match orders {
        Ok(orders) => told(alloc, &orders),
        Err(PlanFault::Usage) => String::from_str(alloc, "usage").ok(),
        Err(PlanFault::NoMemory) => None,
    }
}

/// What is wrong with these words, told, or `none`.
pub fn complaint_told(alloc: Global, text: &str) -> Option<String> {
    let words = words_of(alloc, text)?;
    let told = match complaint_of(alloc, &words) {
        Some(complaint) => format!(in alloc; "{complaint}").ok(),
        None => String::from_str(alloc, "none").ok(),
    };
    drop(words);
    told
}

/// The orders, told: the file of the log last, where there is to be one.
fn told(alloc: Global, orders: &Orders) -> Option<String> {
    let told = with_peers(alloc, told_without_log(alloc, orders)?, orders)?;
    match &orders.log {
        Some(path) => with_log(alloc, told, path.as_str()),
        None => Some(told),
    }
}

/// What was told, and behind it what is chosen of peers.
fn with_peers(alloc: Global, told: String, orders: &Orders) -> Option<String> {
    let peers = match orders.peers {
        Peers::Public => "",
        Peers::Private => " peers private",
    };
    let line = format!(in alloc; "{}{peers}", told.as_str());
    drop(told);
    line.ok()
}

/// What was told, and the file of the log behind it.
fn with_log(alloc: Global, told: String, path: &str) -> Option<String> {
    let line = format!(in alloc; "{} log {path}", told.as_str());
    drop(told);
    line.ok()
}

/// The orders, told, but for the log.
fn told_without_log(alloc: Global, orders: &Orders) -> Option<String> {
    let host = orders.host.as_str();
    let disk = orders.disk.as_str();
    let (mark, admin) = match &orders.admin {
        AdminKey::Key(key) => ("admin", key.as_str()),
        AdminKey::File(path) => ("admin file", path.as_str()),
    };
    let listen = orders.listen.as_str();
    let key_file = orders.key_file.as_str();
    let existing = if orders.existing { " existing" } else { "" };
    let workers = orders.workers;
    let connections = orders.connections;
    format!(in alloc;
        "host {host} disk {disk}{existing} {mark} {admin} listen {listen} workers {workers} key file {key_file} connections {connections}"
    ).ok()
}

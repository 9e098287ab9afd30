use ocm_base::{NoMemory, Text};
use ocm_types::{Address, Host, Name, Perms};
use std::alloc::Global;

/// The user and the host, or the fault.
pub fn address_told(alloc: Global, text: &str) -> Option<String> {
    match Address::read(alloc, text) {
        Ok(address) => parts_told(alloc, &address),
        Err(fault) => format!(in alloc; "{fault:?}").ok(),
    }
}

fn parts_told(alloc: Global, address: &Address) -> Option<String> {
    format!(in alloc; "{} {}", address.user.as_str(), address.host.as_str()).ok()
}

/// The text of the address whose own text this is.
pub fn own_address_told(alloc: Global, text: &str) -> Option<String> {
    match Address::read_canonical(alloc, text).ok()? {
        Some(address) => copy_told(alloc, &address),
        None => String::from_str(alloc, "none").ok(),
    }
}

fn copy_told(alloc: Global, address: &Address) -> Option<String> {
    match address.copy() {
        Ok(copy) => {
            let same = copy == *address;
            let text = copy.text(alloc);
            drop(copy);
            same_told(alloc, text, same)
        }
        Err(NoMemory) => None,
    }
}

fn same_told(alloc: Global, text: Result<Text, NoMemory>, same: bool) -> Option<String> {
    match text {
        Ok(text) => format!(in alloc; "{} {same}", text.as_str()).ok(),
        Err(NoMemory) => None,
    }
}

/// The host's own text, or the fault.
pub fn host_told(alloc: Global, text: &str) -> Option<String> {
    match Host::read(alloc, text) {
        Ok(host) => String::from_str(alloc, host.as_str()).ok(),
        Err(fault) => format!(in alloc; "{fault:?}").ok(),
    }
}

/// The text of the host whose own text this is.
pub fn own_host_told(alloc: Global, text: &str) -> Option<String> {
    match Host::read_canonical(alloc, text).ok()? {
        Some(host) => String::from_str(alloc, host.as_str()).ok(),
        None => String::from_str(alloc, "none").ok(),
    }
}

/// The name, or the fault.
pub fn name_told(alloc: Global, text: &str) -> Option<String> {
    match Name::read(alloc, text) {
        Ok(name) => String::from_str(alloc, name.as_str()).ok(),
        Err(fault) => format!(in alloc; "{fault:?}").ok(),
    }
}

/// The permissions' text.
pub fn perms_told(alloc: Global, text: &str) -> Option<String> {
    match Perms::read_list(text) {
        Some(perms) => shown(alloc, perms.text(alloc)),
        None => String::from_str(alloc, "none").ok(),
    }
}

/// A text that was made.
pub fn shown(alloc: Global, text: Result<Text, NoMemory>) -> Option<String> {
    match text {
        Ok(text) => String::from_str(alloc, text.as_str()).ok(),
        Err(NoMemory) => None,
    }
}

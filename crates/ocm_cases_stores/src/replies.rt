//! What replies tell.
use ocm_entry::Reply;
use std::alloc::Global;

/// A reply in short: its status, and what belongs to it. None for those that no step gets.
pub fn reply_told(alloc: Global, reply: &Reply) -> Option<String> {
    let told = match reply {
        Reply::Key { .. } => "201 key",
        Reply::Created => "201",
        Reply::Done | Reply::Replaced | Reply::Removed => "204",
        Reply::JournalFull => "507 journal full",
        Reply::NoMemory => "500 no memory",
        Reply::File { body } => return file_told(alloc, body.as_slice()),
        _ => return number_told(alloc, reply),
    };
    String::from_str(alloc, told).ok()
}

fn number_told(alloc: Global, reply: &Reply) -> Option<String> {
    match reply {
        Reply::Number { number } => format!(in alloc; "201 number {number}").ok(),
        Reply::Listing { lines } => format!(in alloc; "200 {}", lines.as_slice().len()).ok(),
        Reply::Refused { why } => format!(in alloc; "{} {}", why.status(), why.message()).ok(),
        Reply::DiskFault { count } => format!(in alloc; "503 disk fault {count}").ok(),
        Reply::Stopped { count } => format!(in alloc; "503 stopped {count}").ok(),
        _ => None,
    }
}

/// How many bytes a file has, and its last one.
fn file_told(alloc: Global, body: &[u8]) -> Option<String> {
    match body.last() {
        Some(letter) => { format!(in alloc; "200 {} {}", body.len(), char::from(*letter)).ok() }
        None => String::from_str(alloc, "200 0").ok(),
    }
}

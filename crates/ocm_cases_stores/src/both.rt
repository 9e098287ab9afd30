//! What the plain program and the fast server replied.
use ocm_entry::Reply;
use std::alloc::Global;

/// What the plain program and the fast server replied, and whether the fast one changes something by it. None where
/// memory was wanting, or for a reply that no ask gets.
pub fn replies_told(alloc: Global, plain: &Reply, fast: &Reply, changes: bool) -> Option<String> {
    let plain = whole_told(alloc, plain)?;
    let told = whole_told(alloc, fast)?;
    if plain != told {
        return format!(in alloc; "DIFFER {plain} {told}").ok();
    }
    drop(plain);
    if changes {
        let kept = format!(in alloc; "kept {}", told.as_str());
        drop(told);
        kept.ok()
    } else {
        Some(told)
    }
}

/// All that a reply says to an ask of these, so that two with the same text are the same.
fn whole_told(alloc: Global, reply: &Reply) -> Option<String> {
    match reply {
        Reply::Key { key } => format!(in alloc; "Key {}", key.as_str()).ok(),
        Reply::Number { number } => format!(in alloc; "Number {number}").ok(),
        Reply::File { body } => file_told(alloc, body.as_slice()),
        Reply::Refused { why } => format!(in alloc; "{why:?}").ok(),
        _ => bare_told(alloc, reply),
    }
}

fn bare_told(alloc: Global, reply: &Reply) -> Option<String> {
    let told = match reply {
        Reply::Created => "Created",
        Reply::Replaced => "Replaced",
        Reply::Done => "Done",
        _ => return None,
    };
    String::from_str(alloc, told).ok()
}

fn file_told(alloc: Global, body: &[u8]) -> Option<String> {
    format!(in alloc; "File {}", str::from_utf8(body).ok()?).ok()
}

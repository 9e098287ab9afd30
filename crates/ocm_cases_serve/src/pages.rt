//! What was written on a connection.
use ocm_cases_rows::escaped;
use std::alloc::Global;

/// How many bytes are told whole at most.
const MOST: usize = 2_000;

/// What was written; where pages are named, ` | ` between two, how many of them it is, and whether a part of one more.
pub fn written_told(alloc: Global, written: &[u8], pages: &str) -> Option<String> {
    let text = escaped(alloc, written)?;
    if pages.is_empty() && written.len() <= MOST {
        return Some(text);
    }
    let told = parted_told(alloc, written.len(), text.as_str(), pages);
    drop(text);
    told
}

fn parted_told(alloc: Global, bytes: usize, text: &str, pages: &str) -> Option<String> {
    if pages.is_empty() {
        last_told(alloc, bytes, text)
    } else {
        counted_told(alloc, text, pages)
    }
}

/// How many bytes the pages have, and the last one.
fn last_told(alloc: Global, bytes: usize, text: &str) -> Option<String> {
    let (_, last) = text.rsplit_once("HTTP/1.1 ").unwrap_or(("", text));
    format!(in alloc; "{bytes} bytes, at last HTTP/1.1 {last}").ok()
}

fn counted_told(alloc: Global, written: &str, pages: &str) -> Option<String> {
    match whole_pages(written, pages) {
        Some((whole, is_all)) => {
            let part = if is_all { "" } else { " and a part" };
            format!(in alloc; "{whole} pages{part}").ok()
        }
        None => String::from_str(alloc, "other pages").ok(),
    }
}

/// How many of the pages were written, and whether nothing behind them. None where something else was written than a front
/// of all pages.
fn whole_pages(written: &str, pages: &str) -> Option<(u64, bool)> {
    let mut rest = written;
    let mut whole = 0u64;
    for page in pages.split(" | ") {
        match rest.strip_prefix(page) {
            Some(behind) => {
                rest = behind;
                whole = whole.saturating_add(1);
            }
            None => return front_of(rest, page, whole),
        }
    }
    front_of(rest, "", whole)
}

fn front_of(rest: &str, page: &str, whole: u64) -> Option<(u64, bool)> {
    if page.starts_with(rest) {
        Some((whole, rest.is_empty()))
    } else {
        None
    }
}

//! Words that stand for texts.
use ocm_cases_rows::cut;
use std::alloc::Global;

/// The line with the text of each name in place of its word. The names are rows `WORD TEXT`.
pub fn spelled(alloc: Global, names: &str, line: &str) -> Option<String> {
    let mut text = String::from_str(alloc, line).ok()?;
    for name in names.split('\n') {
        text = replaced(alloc, text, name)?;
    }
    Some(text)
}

/// The text of the name in place of its word.
fn replaced(alloc: Global, text: String, name: &str) -> Option<String> {
    if name.is_empty() {
        return Some(text);
    }
    let (word, with) = cut(name, " ");
    let spelled = text.as_str().replace(alloc, word, with);
    drop(text);
    spelled.ok()
}

/// Adds a name, `WORD TEXT`.
pub fn add_name(names: &mut String, row: &str) -> Option<()> {
    let parted = names.push_str("\n").ok();
    parted.and(names.push_str(row).ok())
}

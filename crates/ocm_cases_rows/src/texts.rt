//! Texts of rows, and what is told of them.

/// The row up to the first such mark, and what stands behind it; the whole row and nothing where there is no mark.
pub fn cut<'a>(row: &'a str, mark: &str) -> (&'a str, &'a str) {
    row.split_once(mark).unwrap_or((row, ""))
}

/// Adds what is told.
pub fn add(text: &mut String, told: Option<String>) -> Option<()> {
    let told = told?;
    let added = text.push_str(told.as_str());
    drop(told);
    added.ok()
}

/// What is told, and the end of the line.
pub fn line_of(told: Option<String>) -> Option<String> {
    let mut line = told?;
    let ended = line.push_str("\n").ok();
    ended.and(Some(line))
}

//! How rows write bytes that are no line.
use ocm_base::Bytes;
use std::alloc::Global;

/// The text of a row, where `\r` and `\n` stand for CR and LF. `FRONT|TIMES|MANY|BACK` stands for the front, so many
/// times the text behind the number, and the back.
pub fn stream_of(alloc: Global, row: &str) -> Option<String> {
    let whole = repeated(alloc, row)?;
    unescaped(alloc, whole.as_str())
}

fn repeated(alloc: Global, row: &str) -> Option<String> {
    match row.split_once('|') {
        Some((front, rest)) => {
            let (times, rest) = rest.split_once('|')?;
            let (many, back) = rest.split_once('|')?;
            joined(alloc, front, times.parse().ok()?, many, back)
        }
        None => String::from_str(alloc, row).ok(),
    }
}

fn joined(alloc: Global, front: &str, times: usize, many: &str, back: &str) -> Option<String> {
    let many = many.repeat(alloc, times).ok()?;
    format!(in alloc; "{front}{}{back}", many.as_str()).ok()
}

/// The text with CR and LF for `\r` and `\n`.
pub fn unescaped(alloc: Global, text: &str) -> Option<String> {
    let with_returns = text.replace(alloc, "\\r", "\r").ok()?;
    with_returns.as_str().replace(alloc, "\\n", "\n").ok()
}

/// The text of bytes, with `\r` and `\n` for CR and LF.
pub fn escaped(alloc: Global, bytes: &[u8]) -> Option<String> {
    let text = str::from_utf8(bytes).ok()?;
    let without_returns = text.replace(alloc, "\r", "\\r").ok()?;
    without_returns.as_str().replace(alloc, "\n", "\\n").ok()
}

/// The bytes of a row.
pub fn bytes_of(alloc: Global, row: &str) -> Option<Bytes> {
    let text = stream_of(alloc, row)?;
    let bytes = Bytes::of(alloc, text.as_bytes());
    drop(text);
    bytes.ok()
}

/// What is told of bytes that are a text: the words, and the text behind them.
pub fn named_told(alloc: Global, words: &str, bytes: Bytes) -> Option<String> {
    let text = str::from_utf8(bytes.as_slice()).unwrap_or("");
    let told = format!(in alloc; "{words} {text}");
    drop(bytes);
    told.ok()
}

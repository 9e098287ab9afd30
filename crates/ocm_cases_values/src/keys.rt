use ocm_base::{PureSource, hex_read};
use ocm_serve_options::{KeyFault, read_key};
use std::alloc::Global;

/// How many bytes are read at once.
const PIECE: usize = 3;

/// The administrator's key that a file of these bytes, in hex, holds, or `none`.
pub fn key_told(alloc: Global, hex: &str) -> Option<String> {
    let bytes = hex_read(alloc, hex).ok()?;
    match read_key(alloc, &mut PureSource::new(bytes, PIECE)) {
        Ok(key) => format!(in alloc; "key {}", key.as_str()).ok(),
        Err(KeyFault::NoKey) => String::from_str(alloc, "none").ok(),
        Err(_) => None,
    }
}

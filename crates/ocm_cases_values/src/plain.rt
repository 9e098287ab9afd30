use ocm_base::{Bytes, decimal_read, hex_of, hex_read};
use std::alloc::Global;

/// The bytes that hexadecimal digits spell, and the digits of those bytes, or the fault.
pub fn hex_told(alloc: Global, text: &str) -> Option<String> {
    match hex_read(alloc, text) {
        Ok(bytes) => bytes_told(alloc, &bytes),
        Err(fault) => format!(in alloc; "{fault:?}").ok(),
    }
}

fn bytes_told(alloc: Global, bytes: &Bytes) -> Option<String> {
    let digits = hex_of(alloc, bytes.as_slice()).ok()?;
    format!(in alloc; "{:?} {}", bytes.as_slice(), digits.as_str()).ok()
}

/// The number of decimal digits.
pub fn decimal_told(alloc: Global, text: &str) -> Option<String> {
    format!(in alloc; "{:?}", decimal_read(text)).ok()
}

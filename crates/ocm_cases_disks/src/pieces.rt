//! Bytes from words, and words for bytes.
use ocm_base::{Bytes, hex_read};
use ocm_cases_rows::digits_told;
use std::alloc::Global;

/// The digits that a word stands for.
fn digits_of(word: &str) -> &str {
    match word {
        "H" => "014f434d4a30303209612e6578616d706c65",
        "U" => "010005616c696365000102030405060708090a0b0c0d0e0f",
        "S" => "0000000000000000010005616c696365000102030405060708090a0b0c0d0e0f",
        _ => word,
    }
}

/// The bytes of these pieces, with a space between two.
pub fn bytes_of(alloc: Global, row: &str) -> Option<Bytes> {
    let mut bytes = Bytes::new(alloc);
    match add_each(alloc, &mut bytes, row) {
        Some(()) => Some(bytes),
        None => {
            drop(bytes);
            None
        }
    }
}

fn add_each(alloc: Global, bytes: &mut Bytes, row: &str) -> Option<()> {
    for piece in row.split(' ') {
        add_piece(alloc, bytes, piece)?;
    }
    Some(())
}

fn add_piece(alloc: Global, bytes: &mut Bytes, piece: &str) -> Option<()> {
    let (word, times) = piece.split_once('*').unwrap_or((piece, "1"));
    let times = times.parse().ok()?;
    let one = hex_read(alloc, digits_of(word)).ok()?;
    let added = add_times(bytes, one.as_slice(), times);
    drop(one);
    added
}

fn add_times(bytes: &mut Bytes, one: &[u8], times: u32) -> Option<()> {
    for _ in 0..times {
        bytes.add(one).ok()?;
    }
    Some(())
}

/// The digits of bytes. Where all are the same, and more than one, the digits of the first, `*`, and how many they are.
pub fn bytes_told(alloc: Global, bytes: &[u8]) -> Option<String> {
    match bytes {
        [first, _, ..] => {
            if bytes.iter().all(|byte| byte == first) {
                run_told(alloc, *first, bytes.len())
            } else {
                digits_told(alloc, bytes)
            }
        }
        _ => digits_told(alloc, bytes),
    }
}

fn run_told(alloc: Global, byte: u8, count: usize) -> Option<String> {
    format!(in alloc; "{byte:02x}*{count}").ok()
}

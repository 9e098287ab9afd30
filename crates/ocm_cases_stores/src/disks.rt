//! What is done to a disk while no store is on it.
ghost use Rattle.std.specs.Prelude.{◌≤◌, ◌^◌, length};

use ocm_base::{List, MemSink, hex_read};
use ocm_cases_rows::{add_bytes, digits_told};
use ocm_disk::{Disk, MemDisk};
use ocm_journal_audit::{AuditFault, audit};
use std::alloc::Global;

pub fn disk_told(alloc: Global, disk: &mut MemDisk, kind: &str, row: &str) -> Option<String> {
    match kind {
        "add" => add_digits(alloc, disk, row),
        "fill" => fill(alloc, disk, row),
        "cut" => cut(alloc, disk, row),
        "length" => length_told(alloc, disk),
        "bytes" => part_told(alloc, disk.bytes(), row),
        "audit" => audit_told(alloc, disk.bytes()),
        _ => None,
    }
}

fn add_digits(alloc: Global, disk: &mut MemDisk, digits: &str) -> Option<String> {
    match hex_read(alloc, digits) {
        Ok(bytes) => {
            let added = add_bytes(disk, bytes.as_slice());
            drop(bytes);
            added.and(length_told(alloc, disk))
        }
        Err(_) => None,
    }
}

/// Adds one byte so often, `DIGITS COUNT`.
fn fill(alloc: Global, disk: &mut MemDisk, row: &str) -> Option<String> {
    let (digits, count) = row.split_once(' ')?;
    let digits = digits.repeat(alloc, count.parse().ok()?).ok()?;
    let told = add_digits(alloc, disk, digits.as_str());
    drop(digits);
    told
}

/// Cuts the disk, and tells the length.
fn cut(alloc: Global, disk: &mut MemDisk, row: &str) -> Option<String> {
    let length = row.parse().ok()?;
    if length > disk.len() {
        return None;
    }
    disk.cut(length).ok()?;
    disk.sync().ok()?;
    length_told(alloc, disk)
}

fn length_told(alloc: Global, disk: &MemDisk) -> Option<String> {
    format!(in alloc; "{}", disk.len()).ok()
}

/// The digits of the bytes from one place up to another, `FROM TO`.
fn part_told(alloc: Global, bytes: &[u8], row: &str) -> Option<String> {
    let (from, to) = row.split_once(' ')?;
    digits_told(alloc, bytes.get(from.parse().ok()?..to.parse().ok()?)?)
}

/// What an audit tells, its lines joined by ` / `.
fn audit_told(alloc: Global, bytes: &[u8]) -> Option<String> {
    if bytes.len() > 1_000_000_000 {
        return None;
    }
    match MemSink::new(alloc, 4096, List::new(alloc), 4096) {
        Ok(sink) => audit_by(alloc, bytes, sink),
        Err(_) => None,
    }
}

fn audit_by(alloc: Global, bytes: &[u8], mut sink: MemSink) -> Option<String>
    requires { length bytes.now ≤ 2 ^ 62 }
{
    let answer = audit(alloc, bytes, &mut sink);
    let told = answer_told(alloc, answer, sink.bytes().as_slice());
    drop(sink);
    told
}

fn answer_told(alloc: Global, answer: Result<(), AuditFault>, written: &[u8]) -> Option<String> {
    match answer {
        Ok(()) => str::from_utf8(written)
            .ok()?
            .trim_end()
            .replace(alloc, "\n", " / ")
            .ok(),
        Err(fault) => format!(in alloc; "{fault}").ok(),
    }
}

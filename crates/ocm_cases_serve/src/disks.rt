//! Disks of rows.
use crate::gates::Gates;
use ocm_base::{Bytes, hex_read};
use ocm_cases_rows::{add_bytes, cut};
use ocm_disk::{GateDisk, MemDisk};
use std::alloc::Global;

/// A disk of a row, `BYTES FUSE` or `BYTES FUSE SYNCS`: of these bytes, with a fuse, and where so many syncs are named one that
/// then sets the gate `a`.
pub fn disk_of(alloc: Global, gates: &Gates, row: &str) -> Option<GateDisk> {
    let (image, row) = cut(row, " ");
    let (fuse, syncs) = cut(row, " ");
    let syncs: u64 = syncs.parse().unwrap_or(u64::MAX);
    let mut disk = MemDisk::new(alloc);
    let filled = fill(alloc, &mut disk, image);
    let fused = filled.and(set_fuse(&mut disk, fuse));
    match fused.and(Some(disk)).zip(gates.named("a")) {
        Some((disk, set)) => Some(GateDisk::new(disk, syncs.max(1), set)),
        None => None,
    }
}

fn set_fuse(disk: &mut MemDisk, fuse: &str) -> Option<()> {
    if fuse != "-" {
        disk.fuse(fuse.parse().ok()?);
    }
    Some(())
}

/// Writes bytes, all of them synced: `DIGITS*COUNT*DIGITS` with so many zeros between the two, or `-` for none.
fn fill(alloc: Global, disk: &mut MemDisk, row: &str) -> Option<()> {
    if row == "-" {
        return Some(());
    }
    let bytes = image_of(alloc, row)?;
    let filled = add_bytes(disk, bytes.as_slice());
    drop(bytes);
    filled
}

fn image_of(alloc: Global, row: &str) -> Option<Bytes> {
    let (head, rest) = cut(row, "*");
    let (zeros, area) = cut(rest, "*");
    let digits = digits_of(alloc, head, zeros.parse().ok()?, area)?;
    let image = hex_read(alloc, digits.as_str());
    drop(digits);
    image.ok()
}

fn digits_of(alloc: Global, head: &str, zeros: usize, area: &str) -> Option<String> {
    let zeros = "00".repeat(alloc, zeros).ok()?;
    let digits = format!(in alloc; "{head}{}{area}", zeros.as_str());
    drop(zeros);
    digits.ok()
}

//! Disks in memory.
ghost use Rattle.std.specs.Prelude.{◌≤◌, ◌^◌, IfSome};

use ocm_base::hex_of;
use ocm_disk::{Crash, Disk, MemDisk};
use std::alloc::Global;

/// How many bytes a disk may have before bytes are added, and how many are added at most.
const MOST: u64 = 3_000_000;

/// What a crash leaves: `old`, `new` or `torn`.
pub fn crash_of(word: &str) -> Option<Crash> {
    match word {
        "old" => Some(Crash::Old),
        "new" => Some(Crash::New),
        "torn" => Some(Crash::Torn),
        _ => None,
    }
}

/// How many bytes a journal may take.
pub fn limit_of(word: &str) -> Option<u64>
    ensures { IfSome result (λ limit. (4096 ≤ limit) × (limit ≤ 2 ^ 39)) }
{
    let limit = word.parse().ok()?;
    if 4096 <= limit && limit <= 549_755_813_888 {
        Some(limit)
    } else {
        None
    }
}

/// Adds bytes at the end of a disk, with a sync behind them.
pub fn add_bytes(disk: &mut MemDisk, bytes: &[u8]) -> Option<()> {
    let end = disk.len();
    let more = bytes.len() as u64;
    if end > MOST || more > MOST {
        return None;
    }
    disk.room(more).ok()?;
    disk.write_at(end, bytes).ok()?;
    disk.sync().ok()
}

/// The digits of bytes.
pub fn digits_told(alloc: Global, bytes: &[u8]) -> Option<String> {
    match hex_of(alloc, bytes) {
        Ok(digits) => {
            let told = String::from_str(alloc, digits.as_str());
            drop(digits);
            told.ok()
        }
        Err(_) => None,
    }
}

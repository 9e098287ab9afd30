//! What a caller of any disk learns from the trait.
ghost use Rattle.std.specs.Prelude.{◌≡◌, ◌<◌, ◌≤◌, ◌^◌, ◌∷◌, [], ℕ, List, OnOk, OnErr};
ghost use Rattle.ocm_base.specs.Outside.{Rose};
ghost use Rattle.ocm_disk.specs.Disk.{Only, Holds, Torn};

use ocm_base::Failed;
use ocm_disk::Disk;

/// Replaces one byte, with a sync behind it.
pub fn replace<D: Disk>(disk: &mut D, place: u64, byte: u8) -> Result<(), Failed>
    requires inside { place < D.size disk.old }
    requires small { place < 2 ^ 40 }
    requires settled { D.tells → Only (D.seen disk.old) (D.may_leave disk.old) }
    ensures replaced { D.tells → OnOk result (Holds (D.seen disk.old) place (byte ∷ []) (D.seen disk.new)) }
    ensures durable { D.tells → OnOk result (Only (D.seen disk.new) (D.may_leave disk.new)) }
    ensures afterwards { D.tells → (c : List ℕ) → D.may_leave disk.new c → Torn place 1 (D.seen disk.old) c }
    ensures rose { OnErr result (Rose (D.count disk.old) (D.count disk.new)) }
{
    disk.write_at(place, &[byte])?;
    disk.sync()?;
    Ok(())
}

/// Replaces one byte, with a sync before it and one behind it.
pub fn replace_between_syncs<D: Disk>(disk: &mut D, place: u64, byte: u8) -> Result<(), Failed>
    requires inside { place < D.size disk.old }
    requires small { place < 2 ^ 40 }
{
    disk.sync()?;
    replace(disk, place, byte)
}

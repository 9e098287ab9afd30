//! Writes that a crash may cut short.
ghost use Rattle.std.specs.Prelude.{◌≡◌, ◌<◌, ◌≤◌, ◌+◌, ◌^◌, ◌∷◌, [], ℕ, List, max, length, OnOk, OnErr, IsOk, IsErr};
ghost use Rattle.ocm_disk.specs.Disk.{Only, Holds, Torn, LeavesOnly, HasCause};
ghost use Rattle.ocm_journal.specs.Steps.{Switched, InSwitch, PutCutShort, SwitchCutShort};

use ocm_base::Failed;
use ocm_disk::Disk;

/// Writes a text, and then sees to it that it is on the disk.
pub fn put<D: Disk>(disk: &mut D, place: u64, text: &[u8]) -> Result<(), Failed>
    requires place { place ≤ D.size disk.old }
    requires end { place + length text.now ≤ 2 ^ 40 }
    ensures faithful { D.faithful disk.new → D.faithful disk.old }
    ensures written { D.tells → OnOk result (Holds (D.seen disk.old) place text.now (D.seen disk.new)) }
    ensures durable { D.tells → OnOk result (Only (D.seen disk.new) (D.may_leave disk.new)) }
    ensures any_moment { D.tells → Only (D.seen disk.old) (D.may_leave disk.old) → LeavesOnly D.moment D.left_since disk.old disk.new (Torn place (length text.now) (D.seen disk.old)) }
    ensures size { OnOk result (D.size disk.new ≡ max (D.size disk.old) (place + length text.now)) }
    ensures no_shorter { D.size disk.old ≤ D.size disk.new }
    ensures spare { D.size disk.old + D.spare disk.old ≤ D.size disk.new + D.spare disk.new }
    ensures calls { (n : ℕ) → D.burnt disk.old (n + 2) → OnOk result (D.burnt disk.new n) }
    ensures fewer { (n : ℕ) → n < 2 → D.burnt disk.old n → IsErr result }
    ensures passes { (n : ℕ) → D.passes disk.old (n + 2) → place + length text.now ≤ D.size disk.old + D.spare disk.old → IsOk result × D.passes disk.new n }
    ensures cut_short { D.tells → Only (D.seen disk.old) (D.may_leave disk.old) → (left : ℕ) → D.passes disk.old left → D.burnt disk.old left
        → place + length text.now ≤ D.size disk.old + D.spare disk.old → PutCutShort ⟦<D as Disk>⟧ left (D.seen disk.old) place text.now disk.new }
    ensures cause { HasCause (D.count disk.old) (D.count disk.new) result }
{
    disk.write_at(place, text)?;
    disk.sync()?;
    Ok(())
}

/// Writes a text, and when it is on the disk one byte elsewhere, which makes it count.
pub fn put_behind<D: Disk>(
    disk: &mut D,
    place: u64,
    text: &[u8],
    switch: u64,
    byte: u8,
) -> Result<(), Failed>
    requires place { place ≤ D.size disk.old }
    requires end { place + length text.now ≤ 2 ^ 40 }
    requires switch { switch < D.size disk.old }
    requires low { switch < 2 ^ 40 }
    ensures faithful { D.faithful disk.new → D.faithful disk.old }
    ensures switched { D.tells → OnOk result (Switched (D.seen disk.old) place text.now switch byte (D.seen disk.new)) }
    ensures durable { D.tells → OnOk result (Only (D.seen disk.new) (D.may_leave disk.new)) }
    ensures any_moment { D.tells → Only (D.seen disk.old) (D.may_leave disk.old) → LeavesOnly D.moment D.left_since disk.old disk.new (InSwitch (D.seen disk.old) place text.now switch) }
    ensures size { OnOk result (D.size disk.new ≡ max (D.size disk.old) (place + length text.now)) }
    ensures no_shorter { D.size disk.old ≤ D.size disk.new }
    ensures spare { D.size disk.old + D.spare disk.old ≤ D.size disk.new + D.spare disk.new }
    ensures calls { (n : ℕ) → D.burnt disk.old (n + 4) → OnOk result (D.burnt disk.new n) }
    ensures fewer { (n : ℕ) → n < 4 → D.burnt disk.old n → IsErr result }
    ensures passes { (n : ℕ) → D.passes disk.old (n + 4) → place + length text.now ≤ D.size disk.old + D.spare disk.old → IsOk result × D.passes disk.new n }
    ensures cut_short { D.tells → Only (D.seen disk.old) (D.may_leave disk.old) → (left : ℕ) → D.passes disk.old left → D.burnt disk.old left
        → place + length text.now ≤ D.size disk.old + D.spare disk.old → SwitchCutShort ⟦<D as Disk>⟧ left (D.seen disk.old) place text.now switch byte disk.new }
    ensures cause { HasCause (D.count disk.old) (D.count disk.new) result }
{
    put(disk, place, text)?;
    put(disk, switch, &[byte])
}

//! A disk: what a read returns, and what a crash may leave.

ghost use Rattle.std.specs.Prelude.{◌≡◌, ◌≤◌, ◌<◌, ◌+◌, ◌^◌, max, List, ℕ, length, take, drop, replicate, OnOk, OnErr, IsOk, IsErr};
ghost use Rattle.ocm_disk.specs.Disk.{Only, Follows, Torn, Cut, Holds, SameBut, Elapses, HasCause};

use ocm_base::{Failed, NoMemory};

/// A disk of bytes that may fail, and that a crash may leave torn.
///
/// Between two successful syncs a crash may leave any bytes in each range that was written or cut, and past the old
/// end; it leaves all else as it was. After a successful sync it leaves what a read returns. A write or a cut that
/// failed counts as made in part. Its device calls are `read_at`, `write_at`, `cut` and `sync`, and its clock moves
/// at these alone. Places and lengths are counted in bytes.
pub trait Disk: Drop {
    /// Whether disks of this type tell what they hold.
    ghost tells: { Type 0 };

    /// That each read so far gave what stood there. It is so of those in memory. What a file gives is the system's, and where
    /// it gives something else, the disk tells what it gave from then on.
    ghost faithful: { Self → Type 0 };

    /// The bytes that a read returns.
    ghost seen: { Self → List ℕ };

    /// How many bytes there are.
    ghost size: { Self → ℕ };

    /// The bytes as they stood at the last successful sync.
    ghost synced: { Self → List ℕ };

    /// The bytes that a read returns, with `ee` in place of each that was written since that sync.
    ghost torn: { Self → List ℕ };

    /// What a crash at this moment may leave.
    ghost may_leave: { Self → List ℕ → Type 0 };

    /// The moment, as a number that doesn't fall.
    ghost moment: { Self → ℕ };

    /// What a crash at some moment from that one on might have left, during a call or between two.
    ghost left_since: { Self → ℕ → List ℕ → Type 0 };

    /// How often the disk has failed.
    ghost count: { Self → ℕ };

    /// By how many bytes writes may lengthen the disk without memory.
    ghost spare: { Self → ℕ };

    /// That the next so many device calls pass, where writes stay within the room taken.
    ghost passes: { Self → ℕ → Type 0 };

    /// That the disk is burnt out after so many more device calls: each later one fails, and changes nothing.
    ghost burnt: { Self → ℕ → Type 0 };

    /// How many bytes there are. It is no device call.
    fn len(&self) -> u64
        ensures { result ≡ size self.now };

    /// How often the disk has failed. It is no device call.
    fn faults(&self) -> u64
        ensures { result ≡ count self.now };

    /// Takes memory for writes that lengthen the disk by so many bytes in all. It is no device call.
    fn room(&mut self, more: u64) -> Result<(), NoMemory>
        ensures room { OnOk result (more ≤ spare self.new) }
        ensures kept { spare self.old ≤ spare self.new }
        ensures faithful { faithful self.new → faithful self.old }
        ensures size { size self.new ≡ size self.old }
        ensures seen { seen self.new ≡ seen self.old }
        ensures synced { synced self.new ≡ synced self.old }
        ensures torn { torn self.new ≡ torn self.old }
        ensures crash { tells → (c : List ℕ) → may_leave self.new c → may_leave self.old c }
        ensures time { Elapses (moment self.old) (moment self.new) (left_since self.old) (left_since self.new) (may_leave self.new) }
        ensures passes { (n : ℕ) → passes self.old n → passes self.new n }
        ensures burnt { (n : ℕ) → burnt self.old n → burnt self.new n }
        ensures count { count self.new ≡ count self.old };

    /// Reads as many bytes as there is place for.
    fn read_at(&mut self, place: u64, buf: &mut [u8]) -> Result<(), Failed>
        requires { place + length buf.old ≤ size self.old }
        ensures bytes { tells → OnOk result (buf.new ≡ take (length buf.old) (drop place (seen self.new))) }
        ensures elsewhere { tells → SameBut place (length buf.old) (seen self.old) (seen self.new) }
        ensures faithful { faithful self.new → faithful self.old }
        ensures spare { spare self.old ≤ spare self.new }
        ensures size { size self.new ≡ size self.old }
        ensures seen { faithful self.new → seen self.new ≡ seen self.old }
        ensures synced { faithful self.new → synced self.new ≡ synced self.old }
        ensures torn { faithful self.new → torn self.new ≡ torn self.old }
        ensures crash { tells → faithful self.new → (c : List ℕ) → may_leave self.new c → may_leave self.old c }
        ensures settled { tells → Only (seen self.old) (may_leave self.old) → Only (seen self.new) (may_leave self.new) }
        ensures time { Elapses (moment self.old) (moment self.new) (left_since self.old) (left_since self.new) (may_leave self.new) }
        ensures passes { (n : ℕ) → passes self.old (n + 1) → IsOk result × passes self.new n }
        ensures burns { (n : ℕ) → burnt self.old (n + 1) → burnt self.new n }
        ensures burnt { burnt self.old 0 → IsErr result × burnt self.new 0 }
        ensures cause { HasCause (count self.old) (count self.new) result };

    /// Writes over what is there, and past the end.
    fn write_at(&mut self, place: u64, bytes: &[u8]) -> Result<(), Failed>
        requires place { place ≤ size self.old }
        requires end { place + length bytes.now ≤ 2 ^ 40 }
        ensures written { tells → OnOk result (Holds (seen self.old) place bytes.now (seen self.new)) }
        ensures in_part { tells → OnErr result (Torn place (length bytes.now) (seen self.old) (seen self.new)) }
        ensures faithful { faithful self.new → faithful self.old }
        ensures spare { size self.old + spare self.old ≤ size self.new + spare self.new }
        ensures size { OnOk result (size self.new ≡ max (size self.old) (place + length bytes.now)) }
        ensures no_shorter { size self.old ≤ size self.new }
        ensures no_longer { size self.new ≤ max (size self.old) (place + length bytes.now) }
        ensures synced { synced self.new ≡ synced self.old }
        ensures torn { tells → OnOk result (Holds (torn self.old) place (replicate (length bytes.now) 238) (torn self.new)) }
        ensures crash { tells → Follows (Torn place (length bytes.now)) (may_leave self.old) (may_leave self.new) }
        ensures time { Elapses (moment self.old) (moment self.new) (left_since self.old) (left_since self.new) (may_leave self.new) }
        ensures passes { (n : ℕ) → passes self.old (n + 1) → place + length bytes.now ≤ size self.old + spare self.old → IsOk result × passes self.new n }
        ensures burns { (n : ℕ) → burnt self.old (n + 1) → burnt self.new n }
        ensures burnt { burnt self.old 0 → IsErr result × burnt self.new 0 × (seen self.new ≡ seen self.old) × (torn self.new ≡ torn self.old) }
        // What would lengthen the disk beyond the room that was taken is a fault, where the disk tells what it holds.
        ensures beyond { tells → size self.old + spare self.old < place + length bytes.now → IsErr result }
        ensures cause { HasCause (count self.old) (count self.new) result };

    /// Cuts the disk to a length.
    fn cut(&mut self, len: u64) -> Result<(), Failed>
        requires { len ≤ size self.old }
        ensures size { OnOk result (size self.new ≡ len) }
        ensures no_shorter { len ≤ size self.new }
        ensures no_longer { size self.new ≤ size self.old }
        ensures cut { tells → OnOk result (seen self.new ≡ take len (seen self.old)) }
        ensures in_part { tells → OnErr result (Cut len (seen self.old) (seen self.new)) }
        ensures faithful { faithful self.new → faithful self.old }
        ensures spare { spare self.old ≤ spare self.new }
        ensures synced { synced self.new ≡ synced self.old }
        ensures torn { tells → OnOk result (torn self.new ≡ take len (torn self.old)) }
        ensures crash { tells → Follows (Cut len) (may_leave self.old) (may_leave self.new) }
        ensures time { Elapses (moment self.old) (moment self.new) (left_since self.old) (left_since self.new) (may_leave self.new) }
        ensures passes { (n : ℕ) → passes self.old (n + 1) → IsOk result × passes self.new n }
        ensures burns { (n : ℕ) → burnt self.old (n + 1) → burnt self.new n }
        ensures burnt { burnt self.old 0 → IsErr result × burnt self.new 0 × (seen self.new ≡ seen self.old) × (torn self.new ≡ torn self.old) }
        ensures cause { HasCause (count self.old) (count self.new) result };

    /// After it, a crash leaves what a read returns.
    fn sync(&mut self) -> Result<(), Failed>
        ensures durable { tells → OnOk result (Only (seen self.old) (may_leave self.new)) }
        ensures faithful { faithful self.new → faithful self.old }
        ensures spare { spare self.old ≤ spare self.new }
        ensures size { size self.new ≡ size self.old }
        ensures seen { seen self.new ≡ seen self.old }
        ensures synced { tells → OnOk result (synced self.new ≡ seen self.old) }
        ensures not_synced { OnErr result (synced self.new ≡ synced self.old) }
        ensures torn { tells → OnOk result (torn self.new ≡ seen self.old) }
        ensures still_torn { OnErr result (torn self.new ≡ torn self.old) }
        ensures crash { tells → (c : List ℕ) → may_leave self.new c → may_leave self.old c }
        ensures time { Elapses (moment self.old) (moment self.new) (left_since self.old) (left_since self.new) (may_leave self.new) }
        ensures passes { (n : ℕ) → passes self.old (n + 1) → IsOk result × passes self.new n }
        ensures burns { (n : ℕ) → burnt self.old (n + 1) → burnt self.new n }
        ensures burnt { burnt self.old 0 → IsErr result × burnt self.new 0 }
        ensures cause { HasCause (count self.old) (count self.new) result };

    /// What it tells has that size.
    ghost sizes: { (disk : Self) → tells → length (seen disk) ≡ size disk };

    /// A disk as it reads is one of its own crash images.
    ghost reads_an_image: { (disk : Self) → may_leave disk (seen disk) };

    /// So is what stood at the last successful sync.
    ghost synced_is_an_image: { (disk : Self) → may_leave disk (synced disk) };

    /// So is what reads with `ee` in each byte written since.
    ghost torn_is_an_image: { (disk : Self) → may_leave disk (torn disk) };

    /// This moment is one of those since an earlier one.
    ghost counts_now: { (disk : Self) (t : ℕ) (c : List ℕ) → t ≤ moment disk → may_leave disk c → left_since disk t c };

    /// Since this moment there is no other.
    ghost only_now: { (disk : Self) (c : List ℕ) → left_since disk (moment disk) c → may_leave disk c };
}

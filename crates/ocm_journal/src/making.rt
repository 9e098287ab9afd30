//! How a blank disk becomes an empty journal.
ghost use Rattle.std.specs.Prelude.{◌≡◌, ◌≤◌, ◌∷◌, [], List, ℕ, length, slice_index, OnOk, Some};
ghost use Rattle.ocm_disk.specs.Disk.{Only, LeavesOnly, HasCause};
ghost use Rattle.ocm_journal_image.specs.Blank.{blank_of, made_form};
ghost use Rattle.ocm_journal_image.specs.Layout.{IsLabel, IsAreaSize, IsForm, fresh};
ghost use Rattle.ocm_journal.specs.Openings.{Opens, BlankSize};
ghost use Rattle.ocm_journal.specs.Passing.{PassesWithDisk};

use crate::steps::put;
use ocm_base::Failed;
use ocm_disk::Disk;
use ocm_journal_image::Blank;

// Writes the first byte, which makes a journal of all that is written behind it.
pub(crate) fn finish<D: Disk>(disk: &mut D) -> Result<(), Failed>
    requires { D.size disk.old ≡ 514 }
    ensures faithful { D.faithful disk.new → D.faithful disk.old }
    ensures made { D.tells → (rest : List ℕ) (x : ℕ) → D.seen disk.old ≡ x ∷ rest → OnOk result (D.seen disk.new ≡ 1 ∷ rest) }
    ensures durable { D.tells → OnOk result (Only (D.seen disk.new) (D.may_leave disk.new)) }
    ensures any_moment { D.tells → Only (D.seen disk.old) (D.may_leave disk.old) → (label : List ℕ) (area form x : ℕ) → IsLabel label → IsAreaSize area → IsForm form
        → D.seen disk.old ≡ x ∷ fresh label area form → LeavesOnly D.moment D.left_since disk.old disk.new (Opens label area []) }
    ensures size { OnOk result (D.size disk.new ≡ 514) }
    ensures cause { HasCause (D.count disk.old) (D.count disk.new) result }
    ensures passes { PassesWithDisk ⟦<D as Disk>⟧ disk.old disk.new result }
{
    put(disk, 0, &[1])
}

// Writes the fresh bytes behind a first byte of 0.
pub(crate) fn go_on<D: Disk>(disk: &mut D, text: &[u8]) -> Result<(), Failed>
    requires some { 1 ≤ D.size disk.old }
    requires few { D.size disk.old ≤ 514 }
    requires text { length text.now ≡ 513 }
    ensures faithful { D.faithful disk.new → D.faithful disk.old }
    ensures made { D.tells → slice_index (D.seen disk.old) 0 ≡ 0 → OnOk result (D.seen disk.new ≡ 1 ∷ text.now) }
    ensures durable { D.tells → OnOk result (Only (D.seen disk.new) (D.may_leave disk.new)) }
    ensures any_moment { D.tells → Only (D.seen disk.old) (D.may_leave disk.old) → slice_index (D.seen disk.old) 0 ≡ 0 → (label : List ℕ) (area : ℕ) → IsLabel label → IsAreaSize area
        → text.now ≡ fresh label area 2 → LeavesOnly D.moment D.left_since disk.old disk.new (Opens label area []) }
    ensures size { OnOk result (D.size disk.new ≡ 514) }
    ensures cause { HasCause (D.count disk.old) (D.count disk.new) result }
    ensures passes { PassesWithDisk ⟦<D as Disk>⟧ disk.old disk.new result }
{
    put(disk, 1, text)?;
    finish(disk)
}

// Begins with the first byte.
pub(crate) fn begin<D: Disk>(disk: &mut D, text: &[u8]) -> Result<(), Failed>
    requires few { D.size disk.old ≤ 1 }
    requires text { length text.now ≡ 513 }
    ensures faithful { D.faithful disk.new → D.faithful disk.old }
    ensures made { D.tells → OnOk result (D.seen disk.new ≡ 1 ∷ text.now) }
    ensures durable { D.tells → OnOk result (Only (D.seen disk.new) (D.may_leave disk.new)) }
    ensures any_moment { D.tells → Only (D.seen disk.old) (D.may_leave disk.old) → (label : List ℕ) (area : ℕ) → IsLabel label → IsAreaSize area
        → text.now ≡ fresh label area 2 → LeavesOnly D.moment D.left_since disk.old disk.new (Opens label area []) }
    ensures size { OnOk result (D.size disk.new ≡ 514) }
    ensures cause { HasCause (D.count disk.old) (D.count disk.new) result }
    ensures passes { PassesWithDisk ⟦<D as Disk>⟧ disk.old disk.new result }
{
    put(disk, 0, &[0])?;
    go_on(disk, text)
}

// Writes what the making of a journal had not written yet. `text` are the fresh bytes of form 2.
pub(crate) fn make<D: Disk>(disk: &mut D, blank: Blank, text: &[u8]) -> Result<(), Failed>
    requires size { BlankSize blank (D.size disk.old) }
    requires text { length text.now ≡ 513 }
    ensures faithful { D.faithful disk.new → D.faithful disk.old }
    ensures made { D.tells → (label : List ℕ) (area : ℕ) → text.now ≡ fresh label area 2 → blank_of label area (D.seen disk.old) ≡ Some blank
        → OnOk result (D.seen disk.new ≡ 1 ∷ fresh label area (made_form blank)) }
    ensures durable { D.tells → OnOk result (Only (D.seen disk.new) (D.may_leave disk.new)) }
    ensures any_moment { D.tells → Only (D.seen disk.old) (D.may_leave disk.old) → (label : List ℕ) (area : ℕ) → IsLabel label → IsAreaSize area
        → text.now ≡ fresh label area 2 → blank_of label area (D.seen disk.old) ≡ Some blank → LeavesOnly D.moment D.left_since disk.old disk.new (Opens label area []) }
    ensures size { OnOk result (D.size disk.new ≡ 514) }
    ensures cause { HasCause (D.count disk.old) (D.count disk.new) result }
    ensures passes { PassesWithDisk ⟦<D as Disk>⟧ disk.old disk.new result }
{
    match blank {
        Blank::Empty => begin(disk, text),
        Blank::Begun => go_on(disk, text),
        Blank::Written(_) => finish(disk),
    }
}

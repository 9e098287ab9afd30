ghost use Rattle.std.specs.Prelude.{◌≡◌, ◌≤◌, ◌+◌, ◌∷◌, ◌++◌, ◌↔◌, [], length, replicate, vec_capacity, vec_len, IfOk, IsTrue, OnErr, OnOk};
ghost use Rattle.ocm_journal_image.specs.Layout.{AreRecords, area_text, blocks_size};

use ocm_texts::{Bytes, NoMemory};
use std::alloc::Global;
use std::marker::Model;

/// The form of the areas that are written.
const FORM: u8 = 2;

/// Records as they stand in an area of form 2: the form byte, and of each record its gate byte, its length in four bytes,
/// and its bytes. They have no memory besides. Contracts see the list of records.
pub struct AreaRecords {
    text: Vec<u8>,
}

impl Drop for AreaRecords {
    fn drop(self) {
        let AreaRecords { text: _ } = self;
    }
}

impl Model for AreaRecords {
    ghost use Rattle.std.specs.Prelude.{◌≡◌, ◌∷◌, List, ℕ};
    ghost use Rattle.ocm_journal_image.specs.Layout.{AreRecords, blocks};
    ghost use Rattle.ocm_journal_area.specs.Areas.{records_in};

    ghost Value = { List (List ℕ) };

    ghost view = { λ a. records_in a.text.items };

    ghost invariant = { λ a. AreRecords (records_in a.text.items) × (a.text.items ≡ 2 ∷ blocks (records_in a.text.items)) };
}

impl AreaRecords {
    /// No records. Takes memory for so many bytes of an area; what is longer grows.
    pub fn new(alloc: Global, room: usize) -> Result<AreaRecords, NoMemory>
        ensures { IfOk result (λ records. records ≡ []) }
    {
        let mut text = Vec::with_capacity(alloc, room.max(1))?;
        text.push(FORM)?;
        Ok(AreaRecords { text })
    }

    /// Adds a record of 1 to 2,097,152 bytes, which are those of these three pieces. Where there is no memory the records
    /// are as before.
    pub fn add(&mut self, front: &[u8], middle: &[u8], back: &[u8]) -> Result<(), NoMemory>
        requires some { 1 ≤ length front.now + length middle.now + length back.now }
        requires few { length front.now + length middle.now + length back.now ≤ 2097152 }
        ensures ok { OnOk result (self.new ≡ self.old ++ (front.now ++ middle.now ++ back.now) ∷ []) }
        ensures err { OnErr result (self.new ≡ self.old) }
    {
        let size = front.len() + middle.len() + back.len();
        self.text.reserve(size + 5)?;
        let text = &mut self.text;
        put(text, &[1]);
        put(text, &(size as u32).to_be_bytes());
        put(text, front);
        put(text, middle);
        put(text, back);
        Ok(())
    }

    /// Whether an area of this size has room for the records. Each has a size that a journal takes.
    pub fn fits(&self, area: u64) -> bool
        ensures fits { IsTrue result ↔ 2 + blocks_size self.now ≤ area }
        ensures sizes { AreRecords self.now }
    {
        (self.text.len() as u64) < area
    }

    /// So many zeros, and then an area of form 2 up to the byte behind its last record. The records are not copied, but
    /// moved on where there are zeros.
    pub fn into_text(self, before: usize) -> Result<Bytes, NoMemory>
        ensures { IfOk result (λ text. text ≡ replicate before 0 ++ area_text 2 self 0) }
    {
        let AreaRecords { mut text } = self;
        text.push(0)?;
        let Some(size) = text.len().checked_add(before) else {
            return Err(NoMemory);
        };
        text.resize(size, 0)?;
        text.rotate_right(before);
        Ok(Bytes::from_vec(text))
    }
}

/// Adds bytes for which there is room.
fn put(text: &mut Vec<u8>, piece: &[u8])
    requires { vec_len text.old + length piece.now ≤ vec_capacity text.old }
    ensures items { text.new.items ≡ text.old.items ++ piece.now }
    ensures capacity { vec_capacity text.old ≤ vec_capacity text.new }
{
    match text.extend_from_slice(piece) {
        Ok(()) => {}
        Err(_) => unreachable!(),
    }
}

//! Records that are kept, one behind another in one piece of memory.
ghost use Rattle.std.specs.Prelude.{◌≡◌, ◌∷◌, ◌++◌, [], length, take, OnOk, IfOk, MatchOption};
ghost use Rattle.std.specs.Int.{w64, from_be_bytes};
ghost use Rattle.ocm_history_records.specs.Packed.{mark_size, record_at};

use crate::kept::KeptRecord;
use crate::views::{KeptView, Kind};
use ocm_base::NoMemory;
use std::alloc::Global;
use std::marker::Model;

/// How a record lies among the bytes of a block: of which kind it is, and how many bytes it has there.
#[derive(Clone, Copy)]
pub(crate) enum Mark {
    /// That of a tick: its clock in eight bytes, big-endian.
    Tick,
    /// That of a PUT.
    Put(u32),
    /// That of any other ask.
    Other(u32),
}

impl Mark {
    /// How many bytes its record has.
    pub(crate) fn size(self) -> usize
        ensures { result ≡ mark_size self }
    {
        match self {
            Mark::Tick => 8,
            Mark::Put(size) | Mark::Other(size) => size as usize,
        }
    }

    /// The record that has this mark and these bytes.
    pub(crate) fn read(self, bytes: &[u8]) -> KeptView<'_>
        requires { mark_size self ≡ length bytes.now }
        ensures { result ≡ record_at self bytes.now }
    {
        match self {
            Mark::Tick => KeptView::new(Kind::Tick(clock_in(bytes)), &[]),
            Mark::Put(_) => KeptView::new(Kind::Put, bytes),
            Mark::Other(_) => KeptView::new(Kind::Other, bytes),
        }
    }
}

/// The number that eight bytes are, big-endian.
fn clock_in(bytes: &[u8]) -> u64
    requires { length bytes.now ≡ 8 }
    ensures { result ≡ from_be_bytes w64 (take 8 bytes.now) }
{
    let [a, b, c, d, e, f, g, h] = [
        bytes[0], bytes[1], bytes[2], bytes[3], bytes[4], bytes[5], bytes[6], bytes[7],
    ];
    u64::from_be_bytes([a, b, c, d, e, f, g, h])
}

/// Records that are kept, the oldest first. Contracts see them as a list.
pub(crate) struct Block {
    marks: Vec<Mark>,
    text: Vec<u8>,
}

impl Drop for Block {
    fn drop(self) {
        let Block { marks: _, text: _ } = self;
    }
}

impl Model for Block {
    ghost use Rattle.std.specs.Prelude.{◌≡◌, List, length};
    ghost use Rattle.ocm_history_records.specs.declared.kept.KeptRecord.{KeptRecord};
    ghost use Rattle.ocm_history_records.specs.Packed.{marks_size, unpacked};

    ghost Value = { List KeptRecord };

    ghost view = { λ b. unpacked b.marks.items b.text.items };

    ghost invariant = { λ b. marks_size b.marks.items ≡ length b.text.items };
}

impl Block {
    /// A block of copies of these records.
    pub(crate) fn of(alloc: Global, records: &[KeptRecord]) -> Result<Block, NoMemory>
        ensures { IfOk result (λ block. block ≡ records.now) }
    {
        let mut block = Block {
            marks: Vec::with_capacity(alloc, records.len())?,
            text: Vec::with_capacity(alloc, text_size(records))?,
        };
        for record in records {
            block.add(record)?;
        }
        Ok(block)
    }

    /// One record more.
    fn add(&mut self, kept: &KeptRecord) -> Result<(), NoMemory>
        ensures { OnOk result (self.new ≡ self.old ++ kept.now ∷ []) }
    {
        match kept {
            KeptRecord::Tick(clock) => self.add_bytes(Mark::Tick, &clock.to_be_bytes()),
            KeptRecord::Put(front) => {
                let front = front.as_slice();
                self.add_bytes(Mark::Put(size_of(front)?), front)
            }
            KeptRecord::Other(text) => {
                let text = text.as_slice();
                self.add_bytes(Mark::Other(size_of(text)?), text)
            }
        }
    }

    /// One record more, which has this mark and these bytes.
    fn add_bytes(&mut self, mark: Mark, bytes: &[u8]) -> Result<(), NoMemory>
        requires { mark_size mark ≡ length bytes.now }
        ensures { OnOk result (self.new ≡ self.old ++ record_at mark bytes.now ∷ []) }
    {
        self.marks.reserve(1)?;
        self.text.extend_from_slice(bytes)?;
        self.marks.push_reserved(mark);
        Ok(())
    }
}

/// How many bytes these records have together, for which room is taken.
fn text_size(records: &[KeptRecord]) -> usize {
    let mut size: usize = 0;
    for record in records {
        size = size.saturating_add(match record {
            KeptRecord::Tick(_) => 8,
            KeptRecord::Put(bytes) | KeptRecord::Other(bytes) => bytes.len(),
        });
    }
    size
}

/// How many bytes these are. Those of 4 GiB and more find no memory.
fn size_of(bytes: &[u8]) -> Result<u32, NoMemory>
    ensures { IfOk result (λ size. size ≡ length bytes.now) }
{
    match u32::try_from(bytes.len()) {
        Ok(size) => Ok(size),
        Err(_) => Err(NoMemory),
    }
}

/// The marks and the bytes of the records of blocks that are still to be read: those of the rest of a block.
#[derive(Drop)]
pub(crate) struct BlockLeft<'a> {
    marks: &'a [Mark],
    text: &'a [u8],
}

impl<'a> Model for BlockLeft<'a> {
    ghost use Rattle.std.specs.Prelude.{◌≡◌, List, length};
    ghost use Rattle.ocm_history_records.specs.declared.kept.KeptRecord.{KeptRecord};
    ghost use Rattle.ocm_history_records.specs.Packed.{marks_size, unpacked};

    ghost Value = { List KeptRecord };

    ghost view = { λ l. unpacked l.marks.now l.text.now };

    ghost invariant = { λ l. marks_size l.marks.now ≡ length l.text.now };
}

impl<'a> BlockLeft<'a> {
    /// Nothing is left.
    pub(crate) fn none() -> BlockLeft<'a>
        ensures { result ≡ [] }
    {
        BlockLeft {
            marks: &[],
            text: &[],
        }
    }

    /// All of a block are left.
    pub(crate) fn of(block: &'a Block) -> BlockLeft<'a>
        ensures { result ≡ block.now }
    {
        BlockLeft {
            marks: block.marks.as_slice(),
            text: block.text.as_slice(),
        }
    }

    /// The next record. None where none is left.
    pub(crate) fn next(&mut self) -> Option<KeptView<'a>>
        ensures { MatchOption result ((self.old ≡ []) × (self.new ≡ [])) (λ kept. self.old ≡ kept ∷ self.new) }
    {
        let [mark, marks @ ..] = self.marks else {
            return None;
        };
        let (bytes, text) = self.text.split_at(mark.size());
        self.marks = marks;
        self.text = text;
        Some(mark.read(bytes))
    }
}

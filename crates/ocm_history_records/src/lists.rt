//! What is kept of all entries.
ghost use Rattle.std.specs.Prelude.{◌≡◌, ◌<◌, ◌≤◌, ◌+◌, ◌∷◌, ◌++◌, [], length, if◌then◌else◌, OnOk, MatchOption};
ghost use Rattle.ocm_history_records.specs.Kept.{is_tick_record};
ghost use Rattle.ocm_history_records.specs.Packed.{all_of};

use crate::blocks::{Block, BlockLeft};
use crate::kept::KeptRecord;
use crate::views::KeptView;
use ocm_base::NoMemory;
use std::alloc::Global;
use std::marker::Model;

/// How many of the newest records have memory of their own. As soon as there are so many they go into a block together.
const MOST_NEWEST: usize = 1_024;

/// How many records lie in blocks at most.
const MOST_IN_BLOCKS: u64 = 1 << 62;

/// What is kept of all entries, the oldest first.
pub struct KeptRecords {
    blocks: Vec<Block>,
    /// How many records lie in the blocks.
    in_blocks: u64,
    newest: Vec<KeptRecord>,
    asks: u64,
    size: u64,
}

impl Drop for KeptRecords {
    fn drop(self) {
        let KeptRecords {
            blocks: _,
            in_blocks: _,
            newest: _,
            asks: _,
            size: _,
        } = self;
    }
}

impl Model for KeptRecords {
    ghost use Rattle.std.specs.Prelude.{◌≡◌, ◌-◌, ◌≤◌, ◌^◌, ◌++◌, length, vec_capacity, vec_len};
    ghost use Rattle.ocm_history_records.specs.Kept.{KeptState};
    ghost use Rattle.ocm_history_records.specs.Packed.{all_of};

    ghost Value = { KeptState };

    ghost view = { λ k. record { items = all_of k.blocks.items ++ k.newest.items; asks = k.asks; size = k.size; room = vec_capacity k.newest - vec_len k.newest } };

    ghost invariant = { λ k. (k.in_blocks ≡ length (all_of k.blocks.items)) × (k.in_blocks ≤ 2 ^ 62) × (k.asks ≤ length (all_of k.blocks.items ++ k.newest.items)) };
}

impl KeptRecords {
    /// Nothing is kept yet.
    pub fn new(alloc: Global) -> KeptRecords
        ensures items { result.items ≡ [] }
        ensures asks { result.asks ≡ 0 }
        ensures size { result.size ≡ 0 }
    {
        KeptRecords {
            blocks: Vec::new(alloc),
            in_blocks: 0,
            newest: Vec::new(alloc),
            asks: 0,
            size: 0,
        }
    }

    /// The allocator that it grows by.
    pub fn allocator(&self) -> Global {
        *self.newest.allocator()
    }

    /// All records, the oldest first, to be read one after another.
    pub fn left(&self) -> KeptLeft<'_>
        ensures { result ≡ self.now.items }
    {
        KeptLeft {
            block: BlockLeft::none(),
            blocks: self.blocks.as_slice(),
            newest: self.newest.as_slice(),
        }
    }

    /// How many there are that are of no tick.
    pub fn asks(&self) -> u64
        ensures { result ≡ self.now.asks }
    {
        self.asks
    }

    /// How many bytes of an area those take at most that are of no tick, in the shortest form of the journal. The
    /// count ends at 2^64 - 1.
    pub fn size(&self) -> u64
        ensures { result ≡ self.now.size }
    {
        self.size
    }

    /// Takes the memory for one record more.
    pub fn room(&mut self) -> Result<(), NoMemory>
        ensures room { OnOk result (0 < self.new.room) }
        ensures few { OnOk result (length self.new.items < 18446744073709551615) }
        ensures items { self.new.items ≡ self.old.items }
        ensures asks { self.new.asks ≡ self.old.asks }
        ensures size { self.new.size ≡ self.old.size }
    {
        if self.newest.len() >= MOST_NEWEST {
            self.pack()?;
        }
        self.newest.reserve(1)?;
        let _capacity = self.newest.capacity();
        Ok(())
    }

    /// Puts the newest records into a block.
    fn pack(&mut self) -> Result<(), NoMemory>
        ensures items { self.new.items ≡ self.old.items }
        ensures asks { self.new.asks ≡ self.old.asks }
        ensures size { self.new.size ≡ self.old.size }
    {
        let count = self.newest.len() as u64;
        if count > MOST_IN_BLOCKS - self.in_blocks {
            return Err(NoMemory);
        }
        let block = Block::of(self.allocator(), self.newest.as_slice())?;
        self.blocks.push(block)?;
        self.in_blocks += count;
        self.newest.clear();
        Ok(())
    }

    /// One record more, for which there is room. Those of no tick take at most so many bytes with it.
    pub fn push(&mut self, kept: KeptRecord, size: u64)
        requires { 0 < self.old.room }
        ensures items { self.new.items ≡ self.old.items ++ kept ∷ [] }
        ensures asks { self.new.asks ≡ self.old.asks + (if is_tick_record kept then 0 else 1) }
        ensures size { self.new.size ≡ size }
    {
        let _capacity = self.newest.capacity();
        if !kept.is_tick() {
            self.asks += 1;
        }
        self.size = size;
        self.newest.push_reserved(kept);
    }
}

/// The records that are still to be read of those that are kept, the oldest first. Contracts see them as a list.
#[derive(Drop)]
pub struct KeptLeft<'a> {
    block: BlockLeft<'a>,
    blocks: &'a [Block],
    newest: &'a [KeptRecord],
}

impl<'a> Model for KeptLeft<'a> {
    ghost use Rattle.std.specs.Prelude.{◌++◌, List};
    ghost use Rattle.ocm_history_records.specs.declared.kept.KeptRecord.{KeptRecord};
    ghost use Rattle.ocm_history_records.specs.Packed.{all_of};

    ghost Value = { List KeptRecord };

    ghost view = { λ l. l.block ++ all_of l.blocks.now ++ l.newest.now };
}

impl<'a> KeptLeft<'a> {
    /// The next record. None where none is left.
    pub fn next(&mut self) -> Option<KeptView<'a>>
        ensures { MatchOption result ((self.old ≡ []) × (self.new ≡ [])) (λ kept. self.old ≡ kept ∷ self.new) }
    {
        loop {
            if let Some(kept) = self.block.next() {
                return Some(kept);
            }
            let [block, blocks @ ..] = self.blocks else {
                let [kept, newest @ ..] = self.newest else {
                    return None;
                };
                self.newest = newest;
                return Some(kept.view());
            };
            self.block = BlockLeft::of(block);
            self.blocks = blocks;
        }
    }
}

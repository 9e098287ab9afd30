ghost use Rattle.std.specs.Prelude.{◌≡◌, ◌≤◌, ◌∷◌, [], ◌++◌, drop, length, IfOk};
ghost use Rattle.std.specs.Int.{w32, to_be_bytes};
ghost use Rattle.ocm_journal_image.specs.Layout.{record_text};

use ocm_texts::{Bytes, NoMemory};
use std::alloc::Global;
use std::marker::Model;

/// The size in bytes of the length in front of a record.
const LENGTH_SIZE: usize = 4;

/// A record as it is written behind its gate: between its length and a closed gate. Contracts see its own bytes alone.
pub struct FramedRecord {
    text: Vec<u8>,
}

impl Drop for FramedRecord {
    fn drop(self) {
        let FramedRecord { text: _ } = self;
    }
}

impl Model for FramedRecord {
    ghost use Rattle.std.specs.Prelude.{List, ℕ, ◌≡◌, ◌-◌, take, drop, length};
    ghost use Rattle.ocm_journal_image.specs.Layout.{record_text};

    ghost Value = { List ℕ };

    ghost view = { λ r. take (length r.text.items - 5) (drop 4 r.text.items) };

    ghost invariant = { λ r. r.text.items ≡ record_text (take (length r.text.items - 5) (drop 4 r.text.items)) };
}

impl FramedRecord {
    /// Begins a record: four zeros where its length will stand, and its bytes are to be added behind them. Takes memory for
    /// `room` bytes, its length and the gate behind it; what is longer grows.
    pub fn begin(alloc: Global, room: usize) -> Result<Bytes, NoMemory>
        ensures { IfOk result (λ text. text ≡ 0 ∷ 0 ∷ 0 ∷ 0 ∷ []) }
    {
        let mut text = Vec::with_capacity(alloc, room.saturating_add(LENGTH_SIZE + 1))?;
        text.extend_from_slice(&[0; LENGTH_SIZE])?;
        Ok(Bytes::from_vec(text))
    }

    /// The record behind the first four bytes, whatever these are: at most 2,097,152 bytes. It is not copied where
    /// `begin` took enough room and no other value shares the bytes.
    pub fn finish(alloc: Global, text: Bytes) -> Result<FramedRecord, NoMemory>
        requires some { 4 ≤ length text }
        requires few { length text ≤ 2097156 }
        ensures { IfOk result (λ framed. framed ≡ drop 4 text) }
    {
        let mut text = vector_of(alloc, text)?;
        put_length(&mut text);
        text.push(0)?;
        Ok(FramedRecord { text })
    }

    /// A record of a copy of these bytes, at most 2,097,152.
    pub fn of(alloc: Global, bytes: &[u8]) -> Result<FramedRecord, NoMemory>
        requires { length bytes.now ≤ 2097152 }
        ensures { IfOk result (λ framed. framed ≡ bytes.now) }
    {
        let mut text = FramedRecord::begin(alloc, bytes.len())?;
        text.add(bytes)?;
        FramedRecord::finish(alloc, text)
    }

    /// How many bytes it has.
    pub fn len(&self) -> usize
        ensures { result ≡ length self.now }
    {
        self.as_slice().len()
    }

    /// Its bytes.
    pub fn as_slice(&self) -> &[u8]
        ensures { result.now ≡ self.now }
    {
        &self.text[LENGTH_SIZE..self.text.len() - 1]
    }

    /// What is written of it behind its gate: four bytes of its length, big-endian, its bytes, and `00`.
    pub fn as_written(&self) -> &[u8]
        ensures { result.now ≡ record_text self.now }
    {
        &self.text
    }
}

/// The bytes as a vector of their own.
fn vector_of(alloc: Global, text: Bytes) -> Result<Vec<u8>, NoMemory>
    ensures { IfOk result (λ own. own.items ≡ text) }
{
    match text.into_vec() {
        Ok(own) => Ok(own),
        Err(shared) => Ok(Vec::from_slice(alloc, shared.as_slice())?),
    }
}

/// Puts the length of what stands behind the first four bytes in their place.
fn put_length(text: &mut [u8])
    requires some { 4 ≤ length text.old }
    requires few { length text.old ≤ 2097156 }
    ensures { text.new ≡ to_be_bytes w32 (length (drop 4 text.old)) ++ drop 4 text.old }
{
    let size = (text.len() - LENGTH_SIZE) as u32;
    text[..LENGTH_SIZE].copy_from_slice(&size.to_be_bytes());
}

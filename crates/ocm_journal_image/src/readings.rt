use ocm_texts::{Bytes, List};

/// A record as it stands in an area.
#[derive(Drop)]
pub struct RawRecord {
    /// The place of its gate byte in the file.
    pub place: u64,
    /// Its bytes, without the gate and the length.
    pub bytes: Bytes,
}

/// The records of an area, the oldest first.
#[derive(Drop)]
pub struct Records {
    pub items: List<RawRecord>,
    /// The place behind the last of them, where the gate byte of the next one would stand.
    pub end: u64,
}

/// What an area holds.
#[derive(Drop)]
pub struct Area {
    /// 1 or 2.
    pub form: u8,
    /// Its records, the oldest first.
    pub records: List<RawRecord>,
    /// The place behind the last record, where the gate byte of the next one would stand.
    pub end: u64,
}

/// What a header tells.
#[derive(Drop)]
pub struct Header {
    /// Whose journal it is, in 1 to 255 bytes.
    pub label: Bytes,
    /// How many bytes each of the two areas has, from 1,792 to 2^38.
    pub area: u64,
    /// The first area is live where this is 1, the second one where it is any other byte.
    pub selector: u8,
}

/// A journal as its bytes tell it.
#[derive(Drop)]
pub struct Image {
    pub header: Header,
    /// The live area.
    pub live: Area,
}

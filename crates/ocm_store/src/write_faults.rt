/// Why a change was not written.
#[derive(Clone, Copy, Debug, PartialEq, Eq)]
pub(crate) enum WriteFault {
    /// A record, or all of them together, are longer than the journal takes. Nothing was written.
    Full,
    /// The disk failed. Its count of faults is now this. Whether the change is there shows after the next
    /// opening.
    DiskFault(u64),
    /// There was no memory. Nothing was written.
    NoMemory,
}

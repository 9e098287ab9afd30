/// Why a text is no address, or no host: the first of these, in this order. A host's text has the
/// faults from `HostLength` on.
#[derive(Clone, Copy, Debug, PartialEq, Eq)]
pub enum AddressFault {
    /// There is no `@`.
    NoAt,
    /// What stands before the last `@` has no byte, or more than 64.
    UserLength,
    /// What stands before the last `@` has a control character or a `/`.
    UserChar,
    /// The host's name has no byte, or more than 240.
    HostLength,
    /// The host's name has a byte that is no ASCII letter, no digit, no `-` and no `.`.
    HostChar,
    /// What follows the `:` is no decimal from 1 to 65,535 without a leading zero.
    Port,
    /// There was no memory. The text may be sound.
    NoMemory,
}

/// What a crash leaves of a disk in memory.
#[derive(Clone, Copy, Debug, PartialEq, Eq)]
pub enum Crash {
    /// The bytes as they stood at the last successful sync.
    Old,
    /// The bytes as they read now.
    New,
    /// The bytes as they read now, with `ee` in place of each that was written since the last successful sync.
    Torn,
}

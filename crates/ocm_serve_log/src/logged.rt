//! A store with a log.
ghost use Rattle.std.specs.Prelude.{◌≡◌};

use crate::logs::Log;
use crate::sinks::LogSink;
use ocm_disk::Disk;
use ocm_serve_store::Followed;

/// A store that is served, with the log of what it answers to its readers.
pub struct LoggedStore<D: Disk, K: LogSink> {
    pub(crate) followed: Followed<D>,
    pub(crate) log: Log<K>,
}

impl<D: Disk + Drop, K: LogSink> Drop for LoggedStore<D, K> {
    fn drop(self) {
        let LoggedStore {
            followed: _,
            log: _,
        } = self;
    }
}

impl<D: Disk, K: LogSink> LoggedStore<D, K> {
    /// A store with a log.
    pub(crate) fn new(followed: Followed<D>, log: Log<K>) -> LoggedStore<D, K>
        ensures { result ≡ record { followed = followed; log = log } }
    {
        LoggedStore { followed, log }
    }

    /// The store and the log.
    pub(crate) fn into_parts(self) -> (Followed<D>, Log<K>)
        ensures { (result.0 ≡ self.followed) × (result.1 ≡ self.log) }
    {
        let LoggedStore { followed, log } = self;
        (followed, log)
    }
}

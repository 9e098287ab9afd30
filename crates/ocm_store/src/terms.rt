use ocm_types::Host;

/// What never changes of a store: whose it is, and how many bytes each of the two areas of its journal
/// has. On these it depends which replies are legal.
pub struct Terms {
    pub host: Host,
    pub area: u64,
}

impl Drop for Terms {
    fn drop(self) {
        let Terms { host: _, area: _ } = self;
    }
}

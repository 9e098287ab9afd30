use ocm_types::{Host, Secret};

/// What a server knows of itself for reading requests.
pub struct Config {
    /// The host that it answers for.
    pub host: Host,
    /// The administrator's key, with which users are added.
    pub admin: Secret,
}

impl Drop for Config {
    fn drop(self) {
        let Config { host: _, admin: _ } = self;
    }
}

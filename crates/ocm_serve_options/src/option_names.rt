ghost use Rattle.std.specs.Prelude.{◌≡◌, None, IfSome};
ghost use Rattle.ocm_serve_options.specs.Complaints as specified;
ghost use Rattle.ocm_serve_options.specs.Complaints.{option_word};

/// An option of `serve`.
#[derive(Clone, Copy, PartialEq, Eq)]
pub enum OptionName {
    /// `--host`
    Host,
    /// `--disk`
    Disk,
    /// `--admin`
    Admin,
    /// `--admin-file`
    AdminFile,
    /// `--listen`
    Listen,
    /// `--workers`
    Workers,
    /// `--key-file`
    KeyFile,
    /// `--connections`
    Connections,
    /// `--log`
    Log,
    /// `--existing`
    Existing,
    /// `--peers`
    Peers,
}

impl OptionName {
    /// The option that a word names which stands behind its two dashes, none where it names none.
    pub(crate) fn read(word: &str) -> Option<OptionName>
        ensures named { IfSome result (λ option. word.now ≡ option_word option) }
        ensures other { result ≡ None → (option : OptionName) → word.now ≡ option_word option → ⊥ }
    {
        match word {
            "host" => Some(OptionName::Host),
            "disk" => Some(OptionName::Disk),
            "admin" => Some(OptionName::Admin),
            "admin-file" => Some(OptionName::AdminFile),
            "listen" => Some(OptionName::Listen),
            "workers" => Some(OptionName::Workers),
            "key-file" => Some(OptionName::KeyFile),
            "connections" => Some(OptionName::Connections),
            "log" => Some(OptionName::Log),
            "existing" => Some(OptionName::Existing),
            "peers" => Some(OptionName::Peers),
            _ => None,
        }
    }

    /// Whether it has no value.
    pub(crate) fn is_flag(self) -> bool
        ensures { result ≡ specified.is_flag self }
    {
        match self {
            OptionName::Existing => true,
            _ => false,
        }
    }

    /// The word that names it.
    pub(crate) fn word(self) -> &'static str
        ensures { result.now ≡ option_word self }
    {
        match self {
            OptionName::Host => "host",
            OptionName::Disk => "disk",
            OptionName::Admin => "admin",
            OptionName::AdminFile => "admin-file",
            OptionName::Listen => "listen",
            OptionName::Workers => "workers",
            OptionName::KeyFile => "key-file",
            OptionName::Connections => "connections",
            OptionName::Log => "log",
            OptionName::Existing => "existing",
            OptionName::Peers => "peers",
        }
    }

    /// An example of it, as it is written.
    pub(crate) fn example(self) -> &'static str {
        match self {
            OptionName::Host => "--host files.example",
            OptionName::Disk => "--disk /var/lib/ocmd/journal",
            OptionName::Admin | OptionName::AdminFile => "--admin-file /etc/ocmd/admin.key",
            OptionName::Listen => "--listen 127.0.0.1:8080",
            OptionName::Workers => "--workers 16",
            OptionName::KeyFile => "--key-file /dev/urandom",
            OptionName::Connections => "--connections 0",
            OptionName::Log => "--log /var/log/ocmd/readers",
            OptionName::Existing => "--existing",
            OptionName::Peers => "--peers private",
        }
    }
}

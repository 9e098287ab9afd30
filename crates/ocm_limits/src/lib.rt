//! The limits of the product, each with one constant for the code and one definition, in `specs/Limits.antt`, for the
//! contracts. A limit is refused exactly where the counted thing with this one added would pass the number. Limits of
//! single texts, as a name's length, stand where these texts are defined.
#![tactic(auto)]

// ---- messages

/// The most bytes of a message's head.
pub const MOST_HEAD_BYTES: usize = 16_384;

/// The most lines of a message's head.
pub const MOST_HEAD_LINES: usize = 66;

/// The most bytes that the body of a request has.
pub const MOST_BODY_BYTES: u64 = 1_048_576;

/// The most bytes that the JSON body of a POST has.
pub const MOST_JSON_BYTES: usize = 65_536;

/// The most bytes that the body of another server's reply has.
pub const MOST_REPLY_BYTES: u64 = 33_554_432;

/// The most bytes that an exchange with another server gives back: a reply's body, its head and what frames them.
pub const MOST_EXCHANGE_BYTES: usize = 33_619_968;

/// The most requests that are answered on one connection.
pub const MOST_CONNECTION_REQUESTS: u64 = 1_000;

/// The number of the last request that is answered on one connection, counted from 0.
pub const LAST_CONNECTION_REQUEST: u64 = MOST_CONNECTION_REQUESTS - 1;

/// The most threads that serve connections.
pub const MOST_WORKERS: u64 = 64;

// ---- files

/// The most bytes of a file.
pub const MOST_FILE_BYTES: u64 = 1_048_576;

/// The most bytes of all files of a server together.
pub const MOST_STORED_BYTES: u64 = 268_435_456;

/// The most files and collections of a server, the roots of its users aside.
pub const MOST_NODES: u64 = 65_536;

/// The most files and collections that lie in one collection.
pub const MOST_CHILDREN: u64 = 4_096;

/// The most bytes of a path as it is read, and of a path in an ask.
pub const MOST_ASKED_PATH_BYTES: usize = 1_024;

/// The most bytes of a path that a copy or move makes.
pub const MOST_PATH_BYTES: usize = 2_048;

// ---- tables

/// The most users of a server.
pub const MOST_USERS: u32 = 4_096;

/// The most received offers on which one user has not decided.
pub const MOST_PENDING: u32 = 256;

/// The most shares of a server, ended ones among them.
pub const MOST_SHARES: u32 = 65_536;

/// The most received offers of a server.
pub const MOST_RECORDS: u32 = 65_536;

/// The most requests of a server to share further.
pub const MOST_REQUESTS: u32 = 65_536;

/// The most messages of a server that tell changed permissions.
pub const MOST_CHANGES: usize = 655_360;

/// The most restrictions of shares that a server takes.
pub const MOST_RESTRICTIONS: u32 = 4_294_967_295;

// ---- journals

/// The most bytes of the journal's disk of a running server.
pub const SERVED_DISK_BYTES: u64 = 1_073_741_824;

/// The most bytes of the journal's disk of a script's server.
pub const REPLAYED_DISK_BYTES: u64 = 67_108_864;

// ---- inputs

/// The most bytes of a file that is audited, and of the journal that an access log is checked against.
pub const MOST_AUDITED_BYTES: u64 = 1_073_741_824;

/// The most bytes of the input of a check of access logs: a journal, 8 bytes of its length, and a log.
pub const MOST_LOGCHECK_BYTES: u64 = 1_090_519_048;

/// The most bytes of a script.
pub const MOST_SCRIPT_BYTES: u64 = 16_777_216;

/// The most lines of a script.
pub const MOST_LINES: usize = 100_000;

/// The most bytes of a line of a script.
pub const MOST_LINE_BYTES: usize = 4_096;

/// The most servers of a script.
pub const MOST_SERVERS: usize = 16;

ghost use Rattle.std.specs.Prelude.{◌≡◌, []};
ghost use Rattle.ocm_rules.specs.State.{empty_of};

use ocm_chain::Chain;
use ocm_change::Board;
use ocm_incoming::Inbox;
use ocm_outgoing::Outbox;
use ocm_tree::Tree;
use ocm_types::Host;
use ocm_users::UserTable;
use std::alloc::Global;
use std::marker::Model;

/// The tables of one server.
pub struct Tables {
    pub(crate) alloc: Global,
    pub(crate) host: Host,
    pub(crate) users: UserTable,
    pub(crate) shares: Chain,
    /// How many of the changes so far limited a share.
    pub(crate) limits: u32,
    pub(crate) files: Tree,
    pub(crate) inbox: Inbox,
    pub(crate) board: Board,
    pub(crate) outbox: Outbox,
    /// How many changes there were.
    pub(crate) entries: u64,
}

impl Drop for Tables {
    fn drop(self) {
        let Tables {
            alloc: _,
            host: _,
            users: _,
            shares: _,
            limits: _,
            files: _,
            inbox: _,
            board: _,
            outbox: _,
            entries: _,
        } = self;
    }
}

impl Model for Tables {
    ghost use Rattle.ocm_tables.specs.Tables.{IsServer, ServerLists, received_rows};

    ghost Value = { ServerLists };

    ghost view = { λ t. record {
      state = record {
        host = t.host;
        moment = t.shares.moment;
        users = t.users.users;
        shares = t.shares.shares;
        limits = t.limits;
        nodes = t.files.nodes;
        received = received_rows t.inbox.records t.board.told;
        requests = t.inbox.requests;
        sent = t.outbox.sent;
      };
      room = record {
        users = t.users.room;
        shares = t.shares.room;
        files = t.files.room;
        records = t.inbox.room;
        told = t.board.room;
        messages = t.outbox.room;
      };
      entries = t.entries;
      origins = t.files.origins;
    } };

    ghost invariant = { λ t. IsServer t.users.users t.shares.shares t.inbox.records t.board.told t.entries t.files.origins };
}

impl Tables {
    /// The tables of a server of this host before its first entry.
    pub fn new(alloc: Global, host: Host) -> Tables
        ensures state { result.state ≡ empty_of host }
        ensures entries { result.entries ≡ 0 }
        ensures origins { result.origins ≡ [] }
    {
        Tables {
            alloc,
            host,
            users: UserTable::new(alloc),
            shares: Chain::new(alloc),
            limits: 0,
            files: Tree::new(alloc),
            inbox: Inbox::new(alloc),
            board: Board::new(alloc),
            outbox: Outbox::new(alloc),
            entries: 0,
        }
    }

    /// The allocator of all tables.
    pub fn allocator(&self) -> Global {
        self.alloc
    }

    /// The server's host.
    pub fn host(&self) -> &Host
        ensures { result.now ≡ self.now.state.host }
    {
        &self.host
    }

    /// The moment of the last tick, in seconds, and 0 before the first.
    pub fn moment(&self) -> u64
        ensures { result ≡ self.now.state.moment }
    {
        self.shares.moment()
    }

    /// How many of the changes so far limited a share.
    pub fn limits(&self) -> u32
        ensures { result ≡ self.now.state.limits }
    {
        self.limits
    }

    /// How many of the asks so far made a change, the last of which is that of the newest number. The
    /// count stands still at 2^64 - 1.
    pub fn entries(&self) -> u64
        ensures { result ≡ self.now.entries }
    {
        self.entries
    }
}

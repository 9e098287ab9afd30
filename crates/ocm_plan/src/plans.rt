ghost use Rattle.std.specs.Prelude.{◌≡◌, [], true, false};
ghost use Rattle.ocm_entry.specs.declared.asks.Ask.{Ask};
ghost use Rattle.ocm_rules.specs.Answers.{reply_in};
ghost use Rattle.ocm_rules.specs.History.{changes_in};
ghost use Rattle.ocm_rules.specs.State.{step, view_in};
ghost use Rattle.ocm_tables.specs.Changes.{Fits, changed, file_act, is_kept};
ghost use Rattle.ocm_plan.specs.Plans.{Plans, act_in};

use ocm_base::List;
use ocm_entry::{Reply, Why};
use ocm_rules::Message;
use ocm_tables::{TableChange, Tables};
use std::marker::Model;

/// The reply to an ask, what it changes, and the messages that it sends. All memory that these need
/// was taken when they were planned, but for the room in the tables.
pub struct Planned {
    reply: Reply,
    change: TableChange,
    sent: List<Message>,
}

impl Drop for Planned {
    fn drop(self) {
        let Planned {
            reply: _,
            change: _,
            sent: _,
        } = self;
    }
}

impl Model for Planned {
    ghost use Rattle.ocm_plan.specs.Plans.{Plan};

    ghost Value = { Plan };

    ghost view = { λ p. record { reply = p.reply; change = p.change; sent = p.sent } };
}

impl Planned {
    /// A reply with what it changes and sends. It is the plan for an ask where the rules give this reply
    /// to it, and the reply changes the lists in this way.
    pub fn new(tables: &Tables, reply: Reply, change: TableChange, sent: List<Message>) -> Planned
        ensures plan { result ≡ record { reply = reply; change = change; sent = sent } }
        ensures plans { (ask : Ask) → reply ≡ reply_in (view_in tables.now.state) ask → changes_in (view_in tables.now.state) ask reply ≡ true → is_kept change ≡ true
            → changed tables.now.state change sent ≡ step tables.now.state ask reply → Fits tables.now.state change → file_act change ≡ act_in (view_in tables.now.state) ask → Plans tables.now.state ask result }
    {
        Planned {
            reply,
            change,
            sent,
        }
    }

    /// A reply with what it changes, which sends nothing.
    pub fn silent(tables: &Tables, reply: Reply, change: TableChange) -> Planned
        ensures plan { result ≡ record { reply = reply; change = change; sent = [] } }
        ensures plans { (ask : Ask) → reply ≡ reply_in (view_in tables.now.state) ask → changes_in (view_in tables.now.state) ask reply ≡ true → is_kept change ≡ true
            → changed tables.now.state change [] ≡ step tables.now.state ask reply → Fits tables.now.state change → file_act change ≡ act_in (view_in tables.now.state) ask → Plans tables.now.state ask result }
    {
        Planned {
            reply,
            change,
            sent: List::new(tables.allocator()),
        }
    }

    /// A reply that changes nothing.
    pub fn only(tables: &Tables, reply: Reply) -> Planned
        ensures plan { result ≡ record { reply = reply; change = TableChange.Nothing; sent = [] } }
        ensures plans { (ask : Ask) → reply ≡ reply_in (view_in tables.now.state) ask → changes_in (view_in tables.now.state) ask reply ≡ false → Plans tables.now.state ask result }
    {
        Planned {
            reply,
            change: TableChange::Nothing,
            sent: List::new(tables.allocator()),
        }
    }

    /// A refusal.
    pub fn refused(tables: &Tables, why: Why) -> Planned
        ensures plan { result ≡ record { reply = Reply.Refused why; change = TableChange.Nothing; sent = [] } }
        ensures plans { (ask : Ask) → Reply.Refused why ≡ reply_in (view_in tables.now.state) ask → Plans tables.now.state ask result }
    {
        Planned::only(tables, Reply::Refused { why })
    }

    /// Whether the state changes.
    pub fn changes(&self) -> bool
        ensures { result ≡ is_kept self.now.change }
    {
        !matches!(self.change, TableChange::Nothing)
    }

    /// The reply.
    pub fn reply(&self) -> &Reply
        ensures { result.now ≡ self.now.reply }
    {
        &self.reply
    }

    /// What the reply changes.
    pub fn change(&self) -> &TableChange
        ensures { result.now ≡ self.now.change }
    {
        &self.change
    }

    /// The messages that the reply sends, in order.
    pub fn sent(&self) -> &List<Message>
        ensures { result.now ≡ self.now.sent }
    {
        &self.sent
    }

    /// The reply alone.
    pub fn into_reply(self) -> Reply
        ensures { result ≡ self.reply }
    {
        let Planned {
            reply,
            change,
            sent,
        } = self;
        drop(change);
        drop(sent);
        reply
    }

    /// The reply, what it changes, and the messages that it sends.
    pub fn into_parts(self) -> (Reply, TableChange, List<Message>)
        ensures reply { result.0 ≡ self.reply }
        ensures change { result.1 ≡ self.change }
        ensures sent { result.2 ≡ self.sent }
    {
        let Planned {
            reply,
            change,
            sent,
        } = self;
        (reply, change, sent)
    }
}

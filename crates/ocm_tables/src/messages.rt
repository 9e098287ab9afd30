//! Messages to other servers.
ghost use Rattle.std.specs.Prelude.{◌≡◌, IfOk, IfSome, IsSome, option_copied, option_map};
ghost use Rattle.ocm_rules.specs.declared.rows.Message.{Message};
ghost use Rattle.ocm_rules.specs.Numbers.{at_number};
ghost use Rattle.ocm_rules.specs.Messages.{as_sent, change_count, due_among};
ghost use Rattle.ocm_rules.specs.Settlements.{settles};
ghost use Rattle.ocm_rules.specs.State.{view_in};

use crate::tables::Tables;
use ocm_base::{List, NoMemory};
use ocm_rules::Subject;
use ocm_types::{Numbered, ProviderId};

impl Tables {
    /// The message of this number, as it is sent.
    pub fn message(&self, number: u32) -> Option<&Numbered>
        ensures { option_copied result ≡ option_map (λ message. as_sent (number, message)) (at_number (view_in self.now.state).messages number) }
    {
        self.outbox.message(number)
    }

    /// What the message of this number is about.
    pub fn subject(&self, number: u32) -> Option<Subject>
        ensures { result ≡ option_map (λ (message : Message). message.subject) (at_number (view_in self.now.state).messages number) }
    {
        self.outbox.subject(number)
    }

    /// Whether the message of this number is settled.
    pub fn is_settled(&self, number: u32) -> bool
        ensures { result ≡ (view_in self.now.state).is_settled number }
    {
        self.outbox.settled(number)
    }

    /// How many messages tell changed permissions.
    pub fn change_count(&self) -> u32
        ensures { result ≡ change_count (view_in self.now.state).messages }
    {
        self.outbox.change_count()
    }

    /// The messages that are due, in order.
    pub fn due(&self) -> Result<List<Numbered>, NoMemory>
        ensures { IfOk result (λ messages. messages ≡ due_among (view_in self.now.state).is_settled (view_in self.now.state).messages) }
    {
        self.outbox.due()
    }

    /// Whether an answer of this status, with or without an id, settles the message of this number.
    pub fn settles(&self, number: u32, status: u16, id: Option<&ProviderId>) -> bool
        requires { IsSome (at_number (view_in self.now.state).messages number) }
        ensures { IfSome (at_number (view_in self.now.state).messages number) (λ (message : Message). result ≡ settles message.letter status (option_copied id.entry)) }
    {
        self.outbox.settles(number, status, id)
    }
}

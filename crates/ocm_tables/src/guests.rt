//! Received offers, what their guests were told, and requests to share further.
ghost use Rattle.std.specs.Prelude.{◌≡◌, length, IfOk, IsSome, false, filter, option_copied, option_map};
ghost use Rattle.std.specs.Option.{option_map_or};
ghost use Rattle.ocm_rules.specs.Numbers.{at_number, numbers};
ghost use Rattle.ocm_rules.specs.Offers.{is_known, is_of};
ghost use Rattle.ocm_rules.specs.History.{is_held};
ghost use Rattle.ocm_rules.specs.Answers.{is_received, pending_count};
ghost use Rattle.ocm_rules.specs.State.{view_in};
ghost use Rattle.ocm_tables.specs.Tables.{is_offer_for, is_request_for, record_in};

use crate::tables::Tables;
use ocm_base::{List, NoMemory};
use ocm_entry::Request;
use ocm_incoming::{Mark, PlannedOffer, Record};
use ocm_rules::Told;
use ocm_types::Name;

impl Tables {
    /// How many received offers there are.
    pub fn record_count(&self) -> u32
        ensures { result ≡ length self.now.state.received }
    {
        self.inbox.counts().0
    }

    /// How many requests there are.
    pub fn request_count(&self) -> u32
        ensures { result ≡ length self.now.state.requests }
    {
        self.inbox.counts().1
    }

    /// The received offer of this number, counted from 1, with its phase.
    pub fn record(&self, number: u32) -> Option<&Record>
        ensures { option_copied result ≡ option_map record_in (at_number self.now.state.received number) }
    {
        self.inbox.received(number)
    }

    /// The request of this number, counted from 1.
    pub fn request(&self, request: u32) -> Option<&Request>
        ensures { option_copied result ≡ at_number self.now.state.requests request }
    {
        self.inbox.request(request)
    }

    /// What the guest of the received offer of this number was told.
    pub fn told(&self, number: u32) -> Told
        requires { IsSome (at_number self.now.state.received number) }
        ensures { result ≡ (view_in self.now.state).told number }
    {
        self.board.told(number)
    }

    /// Whether an equal offer was received.
    pub fn is_known(&self, offer: &PlannedOffer) -> bool
        ensures { result ≡ is_known (view_in self.now.state).offers offer.now }
    {
        self.inbox.same(offer).is_some()
    }

    /// How many of the received offers for a user of this name are undecided.
    pub fn pending(&self, user: &Name) -> u32
        ensures { result ≡ pending_count (view_in self.now.state) user.now }
    {
        self.inbox.pending(user)
    }

    /// Whether an offer with this mark was received.
    pub fn is_received(&self, mark: &Mark) -> bool
        ensures { result ≡ is_received (view_in self.now.state) mark.now.id mark.now.secret }
    {
        self.inbox.is_received(mark)
    }

    /// Whether a received offer with this mark is neither declined nor removed.
    pub fn is_held(&self, mark: &Mark) -> bool
        ensures { result ≡ is_held (view_in self.now.state) mark.now.id mark.now.secret }
    {
        self.inbox.is_held(mark)
    }

    /// The numbers of the received offers with this mark, ascending.
    pub fn received_with(&self, mark: &Mark) -> Result<List<u32>, NoMemory>
        ensures { IfOk result (λ ns. ns ≡ filter (λ n. option_map_or (is_of mark.now.id mark.now.secret) (at_number (view_in self.now.state).offers n) false) (numbers (view_in self.now.state).offers)) }
    {
        self.inbox.with(mark)
    }

    /// The numbers of the received offers for a user of this name, ascending.
    pub fn records_of(&self, user: &Name) -> Result<List<u32>, NoMemory>
        ensures { IfOk result (λ ns. ns ≡ filter (is_offer_for (view_in self.now.state).offers user.now) (numbers (view_in self.now.state).offers)) }
    {
        self.inbox.records_of(user)
    }

    /// The numbers of the requests whose received offer is for a user of this name, ascending.
    pub fn requests_of(&self, user: &Name) -> Result<List<u32>, NoMemory>
        ensures { IfOk result (λ ns. ns ≡ filter (is_request_for (view_in self.now.state).offers self.now.state.requests user.now) (numbers self.now.state.requests)) }
    {
        self.inbox.requests_of(user)
    }
}

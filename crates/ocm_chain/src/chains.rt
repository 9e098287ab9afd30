ghost use Rattle.std.specs.Prelude.{◌≡◌, ◌<◌, ◌≤◌, ◌+◌, ◌*◌, ◌^◌, ◌-◌, ◌++◌, ◌∷◌, [], length, true, Some, None, OnOk, IfOk, IfSome, option_copied, option_map};
ghost use Rattle.ocm_limits.specs.Limits.{most_shares};
ghost use Rattle.ocm_rules.specs.declared.rows.ShareRow.{ShareRow};
ghost use Rattle.ocm_rules.specs.Answers.{is_for_request};
ghost use Rattle.ocm_rules.specs.Numbers.{at_number, number_of};
ghost use Rattle.ocm_rules.specs.Shares.{share_of_secret};
ghost use Rattle.ocm_rules.specs.State.{changed_at, new_share_row};

use crate::answers::{Access, Change};
use crate::owners::OwnerIndex;
use crate::plans::PlannedShare;
use crate::reaches::Row;
use crate::requests::RequestIndex;
use crate::rows::Rows;
use crate::secrets::SecretIndex;
use crate::steps::{Probes, Steps};
use ocm_base::{List, NoMemory};
use ocm_entry::Share;
use ocm_types::{Need, Perms, Rights, Secret, SenderId};
use std::alloc::Global;
use std::marker::{Brand, Model};
use std::sync::ledger::{Blank, Ledger};

/// The shares of one server, numbered from 1 in the order in which they were made, and the moment.
/// Contracts see the shares with what became of them, the moment, and how many more shares can be
/// made without memory. There are at most 65,536 shares.
pub struct Chain {
    rows: Rows,
    secrets: SecretIndex,
    requests: RequestIndex,
    owners: OwnerIndex,
    moment: u64,
}

impl Drop for Chain {
    fn drop(self) {
        let Chain {
            rows: _,
            secrets: _,
            requests: _,
            owners: _,
            moment: _,
        } = self;
    }
}

impl Model for Chain {
    ghost use Rattle.std.specs.Prelude.{min};
    ghost use Rattle.ocm_chain.specs.Lists.{ChainLists, made_of};
    ghost use Rattle.ocm_chain.specs.Reaches.{IsChain};

    ghost Value = { ChainLists };

    ghost view = { λ chain. record {
      moment = chain.moment;
      shares = chain.rows.shares;
      room = min (min chain.rows.room chain.secrets.room) (min chain.requests.room chain.owners.room);
    } };

    ghost invariant = { λ chain. IsChain (made_of chain.rows.shares) chain.secrets.entries chain.requests.entries chain.owners.owners };
}

impl Chain {
    ghost use Rattle.ocm_chain.specs.Lists.{made_of, perms_at, is_live_at, effective_at, access_by, owned_by, cut_by, changes_by, IsAmongFirst, guest_at, guest_with};
    ghost use Rattle.ocm_chain.specs.Reaches.{reach_at};
    ghost use Rattle.ocm_chain.specs.declared.reaches.Row.{Row};

    /// No shares, at moment 0.
    pub fn new(alloc: Global) -> Chain
        ensures shares { result.shares ≡ [] }
        ensures moment { result.moment ≡ 0 }
    {
        Chain {
            rows: Rows::new(alloc),
            secrets: SecretIndex::new(alloc),
            requests: RequestIndex::new(alloc),
            owners: OwnerIndex::new(alloc),
            moment: 0,
        }
    }

    /// How many shares there are, closed ones among them.
    pub fn count(&self) -> u32
        ensures count { result ≡ length self.now.shares }
    {
        self.rows.len()
    }

    /// The share of this number, closed or not. It takes one step at most.
    pub fn share<L: Ledger>(&self, id: u32, steps: &mut Steps<L>) -> Option<&Share>
        ensures share { option_copied result ≡ at_number (made_of self.now.shares) id }
        ensures cost { steps.new ≤ steps.old + 1 }
        ensures onward { steps.old ≤ steps.new }
    {
        match self.get(id, steps) {
            Some(row) => Some(&row.own.share),
            None => None,
        }
    }

    // The row of this number, where there is one.
    fn get<L: Ledger>(&self, id: u32, steps: &mut Steps<L>) -> Option<&Row>
        ensures own { option_map (λ (row : Row). row.own) (option_copied result) ≡ at_number self.now.shares id }
        ensures reach { IfSome result (λ row. row.now.reach ≡ reach_at self.now.shares id) }
        ensures cost { steps.new ≤ steps.old + 1 }
        ensures onward { steps.old ≤ steps.new }
    {
        if id == 0 || id > self.rows.len() {
            return None;
        }
        Some(self.rows.read(id, steps))
    }

    /// The number of the share with this secret. It takes b steps at most, where 2 to the power of b
    /// is at most one more than twice the shares.
    pub fn find<L: Ledger>(&self, secret: &Secret, steps: &mut Steps<L>) -> Option<u32>
        ensures found { result ≡ share_of_secret (made_of self.now.shares) secret.now }
        ensures cost { 2 ^ (steps.new - steps.old) ≤ 2 * length self.now.shares + 1 }
        ensures onward { steps.old ≤ steps.new }
    {
        self.secrets.find(secret, steps)
    }

    /// The number of the first share that was made below this one for the request with this mark of
    /// its sender. It takes b steps at most, where 2 to the power of b is at most one more than twice
    /// the shares.
    pub fn child<L: Ledger>(
        &self,
        parent: u32,
        sender_id: &SenderId,
        steps: &mut Steps<L>,
    ) -> Option<u32>
        ensures found { result ≡ number_of (is_for_request parent sender_id.now) (made_of self.now.shares) }
        ensures cost { 2 ^ (steps.new - steps.old) ≤ 2 * length self.now.shares + 1 }
        ensures onward { steps.old ≤ steps.new }
    {
        self.requests.find(parent, sender_id, steps)
    }

    /// The numbers of the shares of a user's files, ascending. It takes a step for each of them.
    pub fn owned<L: Ledger>(&self, owner: u32, steps: &mut Steps<L>) -> Result<List<u32>, NoMemory>
        ensures owned { IfOk result (λ list. list ≡ owned_by self.now.shares owner) }
        ensures cost { IfOk result (λ list. steps.new ≡ steps.old + length list) }
        ensures onward { steps.old ≤ steps.new }
    {
        self.owners.owned(owner, steps)
    }

    /// The moment of the last advance, and 0 before the first.
    pub fn moment(&self) -> u64
        ensures { result ≡ self.now.moment }
    {
        self.moment
    }

    /// The permissions of a share: those of its last limit, else what was granted. It is one step.
    pub fn perms<L: Ledger>(&self, id: u32, steps: &mut Steps<L>) -> Perms
        requires low { 1 ≤ id }
        requires high { id ≤ length self.now.shares }
        ensures perms { result ≡ perms_at self.now.shares id }
        ensures tick { steps.new ≡ steps.old + 1 }
    {
        self.rows.read(id, steps).own.perms
    }

    /// What a share lets its guest do: its own permissions, cut down to those of every share above it.
    /// It is one step.
    pub fn effective<L: Ledger>(&self, id: u32, steps: &mut Steps<L>) -> Rights
        requires low { 1 ≤ id }
        requires high { id ≤ length self.now.shares }
        ensures effective { result ≡ effective_at self.now.shares id }
        ensures tick { steps.new ≡ steps.old + 1 }
    {
        self.rows.read(id, steps).reach.effective
    }

    /// Whether the share of this number is live: it is there, and neither it nor one above it is
    /// closed or over. It takes one step at most.
    pub fn is_live<L: Ledger>(&self, id: u32, steps: &mut Steps<L>) -> bool
        ensures live { result ≡ is_live_at self.now.moment self.now.shares id }
        ensures cost { steps.new ≤ steps.old + 1 }
        ensures onward { steps.old ≤ steps.new }
    {
        match self.get(id, steps) {
            Some(row) => row.reach.goes_on(self.moment),
            None => false,
        }
    }

    /// Whether the guest of a share is granted what is needed. It is one step.
    pub fn access<L: Ledger>(&self, id: u32, need: Need, steps: &mut Steps<L>) -> Access
        requires low { 1 ≤ id }
        requires high { id ≤ length self.now.shares }
        ensures access { result ≡ access_by (is_live_at self.now.moment self.now.shares id) (effective_at self.now.shares id) need }
        ensures tick { steps.new ≡ steps.old + 1 }
    {
        let reach = self.rows.read(id, steps).reach;
        Access::of(reach.goes_on(self.moment), reach.effective, need)
    }

    /// The live share with this secret, and what it lets its guest do. It looks at b places of the
    /// index of secrets at most, where 2 to the power of b is at most one more than twice the shares,
    /// and at one row at most, at any depth.
    pub fn guest<I: Ledger, R: Ledger>(
        &self,
        secret: &Secret,
        probes: &mut Probes<I, R>,
    ) -> Option<(&Share, Rights)>
        ensures guest { option_map (λ found. (found.0.now, found.1)) result ≡ guest_with self.now.moment self.now.shares secret.now }
        ensures index { 2 ^ (probes.new.index - probes.old.index) ≤ 2 * length self.now.shares + 1 }
        ensures rows { probes.new.rows ≤ probes.old.rows + 1 }
        ensures onward { (probes.old.index ≤ probes.new.index) × (probes.old.rows ≤ probes.new.rows) }
    {
        let id = self.find(secret, &mut probes.index)?;
        self.granted(id, &mut probes.rows)
    }

    // The share of this number, where it is live, and what it lets its guest do, in one step.
    fn granted<L: Ledger>(&self, id: u32, steps: &mut Steps<L>) -> Option<(&Share, Rights)>
        requires low { 1 ≤ id }
        requires high { id ≤ length self.now.shares }
        ensures guest { option_map (λ found. (found.0.now, found.1)) result ≡ guest_at self.now.moment self.now.shares id }
        ensures tick { steps.new ≡ steps.old + 1 }
    {
        let row = self.rows.read(id, steps);
        if !row.reach.goes_on(self.moment) {
            return None;
        }
        Some((&row.own.share, row.reach.effective))
    }

    /// The numbers of the live shares that closing this one takes, ascending, its own first where it
    /// is live. It looks at this share alone where none was made below it, and goes over all shares
    /// else, twice.
    pub fn cut_by<L: Ledger>(&self, id: u32, steps: &mut Steps<L>) -> Result<List<u32>, NoMemory>
        requires low { 1 ≤ id }
        requires high { id ≤ length self.now.shares }
        ensures cut { IfOk result (λ list. list ≡ cut_by self.now.moment self.now.shares id) }
        ensures cost { steps.new ≤ steps.old + 2 * length self.now.shares + 1 }
        ensures onward { steps.old < steps.new }
    {
        self.rows.cut_by(id, self.moment, steps)
    }

    /// What the guests are told once this share is limited to these permissions, by number, ascending:
    /// those of live shares who may do something afterwards, and something else than before. It looks
    /// at this share and the one above it where none was made below it, and goes over all shares
    /// else, twice.
    pub fn changed<L: Ledger>(
        &self,
        id: u32,
        perms: Perms,
        steps: &mut Steps<L>,
    ) -> Result<List<Change>, NoMemory>
        requires low { 1 ≤ id }
        requires high { id ≤ length self.now.shares }
        ensures changed { IfOk result (λ list. list ≡ changes_by self.now.moment self.now.shares id perms) }
        ensures cost { steps.new ≤ steps.old + 2 * length self.now.shares + 1 }
        ensures onward { steps.old < steps.new }
    {
        self.rows.changed(id, perms, self.moment, steps)
    }

    /// Makes room for one more share.
    pub fn room(&mut self) -> Result<(), NoMemory>
        ensures shares { self.new.shares ≡ self.old.shares }
        ensures moment { self.new.moment ≡ self.old.moment }
        ensures ok { OnOk result (0 < self.new.room) }
        ensures room { self.old.room ≤ self.new.room }
    {
        self.rows.room()?;
        self.secrets.room()?;
        self.requests.room()?;
        self.owners.room()?;
        Ok(())
    }

    /// Makes a share, and gives its number. The secret is no share's, and a parent is one of the shares.
    pub fn make(&mut self, planned: PlannedShare) -> u32
        requires room { 0 < self.old.room }
        requires few { length self.old.shares < most_shares }
        requires secret { share_of_secret (made_of self.old.shares) planned.secret ≡ None }
        requires parent { IsAmongFirst (length self.old.shares) planned.parent }
        ensures number { result ≡ length self.new.shares }
        ensures shares { self.new.shares ≡ self.old.shares ++ new_share_row planned ∷ [] }
        ensures moment { self.new.moment ≡ self.old.moment }
        ensures room { self.old.room ≤ self.new.room + 1 }
    {
        self.make_from::<Brand>(planned, Blank::new(1))
    }

    // Makes a share, with a count of its own for the places in the indexes, which no clause bounds.
    fn make_from<L: Ledger>(&mut self, planned: PlannedShare, blank: Blank) -> u32
        requires room { 0 < self.old.room }
        requires few { length self.old.shares < most_shares }
        requires secret { share_of_secret (made_of self.old.shares) planned.secret ≡ None }
        requires parent { IsAmongFirst (length self.old.shares) planned.parent }
        requires name { blank.name ≡ L.name }
        requires parts { blank.parts ≡ L.parts }
        requires some { 0 < L.parts }
        ensures number { result ≡ length self.new.shares }
        ensures shares { self.new.shares ≡ self.old.shares ++ new_share_row planned ∷ [] }
        ensures moment { self.new.moment ≡ self.old.moment }
        ensures room { self.old.room ≤ self.new.room + 1 }
    {
        let mut steps: Steps<L> = Steps::open(blank);
        let (share, secret, sender_id) = planned.parts();
        let number = self.rows.len() + 1;
        self.requests
            .keep(share.parent, sender_id, number, &mut steps);
        self.secrets.add(secret, number, &mut steps);
        self.owners.add(share.owner);
        self.rows.add(share);
        number
    }

    /// Closes a share. What is left of it is settled anew; where one was made below it, what is left of
    /// each share behind it too, in one pass.
    pub fn close(&mut self, id: u32)
        requires low { 1 ≤ id }
        requires high { id ≤ length self.old.shares }
        ensures shares { self.new.shares ≡ changed_at id (λ (row : ShareRow). record row { closed = true }) self.old.shares }
        ensures moment { self.new.moment ≡ self.old.moment }
        ensures room { self.old.room ≤ self.new.room }
    {
        self.rows.close(id);
    }

    /// Limits a share to these permissions, in the place of those that it had. What is left of it is
    /// settled anew; where one was made below it, what is left of each share behind it too, in one pass.
    pub fn limit(&mut self, id: u32, perms: Perms)
        requires low { 1 ≤ id }
        requires high { id ≤ length self.old.shares }
        ensures shares { self.new.shares ≡ changed_at id (λ (row : ShareRow). record row { perms = perms }) self.old.shares }
        ensures moment { self.new.moment ≡ self.old.moment }
        ensures room { self.old.room ≤ self.new.room }
    {
        self.rows.limit(id, perms);
    }

    /// Lets a share end at a moment, in the place of the end that it had. What is left of it is settled
    /// anew; where one was made below it, what is left of each share behind it too, in one pass.
    pub fn expire(&mut self, id: u32, until: u64)
        requires low { 1 ≤ id }
        requires high { id ≤ length self.old.shares }
        ensures shares { self.new.shares ≡ changed_at id (λ (row : ShareRow). record row { end = Some until }) self.old.shares }
        ensures moment { self.new.moment ≡ self.old.moment }
        ensures room { self.old.room ≤ self.new.room }
    {
        self.rows.expire(id, until);
    }

    /// Sets the moment, which is not below the present one.
    pub fn advance(&mut self, moment: u64)
        requires { self.old.moment ≤ moment }
        ensures moment { self.new.moment ≡ moment }
        ensures shares { self.new.shares ≡ self.old.shares }
        ensures room { self.old.room ≤ self.new.room }
    {
        self.moment = moment;
    }
}

//! Shares, and what became of them.
ghost use Rattle.std.specs.Prelude.{◌≡◌, ◌<◌, ◌≤◌, ◌+◌, ◌*◌, ◌^◌, ◌-◌, filter, false, length, map, nat_eq, IfOk, IfSome, IsSome, IsTrue, option_and_then, option_copied, option_map};
ghost use Rattle.std.specs.Option.{option_map_or};
ghost use Rattle.ocm_entry.specs.declared.rows.Share.{Share};
ghost use Rattle.ocm_entry.specs.Proper.{is_short};
ghost use Rattle.ocm_rules.specs.Numbers.{at_number, numbers};
ghost use Rattle.ocm_rules.specs.Shares.{named};
ghost use Rattle.ocm_rules.specs.Views.{is_live_in, effective_in, effective_with, cut_by, share_of_owner, told_by_limit};
ghost use Rattle.ocm_rules.specs.Answers.{child_for, numbered_share, share_with};
ghost use Rattle.ocm_rules.specs.State.{view_in};

use crate::tables::Tables;
use ocm_base::{List, NoMemory};
use ocm_chain::{Change, Steps};
use ocm_entry::Share;
use ocm_letters::named;
use ocm_types::{Perms, ProviderId, Rights, Secret, SenderId};
use std::sync::ledger::Ledger;

impl Tables {
    /// How many shares there are, ended ones among them.
    pub fn share_count(&self) -> u32
        ensures { result ≡ length self.now.state.shares }
    {
        self.shares.count()
    }

    /// The share of this number, counted from 1, ended or not. It takes one step at most.
    pub fn share<L: Ledger>(&self, id: u32, steps: &mut Steps<L>) -> Option<&Share>
        ensures share { option_copied result ≡ at_number (view_in self.now.state).shares id }
        ensures short { IfSome result (λ share. IsTrue (is_short share.now.root)) }
        ensures owner { IfSome result (λ share. IsSome (at_number self.now.state.users share.now.owner)) }
        ensures cost { steps.new ≤ steps.old + 1 }
        ensures onward { steps.old ≤ steps.new }
    {
        self.shares.share(id, steps)
    }

    /// The share of this number, where its owner is this user. It takes one step at most.
    pub fn owned_share<L: Ledger>(&self, user: u32, id: u32, steps: &mut Steps<L>) -> Option<&Share>
        ensures share { option_copied result ≡ share_of_owner (view_in self.now.state) user id }
        ensures cost { steps.new ≤ steps.old + 1 }
        ensures onward { steps.old ≤ steps.new }
    {
        match self.share(id, steps) {
            Some(share) if share.owner == user => Some(share),
            _ => None,
        }
    }

    /// Whether the share of this number is live. It takes one step at most.
    pub fn is_live<L: Ledger>(&self, id: u32, steps: &mut Steps<L>) -> bool
        ensures live { result ≡ is_live_in (view_in self.now.state) id }
        ensures cost { steps.new ≤ steps.old + 1 }
        ensures onward { steps.old ≤ steps.new }
    {
        self.shares.is_live(id, steps)
    }

    /// The permissions of the share of this number: those of its last limit, else what was granted. It
    /// is one step.
    pub fn perms<L: Ledger>(&self, id: u32, steps: &mut Steps<L>) -> Perms
        requires { IsSome (at_number (view_in self.now.state).shares id) }
        ensures perms { result ≡ (view_in self.now.state).perms id }
        ensures tick { steps.new ≡ steps.old + 1 }
    {
        self.shares.perms(id, steps)
    }

    /// What the share of this number lets its guest do. It is one step.
    pub fn effective<L: Ledger>(&self, id: u32, steps: &mut Steps<L>) -> Rights
        requires { IsSome (at_number (view_in self.now.state).shares id) }
        ensures effective { result ≡ effective_in (view_in self.now.state) id }
        ensures tick { steps.new ≡ steps.old + 1 }
    {
        self.shares.effective(id, steps)
    }

    /// The numbers of the live shares that end where the share of this number is closed, ascending. It
    /// looks at this share alone where none was made below it, and goes over all shares else, twice.
    pub fn cut_by<L: Ledger>(&self, id: u32, steps: &mut Steps<L>) -> Result<List<u32>, NoMemory>
        requires { IsSome (at_number (view_in self.now.state).shares id) }
        ensures cut { IfOk result (λ ids. ids ≡ cut_by (view_in self.now.state) id) }
        ensures cost { steps.new ≤ steps.old + 2 * length self.now.state.shares + 1 }
        ensures onward { steps.old < steps.new }
    {
        self.shares.cut_by(id, steps)
    }

    /// The number of the share that an owner's mark names.
    pub fn named_share(&self, id: &ProviderId) -> Option<u32>
        ensures { result ≡ option_map (λ found. found.0) (option_and_then (numbered_share (view_in self.now.state)) (named id.now)) }
    {
        let number = named(id)?;
        if number == 0 || number > u64::from(self.share_count()) {
            return None;
        }
        Some(number as u32)
    }

    /// The number of the share that an owner's mark names, where this is its secret. It takes one step
    /// at most.
    pub fn share_with<L: Ledger>(
        &self,
        id: &ProviderId,
        secret: &Secret,
        steps: &mut Steps<L>,
    ) -> Option<u32>
        ensures number { result ≡ option_map (λ found. found.0) (share_with (view_in self.now.state) id.now secret.now) }
        ensures cost { steps.new ≤ steps.old + 1 }
        ensures onward { steps.old ≤ steps.new }
    {
        let number = self.named_share(id)?;
        let share = self.share(number, steps)?;
        if share.secret == *secret {
            Some(number)
        } else {
            None
        }
    }

    /// The number of the share that was made below the one of this number for the request with this
    /// mark of its sender. It takes b steps at most, where 2 to the power of b is at most one more than
    /// twice the shares.
    pub fn child_for<L: Ledger>(
        &self,
        parent: u32,
        sender_id: &SenderId,
        steps: &mut Steps<L>,
    ) -> Option<u32>
        ensures child { result ≡ child_for (view_in self.now.state) parent sender_id.now }
        ensures cost { 2 ^ (steps.new - steps.old) ≤ 2 * length self.now.state.shares + 1 }
        ensures onward { steps.old ≤ steps.new }
    {
        self.shares.child(parent, sender_id, steps)
    }

    /// The numbers of the shares of this user, ascending. It takes a step for each of them.
    pub fn shares_of<L: Ledger>(
        &self,
        user: u32,
        steps: &mut Steps<L>,
    ) -> Result<List<u32>, NoMemory>
        ensures shares { IfOk result (λ ids. ids ≡ filter (λ id. option_map_or (λ (share : Share). nat_eq share.owner user) (at_number (view_in self.now.state).shares id) false) (numbers (view_in self.now.state).shares)) }
        ensures cost { IfOk result (λ ids. steps.new ≡ steps.old + length ids) }
        ensures onward { steps.old ≤ steps.new }
    {
        self.shares.owned(user, steps)
    }

    /// The shares whose guests are told, ascending, were the share of this number limited to these
    /// permissions: each with what its guest may do then. It looks at this share and the one above it
    /// where none was made below it, and goes over all shares else, twice.
    pub fn told_by_limit<L: Ledger>(
        &self,
        id: u32,
        perms: Perms,
        steps: &mut Steps<L>,
    ) -> Result<List<Change>, NoMemory>
        requires { IsSome (at_number (view_in self.now.state).shares id) }
        ensures told { IfOk result (λ told. told ≡ map (λ i. record { id = i; perms = effective_with (view_in self.now.state) id perms i }) (told_by_limit (view_in self.now.state) id perms)) }
        ensures cost { steps.new ≤ steps.old + 2 * length self.now.state.shares + 1 }
        ensures onward { steps.old < steps.new }
    {
        self.shares.changed(id, perms, steps)
    }
}

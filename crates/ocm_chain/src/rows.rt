ghost use Rattle.std.specs.Prelude.{◌≡◌, ◌<◌, ◌≤◌, ◌+◌, ◌*◌, ◌++◌, ◌∷◌, [], length, true, false, Some, OnOk, IfOk};
ghost use Rattle.ocm_limits.specs.Limits.{most_shares};
ghost use Rattle.ocm_types.specs.declared.rights.Rights.{Rights};
ghost use Rattle.ocm_rules.specs.declared.rows.ShareRow.{ShareRow};
ghost use Rattle.ocm_rules.specs.Numbers.{at_number};
ghost use Rattle.ocm_rules.specs.State.{changed_at, new_share_row};
ghost use Rattle.ocm_chain.specs.declared.reaches.Row.{Row};

use crate::answers::Change;
use crate::hypotheses::{
    changes_alone, changes_among, cut_alone, cut_among, reach_alone, reaches_with,
};
use crate::reaches::{Reach, Row};
use crate::settling::{mark_parent, reach_above, settle, touched_to};
use crate::steps::Steps;
use ocm_base::{List, NoMemory};
use ocm_entry::Share;
use ocm_rules::ShareRow;
use ocm_types::Perms;
use std::alloc::Global;
use std::marker::Model;
use std::sync::ledger::Ledger;

/// The shares with what became of them and what is left of them, numbered from 1. Contracts see the
/// shares with what became of them, and how many more can be added without memory.
pub struct Rows {
    rows: Vec<Row>,
}

impl Drop for Rows {
    fn drop(self) {
        let Rows { rows: _ } = self;
    }
}

impl Model for Rows {
    ghost use Rattle.std.specs.Prelude.{◌-◌, vec_len, vec_capacity};
    ghost use Rattle.ocm_chain.specs.Reaches.{RowLists, AreRows, owns};

    ghost Value = { RowLists };

    ghost view = { λ t. record { shares = owns t.rows.items; room = vec_capacity t.rows - vec_len t.rows } };

    ghost invariant = { λ t. AreRows t.rows.items };
}

impl Rows {
    ghost use Rattle.ocm_chain.specs.Lists.{made_of, cut_by, changes_by, IsAmongFirst};
    ghost use Rattle.ocm_chain.specs.Reaches.{reach_at, IsChildless};

    /// No shares.
    pub(crate) fn new(alloc: Global) -> Rows
        ensures { result.shares ≡ [] }
    {
        Rows {
            rows: Vec::new(alloc),
        }
    }

    /// How many shares there are.
    pub fn len(&self) -> u32
        ensures len { result ≡ length self.now.shares }
        ensures few { result ≤ most_shares }
    {
        self.rows.len() as u32
    }

    // The row of a number that is there.
    fn at(&self, id: u32) -> &Row
        requires low { 1 ≤ id }
        requires high { id ≤ length self.now.shares }
        ensures own { at_number self.now.shares id ≡ Some result.now.own }
        ensures reach { result.now.reach ≡ reach_at self.now.shares id }
        ensures childless { result.now.is_parent ≡ false → IsChildless (made_of self.now.shares) id }
    {
        &self.rows[id as usize - 1]
    }

    /// The row of a number that is there. It is one step, and no other call gives a row away.
    pub fn read<L: Ledger>(&self, id: u32, steps: &mut Steps<L>) -> &Row
        requires low { 1 ≤ id }
        requires high { id ≤ length self.now.shares }
        ensures own { at_number self.now.shares id ≡ Some result.now.own }
        ensures reach { result.now.reach ≡ reach_at self.now.shares id }
        ensures tick { steps.new ≡ steps.old + 1 }
    {
        steps.tick();
        self.at(id)
    }

    /// Room for one more share.
    pub(crate) fn room(&mut self) -> Result<(), NoMemory>
        ensures shares { self.new.shares ≡ self.old.shares }
        ensures ok { OnOk result (0 < self.new.room) }
        ensures room { self.old.room ≤ self.new.room }
    {
        self.rows.reserve(1)?;
        Ok(())
    }

    /// Adds a share, to which nothing was done. Its parent is one from now on.
    pub(crate) fn add(&mut self, share: Share)
        requires room { 0 < self.old.room }
        requires few { length self.old.shares < most_shares }
        requires parent { IsAmongFirst (length self.old.shares) share.parent }
        ensures shares { self.new.shares ≡ self.old.shares ++ new_share_row share ∷ [] }
        ensures room { self.old.room ≤ self.new.room + 1 }
    {
        let perms = share.granted;
        let above = reach_above(&self.rows, share.parent);
        let reach = Reach::of(false, perms.rights(), None, above);
        let own = ShareRow {
            share,
            perms,
            closed: false,
            end: None,
        };
        mark_parent(&mut self.rows, own.share.parent);
        let row = Row {
            own,
            reach,
            is_parent: false,
        };
        self.rows.push(row).unwrap();
    }

    // Sets what was done to a share itself, and what is left at it and those below it.
    fn set(&mut self, id: u32, perms: Perms, closed: bool, end: Option<u64>)
        requires low { 1 ≤ id }
        requires high { id ≤ length self.old.shares }
        ensures shares { self.new.shares ≡ changed_at id (λ (row : ShareRow). record { share = row.share; perms = perms; closed = closed; end = end }) self.old.shares }
        ensures made { made_of self.new.shares ≡ made_of self.old.shares }
        ensures room { self.old.room ≤ self.new.room }
    {
        let index = id as usize - 1;
        let to = touched_to(&self.rows, index);
        let row = &mut self.rows[index];
        row.own.perms = perms;
        row.own.closed = closed;
        row.own.end = end;
        settle(&mut self.rows, index, to);
    }

    /// Closes a share.
    pub(crate) fn close(&mut self, id: u32)
        requires low { 1 ≤ id }
        requires high { id ≤ length self.old.shares }
        ensures shares { self.new.shares ≡ changed_at id (λ (row : ShareRow). record row { closed = true }) self.old.shares }
        ensures made { made_of self.new.shares ≡ made_of self.old.shares }
        ensures room { self.old.room ≤ self.new.room }
    {
        let own = &self.at(id).own;
        let (perms, end) = (own.perms, own.end);
        self.set(id, perms, true, end);
    }

    /// Sets the permissions of a share.
    pub(crate) fn limit(&mut self, id: u32, perms: Perms)
        requires low { 1 ≤ id }
        requires high { id ≤ length self.old.shares }
        ensures shares { self.new.shares ≡ changed_at id (λ (row : ShareRow). record row { perms = perms }) self.old.shares }
        ensures made { made_of self.new.shares ≡ made_of self.old.shares }
        ensures room { self.old.room ≤ self.new.room }
    {
        let own = &self.at(id).own;
        let (closed, end) = (own.closed, own.end);
        self.set(id, perms, closed, end);
    }

    /// Sets the end of a share.
    pub(crate) fn expire(&mut self, id: u32, until: u64)
        requires low { 1 ≤ id }
        requires high { id ≤ length self.old.shares }
        ensures shares { self.new.shares ≡ changed_at id (λ (row : ShareRow). record row { end = Some until }) self.old.shares }
        ensures made { made_of self.new.shares ≡ made_of self.old.shares }
        ensures room { self.old.room ≤ self.new.room }
    {
        let own = &self.at(id).own;
        let (perms, closed) = (own.perms, own.closed);
        self.set(id, perms, closed, Some(until));
    }

    /// The numbers of the live shares that closing one takes, ascending.
    pub(crate) fn cut_by<L: Ledger>(
        &self,
        id: u32,
        moment: u64,
        steps: &mut Steps<L>,
    ) -> Result<List<u32>, NoMemory>
        requires low { 1 ≤ id }
        requires high { id ≤ length self.now.shares }
        ensures cut { IfOk result (λ list. list ≡ cut_by moment self.now.shares id) }
        ensures cost { steps.new ≤ steps.old + 2 * length self.now.shares + 1 }
        ensures onward { steps.old < steps.new }
    {
        let alloc = *self.rows.allocator();
        steps.tick();
        let row = self.at(id);
        if !row.is_parent {
            return cut_alone(alloc, id, row.reach, moment);
        }
        let rights = row.own.perms.rights();
        steps.add(self.len());
        let after = reaches_with(alloc, &self.rows, id, rights, true)?;
        steps.add(self.len());
        cut_among(alloc, &self.rows, &after, moment)
    }

    /// What guests are told once one share is limited, ascending.
    pub(crate) fn changed<L: Ledger>(
        &self,
        id: u32,
        perms: Perms,
        moment: u64,
        steps: &mut Steps<L>,
    ) -> Result<List<Change>, NoMemory>
        requires low { 1 ≤ id }
        requires high { id ≤ length self.now.shares }
        ensures changed { IfOk result (λ list. list ≡ changes_by moment self.now.shares id perms) }
        ensures cost { steps.new ≤ steps.old + 2 * length self.now.shares + 1 }
        ensures onward { steps.old < steps.new }
    {
        let alloc = *self.rows.allocator();
        steps.tick();
        let row = self.at(id);
        let closed = row.own.closed;
        if !row.is_parent {
            steps.tick();
            let after = reach_alone(&self.rows, id, perms.rights(), closed);
            return changes_alone(alloc, id, row.reach, after, moment);
        }
        steps.add(self.len());
        let after = reaches_with(alloc, &self.rows, id, perms.rights(), closed)?;
        steps.add(self.len());
        changes_among(alloc, &self.rows, &after, moment)
    }
}

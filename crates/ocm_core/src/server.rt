ghost use Rattle.std.specs.Prelude.{◌≡◌, ◌≢◌, ◌≤◌, ◌<◌, ◌∷◌, [], length, IfOk, OnOk, List, Ok, Some, IsTrue, false, true, option_copied, option_map};
ghost use Rattle.ocm_entry.specs.declared.asks.Ask.{Ask};
ghost use Rattle.ocm_entry.specs.declared.entries.Entry.{Entry};
ghost use Rattle.ocm_entry.specs.Proper.{is_proper};
ghost use Rattle.ocm_rules.specs.History.{answer, changes, kept};
ghost use Rattle.ocm_rules.specs.Messages.{as_sent, out};
ghost use Rattle.ocm_rules.specs.Numbers.{at_number};
ghost use Rattle.ocm_rules.specs.Shares.{moment};
ghost use Rattle.ocm_rules.specs.State.{empty_of, view_in};
ghost use Rattle.ocm_tables.specs.Changes.{HasNumbers, HasRoom, is_kept};
ghost use Rattle.ocm_tables.specs.Tables.{GrantCost};
ghost use Rattle.ocm_plan.specs.Plans.{Plans};
ghost use Rattle.ocm_core.specs.Looks.{may_look_beside};
ghost use Rattle.ocm_core.specs.Standing.{IsAfter, IsNumbered, IsPlanned, body_of as bytes_of, body_with, standing_body};

use ocm_base::{Bytes, NoMemory};
use ocm_entry::{Ask, Reply, Standing};
use ocm_plan::{Planned, plan_new_user, plan_tick};
use ocm_plan_dav::{plan_carry, plan_dav};
use ocm_plan_local::plan_command;
use ocm_plan_peers::{plan_due, plan_notice, plan_offer, plan_settle};
use ocm_tables::{Probes, Steps, Tables};
use ocm_tree::Tree;
use ocm_types::{Host, Numbered};
use std::alloc::Global;
use std::marker::{Brand, Model};
use std::sync::ledger::{Blank, Ledger};

/// The state of one server after its history. Contracts see the lists that the history comes to, for
/// how many more rows there is room, how many of its entries are kept, and which of these put what stands.
/// The lists are always those of some legal history, so its messages have numbers.
pub struct Core {
    tables: Tables,
}

impl Drop for Core {
    fn drop(self) {
        let Core { tables: _ } = self;
    }
}

impl Model for Core {
    ghost use Rattle.ocm_tables.specs.Tables.{ServerLists};
    ghost use Rattle.ocm_core.specs.Standing.{IsReached};

    ghost Value = { ServerLists };

    ghost view = { λ c. c.tables };

    ghost invariant = { λ c. IsReached c.tables.state };
}

impl Core {
    /// A server of this host before its first entry.
    pub fn new(alloc: Global, host: Host) -> Core
        ensures state { result.state ≡ empty_of host }
        ensures after { IsAfter result.state [] }
        ensures numbered { IsNumbered result [] }
    {
        Core {
            tables: Tables::new(alloc, host),
        }
    }

    /// The server's host.
    pub fn host(&self) -> &Host
        ensures { result.now ≡ self.now.state.host }
    {
        self.tables.host()
    }

    /// The moment of the last tick, in whole seconds, and 0 before the first.
    pub fn moment(&self) -> u64
        ensures value { result ≡ self.now.state.moment }
        ensures history { (g : List Entry) → IsAfter self.now.state g → result ≡ moment (kept self.now.state.host g) }
    {
        self.tables.moment()
    }

    /// All lists of the server, for what tells more of them than an answer does.
    pub fn tables(&self) -> &Tables
        ensures { result.now ≡ self.now }
    {
        &self.tables
    }

    /// What stands on the server.
    pub fn files(&self) -> &Tree
        ensures { result.now.nodes ≡ self.now.state.nodes }
    {
        self.tables.files()
    }

    /// The message of this number, settled or not, as it is sent. None where there is none.
    pub fn message(&self, number: u32) -> Option<&Numbered>
        ensures value { option_copied result ≡ option_map (λ message. as_sent (number, message)) (at_number (view_in self.now.state).messages number) }
        ensures history { (g : List Entry) → IsAfter self.now.state g
            → option_copied result ≡ option_map (λ message. as_sent (number, message)) (at_number (out self.now.state.host (kept self.now.state.host g)) number) }
    {
        self.tables.message(number)
    }

    /// The reply to an ask, and the change that it makes. The state stays.
    pub fn answer(&self, ask: &Ask) -> Result<Planned, NoMemory>
        requires { IsTrue (is_proper ask.now) }
        ensures plans { IfOk result (λ plan. Plans self.now.state ask.now plan) }
        ensures reply { IfOk result (λ plan. (g : List Entry) → IsAfter self.now.state g → plan.reply ≡ answer self.now.state.host g ask.now) }
        ensures changes { IfOk result (λ plan. (g : List Entry) → IsAfter self.now.state g
            → is_kept plan.change ≡ changes self.now.state.host (kept self.now.state.host g) (record { ask = ask.now; reply = plan.reply })) }
        ensures numbers { IfOk result (λ plan. HasNumbers self.now.state plan.sent) }
    {
        let planned = self.answer_from::<Brand, Brand, Brand>(
            ask,
            Blank::new(1),
            Blank::new(1),
            Blank::new(1),
        )?;
        Ok(planned)
    }

    // The reply to an ask, with counts of its own. No other function of the core opens a ledger.
    fn answer_from<I: Ledger, R: Ledger, L: Ledger>(
        &self,
        ask: &Ask,
        index: Blank,
        rows: Blank,
        steps: Blank,
    ) -> Result<Planned, NoMemory>
        requires proper { IsTrue (is_proper ask.now) }
        requires index_name { index.name ≡ I.name }
        requires index_parts { index.parts ≡ I.parts }
        requires some_index { 0 < I.parts }
        requires rows_name { rows.name ≡ R.name }
        requires rows_parts { rows.parts ≡ R.parts }
        requires some_rows { 0 < R.parts }
        requires steps_name { steps.name ≡ L.name }
        requires steps_parts { steps.parts ≡ L.parts }
        requires some_steps { 0 < L.parts }
        ensures plans { IfOk result (λ plan. Plans self.now.state ask.now plan) }
        ensures numbers { IfOk result (λ plan. HasNumbers self.now.state plan.sent) }
    {
        let mut probes = Probes::open(index, rows);
        let mut steps = Steps::open(steps);
        self.answer_counted::<I, R, L>(ask, &mut probes, &mut steps)
    }

    /// As `answer`, with each look at shares counted. To find and grant the holder of the ask's secret
    /// takes b looks at the index of secrets at most, where 2 to the power of b is at most one more
    /// than twice the shares, and one row at most, at any depth. Only a user's command and another
    /// server's notice take steps beside these, which no clause bounds.
    pub fn answer_counted<I: Ledger, R: Ledger, L: Ledger>(
        &self,
        ask: &Ask,
        probes: &mut Probes<I, R>,
        steps: &mut Steps<L>,
    ) -> Result<Planned, NoMemory>
        requires { IsTrue (is_proper ask.now) }
        ensures plans { IfOk result (λ plan. Plans self.now.state ask.now plan) }
        ensures numbers { IfOk result (λ plan. HasNumbers self.now.state plan.sent) }
        ensures cost { GrantCost (length self.now.state.shares) probes.old probes.new }
        ensures beside { may_look_beside ask.now ≡ false → steps.new ≡ steps.old }
    {
        let planned = plan(&self.tables, ask, probes, steps)?;
        Ok(planned)
    }

    /// The body that the kept entry of this number put, where it is a PUT whose body still stands once the planned
    /// change is made. The entries that are kept are counted from 1, the oldest first, ticks with them. The plan is
    /// one for this state.
    pub fn standing<'a>(&'a self, planned: &'a Planned, entry: u64) -> Option<&'a Bytes>
        requires { IsPlanned self.now.state planned.now }
        ensures value { self.now.entries < 18446744073709551615 → option_copied result ≡ body_with self.now planned.now entry }
        ensures history { (g : List Entry) (ask : Ask) → IsAfter self.now.state g → IsNumbered self.now g → Plans self.now.state ask planned.now
            → length (kept self.now.state.host g) < 18446744073709551615
            → option_copied result ≡ standing_body self.now.state.host (kept self.now.state.host (record { ask = ask; reply = planned.now.reply } ∷ g)) entry }
    {
        match self.tables.standing_by(entry, planned.change()) {
            Some(standing) => body_of(standing),
            None => None,
        }
    }

    /// Takes the memory that the change needs. The plan is one for this state, which stays.
    pub fn room(&mut self, planned: &Planned) -> Result<(), NoMemory>
        requires { IsPlanned self.old.state planned.now }
        ensures state { self.new.state ≡ self.old.state }
        ensures entries { self.new.entries ≡ self.old.entries }
        ensures origins { self.new.origins ≡ self.old.origins }
        ensures change { OnOk result (HasRoom self.new.room planned.now.change) }
        ensures messages { OnOk result (length planned.now.sent ≤ self.new.room.messages) }
    {
        self.tables
            .room(planned.change(), planned.sent().len() as u32)
    }

    /// Makes the change, which takes no memory, and gives the reply. The plan is one for this state, and
    /// there is room for it.
    pub fn apply(&mut self, planned: Planned) -> Reply
        requires planned { IsPlanned self.old.state planned }
        requires room { HasRoom self.old.room planned.change }
        requires messages { length planned.sent ≤ self.old.room.messages }
        ensures reply { result ≡ planned.reply }
        ensures host { self.new.state.host ≡ self.old.state.host }
        ensures after { (g : List Entry) (ask : Ask) → IsAfter self.old.state g → Plans self.old.state ask planned → IsAfter self.new.state (record { ask = ask; reply = result } ∷ g) }
        ensures numbered { (g : List Entry) (ask : Ask) → IsAfter self.old.state g → IsNumbered self.old g → Plans self.old.state ask planned → IsNumbered self.new (record { ask = ask; reply = result } ∷ g) }
    {
        let (reply, change, sent) = planned.into_parts();
        self.tables.apply(change, sent);
        reply
    }

    /// Goes on by an ask with its answer, as a history that was written down does. False where it would change nothing, and
    /// then all stays.
    pub fn take(&mut self, ask: &Ask) -> Result<bool, NoMemory>
        requires { IsTrue (is_proper ask.now) }
        ensures taken { IfOk result (λ taken. (g : List Entry) → IsAfter self.old.state g
            → taken ≡ changes self.old.state.host (kept self.old.state.host g) (record { ask = ask.now; reply = answer self.old.state.host g ask.now })) }
        ensures goes_on { (g : List Entry) → IsAfter self.old.state g → result ≡ Ok true
            → IsAfter self.new.state (record { ask = ask.now; reply = answer self.old.state.host g ask.now } ∷ g) }
        ensures stays { result ≢ Ok true → self.new.state ≡ self.old.state }
        ensures entries { result ≢ Ok true → self.new.entries ≡ self.old.entries }
        ensures origins { result ≢ Ok true → self.new.origins ≡ self.old.origins }
        ensures home { self.new.state.host ≡ self.old.state.host }
    {
        match self.answer(ask) {
            Ok(planned) => self.take_planned(planned),
            Err(NoMemory) => Err(NoMemory),
        }
    }

    /// Makes what is planned, for which no room was taken yet. False where it changes nothing. The plan is one for this state.
    fn take_planned(&mut self, planned: Planned) -> Result<bool, NoMemory>
        requires { IsPlanned self.old.state planned }
        ensures taken { IfOk result (λ taken. (g : List Entry) (ask : Ask) → IsAfter self.old.state g → Plans self.old.state ask planned
            → taken ≡ changes self.old.state.host (kept self.old.state.host g) (record { ask = ask; reply = planned.reply })) }
        ensures goes_on { (g : List Entry) (ask : Ask) → IsAfter self.old.state g → Plans self.old.state ask planned → result ≡ Ok true
            → IsAfter self.new.state (record { ask = ask; reply = planned.reply } ∷ g) }
        ensures stays { result ≢ Ok true → self.new.state ≡ self.old.state }
        ensures entries { result ≢ Ok true → self.new.entries ≡ self.old.entries }
        ensures origins { result ≢ Ok true → self.new.origins ≡ self.old.origins }
        ensures home { self.new.state.host ≡ self.old.state.host }
    {
        if !planned.changes() {
            drop(planned.into_reply());
            return Ok(false);
        }
        match self.room(&planned) {
            Ok(()) => {
                drop(self.apply(planned));
                Ok(true)
            }
            Err(NoMemory) => {
                drop(planned.into_reply());
                Err(NoMemory)
            }
        }
    }
}

/// The plan for an ask. What it costs to find and grant the holder of its secret is counted, and what
/// users' commands and notices look at by itself.
fn plan<I: Ledger, R: Ledger, L: Ledger>(
    tables: &Tables,
    ask: &Ask,
    probes: &mut Probes<I, R>,
    steps: &mut Steps<L>,
) -> Result<Planned, NoMemory>
    requires { IsTrue (is_proper ask.now) }
    ensures plans { IfOk result (λ plan. Plans tables.now.state ask.now plan) }
    ensures cost { GrantCost (length tables.now.state.shares) probes.old probes.new }
    ensures beside { may_look_beside ask.now ≡ false → steps.new ≡ steps.old }
{
    match ask {
        Ask::AddUser { name, fresh } => plan_new_user(tables, name, fresh, &mut probes.index),
        Ask::Local { key, cmd } => plan_command(tables, key, cmd, steps),
        Ask::Offer { offer } => plan_offer(tables, offer),
        Ask::Notice { notice, fresh } => plan_notice(tables, notice, fresh, steps),
        Ask::Dav {
            secret,
            method,
            path,
            body,
        } => plan_dav(tables, secret, *method, path, body, probes),
        Ask::Due => plan_due(tables),
        Ask::Settle { number, status, id } => plan_settle(tables, *number, *status, id.as_ref()),
        Ask::Tick { clock } => Ok(plan_tick(tables, *clock)),
        Ask::Carry {
            secret,
            from,
            to,
            moving,
            overwrite,
        } => plan_carry(tables, secret, from, to, *moving, *overwrite, probes),
    }
}

/// The bytes of what stands, where it is a file.
fn body_of(standing: &Standing) -> Option<&Bytes>
    ensures { option_copied result ≡ bytes_of (Some standing.now) }
{
    match standing {
        Standing::File { body } => Some(body),
        Standing::Collection => None,
    }
}

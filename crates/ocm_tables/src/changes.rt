use crate::tables::Tables;
use ocm_base::List;
use ocm_chain::PlannedShare;
use ocm_entry::{Place, Request, Standing};
use ocm_incoming::{Mark, PlannedOffer};
use ocm_tree::{FileChange, PlannedCarry, PlannedNode};
use ocm_types::{Perms, Phase, RequestPhase};
use ocm_users::PlannedUser;

/// What an answer to a message does besides settling it.
pub enum Outcome {
    /// Nothing more.
    Nothing,
    /// The received offer of this number has this phase.
    SetPhase { number: u32, phase: Phase },
    /// The request of this number has this state.
    SetState { request: u32, state: RequestPhase },
}

impl Drop for Outcome {
    fn drop(self) {
        match self {
            Outcome::Nothing => {}
            Outcome::SetPhase {
                number: _,
                phase: _,
            } => {}
            Outcome::SetState {
                request: _,
                state: _,
            } => {}
        }
    }
}

impl Outcome {
    ghost use Rattle.std.specs.Prelude.{◌≡◌, ◌≤◌};
    ghost use Rattle.ocm_tables.specs.Changes.{FitsOutcome, with_outcome};

    /// Does in the tables what an answer does besides settling its message.
    pub(crate) fn act(self, tables: &mut Tables)
        requires { FitsOutcome tables.old.state self }
        ensures state { tables.new.state ≡ with_outcome tables.old.state self }
        ensures entries { tables.new.entries ≡ tables.old.entries }
        ensures origins { tables.new.origins ≡ tables.old.origins }
        ensures messages { tables.old.room.messages ≤ tables.new.room.messages }
    {
        match self {
            Outcome::Nothing => {}
            Outcome::SetPhase { number, phase } => tables.set_phase(number, phase),
            Outcome::SetState { request, state } => tables.set_state(request, state),
        }
    }
}

/// What an ask changes in the tables, its messages aside. All memory that a change holds was taken when
/// it was planned.
#[derive(Drop)]
pub enum TableChange {
    /// Nothing.
    Nothing,
    /// The moment moves on to this one, in seconds.
    Advance {
        clock: u64,
    },
    /// One more user.
    AddUser(PlannedUser),
    /// This stands at its place.
    Put(PlannedNode),
    /// Nothing stands at this place and below it any more.
    Remove(Place),
    /// What stands at and below one place stands at another.
    Carry(PlannedCarry),
    /// One more share.
    AddShare(PlannedShare),
    /// The share of this number ends.
    Close {
        id: u32,
    },
    /// The share of this number is limited to these permissions.
    Limit {
        id: u32,
        perms: Perms,
    },
    /// The share of this number ends at this moment, in seconds.
    Expire {
        id: u32,
        until: u64,
    },
    /// One more received offer.
    Receive(PlannedOffer),
    /// The received offer of this number has this phase.
    SetPhase {
        number: u32,
        phase: Phase,
    },
    /// One more request to share further.
    AddRequest(Request),
    /// The request of this number is taken back.
    TakeBack {
        request: u32,
    },
    /// The received offers with this mark are shared no more.
    GiveUp(Mark),
    /// The guests of these received offers are told of these permissions, by the change of this serial.
    Tell {
        numbers: List<u32>,
        serial: u32,
        perms: Perms,
    },
    /// The message of this number is settled.
    Settle {
        number: u32,
        outcome: Outcome,
    },
}

impl TableChange {
    ghost use Rattle.std.specs.Prelude.{◌≡◌, option_copied};
    ghost use Rattle.ocm_tree.specs.Changes.{act_of};
    ghost use Rattle.ocm_tables.specs.Changes.{file_act, is_kept};
    ghost use Rattle.ocm_law_origins.specs.Origins.{put_of};

    /// Whether it changes something.
    pub(crate) fn is_kept(&self) -> bool
        ensures { result ≡ is_kept self.now }
    {
        !matches!(self, TableChange::Nothing)
    }

    /// What it does to files.
    pub(crate) fn file_change(&self) -> FileChange<'_>
        ensures { act_of result ≡ file_act self.now }
    {
        match self {
            TableChange::Put(node) => FileChange::Put {
                place: node.place(),
                standing: node.standing(),
            },
            TableChange::Remove(place) => FileChange::Remove { place },
            TableChange::Carry(carry) => FileChange::Carry {
                from: carry.from(),
                to: carry.to(),
                moving: carry.is_moving(),
            },
            TableChange::Nothing
            | TableChange::Advance { clock: _ }
            | TableChange::AddUser(_)
            | TableChange::AddShare(_)
            | TableChange::Close { id: _ }
            | TableChange::Limit { id: _, perms: _ }
            | TableChange::Expire { id: _, until: _ }
            | TableChange::Receive(_)
            | TableChange::SetPhase {
                number: _,
                phase: _,
            }
            | TableChange::AddRequest(_)
            | TableChange::TakeBack { request: _ }
            | TableChange::GiveUp(_)
            | TableChange::Tell {
                numbers: _,
                serial: _,
                perms: _,
            }
            | TableChange::Settle {
                number: _,
                outcome: _,
            } => FileChange::Nothing,
        }
    }

    /// What it puts at a place, if it does.
    pub(crate) fn standing(&self) -> Option<&Standing>
        ensures { option_copied result ≡ put_of (file_act self.now) }
    {
        match self.file_change() {
            FileChange::Put { place: _, standing } => Some(standing),
            FileChange::Nothing
            | FileChange::Remove { place: _ }
            | FileChange::Carry {
                from: _,
                to: _,
                moving: _,
            } => None,
        }
    }
}

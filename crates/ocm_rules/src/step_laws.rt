//! What one kept entry changes in the lists of a server, command by command: a row is changed, or
//! the rows stay as they are. New rows stand behind all others (`specs/State.antt`, `step_by`).
ghost use Rattle.std.specs.Prelude.{◌≡◌, ◌+◌, ℕ, List, Some, false, slice_get, slice_set, true};
ghost use Rattle.ocm_types.specs.declared.letters.Notice.TheVariants.{Declined, ReshareUndo};
ghost use Rattle.ocm_types.specs.declared.phases.Phase.TheVariants as phases;
ghost use Rattle.ocm_types.specs.declared.phases.RequestPhase.TheVariants as states;
ghost use Rattle.ocm_types.specs.declared.rights.Rights.{Rights};
ghost use Rattle.ocm_entry.specs.declared.asks.Ask.{Ask};
ghost use Rattle.ocm_entry.specs.declared.asks.Ask.TheVariants.{Local, Notice, Settle};
ghost use Rattle.ocm_entry.specs.declared.asks.Cmd.TheVariants.{Accept, Decline, Expire, Limit, Undo, Unshare};
ghost use Rattle.ocm_entry.specs.declared.rows.Request.{Request};
ghost use Rattle.ocm_rules.specs.declared.rows.Message.{Message};
ghost use Rattle.ocm_rules.specs.declared.rows.ReceivedRow.{ReceivedRow};
ghost use Rattle.ocm_rules.specs.declared.rows.SentRow.{SentRow};
ghost use Rattle.ocm_rules.specs.declared.rows.ShareRow.{ShareRow};
ghost use Rattle.ocm_rules.specs.Shares.{named};
ghost use Rattle.ocm_rules.specs.declared.rows.Subject.TheVariants as subjects;
ghost use Rattle.ocm_rules.specs.Numbers.{at_number};
ghost use Rattle.ocm_rules.specs.Settlements.{is_acceptance, wants_id};
ghost use Rattle.ocm_rules.specs.State.{answered_phase, answered_request, changed_at, map_numbered, received_row_after, request_row_after, sent_row_after, share_row_after, touches_messages, touches_records, touches_requests, touches_shares};
ghost use Rattle.std.specs.Prelude.{Option};

/// To change the row of a number is to set it.
pub fn changed_row_is_set()
    ensures shares { (i : ℕ) (change : ShareRow → ShareRow) (rows : List ShareRow) (row : ShareRow) → slice_get rows i ≡ Some row → changed_at (i + 1) change rows ≡ slice_set rows i (change row) }
    ensures records { (i : ℕ) (change : ReceivedRow → ReceivedRow) (rows : List ReceivedRow) (row : ReceivedRow) → slice_get rows i ≡ Some row → changed_at (i + 1) change rows ≡ slice_set rows i (change row) }
    ensures requests { (i : ℕ) (change : Request → Request) (rows : List Request) (row : Request) → slice_get rows i ≡ Some row → changed_at (i + 1) change rows ≡ slice_set rows i (change row) }
    ensures messages { (i : ℕ) (change : SentRow → SentRow) (rows : List SentRow) (row : SentRow) → slice_get rows i ≡ Some row → changed_at (i + 1) change rows ≡ slice_set rows i (change row) }
{}

/// A limit sets the permissions in the row of its share.
pub fn limit_sets_permissions()
    ensures { (key : List ℕ) (id : ℕ) (perms : Rights) (rows : List ShareRow)
        → map_numbered (share_row_after (Local key (Limit id perms))) 1 rows ≡ changed_at id (λ (row : ShareRow). record row { perms = perms }) rows }
{}

/// An expiry sets the end in the row of its share.
pub fn expiry_sets_the_end()
    ensures { (key : List ℕ) (id until : ℕ) (rows : List ShareRow)
        → map_numbered (share_row_after (Local key (Expire id until))) 1 rows ≡ changed_at id (λ (row : ShareRow). record row { end = Some until }) rows }
{}

/// What ends a share closes its row and no other.
pub fn ends_close_a_row()
    ensures unshare { (key : List ℕ) (id : ℕ) (rows : List ShareRow)
        → map_numbered (share_row_after (Local key (Unshare id))) 1 rows ≡ changed_at id (λ (row : ShareRow). record row { closed = true }) rows }
    ensures declined { (text secret fresh : List ℕ) (id : ℕ) (rows : List ShareRow) → named text ≡ Some id
        → map_numbered (share_row_after (Notice (Declined text secret) fresh)) 1 rows ≡ changed_at id (λ (row : ShareRow). record row { closed = true }) rows }
    ensures undone { (text secret fresh : List ℕ) (id : ℕ) (rows : List ShareRow) → named text ≡ Some id
        → map_numbered (share_row_after (Notice (ReshareUndo text secret) fresh)) 1 rows ≡ changed_at id (λ (row : ShareRow). record row { closed = true }) rows }
{}

/// To accept and to decline set the phase in the row of a record.
pub fn commands_set_a_phase()
    ensures accepted { (messages : List Message) (key : List ℕ) (number : ℕ) (rows : List ReceivedRow)
        → map_numbered (received_row_after messages (Local key (Accept number))) 1 rows ≡ changed_at number (λ (row : ReceivedRow). record row { phase = phases.Accepting }) rows }
    ensures declined { (messages : List Message) (key : List ℕ) (number : ℕ) (rows : List ReceivedRow)
        → map_numbered (received_row_after messages (Local key (Decline number))) 1 rows ≡ changed_at number (λ (row : ReceivedRow). record row { phase = phases.Declined }) rows }
{}

/// To take a request back sets its state.
pub fn undo_sets_a_state()
    ensures { (messages : List Message) (key : List ℕ) (request : ℕ) (rows : List Request)
        → map_numbered (request_row_after messages (Local key (Undo request))) 1 rows ≡ changed_at request (λ (row : Request). record row { state = states.Undone }) rows }
{}

/// An answer settles the row of its message.
pub fn answer_settles_a_message()
    ensures { (number status : ℕ) (id : Option (List ℕ)) (rows : List SentRow)
        → map_numbered (sent_row_after (Settle number status id)) 1 rows ≡ changed_at number (λ (row : SentRow). record row { settled = true }) rows }
{}

/// An answer to an acceptance sets the phase of its record alone, and an answer to another message sets
/// none.
pub fn answer_sets_a_phase()
    ensures acceptance { (messages : List Message) (number status : ℕ) (id : Option (List ℕ)) (m : Message) (n : ℕ) (rows : List ReceivedRow)
        → at_number messages number ≡ Some m → is_acceptance m.letter ≡ true → m.subject ≡ subjects.Received n
        → map_numbered (received_row_after messages (Settle number status id)) 1 rows ≡ changed_at n (λ (row : ReceivedRow). record row { phase = answered_phase status row.phase }) rows }
    ensures other { (messages : List Message) (number status : ℕ) (id : Option (List ℕ)) (m : Message) (rows : List ReceivedRow)
        → at_number messages number ≡ Some m → is_acceptance m.letter ≡ false → map_numbered (received_row_after messages (Settle number status id)) 1 rows ≡ rows }
{}

/// An answer to a request to share further sets the state of that request alone, and an answer to
/// another message sets none.
pub fn answer_sets_a_state()
    ensures request { (messages : List Message) (number status : ℕ) (id : Option (List ℕ)) (m : Message) (r : ℕ) (rows : List Request)
        → at_number messages number ≡ Some m → wants_id m.letter ≡ true → m.subject ≡ subjects.Request r
        → map_numbered (request_row_after messages (Settle number status id)) 1 rows ≡ changed_at r (λ (row : Request). record row { state = answered_request status id row.state }) rows }
    ensures other { (messages : List Message) (number status : ℕ) (id : Option (List ℕ)) (m : Message) (rows : List Request)
        → at_number messages number ≡ Some m → wants_id m.letter ≡ false → map_numbered (request_row_after messages (Settle number status id)) 1 rows ≡ rows }
{}

/// All other asks leave the rows that are there as they are.
pub fn other_asks_leave_rows()
    ensures shares { (ask : Ask) (rows : List ShareRow) → touches_shares ask ≡ false → map_numbered (share_row_after ask) 1 rows ≡ rows }
    ensures records { (messages : List Message) (ask : Ask) (rows : List ReceivedRow) → touches_records ask ≡ false → map_numbered (received_row_after messages ask) 1 rows ≡ rows }
    ensures requests { (messages : List Message) (ask : Ask) (rows : List Request) → touches_requests ask ≡ false → map_numbered (request_row_after messages ask) 1 rows ≡ rows }
    ensures messages { (ask : Ask) (rows : List SentRow) → touches_messages ask ≡ false → map_numbered (sent_row_after ask) 1 rows ≡ rows }
{}

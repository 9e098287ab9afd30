//! Notices of other servers about shares that were made here, and about shares that were received.
ghost use Rattle.std.specs.Prelude.{◌≡◌, ◌&&◌, ◌+◌, ◌++◌, ◌∷◌, [], if◌then◌else◌, ℕ, List, Option, Some, length, map, not, true};
ghost use Rattle.ocm_types.specs.declared.addresses.Address.{Address};
ghost use Rattle.ocm_types.specs.declared.letters.Notice.TheVariants as notices;
ghost use Rattle.ocm_types.specs.declared.phases.Phase.TheVariants.{Removed};
ghost use Rattle.ocm_types.specs.declared.rights.Rights.{Rights};
ghost use Rattle.ocm_entry.specs.declared.asks.Ask.TheVariants.{Notice};
ghost use Rattle.ocm_entry.specs.declared.replies.Reply.{Reply};
ghost use Rattle.ocm_entry.specs.declared.rows.Share.{Share};
ghost use Rattle.ocm_rules.specs.declared.rows.ReceivedRow.{ReceivedRow};
ghost use Rattle.ocm_rules.specs.declared.rows.ShareRow.{ShareRow};
ghost use Rattle.ocm_rules.specs.Numbers.{at_number};
ghost use Rattle.ocm_rules.specs.Shares.{child_share, named};
ghost use Rattle.ocm_rules.specs.Offers.{is_given_up, is_of, later};
ghost use Rattle.ocm_rules.specs.Views.{cut_by, effective_in};
ghost use Rattle.ocm_rules.specs.Messages.{at_end, offered, without};
ghost use Rattle.ocm_rules.specs.State.{State, changed_at, new_sent_row, new_share_row, step, view_in};

/// A share that its guest declined is closed, and the guests of the others that end by it are told.
pub fn declined_step()
    ensures { (st : State) (text secret fresh : List ℕ) (reply : Reply) (id : ℕ) → named text ≡ Some id
        → step st (Notice (notices.Declined text secret) fresh) reply ≡ record st {
          shares = changed_at id (λ (row : ShareRow). record row { closed = true }) st.shares;
          sent = st.sent ++ map new_sent_row (at_end (view_in st) (without id (cut_by (view_in st) id)));
        } }
{}

/// A share whose request was taken back is closed, and the guests of all that end by it are told.
pub fn undone_step()
    ensures { (st : State) (text secret fresh : List ℕ) (reply : Reply) (id : ℕ) → named text ≡ Some id
        → step st (Notice (notices.ReshareUndo text secret) fresh) reply ≡ record st {
          shares = changed_at id (λ (row : ShareRow). record row { closed = true }) st.shares;
          sent = st.sent ++ map new_sent_row (at_end (view_in st) (cut_by (view_in st) id));
        } }
{}

/// The share that a guest asked for stands behind the others, and its offer is sent.
pub fn child_step()
    ensures { (st : State) (text secret : List ℕ) (with : Address) (sender_id : List ℕ) (asked : Option Rights) (fresh : List ℕ) (reply : Reply) (parent : ℕ) (above : Share)
        → named text ≡ Some parent → at_number (view_in st).shares parent ≡ Some above
        → let share = child_share parent above (effective_in (view_in st) parent) with sender_id asked fresh in
        step st (Notice (notices.ReshareRequest text secret with sender_id asked) fresh) reply ≡ record st {
          shares = st.shares ++ new_share_row share ∷ [];
          sent = st.sent ++ new_sent_row (offered (view_in st) (length st.shares + 1) share) ∷ [];
        } }
{}

/// Each record of a share that is shared no more is removed, unless it is given up already.
pub fn unshared_step()
    ensures { (st : State) (id secret fresh : List ℕ) (reply : Reply)
        → step st (Notice (notices.Unshared id secret) fresh) reply ≡ record st {
          received = map (λ (row : ReceivedRow). if is_of id secret row.offer && not (is_given_up row.phase) then record row { phase = Removed } else row) st.received;
        } }
{}

/// The guest of each record of a share is told of its permissions, where the serial is greater than
/// the one that was told before.
pub fn changed_step()
    ensures { (st : State) (id secret : List ℕ) (serial : ℕ) (perms : Rights) (fresh : List ℕ) (reply : Reply)
        → step st (Notice (notices.Changed id secret serial perms) fresh) reply ≡ record st {
          received = map (λ (row : ReceivedRow). if is_of id secret row.offer then record row { told = later (record { serial = serial; perms = perms }) row.told } else row) st.received;
        } }
{}

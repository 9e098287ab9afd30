//! Commands of users: their shares, the shares that they received, and their requests.
ghost use Rattle.std.specs.Prelude.{◌≡◌, ◌+◌, ◌++◌, ◌∷◌, [], ℕ, List, Option, Some, length, map, true};
ghost use Rattle.ocm_types.specs.declared.addresses.Address.{Address};
ghost use Rattle.ocm_types.specs.declared.letters.Offer.{Offer};
ghost use Rattle.ocm_types.specs.declared.phases.Phase.TheVariants.{Accepting, Declined};
ghost use Rattle.ocm_types.specs.declared.phases.RequestPhase.TheVariants.{Undone};
ghost use Rattle.ocm_types.specs.declared.rights.Rights.{Rights};
ghost use Rattle.ocm_path.specs.Paths.{Segments};
ghost use Rattle.ocm_entry.specs.declared.asks.Ask.TheVariants.{Local};
ghost use Rattle.ocm_entry.specs.declared.asks.Cmd.TheVariants as commands;
ghost use Rattle.ocm_entry.specs.declared.replies.Reply.{Reply};
ghost use Rattle.ocm_entry.specs.declared.rows.Request.{Request};
ghost use Rattle.ocm_rules.specs.declared.rows.Message.{Message};
ghost use Rattle.ocm_rules.specs.declared.rows.ReceivedRow.{ReceivedRow};
ghost use Rattle.ocm_rules.specs.declared.rows.ShareRow.{ShareRow};
ghost use Rattle.ocm_rules.specs.Numbers.{at_number};
ghost use Rattle.ocm_rules.specs.Users.{user_of_key};
ghost use Rattle.ocm_rules.specs.Shares.{own_share};
ghost use Rattle.ocm_rules.specs.Requests.{Reshare};
ghost use Rattle.ocm_rules.specs.Views.{cut_by};
ghost use Rattle.ocm_rules.specs.Messages.{acceptance, at_end, at_limit, offered, refusal, reshare_request, undo};
ghost use Rattle.ocm_rules.specs.State.{State, changed_at, new_request_row, new_sent_row, new_share_row, step, view_in};

/// A user's new share stands behind the others, and its offer is sent.
pub fn share_step()
    ensures { (st : State) (key : List ℕ) (path : Segments) (with : Address) (perms : Rights) (fresh : List ℕ) (reply : Reply) (owner : ℕ) → user_of_key st.users key ≡ Some owner
        → let share = own_share st.host st.users owner path with perms fresh in
        step st (Local key (commands.Share path with perms fresh)) reply ≡ record st {
          shares = st.shares ++ new_share_row share ∷ [];
          sent = st.sent ++ new_sent_row (offered (view_in st) (length st.shares + 1) share) ∷ [];
        } }
{}

/// A share that is unshared is closed, and the guests of all that end by it are told.
pub fn unshare_step()
    ensures { (st : State) (key : List ℕ) (id : ℕ) (reply : Reply)
        → step st (Local key (commands.Unshare id)) reply ≡ record st {
          shares = changed_at id (λ (row : ShareRow). record row { closed = true }) st.shares;
          sent = st.sent ++ map new_sent_row (at_end (view_in st) (cut_by (view_in st) id));
        } }
{}

/// A share that is limited has these permissions, and the guests who may do something else by it are told.
pub fn limit_step()
    ensures { (st : State) (key : List ℕ) (id : ℕ) (perms : Rights) (reply : Reply)
        → step st (Local key (commands.Limit id perms)) reply ≡ record st {
          shares = changed_at id (λ (row : ShareRow). record row { perms = perms }) st.shares;
          limits = st.limits + 1;
          sent = st.sent ++ map new_sent_row (at_limit (view_in st) id perms);
        } }
{}

/// A share that is given an end has it.
pub fn expire_step()
    ensures { (st : State) (key : List ℕ) (id until : ℕ) (reply : Reply)
        → step st (Local key (commands.Expire id until)) reply ≡ record st { shares = changed_at id (λ (row : ShareRow). record row { end = Some until }) st.shares } }
{}

/// A record that is accepted waits for the answer, and its owner is told.
pub fn accept_step()
    ensures { (st : State) (key : List ℕ) (number : ℕ) (reply : Reply) (offer : Offer) → at_number (view_in st).offers number ≡ Some offer
        → step st (Local key (commands.Accept number)) reply ≡ record st {
          received = changed_at number (λ (row : ReceivedRow). record row { phase = Accepting }) st.received;
          sent = st.sent ++ new_sent_row (acceptance number offer) ∷ [];
        } }
{}

/// A record that is declined is so at once, and its owner is told.
pub fn decline_step()
    ensures { (st : State) (key : List ℕ) (number : ℕ) (reply : Reply) (offer : Offer) → at_number (view_in st).offers number ≡ Some offer
        → step st (Local key (commands.Decline number)) reply ≡ record st {
          received = changed_at number (λ (row : ReceivedRow). record row { phase = Declined }) st.received;
          sent = st.sent ++ new_sent_row (refusal number offer) ∷ [];
        } }
{}

/// A request to share further stands behind the others, and goes to the owner of its record.
pub fn reshare_step()
    ensures { (st : State) (key : List ℕ) (number : ℕ) (with : Address) (perms : Option Rights) (reply : Reply) (offer : Offer) → at_number (view_in st).offers number ≡ Some offer
        → let request : Reshare = record { received = number; with = with; perms = perms } in
        step st (Local key (commands.Reshare number with perms)) reply ≡ record st {
          requests = st.requests ++ new_request_row request ∷ [];
          sent = st.sent ++ new_sent_row (reshare_request (length st.requests + 1) with perms offer) ∷ [];
        } }
{}

/// A request that is taken back is so at once, and the owner of its record is told.
pub fn undo_step()
    ensures { (st : State) (key : List ℕ) (request : ℕ) (reply : Reply) (message : Message) → undo (view_in st) request ≡ Some message
        → step st (Local key (commands.Undo request)) reply ≡ record st {
          requests = changed_at request (λ (row : Request). record row { state = Undone }) st.requests;
          sent = st.sent ++ new_sent_row message ∷ [];
        } }
{}

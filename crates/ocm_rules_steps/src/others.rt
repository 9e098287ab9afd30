//! Ticks, new users, offers, and answers to messages.
ghost use Rattle.std.specs.Prelude.{◌≡◌, ◌++◌, ◌∷◌, [], ℕ, List, Option, Some, false, true};
ghost use Rattle.ocm_types.specs.declared.letters.Offer.{Offer};
ghost use Rattle.ocm_entry.specs.declared.asks.Ask.TheVariants as asks;
ghost use Rattle.ocm_entry.specs.declared.replies.Reply.{Reply};
ghost use Rattle.ocm_entry.specs.declared.replies.Reply.TheVariants.{Key};
ghost use Rattle.ocm_entry.specs.declared.rows.Request.{Request};
ghost use Rattle.ocm_rules.specs.declared.rows.Message.{Message};
ghost use Rattle.ocm_rules.specs.declared.rows.ReceivedRow.{ReceivedRow};
ghost use Rattle.ocm_rules.specs.declared.rows.SentRow.{SentRow};
ghost use Rattle.ocm_rules.specs.declared.rows.Subject.TheVariants as subjects;
ghost use Rattle.ocm_rules.specs.Numbers.{at_number};
ghost use Rattle.ocm_rules.specs.Settlements.{is_acceptance, wants_id};
ghost use Rattle.ocm_rules.specs.State.{State, answered_phase, answered_request, changed_at, is_about, new_received_row, step, view_in};

/// A tick moves the moment.
pub fn tick_step()
    ensures { (st : State) (clock : ℕ) (reply : Reply) → step st (asks.Tick clock) reply ≡ record st { moment = clock } }
{}

/// A new user stands behind the others, with the key that was answered.
pub fn user_step()
    ensures { (st : State) (name fresh key : List ℕ) → step st (asks.AddUser name fresh) (Key key) ≡ record st { users = st.users ++ record { name = name; key = key } ∷ [] } }
{}

/// An offer is one more record.
pub fn offer_step()
    ensures { (st : State) (offer : Offer) (reply : Reply) → step st (asks.Offer offer) reply ≡ record st { received = st.received ++ new_received_row offer ∷ [] } }
{}

/// An answer settles its message. That to an acceptance sets the phase of its record besides, that to
/// a request to share further the state of the request, and all others nothing more.
pub fn settle_step()
    ensures acceptance { (st : State) (number status : ℕ) (id : Option (List ℕ)) (reply : Reply) (m : Message) (n : ℕ)
        → at_number (view_in st).messages number ≡ Some m → is_acceptance m.letter ≡ true → m.subject ≡ subjects.Received n
        → step st (asks.Settle number status id) reply ≡ record st {
          received = changed_at n (λ (row : ReceivedRow). record row { phase = answered_phase status row.phase }) st.received;
          sent = changed_at number (λ (row : SentRow). record row { settled = true }) st.sent;
        } }
    ensures request { (st : State) (number status : ℕ) (id : Option (List ℕ)) (reply : Reply) (m : Message) (r : ℕ)
        → at_number (view_in st).messages number ≡ Some m → wants_id m.letter ≡ true → m.subject ≡ subjects.Request r
        → step st (asks.Settle number status id) reply ≡ record st {
          requests = changed_at r (λ (row : Request). record row { state = answered_request status id row.state }) st.requests;
          sent = changed_at number (λ (row : SentRow). record row { settled = true }) st.sent;
        } }
    ensures other { (st : State) (number status : ℕ) (id : Option (List ℕ)) (reply : Reply) (m : Message)
        → at_number (view_in st).messages number ≡ Some m
        → ((n : ℕ) → is_about is_acceptance (subjects.Received n) m ≡ false) → ((r : ℕ) → is_about wants_id (subjects.Request r) m ≡ false)
        → step st (asks.Settle number status id) reply ≡ record st { sent = changed_at number (λ (row : SentRow). record row { settled = true }) st.sent } }
{}

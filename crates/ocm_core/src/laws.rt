//! For which histories the lists of a server stand, each law as the contract of a function that does
//! nothing.
ghost use Rattle.std.specs.Prelude.{◌≡◌, ◌∷◌, [], ℕ, List, IsTrue};
ghost use Rattle.ocm_entry.specs.declared.asks.Ask.{Ask};
ghost use Rattle.ocm_entry.specs.declared.entries.Entry.{Entry};
ghost use Rattle.ocm_entry.specs.declared.replies.Reply.{Reply};
ghost use Rattle.ocm_rules.specs.History.{answer, is_failure, kept};
ghost use Rattle.ocm_rules.specs.State.{State, after, empty_of};
ghost use Rattle.ocm_tables.specs.Tables.{ServerLists};
ghost use Rattle.ocm_core.specs.Standing.{IsAfter, IsNumbered};

/// Before the first entry the lists are those of the empty history.
pub fn lists_begin_empty()
    ensures { (host : List ℕ) → IsAfter (empty_of host) [] }
{}

/// After an entry that the rules give, the lists are those that its reply makes.
pub fn lists_go_on_by_what_the_rules_give()
    ensures { (st : State) (g : List Entry) (ask : Ask) → IsAfter st g
        → let reply = answer st.host g ask in IsAfter (after st ask reply) (record { ask = ask; reply = reply } ∷ g) }
{}

/// An entry that changes nothing leaves the numbers of those that are kept.
pub fn numbers_stay_where_nothing_changes()
    ensures { (lists : ServerLists) (g : List Entry) (e : Entry) → IsNumbered lists g → kept lists.state.host (e ∷ g) ≡ kept lists.state.host g → IsNumbered lists (e ∷ g) }
{}

/// An entry that tells that the server could not do it leaves the lists as they are.
pub fn lists_stay_where_the_server_could_not()
    ensures { (st : State) (g : List Entry) (ask : Ask) (reply : Reply) → IsAfter st g → IsTrue (is_failure reply) → IsAfter st (record { ask = ask; reply = reply } ∷ g) }
{}

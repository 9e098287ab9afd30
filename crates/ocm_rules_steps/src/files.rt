//! Files: what the holder of a secret puts, makes, deletes, copies and moves.
ghost use Rattle.std.specs.Prelude.{◌≡◌, ℕ, Bool, List, Some};
ghost use Rattle.ocm_path.specs.Paths.{Segments};
ghost use Rattle.ocm_entry.specs.declared.asks.Ask.TheVariants as asks;
ghost use Rattle.ocm_entry.specs.declared.asks.Method.TheVariants.{Put, Delete, Mkcol};
ghost use Rattle.ocm_entry.specs.declared.replies.Reply.{Reply};
ghost use Rattle.ocm_entry.specs.declared.rows.Grant.{Grant};
ghost use Rattle.ocm_entry.specs.declared.rows.Standing.TheVariants.{Collection, File};
ghost use Rattle.ocm_rules.specs.Files.{Carried, Gone, Placed, below, nodes_after};
ghost use Rattle.ocm_rules.specs.Views.{grant_in};
ghost use Rattle.ocm_rules.specs.State.{State, step, view_in};

/// What is put stands at its place below the holder's root.
pub fn put_step()
    ensures { (st : State) (secret : List ℕ) (path : Segments) (body : List ℕ) (reply : Reply) (grant : Grant) → grant_in (view_in st) secret ≡ Some grant
        → step st (asks.Dav secret Put path body) reply ≡ record st { nodes = nodes_after (Some (Placed (below grant.root path) (File body))) st.nodes } }
{}

/// A new collection stands at its place.
pub fn mkcol_step()
    ensures { (st : State) (secret : List ℕ) (path : Segments) (body : List ℕ) (reply : Reply) (grant : Grant) → grant_in (view_in st) secret ≡ Some grant
        → step st (asks.Dav secret Mkcol path body) reply ≡ record st { nodes = nodes_after (Some (Placed (below grant.root path) Collection)) st.nodes } }
{}

/// What is deleted is gone, with all below it.
pub fn delete_step()
    ensures { (st : State) (secret : List ℕ) (path : Segments) (body : List ℕ) (reply : Reply) (grant : Grant) → grant_in (view_in st) secret ≡ Some grant
        → step st (asks.Dav secret Delete path body) reply ≡ record st { nodes = nodes_after (Some (Gone (below grant.root path))) st.nodes } }
{}

/// What is copied or moved stands at the second place.
pub fn carry_step()
    ensures { (st : State) (secret : List ℕ) (from to : Segments) (moving overwrite : Bool) (reply : Reply) (grant : Grant) → grant_in (view_in st) secret ≡ Some grant
        → step st (asks.Carry secret from to moving overwrite) reply ≡ record st { nodes = nodes_after (Some (Carried (below grant.root from) (below grant.root to) moving)) st.nodes } }
{}

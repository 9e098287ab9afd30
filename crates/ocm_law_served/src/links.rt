//! A share is live, and lets its guest do something, as all links from it up to its owner say.
ghost use Rattle.std.specs.Prelude.{◌≡◌, ℕ, List, Bool, Some, true};
ghost use Rattle.ocm_entry.specs.declared.entries.Entry.{Entry};
ghost use Rattle.ocm_entry.specs.declared.rows.Share.{Share};
ghost use Rattle.ocm_rules.specs.History.{IsLegal, kept};
ghost use Rattle.ocm_rules.specs.Numbers.{at_number};
ghost use Rattle.ocm_rules.specs.Shares.{effective, is_live, links, made};
ghost use Rattle.ocm_law_served.specs.Links.{IsOpenChain, LeadsUp, all_grant};
ghost use Rattle.ocm_law_served.specs.Requests.{FileRequest, suffices};

/// One list of numbers leads from a share up to its owner: that of the links by which the rules decide.
pub fn one_chain_leads_up_to_the_owner()
    ensures leads { (host : List ℕ) (g : List Entry) (i : ℕ) (m : Share) → IsLegal host g → at_number (made host (kept host g)) i ≡ Some m
        → LeadsUp (made host (kept host g)) m.owner (Some i) (links (made host (kept host g)) i) }
    ensures alone { (host : List ℕ) (g : List Entry) (owner i : ℕ) (chain : List ℕ) → IsLegal host g
        → LeadsUp (made host (kept host g)) owner (Some i) chain → chain ≡ links (made host (kept host g)) i }
{}

/// A share is live exactly where every link from it up to its owner is open.
pub fn a_share_is_live_exactly_where_every_link_is_open()
    ensures live { (host : List ℕ) (g : List Entry) (i : ℕ) (m : Share) → IsLegal host g → at_number (made host (kept host g)) i ≡ Some m
        → is_live host (kept host g) i ≡ true → IsOpenChain host (kept host g) i m (links (made host (kept host g)) i) }
    ensures open { (host : List ℕ) (g : List Entry) (i : ℕ) (m : Share) (chain : List ℕ) → IsLegal host g
        → IsOpenChain host (kept host g) i m chain → is_live host (kept host g) i ≡ true }
{}

/// What a share lets its guest do suffices for a request exactly where the permissions of every link from
/// it up to its owner do.
pub fn rights_suffice_exactly_where_every_link_grants()
    ensures { (host : List ℕ) (g : List Entry) (owner i : ℕ) (chain : List ℕ) (request : FileRequest) → IsLegal host g
        → LeadsUp (made host (kept host g)) owner (Some i) chain
        → suffices request (effective host (kept host g) i) ≡ all_grant host (kept host g) request chain }
{}
